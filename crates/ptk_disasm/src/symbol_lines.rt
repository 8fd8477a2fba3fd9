//! The symbol of a line.

ghost use Rattle.std.specs.Prelude.{◌≡◌, option_map};
ghost use Rattle.std.specs.List.{list_all};
ghost use Rattle.ptk_disasm.specs.Tables as is;

use ptk_asm_language::digit;

/// A symbol: an address and its name.
#[derive(Clone, Copy)]
pub struct Symbol<'a> {
    /// The address.
    pub address: u32,
    /// The name, visible ASCII characters.
    pub name: &'a [u8],
}

/// Characters of an address.
const ADDRESS: usize = 8;

/// Characters of an address, a letter and the blank after each.
const BEFORE_NAME: usize = 11;

/// The address with a digit more, `None` if the byte is no digit or the address no word.
fn address_with(address: u32, byte: u8) -> Option<u32>
    ensures { result ≡ is.address_with address byte }
{
    let next = u64::from(address) * 16 + u64::from(digit(byte)?);
    if next < 1 << 32 {
        Some(next as u32)
    } else {
        None
    }
}

/// The address that hexadecimal digits are.
fn address_of(digits: &[u8]) -> Option<u32>
    ensures { result ≡ is.address_behind 0 digits.now }
{
    let mut address = 0;
    let mut rest = digits;
    while let [byte, later @ ..] = rest {
        address = address_with(address, *byte)?;
        rest = later;
    }
    Some(address)
}

/// Whether a byte is a letter.
fn is_letter(byte: u8) -> bool
    ensures { result ≡ is.is_letter byte }
{
    matches!(byte, b'A'..=b'Z' | b'a'..=b'z')
}

/// Whether a byte is a visible character.
pub(crate) fn is_visible(byte: u8) -> bool
    ensures { result ≡ is.is_visible byte }
{
    matches!(byte, b'!'..=b'~')
}

/// Whether these are a blank, a letter and a blank.
fn is_mark(marks: &[u8]) -> bool
    ensures { result ≡ is.is_mark marks.now }
{
    match marks {
        [first, letter, second] => *first == b' ' && is_letter(*letter) && *second == b' ',
        _ => false,
    }
}

/// Whether a name has visible characters alone.
fn are_visible(name: &[u8]) -> bool
    ensures { result ≡ list_all is.is_visible name.now }
{
    name.iter().all(|byte| is_visible(*byte))
}

/// The symbol of a line without its end.
pub(crate) fn symbol_in(line: &[u8]) -> Option<Symbol<'_>>
    ensures { option_map (λ s. (s.address, s.name.now)) result ≡ is.symbol_in line.now }
{
    if line.len() <= BEFORE_NAME {
        return None;
    }
    if !is_mark(&line[ADDRESS..BEFORE_NAME]) {
        return None;
    }
    let name = &line[BEFORE_NAME..];
    if !are_visible(name) {
        return None;
    }
    let address = address_of(&line[..ADDRESS])?;
    Some(Symbol { address, name })
}
