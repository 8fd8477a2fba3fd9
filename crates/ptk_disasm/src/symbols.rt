//! A symbol table, and the symbol at an address, which is found by halving.

ghost use Rattle.std.specs.Prelude.{◌≡◌, ◌≤◌, ◌↔◌, ◌++◌, ◌==◌, ◌∷◌, [], find, length, nat_le, nat_lt, option_map, IfSome, IsTrue, OnOk, filter, if◌then◌else◌, string_bytes};
ghost use Rattle.std.specs.List.{position_or_len};
ghost use Rattle.ptk_disasm.specs.Tables as is;
ghost use Rattle.ptk_disasm.specs.Looking as shown;

use crate::symbol_lines::{Symbol, is_visible};
use std::alloc::{AllocError, Global};
use std::fmt::Write;
use std::marker::Model;

/// Names of addresses: to a caller a list in the order of the text.
#[derive(Drop)]
pub struct Symbols<'a> {
    /// The text that they are read from.
    pub(crate) text: &'a [u8],
    /// The symbols in order of addresses, those of one address as in the text.
    pub(crate) by_address: Vec<Symbol<'a>>,
}

impl<'a> Model for Symbols<'a> {
    ghost use Rattle.std.specs.Prelude.{ℕ, List};
    ghost use Rattle.ptk_disasm.specs.Tables.{symbols_of};
    ghost use Rattle.ptk_disasm.specs.Looking.{IsOrderOf};

    ghost Value = { List (ℕ × List ℕ) };

    ghost view = { λ s. symbols_of s.text.now };

    ghost invariant = { λ s. IsOrderOf (symbols_of s.text.now) s.by_address.items };
}

/// The symbol that is nearest to an address, and the distance of the address from its beginning.
#[derive(Clone, Copy)]
pub struct Located<'a> {
    /// The symbol's name, visible ASCII characters.
    pub name: &'a [u8],
    /// The distance in bytes.
    pub distance: u32,
}

impl<'a> Symbols<'a> {
    /// No symbol.
    pub fn new(alloc: Global) -> Symbols<'a>
        ensures { result ≡ [] }
    {
        Symbols {
            text: &[],
            by_address: Vec::new(alloc),
        }
    }

    /// Whether there is no symbol.
    pub fn is_empty(&self) -> bool
        ensures { IsTrue result ↔ (self.now ≡ []) }
    {
        self.by_address.as_slice().is_empty()
    }

    /// The symbol that begins last at or below an address, of those that begin there the first of the text, and the
    /// distance from its beginning. None if every symbol begins above.
    pub fn nearest(&self, address: u32) -> Option<Located<'a>>
        ensures { option_map (λ n. (n.name.now, n.distance)) result ≡ is.nearest self.now address }
    {
        let symbol = self.last_below(address)?;
        Some(Located {
            name: symbol.name,
            distance: address - symbol.address,
        })
    }

    /// The symbol that begins last at or below an address, of those that begin there the first of the text.
    fn last_below(&self, address: u32) -> Option<Symbol<'a>>
        ensures value { shown.found_pair result ≡ is.last_below address self.now }
        ensures below { IfSome result (λ s. s.address ≤ address) }
    {
        last_below(self.by_address.as_slice(), address)
    }

    /// The first symbol of the text that begins at an address, at a distance of 0. None if none begins there.
    fn exact(&self, address: u32) -> Option<Located<'a>>
        ensures { option_map (λ n. (n.name.now, n.distance)) result ≡ is.exact self.now address }
    {
        let symbol = symbol_at(self.by_address.as_slice(), address)?;
        Some(Located {
            name: symbol.name,
            distance: 0,
        })
    }

    /// Appends the name of the first symbol of the text that begins at an address, as ` <name>`; nothing if none
    /// begins there. The error is that of the allocator.
    pub fn push_name(&self, out: &mut String, address: u32) -> Result<(), AllocError>
        ensures { OnOk result (string_bytes out.new ≡ string_bytes out.old ++ is.name_text self.now address) }
    {
        push_located(out, self.exact(address))
    }

    /// Appends the symbol that is nearest to an address, as ` <name>` or ` <name+0x4>`; nothing if every symbol
    /// begins above. The error is that of the allocator.
    pub fn push_place(&self, out: &mut String, address: u32) -> Result<(), AllocError>
        ensures { OnOk result (string_bytes out.new ≡ string_bytes out.old ++ is.place_text self.now address) }
    {
        push_located(out, self.nearest(address))
    }
}

/// A name, if it is UTF-8.
pub fn text_in(name: &[u8]) -> Option<&str>
    ensures { option_map (λ text. text.now) result ≡ is.text_in name.now }
{
    match str::from_utf8(name) {
        Ok(text) => Some(text),
        Err(_) => None,
    }
}

/// The place of the first symbol that begins at an address or above, the number of symbols if none does.
fn place_from(symbols: &[Symbol<'_>], from: u64) -> usize
    requires { shown.AreInOrder symbols.now }
    ensures place { result ≡ position_or_len (λ s. nat_le from s.address) symbols.now }
    ensures bound { result ≤ length symbols.now }
{
    symbols.partition_point(
        |symbol: &Symbol| -> bool
            ensures { result ≡ nat_lt symbol.now.address from }
        { u64::from(symbol.address) < from },
    )
}

/// The first symbol at an address.
fn symbol_at<'a>(symbols: &[Symbol<'a>], address: u32) -> Option<Symbol<'a>>
    requires { shown.AreInOrder symbols.now }
    ensures { shown.found_pair result ≡ find (λ s. s.0 == address) (shown.pairs symbols.now) }
{
    let place = place_from(symbols, u64::from(address));
    if place == symbols.len() {
        return None;
    }
    let symbol = symbols[place];
    if symbol.address == address {
        Some(symbol)
    } else {
        None
    }
}

/// The symbol that begins last at or below an address, of those that begin there the first.
fn last_below<'a>(symbols: &[Symbol<'a>], address: u32) -> Option<Symbol<'a>>
    requires { shown.AreInOrder symbols.now }
    ensures value { shown.found_pair result ≡ is.last_below address (shown.pairs symbols.now) }
    ensures below { IfSome result (λ s. s.address ≤ address) }
{
    let above = place_from(symbols, u64::from(address) + 1);
    if above == 0 {
        return None;
    }
    symbol_at(symbols, symbols[above - 1].address)
}

/// Appends a visible character; nothing for another byte.
fn push_character(out: &mut String, byte: u8) -> Result<(), AllocError>
    ensures { OnOk result (string_bytes out.new ≡ string_bytes out.old ++ (if is.is_visible byte then byte ∷ [] else [])) }
{
    if is_visible(byte) {
        out.push(char::from(byte))?;
    }
    Ok(())
}

/// Appends the visible characters of a name.
fn push_visible(out: &mut String, name: &[u8]) -> Result<(), AllocError>
    ensures { OnOk result (string_bytes out.new ≡ string_bytes out.old ++ filter is.is_visible name.now) }
{
    let mut rest = name;
    while let [byte, later @ ..] = rest {
        push_character(out, *byte)?;
        rest = later;
    }
    Ok(())
}

/// Appends a distance that is not 0, in hexadecimal.
fn push_distance(out: &mut String, distance: u32) -> Result<(), AllocError>
    ensures { OnOk result (string_bytes out.new ≡ string_bytes out.old ++ is.distance_text distance) }
{
    if distance == 0 {
        return Ok(());
    }
    write!(out, "+0x{distance:x}")
}

/// Appends a blank and, in angle brackets, a name with its distance.
fn push_located(out: &mut String, found: Option<Located<'_>>) -> Result<(), AllocError>
    ensures { OnOk result (string_bytes out.new ≡ string_bytes out.old ++ is.bracketed (option_map (λ n. (n.name.now, n.distance)) found.entry)) }
{
    match found {
        Some(located) => {
            out.push_str(" <")?;
            push_visible(out, located.name)?;
            push_distance(out, located.distance)?;
            out.push_str(">")
        }
        None => Ok(()),
    }
}
