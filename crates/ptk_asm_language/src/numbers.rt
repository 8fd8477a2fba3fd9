//! Digits, magnitudes and numbers.

ghost use Rattle.std.specs.Prelude.{◌≡◌, ℕ, ◌<◌, ◌≤◌, IfSome, option_map, is_some, pos, neg_ℤ};
ghost use Rattle.ptk_asm_language.specs.Statements as statement;
ghost use Rattle.ptk_asm_language.specs.Tokens as is;
ghost use Rattle.ptk_asm_language.specs.Reading.{capped, value_of};
ghost use Rattle.ptk_asm_language.specs.Ranges.{kept_below, kept_within};

/// The value of a hexadecimal digit; `None` for another character (ASCII).
#[tactic(auto, unfolding(crate::specs::Tokens::digit, crate::specs::Tokens::is_digit))]
pub fn digit(c: u8) -> Option<u8>
    ensures { result ≡ is.digit c }
{
    match c {
        b'0'..=b'9' => Some(c - b'0'),
        b'a'..=b'f' => Some(c - b'a' + 10),
        b'A'..=b'F' => Some(c - b'A' + 10),
        _ => None,
    }
}

/// The value of a digit of a base, `None` for another character.
#[tactic(auto, unfolding(crate::specs::Tokens::digit_of))]
fn digit_of(base: u8, c: u8) -> Option<u8>
    ensures value { result ≡ is.digit_of base c }
    ensures below { IfSome result (λ d. d < base) }
{
    let value = digit(c)?;
    if value < base { Some(value) } else { None }
}

/// The number that digits of a base spell, kept at 2^40 at most; None where there is no digit or another character.
#[tactic(auto, unfolding(crate::specs::Reading::capped), using(crate::proofs::Magnitudes::spelled_step, crate::proofs::Magnitudes::spelled_stop))]
fn spelled(base: u8, digits: &[u8]) -> Option<u64>
    requires positive { 0 < base }
    requires small { base ≤ 16 }
    ensures { result ≡ option_map capped (is.spelled base digits.now) }
{
    if digits.is_empty() {
        return None;
    }
    let mut number = 0u64;
    for c in digits {
        let value = digit_of(base, *c)?;
        number = (number * u64::from(base) + u64::from(value)).min(1 << 40);
    }
    Some(number)
}

/// The number that decimal digits, or `0x` and hexadecimal digits, spell, kept at 2^40 at most; None for another text.
pub fn magnitude(text: &[u8]) -> Option<u64>
    ensures { result ≡ option_map capped (is.magnitude text.now) }
{
    if let [b'0', b'x', digits @ ..] = text {
        return spelled(16, digits);
    }
    spelled(10, text)
}

/// Whether a text is a number: a magnitude, with an optional `-` before it.
pub fn is_number(text: &[u8]) -> bool
    ensures { result ≡ is_some (is.number text.now) }
{
    if let [b'-', digits @ ..] = text {
        return magnitude(digits).is_some();
    }
    magnitude(text).is_some()
}

/// A magnitude that is at most a limit; None for a greater one.
#[tactic(auto, using(crate::proofs::Magnitudes::capped_below, crate::proofs::Magnitudes::capped_above))]
fn at_most(magnitude: u64, limit: u32) -> Option<u32>
    ensures { (n : ℕ) → magnitude ≡ capped n → result ≡ kept_below n limit }
{
    if magnitude <= u64::from(limit) {
        Some(magnitude as u32)
    } else {
        None
    }
}

/// A magnitude as a number, where it is at most `above`.
fn positive_within(magnitude: u64, below: u32, above: u32) -> Option<i64>
    ensures { (n : ℕ) → magnitude ≡ capped n → result ≡ kept_within below above (pos n) }
{
    let _below = below;
    Some(i64::from(at_most(magnitude, above)?))
}

/// A magnitude with a `-` before it as a number, where it is at most `below`.
fn negative_within(magnitude: u64, below: u32, above: u32) -> Option<i64>
    ensures { (n : ℕ) → magnitude ≡ capped n → result ≡ kept_within below above (neg_ℤ (pos n)) }
{
    let _above = above;
    Some(-i64::from(at_most(magnitude, below)?))
}

/// The number that a text spells, 0 where it spells none; None where it is not from `-below` to `above`.
pub fn value_within(text: &[u8], below: u32, above: u32) -> Option<i64>
    ensures { result ≡ kept_within below above (value_of text.now) }
{
    if let [b'-', digits @ ..] = text {
        return match magnitude(digits) {
            Some(number) => negative_within(number, below, above),
            None => Some(0),
        };
    }
    match magnitude(text) {
        Some(number) => positive_within(number, below, above),
        None => Some(0),
    }
}

/// Whether a number is an immediate of 12 bits, so that one addi from x0 makes it: -2048 to 2047 (RISC-V 2.4).
pub fn is_short(number: i64) -> bool
    ensures { result ≡ statement.is_short number }
{
    -2048 <= number && number <= 2047
}
