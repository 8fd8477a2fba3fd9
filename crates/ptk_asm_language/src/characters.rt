//! The characters of the language.

ghost use Rattle.std.specs.Prelude.{◌≡◌};
ghost use Rattle.ptk_asm_language.specs.Tokens as is;
ghost use Rattle.ptk_asm_language.specs.Places as places;

/// A blank or a tab.
#[tactic(auto, unfolding(crate::specs::Tokens::is_blank))]
pub(crate) fn is_blank(c: u8) -> bool
    ensures { result ≡ is.is_blank c }
{
    c == b' ' || c == b'\t'
}

/// A letter, `_` or `.`.
#[tactic(auto, unfolding(crate::specs::Tokens::is_first, crate::specs::Tokens::is_letter))]
pub(crate) fn is_first(c: u8) -> bool
    ensures { result ≡ is.is_first c }
{
    (b'a' <= c && c <= b'z') || (b'A' <= c && c <= b'Z') || c == b'_' || c == b'.'
}

/// A character of names and numbers.
#[tactic(auto, unfolding(crate::specs::Tokens::is_run, crate::specs::Tokens::is_digit))]
pub(crate) fn is_run(c: u8) -> bool
    ensures { result ≡ is.is_run c }
{
    is_first(c) || (b'0' <= c && c <= b'9')
}

/// One of `,`, `(`, `)` and `:`.
#[tactic(auto, unfolding(crate::specs::Tokens::is_mark))]
pub(crate) fn is_mark(c: u8) -> bool
    ensures { result ≡ is.is_mark c }
{
    c == b',' || c == b'(' || c == b')' || c == b':'
}

/// A byte of a character that is not its first, by UTF-8.
#[tactic(auto, unfolding(crate::specs::Places::is_continuation))]
pub(crate) fn is_continuation(c: u8) -> bool
    ensures { result ≡ places.is_continuation c }
{
    0x80 <= c && c <= 0xbf
}
