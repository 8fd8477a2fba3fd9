//! Tokens.

/// A token, by its bytes in the source.
#[derive(Clone, Copy)]
pub enum Token<'a> {
    /// A letter, `_` or `.`, then letters, digits, `_` and `.`.
    Name(&'a [u8]),
    /// The bytes of a number: decimal, or `0x` and hexadecimal digits, with an optional `-`.
    Number(&'a [u8]),
    /// One of `,`, `(`, `)` and `:`.
    Mark(u8),
}

/// A token with the place where it stands in its line.
#[derive(Clone, Copy)]
pub struct Spanned<'a> {
    /// The token.
    pub token: Token<'a>,
    /// Its first byte, counted from the line's beginning.
    pub from: usize,
    /// The byte after its last one.
    pub to: usize,
}
