//! A TOML text, statement by statement, and the line of the one that states something.

ghost use Rattle.std.specs.Prelude.{◌≤◌, IfOk, length};

use crate::target::Target;
use std::alloc::{AllocError, Global};

/// What a byte of a TOML text stands in.
#[derive(Clone, Copy, PartialEq, Eq)]
enum Within {
    /// A key or a value that is no text, or white space.
    Words,
    /// A comment.
    Comment,
    /// A text between single quotes of this kind.
    Text(u8),
    /// A text between three quotes of this kind.
    LongText(u8),
}

/// How far a text is read.
#[derive(Clone, Copy)]
struct Reader {
    within: Within,
    /// How many brackets are open.
    open: usize,
    /// How many of the next bytes are read already.
    ahead: usize,
}

impl Reader {
    /// Before the first byte.
    fn new() -> Reader {
        Reader {
            within: Within::Words,
            open: 0,
            ahead: 0,
        }
    }

    /// Reads a byte, which the bytes from it on begin with.
    fn read(&mut self, byte: u8, rest: &[u8]) {
        if self.ahead > 0 {
            self.ahead -= 1;
            return;
        }
        match self.within {
            Within::Words => self.read_in_words(byte, rest),
            Within::Comment => {
                if byte == b'\n' {
                    self.within = Within::Words;
                }
            }
            Within::Text(quote) => self.read_in_text(byte, quote),
            Within::LongText(quote) => self.read_in_long_text(byte, rest, quote),
        }
    }

    /// Reads a byte of a key or a value.
    fn read_in_words(&mut self, byte: u8, rest: &[u8]) {
        match byte {
            b'#' => self.within = Within::Comment,
            b'[' | b'{' => self.open = self.open.saturating_add(1),
            b']' | b'}' => self.open = self.open.saturating_sub(1),
            b'"' | b'\'' => match quotes(rest, byte) {
                0 | 1 => self.within = Within::Text(byte),
                2 => self.ahead = 1,
                _ => {
                    self.within = Within::LongText(byte);
                    self.ahead = 2;
                }
            },
            _ => {}
        }
    }

    /// Reads a byte of a text between single quotes of this kind.
    fn read_in_text(&mut self, byte: u8, quote: u8) {
        if byte == b'\\' && quote == b'"' {
            self.ahead = 1;
        } else if byte == quote {
            self.within = Within::Words;
        }
    }

    /// Reads a byte of a text between three quotes of this kind.
    fn read_in_long_text(&mut self, byte: u8, rest: &[u8], quote: u8) {
        if byte == b'\\' && quote == b'"' {
            self.ahead = 1;
            return;
        }
        let count = quotes(rest, quote);
        if count >= 3 {
            self.within = Within::Words;
            self.ahead = count - 1;
        }
    }

    /// Whether a line that ends here ends a statement, a comment or nothing.
    fn is_between(&self) -> bool {
        self.within == Within::Words && self.open == 0 && self.ahead == 0
    }
}

/// How many quotes of this kind the bytes begin with, of the first 5, of which 2 may be text before the 3 of an end.
fn quotes(bytes: &[u8], quote: u8) -> usize {
    bytes
        .iter()
        .take(5)
        .take_while(|byte| **byte == quote)
        .count()
}

/// The beginnings of a TOML document that end with a statement, shortest first, the whole last. An error if memory was
/// refused.
fn beginnings(alloc: Global, bytes: &[u8]) -> Result<Vec<&[u8]>, AllocError> {
    let mut found = Vec::new(alloc);
    let mut reader = Reader::new();
    for (index, byte) in bytes.iter().enumerate() {
        reader.read(*byte, &bytes[index..]);
        if *byte == b'\n' && reader.is_between() {
            found.push(&bytes[..index + 1])?;
        }
    }
    found.push(bytes)?;
    Ok(found)
}

/// Whether the beginning of a document states the target. An error if memory was refused.
fn states(alloc: Global, beginning: &[u8], target: &Target<'_>) -> Result<bool, AllocError> {
    match toml::table_from_slice(alloc, beginning) {
        Ok(document) => Ok(target.is_in(&document)),
        Err(error) if error.is_memory() => Err(AllocError),
        Err(_) => Ok(false),
    }
}

/// How many of these beginnings do not state the target: what a beginning states, a longer one states too. An error if
/// memory was refused.
fn count_before(
    alloc: Global,
    beginnings: &[&[u8]],
    target: &Target<'_>,
) -> Result<usize, AllocError>
    ensures { IfOk result (λ count. count ≤ length beginnings.now) }
{
    let (mut low, mut high) = (0, beginnings.len());
    while low < high {
        let middle = low + (high - low) / 2;
        if states(alloc, beginnings[middle], target)? {
            high = middle;
        } else {
            low = middle + 1;
        }
    }
    Ok(low)
}

/// The line, counted from 1, of the byte after these: one more than their line feeds.
pub(crate) fn line_after(bytes: &[u8]) -> usize {
    1 + bytes.iter().filter(|byte| **byte == b'\n').count()
}

/// The line, counted from 1, at which the statement begins that states the target in a document. An error if memory was
/// refused.
pub(crate) fn line_of(alloc: Global, text: &str, target: &Target<'_>) -> Result<usize, AllocError> {
    let beginnings = beginnings(alloc, text.as_bytes())?;
    match count_before(alloc, &beginnings, target)? {
        0 => Ok(1),
        before => Ok(line_after(beginnings[before - 1])),
    }
}
