//! Texts in a picture.

use std::fmt;

/// What stands for the end of a text that is cut.
const ELLIPSIS: char = '…';

/// A text without the characters of markup, which are written as entities (XML 2.4); a control character, which XML
/// does not have, as a blank.
#[derive(Clone, Copy)]
pub(crate) struct Escaped<'a>(pub(crate) &'a str);

impl fmt::Display for Escaped<'_> {
    fn fmt<W: fmt::Write>(&self, f: &mut fmt::Formatter<W>) -> fmt::Result {
        for character in self.0.chars() {
            write_character(f, character)?;
        }
        Ok(())
    }
}

/// A text of at most this many characters, which is cut if it is longer, and then ends in an ellipsis.
#[derive(Clone, Copy)]
pub(crate) struct Cut<'a> {
    pub(crate) text: &'a str,
    pub(crate) room: usize,
}

impl fmt::Display for Cut<'_> {
    fn fmt<W: fmt::Write>(&self, f: &mut fmt::Formatter<W>) -> fmt::Result {
        let is_cut = self.text.chars().count() > self.room;
        let kept = if is_cut {
            self.room.saturating_sub(1)
        } else {
            self.room
        };
        for character in self.text.chars().take(kept) {
            write_character(f, character)?;
        }
        if is_cut {
            f.write_char(ELLIPSIS)?;
        }
        Ok(())
    }
}

/// Writes a character of a text.
fn write_character<W: fmt::Write>(f: &mut fmt::Formatter<W>, character: char) -> fmt::Result {
    match character {
        '&' => f.write_str("&amp;"),
        '<' => f.write_str("&lt;"),
        '>' => f.write_str("&gt;"),
        control if control < ' ' => f.write_char(' '),
        plain => f.write_char(plain),
    }
}
