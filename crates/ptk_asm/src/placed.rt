//! Statements where they stand.

ghost use Rattle.std.specs.Prelude.{◌≡◌, ◌+◌, ◌≤◌, true};
ghost use Rattle.ptk_asm_language.specs.Statements.{stands_in};

use crate::statements::Statement;
use ptk_asm_language::{Extent, Place, Span};

/// A statement where it stands, in a section that has room for its form, and the bytes of its last token in its line,
/// which is its label where it has one.
#[derive(Drop)]
pub(crate) struct Placed<'a> {
    pub(crate) span: Span,
    pub(crate) place: Place,
    pub(crate) last: Extent,
    pub(crate) statement: Statement<'a>,
    ghost ordered: { span.start ≤ span.end },
    ghost forward: { last.from ≤ last.to },
    ghost inside: { span.start + last.to ≤ span.end },
    ghost stands: { stands_in statement.form place.section ≡ true },
}
