//! Where and why a source is refused.

use ptk_asm::AsmFault;
use std::io;
use std::io::Write;

/// The longest piece of a source that is shown.
const MOST_SHOWN: usize = 32;

/// Writes where a source is refused, the column counted in bytes from 1, what is there, and why. An error if
/// `out` refuses the bytes.
pub fn put_place<W: Write>(source: &[u8], fault: &AsmFault, out: &mut W) -> io::Result<()> {
    let (line, column, kind) = (fault.line, column_of(source, fault.from), fault.kind);
    write!(out, "line {line}, column {column}: ")?;
    let piece = source.get(fault.from..fault.to).unwrap_or(&[]);
    if is_shown(piece) {
        out.write_all(piece)?;
        out.write_all(b": ")?;
    }
    writeln!(out, "{kind}")
}

// The column of a byte, counted in bytes from 1.
fn column_of(source: &[u8], at: usize) -> usize {
    let before = &source[..at.min(source.len())];
    before
        .iter()
        .rev()
        .take_while(|byte| **byte != b'\n')
        .count()
        + 1
}

// Whether a piece of a source is short and of printable ASCII.
fn is_shown(piece: &[u8]) -> bool {
    !piece.is_empty()
        && piece.len() <= MOST_SHOWN
        && piece.iter().all(|byte| matches!(*byte, b' '..=b'~'))
}
