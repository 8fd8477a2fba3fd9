//! The line at which a report is not the expected one.

use std::fmt;
use std::io::Write;

/// The most bytes of a line that are shown.
const MOST_SHOWN: usize = 120;

/// The bytes of a line, those that are no printable ASCII by their numbers; two dots after the most that are shown.
#[derive(Drop)]
struct Shown<'a>(&'a [u8]);

impl fmt::Display for Shown<'_> {
    fn fmt<W: fmt::Write>(&self, f: &mut fmt::Formatter<W>) -> fmt::Result {
        for byte in self.0.iter().take(MOST_SHOWN) {
            match *byte {
                b' '..=b'~' => f.write_char(char::from(*byte))?,
                other => write!(f, "\\x{other:02x}")?,
            }
        }
        if self.0.len() > MOST_SHOWN {
            f.write_str("..")?;
        }
        Ok(())
    }
}

/// Says on standard error the line of a report that has the byte of this offset, as it is and as it is expected.
pub(crate) fn put_unlike(rt: &HostRuntime, report: &[u8], expected: &[u8], offset: u64) {
    let (is, wanted) = (
        Shown(line_at(report, offset)),
        Shown(line_at(expected, offset)),
    );
    let _told = writeln!(rt.stderr(), "  report:   {is}\n  expected: {wanted}");
}

// The line of a text that has the byte of this offset, without its end; the last line if the text ends there.
fn line_at(bytes: &[u8], offset: u64) -> &[u8] {
    let at = (offset as usize).min(bytes.len());
    let (before, rest) = (&bytes[..at], &bytes[at..]);
    let begun = before
        .iter()
        .rev()
        .take_while(|byte| **byte != b'\n')
        .count();
    let more = rest.iter().take_while(|byte| **byte != b'\n').count();
    bytes
        .get(at.saturating_sub(begun)..at.saturating_add(more))
        .unwrap_or(&[])
}
