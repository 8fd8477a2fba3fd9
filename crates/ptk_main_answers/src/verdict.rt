//! The answer to a check as one JSON object.

ghost use Rattle.std.specs.Prelude.{◌≡◌, ◌≢◌, IfErr};
ghost use Rattle.ptk_main_tools.specs.HostFaults.{IsHostFault};

use crate::text::json_text;
use ptk_main_runs::{Value, put_members};
use ptk_main_tools::{Fault, put_bytes};
use serde::{Described, Serialize, Serializer};
use std::alloc::Global;
use std::io::Write;

/// The answer to a check: the line of a fault, if there is one, and the explanation.
#[derive(Clone, Copy)]
struct Check<'a> {
    line: Option<&'a str>,
    explanation: &'a str,
}

impl Described for Check<'_> {}

impl Serialize for Check<'_> {
    fn serialize<S: Serializer>(&self, out: &mut S) -> Result<(), S::Error> {
        out.begin_map(None)?;
        put_members(&[("format", Value::Word("ptk check 1"))], out)?;
        put_answer(self.line, out)?;
        put_members(&[("explanation", Value::Word(self.explanation))], out)?;
        out.end_map()
    }
}

/// Puts the members of an answer: `ok`, or the line of a fault. An error if `out` gives one.
fn put_answer<S: Serializer>(line: Option<&str>, out: &mut S) -> Result<(), S::Error> {
    match line {
        None => put_members(&[("answer", Value::Word("ok"))], out),
        Some(line) => {
            let members = [
                ("answer", Value::Word("refused")),
                ("fault", Value::Word(line)),
            ];
            put_members(&members, out)
        }
    }
}

/// Writes the answer to a check as one JSON object and a newline: `ok`, or the line of the fault for which the
/// configuration or an image is refused, and what `check --explain` says. A fault if memory was refused, with the
/// writer as it was, or if the writer failed.
pub fn check_document<W: Write>(
    alloc: Global,
    fault: Option<&Fault<'_>>,
    explanation: &str,
    out: &mut W,
) -> Result<(), Fault<'static>>
    ensures failed { IfErr result IsHostFault }
    ensures silent { IfErr result (λ fault. fault ≢ Fault.WriteFailed → out.new ≡ out.old) }
{
    let mut text = answer_text(alloc, fault, explanation)?;
    text.push_str("\n")?;
    put_bytes(text.as_bytes(), out)
}

/// The JSON text of the answer to a check, for the fault that was found, if there is one. A fault if memory was
/// refused.
fn answer_text(
    alloc: Global,
    fault: Option<&Fault<'_>>,
    explanation: &str,
) -> Result<String, Fault<'static>>
    ensures { IfErr result (λ fault. fault ≡ Fault.NoMemory) }
{
    match fault {
        None => check_text(alloc, None, explanation),
        Some(fault) => {
            let line = format!(in alloc; "{fault}")?;
            check_text(alloc, Some(line.as_str()), explanation)
        }
    }
}

/// The JSON text of the answer to a check, with this line of a fault. A fault if memory was refused.
fn check_text(
    alloc: Global,
    line: Option<&str>,
    explanation: &str,
) -> Result<String, Fault<'static>>
    ensures { IfErr result (λ fault. fault ≡ Fault.NoMemory) }
{
    let check = Check { line, explanation };
    json_text(alloc, &check)
}
