//! The explanation of a configuration's text, in words.

ghost use Rattle.std.specs.Prelude.{◌≡◌, ◌≢◌, IfErr};
ghost use Rattle.ptk_main_tools.specs.HostFaults.{IsHostFault};

use ptk_config::Refusal;
use ptk_config_explain::explain;
use ptk_main_runs::Files;
use ptk_main_tools::{Fault, put_bytes};
use std::alloc::Global;
use std::io::Write;

/// Writes the explanation of a text with these files: of a configuration that is refused one line that says where and
/// why; of one that is accepted one line that says which image is refused first and why, and if none is, what each
/// partition has. Returns the first fault of the text with its place, None if the text is accepted. A fault if
/// memory was refused, with the writer as it was, or if the writer fails, and of no other kind; how much of the text
/// a failed writer has is not said.
pub fn explain_with<W: Write>(
    alloc: Global,
    text: &str,
    files: &Files,
    out: &mut W,
) -> Result<Option<Refusal>, Fault<'static>>
    ensures failed { IfErr result IsHostFault }
    ensures silent { IfErr result (λ fault. fault ≢ Fault.WriteFailed → out.new ≡ out.old) }
{
    let mut words = Vec::new(alloc);
    match explain(alloc, text, files, &mut words) {
        Ok(found) => {
            put_bytes(words.as_slice(), out)?;
            Ok(found)
        }
        // A write into memory fails only if memory runs out.
        Err(_) => Err(Fault::NoMemory),
    }
}
