//! The text of a JSON object.

ghost use Rattle.std.specs.Prelude.{◌≡◌, IfErr};

use ptk_main_tools::Fault;
use serde::Serialize;
use std::alloc::Global;

/// The JSON text of a value, with no blank and no newline. A fault if memory was refused.
pub(crate) fn json_text<T: Serialize>(alloc: Global, value: &T) -> Result<String, Fault<'static>>
    ensures { IfErr result (λ fault. fault ≡ Fault.NoMemory) }
{
    match serde_json::to_string(alloc, value) {
        Ok(text) => Ok(text),
        Err(_) => Err(Fault::NoMemory),
    }
}
