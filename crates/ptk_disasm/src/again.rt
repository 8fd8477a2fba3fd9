//! The image that is assembled from the source of an image.

ghost use Rattle.std.specs.Prelude.{◌≡◌, IfErr, IfOk};
ghost use Rattle.ptk_asm_language.specs.declared.fault.FaultKind.TheVariants as FaultKind;
ghost use Rattle.ptk_disasm.specs.declared.fault.DisasmFault.TheVariants.{Memory};
ghost use Rattle.ptk_disasm.specs.Writing.{IsRefused};

use crate::disassembly::disassemble;
use crate::fault::DisasmFault;
use ptk_asm::{AsmFault, assemble};
use ptk_image::Image;
use std::alloc::Global;

/// The image that is assembled from the source of an image: the same image, with its entry, text, data and bss.
/// The errors are those of `disassemble`; `Memory` also where the assembler runs out of memory.
pub fn assembled_again(alloc: Global, image: &Image) -> Result<Image, DisasmFault>
    ensures same { IfOk result (λ again. again ≡ image.now) }
    ensures refused { IfErr result (λ fault. IsRefused image.now fault) }
{
    let text = disassemble(alloc, image)?;
    match assemble(alloc, text.as_str()) {
        Ok(again) => Ok(again),
        Err(fault) => Err(of_written(&fault)),
    }
}

/// Why the source of an image is not assembled: it is without fault, so memory ran out.
fn of_written(fault: &AsmFault) -> DisasmFault
    requires { fault.now.kind ≡ FaultKind.Memory }
    ensures { result ≡ Memory }
{
    DisasmFault::Memory
}
