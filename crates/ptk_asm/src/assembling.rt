//! The image of a source.

ghost use Rattle.std.specs.Prelude.{◌≡◌, Ok, IfOk, IfErr};
ghost use Rattle.ptk_asm_language.specs.Source as definition;
ghost use Rattle.ptk_asm.specs.Laws.{WordsDecode};
ghost use Rattle.ptk_asm.specs.Passing.{IsFirst};

use crate::fault::AsmFault;
use crate::first_pass::first_pass;
use crate::layout::lengths_fit;
use crate::second_pass::second_pass;
use ptk_image::Image;
use std::alloc::Global;

/// The image of a source, which is lines of the assembly language (docs/ASSEMBLY.md): text and data with the addresses
/// of labels, the length of the zeros behind them, and the entry, which is the label `_start` where it is in the text,
/// else 0. The words of each statement that is not a directive decode to the instructions written. The error is the
/// first fault that stands in the source: those of the first pass come first, line by line (`Token`, `DoubledLabel`,
/// `Mnemonic`, `Register`, `Range`), then unknown labels and distances by label (`UnknownLabel`, `Range`); it names the
/// line, counted from 1, and the exact bytes of the source at fault, which lie within that line. `Memory` comes only
/// where memory was refused, with the line that was being read or written.
pub fn assemble(alloc: Global, source: &str) -> Result<Image, AsmFault>
    ensures image { IfOk result (λ image. definition.source source.now ≡ Ok image) }
    ensures words { IfOk result (λ image. WordsDecode source.now) }
    ensures fault { IfErr result (λ fault. IsFirst fault.kind fault (definition.source source.now)) }
{
    let layout = first_pass(alloc, source.as_bytes())?;
    let contents = second_pass(alloc, &layout)?;
    lengths_fit(layout.lengths);
    Ok(Image::new(
        layout.entry,
        contents.text,
        contents.data,
        layout.lengths.bss,
    ))
}
