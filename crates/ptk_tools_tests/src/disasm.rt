//! An image and its text, which makes that image again, and a section that is too long for a text.

use ptk_asm::assemble;
use ptk_asm_language::Section;
use ptk_disasm::{DisasmFault, assembled_again, disassemble};
use ptk_image::Image;
use std::alloc::Global;
use std::test::Fail;

/// The entry in the text, a jump back, a word that is no instruction, data that is no whole word, and zeros. The words
/// are put together field by field (RISC-V 2.3).
const TEXT: &str = "li a0, -1 # 00000000 fff00513
_start:
beq a0, a1, -4 # 00000004 feb50ee3 -> 00000000
lw a1, 8(sp) # 00000008 00812583
j 8 # 0000000c 0080006f -> 00000014
.word 0x0 # 00000010 00000000
ret # 00000014 00008067
.data # 00000018
.word 0x4030201 # 00000018
.byte 255 # 0000001c
.bss # 0000001d
.space 3 # 0000001d
";

/// The text of three zeros.
const ZEROS: &str = "_start:\n.data # 00000000\n.bss # 00000000\n.space 3 # 00000000\n";

// Whether an image is shown by the text, and its text makes an image with the entry.
fn is_shown(alloc: Global, image: &Image) -> Result<bool, Fail> {
    let text = disassemble(alloc, image)?;
    let again = assembled_again(alloc, image)?;
    Ok(text.as_str() == TEXT && again.entry() == 4)
}

#[test]
fn a_text_makes_its_image_again(rt: HostRuntime) -> Result<(), Fail> {
    let image = assemble(rt.alloc(), TEXT)?;
    assert!(rt; is_shown(rt.alloc(), &image)?);
    Ok(())
}

#[test]
fn no_text_has_a_longer_section(rt: HostRuntime) {
    let image = Image::new(0, Vec::new(rt.alloc()), Vec::new(rt.alloc()), 1_048_577);
    let refusal = disassemble(rt.alloc(), &image).err();
    assert!(rt; refusal == Some(DisasmFault::TooLong(Section::Bss)));
}

// Memory is ample here; if it is refused (`rt try --test --fail-alloc N`), the call says so and succeeds as it is
// asked again.
#[test]
fn a_text_is_refused_memory_alone(rt: HostRuntime) {
    let image = Image::new(0, Vec::new(rt.alloc()), Vec::new(rt.alloc()), 3);
    let text = match disassemble(rt.alloc(), &image) {
        Ok(text) => Some(text),
        Err(fault) => {
            assert!(rt; fault == DisasmFault::Memory);
            disassemble(rt.alloc(), &image).ok()
        }
    };
    let is_zeros = match text {
        Some(text) => text.as_str() == ZEROS,
        None => false,
    };
    assert!(rt; is_zeros);
}
