//! The source of an image.

ghost use Rattle.std.specs.Prelude.{◌≡◌, ◌<◌, ◌↔◌, true, IfErr, IfOk, IsTrue, OnOk, length, string_bytes};
ghost use Rattle.std.specs.List.{list_all};
ghost use Rattle.ptk_image.specs.Images.{IsImage};
ghost use Rattle.ptk_asm_language.specs.Source.{longest, source};
ghost use Rattle.ptk_disasm.specs.Disassembly.{FitsSource, disassembled, disassembled_with, names_of, is_byte};
ghost use Rattle.ptk_disasm.specs.Writing.{IsRefused};

use crate::fault::DisasmFault;
use crate::lines::{push_addressed, push_data, push_text, push_zeros};
use crate::symbols::Symbols;
use ptk_asm_language::{Form, Section};
use ptk_image::Image;
use std::alloc::{AllocError, Global};

/// Greatest length of a section that the assembly language allows.
const LONGEST: usize = 1_048_576;

/// The lines of an image, whose parts fit together as those of every image.
fn written(alloc: Global, image: &Image, symbols: &Symbols) -> Result<String, AllocError>
    requires { FitsSource image.now }
    ensures text { IfOk result (λ text. string_bytes text ≡ disassembled_with (names_of symbols.now) image.now) }
    ensures whole { IfOk result (λ _. IsImage image.now) }
{
    let (text, data) = (image.text(), image.data());
    let data_at = text.len() as u32;
    let bss_at = data_at + data.len() as u32;
    let mut out = String::new(alloc);
    push_text(&mut out, symbols, image.entry(), text)?;
    push_addressed(&mut out, data_at, Form::Within(Section::Data), None)?;
    push_data(&mut out, data_at, data)?;
    push_addressed(&mut out, bss_at, Form::Within(Section::Bss), None)?;
    push_zeros(&mut out, bss_at, image.bss())?;
    Ok(out)
}

/// Whether a section is longer than a source may have it. Its items are bytes.
fn is_too_long(section: &[u8]) -> bool
    ensures long { IsTrue result ↔ (longest < length section.now) }
    ensures bytes { list_all is_byte section.now ≡ true }
{
    section.len() > LONGEST
}

/// Tests that no section of an image is longer than a source may have it. The error is the first that is.
fn sections_fit(image: &Image) -> Result<(), DisasmFault>
    ensures ok { OnOk result (FitsSource image.now) }
    ensures err { IfErr result (λ fault. IsRefused image.now fault) }
{
    if is_too_long(image.text()) {
        return Err(DisasmFault::TooLong(Section::Text));
    }
    if is_too_long(image.data()) {
        return Err(DisasmFault::TooLong(Section::Data));
    }
    if image.bss() as usize > LONGEST {
        return Err(DisasmFault::TooLong(Section::Bss));
    }
    Ok(())
}

/// The source of an image, of which `assemble` makes that image again (clause `same`, by the assembler's own
/// definition). A line for each word of the text, `_start:` at the entry, the data as words and up to three bytes, the
/// zeros as one `.space`. A word that is no instruction, or that no statement has, is `.word`. A comment after each
/// line has its address; for a word of the text also the word, and the address that a branch or a jump goes to. The
/// error is the first section of text, data and bss that is longer than 1,048,576 bytes, or, if all of them fit,
/// `Memory` if memory runs out.
pub fn disassemble(alloc: Global, image: &Image) -> Result<String, DisasmFault>
    ensures same { IfOk result (λ text. source (string_bytes text) ≡ Ok image.now) }
    ensures text { IfOk result (λ text. string_bytes text ≡ disassembled image.now) }
    ensures fits { OnOk result (FitsSource image.now) }
    ensures refused { IfErr result (λ fault. IsRefused image.now fault) }
{
    disassemble_with(alloc, image, &Symbols::new(alloc))
}

/// The source of an image as `disassemble` returns it, with names in the comments of the text's words: after the
/// address of a line the first symbol that begins there, after the target of a branch or a jump the symbol that is
/// nearest to it, with the distance from it. If there is no such symbol, nothing is written there.
pub fn disassemble_with(
    alloc: Global,
    image: &Image,
    symbols: &Symbols,
) -> Result<String, DisasmFault>
    ensures same { IfOk result (λ text. source (string_bytes text) ≡ Ok image.now) }
    ensures text { IfOk result (λ text. string_bytes text ≡ disassembled_with (names_of symbols.now) image.now) }
    ensures fits { OnOk result (FitsSource image.now) }
    ensures refused { IfErr result (λ fault. IsRefused image.now fault) }
{
    sections_fit(image)?;
    Ok(written(alloc, image, symbols)?)
}
