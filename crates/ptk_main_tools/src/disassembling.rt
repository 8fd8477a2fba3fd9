//! `disasm`: the assembler text of an image.

ghost use Rattle.std.specs.Prelude.{◌≡◌, ◌≢◌, IfErr};
ghost use Rattle.ptk_main_tools.specs.Statuses.{status_number};
ghost use Rattle.ptk_main_tools.specs.declared.status.ExitStatus.TheVariants.{Usage};

use crate::fault::{Fault, put_bytes};
use crate::files::{is_one_file, write_file};
use crate::reading::{bytes_in, symbols_of, symbols_text_in};
use crate::telling::{end_flushed, tell, usage};
use ptk_disasm::{DisasmFault, Symbols, disassemble_with};
use ptk_image::read_image;
use ptk_main_line::{DisasmOptions, over_input};
use std::alloc::Global;
use std::io::Write;

/// Writes the text of the image in a file, as `disasm_file` does, and gives the number of the status. Nothing is
/// written if the text's file is that of the image or of the symbols.
pub fn disasm<W: Write>(rt: &HostRuntime, options: DisasmOptions<'_>, out: &mut W) -> u8
    ensures silent { result ≡ status_number Usage → out.new ≡ out.old }
{
    if is_over_input(rt, options) {
        return refuse_over(rt);
    }
    let outcome = disasm_file(rt, options, out);
    end_flushed(rt, outcome, out)
}

// Whether the text's file is one that is read.
fn is_over_input(rt: &HostRuntime, options: DisasmOptions<'_>) -> bool {
    let Some(target) = options.target else {
        return false;
    };
    is_one_file(rt, options.image, target)
        || match options.symbols {
            Some(symbols) => is_one_file(rt, symbols, target),
            None => false,
        }
}

// The status of a command line of which the text's file is one that is read.
fn refuse_over(rt: &HostRuntime) -> u8 {
    match over_input(rt.alloc()) {
        Ok(error) => usage(rt, &error),
        Err(_) => tell(rt, &Fault::NoMemory),
    }
}

/// The text of the image in a file, with the names of the symbols in another if one is named, into a third file, or
/// to `out` if none is named. Nothing is written if the image or the symbols are refused. A fault if a file
/// can't be read, the image or a symbol is refused, memory ran out, or the text can't be written.
pub fn disasm_file<'a, W: Write>(
    rt: &HostRuntime,
    options: DisasmOptions<'a>,
    out: &mut W,
) -> Result<(), Fault<'a>>
    ensures silent { IfErr result (λ fault. fault ≢ Fault.WriteFailed → out.new ≡ out.old) }
{
    let bytes = bytes_in(rt, options.image)?;
    let names = symbols_text_in(rt, options.symbols)?;
    let symbols = symbols_of(rt, options.symbols, names.as_str())?;
    let text = text_of(rt.alloc(), options.image, bytes.as_slice(), &symbols)?;
    put_text(rt, options.target, text.as_bytes(), out)
}

// Writes a text into a file, or to `out` if none is named.
fn put_text<W: Write>(
    rt: &HostRuntime,
    target: Option<&str>,
    text: &[u8],
    out: &mut W,
) -> Result<(), Fault<'static>>
    ensures { IfErr result (λ fault. fault ≡ Fault.WriteFailed) }
{
    let Some(path) = target else {
        return put_bytes(text, out);
    };
    match write_file(rt, path, text) {
        Ok(()) => Ok(()),
        Err(_) => Err(Fault::WriteFailed),
    }
}

// The text of the image that these bytes are, by the name of its file: the assembler makes this image of it. A fault
// if they are no image, a section is longer than a source may have it, or memory ran out.
fn text_of<'a>(
    alloc: Global,
    name: &'a str,
    bytes: &[u8],
    symbols: &Symbols<'_>,
) -> Result<String, Fault<'a>> {
    let image = match read_image(alloc, bytes) {
        Ok(image) => image,
        Err(fault) => return Err(Fault::of_image(name, fault)),
    };
    match disassemble_with(alloc, &image, symbols) {
        Ok(text) => Ok(text),
        Err(DisasmFault::TooLong(section)) => Err(Fault::TooLong(name, section)),
        Err(DisasmFault::Memory) => Err(Fault::NoMemory),
    }
}
