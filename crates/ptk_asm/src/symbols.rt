//! The labels of a source, as a symbol table.

ghost use Rattle.std.specs.Prelude.{◌≡◌, ◌++◌, [], ◌∷◌, IfErr, IfOk, OnOk, flat_map, filter, if◌then◌else◌, map, string_bytes};
ghost use Rattle.ptk_asm_language.specs.Source as definition;
ghost use Rattle.ptk_asm.specs.Passing.{IsFirst};
ghost use Rattle.ptk_asm.specs.Symbols.{AreApart, AreFound, IsLabelTable, IsTable, is_ascii, letter_of, padded_hex, symbol_at, symbol_line};

use crate::fault::AsmFault;
use crate::first_pass::first_pass;
use crate::layout::Layout;
use crate::references::address_at;
use ptk_asm_language::{FaultKind, Lengths, Place, Section};
use std::alloc::{AllocError, Global};
use std::fmt::Write;

/// A label: its address, its name and its section.
#[derive(Clone, Copy)]
struct Symbol<'a> {
    address: u64,
    name: &'a [u8],
    section: Section,
}

impl<'a> Symbol<'a> {
    /// The label of a name at a place, where the sections are this long.
    fn at(lengths: Lengths, name: &'a [u8], place: Place) -> Symbol<'a>
        ensures { result ≡ symbol_at lengths (name.entry, place) }
    {
        Symbol {
            address: address_at(lengths, place),
            name,
            section: place.section,
        }
    }
}

/// The labels of a source with their addresses, as `nm` prints symbols: one line each, by address, labels of one
/// address by name. The letter is `t` for one in the text, `d` in the data, `b` in the zeros behind it. `read_symbols`
/// of `ptk_disasm` reads such a table. The error is the source's first fault where that is one of the first pass, as
/// of `assemble`, or `Memory`, with line 0, where memory runs out.
pub fn label_table(alloc: Global, source: &str) -> Result<String, AsmFault>
    ensures table { IfOk result (λ table. IsLabelTable source.now (string_bytes table)) }
    ensures fault { IfErr result (λ fault. IsFirst fault.kind fault (definition.source source.now)) }
{
    let layout = first_pass(alloc, source.as_bytes())?;
    match table_of(alloc, &layout) {
        Ok(table) => Ok(table),
        Err(_) => Err(NO_MEMORY),
    }
}

/// Out of memory, in no line.
const NO_MEMORY: AsmFault = AsmFault {
    line: 0,
    from: 0,
    to: 0,
    kind: FaultKind::Memory,
};

/// The lines of the labels of a layout, by address, and those of one address by name.
fn table_of(alloc: Global, layout: &Layout<'_>) -> Result<String, AllocError>
    ensures table { IfOk result (λ table. IsTable layout.now.lengths layout.now.labels.entries (string_bytes table)) }
    ensures found { IfOk result (λ _. AreFound layout.now.labels) }
    ensures apart { IfOk result (λ _. AreApart layout.now.labels) }
{
    let mut symbols = symbols_of(alloc, layout)?;
    symbols.sort_by_key(|symbol| (symbol.address, symbol.name))?;
    text_of(alloc, &symbols)
}

/// The labels of a layout, in any order.
fn symbols_of<'a>(alloc: Global, layout: &Layout<'a>) -> Result<Vec<Symbol<'a>>, AllocError>
    ensures symbols { IfOk result (λ symbols. symbols.items ≡ map (symbol_at layout.now.lengths) layout.now.labels.entries) }
    ensures found { IfOk result (λ _. AreFound layout.now.labels) }
    ensures apart { IfOk result (λ _. AreApart layout.now.labels) }
{
    let mut symbols = Vec::new(alloc);
    for (name, place) in layout.labels.iter() {
        symbols.push(Symbol::at(layout.lengths, *name, *place))?;
    }
    Ok(symbols)
}

/// A line for each label.
fn text_of(alloc: Global, symbols: &[Symbol<'_>]) -> Result<String, AllocError>
    ensures { IfOk result (λ text. string_bytes text ≡ flat_map symbol_line symbols.now) }
{
    let mut text = String::new(alloc);
    for symbol in symbols {
        push_line(&mut text, symbol)?;
    }
    Ok(text)
}

/// Appends the line of a label.
fn push_line(text: &mut String, symbol: &Symbol<'_>) -> Result<(), AllocError>
    ensures { OnOk result (string_bytes text.new ≡ string_bytes text.old ++ symbol_line symbol.now) }
{
    push_address(text, symbol.address)?;
    text.push_str(letter_of(symbol.section))?;
    push_name(text, symbol.name)?;
    text.push_str("\n")
}

/// Appends an address with at least eight hexadecimal digits.
fn push_address(text: &mut String, address: u64) -> Result<(), AllocError>
    ensures { OnOk result (string_bytes text.new ≡ string_bytes text.old ++ padded_hex address) }
{
    write!(text, "{address:08x}")
}

/// The letter of a label by its section, between blanks (nm).
fn letter_of(section: Section) -> &'static str
    ensures { result.now ≡ letter_of section }
{
    match section {
        Section::Text => " t ",
        Section::Data => " d ",
        Section::Bss => " b ",
    }
}

/// Appends the ASCII characters of a label's name, which has no others.
fn push_name(text: &mut String, name: &[u8]) -> Result<(), AllocError>
    ensures { OnOk result (string_bytes text.new ≡ string_bytes text.old ++ filter is_ascii name.now) }
{
    let mut rest = name;
    while let [byte, later @ ..] = rest {
        push_byte(text, *byte)?;
        rest = later;
    }
    Ok(())
}

/// Appends a byte that is ASCII; nothing for another.
fn push_byte(text: &mut String, byte: u8) -> Result<(), AllocError>
    ensures { OnOk result (string_bytes text.new ≡ string_bytes text.old ++ (if is_ascii byte then byte ∷ [] else [])) }
{
    if byte < 128 {
        text.push(char::from(byte))?;
    }
    Ok(())
}
