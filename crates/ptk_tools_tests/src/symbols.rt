//! Symbol tables: which symbol an address is shown by, which lines are none, and the labels of a source. What is wanted
//! was worked out by hand.

use ptk_asm::label_table;
use ptk_disasm::{SymbolFault, Symbols, read_symbols};
use std::alloc::{AllocError, Global};
use std::test::Fail;

/// As `nm` prints it, with two symbols at one address and a line that ends with CR LF.
const TABLE: &str =
    "00000004 T _start\n0000001c t .loop$1\r\n0000001C T second\n00000040 B counter\n";

/// Addresses, and what is written after them: by the symbol that begins there, and by the nearest one.
const PLACES: [(u32, &str, &str); 6] = [
    (0x0, "", ""),
    (0x4, " <_start>", " <_start>"),
    (0x8, "", " <_start+0x4>"),
    (0x1c, " <.loop$1>", " <.loop$1>"),
    (0x20, "", " <.loop$1+0x4>"),
    (0xffff_ffff, "", " <counter+0xffffffbf>"),
];

/// Texts, and the line that is no symbol.
const WRONG: [(&str, usize); 8] = [
    ("00000004 T a\n\n", 2),
    ("00000004 T a\n00000008 T b\n0000000 T c\n", 3),
    ("0000000g T a\n", 1),
    ("0x000004 T a\n", 1),
    ("00000004 T \n", 1),
    ("00000004 4 a\n", 1),
    ("00000004 T a b\n", 1),
    ("         U a\n", 1),
];

// Whether an address is shown so, by the symbol that begins there and by the nearest one.
fn is_shown(
    alloc: Global,
    symbols: &Symbols<'_>,
    address: u32,
    name: &str,
    place: &str,
) -> Result<bool, AllocError> {
    let (mut exact, mut nearest) = (String::new(alloc), String::new(alloc));
    symbols.push_name(&mut exact, address)?;
    symbols.push_place(&mut nearest, address)?;
    Ok(exact.as_str() == name && nearest.as_str() == place)
}

#[test]
fn an_address_has_its_nearest_symbol(rt: HostRuntime) -> Result<(), Fail> {
    let symbols = read_symbols(rt.alloc(), TABLE)?;
    for (address, name, place) in PLACES {
        assert!(rt;
            is_shown(rt.alloc(), &symbols, address, name, place)?,
            "{address}"
        );
    }
    Ok(())
}

// The line of a text that is no symbol.
fn wrong_line(alloc: Global, text: &str) -> Option<usize> {
    match read_symbols(alloc, text) {
        Err(SymbolFault::Line(line)) => Some(line),
        _ => None,
    }
}

#[test]
fn a_line_that_is_no_symbol_is_told(rt: HostRuntime) {
    for (text, line) in WRONG {
        assert!(rt; wrong_line(rt.alloc(), text) == Some(line), "{text}");
    }
}

const SOURCE: &str =
    "later: nop\n_start: nop\n.data\nb: .byte 1\na: .byte 2\n.text\nend:\n.bss\nzeros: .space 4\n";

const LABELS: &str =
    "00000000 t later\n00000004 t _start\n00000008 d b\n00000008 t end\n00000009 d a\n0000000a b zeros\n";

#[test]
fn labels_are_a_symbol_table(rt: HostRuntime) -> Result<(), Fail> {
    let table = label_table(rt.alloc(), SOURCE)?;
    assert!(rt; table.as_str() == LABELS);
    Ok(())
}
