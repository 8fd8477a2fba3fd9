//! The table in a text.

ghost use Rattle.std.specs.Prelude.{◌≡◌, ◌++◌, ◌∷◌, [], IfErr, IfOk, Ok, OnOk};
ghost use Rattle.ptk_disasm.specs.Tables as is;
ghost use Rattle.ptk_disasm.specs.Reading.{IsWrongLine};
ghost use Rattle.ptk_disasm.specs.Looking.{IsOrderOf, pairs};

use crate::fault::SymbolFault;
use crate::symbol_lines::{Symbol, symbol_in};
use crate::symbols::Symbols;
use ptk_asm_language::{split_line, without_ending};
use std::alloc::{AllocError, Global};

/// The symbols in a text, a line each as `nm` prints it: the address in eight hexadecimal digits, a blank, a letter, a
/// blank and a name of visible ASCII characters, in the order of the text; LF or CR LF ends a line, also the last one.
/// An empty line is no symbol. The error is the number of the first line that is no symbol, counted from 1, or `Memory`
/// if memory runs out.
pub fn read_symbols<'a>(alloc: Global, text: &'a str) -> Result<Symbols<'a>, SymbolFault>
    ensures table { IfOk result (λ symbols. is.table_of text.now ≡ Ok symbols) }
    ensures line { IfErr result (λ fault. IsWrongLine fault (is.table_of text.now)) }
{
    table_in(alloc, text.as_bytes())
}

/// Adds a symbol after the others.
fn add<'a>(symbols: &mut Vec<Symbol<'a>>, symbol: Symbol<'a>) -> Result<(), AllocError>
    ensures { OnOk result (symbols.new.items ≡ symbols.old.items ++ symbol.entry ∷ []) }
{
    symbols.push(symbol)?;
    Ok(())
}

/// Puts symbols in order of addresses; those of one address stay as they are.
fn put_in_order(symbols: &mut Vec<Symbol<'_>>) -> Result<(), AllocError>
    ensures { OnOk result (IsOrderOf (pairs symbols.old.items) symbols.new.items) }
{
    symbols.sort_by_key(|symbol| symbol.address)?;
    Ok(())
}

/// The symbols in the bytes of a text.
fn table_in<'a>(alloc: Global, text: &'a [u8]) -> Result<Symbols<'a>, SymbolFault>
    ensures table { IfOk result (λ symbols. is.table_of text.now ≡ Ok symbols) }
    ensures line { IfErr result (λ fault. IsWrongLine fault (is.table_of text.now)) }
{
    let mut symbols = Vec::new(alloc);
    let mut rest = text;
    let mut number = 1;
    'lines: while !rest.is_empty() {
        let (line, later) = split_line(rest);
        let Some(symbol) = symbol_in(without_ending(line)) else {
            return Err(SymbolFault::Line(number));
        };
        add(&mut symbols, symbol)?;
        number += 1;
        rest = later;
    }
    put_in_order(&mut symbols)?;
    Ok(Symbols {
        text,
        by_address: symbols,
    })
}
