//! Addresses by the symbols that are nearest to them.

use ptk_disasm::{Symbols, text_in};

/// The symbol that is nearest to an address, and the distance from its beginning.
#[derive(Clone, Copy)]
pub(crate) struct Place<'a> {
    pub(crate) symbol: Option<&'a str>,
    pub(crate) offset: Option<u32>,
}

impl<'a> Place<'a> {
    /// Of an address, if there is one and a symbol begins at or below it.
    pub(crate) fn of(symbols: &Symbols<'a>, address: Option<u32>) -> Place<'a> {
        let none = Place {
            symbol: None,
            offset: None,
        };
        let Some(address) = address else {
            return none;
        };
        match symbols.nearest(address) {
            Some(located) => Place {
                symbol: text_in(located.name),
                offset: Some(located.distance),
            },
            None => none,
        }
    }
}

/// A call, if symbols show that it is in another function than a pc: their nearest symbols differ.
pub(crate) fn caller_of(symbols: &Symbols<'_>, pc: Option<u32>, call: Option<u32>) -> Option<u32> {
    let call = call?;
    if beginning_of(symbols, pc?)? == beginning_of(symbols, call)? {
        return None;
    }
    Some(call)
}

/// The address of the symbol that is nearest to an address.
fn beginning_of(symbols: &Symbols<'_>, address: u32) -> Option<u32> {
    let located = symbols.nearest(address)?;
    Some(address.wrapping_sub(located.distance))
}
