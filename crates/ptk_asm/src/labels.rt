//! Labels and their places.

ghost use Rattle.std.specs.Prelude.{◌≡◌, ℕ, List, if◌then◌else◌, Some, OnOk, codes};
ghost use Rattle.std.specs.Str.{bytes_eq};
ghost use Rattle.ptk_asm_language.specs.Source.{entry_at};
ghost use Rattle.ptk_asm.specs.Passing.{place_named};

use ptk_asm_language::{Place, Section};
use std::alloc::AllocError;
use std::collections::HashMap;

/// The name of the label with which a program begins.
const START: &[u8] = b"_start";

/// Adds a label.
pub(crate) fn define<'a>(
    labels: &mut HashMap<&'a [u8], Place>,
    name: &'a [u8],
    place: Place,
) -> Result<(), AllocError>
    ensures { OnOk result ((q : List ℕ) → place_named labels.new q ≡ (if bytes_eq name.entry.now q then Some place else place_named labels.old q)) }
{
    labels.insert(name, place)?;
    Ok(())
}

/// The place of a label, None where there is none of this name.
pub(crate) fn place_of(labels: &HashMap<&[u8], Place>, name: &[u8]) -> Option<Place>
    ensures { result ≡ place_named labels.now name.now }
{
    labels.get(name).copied()
}

/// The entry once a label is defined: its offset where it is the first instruction's, in the text, else 0; the old
/// entry where it has another name.
pub(crate) fn entry_with(entry: u32, name: &[u8], place: Place) -> u32
    ensures { result ≡ (if bytes_eq name.now (codes "_start") then entry_at (Some place) else entry) }
{
    if name != START {
        return entry;
    }
    match place.section {
        Section::Text => place.offset,
        Section::Data | Section::Bss => 0,
    }
}
