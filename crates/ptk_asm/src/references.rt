//! The numbers of statements once all labels are known.

ghost use Rattle.std.specs.Prelude.{◌≡◌, ◌<◌, ◌^◌, Some, None, unwrap_or, IfSome, IfOk, IfErr};
ghost use Rattle.ptk_asm_language.specs.Statements as is;
ghost use Rattle.ptk_asm_language.specs.Source as source;
ghost use Rattle.ptk_asm_language.specs.Operating.{shown_value};
ghost use Rattle.ptk_asm.specs.Passing.{Names, shown_placed};

use crate::labels::place_of;
use crate::layout::Layout;
use crate::placed::Placed;
use ptk_asm_language::{
    FaultKind, Form, Lengths, Place, Section, Value, distances, is_even, is_within,
};

/// Where a section begins in memory.
fn base_of(lengths: Lengths, section: Section) -> u64
    ensures { result ≡ source.base_of lengths section }
{
    match section {
        Section::Text => 0,
        Section::Data => u64::from(lengths.text),
        Section::Bss => u64::from(lengths.text) + u64::from(lengths.data),
    }
}

/// The address of a place.
pub(crate) fn address_at(lengths: Lengths, place: Place) -> u64
    ensures value { result ≡ source.address_at lengths place }
    ensures small { result < 2 ^ 40 }
{
    base_of(lengths, place.section) + u64::from(place.offset)
}

/// The distance to an address from an offset in the text, or the address, as a form takes it.
fn seen_from(form: Form, offset: u32, address: u64) -> i64
    requires { address < 2 ^ 40 }
    ensures { result ≡ source.seen_from (is.distances form) offset address }
{
    match distances(form) {
        Some(_) => address as i64 - i64::from(offset),
        None => address as i64,
    }
}

/// A distance out of a form's range, or an odd one.
fn is_out_of_reach(form: Form, distance: i64) -> bool
    ensures { source.distance_fault (is.distances form) distance ≡ source.fault_if result FaultKind.Range }
{
    match distances(form) {
        Some((below, above)) => !(is_within(below, above, distance) && is_even(distance)),
        None => false,
    }
}

impl<'a> Layout<'a> {
    /// The address that a label names.
    fn address_of(&self, name: &[u8]) -> Option<u64>
        ensures value { (known : source.Layout) → Names self.now known → result ≡ source.address_of known name.now }
        ensures small { IfSome result (λ a. a < 2 ^ 40) }
    {
        Some(address_at(self.lengths, place_of(&self.labels, name)?))
    }

    /// The number that a label means to a statement; `UnknownLabel`, or `Range` for a distance out of range.
    fn labelled_number(&self, placed: &Placed<'_>, name: &[u8]) -> Result<i64, FaultKind>
        ensures ok { (known : source.Layout) → Names self.now known → IfOk result (λ n. source.address_fault (shown_placed placed.now) (source.address_of known name.now) ≡ None) }
        ensures value { (known : source.Layout) → Names self.now known → IfOk result (λ n. n ≡ source.seen_from (is.distances placed.now.statement.form) placed.now.place.offset (unwrap_or (source.address_of known name.now) 0)) }
        ensures err { (known : source.Layout) → Names self.now known → IfErr result (λ k. source.address_fault (shown_placed placed.now) (source.address_of known name.now) ≡ Some k) }
    {
        let Some(address) = self.address_of(name) else {
            return Err(FaultKind::UnknownLabel);
        };
        let form = placed.statement.form;
        let number = seen_from(form, placed.place.offset, address);
        if is_out_of_reach(form, number) {
            return Err(FaultKind::Range);
        }
        Ok(number)
    }

    /// The number that a statement means, 0 where it has none; `UnknownLabel`, or `Range` for a distance out of range.
    pub(crate) fn number_of(&self, placed: &Placed<'_>) -> Result<i64, FaultKind>
        ensures ok { (known : source.Layout) → Names self.now known → IfOk result (λ n. source.reference_fault known (shown_placed placed.now) ≡ None) }
        ensures value { (known : source.Layout) → Names self.now known → IfOk result (λ n. n ≡ source.number_of known (shown_placed placed.now) (shown_value placed.now.statement.operands.value)) }
        ensures err { (known : source.Layout) → Names self.now known → IfErr result (λ k. source.reference_fault known (shown_placed placed.now) ≡ Some k) }
    {
        match placed.statement.operands.value {
            Value::Nothing => Ok(0),
            Value::Given(number) => Ok(number),
            Value::Labelled(name) => {
                let number = self.labelled_number(placed, name)?;
                Ok(number)
            }
        }
    }
}
