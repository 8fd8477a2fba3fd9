//! The second pass: the bytes of the statements, with the addresses of their labels.

ghost use Rattle.std.specs.Prelude.{◌≡◌, ◌++◌, None, map, OnOk, IfOk, IfErr};
ghost use Rattle.std.specs.List.{All};
ghost use Rattle.ptk_asm_language.specs.declared.statement.Section.TheVariants as part;
ghost use Rattle.ptk_asm_language.specs.Source as source;
ghost use Rattle.ptk_asm_language.specs.Operating.{shown_value};
ghost use Rattle.ptk_asm.specs.Laws.{IsDecoded};
ghost use Rattle.ptk_asm.specs.Passing.{IsAt, IsSecond, Names, Tells, shown_placed};

use crate::emission::push_statement;
use crate::fault::{AsmFault, located};
use crate::layout::Layout;
use crate::placed::Placed;
use ptk_asm_language::{Extent, FaultKind, LineFault, Section};
use std::alloc::{AllocError, Global};

/// The bytes of text and data.
#[derive(Drop)]
pub(crate) struct Contents {
    pub(crate) text: Vec<u8>,
    pub(crate) data: Vec<u8>,
}

impl Contents {
    /// Appends the bytes of a statement at this number to its section; its words decode to its instructions.
    fn push(&mut self, placed: &Placed<'_>, number: i64) -> Result<(), AllocError>
        ensures text { (known : source.Layout) → number ≡ source.number_of known (shown_placed placed.now) (shown_value placed.now.statement.operands.value) → OnOk result (self.new.text.items ≡ self.old.text.items ++ source.bytes_in known part.Text (shown_placed placed.now)) }
        ensures contents { (known : source.Layout) → number ≡ source.number_of known (shown_placed placed.now) (shown_value placed.now.statement.operands.value) → OnOk result (self.new.«data».items ≡ self.old.«data».items ++ source.bytes_in known part.Data (shown_placed placed.now)) }
        ensures words { (known : source.Layout) → number ≡ source.number_of known (shown_placed placed.now) (shown_value placed.now.statement.operands.value) → OnOk result (IsDecoded known (shown_placed placed.now)) }
    {
        let form = placed.statement.form;
        let registers = placed.statement.operands.registers.as_slice();
        match placed.place.section {
            Section::Text => push_statement(&mut self.text, form, registers, number)?,
            Section::Data => push_statement(&mut self.data, form, registers, number)?,
            Section::Bss => {}
        }
        Ok(())
    }

    /// Appends the bytes of a statement, with its labels' addresses; its fault in the source, or out of memory.
    fn take(&mut self, layout: &Layout<'_>, placed: &Placed<'_>) -> Result<(), AsmFault>
        ensures ok { (known : source.Layout) → Names layout.now known → OnOk result (source.reference_fault known (shown_placed placed.now) ≡ None) }
        ensures text { (known : source.Layout) → Names layout.now known → OnOk result (self.new.text.items ≡ self.old.text.items ++ source.bytes_in known part.Text (shown_placed placed.now)) }
        ensures contents { (known : source.Layout) → Names layout.now known → OnOk result (self.new.«data».items ≡ self.old.«data».items ++ source.bytes_in known part.Data (shown_placed placed.now)) }
        ensures words { (known : source.Layout) → Names layout.now known → OnOk result (IsDecoded known (shown_placed placed.now)) }
        ensures err { (known : source.Layout) → Names layout.now known → IfErr result (λ e. IsAt e.kind e placed.now.span placed.now.last (source.reference_fault known (shown_placed placed.now))) }
    {
        match layout.number_of(placed) {
            Ok(number) => {
                match self.push(placed, number) {
                    Ok(()) => Ok(()),
                    Err(_) => Err(fault_of(placed, FaultKind::Memory)),
                }
            }
            Err(kind) => Err(fault_of(placed, kind)),
        }
    }
}

/// The fault of a statement's label in the source, which is its last token.
fn fault_of(placed: &Placed<'_>, kind: FaultKind) -> AsmFault
    ensures { Tells result (record { span = placed.now.span; place = placed.now.last; kind = kind }) }
{
    let Extent { from, to } = placed.last;
    located(&placed.span, LineFault { from, to, kind })
}

/// The bytes of text and data, or the first fault of the second pass with its place.
#[tactic(auto, using(crate::proofs::Contents::contents_rules))]
pub(crate) fn second_pass(alloc: Global, layout: &Layout<'_>) -> Result<Contents, AsmFault>
    ensures ok { (known : source.Layout) → Names layout.now known → IfOk result (λ o. source.second_pass known (map shown_placed layout.now.placed.items) ≡ None) }
    ensures text { (known : source.Layout) → Names layout.now known → IfOk result (λ o. o.text.items ≡ source.contents_of known part.Text (map shown_placed layout.now.placed.items)) }
    ensures contents { (known : source.Layout) → Names layout.now known → IfOk result (λ o. o.«data».items ≡ source.contents_of known part.Data (map shown_placed layout.now.placed.items)) }
    ensures words { (known : source.Layout) → Names layout.now known → IfOk result (λ o. All (IsDecoded known) (map shown_placed layout.now.placed.items)) }
    ensures err { (known : source.Layout) → Names layout.now known → IfErr result (λ e. IsSecond e.kind e (source.second_pass known (map shown_placed layout.now.placed.items))) }
{
    let mut contents = Contents {
        text: Vec::new(alloc),
        data: Vec::new(alloc),
    };
    for placed in &layout.placed {
        contents.take(layout, placed)?;
    }
    Ok(contents)
}
