//! The lines so far in sum.

ghost use Rattle.std.specs.Prelude.{◌≡◌, ◌+◌, ◌≤◌, ◌<◌, ◌^◌, [], true, Some, None, OnOk, IfErr};
ghost use Rattle.ptk_asm_language.specs.Source as source;
ghost use Rattle.ptk_asm_language.specs.Statements.{stands_in};
ghost use Rattle.ptk_asm_language.specs.Places.{last_place, place_at};
ghost use Rattle.ptk_asm_language.specs.Reading.{Refuses, IsPlaced, spots, views};
ghost use Rattle.ptk_asm.specs.Passing.{State, Reaches, Shows, behind, fault_at, index_at, label_name, label_place, label_spot, labelled, shown_statement, with_statement};

use crate::labels::{define, entry_with, place_of};
use crate::placed::Placed;
use crate::statements::{Label, Statement, last_of, parts_of, statement_of};
use ptk_asm_language::{
    Extent, FaultKind, Form, Lengths, LineFault, Place, Section, Span, Spanned, size_of,
};
use std::alloc::Global;
use std::collections::HashMap;

/// The lines so far in sum: the section of what follows, the lengths of the sections, the entry, the labels and
/// the statements.
#[derive(Drop)]
pub(crate) struct Layout<'a> {
    pub(crate) section: Section,
    pub(crate) lengths: Lengths,
    pub(crate) entry: u32,
    pub(crate) labels: HashMap<&'a [u8], Place>,
    pub(crate) placed: Vec<Placed<'a>>,
}

/// How long a section is.
pub(crate) fn length_in(lengths: Lengths, section: Section) -> u32
    ensures { result ≡ source.length_in lengths section }
{
    match section {
        Section::Text => lengths.text,
        Section::Data => lengths.data,
        Section::Bss => lengths.bss,
    }
}

/// Law: lengths are below 2^32.
pub(crate) fn lengths_fit(lengths: Lengths)
    ensures text { lengths.text < 2 ^ 32 }
    ensures contents { lengths.«data» < 2 ^ 32 }
{
    let (_text, _data) = (lengths.text, lengths.data);
}

/// The lengths with a section that has this many bytes more.
fn grown(lengths: Lengths, section: Section, size: u32) -> Lengths
    requires { source.length_in lengths section + size ≤ source.longest }
    ensures { result ≡ source.grown lengths section size }
{
    match section {
        Section::Text => Lengths {
            text: lengths.text + size,
            ..lengths
        },
        Section::Data => Lengths {
            data: lengths.data + size,
            ..lengths
        },
        Section::Bss => Lengths {
            bss: lengths.bss + size,
            ..lengths
        },
    }
}

/// The section of what follows a form.
fn turned_by(section: Section, form: Form) -> Section
    ensures { result ≡ source.turned_by section form }
{
    match form {
        Form::Within(section) => section,
        _ => section,
    }
}

impl<'a> Layout<'a> {
    /// The layout of no lines.
    #[tactic(auto, using(crate::proofs::Texts::start_rules))]
    pub(crate) fn new(alloc: Global) -> Layout<'a>
        ensures { Reaches result [] }
    {
        Layout {
            section: Section::Text,
            lengths: Lengths {
                text: 0,
                data: 0,
                bss: 0,
            },
            entry: 0,
            labels: HashMap::new(alloc),
            placed: Vec::new(alloc),
        }
    }

    /// Where the next statement stands.
    pub(crate) fn place(&self) -> Place
        ensures { result ≡ source.place_in self.now.lengths self.now.section }
    {
        Place {
            section: self.section,
            offset: length_in(self.lengths, self.section),
        }
    }

    /// Adds an optional label at the place of the next statement; `DoubledLabel` where there is one of this name.
    pub(crate) fn take_label(&mut self, label: Option<Label<'a>>) -> Result<(), LineFault>
        ensures ok { (m : State) → Shows self.old m → OnOk result (source.label_fault m.labels (label_name label.entry) ≡ None) }
        ensures next { (m : State) → Shows self.old m → OnOk result (Shows self.new (labelled m (label_name label.entry))) }
        ensures err { (m : State) → Shows self.old m → IfErr result (λ e. Refuses e.kind (source.label_fault m.labels (label_name label.entry))) }
        ensures placed { IfErr result (λ e. IsPlaced e.kind e (label_place label.entry)) }
    {
        match label {
            Some(label) => self.add_label(label),
            None => Ok(()),
        }
    }

    /// Adds a label at the place of the next statement; `DoubledLabel` where there is one of this name.
    #[tactic(auto, using(crate::proofs::Names::named_rules))]
    fn add_label(&mut self, label: Label<'a>) -> Result<(), LineFault>
        ensures ok { (m : State) → Shows self.old m → OnOk result (source.label_fault m.labels (Some label.entry.name.now) ≡ None) }
        ensures next { (m : State) → Shows self.old m → OnOk result (Shows self.new (labelled m (Some label.entry.name.now))) }
        ensures err { (m : State) → Shows self.old m → IfErr result (λ e. Refuses e.kind (source.label_fault m.labels (Some label.entry.name.now))) }
        ensures placed { IfErr result (λ e. IsPlaced e.kind e (label_spot label.entry)) }
    {
        if place_of(&self.labels, label.name).is_some() {
            return Err(LineFault {
                from: label.from,
                to: label.to,
                kind: FaultKind::DoubledLabel,
            });
        }
        let place = self.place();
        define(&mut self.labels, label.name, place)?;
        self.entry = entry_with(self.entry, label.name, place);
        Ok(())
    }

    /// Adds a statement at its place; `last` are the bytes of its last token in its line.
    pub(crate) fn add_statement(
        &mut self,
        span: Span,
        last: Extent,
        statement: Statement<'a>,
    ) -> Result<(), LineFault>
        requires forward { last.from ≤ last.to }
        requires inside { span.start + last.to ≤ span.end }
        requires stands { stands_in statement.form self.old.section ≡ true }
        requires fits { source.length_in self.old.lengths self.old.section + source.taken (shown_statement statement) ≤ source.longest }
        ensures next { (m : State) → Shows self.old m → OnOk result (Shows self.new (with_statement m span last (shown_statement statement.entry))) }
        ensures err { IfErr result (λ e. e.kind ≡ FaultKind.Memory) }
    {
        let place = self.place();
        let form = statement.form;
        let size = size_of(form, statement.operands.value) as u32;
        self.placed.push(Placed {
            span,
            place,
            last,
            statement,
        })?;
        self.lengths = grown(self.lengths, self.section, size);
        self.section = turned_by(self.section, form);
        Ok(())
    }

    /// Adds the label and the statement of a line's tokens; `end` is where the line's code ends. The first fault of the
    /// line with the place of its token in it, or out of memory.
    #[tactic(auto, using(crate::proofs::States::line_rules, crate::proofs::Spots::line_places))]
    pub(crate) fn take_tokens(
        &mut self,
        alloc: Global,
        span: Span,
        tokens: &[Spanned<'a>],
        end: usize,
    ) -> Result<(), LineFault>
        requires forward { (last_place (spots tokens.now)).from ≤ (last_place (spots tokens.now)).to }
        requires inside { span.start + (last_place (spots tokens.now)).to ≤ span.end }
        ensures ok { (m : State) → Shows self.old m → OnOk result (fault_at m (Some (views tokens.now)) ≡ None) }
        ensures next { (m : State) → Shows self.old m → OnOk result (Shows self.new (behind m span (last_place (spots tokens.now)) (views tokens.now))) }
        ensures err { (m : State) → Shows self.old m → IfErr result (λ e. Refuses e.kind (fault_at m (Some (views tokens.now)))) }
        ensures placed { (m : State) → Shows self.old m → IfErr result (λ e. IsPlaced e.kind e (place_at (spots tokens.now) (index_at m (views tokens.now)) end)) }
    {
        let parts = parts_of(tokens);
        self.take_label(parts.label)?;
        if parts.statement.is_empty() {
            return Ok(());
        }
        let statement = statement_of(alloc, self.place(), parts.statement, end)?;
        self.add_statement(span, last_of(tokens), statement)?;
        Ok(())
    }
}
