//! The first pass: the lines of a source, one after the other.

ghost use Rattle.std.specs.Prelude.{◌≡◌, ℕ, ◌+◌, ◌<◌, ◌≤◌, length, List, ◌∷◌, None, OnOk, IfOk, IfErr};
ghost use Rattle.ptk_asm_language.specs.Source as definition;
ghost use Rattle.ptk_asm_language.specs.Lines as lines;
ghost use Rattle.ptk_asm_language.specs.Reading.{Refuses, IsPlaced};
ghost use Rattle.ptk_asm.specs.Passing.{IsBehind, IsFirstFault, IsLaidOut, Reaches};

use crate::fault::{AsmFault, located};
use crate::layout::Layout;
use ptk_asm_language::{LineFault, Span, split_line, tokens_of, without_comment, without_ending};
use std::alloc::Global;

impl<'a> Layout<'a> {
    /// Takes a line more. The first fault of the line with its place in it, or out of memory.
    #[tactic(auto, using(crate::proofs::Texts::refuses_tokens))]
    fn take_line(&mut self, alloc: Global, span: Span, line: &'a [u8]) -> Result<(), LineFault>
        requires { span.end ≡ span.start + length (lines.without_ending line.now) }
        ensures ok { (before : List (List ℕ)) → Reaches self.old before → OnOk result (definition.line_fault before line.entry.now ≡ None) }
        ensures next { (before : List (List ℕ)) → span ≡ definition.span_after before line.entry.now → Reaches self.old before → OnOk result (Reaches self.new (line.entry.now ∷ before)) }
        ensures err { (before : List (List ℕ)) → Reaches self.old before → IfErr result (λ e. Refuses e.kind (definition.line_fault before line.entry.now)) }
        ensures placed { (before : List (List ℕ)) → Reaches self.old before → IfErr result (λ e. IsPlaced e.kind e (definition.line_place before line.entry.now)) }
    {
        let code = without_comment(without_ending(line));
        let tokens = tokens_of(alloc, code)?;
        self.take_tokens(alloc, span, &tokens, code.len())
    }
}

/// The number and the place of a line, at the front of the rest of the source behind this many lines.
#[tactic(auto, using(crate::proofs::Texts::span_behind))]
fn span_of(source: &[u8], rest: &[u8], number: usize, line: &[u8]) -> Span
    requires inside { number + length rest.now ≤ length source.now }
    requires filled { 0 < length rest.now }
    requires front { length line.now ≤ length rest.now }
    ensures value { (before : List (List ℕ)) → IsBehind source.now rest.now number before → result ≡ definition.span_after before line.now }
    ensures ends { result.end ≡ result.start + length (lines.without_ending line.now) }
{
    let start = source.len() - rest.len();
    Span {
        line: number + 1,
        start,
        end: start + without_ending(line).len(),
    }
}

/// The layout of a source, or its first fault of a line with its place.
pub(crate) fn first_pass(alloc: Global, source: &[u8]) -> Result<Layout<'_>, AsmFault>
    ensures ok { IfOk result (λ l. IsLaidOut source.now l) }
    ensures err { IfErr result (λ e. IsFirstFault source.now e) }
{
    let mut layout = Layout::new(alloc);
    let mut rest = source;
    let mut number = 0usize;
    while !rest.is_empty() {
        let (line, after) = split_line(rest);
        let span = span_of(source, rest, number, line);
        number += 1;
        if let Err(fault) = layout.take_line(alloc, span, line) {
            return Err(located(&span, fault));
        }
        rest = after;
    }
    Ok(layout)
}
