//! The operands of a statement.

ghost use Rattle.std.specs.Prelude.{◌≡◌, ◌&&◌, Ok, OnOk, IfOk, IfErr};
ghost use Rattle.ptk_asm_language.specs.Statements as is;
ghost use Rattle.ptk_asm_language.specs.Places as places;
ghost use Rattle.ptk_asm_language.specs.Reading.{view, views, value_of, spots, Answers, IsPlaced};
ghost use Rattle.ptk_asm_language.specs.Operating.{shown, number_if};

use crate::fault::{FaultKind, LineFault};
use crate::numbers::value_within;
use crate::registers::register_named;
use crate::statement::Slot;
use crate::token::{Spanned, Token};
use ptk_rv32i_code::Register;
use std::alloc::Global;

/// The number or label of a statement.
#[derive(Clone, Copy)]
pub enum Value<'a> {
    /// Neither.
    Nothing,
    /// A number.
    Given(i64),
    /// A label, by its name.
    Labelled(&'a [u8]),
}

/// The operands of a statement: its registers from left to right, and its number or label.
#[derive(Drop)]
pub struct Operands<'a> {
    /// The registers, from left to right.
    pub registers: Vec<Register>,
    /// The number or label.
    pub value: Value<'a>,
}

/// The number of a text from `-below` to `above`; Range for another.
fn number_of(text: &[u8], below: u32, above: u32) -> Result<i64, FaultKind>
    ensures { result ≡ number_if (is.is_within below above (value_of text.now)) (value_of text.now) }
{
    match value_within(text, below, above) {
        Some(number) => Ok(number),
        None => Err(FaultKind::Range),
    }
}

/// The distance of a text, even and from `-below` to `above`; Range for another.
fn distance_of(text: &[u8], below: u32, above: u32) -> Result<i64, FaultKind>
    ensures { result ≡ number_if (is.is_within below above (value_of text.now) && is.is_even (value_of text.now)) (value_of text.now) }
{
    let distance = number_of(text, below, above)?;
    if distance % 2 != 0 {
        return Err(FaultKind::Range);
    }
    Ok(distance)
}

/// Adds what a token gives in its place.
fn add_operand<'a>(
    operands: &mut Operands<'a>,
    slot: Slot,
    token: Token<'a>,
) -> Result<(), FaultKind>
    ensures ok { OnOk result (is.operand (shown operands.old) slot (view token.entry) ≡ Ok (shown operands.new)) }
    ensures err { IfErr result (λ k. Answers k (is.operand (shown operands.old) slot (view token.entry))) }
{
    match (slot, token) {
        (Slot::Mark(m), Token::Mark(n)) => {
            if m != n {
                return Err(FaultKind::Token);
            }
        }
        (Slot::Register, Token::Name(name)) => {
            let Some(register) = register_named(name) else {
                return Err(FaultKind::Register);
            };
            if operands.registers.push(register).is_err() {
                return Err(FaultKind::Memory);
            }
        }
        (Slot::Register, Token::Number(_)) => return Err(FaultKind::Register),
        (Slot::Number(below, above), Token::Number(text))
        | (Slot::NumberOrLabel(below, above), Token::Number(text)) => {
            operands.value = Value::Given(number_of(text, below, above)?);
        }
        (Slot::Target(below, above), Token::Number(text)) => {
            operands.value = Value::Given(distance_of(text, below, above)?);
        }
        (Slot::NumberOrLabel(_, _), Token::Name(name))
        | (Slot::Target(_, _), Token::Name(name))
        | (Slot::Label, Token::Name(name)) => operands.value = Value::Labelled(name),
        _ => return Err(FaultKind::Token),
    }
    Ok(())
}

/// The operands that tokens give in the places of a form. The first fault from the left with the place of its token,
/// or with `end`, where the line's code ends, for a missing one; Memory where memory is refused.
pub fn operands_of<'a>(
    alloc: Global,
    slots: &[Slot],
    tokens: &[Spanned<'a>],
    end: usize,
) -> Result<Operands<'a>, LineFault>
    ensures ok { IfOk result (λ o. is.operands_of slots.now (views tokens.now) ≡ Ok (shown o)) }
    ensures err { IfErr result (λ e. Answers e.kind (is.operands_of slots.now (views tokens.now))) }
    ensures placed { IfErr result (λ e. IsPlaced e.kind e (places.place_at (spots tokens.now) (places.operand_index is.no_operands slots.now (views tokens.now)) end)) }
{
    let mut operands = Operands {
        registers: Vec::new(alloc),
        value: Value::Nothing,
    };
    for (i, slot) in slots.iter().enumerate() {
        if i >= tokens.len() {
            return Err(LineFault {
                from: end,
                to: end,
                kind: FaultKind::Token,
            });
        }
        let at = tokens[i];
        if let Err(kind) = add_operand(&mut operands, *slot, at.token) {
            return Err(LineFault {
                from: at.from,
                to: at.to,
                kind,
            });
        }
    }
    if slots.len() < tokens.len() {
        let extra = tokens[slots.len()];
        return Err(LineFault {
            from: extra.from,
            to: extra.to,
            kind: FaultKind::Token,
        });
    }
    Ok(operands)
}
