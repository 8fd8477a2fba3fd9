//! The text of a statement.

ghost use Rattle.std.specs.Prelude.{◌≡◌, ◌++◌, ◌∷◌, List, IfOk, OnOk, string_bytes};
ghost use Rattle.ptk_asm_language.specs.declared.statement.Slot.{Slot};
ghost use Rattle.ptk_asm_language.specs.Statements.{slots_of};
ghost use Rattle.ptk_disasm.specs.Spelling as is;
ghost use Rattle.ptk_disasm.specs.Writing.{shown, stated};

use crate::naming::{mnemonic, register_name};
use ptk_asm_language::{Form, Slot, slots_of};
use ptk_rv32i_code::Register;
use std::alloc::AllocError;
use std::fmt::Write;

/// Whether the numbers of a form are spelled with hexadecimal digits.
fn is_hexadecimal(form: Form) -> bool
    ensures { result ≡ is.is_hexadecimal form }
{
    matches!(form, Form::Word | Form::Lui | Form::Auipc)
}

/// Appends a number of a form.
fn push_number(out: &mut String, form: Form, number: i64) -> Result<(), AllocError>
    ensures { OnOk result (string_bytes out.new ≡ string_bytes out.old ++ is.number_text form number) }
{
    if number >= 0 && is_hexadecimal(form) {
        let magnitude = number.unsigned_abs();
        write!(out, "0x{magnitude:x}")
    } else {
        write!(out, "{number}")
    }
}

/// Appends a mark, and a blank after a comma.
fn push_mark(out: &mut String, mark: u8) -> Result<(), AllocError>
    ensures { OnOk result (string_bytes out.new ≡ string_bytes out.old ++ is.mark_text mark) }
{
    if mark == b',' {
        out.push_str(", ")?;
    } else if mark < 128 {
        out.push(char::from(mark))?;
    }
    Ok(())
}

/// Appends the number of a form, if there is one.
fn push_value(out: &mut String, form: Form, number: Option<i64>) -> Result<(), AllocError>
    ensures { OnOk result (string_bytes out.new ≡ string_bytes out.old ++ is.value_text form (shown number)) }
{
    match number {
        Some(number) => push_number(out, form, number),
        None => Ok(()),
    }
}

/// Appends the operand in a place, and returns the registers that are left for the places after it.
fn push_operand<'a>(
    out: &mut String,
    form: Form,
    slot: Slot,
    registers: &'a [Register],
    number: Option<i64>,
) -> Result<&'a [Register], AllocError>
    ensures { IfOk result (λ left. (slots : List Slot) → string_bytes out.new ++ is.operands_text (is.value_text form (shown number)) slots left.now
        ≡ string_bytes out.old ++ is.operands_text (is.value_text form (shown number)) (slot ∷ slots) registers.entry.now) }
{
    match slot {
        Slot::Mark(mark) => {
            push_mark(out, mark)?;
            Ok(registers)
        }
        Slot::Register => match registers {
            [register, left @ ..] => {
                out.push_str(register_name(*register))?;
                Ok(left)
            }
            [] => Ok(registers),
        },
        Slot::Number(_, _) | Slot::NumberOrLabel(_, _) | Slot::Target(_, _) | Slot::Label => {
            push_value(out, form, number)?;
            Ok(registers)
        }
    }
}

/// Appends the operands of a form: the registers from left to right, and the number.
fn push_operands(
    out: &mut String,
    form: Form,
    registers: &[Register],
    number: Option<i64>,
) -> Result<(), AllocError>
    ensures { OnOk result (string_bytes out.new ≡ string_bytes out.old ++ is.operands_text (is.value_text form (shown number)) (slots_of form) registers.now) }
{
    let mut left = registers;
    for slot in slots_of(form) {
        left = push_operand(out, form, *slot, left, number)?;
    }
    Ok(())
}

/// Appends a statement: the mnemonic of a form, and after it its operands.
pub(crate) fn push_statement(
    out: &mut String,
    form: Form,
    registers: &[Register],
    number: Option<i64>,
) -> Result<(), AllocError>
    ensures { OnOk result (string_bytes out.new ≡ string_bytes out.old ++ is.statement_text (stated form registers.now number)) }
{
    out.push_str(mnemonic(form))?;
    if slots_of(form).is_empty() {
        return Ok(());
    }
    out.push_str(" ")?;
    push_operands(out, form, registers, number)
}
