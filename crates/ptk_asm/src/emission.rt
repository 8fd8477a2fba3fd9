//! The bytes of a statement.

ghost use Rattle.std.specs.Prelude.{◌≡◌, ◌++◌, ◌<◌, ◌^◌, Some, false, map, replicate, OnOk};
ghost use Rattle.std.specs.Int.{w32, to_le_bytes};
ghost use Rattle.ptk_rv32i_code.specs.Coding.{encoded, decoded};
ghost use Rattle.ptk_asm_language.specs.Statements as is;
ghost use Rattle.ptk_asm.specs.Emitting.{listed, word_bytes, words_in, data_bytes, writes_data, DecodesToWritten};

use crate::fields::{byte_field, word_field};
use crate::instructions::{Instructions, instructions_of};
use ptk_asm_language::Form;
use ptk_rv32i_code::{Instr, Register, encode};
use std::alloc::AllocError;

/// Appends the word of an instruction, which decodes to the instruction.
fn push_instruction(out: &mut Vec<u8>, instr: &Instr) -> Result<(), AllocError>
    ensures bytes { OnOk result (out.new.items ≡ out.old.items ++ to_le_bytes w32 (encoded instr.now)) }
    ensures is_word { encoded instr.now < 2 ^ 32 }
    ensures again { decoded (encoded instr.now) ≡ Some instr.now }
{
    out.extend_from_slice(&encode(instr).to_le_bytes())
}

/// Appends the words of instructions, which decode to the instructions.
fn push_instructions(out: &mut Vec<u8>, instructions: Instructions) -> Result<(), AllocError>
    ensures bytes { OnOk result (out.new.items ≡ out.old.items ++ word_bytes (listed instructions)) }
    ensures again { OnOk result (map decoded (words_in (word_bytes (listed instructions))) ≡ map Some (listed instructions)) }
{
    match instructions {
        Instructions::None => Ok(()),
        Instructions::One(instr) => push_instruction(out, &instr),
        Instructions::Two(first, second) => {
            push_instruction(out, &first)?;
            push_instruction(out, &second)
        }
    }
}

/// Appends zeros.
#[tactic(auto, using(crate::proofs::Zeros::zeros_more))]
fn push_zeros(out: &mut Vec<u8>, count: u64) -> Result<(), AllocError>
    ensures { OnOk result (out.new.items ≡ out.old.items ++ replicate count 0) }
{
    for _ in 0..count {
        out.push(0)?;
    }
    Ok(())
}

/// Appends what a directive writes for a number; nothing for another form.
fn push_data(out: &mut Vec<u8>, form: Form, number: i64) -> Result<(), AllocError>
    ensures { OnOk result (out.new.items ≡ out.old.items ++ data_bytes form number) }
{
    match form {
        Form::Word => out.extend_from_slice(&word_field(number).to_le_bytes()),
        Form::Byte => out.extend_from_slice(&[byte_field(number)]),
        Form::Space => push_zeros(out, number.unsigned_abs()),
        _ => Ok(()),
    }
}

/// Appends the bytes of a statement at these registers and this number: what a directive writes, or the words of its
/// instructions, least byte first, which decode to the instructions. An error where memory is refused; some of the
/// bytes may then have been appended.
pub fn push_statement(
    out: &mut Vec<u8>,
    form: Form,
    registers: &[Register],
    number: i64,
) -> Result<(), AllocError>
    ensures bytes { OnOk result (out.new.items ≡ out.old.items ++ is.bytes_of form registers.now number) }
    ensures words { writes_data form ≡ false → OnOk result (DecodesToWritten form registers.now number) }
{
    push_data(out, form, number)?;
    push_instructions(out, instructions_of(form, registers, number))?;
    Ok(())
}
