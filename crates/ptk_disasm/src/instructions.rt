//! The statement of a word.

ghost use Rattle.std.specs.Prelude.{◌≡◌, ◌++◌, ◌<◌, ◌≤◌, ◌^◌, OnOk, string_bytes};
ghost use Rattle.ptk_disasm.specs.WordStatements as is;
ghost use Rattle.ptk_disasm.specs.Spelling.{statement_text};

use crate::statements::push_statement;
use ptk_asm_language::Form;
use ptk_rv32i_code::{Immediate, ImmediateOp, Instr, JumpOffset, Register, decode};
use std::alloc::AllocError;

/// The bits of an immediate (RISC-V 2.3).
pub const IMMEDIATE_BITS: u32 = 12;

/// The bits of a branch's offset, with the lowest, which is 0 (RISC-V 2.3).
pub const BRANCH_BITS: u32 = 13;

/// The bits of a jump's offset, with the lowest, which is 0 (RISC-V 2.3).
pub const JUMP_BITS: u32 = 21;

/// The word of `fence` (RISC-V 2.7).
const FENCE: u32 = 0x0ff0000f;

/// The register that is always 0 (RISC-V 2.1).
const ZERO: u32 = 0;

/// The register of a return address (RISC-V 25).
const RETURN_ADDRESS: u32 = 1;

/// The number that the bits of a field of this width are as two's complement (RISC-V 1.5).
fn signed(width: u32, bits: u32) -> i64
    requires some { 0 < width }
    requires narrow { width ≤ 21 }
    requires inside { bits < 2 ^ width }
    ensures { result ≡ is.signed width bits }
{
    let half = 2u32.pow(width - 1);
    let number = i64::from(bits);
    if bits < half {
        number
    } else {
        number - i64::from(half) - i64::from(half)
    }
}

/// Appends the statement of a word by its value.
fn push_word(out: &mut String, word: u32) -> Result<(), AllocError>
    ensures { OnOk result (string_bytes out.new ≡ string_bytes out.old ++ statement_text (is.word_statement word)) }
{
    push_statement(out, Form::Word, &[], Some(i64::from(word)))
}

/// Appends an addition of an immediate: `nop`, `li` or `mv` if it is that.
fn push_addition(
    out: &mut String,
    rd: Register,
    rs1: Register,
    immediate: Immediate,
) -> Result<(), AllocError>
    ensures { OnOk result (string_bytes out.new ≡ string_bytes out.old ++ statement_text (is.add_statement rd rs1 immediate)) }
{
    let bits = immediate.number();
    let number = signed(IMMEDIATE_BITS, bits);
    if rs1.number() == ZERO {
        if rd.number() == ZERO && bits == 0 {
            return push_statement(out, Form::Nop, &[], None);
        }
        return push_statement(out, Form::LoadValue, &[rd], Some(number));
    }
    if bits == 0 {
        return push_statement(out, Form::Move, &[rd, rs1], None);
    }
    let form = Form::WithImmediate(ImmediateOp::Add);
    push_statement(out, form, &[rd, rs1], Some(number))
}

/// Appends an operation with an immediate.
fn push_immediate(
    out: &mut String,
    op: ImmediateOp,
    rd: Register,
    rs1: Register,
    immediate: Immediate,
) -> Result<(), AllocError>
    ensures { OnOk result (string_bytes out.new ≡ string_bytes out.old ++ statement_text (is.immediate_statement op rd rs1 immediate)) }
{
    match op {
        ImmediateOp::Add => push_addition(out, rd, rs1, immediate),
        ImmediateOp::Less
        | ImmediateOp::LessUnsigned
        | ImmediateOp::Xor
        | ImmediateOp::Or
        | ImmediateOp::And => {
            let number = signed(IMMEDIATE_BITS, immediate.number());
            push_statement(out, Form::WithImmediate(op), &[rd, rs1], Some(number))
        }
    }
}

/// Appends a jump to a register and an offset: `ret` or `jr` if it is that.
fn push_jump_register(
    out: &mut String,
    rd: Register,
    rs1: Register,
    offset: Immediate,
) -> Result<(), AllocError>
    ensures { OnOk result (string_bytes out.new ≡ string_bytes out.old ++ statement_text (is.jalr_statement rd rs1 offset)) }
{
    let bits = offset.number();
    if rd.number() != ZERO || bits != 0 {
        let number = signed(IMMEDIATE_BITS, bits);
        return push_statement(out, Form::Jalr, &[rd, rs1], Some(number));
    }
    if rs1.number() == RETURN_ADDRESS {
        push_statement(out, Form::Return, &[], None)
    } else {
        push_statement(out, Form::JumpRegister, &[rs1], None)
    }
}

/// Appends a jump to an offset: `j` if it is that.
fn push_jump(out: &mut String, rd: Register, offset: JumpOffset) -> Result<(), AllocError>
    ensures { OnOk result (string_bytes out.new ≡ string_bytes out.old ++ statement_text (is.jal_statement rd offset)) }
{
    let number = signed(JUMP_BITS, offset.number());
    if rd.number() == ZERO {
        push_statement(out, Form::Jump, &[], Some(number))
    } else {
        push_statement(out, Form::Jal, &[rd], Some(number))
    }
}

/// Appends a fence; the word by its value if its fields are not those of `fence`.
fn push_fence(out: &mut String, word: u32) -> Result<(), AllocError>
    ensures { OnOk result (string_bytes out.new ≡ string_bytes out.old ++ statement_text (is.fence_statement word)) }
{
    if word == FENCE {
        push_statement(out, Form::Fence, &[], None)
    } else {
        push_word(out, word)
    }
}

/// Appends the statement of an instruction, which is that of a word.
fn push_instruction(out: &mut String, word: u32, instruction: Instr) -> Result<(), AllocError>
    ensures { OnOk result (string_bytes out.new ≡ string_bytes out.old ++ statement_text (is.instruction_statement word instruction)) }
{
    match instruction {
        Instr::Lui { rd, upper } => {
            push_statement(out, Form::Lui, &[rd], Some(i64::from(upper.number())))
        }
        Instr::Auipc { rd, upper } => {
            push_statement(out, Form::Auipc, &[rd], Some(i64::from(upper.number())))
        }
        Instr::Jal { rd, offset } => push_jump(out, rd, offset),
        Instr::Jalr { rd, rs1, offset } => push_jump_register(out, rd, rs1, offset),
        Instr::Branch {
            test,
            rs1,
            rs2,
            offset,
        } => {
            let distance = signed(BRANCH_BITS, offset.number());
            push_statement(out, Form::Branch(test), &[rs1, rs2], Some(distance))
        }
        Instr::Load {
            kind,
            rd,
            rs1,
            offset,
        } => {
            let number = signed(IMMEDIATE_BITS, offset.number());
            push_statement(out, Form::Load(kind), &[rd, rs1], Some(number))
        }
        Instr::Store {
            kind,
            rs1,
            rs2,
            offset,
        } => {
            let number = signed(IMMEDIATE_BITS, offset.number());
            push_statement(out, Form::Store(kind), &[rs2, rs1], Some(number))
        }
        Instr::WithImmediate {
            op,
            rd,
            rs1,
            immediate,
        } => push_immediate(out, op, rd, rs1, immediate),
        Instr::Shift {
            op,
            rd,
            rs1,
            amount,
        } => {
            let number = i64::from(amount.number());
            push_statement(out, Form::Shift(op), &[rd, rs1], Some(number))
        }
        Instr::WithRegister { op, rd, rs1, rs2 } => {
            push_statement(out, Form::WithRegister(op), &[rd, rs1, rs2], None)
        }
        Instr::Fence { .. } => push_fence(out, word),
        Instr::Ecall => push_statement(out, Form::Ecall, &[], None),
        Instr::Ebreak => push_statement(out, Form::Ebreak, &[], None),
    }
}

/// Appends the statement of a word of the text; the word by its value if it is no instruction.
pub fn push_word_statement(out: &mut String, word: u32) -> Result<(), AllocError>
    ensures { OnOk result (string_bytes out.new ≡ string_bytes out.old ++ statement_text (is.statement_for word)) }
{
    match decode(word) {
        Some(instruction) => push_instruction(out, word, instruction),
        None => push_word(out, word),
    }
}
