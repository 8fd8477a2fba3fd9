//! A word as an instruction.

ghost use Rattle.std.specs.Prelude.{◌≡◌, ◌<◌, ◌⊎◌, IfSome};
ghost use Rattle.ptk_words_model.specs.Instructions.{rd_of, rs1_of, rs2_of};
ghost use Rattle.ptk_words_model.specs.Fields.{opcode_of, funct3_of, funct7_of};
ghost use Rattle.ptk_rv32i_code.specs.Coding.{i_bits, s_bits, b_bits, u_bits, j_bits, decoded, decoded_by_fields, encoded};

use crate::fields::{BranchOffset, Immediate, JumpOffset, Register, ShiftAmount, UpperImmediate};
use crate::instr::{BranchTest, ImmediateOp, Instr, LoadKind, RegisterOp, ShiftOp, StoreKind};

/// The destination register of a word.
#[inline(always)]
pub fn rd(word: u32) -> Register
    ensures { result ≡ rd_of word }
{
    Register::new(word >> 7 & 0x1f)
}

/// The first source register.
#[inline(always)]
pub fn rs1(word: u32) -> Register
    ensures { result ≡ rs1_of word }
{
    Register::new(word >> 15 & 0x1f)
}

/// The second source register.
#[inline(always)]
pub fn rs2(word: u32) -> Register
    ensures { result ≡ rs2_of word }
{
    Register::new(word >> 20 & 0x1f)
}

/// The amount of a shift by a constant.
#[inline(always)]
pub fn amount(word: u32) -> ShiftAmount
    ensures { result ≡ rs2_of word }
{
    ShiftAmount::new(word >> 20 & 0x1f)
}

/// The immediate of an I-type word.
#[inline(always)]
pub fn immediate(word: u32) -> Immediate
    ensures { result ≡ i_bits word }
{
    Immediate::new(word >> 20)
}

/// The immediate of an S-type word.
#[inline(always)]
pub fn store_offset(word: u32) -> Immediate
    ensures { result ≡ s_bits word }
{
    Immediate::new(word >> 25 << 5 | word >> 7 & 0x1f)
}

/// The immediate of a B-type word.
#[inline(always)]
pub fn branch_offset(word: u32) -> BranchOffset
    ensures { result ≡ b_bits word }
{
    BranchOffset::new(
        (word >> 31 << 12)
            + ((word >> 7 & 1) << 11)
            + ((word >> 25 & 0x3f) << 5)
            + ((word >> 8 & 0xf) << 1),
    )
}

/// The immediate of a U-type word.
#[inline(always)]
pub fn upper(word: u32) -> UpperImmediate
    ensures { result ≡ u_bits word }
{
    UpperImmediate::new(word >> 12)
}

/// The immediate of a J-type word.
#[inline(always)]
pub fn jump_offset(word: u32) -> JumpOffset
    ensures { result ≡ j_bits word }
{
    JumpOffset::new(
        (word >> 31 << 20)
            + ((word >> 12 & 0xff) << 12)
            + ((word >> 20 & 1) << 11)
            + ((word >> 21 & 0x3ff) << 1),
    )
}

/// The opcode of a word.
#[inline(always)]
fn opcode(word: u32) -> u32
    ensures { result ≡ opcode_of word }
{
    word & 0x7f
}

/// The funct3 field of a word.
#[inline(always)]
fn funct3(word: u32) -> u32
    ensures { result ≡ funct3_of word }
{
    word >> 12 & 7
}

/// The funct7 field of a word.
#[inline(always)]
fn funct7(word: u32) -> u32
    ensures { result ≡ funct7_of word }
{
    word >> 25
}

/// A branch.
#[tactic(auto, using(crate::proofs::Coded::b_again), unfolding(ptk_words_model::specs::Fields::row_by))]
#[inline(always)]
fn decode_branch(word: u32) -> Option<Instr>
    requires { opcode_of word ≡ 99 }
    ensures decoded { result ≡ decoded_by_fields word }
    ensures again { IfSome result (λ instr. encoded instr ≡ word) }
{
    let test = match funct3(word) {
        0 => BranchTest::Equal,
        1 => BranchTest::NotEqual,
        4 => BranchTest::Less,
        5 => BranchTest::NotLess,
        6 => BranchTest::LessUnsigned,
        7 => BranchTest::NotLessUnsigned,
        _ => return None,
    };
    Some(Instr::Branch {
        test,
        rs1: rs1(word),
        rs2: rs2(word),
        offset: branch_offset(word),
    })
}

/// A load.
#[tactic(auto, using(crate::proofs::Coded::i_again), unfolding(ptk_words_model::specs::Fields::row_by))]
#[inline(always)]
fn decode_load(word: u32) -> Option<Instr>
    requires { opcode_of word ≡ 3 }
    ensures decoded { result ≡ decoded_by_fields word }
    ensures again { IfSome result (λ instr. encoded instr ≡ word) }
{
    let kind = match funct3(word) {
        0 => LoadKind::Byte,
        1 => LoadKind::Half,
        2 => LoadKind::Word,
        4 => LoadKind::ByteUnsigned,
        5 => LoadKind::HalfUnsigned,
        _ => return None,
    };
    Some(Instr::Load {
        kind,
        rd: rd(word),
        rs1: rs1(word),
        offset: immediate(word),
    })
}

/// A store.
#[tactic(auto, using(crate::proofs::Coded::s_again), unfolding(ptk_words_model::specs::Fields::row_by))]
#[inline(always)]
fn decode_store(word: u32) -> Option<Instr>
    requires { opcode_of word ≡ 35 }
    ensures decoded { result ≡ decoded_by_fields word }
    ensures again { IfSome result (λ instr. encoded instr ≡ word) }
{
    let kind = match funct3(word) {
        0 => StoreKind::Byte,
        1 => StoreKind::Half,
        2 => StoreKind::Word,
        _ => return None,
    };
    Some(Instr::Store {
        kind,
        rs1: rs1(word),
        rs2: rs2(word),
        offset: store_offset(word),
    })
}

/// An operation on two registers.
#[tactic(auto, using(crate::proofs::Coded::r_again), unfolding(ptk_words_model::specs::Fields::row_by))]
#[inline(always)]
fn decode_op(word: u32) -> Option<Instr>
    requires { opcode_of word ≡ 51 }
    ensures decoded { result ≡ decoded_by_fields word }
    ensures again { IfSome result (λ instr. encoded instr ≡ word) }
{
    let op = match (funct3(word), funct7(word)) {
        (0, 0) => RegisterOp::Add,
        (0, 32) => RegisterOp::Subtract,
        (1, 0) => RegisterOp::ShiftLeft,
        (2, 0) => RegisterOp::Less,
        (3, 0) => RegisterOp::LessUnsigned,
        (4, 0) => RegisterOp::Xor,
        (5, 0) => RegisterOp::ShiftRight,
        (5, 32) => RegisterOp::ShiftRightSigned,
        (6, 0) => RegisterOp::Or,
        (7, 0) => RegisterOp::And,
        _ => return None,
    };
    Some(Instr::WithRegister {
        op,
        rd: rd(word),
        rs1: rs1(word),
        rs2: rs2(word),
    })
}

/// A shift by a constant.
#[tactic(auto, using(crate::proofs::Coded::r_again), unfolding(ptk_words_model::specs::Fields::row_by))]
#[inline(always)]
fn decode_shift(word: u32) -> Option<Instr>
    requires opcode { opcode_of word ≡ 19 }
    requires shift { (funct3_of word ≡ 1) ⊎ (funct3_of word ≡ 5) }
    ensures decoded { result ≡ decoded_by_fields word }
    ensures again { IfSome result (λ instr. encoded instr ≡ word) }
{
    let op = match (funct3(word), funct7(word)) {
        (1, 0) => ShiftOp::Left,
        (5, 0) => ShiftOp::Right,
        (5, 32) => ShiftOp::RightSigned,
        _ => return None,
    };
    Some(Instr::Shift {
        op,
        rd: rd(word),
        rs1: rs1(word),
        amount: amount(word),
    })
}

/// An operation with an immediate.
#[tactic(auto, using(crate::proofs::Coded::i_again), unfolding(ptk_words_model::specs::Fields::row_by))]
#[inline(always)]
fn decode_op_immediate(word: u32) -> Option<Instr>
    requires { opcode_of word ≡ 19 }
    ensures decoded { result ≡ decoded_by_fields word }
    ensures again { IfSome result (λ instr. encoded instr ≡ word) }
{
    let op = match funct3(word) {
        0 => ImmediateOp::Add,
        2 => ImmediateOp::Less,
        3 => ImmediateOp::LessUnsigned,
        4 => ImmediateOp::Xor,
        6 => ImmediateOp::Or,
        7 => ImmediateOp::And,
        _ => return decode_shift(word),
    };
    Some(Instr::WithImmediate {
        op,
        rd: rd(word),
        rs1: rs1(word),
        immediate: immediate(word),
    })
}

/// A jump to a register.
#[tactic(auto, using(crate::proofs::Coded::i_again), unfolding(ptk_words_model::specs::Fields::row_by))]
#[inline(always)]
fn decode_jalr(word: u32) -> Option<Instr>
    requires { opcode_of word ≡ 103 }
    ensures decoded { result ≡ decoded_by_fields word }
    ensures again { IfSome result (λ instr. encoded instr ≡ word) }
{
    if funct3(word) != 0 {
        return None;
    }
    Some(Instr::Jalr {
        rd: rd(word),
        rs1: rs1(word),
        offset: immediate(word),
    })
}

/// A fence.
#[tactic(auto, using(crate::proofs::Coded::i_again), unfolding(ptk_words_model::specs::Fields::row_by))]
#[inline(always)]
fn decode_fence(word: u32) -> Option<Instr>
    requires { opcode_of word ≡ 15 }
    ensures decoded { result ≡ decoded_by_fields word }
    ensures again { IfSome result (λ instr. encoded instr ≡ word) }
{
    if funct3(word) != 0 {
        return None;
    }
    Some(Instr::Fence {
        rd: rd(word),
        rs1: rs1(word),
        high: immediate(word),
    })
}

/// A call or a break.
#[tactic(auto, unfolding(ptk_words_model::specs::Fields::row_by))]
#[inline(always)]
fn decode_system(word: u32) -> Option<Instr>
    requires { opcode_of word ≡ 115 }
    ensures decoded { result ≡ decoded_by_fields word }
    ensures again { IfSome result (λ instr. encoded instr ≡ word) }
{
    match word {
        0x0000_0073 => Some(Instr::Ecall),
        0x0010_0073 => Some(Instr::Ebreak),
        _ => None,
    }
}

/// The instruction of a word, by its opcode.
#[tactic(auto, using(crate::proofs::Coded::uj_again), unfolding(ptk_words_model::specs::Fields::row_by))]
#[inline(always)]
fn decode_by_opcode(word: u32) -> Option<Instr>
    ensures decoded { result ≡ decoded_by_fields word }
    ensures again { IfSome result (λ instr. encoded instr ≡ word) }
{
    match opcode(word) {
        0x37 => Some(Instr::Lui {
            rd: rd(word),
            upper: upper(word),
        }),
        0x17 => Some(Instr::Auipc {
            rd: rd(word),
            upper: upper(word),
        }),
        0x6f => Some(Instr::Jal {
            rd: rd(word),
            offset: jump_offset(word),
        }),
        0x67 => decode_jalr(word),
        0x63 => decode_branch(word),
        0x03 => decode_load(word),
        0x23 => decode_store(word),
        0x13 => decode_op_immediate(word),
        0x33 => decode_op(word),
        0x0f => decode_fence(word),
        0x73 => decode_system(word),
        _ => None,
    }
}

/// The instruction of a word, with each of its fields; None for a word outside the instruction table, 0x00000000 and
/// 0xFFFFFFFF among them (RISC-V 2.2, 24).
#[tactic(auto, using(crate::proofs::Decoded::decoded_by))]
#[inline(always)]
pub fn decode(word: u32) -> Option<Instr>
    ensures decoded { result ≡ decoded word }
    ensures again { IfSome result (λ instr. encoded instr ≡ word) }
{
    decode_by_opcode(word)
}
