//! An instruction as its word.

ghost use Rattle.std.specs.Prelude.{◌≡◌, ◌<◌, ◌^◌, Some};
ghost use Rattle.ptk_words_model.specs.Instructions.{rd_of, rs1_of, rs2_of};
ghost use Rattle.ptk_words_model.specs.Fields.{opcode_of, funct3_of, funct7_of};
ghost use Rattle.ptk_rv32i_code.specs.Coding.{i_bits, s_bits, b_bits, u_bits, j_bits, decoded, decoded_by_fields, encoded, r_coded, i_coded, s_coded, b_coded, u_coded, j_coded, test_code, load_code, store_code, immediate_code, shift_code, register_code};

use crate::fields::{BranchOffset, Immediate, JumpOffset, Register, ShiftAmount, UpperImmediate};
use crate::instr::{BranchTest, ImmediateOp, Instr, LoadKind, RegisterOp, ShiftOp, StoreKind};

/// An R-type word.
#[tactic(auto, unfolding(crate::specs::Coding::r_coded))]
fn r_word(opcode: u32, funct3: u32, funct7: u32, rd: Register, rs1: Register, rs2: u32) -> u32
    requires opcode { opcode < 2 ^ 7 }
    requires funct3 { funct3 < 2 ^ 3 }
    requires funct7 { funct7 < 2 ^ 7 }
    requires rs2 { rs2 < 2 ^ 5 }
    ensures value { result ≡ r_coded opcode funct3 funct7 rd rs1 rs2 }
    ensures opcode { opcode_of result ≡ opcode }
    ensures funct3 { funct3_of result ≡ funct3 }
    ensures funct7 { funct7_of result ≡ funct7 }
    ensures rd { rd_of result ≡ rd }
    ensures rs1 { rs1_of result ≡ rs1 }
    ensures rs2 { rs2_of result ≡ rs2 }
{
    opcode
        + (rd.number() << 7)
        + (funct3 << 12)
        + (rs1.number() << 15)
        + (rs2 << 20)
        + (funct7 << 25)
}

/// An I-type word.
#[tactic(auto, unfolding(crate::specs::Coding::i_coded))]
fn i_word(opcode: u32, funct3: u32, rd: Register, rs1: Register, immediate: Immediate) -> u32
    requires opcode { opcode < 2 ^ 7 }
    requires funct3 { funct3 < 2 ^ 3 }
    ensures value { result ≡ i_coded opcode funct3 rd rs1 immediate }
    ensures opcode { opcode_of result ≡ opcode }
    ensures funct3 { funct3_of result ≡ funct3 }
    ensures rd { rd_of result ≡ rd }
    ensures rs1 { rs1_of result ≡ rs1 }
    ensures bits { i_bits result ≡ immediate }
{
    opcode + (rd.number() << 7) + (funct3 << 12) + (rs1.number() << 15) + (immediate.number() << 20)
}

/// An S-type word.
#[tactic(auto, unfolding(crate::specs::Coding::s_coded))]
fn s_word(opcode: u32, funct3: u32, rs1: Register, rs2: Register, offset: Immediate) -> u32
    requires opcode { opcode < 2 ^ 7 }
    requires funct3 { funct3 < 2 ^ 3 }
    ensures value { result ≡ s_coded opcode funct3 rs1 rs2 offset }
    ensures opcode { opcode_of result ≡ opcode }
    ensures funct3 { funct3_of result ≡ funct3 }
    ensures rs1 { rs1_of result ≡ rs1 }
    ensures rs2 { rs2_of result ≡ rs2 }
    ensures bits { s_bits result ≡ offset }
{
    let bits = offset.number();
    opcode
        + ((bits & 0x1f) << 7)
        + (funct3 << 12)
        + (rs1.number() << 15)
        + (rs2.number() << 20)
        + (bits >> 5 << 25)
}

/// A B-type word.
#[tactic(auto, unfolding(crate::specs::Coding::b_coded))]
fn b_word(opcode: u32, funct3: u32, rs1: Register, rs2: Register, offset: BranchOffset) -> u32
    requires opcode { opcode < 2 ^ 7 }
    requires funct3 { funct3 < 2 ^ 3 }
    ensures value { result ≡ b_coded opcode funct3 rs1 rs2 offset }
    ensures opcode { opcode_of result ≡ opcode }
    ensures funct3 { funct3_of result ≡ funct3 }
    ensures rs1 { rs1_of result ≡ rs1 }
    ensures rs2 { rs2_of result ≡ rs2 }
    ensures bits { b_bits result ≡ offset }
{
    let bits = offset.number();
    opcode
        + ((bits >> 11 & 1) << 7)
        + ((bits >> 1 & 0xf) << 8)
        + (funct3 << 12)
        + (rs1.number() << 15)
        + (rs2.number() << 20)
        + ((bits >> 5 & 0x3f) << 25)
        + (bits >> 12 << 31)
}

/// A U-type word.
#[tactic(auto, unfolding(crate::specs::Coding::u_coded))]
fn u_word(opcode: u32, rd: Register, upper: UpperImmediate) -> u32
    requires { opcode < 2 ^ 7 }
    ensures value { result ≡ u_coded opcode rd upper }
    ensures opcode { opcode_of result ≡ opcode }
    ensures rd { rd_of result ≡ rd }
    ensures bits { u_bits result ≡ upper }
{
    opcode + (rd.number() << 7) + (upper.number() << 12)
}

/// A J-type word.
#[tactic(auto, unfolding(crate::specs::Coding::j_coded))]
fn j_word(opcode: u32, rd: Register, offset: JumpOffset) -> u32
    requires { opcode < 2 ^ 7 }
    ensures value { result ≡ j_coded opcode rd offset }
    ensures opcode { opcode_of result ≡ opcode }
    ensures rd { rd_of result ≡ rd }
    ensures bits { j_bits result ≡ offset }
{
    let bits = offset.number();
    opcode
        + (rd.number() << 7)
        + ((bits >> 12 & 0xff) << 12)
        + ((bits >> 11 & 1) << 20)
        + ((bits >> 1 & 0x3ff) << 21)
        + (bits >> 20 << 31)
}

fn branch_code(test: BranchTest) -> u32
    ensures { result ≡ test_code test }
{
    match test {
        BranchTest::Equal => 0,
        BranchTest::NotEqual => 1,
        BranchTest::Less => 4,
        BranchTest::NotLess => 5,
        BranchTest::LessUnsigned => 6,
        BranchTest::NotLessUnsigned => 7,
    }
}

/// A branch.
#[tactic(auto, unfolding(ptk_words_model::specs::Fields::row_by))]
fn encode_branch(test: BranchTest, rs1: Register, rs2: Register, offset: BranchOffset) -> u32
    ensures value { result ≡ b_coded 99 (test_code test) rs1 rs2 offset }
    ensures again { decoded_by_fields result ≡ Some (Instr.Branch test rs1 rs2 offset) }
{
    b_word(0x63, branch_code(test), rs1, rs2, offset)
}

/// A load.
#[tactic(auto, unfolding(ptk_words_model::specs::Fields::row_by))]
fn encode_load(kind: LoadKind, rd: Register, rs1: Register, offset: Immediate) -> u32
    ensures value { result ≡ i_coded 3 (load_code kind) rd rs1 offset }
    ensures again { decoded_by_fields result ≡ Some (Instr.Load kind rd rs1 offset) }
{
    let funct3 = match kind {
        LoadKind::Byte => 0,
        LoadKind::Half => 1,
        LoadKind::Word => 2,
        LoadKind::ByteUnsigned => 4,
        LoadKind::HalfUnsigned => 5,
    };
    i_word(0x03, funct3, rd, rs1, offset)
}

/// A store.
#[tactic(auto, unfolding(ptk_words_model::specs::Fields::row_by))]
fn encode_store(kind: StoreKind, rs1: Register, rs2: Register, offset: Immediate) -> u32
    ensures value { result ≡ s_coded 35 (store_code kind) rs1 rs2 offset }
    ensures again { decoded_by_fields result ≡ Some (Instr.Store kind rs1 rs2 offset) }
{
    let funct3 = match kind {
        StoreKind::Byte => 0,
        StoreKind::Half => 1,
        StoreKind::Word => 2,
    };
    s_word(0x23, funct3, rs1, rs2, offset)
}

/// An operation with an immediate.
#[tactic(auto, unfolding(ptk_words_model::specs::Fields::row_by))]
fn encode_with_immediate(op: ImmediateOp, rd: Register, rs1: Register, immediate: Immediate) -> u32
    ensures value { result ≡ i_coded 19 (immediate_code op) rd rs1 immediate }
    ensures again { decoded_by_fields result ≡ Some (Instr.WithImmediate op rd rs1 immediate) }
{
    let funct3 = match op {
        ImmediateOp::Add => 0,
        ImmediateOp::Less => 2,
        ImmediateOp::LessUnsigned => 3,
        ImmediateOp::Xor => 4,
        ImmediateOp::Or => 6,
        ImmediateOp::And => 7,
    };
    i_word(0x13, funct3, rd, rs1, immediate)
}

/// A shift by a constant.
#[tactic(auto, unfolding(ptk_words_model::specs::Fields::row_by))]
fn encode_shift(op: ShiftOp, rd: Register, rs1: Register, amount: ShiftAmount) -> u32
    ensures value { let code = shift_code op in result ≡ r_coded 19 code.0 code.1 rd rs1 amount }
    ensures again { decoded_by_fields result ≡ Some (Instr.Shift op rd rs1 amount) }
{
    let (funct3, funct7) = match op {
        ShiftOp::Left => (1, 0),
        ShiftOp::Right => (5, 0),
        ShiftOp::RightSigned => (5, 32),
    };
    r_word(0x13, funct3, funct7, rd, rs1, amount.number())
}

/// An operation on two registers.
#[tactic(auto, unfolding(ptk_words_model::specs::Fields::row_by))]
fn encode_with_register(op: RegisterOp, rd: Register, rs1: Register, rs2: Register) -> u32
    ensures value { let code = register_code op in result ≡ r_coded 51 code.0 code.1 rd rs1 rs2 }
    ensures again { decoded_by_fields result ≡ Some (Instr.WithRegister op rd rs1 rs2) }
{
    let (funct3, funct7) = match op {
        RegisterOp::Add => (0, 0),
        RegisterOp::Subtract => (0, 32),
        RegisterOp::ShiftLeft => (1, 0),
        RegisterOp::Less => (2, 0),
        RegisterOp::LessUnsigned => (3, 0),
        RegisterOp::Xor => (4, 0),
        RegisterOp::ShiftRight => (5, 0),
        RegisterOp::ShiftRightSigned => (5, 32),
        RegisterOp::Or => (6, 0),
        RegisterOp::And => (7, 0),
    };
    r_word(0x33, funct3, funct7, rd, rs1, rs2.number())
}

/// The word of an instruction, by its group.
#[tactic(auto, unfolding(ptk_words_model::specs::Fields::row_by))]
fn encode_by_group(instr: Instr) -> u32
    ensures value { result ≡ encoded instr }
    ensures again { decoded_by_fields result ≡ Some instr }
{
    match instr {
        Instr::Lui { rd, upper } => u_word(0x37, rd, upper),
        Instr::Auipc { rd, upper } => u_word(0x17, rd, upper),
        Instr::Jal { rd, offset } => j_word(0x6f, rd, offset),
        Instr::Jalr { rd, rs1, offset } => i_word(0x67, 0, rd, rs1, offset),
        Instr::Branch {
            test,
            rs1,
            rs2,
            offset,
        } => encode_branch(test, rs1, rs2, offset),
        Instr::Load {
            kind,
            rd,
            rs1,
            offset,
        } => encode_load(kind, rd, rs1, offset),
        Instr::Store {
            kind,
            rs1,
            rs2,
            offset,
        } => encode_store(kind, rs1, rs2, offset),
        Instr::WithImmediate {
            op,
            rd,
            rs1,
            immediate,
        } => encode_with_immediate(op, rd, rs1, immediate),
        Instr::Shift {
            op,
            rd,
            rs1,
            amount,
        } => encode_shift(op, rd, rs1, amount),
        Instr::WithRegister { op, rd, rs1, rs2 } => encode_with_register(op, rd, rs1, rs2),
        Instr::Fence { rd, rs1, high } => i_word(0x0f, 0, rd, rs1, high),
        Instr::Ecall => 0x0000_0073,
        Instr::Ebreak => 0x0010_0073,
    }
}

/// The word of an instruction, which decodes to it (RISC-V 2.2, 24).
#[tactic(auto, using(crate::proofs::Decoded::decoded_by))]
pub fn encode(instr: &Instr) -> u32
    ensures value { result ≡ encoded instr.now }
    ensures again { decoded result ≡ Some instr.now }
{
    encode_by_group(*instr)
}
