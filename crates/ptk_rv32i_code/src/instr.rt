//! The instructions.

use crate::fields::{BranchOffset, Immediate, JumpOffset, Register, ShiftAmount, UpperImmediate};

/// When a branch is taken, by rs1 and rs2 (RISC-V 2.5).
#[derive(Clone, Copy, PartialEq, Eq)]
pub enum BranchTest {
    /// BEQ.
    Equal,
    /// BNE.
    NotEqual,
    /// BLT: less as signed numbers.
    Less,
    /// BGE: greater or equal as signed numbers.
    NotLess,
    /// BLTU: less as unsigned numbers.
    LessUnsigned,
    /// BGEU: greater or equal as unsigned numbers.
    NotLessUnsigned,
}

/// What a load reads (RISC-V 2.6).
#[derive(Clone, Copy, PartialEq, Eq)]
pub enum LoadKind {
    /// LB: 8 bits, the sign copied.
    Byte,
    /// LH: 16 bits, the sign copied.
    Half,
    /// LW: 32 bits.
    Word,
    /// LBU: 8 bits.
    ByteUnsigned,
    /// LHU: 16 bits.
    HalfUnsigned,
}

/// What a store writes (RISC-V 2.6).
#[derive(Clone, Copy, PartialEq, Eq)]
pub enum StoreKind {
    /// SB: the low 8 bits of rs2.
    Byte,
    /// SH: the low 16 bits of rs2.
    Half,
    /// SW: rs2.
    Word,
}

/// An operation on rs1 and an immediate (RISC-V 2.4).
#[derive(Clone, Copy, PartialEq, Eq)]
pub enum ImmediateOp {
    /// ADDI.
    Add,
    /// SLTI: 1 where less as signed numbers, else 0.
    Less,
    /// SLTIU: 1 where less as unsigned numbers, else 0.
    LessUnsigned,
    /// XORI.
    Xor,
    /// ORI.
    Or,
    /// ANDI.
    And,
}

/// A shift of rs1 by a constant (RISC-V 2.4).
#[derive(Clone, Copy, PartialEq, Eq)]
pub enum ShiftOp {
    /// SLLI.
    Left,
    /// SRLI: zeros come in.
    Right,
    /// SRAI: the sign is copied.
    RightSigned,
}

/// An operation on rs1 and rs2 (RISC-V 2.4).
#[derive(Clone, Copy, PartialEq, Eq)]
pub enum RegisterOp {
    /// ADD.
    Add,
    /// SUB.
    Subtract,
    /// SLL.
    ShiftLeft,
    /// SLT: 1 where less as signed numbers, else 0.
    Less,
    /// SLTU: 1 where less as unsigned numbers, else 0.
    LessUnsigned,
    /// XOR.
    Xor,
    /// SRL: zeros come in.
    ShiftRight,
    /// SRA: the sign is copied.
    ShiftRightSigned,
    /// OR.
    Or,
    /// AND.
    And,
}

/// An instruction of RV32I with each field of its word, grouped by major opcode (RISC-V 24).
#[derive(Clone, Copy, PartialEq, Eq)]
pub enum Instr {
    /// LUI.
    Lui {
        rd: Register,
        upper: UpperImmediate,
    },
    /// AUIPC.
    Auipc {
        rd: Register,
        upper: UpperImmediate,
    },
    /// JAL.
    Jal {
        rd: Register,
        offset: JumpOffset,
    },
    /// JALR.
    Jalr {
        rd: Register,
        rs1: Register,
        offset: Immediate,
    },
    /// BEQ, BNE, BLT, BGE, BLTU, BGEU.
    Branch {
        test: BranchTest,
        rs1: Register,
        rs2: Register,
        offset: BranchOffset,
    },
    /// LB, LH, LW, LBU, LHU.
    Load {
        kind: LoadKind,
        rd: Register,
        rs1: Register,
        offset: Immediate,
    },
    /// SB, SH, SW.
    Store {
        kind: StoreKind,
        rs1: Register,
        rs2: Register,
        offset: Immediate,
    },
    /// ADDI, SLTI, SLTIU, XORI, ORI, ANDI.
    WithImmediate {
        op: ImmediateOp,
        rd: Register,
        rs1: Register,
        immediate: Immediate,
    },
    /// SLLI, SRLI, SRAI.
    Shift {
        op: ShiftOp,
        rd: Register,
        rs1: Register,
        amount: ShiftAmount,
    },
    /// ADD, SUB, SLL, SLT, SLTU, XOR, SRL, SRA, OR, AND.
    WithRegister {
        op: RegisterOp,
        rd: Register,
        rs1: Register,
        rs2: Register,
    },
    /// FENCE, whose fields mean nothing here but are kept: `high` is bits 31 to 20.
    Fence {
        rd: Register,
        rs1: Register,
        high: Immediate,
    },
    /// ECALL.
    Ecall,
    /// EBREAK.
    Ebreak,
}
