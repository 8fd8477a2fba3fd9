//! What a source is made of: sections, forms of statements, places of operands.

use ptk_rv32i_code::{BranchTest, ImmediateOp, LoadKind, RegisterOp, ShiftOp, StoreKind};

/// A part of the image.
#[derive(Clone, Copy, Debug, PartialEq, Eq)]
pub enum Section {
    /// Instructions and words, at address 0.
    Text,
    /// Words, bytes and zeros, behind the text.
    Data,
    /// Zeros behind the data.
    Bss,
}

/// What a mnemonic stands for.
#[derive(Clone, Copy, PartialEq, Eq)]
pub enum Form {
    /// `.text`, `.data`, `.bss`: the section of what follows.
    Within(Section),
    /// `.word`.
    Word,
    /// `.byte`.
    Byte,
    /// `.space`: zeros.
    Space,
    /// An operation on a register and an immediate.
    WithImmediate(ImmediateOp),
    /// A shift by a constant.
    Shift(ShiftOp),
    /// An operation on two registers.
    WithRegister(RegisterOp),
    /// A load.
    Load(LoadKind),
    /// A store.
    Store(StoreKind),
    /// A branch.
    Branch(BranchTest),
    /// `jalr`.
    Jalr,
    /// `jal`.
    Jal,
    /// `lui`.
    Lui,
    /// `auipc`.
    Auipc,
    /// `ecall`.
    Ecall,
    /// `ebreak`.
    Ebreak,
    /// `fence`.
    Fence,
    /// `nop`.
    Nop,
    /// `mv`.
    Move,
    /// `j`.
    Jump,
    /// `jr`.
    JumpRegister,
    /// `ret`.
    Return,
    /// `call`.
    Call,
    /// `li`.
    LoadValue,
    /// `la`.
    LoadAddress,
}

/// What may stand in a place of a statement. The two numbers of a range are how far below 0 and above it reaches.
#[derive(Clone, Copy, PartialEq, Eq)]
pub enum Slot {
    /// This character.
    Mark(u8),
    /// A register's name.
    Register,
    /// A number in a range.
    Number(u32, u32),
    /// A number in a range, or a label.
    NumberOrLabel(u32, u32),
    /// An even distance in a range, or a label.
    Target(u32, u32),
    /// A label.
    Label,
}
