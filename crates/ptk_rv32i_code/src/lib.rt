#![tactic(auto)]

//! Words of RV32I as instructions: `Instr`, which keeps every field of its word, `decode` and `encode`.
//!
//! - `decode` returns an instruction if and only if the word is one of the table, by mask and match, with the word's
//!   fields.
//! - `encode` and `decode` are each other's inverse (`word_again`, `instr_again`).
//!
//! The code decides by opcode, then by funct3; `rd` to `jump_offset` read one field of a word each. The weight of the
//! proofs is in `decoding` (the table by fields, one major opcode a function) and `encoding` (one layout a function).
//! Below are `ptk_words` and `ptk_words_model`; `ptk_rv32i` above passes on every name of this crate.

mod decoding;
mod encoding;
mod fields;
mod instr;
mod round_trips;

pub use decoding::{
    amount, branch_offset, decode, immediate, jump_offset, rd, rs1, rs2, store_offset, upper,
};
pub use encoding::encode;
pub use fields::{BranchOffset, Immediate, JumpOffset, Register, ShiftAmount, UpperImmediate};
pub use instr::{BranchTest, ImmediateOp, Instr, LoadKind, RegisterOp, ShiftOp, StoreKind};
pub use round_trips::{instr_again, word_again};
