//! The outcome of a step.

use ptk_words::FaultKind;

/// The outcome of a step.
#[derive(Clone, Copy, PartialEq, Eq)]
pub enum Outcome {
    /// The instruction was carried out.
    Done,
    /// An ECALL: the pc is at the next word, and the call itself is left to the caller (RISC-V 2.8).
    Call,
    /// An EBREAK, which changed nothing (RISC-V 2.8).
    Break,
    /// A fault, which changed nothing (RISC-V 1.6).
    Fault(FaultKind),
}
