//! Why a source is refused.

ghost use Rattle.std.specs.Prelude.{◌≡◌};
ghost use Rattle.ptk_asm_language.specs.Source.{fault_number};

use std::alloc::{AllocError, AllocFailed};
use thiserror::Error;

/// Why a source is refused.
#[derive(Clone, Copy, Debug, PartialEq, Eq, Error)]
pub enum FaultKind {
    /// No token of the language, wrong or missing punctuation, a missing or an extra operand, no number in its place.
    #[error("wrong token")]
    Token,
    /// An unknown mnemonic, no name in its place, or a mnemonic of another section.
    #[error("unknown or misplaced mnemonic")]
    Mnemonic,
    /// No register in a register's place.
    #[error("unknown register")]
    Register,
    /// A number out of range, an odd distance, a word of data at a wrong offset, or a section above its size.
    #[error("number, distance, offset or section out of range")]
    Range,
    /// A label that no line has.
    #[error("unknown label")]
    UnknownLabel,
    /// A label that a line before has.
    #[error("doubled label")]
    DoubledLabel,
    /// Memory was refused.
    #[error("out of memory")]
    Memory,
}

impl FaultKind {
    /// The number of the fault, 1 to 7.
    pub fn number(self) -> u8
        ensures { result ≡ fault_number self }
    {
        match self {
            FaultKind::Token => 1,
            FaultKind::Mnemonic => 2,
            FaultKind::Register => 3,
            FaultKind::Range => 4,
            FaultKind::UnknownLabel => 5,
            FaultKind::DoubledLabel => 6,
            FaultKind::Memory => 7,
        }
    }
}

/// Why a line is refused, and the bytes of the line at fault.
#[derive(Clone, Copy, PartialEq, Eq)]
pub struct LineFault {
    /// The first byte at fault, counted from the line's beginning.
    pub from: usize,
    /// The byte after the last one at fault, or `from` where something is missing.
    pub to: usize,
    /// What the fault is.
    pub kind: FaultKind,
}

impl From<AllocError> for LineFault {
    ghost use Rattle.std.specs.Prelude.{◌≡◌};
    ghost use Rattle.ptk_asm_language.specs.declared.fault.FaultKind.TheVariants.{Memory};

    ghost from_gives = { λ _ e. e.kind ≡ Memory };

    fn from(_error: AllocError) -> LineFault {
        LineFault {
            from: 0,
            to: 0,
            kind: FaultKind::Memory,
        }
    }
}

impl<T: Drop> From<AllocFailed<T>> for LineFault {
    ghost use Rattle.std.specs.Prelude.{◌≡◌};
    ghost use Rattle.ptk_asm_language.specs.declared.fault.FaultKind.TheVariants.{Memory};

    ghost from_gives = { λ _ e. e.kind ≡ Memory };

    fn from(_error: AllocFailed<T>) -> LineFault {
        LineFault {
            from: 0,
            to: 0,
            kind: FaultKind::Memory,
        }
    }
}
