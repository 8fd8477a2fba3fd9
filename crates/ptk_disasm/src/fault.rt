//! Why an image has no source, and why a text is not a symbol table.

use ptk_asm_language::Section;
use std::alloc::AllocError;
use thiserror::Error;

/// Why an image has no source.
#[derive(Clone, Copy, Debug, PartialEq, Eq, Error)]
pub enum DisasmFault {
    /// The first section, of text, data and bss, that is longer than the 1,048,576 bytes that a source may have of it.
    #[error("a section is longer than 1048576 bytes")]
    TooLong(Section),
    /// Out of memory.
    #[error("out of memory")]
    Memory,
}

impl From<AllocError> for DisasmFault {
    ghost use Rattle.std.specs.Prelude.{◌≡◌};
    ghost use Rattle.ptk_disasm.specs.declared.fault.DisasmFault.TheVariants.{Memory};

    ghost from_gives = { λ _ e. e ≡ Memory };

    fn from(_error: AllocError) -> DisasmFault {
        DisasmFault::Memory
    }
}

/// Why a text is not a symbol table.
#[derive(Clone, Copy, Debug, PartialEq, Eq, Error)]
pub enum SymbolFault {
    /// The first line that is not a symbol, counted from 1.
    #[error("line {0} is no symbol")]
    Line(usize),
    /// Out of memory.
    #[error("out of memory")]
    Memory,
}

impl From<AllocError> for SymbolFault {
    ghost use Rattle.std.specs.Prelude.{◌≡◌};
    ghost use Rattle.ptk_disasm.specs.declared.fault.SymbolFault.TheVariants.{Memory};

    ghost from_gives = { λ _ e. e ≡ Memory };

    fn from(_error: AllocError) -> SymbolFault {
        SymbolFault::Memory
    }
}
