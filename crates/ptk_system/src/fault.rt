//! Why a boot is refused.

ghost use Rattle.std.specs.Prelude.{◌≡◌};
ghost use Rattle.ptk_system.specs.declared.fault.BootFault.TheVariants.{Memory};
ghost use Rattle.ptk_system.specs.BootNumbers.{boot_fault_number};

use ptk_words::PartId;
use std::alloc::AllocError;
use thiserror::Error;

/// Why a boot is refused.
#[derive(Clone, Copy, Debug, PartialEq, Eq, Error)]
pub enum BootFault {
    /// Memory was refused.
    #[error("out of memory")]
    Memory,
    /// The first section whose file is missing.
    #[error("an image's file is missing")]
    MissingFile(PartId),
}

impl BootFault {
    /// The number of the fault, 1 or 2.
    pub fn number(self) -> u8
        ensures { result ≡ boot_fault_number self }
    {
        match self {
            BootFault::Memory => 1,
            BootFault::MissingFile(_) => 2,
        }
    }
}

impl From<AllocError> for BootFault {
    ghost from_gives = { λ _ e. e ≡ Memory };

    fn from(_error: AllocError) -> BootFault {
        BootFault::Memory
    }
}
