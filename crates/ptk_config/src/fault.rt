//! Why a configuration is refused.

ghost use Rattle.std.specs.Prelude.{◌≡◌};
ghost use Rattle.ptk_config.specs.declared.fault.ConfigFault.TheVariants.{Memory};
ghost use Rattle.ptk_config.specs.FaultNumbers.{config_fault_number};

use ptk_words_model::WindowFault;
use std::alloc::{AllocError, AllocFailed};
use thiserror::Error;

/// Why a configuration is refused.
#[derive(Clone, Copy, Debug, PartialEq, Eq, Error)]
pub enum ConfigFault {
    /// 1: the text is no TOML document.
    #[error("the text is no TOML document")]
    Text,
    /// 2: a key is missing.
    #[error("a key is missing")]
    MissingKey,
    /// 3: a value has the wrong type.
    #[error("a value has the wrong type")]
    WrongType,
    /// 4: a value is out of range.
    #[error("a value is out of range")]
    OutOfRange,
    /// 5: a key is unknown.
    #[error("a key is unknown")]
    UnknownKey,
    /// 6: two partitions have one name.
    #[error("two partitions have one name")]
    DoubledName,
    /// 7: the windows are refused, for this fault.
    #[error("the windows are refused: {0}")]
    Window(WindowFault),
    /// 8: out of memory.
    #[error("out of memory")]
    Memory,
}

impl ConfigFault {
    /// The number of the fault, 1 to 8.
    pub fn number(self) -> u8
        ensures { result ≡ config_fault_number self }
    {
        match self {
            ConfigFault::Text => 1,
            ConfigFault::MissingKey => 2,
            ConfigFault::WrongType => 3,
            ConfigFault::OutOfRange => 4,
            ConfigFault::UnknownKey => 5,
            ConfigFault::DoubledName => 6,
            ConfigFault::Window(_) => 7,
            ConfigFault::Memory => 8,
        }
    }
}

impl From<AllocError> for ConfigFault {
    ghost from_gives = { λ _ e. e ≡ Memory };

    fn from(_error: AllocError) -> ConfigFault {
        ConfigFault::Memory
    }
}

impl<T: Drop> From<AllocFailed<T>> for ConfigFault {
    ghost from_gives = { λ _ e. e ≡ Memory };

    fn from(_error: AllocFailed<T>) -> ConfigFault {
        ConfigFault::Memory
    }
}
