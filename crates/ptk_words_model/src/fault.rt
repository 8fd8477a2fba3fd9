//! Why a window plan is refused.

ghost use Rattle.std.specs.Prelude.{◌≡◌};
ghost use Rattle.ptk_words_model.specs.declared.fault.WindowFault.TheVariants.{Memory};
ghost use Rattle.ptk_words_model.specs.FaultNumbers.{window_fault_number};

use std::alloc::AllocError;
use thiserror::Error;

/// Why a window plan is refused.
#[derive(Clone, Copy, Debug, PartialEq, Eq, Error)]
pub enum WindowFault {
    /// 1: no window.
    #[error("no window")]
    Empty,
    /// 2: a window is shorter than 16 ticks.
    #[error("a window is shorter than 16 ticks")]
    Short,
    /// 3: two windows have a common tick.
    #[error("two windows have a common tick")]
    Overlap,
    /// 4: a window ends after the frame.
    #[error("a window ends after the frame")]
    PastFrame,
    /// 5: a window names an unknown partition.
    #[error("a window names an unknown partition")]
    UnknownPartition,
    /// 6: out of memory.
    #[error("out of memory")]
    Memory,
    /// 7: the numbers of the stages do not begin with 0 and rise.
    #[error("the numbers of the stages do not begin with 0 and rise")]
    OutOfOrder,
}

impl WindowFault {
    /// The number of the fault, 1 to 7.
    pub fn number(self) -> u8
        ensures { result ≡ window_fault_number self }
    {
        match self {
            WindowFault::Empty => 1,
            WindowFault::Short => 2,
            WindowFault::Overlap => 3,
            WindowFault::PastFrame => 4,
            WindowFault::UnknownPartition => 5,
            WindowFault::Memory => 6,
            WindowFault::OutOfOrder => 7,
        }
    }
}

impl From<AllocError> for WindowFault {
    ghost from_gives = { λ _ e. e ≡ Memory };

    fn from(_error: AllocError) -> WindowFault {
        WindowFault::Memory
    }
}
