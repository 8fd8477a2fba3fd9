//! Why an answer is not written to its end.

ghost use Rattle.std.specs.Prelude.{◌≡◌};
ghost use Rattle.ptk_main_runs.specs.declared.fault.PutFault.TheVariants as put;

use std::alloc::AllocError;
use std::io;

/// Why an answer that was begun is not written to its end.
#[derive(Clone, Copy)]
pub enum PutFault {
    /// Memory was refused.
    Memory,
    /// The writer failed.
    Write,
}

impl From<AllocError> for PutFault {
    ghost from_gives = { λ _ fault. fault ≡ put.Memory };

    fn from(_error: AllocError) -> PutFault {
        PutFault::Memory
    }
}

impl From<io::Error> for PutFault {
    ghost from_gives = { λ _ fault. fault ≡ put.Write };

    fn from(_error: io::Error) -> PutFault {
        PutFault::Write
    }
}

impl From<serde_json::Error> for PutFault {
    ghost from_gives = { λ _ fault. fault ≡ put.Memory };

    fn from(_error: serde_json::Error) -> PutFault {
        PutFault::Memory
    }
}
