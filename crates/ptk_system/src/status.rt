//! What a partition does, as the report says it.

ghost use Rattle.std.specs.Prelude.{◌≡◌, Some};
ghost use Rattle.ptk_words_model.specs.Text.{cause_text};
ghost use Rattle.ptk_system.specs.Told.{is_halted, told_status};
ghost use Rattle.ptk_system.specs.Shown.{shown_status};

use ptk_trace::{Decimal, Word};
use ptk_words::{Cause, FaultKind, ImageFault, Status};
use std::fmt;

/// What a partition does, or why it is halted.
#[derive(Clone, Copy, PartialEq, Eq)]
pub enum PartStatus {
    /// It is not halted, and no thread is running or ready.
    Idle,
    /// It is not halted, and a thread is running or ready.
    Running,
    /// It exited with this code.
    Exited(u8),
    /// An instruction at this pc stopped it.
    Stopped(Cause, u32),
    /// Its image was refused, for fault 1 to 5 or 7; where memory runs out the boot is refused instead.
    Refused(ImageFault),
}

impl PartStatus {
    /// The status of a partition by that of the tables, and by whether a thread is running or ready.
    pub(crate) fn of(status: Status, busy: bool) -> PartStatus
        ensures { result ≡ told_status status busy }
    {
        match status {
            Status::Active if busy => PartStatus::Running,
            Status::Active => PartStatus::Idle,
            Status::Exited(code) => PartStatus::Exited(code),
            Status::Stopped(cause, pc) => PartStatus::Stopped(cause, pc),
            Status::Refused(fault) => PartStatus::Refused(fault),
        }
    }

    /// Whether it is that of a halted partition: it exited, was stopped, or its image was refused.
    pub fn is_halted(self) -> bool
        ensures { result ≡ is_halted self }
    {
        match self {
            PartStatus::Idle | PartStatus::Running => false,
            PartStatus::Exited(_) | PartStatus::Stopped(_, _) | PartStatus::Refused(_) => true,
        }
    }
}

/// The word of a cause, as the report spells it.
pub fn cause_word(cause: Cause) -> &'static str
    ensures { result.now ≡ cause_text cause }
{
    match cause {
        Cause::Break => "break",
        Cause::Fault(FaultKind::Illegal) => "illegal",
        Cause::Fault(FaultKind::Fetch) => "fetch",
        Cause::Fault(FaultKind::Load) => "load",
        Cause::Fault(FaultKind::Store) => "store",
        Cause::Fault(FaultKind::Misaligned) => "misaligned",
    }
}

impl fmt::Display for PartStatus {
    ghost output = { λ s. Some (shown_status s) };

    fn fmt<W: fmt::Write>(&self, f: &mut fmt::Formatter<W>) -> fmt::Result {
        match *self {
            PartStatus::Idle => f.write_str("idle"),
            PartStatus::Running => f.write_str("running"),
            PartStatus::Exited(code) => write!(f, "exit {}", Decimal(u64::from(code))),
            PartStatus::Stopped(cause, pc) => {
                let (word, pc) = (cause_word(cause), Word(pc));
                write!(f, "fault {word} pc {pc}")
            }
            PartStatus::Refused(fault) => {
                write!(f, "refused image {}", Decimal(u64::from(fault.number())))
            }
        }
    }
}
