//! What a thread looks like at a tick.

ghost use Rattle.std.specs.Prelude.{◌<◌};

use ptk_tracepoints::{Activity, ThreadState};
use ptk_words::{Owner, Wait};

/// How many shades there are.
pub(crate) const SHADES: usize = 11;

/// The kind of what a thread does: one shade of the picture.
#[derive(Clone, Copy, PartialEq, Eq)]
pub enum Shade {
    /// No thread has the number.
    Free,
    /// It is running.
    Running,
    /// It is ready.
    Ready,
    /// It waits for a byte of the console.
    Input,
    /// It sleeps.
    Sleep,
    /// It waits for the end of a thread.
    Join,
    /// It waits for a mutex.
    Mutex,
    /// It waits on a condition variable.
    Condition,
    /// It waits to have its mutex again after a condition wait.
    Relock,
    /// It has ended.
    Ended,
    /// Its partition is halted.
    Halted,
}

impl Shade {
    /// Its place among the shades, from 0.
    pub(crate) fn place(self) -> usize
        ensures { result < SHADES }
    {
        match self {
            Shade::Free => 0,
            Shade::Running => 1,
            Shade::Ready => 2,
            Shade::Input => 3,
            Shade::Sleep => 4,
            Shade::Join => 5,
            Shade::Mutex => 6,
            Shade::Condition => 7,
            Shade::Relock => 8,
            Shade::Ended => 9,
            Shade::Halted => 10,
        }
    }
}

/// What a thread looks like at a tick.
#[derive(Clone, Copy, PartialEq, Eq)]
pub struct Look {
    /// What it does.
    pub activity: Activity,
    /// The owner of the mutex that it waits for.
    pub owner: Option<Owner>,
    /// Its effective priority, if that is above its assigned one.
    pub raised: Option<u8>,
}

impl Look {
    /// The look of a number that no thread has.
    pub(crate) const FREE: Look = Look {
        activity: Activity::Free,
        owner: None,
        raised: None,
    };

    /// The look of a thread in a state.
    pub(crate) fn of(state: &ThreadState) -> Look {
        Look {
            activity: state.activity,
            owner: state.owner,
            raised: state.raised(),
        }
    }

    /// Its shade.
    pub fn shade(&self) -> Shade {
        match &self.activity {
            Activity::Free => Shade::Free,
            Activity::Running => Shade::Running,
            Activity::Ready => Shade::Ready,
            Activity::Blocked(wait) => shade_of_wait(wait),
            Activity::Ended => Shade::Ended,
            Activity::Halted => Shade::Halted,
        }
    }
}

/// The shade of a wait.
fn shade_of_wait(wait: &Wait) -> Shade {
    match wait {
        Wait::InputWait => Shade::Input,
        Wait::SleepWait(_) => Shade::Sleep,
        Wait::JoinWait(_) => Shade::Join,
        Wait::MutexWait(_, _) => Shade::Mutex,
        Wait::ConditionWait(_, _, _) => Shade::Condition,
        Wait::RelockWait(_, _) => Shade::Relock,
    }
}
