//! The kinds of what a thread does.

ghost use Rattle.std.specs.Prelude.{◌<◌};
ghost use Rattle.ptk_statistics_figures.specs.declared.doing.TheConstants.{DOINGS};

use ptk_system::Activity;
use ptk_words::Wait;

/// How many kinds there are.
pub(crate) const DOINGS: usize = 11;

/// The kind of what a thread does (XSH 2.8.4).
#[derive(Clone, Copy, PartialEq, Eq)]
pub enum Doing {
    /// No thread has the number.
    Free,
    /// It is running.
    Running,
    /// It is ready.
    Ready,
    /// It waits for a byte of the console.
    Input,
    /// It sleeps.
    Sleep,
    /// It waits for the end of a thread.
    Join,
    /// It waits for a mutex.
    Mutex,
    /// It waits on a condition variable.
    Condition,
    /// It waits to have its mutex again after a condition wait.
    Relock,
    /// It has ended, and nobody has joined or detached it yet.
    Ended,
    /// It has not ended, and its partition is halted.
    Halted,
}

impl Doing {
    /// The kind of an activity.
    pub fn of(activity: &Activity) -> Doing {
        match activity {
            Activity::Free => Doing::Free,
            Activity::Running => Doing::Running,
            Activity::Ready => Doing::Ready,
            Activity::Blocked(wait) => Doing::of_wait(wait),
            Activity::Ended => Doing::Ended,
            Activity::Halted => Doing::Halted,
        }
    }

    /// The kind of a wait.
    fn of_wait(wait: &Wait) -> Doing {
        match wait {
            Wait::InputWait => Doing::Input,
            Wait::SleepWait(_) => Doing::Sleep,
            Wait::JoinWait(_) => Doing::Join,
            Wait::MutexWait(_, _) => Doing::Mutex,
            Wait::ConditionWait(_, _, _) => Doing::Condition,
            Wait::RelockWait(_, _) => Doing::Relock,
        }
    }

    /// Its place among the kinds, from 0.
    pub(crate) fn place(self) -> usize
        ensures { result < DOINGS }
    {
        match self {
            Doing::Free => 0,
            Doing::Running => 1,
            Doing::Ready => 2,
            Doing::Input => 3,
            Doing::Sleep => 4,
            Doing::Join => 5,
            Doing::Mutex => 6,
            Doing::Condition => 7,
            Doing::Relock => 8,
            Doing::Ended => 9,
            Doing::Halted => 10,
        }
    }

    /// Whether it is awake: running or ready.
    pub fn is_awake(self) -> bool {
        self == Doing::Running || self == Doing::Ready
    }

    /// Whether a thread that does it has something to do until it next waits for an event: it is awake, or waits for a
    /// mutex.
    pub fn is_busy(self) -> bool {
        match self {
            Doing::Running | Doing::Ready | Doing::Mutex | Doing::Relock => true,
            Doing::Free
            | Doing::Input
            | Doing::Sleep
            | Doing::Join
            | Doing::Condition
            | Doing::Ended
            | Doing::Halted => false,
        }
    }
}
