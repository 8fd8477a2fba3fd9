//! What a thread is shown as.

use ptk_tracepoints::{Activity, ThreadState};
use ptk_words::Wait;

/// What a thread does.
#[derive(Clone, Copy, PartialEq, Eq)]
pub(crate) enum Doing {
    /// No thread has the number.
    Free,
    /// A step of it takes up the tick.
    Running,
    /// It is the partition's running thread, and the tick is not a step's: the window is another's or nobody's, or what
    /// is left of it is lost.
    Suspended,
    /// It is ready.
    Ready,
    /// It waits for this.
    Blocked(Wait),
    /// It has ended, and nobody has joined or detached it yet.
    Ended,
    /// It has not ended, and its partition is halted.
    Halted,
}

/// The number and the word of what a thread does.
#[derive(Clone, Copy)]
pub(crate) struct Label {
    pub(crate) number: u8,
    pub(crate) word: &'static str,
}

impl Doing {
    /// What a thread does, of an activity, whose step takes up the tick or not.
    fn of(activity: Activity, is_step: bool) -> Doing {
        match activity {
            _ if is_step => Doing::Running,
            Activity::Free => Doing::Free,
            Activity::Running => Doing::Suspended,
            Activity::Ready => Doing::Ready,
            Activity::Blocked(wait) => Doing::Blocked(wait),
            Activity::Ended => Doing::Ended,
            Activity::Halted => Doing::Halted,
        }
    }

    /// Its number and word.
    pub(crate) fn label(&self) -> Label {
        let (number, word) = match self {
            Doing::Free => (0, "free"),
            Doing::Running => (1, "running"),
            Doing::Suspended => (2, "suspended"),
            Doing::Ready => (3, "ready"),
            Doing::Blocked(Wait::InputWait) => (4, "console"),
            Doing::Blocked(Wait::SleepWait(_)) => (5, "sleep"),
            Doing::Blocked(Wait::JoinWait(_)) => (6, "join"),
            Doing::Blocked(Wait::MutexWait(_, _)) => (7, "mutex"),
            Doing::Blocked(Wait::ConditionWait(_, _, _)) => (8, "condition"),
            Doing::Blocked(Wait::RelockWait(_, _)) => (9, "relock"),
            Doing::Ended => (10, "ended"),
            Doing::Halted => (11, "halted"),
        };
        Label { number, word }
    }
}

/// What a thread is shown as: what it does, and its effective priority, None of a free number.
#[derive(Clone, Copy, PartialEq, Eq)]
pub(crate) struct Shown {
    /// What it does.
    pub(crate) doing: Doing,
    /// Its effective priority, None of a free number.
    pub(crate) priority: Option<u8>,
}

impl Shown {
    /// What a thread is shown as that is in a state, and whose step takes up the tick or not.
    pub(crate) fn of(state: &ThreadState, is_step: bool) -> Shown {
        Shown {
            doing: Doing::of(state.activity, is_step),
            priority: state.effective,
        }
    }

    /// Whether no thread has the number.
    pub(crate) fn is_free(&self) -> bool {
        matches!(self.doing, Doing::Free)
    }
}
