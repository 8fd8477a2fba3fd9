//! What a thread waits for, as a word and numbers.

use ptk_system::Activity;
use ptk_words::{Tick, Wait};

/// What a thread does, and what its wait is for, if it waits.
#[derive(Clone, Copy)]
pub(crate) struct Target {
    /// The word for what it does.
    pub(crate) activity: &'static str,
    /// The mutex that it is to have, also after a condition wait.
    pub(crate) mutex: Option<u8>,
    /// The condition variable that it waits on.
    pub(crate) condition: Option<u8>,
    /// The thread for whose end it waits.
    pub(crate) joins: Option<u8>,
    /// The tick at which its wait ends by itself.
    pub(crate) deadline: Option<u64>,
}

impl Target {
    /// Of a thread that does this.
    pub(crate) fn of(activity: &Activity) -> Target {
        match activity {
            Activity::Free => Target::none("free"),
            Activity::Running => Target::none("running"),
            Activity::Ready => Target::none("ready"),
            Activity::Blocked(wait) => Target::of_wait(wait),
            Activity::Ended => Target::none("ended"),
            Activity::Halted => Target::none("halted"),
        }
    }

    /// Of a thread that waits for nothing.
    fn none(activity: &'static str) -> Target {
        Target {
            activity,
            mutex: None,
            condition: None,
            joins: None,
            deadline: None,
        }
    }

    /// Of a wait: the mutex is the one that it is for, or that it is to have again (pthread_mutex_lock,
    /// pthread_cond_wait).
    fn of_wait(wait: &Wait) -> Target {
        match wait {
            Wait::InputWait => Target::none("input"),
            Wait::SleepWait(deadline) => Target {
                deadline: Some(deadline.ticks()),
                ..Target::none("sleep")
            },
            Wait::JoinWait(u) => Target {
                joins: Some(u.number()),
                ..Target::none("join")
            },
            Wait::MutexWait(m, deadline) => Target {
                mutex: Some(m.number()),
                deadline: ticks_of(*deadline),
                ..Target::none("mutex")
            },
            Wait::ConditionWait(c, m, deadline) => Target {
                mutex: Some(m.number()),
                condition: Some(c.number()),
                deadline: ticks_of(*deadline),
                ..Target::none("condition")
            },
            Wait::RelockWait(m, _) => Target {
                mutex: Some(m.number()),
                ..Target::none("relock")
            },
        }
    }
}

/// The tick of a deadline, None if there is none.
fn ticks_of(deadline: Option<Tick>) -> Option<u64> {
    Some(deadline?.ticks())
}
