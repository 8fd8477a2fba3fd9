//! What a probe is told.

use crate::state::ThreadState;
use ptk_system::{Activity, PartStatus};
use ptk_words::{MutexNo, ThreadNo, Wait};

/// Consecutive steps of one thread: instructions, and for a probe that does not ask for calls also calls that act on
/// no other thread.
#[derive(Clone, Copy)]
pub struct Steps {
    /// The thread that makes them.
    pub thread: ThreadNo,
    /// The tick at which the first begins.
    pub from: u64,
    /// The tick after the last that they take.
    pub until: u64,
    /// How many begin at these ticks: none if the one that is under way has begun before the first tick of the run.
    pub count: u64,
    /// The stack pointer after them, None if the thread has ended.
    pub stack: Option<u32>,
}

/// A step that is a call.
#[derive(Clone, Copy)]
pub struct CallStep {
    /// The thread that makes it.
    pub thread: ThreadNo,
    /// The tick at which it begins.
    pub from: u64,
    /// The tick after the last that it takes.
    pub until: u64,
    /// Its number, which may be that of no call.
    pub number: u32,
    /// Its reply, None if this step gives none: the thread blocks, ends or halts its partition, or does not go on
    /// after the call.
    pub reply: Option<u32>,
    /// The stack pointer after it, None if the thread has ended.
    pub stack: Option<u32>,
}

/// The end of the call with which a thread had blocked.
#[derive(Clone, Copy)]
pub struct Reply {
    /// The thread.
    pub thread: ThreadNo,
    /// The number of the call.
    pub number: u32,
    /// Its reply. None if it has none, or if its thread makes its next step with the same decision and the wait did
    /// not end at its deadline.
    pub reply: Option<u32>,
}

/// What a thread does from a tick on.
#[derive(Clone, Copy)]
pub struct Change {
    /// The thread.
    pub thread: ThreadNo,
    /// The first tick at which it does this. A thread does what its own step has made of it from the tick after the
    /// step's last on, and what another's has made of it from the first tick of that step on.
    pub tick: u64,
    /// What it did before.
    pub before: ThreadState,
    /// What it does now.
    pub now: ThreadState,
    /// The thread whose step has brought it, None if no step has.
    pub by: Option<ThreadNo>,
    /// Whether a cancellation has taken it out of its wait.
    pub is_cancelled: bool,
    /// The pc at which it starts, if its number is used anew.
    pub start: Option<u32>,
    /// Its first stack pointer, if its number is used anew.
    pub stack: Option<u32>,
}

/// What happens to a partition.
#[derive(Clone, Copy)]
pub enum Event {
    /// Its window begins at this tick.
    WindowBegins {
        tick: u64,
    },
    /// Its window ends before this tick.
    WindowEnds {
        tick: u64,
    },
    /// A thread makes steps.
    Steps(Steps),
    /// A thread makes a call.
    Call(CallStep),
    /// A call with which a thread had blocked has come to its end.
    Reply(Reply),
    /// A thread does something else from a tick on, or has another priority, or waits for another owner.
    Change(Change),
    /// A mutex has this owner from a tick on, None if no thread owns it.
    Owner {
        mutex: MutexNo,
        owner: Option<ThreadNo>,
        tick: u64,
    },
    /// This many bytes of input are lost at a tick.
    Dropped {
        bytes: u64,
        tick: u64,
    },
    /// The ticks from `from` on and before `until` are lost, at the end of a window.
    Lost {
        from: u64,
        until: u64,
    },
    /// The partition has this status from a tick on. While a step takes up a tick it is running.
    Status {
        status: PartStatus,
        tick: u64,
    },
}

impl Change {
    /// The thread whose step has ended a wait of this one. None if this one did not wait, if its wait has ended by
    /// itself (at its deadline, or with the input that it was for), by its own step or with the halt of its partition.
    pub fn waker(&self) -> Option<ThreadNo> {
        match self.by {
            Some(by) if by.number() != self.thread.number() && self.ends_wait() => Some(by),
            _ => None,
        }
    }

    /// Whether it comes by a step of the thread itself.
    pub fn is_own(&self) -> bool {
        match self.by {
            Some(by) => by.number() == self.thread.number(),
            None => false,
        }
    }

    /// Whether a wait has ended that does not end by itself at this tick. At the halt of its partition it does not end.
    fn ends_wait(&self) -> bool {
        let (before, now) = (&self.before.activity, &self.now.activity);
        match before {
            Activity::Blocked(wait) => {
                *before != *now && *now != Activity::Halted && !self.ends_by_itself(wait)
            }
            Activity::Free
            | Activity::Running
            | Activity::Ready
            | Activity::Ended
            | Activity::Halted => false,
        }
    }

    /// Whether a wait ends by itself at the tick: its deadline has come, or it is for input and no cancellation has
    /// taken the thread out of it.
    fn ends_by_itself(&self, wait: &Wait) -> bool {
        if *wait == Wait::InputWait {
            return !self.is_cancelled;
        }
        match wait.deadline() {
            Some(deadline) => deadline.ticks() <= self.tick,
            None => false,
        }
    }
}
