//! Threads as plain data.

ghost use Rattle.std.specs.Prelude.{◌≡◌, Some};
ghost use Rattle.ptk_words.specs.Threads.{condition_of_wait, deadline_of_wait, is_ended, is_normal, is_taken, kept_reply, mutex_of_condition_wait, mutex_of_wait};

use crate::numbers::{ConditionNo, MutexNo, Priority, ThreadNo, Tick};
use crate::processor::Cpu;

/// SCHED_FIFO and SCHED_RR (XSH 2.8.4).
#[derive(Clone, Copy, PartialEq, Eq)]
pub enum Policy {
    Fifo,
    RoundRobin,
}

/// How far a thread is: from its start, from the start of its unwinding, from its end on (pthread_exit).
#[derive(Clone, Copy, PartialEq, Eq)]
pub enum Phase {
    Normal,
    Unwinding,
    Ended,
}

impl Phase {
    /// Whether the thread does not unwind and has not ended.
    pub fn is_normal(self) -> bool
        ensures { result ≡ is_normal self }
    {
        match self {
            Phase::Normal => true,
            Phase::Unwinding | Phase::Ended => false,
        }
    }

    /// Whether the thread has ended (pthread_exit).
    pub fn is_ended(self) -> bool
        ensures { result ≡ is_ended self }
    {
        match self {
            Phase::Normal | Phase::Unwinding => false,
            Phase::Ended => true,
        }
    }
}

/// What a blocked thread waits for, a timed one with its deadline (pthread_join, pthread_mutex_timedlock,
/// pthread_cond_timedwait, clock_nanosleep).
#[derive(Clone, Copy, PartialEq, Eq)]
pub enum Wait {
    /// A byte of the console.
    InputWait,
    /// This tick.
    SleepWait(Tick),
    /// The end of this thread.
    JoinWait(ThreadNo),
    /// This mutex, until its deadline if it has one.
    MutexWait(MutexNo, Option<Tick>),
    /// This condition variable, and the mutex to have again, until its deadline if it has one.
    ConditionWait(ConditionNo, MutexNo, Option<Tick>),
    /// The mutex to have again after a condition wait, and the reply that is then given, none to a cancelled thread.
    RelockWait(MutexNo, Option<u32>),
}

impl Wait {
    /// The deadline of a timed wait; None of any other.
    pub fn deadline(self) -> Option<Tick>
        ensures { result ≡ deadline_of_wait (Some self) }
    {
        match self {
            Wait::SleepWait(deadline) => Some(deadline),
            Wait::MutexWait(_, deadline) | Wait::ConditionWait(_, _, deadline) => deadline,
            Wait::InputWait | Wait::JoinWait(_) | Wait::RelockWait(_, _) => None,
        }
    }

    /// The mutex that it is for, as a lock or after a condition wait; None of any other, that on a condition variable
    /// among them (pthread_mutex_lock, pthread_cond_wait).
    pub fn mutex(self) -> Option<MutexNo>
        ensures { result ≡ mutex_of_wait (Some self) }
    {
        match self {
            Wait::MutexWait(m, _) | Wait::RelockWait(m, _) => Some(m),
            Wait::InputWait
            | Wait::SleepWait(_)
            | Wait::JoinWait(_)
            | Wait::ConditionWait(_, _, _) => None,
        }
    }

    /// The condition variable that it is on; None of any other (pthread_cond_wait).
    pub fn condition(self) -> Option<ConditionNo>
        ensures { result ≡ condition_of_wait (Some self) }
    {
        match self {
            Wait::ConditionWait(c, _, _) => Some(c),
            Wait::InputWait
            | Wait::SleepWait(_)
            | Wait::JoinWait(_)
            | Wait::MutexWait(_, _)
            | Wait::RelockWait(_, _) => None,
        }
    }

    /// The mutex to have again that a condition wait names; None of any other wait (pthread_cond_wait).
    pub fn condition_mutex(self) -> Option<MutexNo>
        ensures { result ≡ mutex_of_condition_wait (Some self) }
    {
        match self {
            Wait::ConditionWait(_, m, _) => Some(m),
            Wait::InputWait
            | Wait::SleepWait(_)
            | Wait::JoinWait(_)
            | Wait::MutexWait(_, _)
            | Wait::RelockWait(_, _) => None,
        }
    }

    /// The reply that a mutex's waiter is to have once it has the mutex: of a lock 0, of a re-lock what its wait keeps;
    /// None of any other wait (pthread_mutex_lock, pthread_cond_wait).
    #[inline(always)]
    pub fn kept_reply(self) -> Option<u32>
        ensures { result ≡ kept_reply (Some self) }
    {
        match self {
            Wait::MutexWait(_, _) => Some(0),
            Wait::RelockWait(_, reply) => reply,
            Wait::InputWait
            | Wait::SleepWait(_)
            | Wait::JoinWait(_)
            | Wait::ConditionWait(_, _, _) => None,
        }
    }
}

/// A thread: its registers and what scheduling keeps of it (XSH 2.8.4, 2.9.2).
#[derive(Clone, Copy)]
pub struct Thread {
    /// Its registers and pc.
    pub cpu: Cpu,
    /// Its policy.
    pub policy: Policy,
    /// Its assigned priority.
    pub priority: Priority,
    /// The ticks that it used of a round-robin interval.
    pub used: u32,
    /// Whether the image started it.
    pub is_main: bool,
    /// Whether its number is free at its end.
    pub is_detached: bool,
    /// The thread that waits for its end.
    pub joiner: Option<ThreadNo>,
    /// The result that a joiner gets.
    pub result: u32,
    /// How far it is.
    pub phase: Phase,
    /// What it waits for.
    pub wait: Option<Wait>,
}

impl Thread {
    /// Whether it can be neither joined nor detached any more: it is detached or has a joiner (pthread_join,
    /// pthread_detach).
    pub fn is_taken(&self) -> bool
        ensures { result ≡ is_taken self.now }
    {
        self.is_detached || self.joiner.is_some()
    }
}

/// A cleanup handler (pthread_cleanup_push).
#[derive(Clone, Copy, PartialEq, Eq)]
pub struct Cleanup {
    /// The address of the routine.
    pub routine: u32,
    /// Its argument.
    pub argument: u32,
}
