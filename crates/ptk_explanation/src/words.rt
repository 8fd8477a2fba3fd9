//! The words of an explanation.

use crate::thread::Doing;
use ptk_system::{Activity, PartStatus, cause_word, image_fault_words};
use ptk_words::{Cause, FaultKind, LAST_TICK, MutexKind, Owner, Policy, Protocol, Tick, Wait};
use std::fmt;

/// How many registers a thread has (RISC-V 2.1).
pub(crate) const REGISTERS: u32 = 32;

/// Who owns a mutex, None of a number that is no mutex.
#[derive(Clone, Copy)]
struct OwnedBy(Option<Owner>);

impl fmt::Display for OwnedBy {
    fn fmt<W: fmt::Write>(&self, f: &mut fmt::Formatter<W>) -> fmt::Result {
        match self.0 {
            Some(Owner::OwnedBy(t)) => {
                let number = t.number();
                write!(f, ", which thread {number} owns")
            }
            Some(Owner::Abandoned) => {
                f.write_str(", which nobody owns, since its owner ended with it locked")
            }
            Some(Owner::Free) | None => f.write_str(", which nobody owns"),
        }
    }
}

/// The deadline of a wait, None if it has none. No run reaches one above 2^40.
#[derive(Clone, Copy)]
struct Until(Option<Tick>);

impl fmt::Display for Until {
    fn fmt<W: fmt::Write>(&self, f: &mut fmt::Formatter<W>) -> fmt::Result {
        match self.0 {
            Some(deadline) => {
                let tick = deadline.ticks();
                if tick > LAST_TICK {
                    f.write_str(", until a deadline that never comes")
                } else {
                    write!(f, ", until tick {tick}")
                }
            }
            None => f.write_str(""),
        }
    }
}

impl fmt::Display for Doing {
    fn fmt<W: fmt::Write>(&self, f: &mut fmt::Formatter<W>) -> fmt::Result {
        match self.activity {
            Activity::Free => f.write_str("free"),
            Activity::Running => f.write_str("running"),
            Activity::Ready => f.write_str("ready"),
            Activity::Blocked(wait) => Waiting(wait, self.owner()).fmt(f),
            Activity::Ended => f.write_str("ended, not joined"),
            Activity::Halted => f.write_str("halted"),
        }
    }
}

/// What a thread waits for, and who owns the mutex that it waits for.
#[derive(Clone, Copy)]
struct Waiting(Wait, Option<Owner>);

impl fmt::Display for Waiting {
    fn fmt<W: fmt::Write>(&self, f: &mut fmt::Formatter<W>) -> fmt::Result {
        match self.0 {
            Wait::InputWait => f.write_str("waits for input"),
            Wait::SleepWait(deadline) => {
                let until = Until(Some(deadline));
                write!(f, "sleeps{until}")
            }
            Wait::JoinWait(u) => {
                let number = u.number();
                write!(f, "waits for the end of thread {number}")
            }
            Wait::MutexWait(m, deadline) => {
                let (mutex, owner, until) = (m.number(), OwnedBy(self.1), Until(deadline));
                write!(f, "waits for mutex {mutex}{owner}{until}")
            }
            Wait::ConditionWait(c, m, deadline) => {
                let (condition, mutex, until) = (c.number(), m.number(), Until(deadline));
                write!(
                    f,
                    "waits on condition variable {condition}, to have mutex {mutex} again{until}"
                )
            }
            Wait::RelockWait(m, _) => {
                let (mutex, owner) = (m.number(), OwnedBy(self.1));
                write!(f, "waits to have mutex {mutex} again{owner}")
            }
        }
    }
}

/// The name of a policy (XSH 2.8.4).
pub(crate) fn policy_name(policy: Policy) -> &'static str {
    match policy {
        Policy::Fifo => "SCHED_FIFO",
        Policy::RoundRobin => "SCHED_RR",
    }
}

/// The name of a mutex's type (pthread_mutexattr_settype).
pub(crate) fn type_name(kind: MutexKind) -> &'static str {
    match kind {
        MutexKind::Normal => "PTHREAD_MUTEX_NORMAL",
        MutexKind::ErrorCheck => "PTHREAD_MUTEX_ERRORCHECK",
        MutexKind::Recursive => "PTHREAD_MUTEX_RECURSIVE",
    }
}

/// The name of a mutex's protocol (pthread_mutexattr_setprotocol).
pub(crate) fn protocol_name(protocol: Protocol) -> &'static str {
    match protocol {
        Protocol::NoProtocol => "PTHREAD_PRIO_NONE",
        Protocol::Inherit => "PTHREAD_PRIO_INHERIT",
        Protocol::Protect(_) => "PTHREAD_PRIO_PROTECT",
    }
}

/// The priority ceiling of a protocol that has one (pthread_mutexattr_setprioceiling).
pub(crate) fn ceiling_of(protocol: Protocol) -> Option<u8> {
    match protocol {
        Protocol::NoProtocol | Protocol::Inherit => None,
        Protocol::Protect(ceiling) => Some(ceiling.level()),
    }
}

/// Why an address was refused.
pub(crate) fn refusal_words(cause: Cause) -> &'static str {
    match cause {
        Cause::Fault(FaultKind::Misaligned) => "misaligned",
        Cause::Break | Cause::Fault(_) => "at or past the end of memory",
    }
}

/// What stopped a partition.
#[derive(Clone, Copy)]
struct StoppedBy(Cause);

impl fmt::Display for StoppedBy {
    fn fmt<W: fmt::Write>(&self, f: &mut fmt::Formatter<W>) -> fmt::Result {
        match self.0 {
            Cause::Break => f.write_str("stopped by an ebreak"),
            Cause::Fault(_) => {
                let kind = cause_word(self.0);
                write!(f, "stopped by the fault {kind}")
            }
        }
    }
}

/// The status of a partition, None if it has no image.
#[derive(Clone, Copy)]
pub(crate) struct Headline(pub(crate) Option<PartStatus>);

impl fmt::Display for Headline {
    fn fmt<W: fmt::Write>(&self, f: &mut fmt::Formatter<W>) -> fmt::Result {
        match self.0 {
            None => f.write_str("no image"),
            Some(PartStatus::Idle) => f.write_str("idle, no thread is running or ready"),
            Some(PartStatus::Running) => f.write_str("running"),
            Some(PartStatus::Exited(code)) => write!(f, "exited with {code}"),
            Some(PartStatus::Stopped(cause, _)) => StoppedBy(cause).fmt(f),
            Some(PartStatus::Refused(fault)) => {
                let (number, why) = (fault.number(), image_fault_words(fault));
                write!(f, "image refused, fault {number}: {why}")
            }
        }
    }
}
