//! What a thread does, in words.

use ptk_timeline_segments::{Activity, Look};
use ptk_words::{Owner, Tick, Wait};
use std::fmt;

/// A look in words.
#[derive(Clone, Copy)]
pub(crate) struct Words(pub(crate) Look);

impl fmt::Display for Words {
    fn fmt<W: fmt::Write>(&self, f: &mut fmt::Formatter<W>) -> fmt::Result {
        match self.0.activity {
            Activity::Free => f.write_str("no thread"),
            Activity::Running => f.write_str("running"),
            Activity::Ready => f.write_str("ready"),
            Activity::Blocked(wait) => write_wait(f, wait, self.0.owner),
            Activity::Ended => f.write_str("ended"),
            Activity::Halted => f.write_str("not ended, in a halted partition"),
        }
    }
}

/// Writes a wait in words, with the owner of the mutex that it is for and its deadline.
fn write_wait<W: fmt::Write>(
    f: &mut fmt::Formatter<W>,
    wait: Wait,
    owner: Option<Owner>,
) -> fmt::Result {
    match wait {
        Wait::InputWait => f.write_str("blocked on the console"),
        Wait::SleepWait(tick) => write!(f, "asleep until tick {}", tick.ticks()),
        Wait::JoinWait(thread) => write!(f, "blocked on thread {}'s end", thread.number()),
        Wait::MutexWait(m, deadline) => {
            write!(f, "blocked on mutex {}, {}", m.number(), Holder(owner))?;
            write!(f, "{}", Deadline(deadline))
        }
        Wait::ConditionWait(c, m, deadline) => {
            let (condition, mutex) = (c.number(), m.number());
            write!(
                f,
                "blocked on condition variable {condition} with mutex {mutex}"
            )?;
            write!(f, "{}", Deadline(deadline))
        }
        Wait::RelockWait(m, _) => {
            write!(
                f,
                "blocked on mutex {} again, {}",
                m.number(),
                Holder(owner)
            )
        }
    }
}

/// The owner of a mutex in words.
#[derive(Clone, Copy)]
struct Holder(Option<Owner>);

impl fmt::Display for Holder {
    fn fmt<W: fmt::Write>(&self, f: &mut fmt::Formatter<W>) -> fmt::Result {
        match self.0 {
            Some(Owner::OwnedBy(thread)) => write!(f, "owned by thread {}", thread.number()),
            Some(Owner::Abandoned) => f.write_str("whose owner ended"),
            Some(Owner::Free) | None => f.write_str("free"),
        }
    }
}

/// The deadline of a wait in words, nothing if there is none.
#[derive(Clone, Copy)]
struct Deadline(Option<Tick>);

impl fmt::Display for Deadline {
    fn fmt<W: fmt::Write>(&self, f: &mut fmt::Formatter<W>) -> fmt::Result {
        match self.0 {
            Some(tick) => write!(f, ", until tick {}", tick.ticks()),
            None => Ok(()),
        }
    }
}
