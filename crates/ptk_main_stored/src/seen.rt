//! What is seen of the first partition of a system.

ghost use Rattle.std.specs.Prelude.{◌<◌, length};

use anyhow::{Error, Result, ensure};
use ptk_main_guests::System;
use ptk_words::{PartId, ThreadNo};
use serde::Deserialize;

/// Something that is seen of the first partition.
pub(crate) trait Sight {
    /// An error, which says what is seen, if it is not as wanted.
    fn check(&self, system: &System<'_>) -> Result<()>;
}

/// An error if one of these is not as wanted.
pub(crate) fn check_all<S: Sight>(system: &System<'_>, sights: &[S]) -> Result<()> {
    for sight in sights.iter() {
        sight.check(system)?;
    }
    Ok(())
}

/// A register of a thread.
#[derive(Drop, Deserialize)]
#[serde(deny_unknown_fields)]
pub(crate) struct Register {
    thread: u8,
    number: u32,
    is: u32,
}

impl Sight for Register {
    fn check(&self, system: &System<'_>) -> Result<()> {
        let thread = thread_of(self.thread)?;
        let seen = system.register(first(system), thread, self.number);
        let (number, who) = (self.number, self.thread);
        ensure!(
            seen == Some(self.is),
            "register {number} of thread {who} is {seen:?}"
        );
        Ok(())
    }
}

/// The effective priority of a thread.
#[derive(Drop, Deserialize)]
#[serde(deny_unknown_fields)]
pub(crate) struct Priority {
    thread: u8,
    is: u8,
}

impl Sight for Priority {
    fn check(&self, system: &System<'_>) -> Result<()> {
        let thread = thread_of(self.thread)?;
        let seen = system.effective_priority(first(system), thread);
        let who = self.thread;
        ensure!(
            seen == Some(self.is),
            "the priority of thread {who} is {seen:?}"
        );
        Ok(())
    }
}

/// The mutex that a thread waits for.
#[derive(Drop, Deserialize)]
#[serde(deny_unknown_fields)]
pub(crate) struct Awaited {
    thread: u8,
    mutex: u8,
}

impl Sight for Awaited {
    fn check(&self, system: &System<'_>) -> Result<()> {
        let thread = thread_of(self.thread)?;
        let seen = match system.activity(first(system), thread).mutex() {
            Some(mutex) => Some(mutex.number()),
            None => None,
        };
        let who = self.thread;
        ensure!(
            seen == Some(self.mutex),
            "thread {who} waits for mutex {seen:?}"
        );
        Ok(())
    }
}

/// The byte at an address.
#[derive(Drop, Deserialize)]
#[serde(deny_unknown_fields)]
pub(crate) struct Byte {
    address: u32,
    is: u8,
}

impl Sight for Byte {
    fn check(&self, system: &System<'_>) -> Result<()> {
        let seen = system.byte(first(system), self.address);
        let address = self.address;
        ensure!(seen == Some(self.is), "the byte at {address} is {seen:?}");
        Ok(())
    }
}

/// An error if the first partition has not made just so many steps, if a number is wanted.
pub(crate) fn check_steps(system: &System<'_>, want: Option<u64>) -> Result<()> {
    if let Some(want) = want {
        let seen = system.steps(first(system));
        ensure!(seen == want, "{seen} steps");
    }
    Ok(())
}

/// An error if the last call on mutexes did not read just so many stored priorities, if a number is wanted.
pub(crate) fn check_visited(system: &System<'_>, want: Option<u32>) -> Result<()> {
    if let Some(want) = want {
        let seen = system.tables().visited();
        ensure!(seen == want, "{seen} priorities are read");
    }
    Ok(())
}

// The first partition.
fn first(system: &System<'_>) -> PartId
    ensures { result < length system.now.config.sections }
{
    let _parts = system.parts();
    PartId::new(0)
}

// The thread of a number, 1 to 32. An error if it is none.
fn thread_of(number: u8) -> Result<ThreadNo> {
    if 0 < number && number <= 32 {
        Ok(ThreadNo::new(number))
    } else {
        Err(Error::msg("a number of no thread"))
    }
}
