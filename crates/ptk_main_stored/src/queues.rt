//! The queues of the first partition, along the links of the slot table.

use crate::seen::Sight;
use anyhow::{Error, Result, ensure};
use ptk_main_guests::System;
use ptk_threads::{QueueName, Slot};
use ptk_words::{ConditionNo, MutexNo, Priority, SlotNo};
use serde::Deserialize;

/// What the threads of a queue are ready at or wait for.
#[derive(Drop, Deserialize)]
#[serde(rename_all = "lowercase")]
enum Of {
    /// A stored priority, 1 to 32.
    Ready,
    /// A mutex, 1 to 64.
    Mutex,
    /// A condition variable, 1 to 32.
    Condition,
}

/// A queue: the links of the slot table lead along these threads, in this order, and no others are in it.
#[derive(Drop, Deserialize)]
#[serde(deny_unknown_fields)]
pub(crate) struct Queue {
    of: Of,
    number: u8,
    threads: Vec<u8>,
}

impl Sight for Queue {
    fn check(&self, system: &System<'_>) -> Result<()> {
        let Some(name) = name_of(&self.of, self.number) else {
            return Err(Error::msg("no such queue"));
        };
        let slots = system.tables().threads().slots();
        let count = count_in(slots, &name);
        ensure!(
            count == self.threads.len(),
            "{count} threads are in the queue"
        );
        let is_right = is_along(slots, &name, &self.threads) == Some(true);
        ensure!(is_right, "the queue has other threads");
        Ok(())
    }
}

// The name of a queue in the slot table, None if there is no such priority, mutex or condition variable.
fn name_of(of: &Of, number: u8) -> Option<QueueName> {
    match of {
        Of::Ready if 0 < number && number <= 32 => Some(QueueName::Ready(Priority::new(number))),
        Of::Mutex if 0 < number && number <= 64 => {
            Some(QueueName::MutexWaiters(MutexNo::new(number)))
        }
        Of::Condition if 0 < number && number <= 32 => {
            Some(QueueName::ConditionWaiters(ConditionNo::new(number)))
        }
        Of::Ready | Of::Mutex | Of::Condition => None,
    }
}

// Whether a slot's thread is in a queue of this name.
fn lies_in(slot: &Slot, name: &QueueName) -> bool {
    match slot.queue() {
        Some(queue) => queue == *name,
        None => false,
    }
}

// How many slots are in a queue of the first partition, whose first slot is the table's first.
fn count_in(slots: &[Slot], name: &QueueName) -> usize {
    let mut count: usize = 0;
    for slot in slots.iter() {
        if lies_in(slot, name) {
            count = count.saturating_add(usize::from(slot.link.first == 0));
        }
    }
    count
}

// Whether the links of these slots lead along these threads of the first partition, from the first to the last. None
// if a number is that of no thread.
fn is_along(slots: &[Slot], name: &QueueName, threads: &[u8]) -> Option<bool> {
    let mut before = None;
    let mut promised = None;
    for number in threads.iter() {
        let here = SlotNo::new(u16::from(number.checked_sub(1)?));
        let slot = slots.get(here.index())?;
        let is_next = before.is_none() || promised == Some(here);
        if !is_next || slot.previous() != before || !lies_in(slot, name) {
            return Some(false);
        }
        before = Some(here);
        promised = slot.next();
    }
    Some(promised.is_none())
}
