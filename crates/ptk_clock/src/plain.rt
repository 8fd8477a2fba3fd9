//! The plain form, whose pairs are looked through.

ghost use Rattle.std.specs.Prelude.{◌≡◌, ◌≤◌, [], length, position, IfOk};
ghost use Rattle.std.specs.List.{insert};
ghost use Rattle.ptk_clock.specs.Pairs.{DeadlineTable, is_before, with_pair, least_due};

use crate::deadlines::Deadlines;
use crate::pairs::{is_among, is_before, least_among};
use crate::queue::Queue;
use ptk_words::{SlotNo, Tick};
use std::alloc::{AllocError, Global};
use std::marker::Model;

/// Pairs in order, looked through from the first one.
#[derive(Drop)]
pub struct PlainDeadlines {
    queue: Queue,
}

impl Model for PlainDeadlines {
    ghost use Rattle.ptk_clock.specs.Pairs.{DeadlineTable};

    ghost Value = { DeadlineTable };

    ghost view = { λ a. a.queue };
}

impl PlainDeadlines {
    /// No pair, and room for one of each of this many slots. An error where memory ran out.
    pub fn new(alloc: Global, slots: usize) -> Result<PlainDeadlines, AllocError>
        ensures { IfOk result (λ deadlines. deadlines ≡ record { slots = slots; pairs = [] }) }
    {
        let queue = Queue::new(alloc, slots)?;
        Ok(PlainDeadlines { queue })
    }
}

impl Deadlines for PlainDeadlines {
    ghost pairs = { λ deadlines. deadlines.pairs };

    ghost slots = { λ deadlines. deadlines.slots };

    fn add(&mut self, deadline: Tick, slot: SlotNo) {
        let place = first_after(self.queue.pairs(), (deadline, slot));
        self.queue.insert(place, deadline, slot);
    }

    fn remove(&mut self, slot: SlotNo) {
        self.queue.remove(slot);
    }

    fn due(&self, first: SlotNo, last: SlotNo, now: Tick) -> Option<(Tick, SlotNo)> {
        first_due(self.queue.pairs(), first, last, now)
    }

    fn take_due(&mut self, first: SlotNo, last: SlotNo, now: Tick) -> Option<(Tick, SlotNo)> {
        let taken = self.due(first, last, now)?;
        self.queue.remove(taken.1);
        Some(taken)
    }

    fn least(&self, first: SlotNo, last: SlotNo) -> Option<Tick> {
        let pair = least_among(self.queue.pairs(), first, last)?;
        Some(pair.0)
    }
}

/// The place of the first pair that another is before, the end where there is none.
fn first_after(pairs: &[(Tick, SlotNo)], new: (Tick, SlotNo)) -> usize
    ensures within { result ≤ length pairs.now }
    ensures place { insert pairs.now result new ≡ with_pair new pairs.now }
{
    first_behind(pairs, new).unwrap_or(pairs.len())
}

/// The index of the first pair that another is before.
fn first_behind(pairs: &[(Tick, SlotNo)], new: (Tick, SlotNo)) -> Option<usize>
    ensures { result ≡ position (is_before new) pairs.now }
{
    pairs.iter().position(|pair| is_before(new, *pair))
}

/// The first due pair of a slot from the first to the last.
fn first_due(
    pairs: &[(Tick, SlotNo)],
    first: SlotNo,
    last: SlotNo,
    now: Tick,
) -> Option<(Tick, SlotNo)>
    ensures { result ≡ least_due first last now pairs.now }
{
    pairs.iter().copied().find(|pair| is_among(*pair, first, last) && pair.0.ticks() <= now.ticks())
}
