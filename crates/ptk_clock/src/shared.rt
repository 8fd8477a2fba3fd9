//! The form with one vector for all partitions, whose places are found by binary search.

ghost use Rattle.std.specs.Prelude.{◌≡◌, ◌≤◌, true, false, [], length, IfOk, nat_le};
ghost use Rattle.std.specs.List.{AllWithin, insert};
ghost use Rattle.ptk_clock.specs.Pairs.{DeadlineTable, AreInOrder, is_before, with_pair, least_due};

use crate::deadlines::Deadlines;
use crate::pairs::{is_before, least_among};
use crate::queue::Queue;
use ptk_words::{SlotNo, Tick};
use std::alloc::{AllocError, Global};
use std::marker::Model;

/// One vector of pairs, in order, for the slots of all partitions.
#[derive(Drop)]
pub struct SharedDeadlines {
    queue: Queue,
}

impl Model for SharedDeadlines {
    ghost use Rattle.ptk_clock.specs.Pairs.{DeadlineTable};

    ghost Value = { DeadlineTable };

    ghost view = { λ a. a.queue };
}

impl SharedDeadlines {
    /// No pair, and room for one of each of this many slots. An error where memory ran out.
    pub fn new(alloc: Global, slots: usize) -> Result<SharedDeadlines, AllocError>
        ensures { IfOk result (λ deadlines. deadlines ≡ record { slots = slots; pairs = [] }) }
    {
        let queue = Queue::new(alloc, slots)?;
        Ok(SharedDeadlines { queue })
    }

    /// The pairs of all partitions, in order.
    pub fn pairs(&self) -> &[(Tick, SlotNo)]
        ensures value { result.now ≡ self.now.pairs }
        ensures in_order { AreInOrder self.now.pairs }
    {
        self.queue.pairs()
    }
}

impl Deadlines for SharedDeadlines {
    ghost pairs = { λ deadlines. deadlines.pairs };

    ghost slots = { λ deadlines. deadlines.slots };

    #[inline(always)]
    fn add(&mut self, deadline: Tick, slot: SlotNo) {
        let place = place_of(self.queue.pairs(), (deadline, slot));
        self.queue.insert(place, deadline, slot);
    }

    fn remove(&mut self, slot: SlotNo) {
        self.queue.remove(slot);
    }

    fn due(&self, first: SlotNo, last: SlotNo, now: Tick) -> Option<(Tick, SlotNo)> {
        due_in(self.queue.pairs(), first, last, now)
    }

    fn take_due(&mut self, first: SlotNo, last: SlotNo, now: Tick) -> Option<(Tick, SlotNo)> {
        let taken = self.due(first, last, now)?;
        self.queue.remove(taken.1);
        Some(taken)
    }

    fn least(&self, first: SlotNo, last: SlotNo) -> Option<Tick> {
        let pair = least_among(self.queue.pairs(), first, last)?;
        Some(pair.0)
    }
}

/// The place of a pair among pairs in order.
fn place_of(pairs: &[(Tick, SlotNo)], new: (Tick, SlotNo)) -> usize
    requires { AreInOrder pairs.now }
    ensures within { result ≤ length pairs.now }
    ensures place { insert pairs.now result new ≡ with_pair new pairs.now }
{
    pairs.partition_point(|pair| !is_before(new, *pair))
}

/// The least due pair among the slots from the first to the last, of pairs in order.
fn due_in(
    pairs: &[(Tick, SlotNo)],
    first: SlotNo,
    last: SlotNo,
    now: Tick,
) -> Option<(Tick, SlotNo)>
    requires { AreInOrder pairs.now }
    ensures { result ≡ least_due first last now pairs.now }
{
    let due = due_count(pairs, now);
    least_among(&pairs[..due], first, last)
}

/// How many pairs are due, of pairs in order.
fn due_count(pairs: &[(Tick, SlotNo)], now: Tick) -> usize
    requires { AreInOrder pairs.now }
    ensures within { result ≤ length pairs.now }
    ensures due { AllWithin (λ pair. nat_le pair.0 now ≡ true) pairs.now 0 result }
    ensures later { AllWithin (λ pair. nat_le pair.0 now ≡ false) pairs.now result (length pairs.now) }
{
    pairs.partition_point(|pair| pair.0.ticks() <= now.ticks())
}
