//! Deadlines in order, with room for all.

ghost use Rattle.std.specs.Prelude.{◌≡◌, ◌<◌, ◌≤◌, false, [], length, IfOk, vec_capacity};
ghost use Rattle.std.specs.List.{insert};
ghost use Rattle.ptk_words.specs.Pools.{is_in};
ghost use Rattle.ptk_clock.specs.Pairs.{DeadlineTable, slots_of, AreInOrder, with_pair, without_slot};

use ptk_words::{SlotNo, Tick};
use std::alloc::{AllocError, Global};
use std::marker::Model;

/// Pairs of deadline and slot in order, of each slot at most one, with room for one of each.
#[derive(Drop)]
pub struct Queue {
    pairs: Vec<(Tick, SlotNo)>,
    slots: usize,
}

impl Model for Queue {
    ghost use Rattle.std.specs.Prelude.{◌≤◌, vec_capacity};
    ghost use Rattle.ptk_clock.specs.Pairs.{DeadlineTable};
    ghost use Rattle.ptk_clock.specs.Queues.{AreDeadlines};

    ghost Value = { DeadlineTable };

    ghost view = { λ a. record { slots = a.slots; pairs = a.pairs.items } };

    ghost invariant = { λ a. AreDeadlines a.slots a.pairs.items × (a.slots ≤ vec_capacity a.pairs) };
}

impl Queue {
    /// No pair, and room for one of each of this many slots. An error where memory ran out.
    pub fn new(alloc: Global, slots: usize) -> Result<Queue, AllocError>
        ensures { IfOk result (λ queue. queue ≡ record { slots = slots; pairs = [] }) }
    {
        let pairs = Vec::with_capacity(alloc, slots)?;
        Ok(Queue { pairs, slots })
    }

    /// The pairs, in order.
    pub fn pairs(&self) -> &[(Tick, SlotNo)]
        ensures value { result.now ≡ self.now.pairs }
        ensures in_order { AreInOrder self.now.pairs }
    {
        self.pairs.as_slice()
    }

    /// A slot without a pair gets one, at its place in the order.
    pub fn insert(&mut self, place: usize, deadline: Tick, slot: SlotNo)
        requires made_for { slot < self.old.slots }
        requires fresh { is_in slot (slots_of self.old.pairs) ≡ false }
        requires within { place ≤ length self.old.pairs }
        requires place { insert self.old.pairs place (deadline, slot) ≡ with_pair (deadline, slot) self.old.pairs }
        ensures pairs { self.new.pairs ≡ with_pair (deadline, slot) self.old.pairs }
        ensures slots { self.new.slots ≡ self.old.slots }
    {
        // it has room, so this takes no memory
        if place == self.pairs.len() {
            self.pairs.push_reserved((deadline, slot));
        } else {
            let _ = self.pairs.insert(place, (deadline, slot));
        }
    }

    /// The pair of a slot leaves, if there is one.
    pub fn remove(&mut self, slot: SlotNo)
        ensures pairs { self.new.pairs ≡ without_slot slot self.old.pairs }
        ensures slots { self.new.slots ≡ self.old.slots }
    {
        take_out(&mut self.pairs, slot);
    }
}

/// The pairs without that of a slot, in their order.
fn take_out(pairs: &mut Vec<(Tick, SlotNo)>, slot: SlotNo)
    ensures items { pairs.new.items ≡ without_slot slot pairs.old.items }
    ensures capacity { vec_capacity pairs.new ≡ vec_capacity pairs.old }
{
    pairs.retain(|pair| pair.1.index() != slot.index());
}
