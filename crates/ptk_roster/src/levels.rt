//! The stored priorities of a partition, stored all at once.

ghost use Rattle.std.specs.Prelude.{◌≡◌, ◌↔◌, ℕ, ◌<◌, ◌≤◌, true, length, option_map, slice_set, IsSome};
ghost use Rattle.ptk_words.specs.Parts.{part_of};
ghost use Rattle.ptk_threads.specs.Table.{thread_in, stored_of, with_stored, AreLevelsOf};
ghost use Rattle.ptk_threads.specs.Links.{links_of, place_of};
ghost use Rattle.ptk_ready.specs.Entries.{is_ready, is_ready_place};

use crate::roster::Roster;
use ptk_ready::{Line, is_ready_queue};
use ptk_threads::Slot;
use ptk_words::{PartId, Priority, ThreadNo};

impl Roster {
    /// Stores the effective priorities of a partition, at once where no ready thread gets another one; threads of the
    /// line keep their places.
    pub fn store(&mut self, p: PartId, priorities: &[u8])
        requires partition { p < length self.old.table.threads }
        requires few { length priorities.now ≤ 32 }
        requires same { length priorities.now ≡ length (part_of self.old.table.threads p) }
        requires levels { AreLevelsOf (part_of self.old.table.threads p) priorities.now }
        ensures table { self.new.table ≡ record self.old.table { stored = slice_set self.old.table.stored p priorities.now } }
        ensures lines { self.new.lines ≡ self.old.lines }
        ensures mutexes { self.new.mutexes ≡ self.old.mutexes }
        ensures conditions { self.new.conditions ≡ self.old.conditions }
    {
        let part = self.threads.linked(p);
        if keeps_ready(part.slots, self.threads.stored(p), priorities) {
            self.threads.store(p, priorities);
        } else {
            self.store_each(p, priorities);
        }
    }

    /// Stores the effective priorities of a partition one after the other.
    #[inline(never)]
    fn store_each(&mut self, p: PartId, priorities: &[u8])
        requires partition { p < length self.old.table.threads }
        requires few { length priorities.now ≤ 32 }
        requires same { length priorities.now ≡ length (part_of self.old.table.threads p) }
        requires levels { AreLevelsOf (part_of self.old.table.threads p) priorities.now }
        ensures table { self.new.table ≡ record self.old.table { stored = slice_set self.old.table.stored p priorities.now } }
        ensures lines { self.new.lines ≡ self.old.lines }
        ensures mutexes { self.new.mutexes ≡ self.old.mutexes }
        ensures conditions { self.new.conditions ≡ self.old.conditions }
    {
        let _stored = self.threads.stored(p);
        for i in 0..priorities.len() {
            self.store_one(p, ThreadNo::new(i as u8 + 1), priorities[i]);
        }
    }

    /// Stores a number's effective priority, 0 of one that is not in use.
    fn store_one(&mut self, p: PartId, k: ThreadNo, level: u8)
        requires partition { p < length self.old.table.threads }
        requires in_range { level ≤ 32 }
        requires positive { IsSome (thread_in self.old.table p k) → 0 < level }
        ensures table { self.new.table ≡ with_stored p k level self.old.table }
        ensures lines { self.new.lines ≡ self.old.lines }
        ensures mutexes { self.new.mutexes ≡ self.old.mutexes }
        ensures conditions { self.new.conditions ≡ self.old.conditions }
    {
        if level == 0 {
            self.threads.set_stored_priority(p, k, 0);
        } else if level != self.threads.stored_priority(p, k) {
            self.line
                .set_priority(&mut self.threads, p, k, Priority::new(level));
        }
    }
}

/// Whether each thread that is ready has its stored priority among these.
fn keeps_ready(slots: &[Slot], stored: &[u8], priorities: &[u8]) -> bool
    requires slots { length priorities.now ≡ length slots.now }
    requires stored { length priorities.now ≡ length stored.now }
    ensures { (result ≡ true) ↔ ((k : ℕ) → is_ready (links_of slots.now) k ≡ true → stored_of priorities.now k ≡ stored_of stored.now k) }
{
    for i in 0..priorities.len() {
        if !is_kept(&slots[i], stored[i], priorities[i]) {
            return false;
        }
    }
    true
}

/// Whether a thread is not ready, or has the same priority as before.
fn is_kept(slot: &Slot, stored: u8, priority: u8) -> bool
    ensures { (result ≡ true) ↔ (is_ready_place (option_map place_of slot.now.link.queue) ≡ true → priority ≡ stored) }
{
    priority == stored || !is_ready_queue(&slot.queue())
}
