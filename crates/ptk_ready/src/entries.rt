//! The line of one partition.

ghost use Rattle.std.specs.Prelude.{◌≡◌, ℕ, ◌<◌, ◌≤◌, ◌^◌, true, false, pos, ◌<ℤ◌, not, is_some, option_map, ◌||◌, List, [], ◌∷◌, ◌++◌, length, drop};
ghost use Rattle.ptk_words.specs.Pools.{pool_set, without, first_of_greatest, is_in};
ghost use Rattle.ptk_words.specs.Parts.{part_of};
ghost use Rattle.ptk_threads.specs.Table.{stored_of};
ghost use Rattle.ptk_threads.specs.Queues.{IsUnqueued, with_last, with_first, with_none};
ghost use Rattle.ptk_threads.specs.Links.{links_of, place_of, queues, AreQueues};
ghost use Rattle.ptk_ready.specs.Bits.{has_bit, IsBitChanged, IsGreatestBit};
ghost use Rattle.ptk_ready.specs.Entries.{entries, is_ready_place, is_ready, stamp_of, IsInRange, AreStamps};
ghost use Rattle.ptk_ready.specs.Lines.{line_of, with_refiled, IsFiled};

use crate::bits::{greatest_bit, with_bit, without_bit};
use crate::places::first_after;
use crate::stamps::{NUMBERS, StampRange, is_ready_queue, renumbered, stamp_in};
use ptk_threads::{Ends, Link, QueueName, Slot, link_of, stored_in};
use ptk_words::{Priority, ThreadNo};

/// What a partition's line keeps beside the links: each number's stamp, the queues of ready threads that are not empty,
/// and a range, of magnitude `LIMIT` at most, that has the stamps of all ready threads. The queues themselves are the
/// slot table's: a call here says which call of the slot table its caller makes next, and its contract speaks of the
/// line as it is then.
#[derive(Clone, Copy)]
pub struct LinkedEntries<const LIMIT: u64> {
    stamps: [i64; 32],
    bitmap: u32,
    range: StampRange,
}

impl<const LIMIT: u64> LinkedEntries<LIMIT> {
    /// The line of queues without ready threads.
    pub fn new() -> LinkedEntries<LIMIT>
        ensures { (lists : List (List ℕ)) (stored : List ℕ) → ((i : ℕ) → i < 32 → part_of lists i ≡ [])
            → IsFiled LIMIT result.range lists stored result.stamps result.bitmap }
    {
        LinkedEntries {
            stamps: [0; NUMBERS],
            bitmap: 0,
            range: StampRange { first: 0, last: 0 },
        }
    }

    /// Makes a thread that lies in no queue of ready threads the last of the line. The caller appends it to the queue
    /// that this names, once it lies in none.
    #[inline(always)]
    pub fn push_tail(
        &mut self,
        slots: &[Slot],
        ends: &[Ends],
        stored: &[u8],
        k: ThreadNo,
    ) -> QueueName
        requires queues { AreQueues (links_of slots.now) ends.now }
        requires sound { IsFiled LIMIT self.old.range (queues (links_of slots.now) ends.now) stored.now
            self.old.stamps self.old.bitmap }
        requires limit { (64 ≤ LIMIT) × (LIMIT ≤ 2 ^ 62) }
        requires places { (length slots.now ≤ 32) × (length ends.now ≡ 128) }
        requires slot { k ≤ length slots.now }
        requires apart { (i : ℕ) → i < 32 → is_in k (part_of (queues (links_of slots.now) ends.now) i) ≡ false }
        requires priority { (0 < stored_of stored.now k) × (stored_of stored.now k ≤ 32) }
        ensures queue { result ≡ QueueName.Ready (stored_of stored.now k) }
        ensures sound { IsFiled LIMIT self.new.range (with_last result k (queues (links_of slots.now) ends.now))
            stored.now self.new.stamps self.new.bitmap }
        ensures line { line_of (with_last result k (queues (links_of slots.now) ends.now)) self.new.stamps
            ≡ line_of (queues (links_of slots.now) ends.now) self.old.stamps ++ k ∷ [] }
        ensures waiters { drop 32 (with_last result k (queues (links_of slots.now) ends.now))
            ≡ drop 32 (queues (links_of slots.now) ends.now) }
    {
        let priority = Priority::new(stored_in(stored, k));
        let stamp = self.tail_stamp(slots);
        self.stamps[k.place()] = stamp;
        self.bitmap = with_bit(self.bitmap, priority.level() as usize - 1);
        QueueName::Ready(priority)
    }

    /// Makes a thread that lies in no queue the first of the line. The caller prepends it to the queue that this names.
    pub fn push_head(
        &mut self,
        slots: &[Slot],
        ends: &[Ends],
        stored: &[u8],
        k: ThreadNo,
    ) -> QueueName
        requires queues { AreQueues (links_of slots.now) ends.now }
        requires sound { IsFiled LIMIT self.old.range (queues (links_of slots.now) ends.now) stored.now
            self.old.stamps self.old.bitmap }
        requires limit { (64 ≤ LIMIT) × (LIMIT ≤ 2 ^ 62) }
        requires places { (length slots.now ≤ 32) × (length ends.now ≡ 128) }
        requires slot { k ≤ length slots.now }
        requires free { IsUnqueued k (queues (links_of slots.now) ends.now) }
        requires priority { (0 < stored_of stored.now k) × (stored_of stored.now k ≤ 32) }
        ensures queue { result ≡ QueueName.Ready (stored_of stored.now k) }
        ensures sound { IsFiled LIMIT self.new.range (with_first result k (queues (links_of slots.now) ends.now))
            stored.now self.new.stamps self.new.bitmap }
        ensures line { line_of (with_first result k (queues (links_of slots.now) ends.now)) self.new.stamps
            ≡ k ∷ line_of (queues (links_of slots.now) ends.now) self.old.stamps }
        ensures waiters { drop 32 (with_first result k (queues (links_of slots.now) ends.now))
            ≡ drop 32 (queues (links_of slots.now) ends.now) }
    {
        let priority = Priority::new(stored_in(stored, k));
        let stamp = self.head_stamp(slots);
        self.stamps[k.place()] = stamp;
        self.bitmap = with_bit(self.bitmap, priority.level() as usize - 1);
        QueueName::Ready(priority)
    }

    /// Removes a thread of the line. The caller takes it out of its queue.
    pub fn remove(&mut self, slots: &[Slot], ends: &[Ends], stored: &[u8], k: ThreadNo)
        requires queues { AreQueues (links_of slots.now) ends.now }
        requires sound { IsFiled LIMIT self.old.range (queues (links_of slots.now) ends.now) stored.now
            self.old.stamps self.old.bitmap }
        requires places { (length slots.now ≤ 32) × (length ends.now ≡ 128) }
        requires ready { is_in k (line_of (queues (links_of slots.now) ends.now) self.old.stamps) ≡ true }
        ensures sound { IsFiled LIMIT self.new.range (with_none k (queues (links_of slots.now) ends.now)) stored.now
            self.new.stamps self.new.bitmap }
        ensures line { line_of (with_none k (queues (links_of slots.now) ends.now)) self.new.stamps
            ≡ without k (line_of (queues (links_of slots.now) ends.now) self.old.stamps) }
        ensures waiters { drop 32 (with_none k (queues (links_of slots.now) ends.now))
            ≡ drop 32 (queues (links_of slots.now) ends.now) }
    {
        self.bitmap = bitmap_without(self.bitmap, &link_of(slots, k));
    }

    /// Files a thread of the line anew for the stored priority that it is about to get; the line stays, so also the
    /// thread's place. The caller takes it out of its queue and inserts it before the thread that this names, or where
    /// it names none appends it to the new priority's queue.
    #[inline(never)]
    pub fn refile(
        &mut self,
        slots: &[Slot],
        ends: &[Ends],
        stored: &[u8],
        k: ThreadNo,
        priority: Priority,
    ) -> Option<ThreadNo>
        requires queues { AreQueues (links_of slots.now) ends.now }
        requires sound { IsFiled LIMIT self.old.range (queues (links_of slots.now) ends.now) stored.now
            self.old.stamps self.old.bitmap }
        requires places { (length slots.now ≤ 32) × (length ends.now ≡ 128) }
        requires ready { is_in k (line_of (queues (links_of slots.now) ends.now) self.old.stamps) ≡ true }
        ensures sound { IsFiled LIMIT self.new.range (with_refiled result priority k (queues (links_of slots.now) ends.now))
            (pool_set stored.now k priority) self.new.stamps self.new.bitmap }
        ensures line { line_of (with_refiled result priority k (queues (links_of slots.now) ends.now)) self.new.stamps
            ≡ line_of (queues (links_of slots.now) ends.now) self.old.stamps }
        ensures waiters { drop 32 (with_refiled result priority k (queues (links_of slots.now) ends.now))
            ≡ drop 32 (queues (links_of slots.now) ends.now) }
    {
        let i = priority.level() as usize - 1;
        let left = bitmap_without(self.bitmap, &link_of(slots, k));
        self.bitmap = with_bit(left, i);
        let end = ends[i];
        first_after(slots, &self.stamps, end.first, stamp_in(&self.stamps, k))
    }

    /// The first thread of the greatest stored priority; None of an empty line.
    pub fn first_of_greatest(
        &self,
        slots: &[Slot],
        ends: &[Ends],
        stored: &[u8],
    ) -> Option<ThreadNo>
        requires queues { AreQueues (links_of slots.now) ends.now }
        requires sound { IsFiled LIMIT self.now.range (queues (links_of slots.now) ends.now) stored.now
            self.now.stamps self.now.bitmap }
        requires places { (length slots.now ≤ 32) × (length ends.now ≡ 128) }
        ensures { result ≡ first_of_greatest (stored_of stored.now)
            (line_of (queues (links_of slots.now) ends.now) self.now.stamps) }
    {
        match greatest_bit(self.bitmap) {
            Some(i) => ends[i].first,
            None => None,
        }
    }

    /// The greatest stored priority of the line's threads; None of an empty line.
    pub(crate) fn greatest_priority(&self) -> Option<Priority>
        ensures { IsGreatestBit self.now.bitmap (option_map (λ priority. place_of (QueueName.Ready priority)) result) }
    {
        let i = greatest_bit(self.bitmap)?;
        Some(Priority::new(i as u8 + 1))
    }

    /// The first thread has left a priority's queue, in which it was alone or not.
    pub(crate) fn first_left(&mut self, priority: Priority, was_alone: bool)
        ensures bitmap { has_bit self.old.bitmap (place_of (QueueName.Ready priority)) ≡ true
            → IsBitChanged self.old.bitmap self.new.bitmap (place_of (QueueName.Ready priority)) (not was_alone) }
        ensures rest { self.new ≡ record self.old { bitmap = self.new.bitmap } }
    {
        if was_alone {
            self.bitmap = without_bit(self.bitmap, priority.level() as usize - 1);
        }
    }

    /// Whether a thread is in the line.
    pub fn contains(&self, slots: &[Slot], ends: &[Ends], k: ThreadNo) -> bool
        requires queues { AreQueues (links_of slots.now) ends.now }
        requires few { length slots.now ≤ 32 }
        ensures { result ≡ is_in k (line_of (queues (links_of slots.now) ends.now) self.now.stamps) }
    {
        let link = link_of(slots, k);
        is_ready_queue(&link.queue)
    }

    /// The stamp of a thread that comes last, after all are numbered anew where it would pass the limit.
    #[inline(always)]
    fn tail_stamp(&mut self, slots: &[Slot]) -> i64
        requires stamps { AreStamps LIMIT self.old.range (links_of slots.now) self.old.stamps }
        requires limit { (64 ≤ LIMIT) × (LIMIT ≤ 2 ^ 62) }
        requires few { length slots.now ≤ 32 }
        ensures stamps { AreStamps LIMIT self.new.range (links_of slots.now) self.new.stamps }
        ensures line { entries (links_of slots.now) self.new.stamps ≡ entries (links_of slots.now) self.old.stamps }
        ensures bitmap { self.new.bitmap ≡ self.old.bitmap }
        ensures last { (k : ℕ) → is_ready (links_of slots.now) k ≡ true → stamp_of self.new.stamps k <ℤ result }
        ensures within { IsInRange self.new.range result }
    {
        if self.range.last >= LIMIT as i64 {
            self.number_anew(slots);
        }
        self.range.last += 1;
        self.range.last
    }

    /// The stamp of a thread that comes first, after all are numbered anew where it would pass the limit.
    fn head_stamp(&mut self, slots: &[Slot]) -> i64
        requires stamps { AreStamps LIMIT self.old.range (links_of slots.now) self.old.stamps }
        requires limit { (64 ≤ LIMIT) × (LIMIT ≤ 2 ^ 62) }
        requires few { length slots.now ≤ 32 }
        ensures stamps { AreStamps LIMIT self.new.range (links_of slots.now) self.new.stamps }
        ensures line { entries (links_of slots.now) self.new.stamps ≡ entries (links_of slots.now) self.old.stamps }
        ensures bitmap { self.new.bitmap ≡ self.old.bitmap }
        ensures first { (k : ℕ) → is_ready (links_of slots.now) k ≡ true → result <ℤ stamp_of self.new.stamps k }
        ensures within { IsInRange self.new.range result }
    {
        if self.range.first <= -(LIMIT as i64) {
            self.number_anew(slots);
        }
        self.range.first -= 1;
        self.range.first
    }

    /// Numbers the ready threads' stamps anew from 0; the line stays.
    #[cold]
    #[inline(never)]
    fn number_anew(&mut self, slots: &[Slot])
        requires stamps { AreStamps LIMIT self.old.range (links_of slots.now) self.old.stamps }
        requires limit { 64 ≤ LIMIT }
        requires few { length slots.now ≤ 32 }
        ensures stamps { AreStamps LIMIT self.new.range (links_of slots.now) self.new.stamps }
        ensures line { entries (links_of slots.now) self.new.stamps ≡ entries (links_of slots.now) self.old.stamps }
        ensures bitmap { self.new.bitmap ≡ self.old.bitmap }
        ensures range { self.new.range ≡ record { first = pos 0; last = pos 31 } }
    {
        self.stamps = renumbered(slots, &self.stamps);
        let last = NUMBERS as i64 - 1;
        self.range = StampRange { first: 0, last };
    }
}

/// The bitmap once the ready thread with this link is gone from its queue, whose bit is clear then where it was alone.
fn bitmap_without(bitmap: u32, link: &Link) -> u32
    requires { is_ready_place (option_map place_of link.now.queue) ≡ true }
    ensures { (i : ℕ) → option_map place_of link.now.queue ≡ Some i → has_bit bitmap i ≡ true
        → IsBitChanged bitmap result i (is_some link.now.previous || is_some link.now.next) }
{
    let Some(name) = &link.queue else {
        return bitmap;
    };
    if link.previous.is_some() || link.next.is_some() {
        return bitmap;
    }
    without_bit(bitmap, name.place())
}
