//! The slots of all partitions, with the queues that are linked through them.

ghost use Rattle.std.specs.Prelude.{◌≡◌, ◌<◌, ◌≤◌, true, All, length, map, replicate, slice_set, None, IsSome, IfSome, IfOk};
ghost use Rattle.ptk_words.specs.Pools.{pool_get, pool_set, pool_changed, is_in};
ghost use Rattle.ptk_words.specs.declared.threads.Thread.{Thread};
ghost use Rattle.ptk_words.specs.Parts.{part_of, joined, filled};
ghost use Rattle.ptk_threads.specs.LinkChanges.{first_in};
ghost use Rattle.ptk_threads.specs.Links.{links_of, threads_of, no_ends, place_of, queues, AreQueues};
ghost use Rattle.ptk_threads.specs.Table.{replaced_by};
ghost use Rattle.ptk_threads.specs.Shared.{AreAlongLinks, StayInPartitions};
ghost use Rattle.ptk_threads.specs.Queues.{no_queues, free_parts, AreListed, IsUnqueued, with_last, with_first, with_before, with_none, with_out, without_first};

use crate::change::ThreadChange;
use crate::changes::{put_in, update_in, work_in};
use crate::work::Work;
use crate::{
    Ends, FirstThread, PLACES, QueueName, Slot, append, insert, pass_on, prepend, take, take_first,
    take_from,
};
use ptk_words::{PartId, Parted, Thread, ThreadNo, repeated};
use std::alloc::{AllocError, Global};
use std::marker::Model;

/// A partition's slots, and the ends of the queues that are linked through them.
#[derive(Clone, Copy)]
pub struct LinkedSlots<'a> {
    /// The slots, by number from 1.
    pub slots: &'a [Slot],
    /// The first and the last thread of each queue, by place.
    pub ends: &'a [Ends],
}

/// The threads of each partition by number from 1, and its queues by place.
#[derive(Drop)]
pub(crate) struct SlotTable {
    slots: Parted<Slot>,
    ends: Parted<Ends>,
}

impl Model for SlotTable {
    ghost use Rattle.std.specs.Prelude.{map};
    ghost use Rattle.ptk_threads.specs.Links.{threads_of};
    ghost use Rattle.ptk_threads.specs.Queues.{LinkedThreads, queues_by, AreLinked};

    ghost Value = { LinkedThreads };

    ghost view = { λ a. record { threads = map threads_of a.slots; queues = queues_by a.slots a.ends } };

    ghost invariant = { λ a. AreLinked a.slots a.ends };
}

impl SlotTable {
    /// As many free slots for each partition as its count, and empty queues. An error where memory ran out.
    pub(crate) fn build(alloc: Global, counts: &[u32]) -> Result<SlotTable, AllocError>
        requires partitions { length counts.now ≤ 8 }
        requires few { All (λ count. count ≤ 32) counts.now }
        ensures threads { IfOk result (λ table. table.threads ≡ map (filled None) counts.now) }
        ensures queues { IfOk result (λ table. table.queues ≡ map no_queues counts.now) }
    {
        let slots = free_slots(alloc, counts)?;
        let ends = empty_ends(alloc, counts)?;
        Ok(SlotTable { slots, ends })
    }

    /// How many partitions there are.
    pub(crate) fn parts(&self) -> usize
        ensures parts { result ≡ length self.now.threads }
        ensures listed { AreListed result self.now.queues }
    {
        self.slots.parts()
    }

    /// All slots, by partition and then by number.
    #[tactic(auto, using(crate::proofs::Linked::reads))]
    pub(crate) fn whole(&self) -> &[Slot]
        ensures threads { threads_of result.now ≡ joined self.now.threads }
        ensures queues { AreAlongLinks result.now self.now.threads self.now.queues }
        ensures within { StayInPartitions result.now self.now.threads }
    {
        self.slots.whole()
    }

    /// The slots of a partition.
    pub(crate) fn part(&self, p: PartId) -> &[Slot]
        requires { p < length self.now.threads }
        ensures { threads_of result.now ≡ part_of self.now.threads p }
    {
        self.slots.part(p)
    }

    /// The slots of a partition, and the ends of its queues.
    #[tactic(auto, using(crate::proofs::Linked::reads))]
    pub(crate) fn linked(&self, p: PartId) -> LinkedSlots<'_>
        requires { p < length self.now.threads }
        ensures threads { threads_of result.slots.now ≡ part_of self.now.threads p }
        ensures sound { AreQueues (links_of result.slots.now) result.ends.now }
        ensures places { length result.ends.now ≡ 128 }
        ensures lists { queues (links_of result.slots.now) result.ends.now ≡ part_of self.now.queues p }
    {
        let slots = self.slots.part(p);
        let ends = self.ends.part(p);
        LinkedSlots { slots, ends }
    }

    /// Changes a thread, which is in use.
    #[inline(always)]
    #[tactic(auto, using(crate::proofs::Linked::lifts))]
    pub(crate) fn update<C: ThreadChange>(&mut self, p: PartId, k: ThreadNo, change: &C)
        requires partition { p < length self.old.threads }
        requires in_use { IsSome (pool_get (part_of self.old.threads p) k) }
        requires possible { C.can_make change.now }
        ensures { self.new ≡ record self.old { threads = slice_set self.old.threads p (pool_changed k (C.changed change.now) (part_of self.old.threads p)) } }
    {
        update_in(self.slots.lend(p), k, change);
    }

    /// Sets the entry of a number.
    #[tactic(auto, using(crate::proofs::Linked::lifts))]
    pub(crate) fn put(&mut self, p: PartId, k: ThreadNo, thread: Option<Thread>)
        requires { p < length self.old.threads }
        ensures { self.new ≡ record self.old { threads = slice_set self.old.threads p (pool_set (part_of self.old.threads p) k thread) } }
    {
        put_in(self.slots.lend(p), k, thread);
    }

    /// Does a piece of work on the thread of a number, which is in use, where it lies.
    pub(crate) fn work_on<W: Work>(&mut self, p: PartId, k: ThreadNo, work: &mut W) -> W::Answer
        requires partition { p < length self.old.threads }
        requires in_use { IsSome (pool_get (part_of self.old.threads p) k) }
        requires ready { IfSome (pool_get (part_of self.old.threads p) k) (W.can_run work.old) }
        ensures { (made : Thread) × (self.new ≡ record self.old { threads = slice_set self.old.threads p (pool_changed k (replaced_by made) (part_of self.old.threads p)) }) × IfSome (pool_get (part_of self.old.threads p) k) (λ thread. W.has_run work.old thread result work.new made) }
    {
        work_in(self.slots.lend(p), k, work)
    }

    /// A thread that lies in no queue becomes the last of one.
    #[inline(always)]
    pub(crate) fn append(&mut self, p: PartId, name: QueueName, k: ThreadNo)
        requires partition { p < length self.old.threads }
        requires slot { k ≤ length (part_of self.old.threads p) }
        requires free { IsUnqueued k (part_of self.old.queues p) }
        ensures { self.new ≡ record self.old { queues = slice_set self.old.queues p (with_last name k (part_of self.old.queues p)) } }
    {
        append(self.slots.lend(p), self.ends.lend(p), name, k);
    }

    /// A thread that lies in no queue becomes the first of one.
    pub(crate) fn prepend(&mut self, p: PartId, name: QueueName, k: ThreadNo)
        requires partition { p < length self.old.threads }
        requires slot { k ≤ length (part_of self.old.threads p) }
        requires free { IsUnqueued k (part_of self.old.queues p) }
        ensures { self.new ≡ record self.old { queues = slice_set self.old.queues p (with_first name k (part_of self.old.queues p)) } }
    {
        prepend(self.slots.lend(p), self.ends.lend(p), name, k);
    }

    /// A thread that lies in no queue goes before another one, into the queue in which that one lies; nothing changes
    /// where that one lies in none.
    pub(crate) fn insert(&mut self, p: PartId, k: ThreadNo, before: ThreadNo)
        requires partition { p < length self.old.threads }
        requires slot { k ≤ length (part_of self.old.threads p) }
        requires free { IsUnqueued k (part_of self.old.queues p) }
        ensures { self.new ≡ record self.old { queues = slice_set self.old.queues p (with_before k before (part_of self.old.queues p)) } }
    {
        insert(self.slots.lend(p), self.ends.lend(p), k, before);
    }

    /// A thread leaves the queue in which it lies; nothing changes where it lies in none.
    pub(crate) fn take(&mut self, p: PartId, k: ThreadNo)
        requires { p < length self.old.threads }
        ensures { self.new ≡ record self.old { queues = slice_set self.old.queues p (with_none k (part_of self.old.queues p)) } }
    {
        take(self.slots.lend(p), self.ends.lend(p), k);
    }

    /// A thread, which is in use and lies in this queue or in none, leaves it, becomes the last of another one, or of
    /// the same, and is changed.
    #[inline(always)]
    pub(crate) fn pass_updated<C: ThreadChange>(
        &mut self,
        p: PartId,
        from: QueueName,
        to: QueueName,
        k: ThreadNo,
        change: &C,
    )
        requires partition { p < length self.old.threads }
        requires in_use { IsSome (pool_get (part_of self.old.threads p) k) }
        requires free { IsUnqueued k (with_out from k (part_of self.old.queues p)) }
        requires possible { C.can_make change.now }
        ensures { self.new ≡ record self.old { threads = slice_set self.old.threads p (pool_changed k (C.changed change.now) (part_of self.old.threads p)); queues = slice_set self.old.queues p (with_last to k (with_out from k (part_of self.old.queues p))) } }
    {
        let slots = self.slots.lend(p);
        pass_on(slots, self.ends.lend(p), from, to, k);
        update_in(slots, k, change);
    }

    /// A thread, which is in use and lies in no queue, becomes the last of one and is changed.
    #[inline(always)]
    pub(crate) fn append_updated<C: ThreadChange>(
        &mut self,
        p: PartId,
        name: QueueName,
        k: ThreadNo,
        change: &C,
    )
        requires partition { p < length self.old.threads }
        requires in_use { IsSome (pool_get (part_of self.old.threads p) k) }
        requires free { IsUnqueued k (part_of self.old.queues p) }
        requires possible { C.can_make change.now }
        ensures { self.new ≡ record self.old { threads = slice_set self.old.threads p (pool_changed k (C.changed change.now) (part_of self.old.threads p)); queues = slice_set self.old.queues p (with_last name k (part_of self.old.queues p)) } }
    {
        let slots = self.slots.lend(p);
        append(slots, self.ends.lend(p), name, k);
        update_in(slots, k, change);
    }

    /// A thread leaves this queue; nothing changes where it lies in another one, or in none. One that lay in it lies in
    /// no queue then.
    pub(crate) fn take_from(&mut self, p: PartId, name: QueueName, k: ThreadNo)
        requires partition { p < length self.old.threads }
        requires slot { k ≤ length (part_of self.old.threads p) }
        ensures table { self.new ≡ record self.old { queues = slice_set self.old.queues p (with_out name k (part_of self.old.queues p)) } }
        ensures apart { is_in k (part_of (part_of self.old.queues p) (place_of name)) ≡ true → IsUnqueued k (part_of self.new.queues p) }
    {
        take_from(self.slots.lend(p), self.ends.lend(p), name, k);
    }

    /// The first thread of a queue leaves it; the function returns it, and None of an empty queue, where nothing
    /// changes.
    pub(crate) fn take_first(&mut self, p: PartId, name: QueueName) -> Option<FirstThread>
        requires { p < length self.old.threads }
        ensures first { result ≡ first_in (part_of (part_of self.old.queues p) (place_of name)) }
        ensures queues { self.new ≡ record self.old { queues = slice_set self.old.queues p (without_first name (part_of self.old.queues p)) } }
    {
        take_first(self.slots.lend(p), self.ends.lend(p), name)
    }
}

/// As many free slots for each partition as its count, each with its partition's first slot. An error where memory ran
/// out.
fn free_slots(alloc: Global, counts: &[u32]) -> Result<Parted<Slot>, AllocError>
    requires partitions { length counts.now ≤ 8 }
    requires few { All (λ count. count ≤ 32) counts.now }
    ensures { IfOk result (λ slots. slots ≡ free_parts 0 counts.now) }
{
    let mut slots = Parted::new(alloc);
    let mut first = 0;
    for count in counts {
        let count = *count as usize;
        slots.add_part(repeated(alloc, Slot::free(first as u8), count)?)?;
        first += count;
    }
    Ok(slots)
}

/// The ends of empty queues, as many for each partition as there are places. An error where memory ran out.
#[tactic(auto, using(crate::proofs::Linked::taken_same))]
fn empty_ends(alloc: Global, counts: &[u32]) -> Result<Parted<Ends>, AllocError>
    requires { length counts.now ≤ 8 }
    ensures { IfOk result (λ ends. ends ≡ map (filled no_ends) (replicate (length counts.now) 128)) }
{
    let places = [PLACES as u32; 8];
    Parted::build(alloc, &places[..counts.len()], Ends::none())
}
