//! The table: the life of numbers, and the fields of a thread.

ghost use Rattle.std.specs.Prelude.{◌≡◌, ◌↔◌, ◌<◌, ◌≤◌, ◌==◌, not, true, false, length, slice_set, position, is_none, Some, IsSome, IfSome, IfOk, All, option_map, option_and_then};
ghost use Rattle.ptk_words.specs.Pools.{least_free, pool_get, pool_set, is_in};
ghost use Rattle.ptk_words.specs.Threads.{left_at_end, left_at_detach};
ghost use Rattle.ptk_words.specs.declared.threads.Thread.{Thread};
ghost use Rattle.ptk_words.specs.Parts.{part_of, joined};
ghost use Rattle.ptk_threads.specs.Table.{free_table, thread_in, stored_of, with_slot, with_changed, with_stored, with_queues, with_free, with_new, with_rest, with_left, replaced_by};
ghost use Rattle.ptk_threads.specs.Queues.{AreListed, IsUnqueued, with_last, with_first, with_before, with_none, with_out, without_first};
ghost use Rattle.ptk_threads.specs.Shared.{AreAlongLinks, StayInPartitions};
ghost use Rattle.ptk_threads.specs.declared.slot.Slot.{Slot};
ghost use Rattle.ptk_threads.specs.LinkChanges.{first_in, few_of};
ghost use Rattle.ptk_threads.specs.Links.{links_of, threads_of, place_of, queues, AreQueues};

use crate::change::ThreadChange;
use crate::slot_table::{LinkedSlots, SlotTable};
use crate::waits::{follow, follow_change};
use crate::work::Work;
use crate::{
    FirstThread, Members, QueueName, Slot, ThreadList, few_members, has_members, link_of,
    members_of,
};
use ptk_clock::ThreadDeadlines;
use ptk_words::{Cpu, PartId, Parted, Phase, Policy, Priority, Thread, ThreadNo, Wait};
use std::alloc::{AllocError, Global};
use std::marker::Model;

/// The threads of each partition by number from 1, their stored effective priorities, the queues that are linked
/// through the slots, and the deadlines of the threads' waits.
pub struct Threads {
    pub(crate) slots: SlotTable,
    stored: Parted<u8>,
    pub(crate) deadlines: ThreadDeadlines,
}

// By hand: a function that drops a slot table calls this, and its proof does not spell out the drop of each part.
impl Drop for Threads {
    fn drop(self) {
        let Threads {
            slots,
            stored,
            deadlines,
        } = self;
    }
}

impl Model for Threads {
    ghost use Rattle.ptk_threads.specs.Table.{ThreadTable};
    ghost use Rattle.ptk_threads.specs.Timed.{IsKept};

    ghost Value = { ThreadTable };

    ghost view = { λ a. record { threads = a.slots.threads; stored = a.stored; queues = a.slots.queues } };

    ghost invariant = { λ a. IsKept a.slots.threads a.stored a.deadlines };
}

impl Threads {
    /// As many free slots for each of at most 8 partitions as its count, at most 32. An error where memory ran out.
    pub fn build(alloc: Global, counts: &[u32]) -> Result<Threads, AllocError>
        requires partitions { length counts.now ≤ 8 }
        requires threads { All (λ count. count ≤ 32) counts.now }
        ensures { IfOk result (λ table. table ≡ free_table counts.now) }
    {
        let slots = SlotTable::build(alloc, counts)?;
        let stored = Parted::build(alloc, counts, 0)?;
        let deadlines = ThreadDeadlines::build(alloc, counts)?;
        Ok(Threads {
            slots,
            stored,
            deadlines,
        })
    }

    /// How many partitions there are; each has 128 queues.
    pub fn parts(&self) -> usize
        ensures parts { result ≡ length self.now.threads }
        ensures queues { AreListed (length self.now.threads) self.now.queues }
    {
        self.slots.parts()
    }

    /// All slots, by partition and then by number. Along their links lies the list of each queue, and no link leaves
    /// its partition.
    pub fn slots(&self) -> &[Slot]
        ensures threads { threads_of result.now ≡ joined self.now.threads }
        ensures queues { AreAlongLinks result.now self.now.threads self.now.queues }
        ensures within { StayInPartitions result.now self.now.threads }
    {
        self.slots.whole()
    }

    /// The slots of a partition, by number from 1.
    pub fn part(&self, p: PartId) -> &[Slot]
        requires { p < length self.now.threads }
        ensures slots { threads_of result.now ≡ part_of self.now.threads p }
        ensures few { length result.now ≤ 32 }
    {
        self.slots.part(p)
    }

    /// The slots of a partition with their links, and the ends of its queues.
    pub fn linked(&self, p: PartId) -> LinkedSlots<'_>
        requires { p < length self.now.threads }
        ensures threads { threads_of result.slots.now ≡ part_of self.now.threads p }
        ensures sound { AreQueues (links_of result.slots.now) result.ends.now }
        ensures few { length result.slots.now ≤ 32 }
        ensures places { length result.ends.now ≡ 128 }
        ensures lists { queues (links_of result.slots.now) result.ends.now ≡ part_of self.now.queues p }
    {
        self.slots.linked(p)
    }

    /// The thread of a number, None of a free one.
    pub fn thread(&self, p: PartId, k: ThreadNo) -> Option<Thread>
        requires { p < length self.now.threads }
        ensures { result ≡ thread_in self.now p k }
    {
        self.thread_ref(p, k).copied()
    }

    /// The least free number of a partition; None where no number is free.
    #[tactic(auto, using(crate::proofs::Slots::free_numbers))]
    pub fn first_free(&self, p: PartId) -> Option<ThreadNo>
        requires { p < length self.now.threads }
        ensures { result ≡ least_free (part_of self.now.threads p) }
    {
        let place = first_free_place(self.part(p))?;
        Some(ThreadNo::new(place as u8 + 1))
    }

    /// A new thread at the least free number, with its assigned priority as the stored one; None, and nothing changes,
    /// where no number is free (pthread_create).
    #[tactic(auto, using(crate::proofs::Slots::pools))]
    pub fn create(&mut self, p: PartId, thread: Thread) -> Option<ThreadNo>
        requires { p < length self.old.threads }
        ensures number { result ≡ least_free (part_of self.old.threads p) }
        ensures table { self.new ≡ with_new p thread self.old }
    {
        let priority = thread.priority;
        let level = priority.level();
        let free = self.first_free(p);
        if let Some(k) = free {
            self.put(p, k, Some(thread), level);
        }
        free
    }

    /// The thread has ended: its number and result stay until it is joined or detached, and its number is free at once
    /// where it is detached or has a joiner (pthread_exit).
    #[tactic(auto, using(crate::proofs::Slots::pools))]
    pub fn end(&mut self, p: PartId, k: ThreadNo)
        requires { p < length self.old.threads }
        ensures { self.new ≡ with_left p k left_at_end self.old }
    {
        let left = left_at_end(self.thread(p, k));
        self.leave(p, k, left);
    }

    /// An ended thread's number is free; another thread is detached (pthread_detach).
    #[tactic(auto, using(crate::proofs::Slots::pools))]
    pub fn detach(&mut self, p: PartId, k: ThreadNo)
        requires { p < length self.old.threads }
        ensures { self.new ≡ with_left p k left_at_detach self.old }
    {
        let left = left_at_detach(self.thread(p, k));
        self.leave(p, k, left);
    }

    /// The number is free, as after a join of its ended thread (pthread_join).
    #[tactic(auto, using(crate::proofs::Slots::pools))]
    pub fn free(&mut self, p: PartId, k: ThreadNo)
        requires { p < length self.old.threads }
        ensures { self.new ≡ with_free p k self.old }
    {
        self.put(p, k, None, 0);
    }

    /// Its registers and pc; None of a free number.
    pub fn cpu(&self, p: PartId, k: ThreadNo) -> Option<Cpu>
        requires { p < length self.now.threads }
        ensures { result ≡ option_map (λ (thread : Thread). thread.cpu) (thread_in self.now p k) }
    {
        self.slot(p, k).cpu()
    }

    /// Its policy (XSH 2.8.4); None of a free number.
    pub fn policy(&self, p: PartId, k: ThreadNo) -> Option<Policy>
        requires { p < length self.now.threads }
        ensures { result ≡ option_map (λ (thread : Thread). thread.policy) (thread_in self.now p k) }
    {
        self.slot(p, k).policy()
    }

    /// Its assigned priority (XSH 2.8.4); None of a free number.
    pub fn assigned_priority(&self, p: PartId, k: ThreadNo) -> Option<Priority>
        requires { p < length self.now.threads }
        ensures { result ≡ option_map (λ (thread : Thread). thread.priority) (thread_in self.now p k) }
    {
        self.slot(p, k).assigned_priority()
    }

    /// The ticks that it used of a round-robin interval (XSH 2.8.4, SCHED_RR); None of a free number.
    pub fn used(&self, p: PartId, k: ThreadNo) -> Option<u32>
        requires { p < length self.now.threads }
        ensures { result ≡ option_map (λ (thread : Thread). thread.used) (thread_in self.now p k) }
    {
        self.slot(p, k).used()
    }

    /// How far it is (pthread_exit); None of a free number.
    pub fn phase(&self, p: PartId, k: ThreadNo) -> Option<Phase>
        requires { p < length self.now.threads }
        ensures { result ≡ option_map (λ (thread : Thread). thread.phase) (thread_in self.now p k) }
    {
        self.slot(p, k).phase()
    }

    /// Whether the image started it; None of a free number.
    pub fn is_main(&self, p: PartId, k: ThreadNo) -> Option<bool>
        requires { p < length self.now.threads }
        ensures { result ≡ option_map (λ (thread : Thread). thread.is_main) (thread_in self.now p k) }
    {
        self.slot(p, k).is_main()
    }

    /// Whether its number is free at its end (pthread_detach); None of a free number.
    pub fn is_detached(&self, p: PartId, k: ThreadNo) -> Option<bool>
        requires { p < length self.now.threads }
        ensures { result ≡ option_map (λ (thread : Thread). thread.is_detached) (thread_in self.now p k) }
    {
        self.slot(p, k).is_detached()
    }

    /// The result that a joiner gets (pthread_join); None of a free number.
    pub fn result(&self, p: PartId, k: ThreadNo) -> Option<u32>
        requires { p < length self.now.threads }
        ensures { result ≡ option_map (λ (thread : Thread). thread.result) (thread_in self.now p k) }
    {
        self.slot(p, k).result()
    }

    /// The thread that waits for its end (pthread_join); None of a free number too.
    pub fn joiner(&self, p: PartId, k: ThreadNo) -> Option<ThreadNo>
        requires { p < length self.now.threads }
        ensures { result ≡ option_and_then (λ (thread : Thread). thread.joiner) (thread_in self.now p k) }
    {
        self.slot(p, k).joiner()
    }

    /// What it waits for (XSH 2.8.4); None of a free number too.
    #[inline(always)]
    pub fn wait(&self, p: PartId, k: ThreadNo) -> Option<Wait>
        requires { p < length self.now.threads }
        ensures { result ≡ option_and_then (λ (thread : Thread). thread.wait) (thread_in self.now p k) }
    {
        self.thread_ref(p, k)?.wait
    }

    /// Changes a thread, which is in use. Where that is its wait, the deadline that is kept for it follows.
    #[inline(always)]
    #[tactic(auto, using(crate::proofs::Slots::pools))]
    pub fn update<C: ThreadChange>(&mut self, p: PartId, k: ThreadNo, change: &C)
        requires partition { p < length self.old.threads }
        requires in_use { IsSome (thread_in self.old p k) }
        requires possible { C.can_make change.now }
        ensures { self.new ≡ with_changed p k (C.changed change.now) self.old }
    {
        let deadline = change.deadline();
        self.slots.update(p, k, change);
        follow_change(&mut self.deadlines, p, k, deadline);
    }

    /// Changes a thread; a free number stays free.
    #[inline(always)]
    pub fn update_if_used<C: ThreadChange>(&mut self, p: PartId, k: ThreadNo, change: &C)
        requires partition { p < length self.old.threads }
        requires possible { C.can_make change.now }
        ensures { self.new ≡ with_changed p k (C.changed change.now) self.old }
    {
        if self.thread_ref(p, k).is_some() {
            self.update(p, k, change);
        }
    }

    /// Does a piece of work on a thread where it lies, which leaves its wait: nothing of it is copied, and nothing else
    /// of the table changes.
    pub fn work_on<W: Work>(&mut self, p: PartId, k: ThreadNo, work: &mut W) -> W::Answer
        requires partition { p < length self.old.threads }
        requires in_use { IsSome (thread_in self.old p k) }
        requires ready { IfSome (thread_in self.old p k) (W.can_run work.old) }
        requires waits { (after : W) → (answer : W.Answer) → (thread made : Thread) → W.has_run work.old thread answer after made → made.wait ≡ thread.wait }
        ensures { (made : Thread) × (self.new ≡ with_changed p k (replaced_by made) self.old) × IfSome (thread_in self.old p k) (λ thread. W.has_run work.old thread result work.new made) }
    {
        self.slots.work_on(p, k, work)
    }

    /// The stored effective priorities of a partition, by number from 1; 0 of a number that was never used.
    pub fn stored(&self, p: PartId) -> &[u8]
        requires { p < length self.now.threads }
        ensures priorities { result.now ≡ part_of self.now.stored p }
        ensures same { length result.now ≡ length (part_of self.now.threads p) }
    {
        self.stored.part(p)
    }

    /// The stored effective priority of a number, 0 past the partition's slots.
    pub fn stored_priority(&self, p: PartId, k: ThreadNo) -> u8
        requires { p < length self.now.threads }
        ensures { result ≡ stored_of (part_of self.now.stored p) k }
    {
        stored_in(self.stored(p), k)
    }

    /// Stores the effective priority of a number; nothing past the partition's slots.
    #[tactic(auto, using(crate::proofs::Slots::pools))]
    pub fn set_stored_priority(&mut self, p: PartId, k: ThreadNo, priority: u8)
        requires { p < length self.old.threads }
        ensures { self.new ≡ with_stored p k priority self.old }
    {
        put_stored(self.stored.lend(p), k, priority);
    }

    /// Stores the effective priorities of a partition, by number from 1.
    #[tactic(auto, using(crate::proofs::Slots::pools))]
    pub fn store(&mut self, p: PartId, priorities: &[u8])
        requires partition { p < length self.old.threads }
        requires same { length priorities.now ≡ length (part_of self.old.threads p) }
        ensures { self.new ≡ record self.old { stored = slice_set self.old.stored p priorities.now } }
    {
        let stored = self.stored.lend(p);
        stored.copy_from_slice(priorities);
    }

    /// Whether a thread lies in a queue.
    #[tactic(auto, using(crate::proofs::Linked::queued_told))]
    pub fn is_queued(&self, p: PartId, k: ThreadNo) -> bool
        requires { p < length self.now.threads }
        ensures { (result ≡ false) ↔ IsUnqueued k (part_of self.now.queues p) }
    {
        let part = self.linked(p);
        let link = link_of(part.slots, k);
        link.queue.is_some()
    }

    /// A thread that lies in no queue becomes the last of one.
    #[inline(always)]
    pub fn append(&mut self, p: PartId, name: QueueName, k: ThreadNo)
        requires partition { p < length self.old.threads }
        requires slot { k ≤ length (part_of self.old.threads p) }
        requires free { IsUnqueued k (part_of self.old.queues p) }
        ensures { self.new ≡ with_queues p (with_last name k) self.old }
    {
        self.slots.append(p, name, k);
    }

    /// A thread that lies in no queue becomes the first of one.
    pub fn prepend(&mut self, p: PartId, name: QueueName, k: ThreadNo)
        requires partition { p < length self.old.threads }
        requires slot { k ≤ length (part_of self.old.threads p) }
        requires free { IsUnqueued k (part_of self.old.queues p) }
        ensures { self.new ≡ with_queues p (with_first name k) self.old }
    {
        self.slots.prepend(p, name, k);
    }

    /// A thread that lies in no queue goes before another one, into the queue in which that one lies; nothing changes
    /// where that one lies in none.
    pub fn insert(&mut self, p: PartId, k: ThreadNo, before: ThreadNo)
        requires partition { p < length self.old.threads }
        requires slot { k ≤ length (part_of self.old.threads p) }
        requires free { IsUnqueued k (part_of self.old.queues p) }
        ensures { self.new ≡ with_queues p (with_before k before) self.old }
    {
        self.slots.insert(p, k, before);
    }

    /// A thread leaves the queue in which it lies; nothing changes where it lies in none.
    pub fn take(&mut self, p: PartId, k: ThreadNo)
        requires { p < length self.old.threads }
        ensures { self.new ≡ with_queues p (with_none k) self.old }
    {
        self.slots.take(p, k);
    }

    /// The first thread of a queue leaves it; the function returns it, and None of an empty queue, where nothing
    /// changes.
    pub fn take_first(&mut self, p: PartId, name: QueueName) -> Option<FirstThread>
        requires { p < length self.old.threads }
        ensures first { result ≡ first_in (part_of (part_of self.old.queues p) (place_of name)) }
        ensures table { self.new ≡ with_queues p (without_first name) self.old }
    {
        self.slots.take_first(p, name)
    }

    /// A thread leaves this queue; nothing changes where it lies in another one, or in none. One that lay in it lies in
    /// no queue then.
    #[inline(always)]
    pub fn take_from(&mut self, p: PartId, name: QueueName, k: ThreadNo)
        requires partition { p < length self.old.threads }
        requires slot { k ≤ length (part_of self.old.threads p) }
        ensures table { self.new ≡ with_queues p (with_out name k) self.old }
        ensures apart { is_in k (part_of (part_of self.old.queues p) (place_of name)) ≡ true → IsUnqueued k (part_of self.new.queues p) }
    {
        self.slots.take_from(p, name, k);
    }

    /// A thread, which is in use and lies in this queue or in none, leaves it, becomes the last of another one, or of
    /// the same, and is changed; the deadline that is kept for it follows.
    #[inline(always)]
    pub fn pass_updated<C: ThreadChange>(
        &mut self,
        p: PartId,
        from: QueueName,
        to: QueueName,
        k: ThreadNo,
        change: &C,
    )
        requires partition { p < length self.old.threads }
        requires in_use { IsSome (thread_in self.old p k) }
        requires free { IsUnqueued k (with_out from k (part_of self.old.queues p)) }
        requires possible { C.can_make change.now }
        ensures { self.new ≡ with_changed p k (C.changed change.now) (with_queues p (with_last to k) (with_queues p (with_out from k) self.old)) }
    {
        let _parts = self.slots.parts();
        let deadline = change.deadline();
        self.slots.pass_updated(p, from, to, k, change);
        follow_change(&mut self.deadlines, p, k, deadline);
    }

    /// A thread, which is in use and lies in no queue, becomes the last of one and is changed; the deadline that is
    /// kept for it follows.
    #[inline(always)]
    pub fn append_updated<C: ThreadChange>(
        &mut self,
        p: PartId,
        name: QueueName,
        k: ThreadNo,
        change: &C,
    )
        requires partition { p < length self.old.threads }
        requires in_use { IsSome (thread_in self.old p k) }
        requires free { IsUnqueued k (part_of self.old.queues p) }
        requires possible { C.can_make change.now }
        ensures { self.new ≡ with_changed p k (C.changed change.now) (with_queues p (with_last name k) self.old) }
    {
        let deadline = change.deadline();
        self.slots.append_updated(p, name, k, change);
        follow_change(&mut self.deadlines, p, k, deadline);
    }

    /// The threads of a queue, in its order.
    pub fn members(&self, p: PartId, name: QueueName) -> ThreadList
        requires { p < length self.now.threads }
        ensures { result ≡ part_of (part_of self.now.queues p) (place_of name) }
    {
        let part = self.linked(p);
        members_of(part.slots, part.ends, name)
    }

    /// The threads of a queue, as far as a choice among them asks.
    #[inline(always)]
    pub fn few_members(&self, p: PartId, name: QueueName) -> Members
        requires { p < length self.now.threads }
        ensures { result ≡ few_of (part_of (part_of self.now.queues p) (place_of name)) }
    {
        let part = self.linked(p);
        few_members(part.slots, part.ends, name)
    }

    /// Whether any thread lies in a queue.
    pub fn has_members(&self, p: PartId, name: QueueName) -> bool
        requires { p < length self.now.threads }
        ensures { result ≡ not (length (part_of (part_of self.now.queues p) (place_of name)) == 0) }
    {
        let part = self.linked(p);
        has_members(part.slots, part.ends, name)
    }

    /// The slot of a number, a free one past the partition's.
    fn slot(&self, p: PartId, k: ThreadNo) -> Slot
        requires { p < length self.now.threads }
        ensures { result.thread ≡ thread_in self.now p k }
    {
        slot_of(self.part(p), k)
    }

    /// Sets a number's entry and its stored priority; nothing past the partition's slots.
    #[tactic(auto, using(crate::proofs::Slots::pools))]
    fn put(&mut self, p: PartId, k: ThreadNo, thread: Option<Thread>, priority: u8)
        requires { p < length self.old.threads }
        ensures { self.new ≡ with_slot p k thread priority self.old }
    {
        self.slots.put(p, k, thread);
        follow(&mut self.deadlines, &self.slots, p, k);
        self.set_stored_priority(p, k, priority);
    }

    /// Leaves a thread at a number, or frees it.
    #[tactic(auto, using(crate::proofs::Slots::pools))]
    fn leave(&mut self, p: PartId, k: ThreadNo, left: Option<Thread>)
        requires { p < length self.old.threads }
        ensures { self.new ≡ with_rest p k left self.old }
    {
        match left {
            Some(thread) => {
                self.slots.put(p, k, Some(thread));
                follow(&mut self.deadlines, &self.slots, p, k);
            }
            None => self.put(p, k, None, 0),
        }
    }
}

/// The slot of a number, a free one past the partition's.
#[tactic(auto, using(crate::proofs::Slots::reads))]
fn slot_of(slots: &[Slot], k: ThreadNo) -> Slot
    ensures { result.thread ≡ pool_get (threads_of slots.now) k }
{
    let i = k.place();
    if i < slots.len() {
        slots[i]
    } else {
        Slot::free(0)
    }
}

/// The stored priority of a number among those of a partition, 0 past the last.
#[tactic(auto, using(crate::proofs::Slots::numbers))]
pub fn stored_in(stored: &[u8], k: ThreadNo) -> u8
    ensures { result ≡ stored_of stored.now k }
{
    let i = k.place();
    if i < stored.len() { stored[i] } else { 0 }
}

/// Sets the stored priority of a number.
#[tactic(auto, using(crate::proofs::Slots::numbers))]
fn put_stored(stored: &mut [u8], k: ThreadNo, priority: u8)
    ensures { stored.new ≡ pool_set stored.old k priority }
{
    let i = k.place();
    if i < stored.len() {
        stored[i] = priority;
    }
}

/// The place of the first free slot, from 0.
fn first_free_place(slots: &[Slot]) -> Option<usize>
    ensures { result ≡ position (λ (slot : Slot). is_none slot.thread) slots.now }
{
    slots.iter().position(|slot| slot.is_free())
}

/// What an ended thread leaves at its number.
fn left_at_end(slot: Option<Thread>) -> Option<Thread>
    ensures { result ≡ option_and_then left_at_end slot }
{
    let thread = slot?;
    if thread.is_detached || thread.joiner.is_some() {
        return None;
    }
    Some(Thread {
        phase: Phase::Ended,
        ..thread
    })
}

/// What a thread leaves at its number once it is detached.
fn left_at_detach(slot: Option<Thread>) -> Option<Thread>
    ensures { result ≡ option_and_then left_at_detach slot }
{
    let thread = slot?;
    if thread.phase == Phase::Ended {
        return None;
    }
    Some(Thread {
        is_detached: true,
        ..thread
    })
}
