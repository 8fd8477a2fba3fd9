//! The deadlines of all partitions' threads, by thread number.

ghost use Rattle.std.specs.Prelude.{◌≡◌, ℕ, ◌+◌, ◌-◌, ◌<◌, ◌≤◌, List, [], length, map, All, IfOk, Some, None, option_map, slice_get, slice_set, suc};
ghost use Rattle.ptk_words.specs.Pools.{pool_set};
ghost use Rattle.ptk_words.specs.Parts.{part_of, filled};
ghost use Rattle.ptk_words_sync_invariant.specs.Expiries.{next_expiry};
ghost use Rattle.ptk_clock.specs.BySlot.{deadlines_from};
ghost use Rattle.ptk_clock.specs.ByThread.{least_deadline, is_reached, first_slot, laid_from, end_from, AreLaid, AreThreadDeadlines, IsElsewhereSame, with_least};

use crate::deadlines::Deadlines;
use crate::shared::SharedDeadlines;
use ptk_words::{PartId, SlotNo, ThreadNo, Tick};
use std::alloc::{AllocError, Global};
use std::marker::Model;

/// The deadlines of all partitions' threads. A partition's thread k has the slot k - 1 behind the partition's first one
/// in one queue, and each partition's least deadline is kept beside the queue.
#[derive(Drop)]
pub struct ThreadDeadlines {
    queue: SharedDeadlines,
    partitions: Vec<PartitionSlots>,
}

/// Where a partition's slots lie, and the least of their deadlines.
#[derive(Clone, Copy)]
struct PartitionSlots {
    /// The first of them.
    first: u16,
    /// How many there are.
    count: u8,
    /// Their least deadline, None where none has one.
    next: Option<Tick>,
}

impl Model for ThreadDeadlines {
    ghost use Rattle.std.specs.Prelude.{List, Option};
    ghost use Rattle.ptk_words.specs.Names.{Tick};
    ghost use Rattle.ptk_clock.specs.ByThread.{deadlines_by_partition, AreThreadDeadlines};

    ghost Value = { List (List (Option Tick)) };

    ghost view = { λ a. deadlines_by_partition a.partitions.items a.queue.pairs };

    ghost invariant = { λ a. AreThreadDeadlines a.queue.slots a.queue.pairs a.partitions.items };
}

impl ThreadDeadlines {
    /// This many threads of each partition, none with a deadline. An error where memory ran out; no other call takes
    /// memory.
    pub fn build(alloc: Global, counts: &[u32]) -> Result<ThreadDeadlines, AllocError>
        requires partitions { length counts.now ≤ 8 }
        requires threads { All (λ count. count ≤ 32) counts.now }
        ensures { IfOk result (λ deadlines. deadlines ≡ map (filled None) counts.now) }
    {
        let (partitions, slots) = laid(alloc, counts)?;
        let queue = SharedDeadlines::new(alloc, slots)?;
        Ok(ThreadDeadlines { queue, partitions })
    }

    /// How many partitions there are.
    pub fn parts(&self) -> usize
        ensures { result ≡ length self.now }
    {
        self.partitions.len()
    }

    /// The queue of all slots, from which each partition's deadlines are read.
    pub fn shared(&self) -> &SharedDeadlines
        ensures { (p : ℕ) → p < length self.now → part_of self.now p ≡ deadlines_from (first_slot p self.now) (length (part_of self.now p)) result.now.pairs }
    {
        &self.queue
    }

    /// Sets or ends the deadline of a thread; nothing changes past the partition's last thread. Where no thread of the
    /// partition has a deadline, there is none to end, and the queue is not gone through.
    #[inline(always)]
    pub fn set(&mut self, p: PartId, t: ThreadNo, deadline: Option<Tick>)
        requires { p < length self.old }
        ensures { self.new ≡ slice_set self.old p (pool_set (part_of self.old p) t deadline) }
    {
        if deadline.is_some() || self.next(p).is_some() {
            self.put(p, t, deadline);
        }
    }

    /// The same, by a pass over the queue where the partition has deadlines.
    #[inline(never)]
    fn put(&mut self, p: PartId, t: ThreadNo, deadline: Option<Tick>)
        requires { p < length self.old }
        ensures { self.new ≡ slice_set self.old p (pool_set (part_of self.old p) t deadline) }
    {
        let slots = slots_at(&self.partitions, p);
        match deadline {
            Some(deadline) if slots.next.is_none() => {
                put_only(&mut self.queue, &mut self.partitions, p, slots, t, deadline);
            }
            _ => {
                set_in(&mut self.queue, slots, t, deadline);
                keep_least(&self.queue, &mut self.partitions, p);
            }
        }
    }

    /// The least deadline of a partition's threads, None where none has one.
    pub fn next(&self, p: PartId) -> Option<Tick>
        requires { p < length self.now }
        ensures { result ≡ least_deadline (part_of self.now p) }
    {
        let slots = slots_at(&self.partitions, p);
        slots.next
    }

    /// Whose deadline is the first that is at most now, by deadline and then thread number; None where none is due.
    /// Where the least is not reached, no other is looked at.
    pub fn due(&self, p: PartId, now: Tick) -> Option<ThreadNo>
        requires { p < length self.now }
        ensures { result ≡ option_map (λ a. a.thread) (next_expiry now (part_of self.now p)) }
    {
        let slots = slots_at(&self.partitions, p);
        if !is_reached(slots.next, now) {
            return None;
        }
        due_in(&self.queue, slots, now)
    }
}

/// Slots for this many threads of each partition, one partition's behind the other's, and how many slots there are. An
/// error where memory ran out.
fn laid(alloc: Global, counts: &[u32]) -> Result<(Vec<PartitionSlots>, usize), AllocError>
    requires partitions { length counts.now ≤ 8 }
    requires threads { All (λ count. count ≤ 32) counts.now }
    ensures { IfOk result (λ laid. (laid.0.items ≡ laid_from 0 counts.now) × (laid.1 ≡ end_from 0 counts.now)) }
{
    let mut partitions = Vec::new(alloc);
    let mut first = 0;
    for count in counts {
        let count = *count as u8;
        partitions.push(PartitionSlots {
            first,
            count,
            next: None,
        })?;
        first += u16::from(count);
    }
    Ok((partitions, first as usize))
}

/// The slots of a partition.
fn slots_at(partitions: &[PartitionSlots], p: PartId) -> PartitionSlots
    requires { p < length partitions.now }
    ensures { slice_get partitions.now p ≡ Some result }
{
    partitions[p.index()]
}

/// Sets the deadline of one of a partition's slots, none of which has one, and keeps it as the least; nothing changes
/// past the last.
fn put_only(
    queue: &mut SharedDeadlines,
    partitions: &mut [PartitionSlots],
    p: PartId,
    slots: PartitionSlots,
    t: ThreadNo,
    deadline: Tick,
)
    requires kept { AreThreadDeadlines queue.old.slots queue.old.pairs partitions.old }
    requires read { slice_get partitions.old p ≡ Some slots }
    requires none { slots.next ≡ None }
    ensures own { deadlines_from slots.first slots.count queue.new.pairs ≡ pool_set (deadlines_from slots.first slots.count queue.old.pairs) t (Some deadline) }
    ensures elsewhere { IsElsewhereSame slots.first slots.count queue.old.pairs queue.new.pairs }
    ensures slots { queue.new.slots ≡ queue.old.slots }
    ensures least { partitions.new ≡ with_least p queue.new.pairs partitions.old }
{
    if t.number() > slots.count {
        return;
    }
    let slot = SlotNo::new(slots.first + u16::from(t.number() - 1));
    queue.add(deadline, slot);
    let kept = &mut partitions[p.index()];
    kept.next = Some(deadline);
}

/// Makes the least deadline of a partition's slots again, after a change of its pairs.
fn keep_least(queue: &SharedDeadlines, partitions: &mut [PartitionSlots], p: PartId)
    requires partition { p < length partitions.old }
    requires few { queue.now.slots ≤ 256 }
    requires laid { AreLaid 0 queue.now.slots partitions.old }
    ensures { partitions.new ≡ with_least p queue.now.pairs partitions.old }
{
    let slots = slots_at(partitions, p);
    let kept = &mut partitions[p.index()];
    kept.next = least_in(queue, slots);
}

/// The least deadline of a partition's slots.
fn least_in(queue: &SharedDeadlines, slots: PartitionSlots) -> Option<Tick>
    requires { slots.first + slots.count ≤ 256 }
    ensures { result ≡ least_deadline (deadlines_from slots.first slots.count queue.now.pairs) }
{
    if slots.count == 0 {
        return None;
    }
    queue.least(slots.first(), slots.last())
}

/// Sets or ends the deadline of one of a partition's slots; nothing changes past the last.
fn set_in(queue: &mut SharedDeadlines, slots: PartitionSlots, t: ThreadNo, deadline: Option<Tick>)
    requires within { slots.first + slots.count ≤ queue.old.slots }
    requires few { queue.old.slots ≤ 256 }
    ensures own { deadlines_from slots.first slots.count queue.new.pairs ≡ pool_set (deadlines_from slots.first slots.count queue.old.pairs) t deadline }
    ensures elsewhere { IsElsewhereSame slots.first slots.count queue.old.pairs queue.new.pairs }
    ensures slots { queue.new.slots ≡ queue.old.slots }
{
    if t.number() > slots.count {
        return;
    }
    let slot = SlotNo::new(slots.first + u16::from(t.number() - 1));
    queue.remove(slot);
    if let Some(deadline) = deadline {
        queue.add(deadline, slot);
    }
}

/// Whose deadline is the first due one of a partition's slots; None where none is due.
fn due_in(queue: &SharedDeadlines, slots: PartitionSlots, now: Tick) -> Option<ThreadNo>
    requires within { slots.first + slots.count ≤ 256 }
    requires threads { slots.count ≤ 32 }
    ensures { result ≡ option_map (λ a. a.thread) (next_expiry now (deadlines_from slots.first slots.count queue.now.pairs)) }
{
    if slots.count == 0 {
        return None;
    }
    let (_, slot) = queue.due(slots.first(), slots.last(), now)?;
    Some(slots.thread_of(slot))
}

impl PartitionSlots {
    /// The first of the slots.
    fn first(&self) -> SlotNo
        ensures { result ≡ self.now.first }
    {
        SlotNo::new(self.first)
    }

    /// The last of the slots, of which there is one.
    fn last(&self) -> SlotNo
        requires some { 0 < self.now.count }
        requires few { self.now.first + self.now.count ≤ 256 }
        ensures { result + 1 ≡ self.now.first + self.now.count }
    {
        SlotNo::new(self.first + u16::from(self.count) - 1)
    }

    /// The thread of one of the slots.
    fn thread_of(&self, slot: SlotNo) -> ThreadNo
        requires low { self.now.first ≤ slot }
        requires high { slot < self.now.first + self.now.count }
        requires threads { self.now.count ≤ 32 }
        ensures { result ≡ suc (slot - self.now.first) }
    {
        let before = slot.index() - self.first as usize;
        ThreadNo::new(before as u8 + 1)
    }
}

/// Whether a deadline is reached; one that there is not never is.
fn is_reached(deadline: Option<Tick>, now: Tick) -> bool
    ensures { result ≡ is_reached now deadline }
{
    match deadline {
        Some(deadline) => deadline.ticks() <= now.ticks(),
        None => false,
    }
}
