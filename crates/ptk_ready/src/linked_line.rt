//! The form with queues that are linked through the slot table.

ghost use Rattle.std.specs.Prelude.{◌≡◌, ◌<◌, ◌≤◌, ◌^◌, false, [], ◌∷◌, ◌++◌, length, IfOk, IfSome, IsSome, replicate, slice_set};
ghost use Rattle.ptk_words.specs.Pools.{is_in};
ghost use Rattle.ptk_words.specs.Parts.{part_of};
ghost use Rattle.ptk_threads.specs.Table.{ThreadTable, thread_in, stored_of, with_changed, with_queues};
ghost use Rattle.ptk_threads.specs.Queues.{IsUnqueued};
ghost use Rattle.ptk_threads.specs.Links.{place_of};
ghost use Rattle.ptk_threads.specs.Schedule.{woken_with};
ghost use Rattle.ptk_ready.specs.Queues.{AreUnused, waiters_of, with_out_of};
ghost use Rattle.ptk_ready.specs.Lines.{with_refiled};
ghost use Rattle.ptk_ready.specs.Partitions.{lines_by, AreFiled};

use crate::entries::LinkedEntries;
use crate::line::Line;
use ptk_threads::{QueueName, Threads, Woken};
use ptk_words::{PartId, Priority, ThreadNo};
use std::alloc::{AllocError, Global};
use std::marker::Model;

/// For each partition 32 queues by effective priority, linked through its slots, with stamps of magnitude `LIMIT` at
/// most; where one would pass it, the partition's ready threads are numbered anew from 0 in the line's order.
#[derive(Drop)]
pub struct LinkedLine<const LIMIT: u64> {
    entries: Vec<LinkedEntries<LIMIT>>,
}

impl<const LIMIT: u64> Model for LinkedLine<LIMIT> {
    ghost use Rattle.std.specs.Prelude.{◌≤◌, ◌^◌, List};
    ghost use Rattle.ptk_ready.specs.declared.entries.LinkedEntries.{LinkedEntries as Entries};

    ghost Value = { List (Entries LIMIT) };

    ghost view = { λ a. a.entries.items };

    ghost invariant = { λ a. (64 ≤ LIMIT) × (LIMIT ≤ 2 ^ 62) };
}

impl<const LIMIT: u64> LinkedLine<LIMIT> {
    /// An empty line for each of this many partitions, sound over a slot table in whose queues no thread is ready. An
    /// error where memory ran out.
    pub fn build(alloc: Global, parts: usize) -> Result<LinkedLine<LIMIT>, AllocError>
        requires limit { (64 ≤ LIMIT) × (LIMIT ≤ 2 ^ 62) }
        ensures empty { IfOk result (λ line. (table : ThreadTable) → length table.queues ≡ parts → AreUnused table.queues
            → lines_by line table.queues ≡ replicate parts []) }
        ensures sound { IfOk result (λ line. (table : ThreadTable) → length table.queues ≡ parts → AreUnused table.queues
            → AreFiled LIMIT line table) }
    {
        let entries = vec![in alloc; LinkedEntries::new(); parts]?;
        Ok(LinkedLine { entries })
    }

    /// How many partitions there are.
    pub fn parts(&self) -> usize
        ensures { result ≡ length self.now }
    {
        self.entries.len()
    }

    /// A thread, which is in use, not in the line, and lies in no queue but this one of waiters, if one is named,
    /// leaves it and becomes the last of the line; it waits for nothing any more, has these values in a0 and so on,
    /// and has used no tick of its interval (XSH 2.8.4).
    #[inline(always)]
    pub fn rouse(
        &mut self,
        threads: &mut Threads,
        p: PartId,
        from: Option<QueueName>,
        k: ThreadNo,
        values: &[u32],
    )
        requires partition { (p < length (lines_by self.old threads.old.queues)) × (p < length threads.old.threads) }
        requires waiters { IfSome from (λ name. 32 ≤ place_of name) }
        requires in_use { IsSome (thread_in threads.old p k) }
        requires fresh { is_in k (part_of (lines_by self.old threads.old.queues) p) ≡ false }
        requires sound { AreFiled LIMIT self.old threads.old }
        requires free { IsUnqueued k (with_out_of from k (part_of threads.old.queues p)) }
        requires priority { (0 < stored_of (part_of threads.old.stored p) k) × (stored_of (part_of threads.old.stored p) k ≤ 32) }
        requires few { length values.now < 4 }
        ensures sound { AreFiled LIMIT self.new threads.new }
        ensures waiters { waiters_of threads.new.queues ≡ waiters_of (with_queues p (with_out_of from k) threads.old).queues }
        ensures line { lines_by self.new threads.new.queues
            ≡ slice_set (lines_by self.old threads.old.queues) p (part_of (lines_by self.old threads.old.queues) p ++ k ∷ []) }
        ensures threads { threads.new.threads ≡ (with_changed p k (woken_with values.now) threads.old).threads }
        ensures stored { threads.new.stored ≡ threads.old.stored }
    {
        let part = threads.linked(p);
        let entries = &mut self.entries[p.index()];
        let name = entries.push_tail(part.slots, part.ends, threads.stored(p), k);
        let change = Woken { values };
        match from {
            Some(from) => threads.pass_updated(p, from, name, k, &change),
            None => threads.append_updated(p, name, k, &change),
        }
    }
}

impl<const LIMIT: u64> Line for LinkedLine<LIMIT> {
    ghost use Rattle.ptk_ready.specs.Partitions.{lines_by, AreFiled};
    ghost use Rattle.ptk_ready.specs.Laws.{lines_same, filed_same, filed_apart};

    ghost entries = { λ line table. lines_by line table.queues };

    ghost is_sound = { λ line table. AreFiled LIMIT line table };

    ghost entries_same = { λ line a b same. lines_same line a.queues b.queues same };

    ghost sound_same = { λ line a b stored same sound. filed_same LIMIT line a b stored same sound };

    ghost apart = { λ line a p k i sound out lt. filed_apart LIMIT line a p k i sound out lt };

    fn push_tail(&mut self, threads: &mut Threads, p: PartId, k: ThreadNo) {
        let part = threads.linked(p);
        let entries = &mut self.entries[p.index()];
        let name = entries.push_tail(part.slots, part.ends, threads.stored(p), k);
        threads.append(p, name, k);
    }

    fn push_head(&mut self, threads: &mut Threads, p: PartId, k: ThreadNo) {
        let part = threads.linked(p);
        let entries = &mut self.entries[p.index()];
        let name = entries.push_head(part.slots, part.ends, threads.stored(p), k);
        threads.prepend(p, name, k);
    }

    fn remove(&mut self, threads: &mut Threads, p: PartId, k: ThreadNo) {
        let part = threads.linked(p);
        let entries = &mut self.entries[p.index()];
        if !entries.contains(part.slots, part.ends, k) {
            return;
        }
        entries.remove(part.slots, part.ends, threads.stored(p), k);
        threads.take(p, k);
    }

    fn first_of_greatest(&self, threads: &Threads, p: PartId) -> Option<ThreadNo> {
        let part = threads.linked(p);
        let entries = &self.entries[p.index()];
        entries.first_of_greatest(part.slots, part.ends, threads.stored(p))
    }

    #[inline(always)]
    fn take_first(&mut self, threads: &mut Threads, p: PartId) -> Option<ThreadNo> {
        let entries = &mut self.entries[p.index()];
        let Some(priority) = entries.greatest_priority() else {
            return None;
        };
        let Some(first) = threads.take_first(p, QueueName::Ready(priority)) else {
            return None;
        };
        entries.first_left(priority, first.is_alone);
        Some(first.thread)
    }

    fn contains(&self, threads: &Threads, p: PartId, k: ThreadNo) -> bool {
        let part = threads.linked(p);
        let entries = &self.entries[p.index()];
        entries.contains(part.slots, part.ends, k)
    }

    #[inline(always)]
    fn set_priority(&mut self, threads: &mut Threads, p: PartId, k: ThreadNo, priority: Priority) {
        let part = threads.linked(p);
        let entries = &mut self.entries[p.index()];
        if !entries.contains(part.slots, part.ends, k) {
            threads.set_stored_priority(p, k, priority.level());
            return;
        }
        let before = entries.refile(part.slots, part.ends, threads.stored(p), k, priority);
        threads.set_stored_priority(p, k, priority.level());
        refile(threads, p, k, before, priority);
    }
}

/// Takes a thread out of its queue and puts it before another one, or last into that of a priority's ready threads.
#[inline(never)]
fn refile(
    threads: &mut Threads,
    p: PartId,
    k: ThreadNo,
    before: Option<ThreadNo>,
    priority: Priority,
)
    requires partition { (p < length threads.old.threads) × (p < length threads.old.queues) }
    requires slot { k ≤ length (part_of threads.old.threads p) }
    ensures { threads.new ≡ with_queues p (with_refiled before priority k) threads.old }
{
    threads.take(p, k);
    match before {
        Some(before) => threads.insert(p, k, before),
        None => threads.append(p, QueueName::Ready(priority), k),
    }
}
