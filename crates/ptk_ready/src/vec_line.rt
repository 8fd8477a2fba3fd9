//! The form with a list of its own for each partition.

ghost use Rattle.std.specs.Prelude.{◌≡◌, ℕ, ◌<◌, false, List, [], ◌∷◌, ◌++◌, length, slice_set, IfOk, IsSome, replicate};
ghost use Rattle.ptk_words.specs.Pools.{without, first_of_greatest, is_in};
ghost use Rattle.ptk_words.specs.Parts.{part_of};
ghost use Rattle.ptk_threads.specs.Table.{free_table, thread_in, stored_of, with_stored};
ghost use Rattle.ptk_ready.specs.Queues.{AreUnused};
ghost use Rattle.ptk_ready.specs.Lines.{without_one};

use crate::choice::first_of_greatest;
use crate::line::Line;
use ptk_threads::Threads;
use ptk_words::{PartId, Priority, Queue, ThreadNo};
use std::alloc::{AllocError, Global};
use std::marker::Model;

/// A list for each partition, each with room for all its threads.
#[derive(Drop)]
pub struct VecLine {
    lines: Vec<Queue>,
}

impl Model for VecLine {
    ghost use Rattle.std.specs.Prelude.{ℕ, List};

    ghost Value = { List (List ℕ) };

    ghost view = { λ a. a.lines.items };
}

impl VecLine {
    /// An empty line for each of this many partitions, sound over a slot table as it is built. An error where memory
    /// ran out.
    #[tactic(auto, using(crate::proofs::Unused::unused_built))]
    pub fn build(alloc: Global, parts: usize) -> Result<VecLine, AllocError>
        ensures empty { IfOk result (λ line. line ≡ replicate parts []) }
        ensures sound { (counts : List ℕ) → AreUnused (free_table counts).queues }
    {
        let mut lines = Vec::new(alloc);
        for i in 0..parts {
            lines.push(Queue::new(alloc)?)?;
        }
        Ok(VecLine { lines })
    }

    /// How many partitions there are.
    pub fn parts(&self) -> usize
        ensures { result ≡ length self.now }
    {
        self.lines.len()
    }
}

impl Line for VecLine {
    ghost use Rattle.ptk_ready.specs.Queues.{AreUnused, unused_same, unused_apart};
    ghost use Rattle.std.specs.Prelude.{refl};

    ghost entries = { λ line table. line };

    ghost is_sound = { λ line table. AreUnused table.queues };

    ghost entries_same = { λ line a b same. refl };

    ghost sound_same = { λ line a b stored same sound. unused_same a.queues b.queues same sound };

    ghost apart = { λ line a p k i sound out lt. unused_apart a.queues p k i sound lt };

    /// Appends a thread that is in use and not in the line; its stored priority and its queue are not read.
    fn push_tail(&mut self, threads: &mut Threads, p: PartId, k: ThreadNo)
        requires partition { (p < length self.old) × (p < length threads.old.threads) }
        requires in_use { IsSome (thread_in threads.old p k) }
        requires fresh { is_in k (part_of self.old p) ≡ false }
        requires sound { AreUnused threads.old.queues }
        ensures sound { AreUnused threads.new.queues }
        ensures line { self.new ≡ slice_set self.old p (part_of self.old p ++ k ∷ []) }
        ensures same { threads.new ≡ threads.old }
    {
        let line = &mut self.lines[p.index()];
        line.push_tail(k);
    }

    /// Puts a thread that is in use and not in the line first; its stored priority and its queue are not read.
    fn push_head(&mut self, threads: &mut Threads, p: PartId, k: ThreadNo)
        requires partition { (p < length self.old) × (p < length threads.old.threads) }
        requires in_use { IsSome (thread_in threads.old p k) }
        requires fresh { is_in k (part_of self.old p) ≡ false }
        requires sound { AreUnused threads.old.queues }
        ensures sound { AreUnused threads.new.queues }
        ensures line { self.new ≡ slice_set self.old p (k ∷ part_of self.old p) }
        ensures same { threads.new ≡ threads.old }
    {
        let line = &mut self.lines[p.index()];
        line.push_head(k);
    }

    /// Takes a thread out; nothing changes where it is not in the line.
    fn remove(&mut self, threads: &mut Threads, p: PartId, k: ThreadNo)
        requires partition { (p < length self.old) × (p < length threads.old.threads) }
        requires sound { AreUnused threads.old.queues }
        ensures sound { AreUnused threads.new.queues }
        ensures line { self.new ≡ slice_set self.old p (without k (part_of self.old p)) }
        ensures same { threads.new ≡ threads.old }
    {
        let line = &mut self.lines[p.index()];
        line.remove(k);
    }

    fn first_of_greatest(&self, threads: &Threads, p: PartId) -> Option<ThreadNo> {
        let line = &self.lines[p.index()];
        first_of_greatest(threads, p, line.threads())
    }

    /// Takes the first thread of the greatest stored priority out and returns it; None of an empty line, where nothing
    /// changes.
    fn take_first(&mut self, threads: &mut Threads, p: PartId) -> Option<ThreadNo>
        requires partition { (p < length self.old) × (p < length threads.old.threads) }
        requires sound { AreUnused threads.old.queues }
        ensures first { result ≡ first_of_greatest (stored_of (part_of threads.old.stored p)) (part_of self.old p) }
        ensures sound { AreUnused threads.new.queues }
        ensures line { self.new ≡ slice_set self.old p (without_one result (part_of self.old p)) }
        ensures same { threads.new ≡ threads.old }
    {
        let line = &mut self.lines[p.index()];
        let first = first_of_greatest(threads, p, line.threads());
        if let Some(k) = first {
            line.remove(k);
        }
        first
    }

    fn contains(&self, threads: &Threads, p: PartId, k: ThreadNo) -> bool {
        let line = &self.lines[p.index()];
        line.contains(k)
    }

    /// Stores a thread's effective priority in the slot table; the lists stay.
    fn set_priority(&mut self, threads: &mut Threads, p: PartId, k: ThreadNo, priority: Priority)
        requires partition { (p < length self.old) × (p < length threads.old.threads) }
        requires sound { AreUnused threads.old.queues }
        ensures sound { AreUnused threads.new.queues }
        ensures line { self.new ≡ self.old }
        ensures table { threads.new ≡ with_stored p k priority threads.old }
    {
        threads.set_stored_priority(p, k, priority.level());
    }
}
