//! The trait of all forms.

ghost use Rattle.std.specs.Prelude.{◌≡◌, ℕ, ◌<◌, ◌≤◌, true, false, List, [], ◌∷◌, ◌++◌, length, slice_set, IsSome};
ghost use Rattle.ptk_words.specs.Pools.{pool_set, without, first_of_greatest, is_in};
ghost use Rattle.ptk_words.specs.Parts.{part_of};
ghost use Rattle.ptk_threads.specs.Table.{ThreadTable, thread_in, stored_of};
ghost use Rattle.ptk_threads.specs.Queues.{IsUnqueued};
ghost use Rattle.ptk_ready.specs.Queues.{ready_queues, waiters_of};
ghost use Rattle.ptk_ready.specs.Lines.{without_one};

use ptk_threads::Threads;
use ptk_words::{PartId, Priority, ThreadNo};

/// For each partition, the list of its threads that are ready to run (XSH 2.8.4).
pub trait Line {
    /// The list of each partition, read from the line and the slot table.
    ghost entries: { Self → ThreadTable → List (List ℕ) };

    /// What holds of the line and the slot table between calls.
    ghost is_sound: { Self → ThreadTable → Type 0 };

    /// Appends a thread that is in use, not in the line and in no queue of the slot table.
    fn push_tail(&mut self, threads: &mut Threads, p: PartId, k: ThreadNo)
        requires partition { (p < length (entries self.old threads.old)) × (p < length threads.old.threads) }
        requires in_use { IsSome (thread_in threads.old p k) }
        requires fresh { is_in k (part_of (entries self.old threads.old) p) ≡ false }
        requires sound { is_sound self.old threads.old }
        requires free { IsUnqueued k (part_of threads.old.queues p) }
        requires priority { (0 < stored_of (part_of threads.old.stored p) k) × (stored_of (part_of threads.old.stored p) k ≤ 32) }
        ensures sound { is_sound self.new threads.new }
        ensures waiters { waiters_of threads.new.queues ≡ waiters_of threads.old.queues }
        ensures line { entries self.new threads.new
            ≡ slice_set (entries self.old threads.old) p (part_of (entries self.old threads.old) p ++ k ∷ []) }
        ensures threads { threads.new.threads ≡ threads.old.threads }
        ensures stored { threads.new.stored ≡ threads.old.stored };

    /// Puts a thread that is in use, not in the line and in no queue of the slot table first.
    fn push_head(&mut self, threads: &mut Threads, p: PartId, k: ThreadNo)
        requires partition { (p < length (entries self.old threads.old)) × (p < length threads.old.threads) }
        requires in_use { IsSome (thread_in threads.old p k) }
        requires fresh { is_in k (part_of (entries self.old threads.old) p) ≡ false }
        requires sound { is_sound self.old threads.old }
        requires free { IsUnqueued k (part_of threads.old.queues p) }
        requires priority { (0 < stored_of (part_of threads.old.stored p) k) × (stored_of (part_of threads.old.stored p) k ≤ 32) }
        ensures sound { is_sound self.new threads.new }
        ensures waiters { waiters_of threads.new.queues ≡ waiters_of threads.old.queues }
        ensures line { entries self.new threads.new
            ≡ slice_set (entries self.old threads.old) p (k ∷ part_of (entries self.old threads.old) p) }
        ensures threads { threads.new.threads ≡ threads.old.threads }
        ensures stored { threads.new.stored ≡ threads.old.stored };

    /// Takes a thread out; nothing changes where it is not in the line.
    fn remove(&mut self, threads: &mut Threads, p: PartId, k: ThreadNo)
        requires partition { (p < length (entries self.old threads.old)) × (p < length threads.old.threads) }
        requires sound { is_sound self.old threads.old }
        ensures sound { is_sound self.new threads.new }
        ensures waiters { waiters_of threads.new.queues ≡ waiters_of threads.old.queues }
        ensures line { entries self.new threads.new
            ≡ slice_set (entries self.old threads.old) p (without k (part_of (entries self.old threads.old) p)) }
        ensures threads { threads.new.threads ≡ threads.old.threads }
        ensures stored { threads.new.stored ≡ threads.old.stored };

    /// The first thread of the greatest stored priority; None of an empty line. Nothing changes.
    fn first_of_greatest(&self, threads: &Threads, p: PartId) -> Option<ThreadNo>
        requires partition { (p < length (entries self.now threads.now)) × (p < length threads.now.threads) }
        requires sound { is_sound self.now threads.now }
        ensures { result
            ≡ first_of_greatest (stored_of (part_of threads.now.stored p)) (part_of (entries self.now threads.now) p) };

    /// Takes the first thread of the greatest stored priority out and returns it; None of an empty line, where nothing
    /// changes.
    fn take_first(&mut self, threads: &mut Threads, p: PartId) -> Option<ThreadNo>
        requires partition { (p < length (entries self.old threads.old)) × (p < length threads.old.threads) }
        requires sound { is_sound self.old threads.old }
        ensures first { result
            ≡ first_of_greatest (stored_of (part_of threads.old.stored p)) (part_of (entries self.old threads.old) p) }
        ensures sound { is_sound self.new threads.new }
        ensures waiters { waiters_of threads.new.queues ≡ waiters_of threads.old.queues }
        ensures line { entries self.new threads.new
            ≡ slice_set (entries self.old threads.old) p (without_one result (part_of (entries self.old threads.old) p)) }
        ensures threads { threads.new.threads ≡ threads.old.threads }
        ensures stored { threads.new.stored ≡ threads.old.stored };

    /// Whether a thread is in the line.
    fn contains(&self, threads: &Threads, p: PartId, k: ThreadNo) -> bool
        requires partition { (p < length (entries self.now threads.now)) × (p < length threads.now.threads) }
        requires sound { is_sound self.now threads.now }
        ensures { result ≡ is_in k (part_of (entries self.now threads.now) p) };

    /// Stores a thread's effective priority in the slot table; every list stays, so also the thread's place.
    fn set_priority(&mut self, threads: &mut Threads, p: PartId, k: ThreadNo, priority: Priority)
        requires partition { (p < length (entries self.old threads.old)) × (p < length threads.old.threads) }
        requires sound { is_sound self.old threads.old }
        ensures sound { is_sound self.new threads.new }
        ensures waiters { waiters_of threads.new.queues ≡ waiters_of threads.old.queues }
        ensures line { entries self.new threads.new ≡ entries self.old threads.old }
        ensures threads { threads.new.threads ≡ threads.old.threads }
        ensures stored { threads.new.stored
            ≡ slice_set threads.old.stored p (pool_set (part_of threads.old.stored p) k priority) };

    /// The lists depend on the queues of ready threads alone.
    ghost entries_same: { (line : Self) (a b : ThreadTable) → ready_queues a.queues ≡ ready_queues b.queues → entries line a ≡ entries line b };

    /// What holds depends on the stored priorities of threads in the line and the queues of ready threads alone.
    ghost sound_same: { (line : Self) (a b : ThreadTable) → ((p k : ℕ) → is_in k (part_of (entries line a) p) ≡ true → stored_of (part_of b.stored p) k ≡ stored_of (part_of a.stored p) k) → ready_queues a.queues ≡ ready_queues b.queues → is_sound line a → is_sound line b };

    /// A thread that is not in the line lies in no queue of ready threads.
    ghost apart: { (line : Self) (a : ThreadTable) (p k i : ℕ) → is_sound line a → is_in k (part_of (entries line a) p) ≡ false → i < 32 → is_in k (part_of (part_of a.queues p) i) ≡ false };
}
