//! The slot table with the line of ready threads, mutexes and condition variables, and the calls that change a thread
//! or its place in the line.

ghost use Rattle.std.specs.Prelude.{◌≡◌, ◌<◌, ◌≤◌, false, None, [], ◌∷◌, ◌++◌, length, replicate, map, slice_set, IfOk, IsSome, All, option_and_then};
ghost use Rattle.ptk_words.specs.Pools.{least_free, first_of_greatest, without, is_in};
ghost use Rattle.ptk_words.specs.Threads.{left_at_end, left_at_detach};
ghost use Rattle.ptk_words.specs.Parts.{part_of, filled};
ghost use Rattle.ptk_words_model.specs.Schedule.{woken_with};
ghost use Rattle.ptk_threads.specs.Table.{free_table, thread_in, stored_of, with_changed, with_stored, with_new, with_left, with_free};
ghost use Rattle.ptk_words_sync_invariant.specs.Conditions.{IsNoWaiter};
ghost use Rattle.ptk_ready.specs.Lines.{without_one};
ghost use Rattle.ptk_roster.specs.Rosters.{seen, AreQueuesOf};

use crate::MutexSlot;
use ptk_ready::{Line, LinkedLine, first_of_greatest};
use ptk_threads::Threads;
use ptk_words::{PartId, Parted, Priority, Thread, ThreadNo};
use std::alloc::{AllocError, Global};
use std::marker::Model;

/// The greatest magnitude of a stamp in the line.
pub const STAMP_LIMIT: u64 = 1 << 62;

/// The threads of each partition by number, with their stored effective priorities, the line of its ready threads, and
/// its mutexes and condition variables by number, each with its waiters in order of arrival.
pub struct Roster {
    pub(crate) threads: Threads,
    pub(crate) line: LinkedLine<STAMP_LIMIT>,
    pub(crate) mutexes: Parted<MutexSlot>,
    pub(crate) conditions: Parted<bool>,
}

// By hand: a function that drops a roster calls this, and its proof does not spell out the drop of each part.
impl Drop for Roster {
    fn drop(self) {
        let Roster {
            threads,
            line,
            mutexes,
            conditions,
        } = self;
    }
}

impl Model for Roster {
    ghost use Rattle.std.specs.Prelude.{◌^◌};
    ghost use Rattle.ptk_ready.specs.Partitions.{lines_by};
    ghost use Rattle.ptk_roster.specs.Rosters.{Rostered, IsRoster, seen};
    ghost use Rattle.ptk_roster.specs.Waiters.{mutexes_by, conditions_by};

    ghost Value = { Rostered };

    ghost view = { λ a. record { table = seen a.threads; lines = lines_by a.line a.threads.queues; mutexes = mutexes_by a.threads.queues a.mutexes; conditions = conditions_by a.threads.queues a.conditions } };

    ghost invariant = { λ a. IsRoster (2 ^ 62) a.line a.threads a.mutexes a.conditions };
}

impl Roster {
    /// For each of at most 8 partitions as many free slots as its count of threads, at most 32, an empty line, and as
    /// many free mutexes and condition variables as their counts. An error where memory ran out.
    pub fn build(
        alloc: Global,
        threads: &[u32],
        mutexes: &[u32],
        conditions: &[u32],
    ) -> Result<Roster, AllocError>
        requires partitions { length threads.now ≤ 8 }
        requires same { (length mutexes.now ≡ length threads.now) × (length conditions.now ≡ length threads.now) }
        requires threads { All (λ count. count ≤ 32) threads.now }
        requires mutexes { All (λ count. count ≤ 64) mutexes.now }
        requires conditions { All (λ count. count ≤ 32) conditions.now }
        ensures table { IfOk result (λ roster. roster.table ≡ seen (free_table threads.now)) }
        ensures lines { IfOk result (λ roster. roster.lines ≡ replicate (length threads.now) []) }
        ensures mutexes { IfOk result (λ roster. roster.mutexes ≡ map (filled None) mutexes.now) }
        ensures conditions { IfOk result (λ roster. roster.conditions ≡ map (filled None) conditions.now) }
    {
        let line = LinkedLine::build(alloc, threads.len())?;
        let threads = Threads::build(alloc, threads)?;
        let mutexes = Parted::build(alloc, mutexes, MutexSlot::free())?;
        let conditions = Parted::build(alloc, conditions, false)?;
        Ok(Roster {
            threads,
            line,
            mutexes,
            conditions,
        })
    }

    /// How many partitions there are; each has a line, mutexes and condition variables.
    pub fn parts(&self) -> usize
        ensures threads { result ≡ length self.now.table.threads }
        ensures lines { length self.now.lines ≡ result }
        ensures mutexes { length self.now.mutexes ≡ result }
        ensures conditions { length self.now.conditions ≡ result }
    {
        self.threads.parts()
    }

    /// The slot table, whose queues are the line's threads of each priority, and the waiters of each mutex and of each
    /// condition variable.
    pub fn threads(&self) -> &Threads
        ensures threads { result.now.threads ≡ self.now.table.threads }
        ensures stored { result.now.stored ≡ self.now.table.stored }
        ensures queues { AreQueuesOf self.now result.now.queues }
    {
        &self.threads
    }

    /// The stored effective priority of a thread, 1 to 32; at most that of any other number.
    pub fn stored_priority(&self, p: PartId, k: ThreadNo) -> u8
        requires { p < length self.now.table.threads }
        ensures value { result ≡ stored_of (part_of self.now.table.stored p) k }
        ensures in_range { result ≤ 32 }
        ensures positive { IsSome (thread_in self.now.table p k) → 0 < result }
    {
        self.threads.stored_priority(p, k)
    }

    /// A thread that is in use, not in the line and no waiter becomes the line's last.
    pub fn push_tail(&mut self, p: PartId, k: ThreadNo)
        requires partition { p < length self.old.table.threads }
        requires in_use { IsSome (thread_in self.old.table p k) }
        requires fresh { is_in k (part_of self.old.lines p) ≡ false }
        requires free { IsNoWaiter k (part_of self.old.mutexes p) (part_of self.old.conditions p) }
        ensures table { self.new.table ≡ self.old.table }
        ensures lines { self.new.lines ≡ slice_set self.old.lines p (part_of self.old.lines p ++ k ∷ []) }
        ensures mutexes { self.new.mutexes ≡ self.old.mutexes }
        ensures conditions { self.new.conditions ≡ self.old.conditions }
    {
        self.line.push_tail(&mut self.threads, p, k);
    }

    /// A thread that is in use, not in the line and no waiter becomes the line's last; it waits for nothing any more,
    /// has these values in a0 and so on, and has used no tick of its interval (XSH 2.8.4).
    #[inline(always)]
    pub fn rouse(&mut self, p: PartId, k: ThreadNo, values: &[u32])
        requires partition { p < length self.old.table.threads }
        requires in_use { IsSome (thread_in self.old.table p k) }
        requires fresh { is_in k (part_of self.old.lines p) ≡ false }
        requires free { IsNoWaiter k (part_of self.old.mutexes p) (part_of self.old.conditions p) }
        requires few { length values.now < 4 }
        ensures { self.new ≡ record self.old { table = with_changed p k (woken_with values.now) self.old.table; lines = slice_set self.old.lines p (part_of self.old.lines p ++ k ∷ []) } }
    {
        self.line.rouse(&mut self.threads, p, None, k, values);
    }

    /// A thread that is in use, not in the line and no waiter becomes the line's first.
    pub fn push_head(&mut self, p: PartId, k: ThreadNo)
        requires partition { p < length self.old.table.threads }
        requires in_use { IsSome (thread_in self.old.table p k) }
        requires fresh { is_in k (part_of self.old.lines p) ≡ false }
        requires free { IsNoWaiter k (part_of self.old.mutexes p) (part_of self.old.conditions p) }
        ensures table { self.new.table ≡ self.old.table }
        ensures lines { self.new.lines ≡ slice_set self.old.lines p (k ∷ part_of self.old.lines p) }
        ensures mutexes { self.new.mutexes ≡ self.old.mutexes }
        ensures conditions { self.new.conditions ≡ self.old.conditions }
    {
        self.line.push_head(&mut self.threads, p, k);
    }

    /// Takes a thread out of the line; nothing changes where it is not in it.
    pub fn remove(&mut self, p: PartId, k: ThreadNo)
        requires { p < length self.old.table.threads }
        ensures table { self.new.table ≡ self.old.table }
        ensures lines { self.new.lines ≡ slice_set self.old.lines p (without k (part_of self.old.lines p)) }
        ensures mutexes { self.new.mutexes ≡ self.old.mutexes }
        ensures conditions { self.new.conditions ≡ self.old.conditions }
    {
        self.line.remove(&mut self.threads, p, k);
    }

    /// The line's first thread of the greatest stored priority; None of an empty line.
    pub fn first_of_greatest(&self, p: PartId) -> Option<ThreadNo>
        requires { p < length self.now.table.threads }
        ensures { result ≡ first_of_greatest (stored_of (part_of self.now.table.stored p)) (part_of self.now.lines p) }
    {
        self.line.first_of_greatest(&self.threads, p)
    }

    /// Takes the line's first thread of the greatest stored priority out and returns it; None of an empty line, where
    /// nothing changes.
    pub fn take_first(&mut self, p: PartId) -> Option<ThreadNo>
        requires { p < length self.old.table.threads }
        ensures told { result ≡ first_of_greatest (stored_of (part_of self.old.table.stored p)) (part_of self.old.lines p) }
        ensures moved { self.new ≡ record self.old { lines = slice_set self.old.lines p (without_one result (part_of self.old.lines p)) } }
    {
        self.line.take_first(&mut self.threads, p)
    }

    /// The first of these threads of the greatest stored priority; None of none.
    pub fn first_among(&self, p: PartId, numbers: &[ThreadNo]) -> Option<ThreadNo>
        requires { p < length self.now.table.threads }
        ensures { result ≡ first_of_greatest (stored_of (part_of self.now.table.stored p)) numbers.now }
    {
        first_of_greatest(&self.threads, p, numbers)
    }

    /// Whether a thread is in the line.
    pub fn contains(&self, p: PartId, k: ThreadNo) -> bool
        requires { p < length self.now.table.threads }
        ensures { result ≡ is_in k (part_of self.now.lines p) }
    {
        self.line.contains(&self.threads, p, k)
    }

    /// Stores a number's effective priority; a thread of the line keeps its place.
    pub fn set_priority(&mut self, p: PartId, k: ThreadNo, priority: Priority)
        requires { p < length self.old.table.threads }
        ensures { self.new ≡ record self.old { table = with_stored p k priority self.old.table } }
    {
        let _level = priority.level();
        self.line.set_priority(&mut self.threads, p, k, priority);
    }

    /// A new thread at the least free number, with its assigned priority as the stored one; None, and nothing changes,
    /// where no number is free (pthread_create).
    pub fn create(&mut self, p: PartId, thread: Thread) -> Option<ThreadNo>
        requires { p < length self.old.table.threads }
        ensures number { result ≡ least_free (part_of self.old.table.threads p) }
        ensures table { self.new.table ≡ with_new p thread self.old.table }
        ensures lines { self.new.lines ≡ self.old.lines }
        ensures mutexes { self.new.mutexes ≡ self.old.mutexes }
        ensures conditions { self.new.conditions ≡ self.old.conditions }
    {
        let priority = thread.priority;
        let _level = priority.level();
        let _stored = self.threads.stored(p);
        self.threads.create(p, thread)
    }

    /// A thread that is not in the line has ended: its number and result stay until it is joined or detached, and its
    /// number is free at once where it is detached or has a joiner (pthread_exit).
    pub fn end(&mut self, p: PartId, k: ThreadNo)
        requires partition { p < length self.old.table.threads }
        requires out { is_in k (part_of self.old.lines p) ≡ false }
        ensures table { self.new.table ≡ with_left p k left_at_end self.old.table }
        ensures lines { self.new.lines ≡ self.old.lines }
        ensures mutexes { self.new.mutexes ≡ self.old.mutexes }
        ensures conditions { self.new.conditions ≡ self.old.conditions }
    {
        self.threads.end(p, k);
    }

    /// An ended thread's number is free, where it is not in the line; another thread is detached (pthread_detach).
    pub fn detach(&mut self, p: PartId, k: ThreadNo)
        requires partition { p < length self.old.table.threads }
        requires out { option_and_then left_at_detach (thread_in self.old.table p k) ≡ None → is_in k (part_of self.old.lines p) ≡ false }
        ensures table { self.new.table ≡ with_left p k left_at_detach self.old.table }
        ensures lines { self.new.lines ≡ self.old.lines }
        ensures mutexes { self.new.mutexes ≡ self.old.mutexes }
        ensures conditions { self.new.conditions ≡ self.old.conditions }
    {
        self.threads.detach(p, k);
    }

    /// The number of a thread that is not in the line is free (pthread_join).
    pub fn free(&mut self, p: PartId, k: ThreadNo)
        requires partition { p < length self.old.table.threads }
        requires out { is_in k (part_of self.old.lines p) ≡ false }
        ensures table { self.new.table ≡ with_free p k self.old.table }
        ensures lines { self.new.lines ≡ self.old.lines }
        ensures mutexes { self.new.mutexes ≡ self.old.mutexes }
        ensures conditions { self.new.conditions ≡ self.old.conditions }
    {
        self.threads.free(p, k);
    }
}
