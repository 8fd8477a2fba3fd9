//! The deadlines of the threads' waits, which are kept where a wait is set or ends.

ghost use Rattle.std.specs.Prelude.{◌≡◌, ℕ, ◌<◌, length, map, option_map, slice_set};
ghost use Rattle.ptk_words.specs.Pools.{pool_get, pool_set};
ghost use Rattle.ptk_words.specs.Parts.{part_of};
ghost use Rattle.ptk_clock.specs.Mutex.{wait_of};
ghost use Rattle.ptk_words.specs.Threads.{deadline_of_wait};
ghost use Rattle.ptk_clock.specs.Expiries.{next_expiry};
ghost use Rattle.ptk_clock.specs.BySlot.{deadlines_from};
ghost use Rattle.ptk_clock.specs.ByThread.{first_slot, least_deadline};
ghost use Rattle.ptk_threads.specs.Links.{threads_of};
ghost use Rattle.ptk_threads.specs.Timed.{deadlines_in, with_deadline};

use crate::Slot;
use crate::change::DeadlineChange;
use crate::references::thread_among;
use crate::slot_table::SlotTable;
use crate::threads::Threads;
use ptk_clock::{SharedDeadlines, ThreadDeadlines};
use ptk_words::{PartId, ThreadNo, Tick};

impl Threads {
    /// The queue of all partitions' deadlines, by slot: a partition's threads have the slots behind those of the
    /// partitions before it, in order of number.
    pub fn deadlines(&self) -> &SharedDeadlines
        ensures { (p : ℕ) → p < length self.now.threads
            → deadlines_in (part_of self.now.threads p) ≡ deadlines_from (first_slot p (map deadlines_in self.now.threads)) (length (part_of self.now.threads p)) result.now.pairs }
    {
        self.deadlines.shared()
    }

    /// The least deadline of the waits of a partition's threads; None where no wait has one.
    pub fn next_deadline(&self, p: PartId) -> Option<Tick>
        requires { p < length self.now.threads }
        ensures { result ≡ least_deadline (deadlines_in (part_of self.now.threads p)) }
    {
        self.deadlines.next(p)
    }

    /// The thread whose deadline is the first that is at most now, by deadline and then thread number; None where none
    /// is due (clock_nanosleep, pthread_mutex_timedlock, pthread_cond_timedwait).
    pub fn first_due(&self, p: PartId, now: Tick) -> Option<ThreadNo>
        requires { p < length self.now.threads }
        ensures { result ≡ option_map (λ a. a.thread) (next_expiry now (deadlines_in (part_of self.now.threads p))) }
    {
        self.deadlines.due(p, now)
    }
}

/// The deadline that is kept for a thread becomes this, or stays.
#[inline(always)]
pub(crate) fn follow_change(
    deadlines: &mut ThreadDeadlines,
    p: PartId,
    k: ThreadNo,
    deadline: DeadlineChange,
)
    requires { p < length deadlines.old }
    ensures { deadlines.new ≡ with_deadline p k deadline deadlines.old }
{
    if let DeadlineChange::Becomes(deadline) = deadline {
        deadlines.set(p, k, deadline);
    }
}

/// The kept deadline of a thread is made that of its wait; of a free number none is kept.
#[inline(never)]
pub(crate) fn follow(deadlines: &mut ThreadDeadlines, slots: &SlotTable, p: PartId, k: ThreadNo)
    requires deadlines { p < length deadlines.old }
    requires threads { p < length slots.now.threads }
    ensures { deadlines.new ≡ slice_set deadlines.old p (pool_set (part_of deadlines.old p) k (deadline_of_wait (wait_of (pool_get (part_of slots.now.threads p) k)))) }
{
    deadlines.set(p, k, deadline_at(slots.part(p), k));
}

/// The deadline of the wait of a partition's thread; None of a free number.
fn deadline_at(slots: &[Slot], k: ThreadNo) -> Option<Tick>
    ensures { result ≡ deadline_of_wait (wait_of (pool_get (threads_of slots.now) k)) }
{
    thread_among(slots, k)?.wait?.deadline()
}
