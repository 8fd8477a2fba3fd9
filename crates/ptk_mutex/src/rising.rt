//! The moves after which priorities only rise: each stores what its walk along the chain raises, and returns how many
//! stored priorities that read.

ghost use Rattle.std.specs.Prelude.{◌≡◌, ◌≤◌, ◌+◌, ◌<◌, Some, IsSome};
ghost use Rattle.ptk_words.specs.Pools.{pool_get};
ghost use Rattle.ptk_words.specs.declared.TheConstants.{THREAD_LIMIT};
ghost use Rattle.ptk_words.specs.Parts.{part_of};
ghost use Rattle.ptk_words.specs.Threads.{mutex_of_wait};
ghost use Rattle.ptk_words_model.specs.Mutex.{after_take, after_count, after_wait, after_move};
ghost use Rattle.ptk_words_sync_invariant.specs.Conditions.{IsNoWaiter};
ghost use Rattle.ptk_threads.specs.Table.{thread_in};
ghost use Rattle.ptk_roster.specs.declared.slot.Change.TheVariants.{CountUp};
ghost use Rattle.ptk_mutex.specs.Visits.{IsVisited};
ghost use Rattle.ptk_mutex.specs.Tables.{locks_at, put_locks, MayWait, AreReady};
ghost use Rattle.ptk_mutex.specs.Rises.{IsFree, MayTake};

use crate::rise::{Rise, raise, rise_behind};
use ptk_roster::{Change, Roster, inheritor_of};
use ptk_words::{MutexNo, PartId, ThreadNo, Wait};
use ptk_words_model::LockMove;

/// A thread makes a move; the chain that it raises is stored.
#[inline(always)]
#[tactic(auto, using(crate::proofs::Visits::unvisited))]
pub(crate) fn make(
    roster: &mut Roster,
    p: PartId,
    t: ThreadNo,
    m: MutexNo,
    wait: Wait,
    made: LockMove,
) -> u32
    requires ready { AreReady p roster.old }
    requires caller { MayWait (locks_at p roster.old) t }
    requires free { IsNoWaiter t (part_of roster.old.mutexes p) (part_of roster.old.conditions p) }
    requires named { mutex_of_wait (Some wait) ≡ Some m }
    requires takes { MayTake made (pool_get (part_of roster.old.mutexes p) m) }
    ensures roster { roster.new ≡ put_locks p (after_move made t m wait (locks_at p roster.old)) roster.old }
    ensures visited { IsVisited result (part_of roster.old.table.stored p) (part_of roster.new.table.stored p) }
    ensures few { result ≤ THREAD_LIMIT + 1 }
{
    match made {
        LockMove::Takes | LockMove::Recovers => take(roster, p, t, m),
        LockMove::Counts => count_up(roster, p, m),
        LockMove::Waits => block(roster, p, t, m, wait),
        LockMove::Refuses(_) => 0,
    }
}

/// A thread has locked a free mutex.
#[inline(always)]
fn take(roster: &mut Roster, p: PartId, t: ThreadNo, m: MutexNo) -> u32
    requires ready { AreReady p roster.old }
    requires used { IsSome (thread_in roster.old.table p t) }
    requires free { IsFree (pool_get (part_of roster.old.mutexes p) m) }
    ensures roster { roster.new ≡ put_locks p (after_take t m (locks_at p roster.old)) roster.old }
    ensures visited { IsVisited result (part_of roster.old.table.stored p) (part_of roster.new.table.stored p) }
    ensures few { result ≤ THREAD_LIMIT + 1 }
{
    roster.change_mutex(p, m, Change::Take(t));
    raise(roster, p, Rise::Take(t, m))
}

/// The owner of a mutex has locked it once more, which raises nobody.
fn count_up(roster: &mut Roster, p: PartId, m: MutexNo) -> u32
    requires ready { AreReady p roster.old }
    ensures roster { roster.new ≡ put_locks p (after_count m (locks_at p roster.old)) roster.old }
    ensures visited { IsVisited result (part_of roster.old.table.stored p) (part_of roster.new.table.stored p) }
    ensures few { result ≤ THREAD_LIMIT + 1 }
{
    roster.change_mutex(p, m, Change::CountUp);
    0
}

/// A thread that waited for no mutex waits for one, as its last waiter.
#[inline(always)]
fn block(roster: &mut Roster, p: PartId, t: ThreadNo, m: MutexNo, wait: Wait) -> u32
    requires ready { AreReady p roster.old }
    requires caller { MayWait (locks_at p roster.old) t }
    requires free { IsNoWaiter t (part_of roster.old.mutexes p) (part_of roster.old.conditions p) }
    requires named { mutex_of_wait (Some wait) ≡ Some m }
    ensures roster { roster.new ≡ put_locks p (after_wait t m wait (locks_at p roster.old)) roster.old }
    ensures visited { IsVisited result (part_of roster.old.table.stored p) (part_of roster.new.table.stored p) }
    ensures few { result ≤ THREAD_LIMIT + 1 }
{
    let inheritor = inheritor_of(roster.mutex_slots(p), m);
    roster.wait_for_mutex(p, m, t, wait);
    rise_behind(roster, p, t, inheritor)
}
