//! The calls that end condition waits: signal, broadcast, and what a deadline or a cancellation does to a waiter.

ghost use Rattle.std.specs.Prelude.{◌≡◌, ◌<◌, true, Some, None, IsSome, length};
ghost use Rattle.ptk_words.specs.Pools.{is_in};
ghost use Rattle.ptk_words.specs.Parts.{part_of};
ghost use Rattle.ptk_words_model.specs.Mutex.{wait_of};
ghost use Rattle.ptk_words_model.specs.Priority.{thread_at};
ghost use Rattle.ptk_words_model.specs.Condition.{condition_waiters, mutex_of_condition_wait, after_unblock, after_unblock_for, after_signal, after_signal_to, after_broadcast};
ghost use Rattle.ptk_mutex.specs.Visits.{IsVisited};
ghost use Rattle.ptk_mutex.specs.Sound.{IsSound};
ghost use Rattle.ptk_mutex.specs.Woken.{woken_at};
ghost use Rattle.ptk_cond.specs.Tables.{syncs_at, put_syncs, AreSynced, MayLeave, next_waiter};
ghost use Rattle.ptk_cond.specs.Visits.{IsVisitedBySignal};

use crate::naming::mutex_of_condition_wait;
use ptk_mutex::{Mutexes, Roster, relock_move};
use ptk_threads::Members;
use ptk_words::{ConditionNo, MutexNo, PartId, ThreadNo};

/// The waiter of greatest effective priority, the earliest among equals, is unblocked: it re-locks the mutex that it
/// named, with reply 0 (pthread_cond_signal). Nothing changes without waiters. Returns the set of threads woken, as 32
/// bits: bit k - 1 is thread k. A waiter that has to wait for its mutex is not woken.
#[inline(always)]
#[tactic(auto, using(crate::proofs::Steps::steps))]
pub fn signal(roster: &mut Roster, mutexes: &mut Mutexes, p: PartId, c: ConditionNo) -> u32
    requires ready { AreSynced p roster.old }
    ensures woken { result ≡ woken_at p roster.old roster.new }
    ensures roster { roster.new ≡ put_syncs p (after_signal c (syncs_at p roster.old)) roster.old }
    ensures visited { IsSome (next_waiter c (syncs_at p roster.old)) → IsVisited mutexes.new.visited (part_of roster.old.table.stored p) (part_of roster.new.table.stored p) }
    ensures unvisited { next_waiter c (syncs_at p roster.old) ≡ None → mutexes.new ≡ mutexes.old }
    ensures ready { AreSynced p roster.new }
    ensures sound { IsSound roster.old → IsSound roster.new }
{
    let next = choose(roster, p, c);
    signal_to(roster, mutexes, p, c, next)
}

/// Every waiter is unblocked, one after the other, each choice in the state that the one before left
/// (pthread_cond_broadcast). Returns the set of threads woken, as 32 bits: bit k - 1 is thread k.
pub fn broadcast(roster: &mut Roster, mutexes: &mut Mutexes, p: PartId, c: ConditionNo) -> u32
    requires ready { AreSynced p roster.old }
    ensures woken { result ≡ woken_at p roster.old roster.new }
    ensures roster { roster.new ≡ put_syncs p (after_broadcast c (syncs_at p roster.old)) roster.old }
    ensures visited { 0 < length (condition_waiters (syncs_at p roster.old) c) → IsVisitedBySignal mutexes.new.visited (length (condition_waiters (syncs_at p roster.old) c)) c (syncs_at p roster.old) }
    ensures unvisited { length (condition_waiters (syncs_at p roster.old) c) ≡ 0 → mutexes.new ≡ mutexes.old }
    ensures ready { AreSynced p roster.new }
    ensures sound { IsSound roster.old → IsSound roster.new }
{
    let waiters = roster.condition_waiters(p, c);
    let count = waiters.as_slice().len();
    let mut woken = 0;
    for i in 0..count {
        woken |= signal(roster, mutexes, p, c);
    }
    woken
}

/// A waiter leaves the condition variable and re-locks the mutex that it named, with this reply if there is one, as at
/// its deadline or at a cancellation (pthread_cond_timedwait; XSH 2.9.5). Returns the set of threads woken, as 32 bits:
/// the waiter, or nobody if it has to wait for the mutex.
#[inline(always)]
#[tactic(auto, using(crate::proofs::Waits::waits))]
pub fn withdraw(
    roster: &mut Roster,
    mutexes: &mut Mutexes,
    p: PartId,
    t: ThreadNo,
    c: ConditionNo,
    reply: Option<u32>,
) -> u32
    requires ready { AreSynced p roster.old }
    requires waiter { is_in t (condition_waiters (syncs_at p roster.old) c) ≡ true }
    ensures woken { result ≡ woken_at p roster.old roster.new }
    ensures roster { roster.new ≡ put_syncs p (after_unblock t c reply (syncs_at p roster.old)) roster.old }
    ensures visited { IsVisited mutexes.new.visited (part_of roster.old.table.stored p) (part_of roster.new.table.stored p) }
    ensures ready { AreSynced p roster.new }
    ensures sound { IsSound roster.old → IsSound roster.new }
{
    let named = mutex_of_condition_wait(roster.threads().wait(p, t));
    unblock(roster, mutexes, p, t, c, reply, named)
}

/// A waiter leaves the condition variable and re-locks the mutex, which is the one that it named.
#[inline(always)]
#[tactic(auto, using(crate::proofs::Steps::steps))]
fn unblock(
    roster: &mut Roster,
    mutexes: &mut Mutexes,
    p: PartId,
    t: ThreadNo,
    c: ConditionNo,
    reply: Option<u32>,
    named: Option<MutexNo>,
) -> u32
    requires ready { AreSynced p roster.old }
    requires waiter { is_in t (condition_waiters (syncs_at p roster.old) c) ≡ true }
    requires named { named ≡ mutex_of_condition_wait (wait_of (thread_at (syncs_at p roster.old).locks t)) }
    ensures woken { result ≡ woken_at p roster.old roster.new }
    ensures roster { roster.new ≡ put_syncs p (after_unblock_for t c reply named (syncs_at p roster.old)) roster.old }
    ensures visited { IsVisited mutexes.new.visited (part_of roster.old.table.stored p) (part_of roster.new.table.stored p) }
    ensures ready { AreSynced p roster.new }
    ensures sound { IsSound roster.old → IsSound roster.new }
{
    if let Some(m) = named {
        if relock_move(roster, p, t, m).is_waiting() {
            mutexes.pass_on(roster, p, t, c, m, reply);
            0
        } else {
            roster.leave_condition(p, c, t);
            mutexes.relock(roster, p, t, m, reply).woken
        }
    } else {
        0
    }
}

/// A waiter, if there is one, is unblocked with reply 0.
#[inline(always)]
#[tactic(auto, using(crate::proofs::Steps::steps))]
fn signal_to(
    roster: &mut Roster,
    mutexes: &mut Mutexes,
    p: PartId,
    c: ConditionNo,
    next: Option<ThreadNo>,
) -> u32
    requires ready { AreSynced p roster.old }
    requires may { MayLeave next (syncs_at p roster.old) c }
    ensures woken { result ≡ woken_at p roster.old roster.new }
    ensures roster { roster.new ≡ put_syncs p (after_signal_to next c (syncs_at p roster.old)) roster.old }
    ensures visited { IsSome next → IsVisited mutexes.new.visited (part_of roster.old.table.stored p) (part_of roster.new.table.stored p) }
    ensures unvisited { next ≡ None → mutexes.new ≡ mutexes.old }
    ensures ready { AreSynced p roster.new }
    ensures sound { IsSound roster.old → IsSound roster.new }
{
    match next {
        Some(t) => withdraw(roster, mutexes, p, t, c, Some(0)),
        None => 0,
    }
}

/// The first waiter of the greatest effective priority, None without waiters.
#[inline(always)]
#[tactic(auto, using(crate::proofs::Steps::choices))]
fn choose(roster: &Roster, p: PartId, c: ConditionNo) -> Option<ThreadNo>
    requires ready { AreSynced p roster.now }
    ensures told { result ≡ next_waiter c (syncs_at p roster.now) }
    ensures may { MayLeave result (syncs_at p roster.now) c }
{
    match roster.few_condition_waiters(p, c) {
        Members::NoMember => None,
        Members::OnlyMember(t) => Some(t),
        Members::MoreMembers => first_waiter(roster, p, c),
    }
}

/// The same, by a list of all waiters.
#[inline(never)]
#[tactic(auto, using(crate::proofs::Steps::choices))]
fn first_waiter(roster: &Roster, p: PartId, c: ConditionNo) -> Option<ThreadNo>
    requires ready { AreSynced p roster.now }
    ensures told { result ≡ next_waiter c (syncs_at p roster.now) }
    ensures may { MayLeave result (syncs_at p roster.now) c }
{
    let waiters = roster.condition_waiters(p, c);
    roster.first_among(p, waiters.as_slice())
}
