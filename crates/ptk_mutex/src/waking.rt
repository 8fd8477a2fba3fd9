//! The calls after which a waiter is ready: the reply to a thread that leaves a mutex's waiters, and the end of a
//! condition wait.

ghost use Rattle.std.specs.Prelude.{◌≡◌, ◌≤◌, ◌+◌, ◌-◌, ◌^◌, ◌<◌, true, false, [], ◌∷◌, ◌++◌, length, IsSome, is_some, slice_set, option_to_list, if◌then◌else◌};
ghost use Rattle.ptk_words.specs.Pools.{pool_get, is_in};
ghost use Rattle.ptk_words.specs.declared.TheConstants.{COUNT_LIMIT};
ghost use Rattle.ptk_words.specs.declared.TheConstants.{THREAD_LIMIT};
ghost use Rattle.ptk_words.specs.Parts.{part_of};
ghost use Rattle.ptk_words_model.specs.Schedule.{woken_with};
ghost use Rattle.ptk_words_model.specs.declared.LockMove.TheVariants.{Counts, Waits};
ghost use Rattle.ptk_words_model.specs.Mutex.{mutex_at, wait_of, count_of, is_waiting, kept_reply, relock_move, after_relock, after_relock_move, after_leave};
ghost use Rattle.ptk_words_model.specs.Condition.{waiters_on};
ghost use Rattle.ptk_words_sync_invariant.specs.Conditions.{IsNoWaiter};
ghost use Rattle.ptk_threads.specs.Table.{thread_in, with_changed};
ghost use Rattle.ptk_mutex.specs.Visits.{IsVisited};
ghost use Rattle.ptk_mutex.specs.Sound.{IsSound};
ghost use Rattle.ptk_mutex.specs.Tables.{locks_at, put_locks, put_locks_alone, without_condition_waiter, HasPart, IsWaiter, MayWait, AreReady};
ghost use Rattle.ptk_mutex.specs.Moves.{after_withdrawal};
ghost use Rattle.ptk_mutex.specs.Rises.{MayTake};
ghost use Rattle.ptk_mutex.specs.Woken.{woken_at};

use crate::mutexes::{Mutexes, refresh_after};
use crate::rise::rise_behind;
use crate::rising::make;
use ptk_roster::{Roster, inheritor_of, slot_in};
use ptk_words::{ConditionNo, MutexNo, PartId, ThreadNo, Wait};
use ptk_words_model::LockMove;

/// What a re-lock did, and whom it woke.
#[derive(Clone, Copy)]
pub struct Relocked {
    /// The move of the re-lock.
    pub made: LockMove,
    /// The set of threads woken, as 32 bits: bit k - 1 is thread k.
    pub woken: u32,
}

impl Mutexes {
    /// A blocked thread that waits for no mutex and is not in the line has this one again, or waits for it, or goes on
    /// without it where it can't be locked any more; unless it waits it is woken, with this reply if there is one
    /// (pthread_cond_wait; own choice). Where it still owns the mutex, the count is below the limit, since its wait
    /// unlocked it once. Returns the move, and the set of threads woken: the thread itself, or nobody if it waits.
    #[inline(never)]
    pub fn relock(
        &mut self,
        roster: &mut Roster,
        p: PartId,
        t: ThreadNo,
        m: MutexNo,
        reply: Option<u32>,
    ) -> Relocked
        requires ready { AreReady p roster.old }
        requires caller { MayWait (locks_at p roster.old) t }
        requires free { IsNoWaiter t (part_of roster.old.mutexes p) (part_of roster.old.conditions p) }
        requires countable { relock_move t (mutex_at (locks_at p roster.old) m) ≡ Counts → count_of (mutex_at (locks_at p roster.old) m) < COUNT_LIMIT }
        ensures told { result.made ≡ relock_move t (mutex_at (locks_at p roster.old) m) }
        ensures woken { is_some (wait_of (thread_in roster.old.table p t)) ≡ true → result.woken ≡ woken_at p roster.old roster.new }
        ensures roster { roster.new ≡ put_locks p (after_relock t m reply (locks_at p roster.old)) roster.old }
        ensures visited { IsVisited self.new.visited (part_of roster.old.table.stored p) (part_of roster.new.table.stored p) }
        ensures ready { AreReady p roster.new }
        ensures sound { IsSound roster.old → IsSound roster.new }
    {
        let made = relock_move(roster, p, t, m);
        self.visited = make_relock(roster, p, t, m, reply, made);
        let woken = woken_by(made, t);
        Relocked { made, woken }
    }

    /// A waiter on a condition variable waits on it no more and waits for a mutex, as its last waiter, as its re-lock
    /// does where it begins a wait; it has this reply, if there is one, once it has the mutex (pthread_cond_signal).
    /// The line stays.
    #[inline(always)]
    pub fn pass_on(
        &mut self,
        roster: &mut Roster,
        p: PartId,
        t: ThreadNo,
        c: ConditionNo,
        m: MutexNo,
        reply: Option<u32>,
    )
        requires ready { AreReady p roster.old }
        requires caller { MayWait (locks_at p roster.old) t }
        requires used { IsSome (pool_get (part_of roster.old.conditions p) c) }
        requires inside { is_in t (waiters_on (pool_get (part_of roster.old.conditions p) c)) ≡ true }
        requires waits { relock_move t (mutex_at (locks_at p roster.old) m) ≡ Waits }
        ensures roster { roster.new ≡ put_locks p (after_relock t m reply (locks_at p roster.old)) (without_condition_waiter p t c roster.old) }
        ensures visited { IsVisited self.new.visited (part_of roster.old.table.stored p) (part_of roster.new.table.stored p) }
        ensures ready { AreReady p roster.new }
        ensures sound { IsSound roster.old → IsSound roster.new }
    {
        let inheritor = inheritor_of(roster.mutex_slots(p), m);
        let _part = roster.threads().linked(p);
        roster.pass_to_mutex(p, c, m, t, Wait::RelockWait(m, reply));
        self.visited = rise_behind(roster, p, t, inheritor);
    }

    /// A waiter leaves without the mutex and is woken, with this reply if there is one (pthread_mutex_timedlock).
    /// Returns the set of threads woken, as 32 bits: bit k - 1 is thread k.
    #[inline(always)]
    pub fn withdraw(
        &mut self,
        roster: &mut Roster,
        p: PartId,
        t: ThreadNo,
        m: MutexNo,
        reply: Option<u32>,
    ) -> u32
        requires ready { AreReady p roster.old }
        requires waiter { IsWaiter (locks_at p roster.old) m t }
        ensures woken { result ≡ woken_at p roster.old roster.new }
        ensures roster { roster.new ≡ put_locks p (after_withdrawal t m reply (locks_at p roster.old)) roster.old }
        ensures visited { self.new.visited ≡ 0 }
        ensures ready { AreReady p roster.new }
        ensures sound { IsSound roster.old → IsSound roster.new }
    {
        self.visited = 0;
        take_out(roster, p, t, m, reply);
        refresh_after(roster, p, m);
        only(t)
    }
}

/// A thread makes its move of a re-lock; the chain that it raises is stored.
#[inline(always)]
fn make_relock(
    roster: &mut Roster,
    p: PartId,
    t: ThreadNo,
    m: MutexNo,
    reply: Option<u32>,
    made: LockMove,
) -> u32
    requires ready { AreReady p roster.old }
    requires caller { MayWait (locks_at p roster.old) t }
    requires free { IsNoWaiter t (part_of roster.old.mutexes p) (part_of roster.old.conditions p) }
    requires takes { MayTake made (pool_get (part_of roster.old.mutexes p) m) }
    ensures roster { roster.new ≡ put_locks p (after_relock_move made t m reply (locks_at p roster.old)) roster.old }
    ensures visited { IsVisited result (part_of roster.old.table.stored p) (part_of roster.new.table.stored p) }
    ensures few { result ≤ THREAD_LIMIT + 1 }
{
    let visited = make(roster, p, t, m, Wait::RelockWait(m, reply), made);
    if made.is_waiting() {
        return visited;
    }
    wake_with(roster, p, t, made.reply_after(reply));
    visited
}

/// A waiter leaves and is woken, with the reply that this move makes of the one that its wait kept; the stored
/// priorities stay.
#[inline(always)]
pub(crate) fn leave(roster: &mut Roster, p: PartId, t: ThreadNo, m: MutexNo, made: LockMove)
    requires part { HasPart p roster.old }
    requires waiter { IsWaiter (locks_at p roster.old) m t }
    ensures { roster.new ≡ put_locks_alone p (after_leave made t m (locks_at p roster.old)) roster.old }
{
    let kept = kept_reply(roster.threads().wait(p, t));
    take_out(roster, p, t, m, made.reply_after(kept));
}

/// The reply that a waiter is to have once it has the mutex, as its wait keeps it; None of a thread that does not wait.
#[inline(always)]
fn kept_reply(wait: Option<Wait>) -> Option<u32>
    ensures { result ≡ kept_reply wait }
{
    match wait {
        Some(wait) => wait.kept_reply(),
        None => None,
    }
}

/// A waiter leaves and is woken; the stored priorities stay.
#[inline(always)]
fn take_out(roster: &mut Roster, p: PartId, t: ThreadNo, m: MutexNo, reply: Option<u32>)
    requires part { HasPart p roster.old }
    requires waiter { IsWaiter (locks_at p roster.old) m t }
    ensures { roster.new ≡ put_locks_alone p (after_withdrawal t m reply (locks_at p roster.old)) roster.old }
{
    match reply {
        Some(value) => roster.rouse_from_mutex(p, m, t, &[value]),
        None => roster.rouse_from_mutex(p, m, t, &[]),
    }
}

/// The move of a re-lock.
#[tactic(auto, using(ptk_roster::proofs::Bare::bares))]
pub fn relock_move(roster: &Roster, p: PartId, t: ThreadNo, m: MutexNo) -> LockMove
    requires { p < length roster.now.table.threads }
    ensures { result ≡ relock_move t (pool_get (part_of roster.now.mutexes p) m) }
{
    match slot_in(roster.mutex_slots(p), m) {
        Some(slot) => slot.relock_move(t),
        None => LockMove::Waits,
    }
}

/// A blocked thread is ready, at the tail, with this reply if there is one. The stored priorities stay.
#[inline(always)]
fn wake_with(roster: &mut Roster, p: PartId, t: ThreadNo, reply: Option<u32>)
    requires partition { p < length roster.old.table.threads }
    requires in_use { IsSome (thread_in roster.old.table p t) }
    requires out { is_in t (part_of roster.old.lines p) ≡ false }
    requires free { IsNoWaiter t (part_of roster.old.mutexes p) (part_of roster.old.conditions p) }
    ensures { roster.new ≡ record roster.old { table = with_changed p t (woken_with (option_to_list reply)) roster.old.table; lines = slice_set roster.old.lines p (part_of roster.old.lines p ++ t ∷ []) } }
{
    match reply {
        Some(value) => roster.rouse(p, t, &[value]),
        None => roster.rouse(p, t, &[]),
    }
}

/// The set of one thread, as 32 bits: bit k - 1 is thread k.
#[inline(always)]
pub(crate) fn only(t: ThreadNo) -> u32
    ensures { result ≡ 2 ^ (t - 1) }
{
    1 << t.place()
}

/// Whom the move of a thread's re-lock wakes: the thread, or nobody if it waits.
#[inline(always)]
fn woken_by(made: LockMove, t: ThreadNo) -> u32
    ensures { result ≡ (if is_waiting made then 0 else 2 ^ (t - 1)) }
{
    if made.is_waiting() { 0 } else { only(t) }
}
