//! The calls after which nobody is woken: lock, trylock, a running thread's re-lock, a change of a mutex, and a changed
//! assigned priority.

ghost use Rattle.std.specs.Prelude.{◌≡◌, ◌+◌, ◌<◌, ◌≤◌, [], Some, None, length};
ghost use Rattle.std.specs.List.{list_any};
ghost use Rattle.ptk_words.specs.Pools.{pool_get};
ghost use Rattle.ptk_words.specs.declared.TheConstants.{COUNT_LIMIT};
ghost use Rattle.ptk_words.specs.declared.threads.Wait.TheVariants.{RelockWait};
ghost use Rattle.ptk_words.specs.declared.mutexes.Soundness.TheVariants.{Consistent};
ghost use Rattle.ptk_words.specs.declared.TheConstants.{THREAD_LIMIT};
ghost use Rattle.ptk_words.specs.Parts.{part_of};
ghost use Rattle.ptk_words_model.specs.declared.LockMove.TheVariants.{Counts, Waits};
ghost use Rattle.ptk_words_model.specs.State.{locks_of};
ghost use Rattle.ptk_words_model.specs.Priority.{assigned_of};
ghost use Rattle.ptk_words_model.specs.Mutex.{mutex_at, lock_move, trylock_move, relock_move, count_of, owns, owns_raising, is_raising_for, after_move, with_soundness};
ghost use Rattle.ptk_words_sync_invariant.specs.Conditions.{IsNoWaiter};
ghost use Rattle.ptk_mutex.specs.Visits.{IsVisited};
ghost use Rattle.ptk_mutex.specs.Tables.{locks_at, put_locks, MayWait, AreReady};
ghost use Rattle.ptk_mutex.specs.Moves.{after_lock, after_trylock, after_assignment};
ghost use Rattle.ptk_mutex.specs.Sound.{IsSound};

use crate::mutexes::{Mutexes, refresh_priorities};
use crate::rise::{Rise, raise};
use crate::rising::make;
use crate::unlocking::amend;
use crate::waking::relock_move;
use ptk_roster::{Change, MutexSlot, Roster, assigned, slot_in};
use ptk_threads::ThreadField;
use ptk_words::{Errno, MutexNo, PartId, Priority, Soundness, ThreadNo, Tick, Wait};
use ptk_words_model::LockMove;

impl Mutexes {
    /// A thread that waits for no mutex locks this one, or waits for it, until the deadline (a tick) if there is one,
    /// or is refused (pthread_mutex_lock, pthread_mutex_timedlock). Returns which of these. Refused, nothing changes:
    /// EINVAL of a free number and of a PROTECT mutex whose ceiling is below the thread's assigned priority,
    /// ENOTRECOVERABLE of a lost mutex, EDEADLK of one's own that checks errors, EAGAIN of a recursive one at its
    /// limit. A deadline already reached is the caller's to refuse before. The line stays.
    pub fn lock(
        &mut self,
        roster: &mut Roster,
        p: PartId,
        t: ThreadNo,
        m: MutexNo,
        deadline: Option<Tick>,
    ) -> LockMove
        requires ready { AreReady p roster.old }
        requires caller { MayWait (locks_at p roster.old) t }
        requires free { IsNoWaiter t (part_of roster.old.mutexes p) (part_of roster.old.conditions p) }
        ensures told { result ≡ lock_move (locks_at p roster.old) t (mutex_at (locks_at p roster.old) m) }
        ensures roster { roster.new ≡ put_locks p (after_lock t m deadline (locks_at p roster.old)) roster.old }
        ensures visited { IsVisited self.new.visited (part_of roster.old.table.stored p) (part_of roster.new.table.stored p) }
        ensures ready { AreReady p roster.new }
        ensures sound { IsSound roster.old → IsSound roster.new }
    {
        let made = self.lock_move(roster, p, t, m);
        self.visited = make(roster, p, t, m, Wait::MutexWait(m, deadline), made);
        made
    }

    /// A thread that waits for no mutex waits for this one, until the deadline (a tick) if there is one, as its lock
    /// does where it begins a wait (pthread_mutex_timedlock). The line stays.
    pub fn wait_for(
        &mut self,
        roster: &mut Roster,
        p: PartId,
        t: ThreadNo,
        m: MutexNo,
        deadline: Option<Tick>,
    )
        requires ready { AreReady p roster.old }
        requires caller { MayWait (locks_at p roster.old) t }
        requires free { IsNoWaiter t (part_of roster.old.mutexes p) (part_of roster.old.conditions p) }
        requires waits { lock_move (locks_at p roster.old) t (mutex_at (locks_at p roster.old) m) ≡ Waits }
        ensures roster { roster.new ≡ put_locks p (after_lock t m deadline (locks_at p roster.old)) roster.old }
        ensures visited { IsVisited self.new.visited (part_of roster.old.table.stored p) (part_of roster.new.table.stored p) }
        ensures ready { AreReady p roster.new }
        ensures sound { IsSound roster.old → IsSound roster.new }
    {
        self.visited = make(
            roster,
            p,
            t,
            m,
            Wait::MutexWait(m, deadline),
            LockMove::Waits,
        );
    }

    /// A thread that waits for no mutex locks this one, or is refused (pthread_mutex_trylock). Returns which of these.
    /// Refused, nothing changes: EINVAL of a free number and of a PROTECT mutex whose ceiling is below the thread's
    /// assigned priority, ENOTRECOVERABLE of a lost mutex, EBUSY of a locked one, EAGAIN of one's own recursive one at
    /// its limit. The line stays.
    pub fn trylock(&mut self, roster: &mut Roster, p: PartId, t: ThreadNo, m: MutexNo) -> LockMove
        requires ready { AreReady p roster.old }
        requires caller { MayWait (locks_at p roster.old) t }
        requires free { IsNoWaiter t (part_of roster.old.mutexes p) (part_of roster.old.conditions p) }
        ensures told { result ≡ trylock_move (locks_at p roster.old) t (mutex_at (locks_at p roster.old) m) }
        ensures roster { roster.new ≡ put_locks p (after_trylock t m (locks_at p roster.old)) roster.old }
        ensures visited { IsVisited self.new.visited (part_of roster.old.table.stored p) (part_of roster.new.table.stored p) }
        ensures ready { AreReady p roster.new }
        ensures sound { IsSound roster.old → IsSound roster.new }
    {
        let made = trylock_move(roster, p, t, m);
        self.visited = make(roster, p, t, m, Wait::MutexWait(m, None), made);
        made
    }

    /// What a lock by the thread would do now; nothing changes (pthread_mutex_timedlock).
    #[inline(always)]
    #[tactic(auto, using(ptk_roster::proofs::Bare::bares))]
    pub fn lock_move(&self, roster: &Roster, p: PartId, t: ThreadNo, m: MutexNo) -> LockMove
        requires { p < length roster.now.table.threads }
        ensures { result ≡ lock_move (locks_of (part_of roster.now.table.threads p) (part_of roster.now.mutexes p)) t (pool_get (part_of roster.now.mutexes p) m) }
    {
        match slot_in(roster.mutex_slots(p), m) {
            Some(slot) => slot.lock_move(roster.threads().part(p), t),
            None => LockMove::Refuses(Errno::EINVAL),
        }
    }

    /// A running thread that waits for no mutex locks this one again, as after a condition wait whose deadline was
    /// already reached: it has the mutex, or waits for it with this reply kept, or is refused. Returns which of these
    /// (pthread_cond_timedwait; own choice). Where it owns the mutex, the count is below the limit. Refused
    /// (ENOTRECOVERABLE of a lost mutex), nothing changes. The line stays.
    pub fn lock_again(
        &mut self,
        roster: &mut Roster,
        p: PartId,
        t: ThreadNo,
        m: MutexNo,
        reply: Option<u32>,
    ) -> LockMove
        requires ready { AreReady p roster.old }
        requires caller { MayWait (locks_at p roster.old) t }
        requires free { IsNoWaiter t (part_of roster.old.mutexes p) (part_of roster.old.conditions p) }
        requires countable { relock_move t (mutex_at (locks_at p roster.old) m) ≡ Counts → count_of (mutex_at (locks_at p roster.old) m) < COUNT_LIMIT }
        ensures told { result ≡ relock_move t (mutex_at (locks_at p roster.old) m) }
        ensures roster { roster.new ≡ put_locks p (after_move (relock_move t (mutex_at (locks_at p roster.old) m)) t m (RelockWait m reply) (locks_at p roster.old)) roster.old }
        ensures visited { IsVisited self.new.visited (part_of roster.old.table.stored p) (part_of roster.new.table.stored p) }
        ensures ready { AreReady p roster.new }
        ensures sound { IsSound roster.old → IsSound roster.new }
    {
        let made = relock_move(roster, p, t, m);
        self.visited = make(roster, p, t, m, Wait::RelockWait(m, reply), made);
        made
    }

    /// Whether the thread owns the mutex (pthread_mutex_unlock).
    pub fn owns(&self, roster: &Roster, p: PartId, t: ThreadNo, m: MutexNo) -> bool
        requires { p < length roster.now.table.threads }
        ensures { result ≡ owns t (pool_get (part_of roster.now.mutexes p) m) }
    {
        is_owner(roster, p, t, m)
    }

    /// Whether the thread owns an INHERIT or PROTECT mutex (pthread_mutexattr_getprotocol).
    pub fn owns_raising(&self, roster: &Roster, p: PartId, t: ThreadNo) -> bool
        requires { p < length roster.now.table.threads }
        ensures { result ≡ owns_raising (locks_of [] (part_of roster.now.mutexes p)) t }
    {
        is_any_raising_for(roster.mutex_slots(p), t)
    }

    /// What a mutex guards is sound again (pthread_mutex_consistent).
    pub fn consistent(&mut self, roster: &mut Roster, p: PartId, m: MutexNo)
        requires ready { AreReady p roster.old }
        ensures roster { roster.new ≡ put_locks p (with_soundness Consistent m (locks_at p roster.old)) roster.old }
        ensures visited { self.new.visited ≡ 0 }
        ensures ready { AreReady p roster.new }
        ensures sound { IsSound roster.old → IsSound roster.new }
    {
        self.visited = 0;
        let marked = Change::Mark(Soundness::Consistent);
        amend(roster, p, m, marked);
    }

    /// A thread has this assigned priority (pthread_setschedprio).
    pub fn assign(&mut self, roster: &mut Roster, p: PartId, t: ThreadNo, priority: Priority)
        requires ready { AreReady p roster.old }
        ensures roster { roster.new ≡ put_locks p (after_assignment t priority (locks_at p roster.old)) roster.old }
        ensures visited { assigned_of (part_of roster.old.table.threads p) t ≤ priority → IsVisited self.new.visited (part_of roster.old.table.stored p) (part_of roster.new.table.stored p) }
        ensures fallen { priority < assigned_of (part_of roster.old.table.threads p) t → self.new.visited ≡ 0 }
        ensures ready { AreReady p roster.new }
        ensures sound { IsSound roster.old → IsSound roster.new }
    {
        self.visited = reassign(roster, p, t, priority);
    }
}

/// A thread has this assigned priority, and the stored priorities are the effective ones. Returns how many stored
/// priorities the walk of a rise read; 0 after a fall.
fn reassign(roster: &mut Roster, p: PartId, t: ThreadNo, priority: Priority) -> u32
    requires ready { AreReady p roster.old }
    ensures roster { roster.new ≡ put_locks p (after_assignment t priority (locks_at p roster.old)) roster.old }
    ensures visited { assigned_of (part_of roster.old.table.threads p) t ≤ priority → IsVisited result (part_of roster.old.table.stored p) (part_of roster.new.table.stored p) }
    ensures fallen { priority < assigned_of (part_of roster.old.table.threads p) t → result ≡ 0 }
    ensures few { result ≤ THREAD_LIMIT + 1 }
{
    let before = assigned(roster.threads().part(p), t);
    roster.update_if_used(p, t, &ThreadField::AssignedPriority(priority));
    if priority.level() < before {
        refresh_priorities(roster, p);
        return 0;
    }
    raise(roster, p, Rise::Assignment(t))
}

/// The move of trylock.
#[tactic(auto, using(ptk_roster::proofs::Bare::bares))]
fn trylock_move(roster: &Roster, p: PartId, t: ThreadNo, m: MutexNo) -> LockMove
    requires { p < length roster.now.table.threads }
    ensures { result ≡ trylock_move (locks_of (part_of roster.now.table.threads p) (part_of roster.now.mutexes p)) t (pool_get (part_of roster.now.mutexes p) m) }
{
    match slot_in(roster.mutex_slots(p), m) {
        Some(slot) => slot.trylock_move(roster.threads().part(p), t),
        None => LockMove::Refuses(Errno::EINVAL),
    }
}

/// Whether the thread owns the mutex.
#[tactic(auto, using(ptk_roster::proofs::Bare::bares))]
pub(crate) fn is_owner(roster: &Roster, p: PartId, t: ThreadNo, m: MutexNo) -> bool
    requires { p < length roster.now.table.threads }
    ensures { result ≡ owns t (pool_get (part_of roster.now.mutexes p) m) }
{
    match slot_in(roster.mutex_slots(p), m) {
        Some(slot) => slot.is_owned_by(t),
        None => false,
    }
}

/// Whether the thread owns one of these that is INHERIT or PROTECT.
fn is_any_raising_for(mutexes: &[MutexSlot], t: ThreadNo) -> bool
    ensures { result ≡ list_any (is_raising_for t) mutexes.now }
{
    mutexes.iter().any(|slot| slot.is_raising_for(t))
}
