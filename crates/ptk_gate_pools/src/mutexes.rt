//! Mutexes: their numbers, what is shown of them, and the moves of lock, unlock and an owner's end. After each move the
//! partition's stored priorities are the effective ones (pthread_mutex_lock, pthread_mutexattr_getprotocol).

ghost use Rattle.std.specs.Prelude.{◌≡◌, ◌<◌, ◌≤◌, false, None, Some, [], length, option_map, is_some, if◌then◌else◌};
ghost use Rattle.ptk_words.specs.Pools.{least_free, pool_get};
ghost use Rattle.ptk_words.specs.declared.mutexes.Soundness.TheVariants.{Consistent};
ghost use Rattle.ptk_words.specs.declared.TheConstants.{COUNT_LIMIT};
ghost use Rattle.ptk_words.specs.declared.threads.Wait.TheVariants.{MutexWait, RelockWait};
ghost use Rattle.ptk_words_model.specs.declared.LockMove.TheVariants.{Counts, Waits};
ghost use Rattle.ptk_words_model.specs.State.{with_locks};
ghost use Rattle.ptk_words_model.specs.Mutex.{mutex_at, new_mutex, waiters_of, owns, owns_raising, count_of, lock_move, trylock_move, relock_move, after_move, after_unlock, after_owner_end, with_soundness};
ghost use Rattle.ptk_words_model.specs.MutexCalls.{is_locked};
ghost use Rattle.ptk_words_model.specs.Condition.{names_mutex};
ghost use Rattle.ptk_words_model.specs.Calls.{with_pool_mutex};
ghost use Rattle.ptk_roster.specs.Slots.{state_of};
ghost use Rattle.ptk_cond.specs.LockTables.{AreLocked, MayWait};
ghost use Rattle.ptk_words_sync_invariant.specs.Conditions.{IsNoWaiter};

use crate::pools::Pools;
use ptk_cond::MutexState;
use ptk_roster::MutexSlot;
use ptk_words::{MutexKind, MutexNo, Protocol, ThreadNo, Tick};
use ptk_words_model::LockMove;

impl Pools {
    /// The mutex in use whose number the word is; None of another word (own choice).
    pub fn mutex_numbered(&self, word: u32) -> Option<MutexNo>
        ensures { result ≡ (if is_some (pool_get self.now.here.mutexes word) then Some word else None) }
    {
        let p = self.hand;
        numbered_in(self.roster.mutex_slots(p), word)
    }

    /// The least free number of a mutex; None where no number is free.
    pub fn first_free_mutex(&self) -> Option<MutexNo>
        ensures { result ≡ least_free self.now.here.mutexes }
    {
        let p = self.hand;
        self.roster.free_mutex(p)
    }

    /// A new mutex, free and consistent, at the least free number (pthread_mutex_init).
    #[tactic(auto, using(crate::proofs::Hands::handed, crate::proofs::Vacant::vacant))]
    pub fn init_mutex(&mut self, m: MutexNo, kind: MutexKind, protocol: Protocol, is_robust: bool)
        requires free { least_free self.old.here.mutexes ≡ Some m }
        ensures { self.new ≡ record self.old { here = with_pool_mutex m (Some (new_mutex kind protocol is_robust)) self.old.here } }
    {
        let p = self.hand;
        self.mutexes
            .init(&mut self.roster, p, kind, protocol, is_robust);
    }

    /// The number of a mutex that is not locked and has no waiters is free (pthread_mutex_destroy).
    #[tactic(auto, using(crate::proofs::Hands::handed, crate::proofs::Vacant::vacant))]
    pub fn destroy_mutex(&mut self, m: MutexNo)
        requires unlocked { is_locked (mutex_at self.old.here.locks m) ≡ false }
        requires unwaited { waiters_of (mutex_at self.old.here.locks m) ≡ [] }
        ensures { self.new ≡ record self.old { here = with_pool_mutex m None self.old.here } }
    {
        let p = self.hand;
        self.mutexes.destroy(&mut self.roster, p, m);
    }

    /// What the mutex is, but for its waiters; None of a free number.
    pub fn mutex(&self, m: MutexNo) -> Option<MutexState>
        ensures { result ≡ option_map state_of (mutex_at self.now.here.locks m) }
    {
        let p = self.hand;
        self.mutexes.state(&self.roster, p, m)
    }

    /// Whether the thread owns the mutex (pthread_mutex_unlock).
    pub fn owns(&self, t: ThreadNo, m: MutexNo) -> bool
        ensures { result ≡ owns t (mutex_at self.now.here.locks m) }
    {
        let p = self.hand;
        self.mutexes.owns(&self.roster, p, t, m)
    }

    /// Whether the thread owns an INHERIT or PROTECT mutex (pthread_mutexattr_getprotocol).
    pub fn owns_raising(&self, t: ThreadNo) -> bool
        ensures { result ≡ owns_raising self.now.here.locks t }
    {
        let p = self.hand;
        self.mutexes.owns_raising(&self.roster, p, t)
    }

    /// Whether a thread waits on a condition variable and is to have the mutex again (pthread_mutex_destroy).
    pub fn names_mutex(&self, m: MutexNo) -> bool
        ensures { result ≡ names_mutex self.now.here.locks m }
    {
        let p = self.hand;
        ptk_cond::names(&self.roster, p, m)
    }

    /// What lock would do now; nothing changes (pthread_mutex_lock, pthread_mutex_timedlock).
    pub fn lock_move(&self, t: ThreadNo, m: MutexNo) -> LockMove
        ensures { result ≡ lock_move self.now.here.locks t (mutex_at self.now.here.locks m) }
    {
        let p = self.hand;
        self.mutexes.lock_move(&self.roster, p, t, m)
    }

    /// A thread that waits for no mutex locks this one, or waits for it, until the deadline (a tick) if there is one,
    /// or is refused (pthread_mutex_lock, pthread_mutex_timedlock). A deadline already reached is the caller's to
    /// refuse before.
    #[tactic(auto, using(crate::proofs::Hands::handed, crate::proofs::Locking::moved))]
    pub fn lock(&mut self, t: ThreadNo, m: MutexNo, deadline: Option<Tick>) -> LockMove
        requires locked { AreLocked self.old.here.locks }
        requires caller { MayWait self.old.here.locks t }
        requires free { IsNoWaiter t self.old.here.mutexes self.old.here.conditions }
        ensures told { result ≡ lock_move self.old.here.locks t (mutex_at self.old.here.locks m) }
        ensures moved { self.new ≡ record self.old { here = with_locks (after_move (lock_move self.old.here.locks t (mutex_at self.old.here.locks m)) t m (MutexWait m deadline)) self.old.here } }
    {
        let p = self.hand;
        self.mutexes.lock(&mut self.roster, p, t, m, deadline)
    }

    /// A thread that waits for no mutex waits for this one, where `lock` would wait, until the deadline (a tick) if
    /// there is one (pthread_mutex_timedlock). A deadline already reached is the caller's to refuse before.
    #[tactic(auto, using(crate::proofs::Hands::handed, crate::proofs::Locking::moved))]
    pub fn wait_for(&mut self, t: ThreadNo, m: MutexNo, deadline: Option<Tick>)
        requires locked { AreLocked self.old.here.locks }
        requires caller { MayWait self.old.here.locks t }
        requires free { IsNoWaiter t self.old.here.mutexes self.old.here.conditions }
        requires waits { lock_move self.old.here.locks t (mutex_at self.old.here.locks m) ≡ Waits }
        ensures { self.new ≡ record self.old { here = with_locks (after_move Waits t m (MutexWait m deadline)) self.old.here } }
    {
        let p = self.hand;
        self.mutexes.wait_for(&mut self.roster, p, t, m, deadline);
    }

    /// A thread that waits for no mutex re-locks this one, or waits for it with this reply if it gets any, or goes on
    /// without it where it can't be locked any more (pthread_cond_timedwait whose deadline was already reached). Where
    /// it still owns the mutex, the count is below the limit.
    #[tactic(auto, using(crate::proofs::Hands::handed, crate::proofs::Locking::moved))]
    pub fn lock_again(&mut self, t: ThreadNo, m: MutexNo, reply: Option<u32>) -> LockMove
        requires locked { AreLocked self.old.here.locks }
        requires caller { MayWait self.old.here.locks t }
        requires free { IsNoWaiter t self.old.here.mutexes self.old.here.conditions }
        requires countable { relock_move t (mutex_at self.old.here.locks m) ≡ Counts → count_of (mutex_at self.old.here.locks m) < COUNT_LIMIT }
        ensures told { result ≡ relock_move t (mutex_at self.old.here.locks m) }
        ensures moved { self.new ≡ record self.old { here = with_locks (after_move (relock_move t (mutex_at self.old.here.locks m)) t m (RelockWait m reply)) self.old.here } }
    {
        let p = self.hand;
        self.mutexes.lock_again(&mut self.roster, p, t, m, reply)
    }

    /// A thread that waits for no mutex locks this one, or is refused (pthread_mutex_trylock).
    #[tactic(auto, using(crate::proofs::Hands::handed, crate::proofs::Locking::moved))]
    pub fn trylock(&mut self, t: ThreadNo, m: MutexNo) -> LockMove
        requires locked { AreLocked self.old.here.locks }
        requires caller { MayWait self.old.here.locks t }
        requires free { IsNoWaiter t self.old.here.mutexes self.old.here.conditions }
        ensures told { result ≡ trylock_move self.old.here.locks t (mutex_at self.old.here.locks m) }
        ensures moved { self.new ≡ record self.old { here = with_locks (after_move (trylock_move self.old.here.locks t (mutex_at self.old.here.locks m)) t m (MutexWait m None)) self.old.here } }
    {
        let p = self.hand;
        self.mutexes.trylock(&mut self.roster, p, t, m)
    }

    /// An owner unlocks its mutex once (pthread_mutex_unlock).
    #[tactic(auto, using(crate::proofs::Hands::handed, crate::proofs::Locking::moved))]
    pub fn unlock(&mut self, m: MutexNo)
        requires locked { AreLocked self.old.here.locks }
        ensures { self.new ≡ record self.old { here = with_locks (after_unlock m) self.old.here } }
    {
        let p = self.hand;
        self.mutexes.unlock(&mut self.roster, p, m);
    }

    /// What the mutex guards is sound again (pthread_mutex_consistent).
    #[tactic(auto, using(crate::proofs::Hands::handed, crate::proofs::Locking::moved))]
    pub fn make_consistent(&mut self, m: MutexNo)
        requires locked { AreLocked self.old.here.locks }
        ensures { self.new ≡ record self.old { here = with_locks (with_soundness Consistent m) self.old.here } }
    {
        let p = self.hand;
        self.mutexes.consistent(&mut self.roster, p, m);
    }

    /// What the end of the thread makes of the mutexes that it owns (pthread_mutexattr_setrobust; own choice).
    #[tactic(auto, using(crate::proofs::Hands::handed, crate::proofs::Locking::moved))]
    pub fn abandon(&mut self, t: ThreadNo)
        requires locked { AreLocked self.old.here.locks }
        ensures { self.new ≡ record self.old { here = with_locks (after_owner_end t) self.old.here } }
    {
        let p = self.hand;
        self.mutexes.abandon(&mut self.roster, p, t);
    }
}

/// The mutex in use whose number the word is, among a partition's places.
#[tactic(auto, using(ptk_threads::proofs::Slots::numbers))]
fn numbered_in(places: &[MutexSlot], word: u32) -> Option<MutexNo>
    requires few { length places.now ≤ 64 }
    ensures { result ≡ (if is_some (pool_get places.now word) then Some word else None) }
{
    if word == 0 {
        return None;
    }
    let index = word as usize - 1;
    if index >= places.len() {
        return None;
    }
    if places[index].is_free() {
        return None;
    }
    Some(MutexNo::new(word as u8))
}
