//! Condition variables: their numbers, what is shown of them, and the moves of wait, signal, broadcast and
//! withdrawal (pthread_cond_wait, pthread_cond_signal).

ghost use Rattle.std.specs.Prelude.{◌≡◌, ◌<◌, true, [], length, nat_lt, Some, None, IsSome, is_some, if◌then◌else◌};
ghost use Rattle.ptk_words.specs.Pools.{least_free, pool_get};
ghost use Rattle.ptk_words_model.specs.State.{with_syncs};
ghost use Rattle.ptk_words_model.specs.Priority.{thread_at};
ghost use Rattle.ptk_words_model.specs.Mutex.{mutex_at, owns, wait_of};
ghost use Rattle.ptk_words_model.specs.Condition.{condition_waiters, names_another, after_condition_wait, after_signal, after_broadcast, after_unblock};
ghost use Rattle.ptk_words_model.specs.Calls.{with_pool_condition};
ghost use Rattle.ptk_words.specs.Threads.{condition_of_wait};
ghost use Rattle.ptk_words_invariant.specs.Well.{IsWell};
ghost use Rattle.ptk_gate_pools.specs.Held.{limits_here};

use crate::pools::Pools;
use ptk_words::{ConditionNo, MutexNo, ThreadNo, Tick};

impl Pools {
    /// The condition variable in use whose number the word is; None of another word (own choice).
    pub fn condition_numbered(&self, word: u32) -> Option<ConditionNo>
        ensures { result ≡ (if is_some (pool_get self.now.here.conditions word) then Some word else None) }
    {
        let p = self.hand;
        ptk_cond::numbered(&self.roster, p, word)
    }

    /// The least free number of a condition variable; None where no number is free.
    pub fn first_free_condition(&self) -> Option<ConditionNo>
        ensures { result ≡ least_free self.now.here.conditions }
    {
        let p = self.hand;
        self.roster.free_condition(p)
    }

    /// Whether a thread waits on the condition variable (pthread_cond_destroy, EBUSY).
    #[tactic(auto, using(crate::proofs::Conditional::waited))]
    pub fn has_condition_waiters(&self, c: ConditionNo) -> bool
        ensures { result ≡ nat_lt 0 (length (condition_waiters self.now.here.syncs c)) }
    {
        let p = self.hand;
        self.roster.has_condition_waiters(p, c)
    }

    /// Whether a waiter of the condition variable is to have another mutex again (pthread_cond_wait, EINVAL).
    #[inline(always)]
    pub fn names_another(&self, c: ConditionNo, m: MutexNo) -> bool
        ensures { result ≡ names_another self.now.here.syncs c m }
    {
        let p = self.hand;
        ptk_cond::names_another(&self.roster, p, c, m)
    }

    /// A new condition variable, without waiters, at the least free number (pthread_cond_init).
    #[tactic(auto, using(crate::proofs::Hands::handed, crate::proofs::Conditional::opened))]
    pub fn init_condition(&mut self, c: ConditionNo)
        requires free { least_free self.old.here.conditions ≡ Some c }
        ensures { self.new ≡ record self.old { here = with_pool_condition c (Some (record { waiters = [] })) self.old.here } }
    {
        let p = self.hand;
        ptk_cond::init(&mut self.roster, p);
    }

    /// The number of a condition variable without waiters is free (pthread_cond_destroy).
    #[tactic(auto, using(crate::proofs::Hands::handed))]
    pub fn destroy_condition(&mut self, c: ConditionNo)
        requires unwaited { condition_waiters self.old.here.syncs c ≡ [] }
        ensures { self.new ≡ record self.old { here = with_pool_condition c None self.old.here } }
    {
        let p = self.hand;
        ptk_cond::destroy(&mut self.roster, p, c);
    }

    /// The running thread unlocks its mutex once, as unlock does, and is then the last waiter of the condition
    /// variable, until the deadline (a tick) if there is one (pthread_cond_wait, pthread_cond_timedwait). It still
    /// runs, and a deadline already reached is the caller's to refuse before.
    #[inline(always)]
    #[tactic(auto, using(crate::proofs::Hands::handed))]
    pub fn wait_on(&mut self, t: ThreadNo, c: ConditionNo, m: MutexNo, deadline: Option<Tick>)
        requires well { IsWell (limits_here self.old) self.old.here }
        requires runs { self.old.here.running ≡ Some t }
        requires owned { owns t (mutex_at self.old.here.locks m) ≡ true }
        requires used { IsSome (pool_get self.old.here.conditions c) }
        ensures { self.new ≡ record self.old { here = with_syncs (after_condition_wait t c m deadline) self.old.here } }
    {
        let p = self.hand;
        let roster = &mut self.roster;
        let mutexes = &mut self.mutexes;
        ptk_cond::wait(roster, mutexes, p, t, c, m, deadline);
    }

    /// The waiter of greatest effective priority, the earliest among equals, is unblocked: it re-locks the mutex that
    /// it named, with reply 0 (pthread_cond_signal). Nothing changes without waiters.
    #[inline(always)]
    #[tactic(auto, using(crate::proofs::Hands::handed))]
    pub fn signal(&mut self, c: ConditionNo)
        requires well { IsWell (limits_here self.old) self.old.here }
        ensures { self.new ≡ record self.old { here = with_syncs (after_signal c) self.old.here } }
    {
        let p = self.hand;
        let roster = &mut self.roster;
        let mutexes = &mut self.mutexes;
        ptk_cond::signal(roster, mutexes, p, c);
    }

    /// Every waiter is unblocked, one after the other, each choice in the state that the one before left
    /// (pthread_cond_broadcast).
    #[tactic(auto, using(crate::proofs::Hands::handed))]
    pub fn broadcast(&mut self, c: ConditionNo)
        requires well { IsWell (limits_here self.old) self.old.here }
        ensures { self.new ≡ record self.old { here = with_syncs (after_broadcast c) self.old.here } }
    {
        let p = self.hand;
        let roster = &mut self.roster;
        let mutexes = &mut self.mutexes;
        ptk_cond::broadcast(roster, mutexes, p, c);
    }

    /// A thread that waits on the condition variable is taken out of that wait: it re-locks the mutex that it named,
    /// without a reply, and has no deadline (XSH 2.9.5).
    #[tactic(auto, using(crate::proofs::Hands::handed))]
    pub fn withdraw_from_condition(&mut self, t: ThreadNo, c: ConditionNo)
        requires well { IsWell (limits_here self.old) self.old.here }
        requires waits { condition_of_wait (wait_of (thread_at self.old.here.locks t)) ≡ Some c }
        ensures { self.new ≡ record self.old { here = with_syncs (after_unblock t c None) self.old.here } }
    {
        let p = self.hand;
        let roster = &mut self.roster;
        let mutexes = &mut self.mutexes;
        ptk_cond::withdraw(roster, mutexes, p, t, c, None);
    }
}
