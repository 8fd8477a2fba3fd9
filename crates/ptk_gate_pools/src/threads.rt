//! A thread's number, and its entry: one call changes what no priority reads. Where another move may change who raises
//! whom, the partition's stored priorities are computed again.

ghost use Rattle.std.specs.Prelude.{◌≡◌, ◌<◌, false, length, Some, None, IsSome, is_some, option_and_then};
ghost use Rattle.ptk_words.specs.Pools.{least_free, is_in};
ghost use Rattle.ptk_words.specs.declared.threads.Thread.{Thread};
ghost use Rattle.ptk_words.specs.Threads.{left_at_end, left_at_detach, mutex_of_wait};
ghost use Rattle.ptk_words_model.specs.State.{with_locks};
ghost use Rattle.ptk_words_model.specs.Priority.{thread_at};
ghost use Rattle.ptk_words_model.specs.Schedule.{with_thread, after_wake};
ghost use Rattle.ptk_words_model.specs.Unwinding.{without_thread};
ghost use Rattle.ptk_threads.specs.Table.{with_priority, with_wait};
ghost use Rattle.ptk_words_sync_invariant.specs.Conditions.{IsNoWaiter};
ghost use Rattle.ptk_cond.specs.LockTables.{AreLocked};
ghost use Rattle.ptk_gate_pools.specs.Moves.{with_number, with_left};

use crate::pools::Pools;
use ptk_threads::{ThreadChange, ThreadField};
use ptk_words::{Priority, Thread, ThreadNo, Wait};

impl Pools {
    /// The least free number is the thread's.
    #[tactic(auto, using(crate::proofs::Hands::handed, crate::proofs::Stored::refreshed, crate::proofs::Numbers::taken))]
    pub fn take_number(&mut self, t: ThreadNo, thread: Thread)
        requires free { least_free self.old.here.threads ≡ Some t }
        ensures { self.new ≡ record self.old { here = with_locks (with_number t thread) self.old.here } }
    {
        let p = self.hand;
        self.roster.create(p, thread);
        self.mutexes.refresh(&mut self.roster, p);
    }

    /// The number of a thread that is not in the line becomes free; a free number stays free.
    #[tactic(auto, using(crate::proofs::Hands::handed, crate::proofs::Stored::refreshed))]
    pub fn free(&mut self, t: ThreadNo)
        requires out { is_in t self.old.here.line ≡ false }
        ensures { self.new ≡ record self.old { here = with_locks (without_thread t) self.old.here } }
    {
        let p = self.hand;
        self.roster.free(p, t);
        self.mutexes.refresh(&mut self.roster, p);
    }

    /// Changes a thread, which is in use, and keeps its assigned priority and the mutex that it waits for.
    #[inline(always)]
    #[tactic(auto, using(crate::proofs::Hands::handed, crate::proofs::Stored::stored))]
    pub fn update<C: ThreadChange>(&mut self, t: ThreadNo, change: &C)
        requires in_use { IsSome (thread_at self.old.here.locks t) }
        requires possible { C.can_make change.now }
        requires priority { (thread : Thread) → (C.changed change.now thread).priority ≡ thread.priority }
        requires mutex { (thread : Thread) → mutex_of_wait (C.changed change.now thread).wait ≡ mutex_of_wait thread.wait }
        ensures { self.new ≡ record self.old { here = with_locks (with_thread t (C.changed change.now)) self.old.here } }
    {
        let p = self.hand;
        self.roster.update(p, t, change);
    }

    /// Changes a thread, and keeps its assigned priority and the mutex that it waits for; a free number stays free.
    #[inline(always)]
    #[tactic(auto, using(crate::proofs::Hands::handed, crate::proofs::Stored::stored))]
    pub fn update_if_used<C: ThreadChange>(&mut self, t: ThreadNo, change: &C)
        requires possible { C.can_make change.now }
        requires priority { (thread : Thread) → (C.changed change.now thread).priority ≡ thread.priority }
        requires mutex { (thread : Thread) → mutex_of_wait (C.changed change.now thread).wait ≡ mutex_of_wait thread.wait }
        ensures { self.new ≡ record self.old { here = with_locks (with_thread t (C.changed change.now)) self.old.here } }
    {
        let p = self.hand;
        self.roster.update_if_used(p, t, change);
    }

    /// The thread has this assigned priority (XSH 2.8.4).
    #[tactic(auto, using(crate::proofs::Hands::handed, crate::proofs::Locking::moved))]
    pub fn give_priority(&mut self, t: ThreadNo, priority: Priority)
        requires locked { AreLocked self.old.here.locks }
        ensures { self.new ≡ record self.old { here = with_locks (with_thread t (with_priority priority)) self.old.here } }
    {
        let p = self.hand;
        self.mutexes.assign(&mut self.roster, p, t, priority);
    }

    /// The thread waits for this, or for nothing (XSH 2.8.4).
    #[tactic(auto, using(crate::proofs::Hands::handed, crate::proofs::Stored::refreshed))]
    pub fn give_wait(&mut self, t: ThreadNo, wait: Option<Wait>)
        ensures { self.new ≡ record self.old { here = with_locks (with_thread t (with_wait wait)) self.old.here } }
    {
        let p = self.hand;
        let had_mutex = is_for_mutex(&self.roster.threads().wait(p, t));
        let has_mutex = is_for_mutex(&wait);
        self.roster.update_if_used(p, t, &ThreadField::Wait(wait));
        if !had_mutex && !has_mutex {
            return;
        }
        self.mutexes.refresh(&mut self.roster, p);
    }

    /// A blocked thread, in no list of waiters any more, is ready, at the tail, with these values in a0 and so on (XSH
    /// 2.8.4).
    #[tactic(auto, using(crate::proofs::Hands::handed, crate::proofs::Stored::refreshed))]
    pub fn wake(&mut self, t: ThreadNo, values: &[u32])
        requires few { length values.now < 4 }
        requires in_use { IsSome (thread_at self.old.here.locks t) }
        requires fresh { is_in t self.old.here.line ≡ false }
        requires free { IsNoWaiter t self.old.here.mutexes self.old.here.conditions }
        ensures { self.new ≡ record self.old { here = with_locks (after_wake t values.now) self.old.here } }
    {
        let p = self.hand;
        let had_mutex = is_for_mutex(&self.roster.threads().wait(p, t));
        self.roster.rouse(p, t, values);
        if !had_mutex {
            return;
        }
        self.mutexes.refresh(&mut self.roster, p);
    }

    /// The thread is detached: its number is free where it has ended, and then it is not in the line (pthread_detach).
    #[tactic(auto, using(crate::proofs::Hands::handed, crate::proofs::Stored::refreshed))]
    pub fn detach(&mut self, t: ThreadNo)
        requires out { option_and_then left_at_detach (thread_at self.old.here.locks t) ≡ None → is_in t self.old.here.line ≡ false }
        ensures { self.new ≡ record self.old { here = with_locks (with_left t left_at_detach) self.old.here } }
    {
        let p = self.hand;
        self.roster.detach(p, t);
        self.mutexes.refresh(&mut self.roster, p);
    }

    /// The thread, which is not in the line, has ended: its number stays with the result until a join or a detachment,
    /// or is free (pthread_exit).
    #[tactic(auto, using(crate::proofs::Hands::handed, crate::proofs::Stored::refreshed))]
    pub fn end(&mut self, t: ThreadNo)
        requires out { is_in t self.old.here.line ≡ false }
        ensures { self.new ≡ record self.old { here = with_locks (with_left t left_at_end) self.old.here } }
    {
        let p = self.hand;
        self.roster.end(p, t);
        self.mutexes.refresh(&mut self.roster, p);
    }
}

/// Whether a thread in this wait, if it is one, waits for a mutex (pthread_mutex_lock, pthread_cond_wait).
fn is_for_mutex(wait: &Option<Wait>) -> bool
    ensures { result ≡ is_some (mutex_of_wait wait.now) }
{
    match wait {
        Some(wait) => wait.mutex().is_some(),
        None => false,
    }
}
