//! Cancellation: state, type, pending request and mark of a thread, and its cleanup handlers (XSH 2.9.5).

ghost use Rattle.std.specs.Prelude.{◌≡◌, ◌<◌, [], ◌∷◌, drop, length, nat_lt, true, if◌then◌else◌, slice_get};
ghost use Rattle.ptk_words_model.specs.State.{with_cancellation, with_cleanups};
ghost use Rattle.ptk_words_model.specs.ThreadCreation.{new_cancellation};
ghost use Rattle.ptk_words_model.specs.Unwinding.{cleanups_of};
ghost use Rattle.ptk_words_model.specs.Withdrawal.{with_mark};
ghost use Rattle.ptk_cancel.specs.KeptCancellations.{disabled};
ghost use Rattle.ptk_gate_pools.specs.Held.{all_of};

use crate::pools::Pools;
use ptk_cancel::Cancellations;
use ptk_words::{CLEANUP_LIMIT, Cleanup, ThreadNo};

impl Pools {
    /// A thread begins: its cancellation is enabled and deferred, nothing is pending, and it has no cleanup handler
    /// (pthread_setcancelstate).
    #[tactic(auto, using(crate::proofs::Hands::handed))]
    pub fn clear_cancellation(&mut self, t: ThreadNo)
        ensures { self.new ≡ record self.old { here = with_cleanups t (λ _. []) (with_cancellation t (λ _. new_cancellation) self.old.here) } }
    {
        let p = self.hand;
        self.cancellations.clear(p, t);
    }

    /// The thread's cancellation is disabled and deferred, and the mark is taken; a pending request stays
    /// (XSH 2.9.5.3).
    #[tactic(auto, using(crate::proofs::Hands::handed))]
    pub fn disable_cancellation(&mut self, t: ThreadNo)
        ensures { self.new ≡ record self.old { here = with_cancellation t disabled self.old.here } }
    {
        let p = self.hand;
        self.cancellations.begin_unwinding(p, t);
    }

    /// The thread's state is ENABLE or DISABLE; its type, request and mark stay (pthread_setcancelstate).
    #[tactic(auto, using(crate::proofs::Hands::handed))]
    pub fn set_cancel_state(&mut self, t: ThreadNo, is_enabled: bool)
        ensures { self.new ≡ record self.old { here = with_cancellation t (λ c. record c { is_enabled = is_enabled }) self.old.here } }
    {
        let p = self.hand;
        self.cancellations.set_state(p, t, is_enabled);
    }

    /// The thread's type is ASYNCHRONOUS or DEFERRED; its state, request and mark stay (pthread_setcanceltype).
    #[tactic(auto, using(crate::proofs::Hands::handed))]
    pub fn set_cancel_type(&mut self, t: ThreadNo, is_asynchronous: bool)
        ensures { self.new ≡ record self.old { here = with_cancellation t (λ c. record c { is_asynchronous = is_asynchronous }) self.old.here } }
    {
        let p = self.hand;
        self.cancellations.set_type(p, t, is_asynchronous);
    }

    /// A request is pending for the thread, whatever its state and type (pthread_cancel).
    #[tactic(auto, using(crate::proofs::Hands::handed))]
    pub fn request_cancellation(&mut self, t: ThreadNo)
        ensures { self.new ≡ record self.old { here = with_cancellation t (λ c. record c { is_pending = true }) self.old.here } }
    {
        let p = self.hand;
        self.cancellations.request(p, t);
    }

    /// The thread is marked: its next step begins its unwinding (XSH 2.9.5.2).
    #[tactic(auto, using(crate::proofs::Hands::handed))]
    pub fn mark(&mut self, t: ThreadNo)
        ensures { self.new ≡ record self.old { here = with_mark t self.old.here } }
    {
        let p = self.hand;
        self.cancellations.mark(p, t);
    }

    /// Puts a handler on top of the thread's; false, and nothing changes, where 16 are there (pthread_cleanup_push).
    #[tactic(auto, using(crate::proofs::Hands::handed))]
    pub fn push_cleanup(&mut self, t: ThreadNo, cleanup: Cleanup) -> bool
        ensures told { result ≡ nat_lt (length (cleanups_of self.old.here t)) CLEANUP_LIMIT }
        ensures moved { self.new ≡ record self.old { here = if result then with_cleanups t (λ cleanups. cleanup ∷ cleanups) self.old.here else self.old.here } }
    {
        let p = self.hand;
        self.cancellations.push(p, t, cleanup)
    }

    /// Takes the thread's handler pushed last off; None, and nothing changes, where there is none
    /// (pthread_cleanup_pop).
    #[tactic(auto, using(crate::proofs::Hands::handed))]
    pub fn pop_cleanup(&mut self, t: ThreadNo) -> Option<Cleanup>
        ensures told { result ≡ slice_get (cleanups_of self.old.here t) 0 }
        ensures moved { self.new ≡ record self.old { here = with_cleanups t (drop 1) self.old.here } }
    {
        let p = self.hand;
        self.cancellations.pop(p, t)
    }

    /// The handler that an unwinding thread calls next, which is taken off; None, and nothing changes, where there is
    /// none: then its next destructor is called, or it ends (XSH 2.9.5.3).
    #[tactic(auto, using(crate::proofs::Hands::handed))]
    pub fn next_unwind(&mut self, t: ThreadNo) -> Option<Cleanup>
        ensures told { result ≡ slice_get (cleanups_of self.old.here t) 0 }
        ensures moved { self.new ≡ record self.old { here = with_cleanups t (drop 1) self.old.here } }
    {
        let p = self.hand;
        self.cancellations.next_unwind(p, t)
    }
}
