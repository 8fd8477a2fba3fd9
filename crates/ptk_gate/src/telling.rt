//! What is shown of a partition's threads and mutexes beside the slot table.

ghost use Rattle.std.specs.Prelude.{◌≡◌, ◌<◌, length, option_map, slice_get};
ghost use Rattle.ptk_words.specs.declared.threads.Thread.{Thread};
ghost use Rattle.ptk_words_model.specs.State.{Mutex};
ghost use Rattle.ptk_words_model.specs.Priority.{effective_priority, thread_at};
ghost use Rattle.ptk_words_model.specs.Mutex.{mutex_at};
ghost use Rattle.ptk_words_model.specs.CancellationCalls.{cancellation_of};
ghost use Rattle.ptk_words_model.specs.Withdrawal.{deadlines_of};
ghost use Rattle.ptk_roster.specs.Slots.{state_of};
ghost use Rattle.ptk_clock.specs.ByThread.{least_deadline};
ghost use Rattle.ptk_gate_pools.specs.Kept.{part_at};

use crate::tables::Tables;
use ptk_roster::MutexState;
use ptk_words::{MutexNo, Owner, PartId, ThreadNo, Tick};

impl Tables {
    /// The effective priority of a thread, 1 to 32; None of a free number (XSH 2.8.4, pthread_mutexattr_getprotocol).
    pub fn effective_priority(&self, p: PartId, t: ThreadNo) -> Option<u8>
        requires { p < length self.now.limits }
        ensures { result ≡ option_map (λ (thread : Thread). effective_priority (part_at p self.now).locks t)
            (thread_at (part_at p self.now).locks t) }
    {
        let look = self.pools.look(p);
        match look.thread_ref(t) {
            Some(_) => Some(look.effective_priority(t)),
            None => None,
        }
    }

    /// Who owns a mutex; None of a free number (pthread_mutex_lock).
    pub fn owner(&self, p: PartId, m: MutexNo) -> Option<Owner>
        requires { p < length self.now.limits }
        ensures { result ≡ option_map (λ (mutex : Mutex). mutex.owner) (mutex_at (part_at p self.now).locks m) }
    {
        match self.pools.look(p).mutex(m) {
            Some(state) => Some(state.owner),
            None => None,
        }
    }

    /// What a mutex is, but for its waiters; None of a free number (pthread_mutex_init).
    pub fn mutex(&self, p: PartId, m: MutexNo) -> Option<MutexState>
        requires { p < length self.now.limits }
        ensures { result ≡ option_map state_of (mutex_at (part_at p self.now).locks m) }
    {
        self.pools.look(p).mutex(m)
    }

    /// Whether a request to cancel a thread is pending, whatever its state and type (pthread_cancel).
    pub fn is_cancel_pending(&self, p: PartId, t: ThreadNo) -> bool
        requires { p < length self.now.limits }
        ensures { result ≡ (cancellation_of (part_at p self.now) t).is_pending }
    {
        self.pools.look(p).is_cancel_pending(t)
    }

    /// Whether a cancellation took a thread out of its wait: its next step begins its unwinding (XSH 2.9.5.2).
    pub fn is_marked(&self, p: PartId, t: ThreadNo) -> bool
        requires { p < length self.now.limits }
        ensures { result ≡ (cancellation_of (part_at p self.now) t).is_marked }
    {
        self.pools.look(p).is_marked(t)
    }

    /// The tick of the partition's first input still to come; None where none is.
    pub fn next_arrival_tick(&self, p: PartId) -> Option<Tick>
        requires { p < length self.now.limits }
        ensures { result ≡ option_map (λ arrival. arrival.tick) (slice_get (part_at p self.now).console.coming 0) }
    {
        self.pools.look(p).next_arrival_tick()
    }

    /// The least deadline of the partition's threads, a tick; None where none has one (clock_nanosleep,
    /// pthread_mutex_timedlock, pthread_cond_timedwait).
    pub fn next_deadline(&self, p: PartId) -> Option<Tick>
        requires { p < length self.now.limits }
        ensures { result ≡ least_deadline (deadlines_of (part_at p self.now).locks) }
    {
        self.pools.look(p).next_deadline()
    }
}
