//! One partition to look at, whichever is in hand: its numbers and its part, read where they lie.

ghost use Rattle.std.specs.Prelude.{◌≡◌, ◌<◌, false, length, nat_lt, IsSome, option_map, slice_get, unwrap_or};
ghost use Rattle.std.specs.Option.{option_copied};
ghost use Rattle.ptk_words.specs.Pools.{numbered};
ghost use Rattle.ptk_words_model.specs.Mutex.{mutex_at};
ghost use Rattle.ptk_words_model.specs.Priority.{thread_at, effective_priority};
ghost use Rattle.ptk_words_model.specs.Schedule.{first_ready};
ghost use Rattle.ptk_words_model.specs.Withdrawal.{deadlines_of};
ghost use Rattle.ptk_words_model.specs.CancellationCalls.{cancellation_of};
ghost use Rattle.ptk_cancel.specs.KeptCancellations.{is_acting};
ghost use Rattle.ptk_clock.specs.ByThread.{least_deadline};
ghost use Rattle.ptk_roster.specs.Slots.{state_of};
ghost use Rattle.ptk_gate_pools.specs.Kept.{AreInUse, part_at};
ghost use Rattle.ptk_gate_pools.specs.Held.{all_of, seen};

use crate::pools::Pools;
use ptk_cond::MutexState;
use ptk_words::{Entry, MutexNo, PartId, Status, Thread, ThreadNo, Tick};
use std::marker::Model;

/// One partition of the pools, for reading.
#[derive(Drop)]
pub struct Look<'a> {
    pub(crate) pools: &'a Pools,
    pub(crate) p: PartId,
}

impl<'a> Model for Look<'a> {
    ghost use Rattle.std.specs.Prelude.{◌<◌, length};
    ghost use Rattle.ptk_gate_pools.specs.Held.{Seen, all_of, seen};

    ghost Value = { Seen };

    ghost view = { λ a. seen a.p (all_of a.pools.now) };

    ghost invariant = { λ a. a.p < length a.pools.now.elsewhere.limits };
}

impl Pools {
    /// A partition to look at.
    pub fn look(&self, p: PartId) -> Look<'_>
        requires { p < length self.now.elsewhere.limits }
        ensures { result ≡ seen p (all_of self.now) }
    {
        Look { pools: self, p }
    }

    /// A partition's output so far, whichever partition is in hand.
    #[tactic(auto, using(crate::proofs::Hands::taken))]
    pub fn output(&self, p: PartId) -> &[u8]
        requires { p < length self.now.elsewhere.limits }
        ensures { result.now ≡ (part_at p (all_of self.now)).console.output }
    {
        self.consoles.output(p)
    }
}

impl Look<'_> {
    /// The ticks of a round-robin interval of the partition.
    #[tactic(auto, using(crate::proofs::Hands::taken))]
    pub fn interval(&self) -> u32
        ensures { result ≡ self.now.limits.interval }
    {
        let pools = self.pools;
        pools.limits[self.p.index()].interval
    }

    /// Whether the partition goes on, or why it is halted.
    pub fn status(&self) -> Status
        ensures { result ≡ self.now.part.status }
    {
        let pools = self.pools;
        pools.statuses[self.p.index()]
    }

    /// The partition's last step, None before the first.
    #[tactic(auto, using(crate::proofs::Hands::taken))]
    pub fn last_step(&self) -> Option<Entry>
        ensures { result ≡ self.now.part.last }
    {
        let pools = self.pools;
        pools.lasts[self.p.index()]
    }

    /// The partition's running thread, if one runs.
    #[tactic(auto, using(crate::proofs::Hands::taken))]
    pub fn running(&self) -> Option<ThreadNo>
        ensures { result ≡ self.now.part.running }
    {
        let pools = self.pools;
        pools.running[self.p.index()]
    }

    /// The thread of a number, where it lies, if it is in use.
    #[tactic(auto, using(crate::proofs::Hands::taken))]
    pub fn thread_ref(&self, t: ThreadNo) -> Option<&Thread>
        ensures { option_copied result ≡ thread_at self.now.part.locks t }
    {
        let pools = self.pools;
        pools.roster.threads().thread_ref(self.p, t)
    }

    /// The thread of a number in use, where it lies.
    #[tactic(auto, using(crate::proofs::Hands::taken))]
    pub fn used_thread(&self, t: ThreadNo) -> &Thread
        requires in_use { IsSome (thread_at self.now.part.locks t) }
        ensures { Some result.now ≡ thread_at self.now.part.locks t }
    {
        let pools = self.pools;
        pools.roster.threads().used_thread(self.p, t)
    }

    /// The thread of a number, if it is in use.
    #[tactic(auto, using(crate::proofs::Hands::taken))]
    pub fn thread(&self, t: ThreadNo) -> Option<Thread>
        ensures { result ≡ thread_at self.now.part.locks t }
    {
        let pools = self.pools;
        pools.roster.threads().thread(self.p, t)
    }

    /// The memory.
    #[tactic(auto, using(crate::proofs::Hands::taken))]
    pub fn memory(&self) -> &[u8]
        ensures { result.now ≡ self.now.part.memory }
    {
        let pools = self.pools;
        pools.memories.regions().part(self.p)
    }

    /// Whether the thread's next step begins its unwinding, if it is normal (XSH 2.9.5.2).
    #[tactic(auto, using(crate::proofs::Hands::taken))]
    pub fn is_acting(&self, t: ThreadNo) -> bool
        ensures { result ≡ unwrap_or (option_map is_acting (numbered self.now.part.cancellations t)) false }
    {
        let pools = self.pools;
        pools.cancellations.is_acting(self.p, t)
    }

    /// Whether a request to cancel the thread is pending, whatever its state and type (pthread_cancel).
    #[tactic(auto, using(crate::proofs::Hands::taken))]
    pub fn is_cancel_pending(&self, t: ThreadNo) -> bool
        ensures { result ≡ (cancellation_of self.now.part t).is_pending }
    {
        let pools = self.pools;
        pools.cancellations.is_pending(self.p, t)
    }

    /// Whether a cancellation took the thread out of its wait: its next step begins its unwinding (XSH 2.9.5.2).
    #[tactic(auto, using(crate::proofs::Hands::taken))]
    pub fn is_marked(&self, t: ThreadNo) -> bool
        ensures { result ≡ (cancellation_of self.now.part t).is_marked }
    {
        let pools = self.pools;
        pools.cancellations.is_marked(self.p, t)
    }

    /// The first thread of the line's greatest effective priority, where all of them are in use; None of an empty line
    /// (XSH 2.8.4).
    pub fn first_ready(&self) -> Option<ThreadNo>
        requires in_use { AreInUse self.now.part.threads self.now.part.line }
        ensures { result ≡ first_ready self.now.part.locks }
    {
        let pools = self.pools;
        pools.roster.first_of_greatest(self.p)
    }

    /// Whether a thread of the partition is in the line.
    pub fn has_ready(&self) -> bool
        ensures { result ≡ nat_lt 0 (length self.now.part.line) }
    {
        let pools = self.pools;
        pools.roster.first_of_greatest(self.p).is_some()
    }

    /// The effective priority of a thread that is in use (pthread_mutexattr_getprotocol).
    pub fn effective_priority(&self, t: ThreadNo) -> u8
        requires in_use { IsSome (thread_at self.now.part.locks t) }
        ensures { result ≡ effective_priority self.now.part.locks t }
    {
        let pools = self.pools;
        pools.roster.stored_priority(self.p, t)
    }

    /// What the mutex is, but for its waiters; None of a free number.
    #[tactic(auto, using(crate::proofs::Hands::taken))]
    pub fn mutex(&self, m: MutexNo) -> Option<MutexState>
        ensures { result ≡ option_map state_of (mutex_at self.now.part.locks m) }
    {
        let pools = self.pools;
        pools.mutexes.state(&pools.roster, self.p, m)
    }

    /// The least deadline of the partition's threads (a tick); None where none has one.
    pub fn next_deadline(&self) -> Option<Tick>
        ensures { result ≡ least_deadline (deadlines_of self.now.part.locks) }
    {
        let pools = self.pools;
        pools.roster.threads().next_deadline(self.p)
    }

    /// The tick of the first input still to come, None where none is.
    #[tactic(auto, using(crate::proofs::Hands::taken))]
    pub fn next_arrival_tick(&self) -> Option<Tick>
        ensures { result ≡ option_map (λ a. a.tick) (slice_get self.now.part.console.coming 0) }
    {
        let pools = self.pools;
        pools.consoles.next_arrival_tick(self.p)
    }

    /// How many of the partition's input bytes were lost.
    #[tactic(auto, using(crate::proofs::Hands::taken))]
    pub fn dropped(&self) -> u64
        ensures { result ≡ self.now.part.console.dropped }
    {
        let pools = self.pools;
        pools.consoles.dropped(self.p)
    }
}
