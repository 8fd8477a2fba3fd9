//! The line of ready threads, and what the choice among them asks (XSH 2.8.4).

ghost use Rattle.std.specs.Prelude.{◌≡◌, ◌<◌, false, length, nat_lt, IsSome};
ghost use Rattle.ptk_words_model.specs.State.{with_locks};
ghost use Rattle.ptk_words_model.specs.Priority.{thread_at, effective_priority};
ghost use Rattle.ptk_words_model.specs.Schedule.{after_turn_end, at_head, first_ready};
ghost use Rattle.ptk_words_model.specs.Calls.{replied};
ghost use Rattle.ptk_words.specs.Pools.{is_in};
ghost use Rattle.ptk_gate_pools.specs.Kept.{AreInUse};
ghost use Rattle.ptk_gate_pools.specs.Moves.{with_last, out_of_line, out_of_line_if};
ghost use Rattle.ptk_words_sync_invariant.specs.Conditions.{IsNoWaiter};

use crate::pools::Pools;
use ptk_threads::Renewed;
use ptk_words::ThreadNo;

impl Pools {
    /// Whether the thread is in the line.
    #[tactic(auto, using(crate::proofs::Hands::handed))]
    pub fn is_lined(&self, t: ThreadNo) -> bool
        ensures { result ≡ is_in t self.now.here.line }
    {
        let p = self.hand;
        self.roster.contains(p, t)
    }

    /// Puts a thread that is in use, not in the line and no waiter last.
    #[tactic(auto, using(crate::proofs::Hands::handed, crate::proofs::Stored::stored))]
    pub fn append(&mut self, t: ThreadNo)
        requires in_use { IsSome (thread_at self.old.here.locks t) }
        requires fresh { is_in t self.old.here.line ≡ false }
        requires free { IsNoWaiter t self.old.here.mutexes self.old.here.conditions }
        ensures { self.new ≡ record self.old { here = with_locks (with_last t) self.old.here } }
    {
        let p = self.hand;
        self.roster.push_tail(p, t);
    }

    /// A thread that is in use, not in the line and no waiter goes to the tail, where it has used no tick, with these
    /// values in a0 and so on, and no thread runs (XSH 2.8.4).
    #[tactic(auto, using(crate::proofs::Hands::handed, crate::proofs::Stored::stored, ptk_words::proofs::Pools::changed_twice))]
    pub fn end_turn_with(&mut self, t: ThreadNo, values: &[u32])
        requires few { length values.now < 4 }
        requires in_use { IsSome (thread_at self.old.here.locks t) }
        requires fresh { is_in t self.old.here.line ≡ false }
        requires free { IsNoWaiter t self.old.here.mutexes self.old.here.conditions }
        ensures { self.new ≡ record self.old { here = replied t values.now (after_turn_end t self.old.here) } }
    {
        let p = self.hand;
        self.roster.push_tail(p, t);
        self.roster.update(p, t, &Renewed { values });
        self.running[p.index()] = None;
    }

    /// Puts a thread that is in use, not in the line and no waiter first.
    #[tactic(auto, using(crate::proofs::Hands::handed, crate::proofs::Stored::stored))]
    pub fn push_head(&mut self, t: ThreadNo)
        requires in_use { IsSome (thread_at self.old.here.locks t) }
        requires fresh { is_in t self.old.here.line ≡ false }
        requires free { IsNoWaiter t self.old.here.mutexes self.old.here.conditions }
        ensures { self.new ≡ record self.old { here = with_locks (at_head t) self.old.here } }
    {
        let p = self.hand;
        self.roster.push_head(p, t);
    }

    /// Takes a thread out of the line; nothing changes where it is not in it.
    #[tactic(auto, using(crate::proofs::Hands::handed, crate::proofs::Stored::stored))]
    pub fn take_from_line(&mut self, t: ThreadNo)
        ensures { self.new ≡ record self.old { here = with_locks (out_of_line t) self.old.here } }
    {
        let p = self.hand;
        self.roster.remove(p, t);
    }

    /// The first thread of the line's greatest effective priority, where all of them are in use; None of an empty
    /// line. Nothing changes.
    #[tactic(auto, using(crate::proofs::Ranks::stored_first))]
    pub fn first_ready(&self) -> Option<ThreadNo>
        requires in_use { AreInUse self.now.here.threads self.now.here.line }
        ensures { result ≡ first_ready self.now.here.locks }
    {
        let p = self.hand;
        self.roster.first_of_greatest(p)
    }

    /// Takes the first thread of the line's greatest effective priority, where all of them are in use, out of the line
    /// and returns it; None of an empty line, where nothing changes.
    #[tactic(auto, using(crate::proofs::Hands::handed, crate::proofs::Stored::stored))]
    pub fn take_first(&mut self) -> Option<ThreadNo>
        requires in_use { AreInUse self.old.here.threads self.old.here.line }
        ensures told { result ≡ first_ready self.old.here.locks }
        ensures moved { self.new ≡ record self.old { here = with_locks (out_of_line_if result) self.old.here } }
    {
        let p = self.hand;
        self.roster.take_first(p)
    }

    /// The effective priority of a thread that is in use.
    #[tactic(auto, using(crate::proofs::Ranks::ranks))]
    pub fn effective_priority(&self, t: ThreadNo) -> u8
        requires in_use { IsSome (thread_at self.now.here.locks t) }
        ensures { result ≡ effective_priority self.now.here.locks t }
    {
        let p = self.hand;
        self.roster.stored_priority(p, t)
    }
}
