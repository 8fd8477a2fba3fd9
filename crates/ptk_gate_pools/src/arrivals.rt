//! Input that arrives: the next byte, and the waiter that it goes to (own choice).

ghost use Rattle.std.specs.Prelude.{◌≡◌, ◌<◌, length, is_some, option_map, slice_get};
ghost use Rattle.ptk_words_model.specs.State.{with_console};
ghost use Rattle.ptk_words_model.specs.Console.{without_waiter};
ghost use Rattle.ptk_words_model.specs.Decision.{first_waiter};
ghost use Rattle.ptk_console.specs.ConsoleTable.{next_byte};
ghost use Rattle.ptk_console.specs.ConsoleTable as console;
ghost use Rattle.ptk_gate_pools.specs.Kept.{AreInUse};
ghost use Rattle.ptk_gate_pools.specs.Held.{limits_here};
ghost use Rattle.ptk_gate_pools.specs.Moves.{with_next_taken};

use crate::pools::Pools;
use ptk_words::{ThreadNo, Tick};

impl Pools {
    /// The waiter for input of greatest effective priority, the earliest among equals, where all of them are in use;
    /// None where no thread waits.
    #[tactic(auto, using(crate::proofs::Ranks::stored_waiter))]
    pub fn first_waiter(&self) -> Option<ThreadNo>
        requires in_use { AreInUse self.now.here.threads self.now.here.console.waiters }
        ensures { result ≡ first_waiter self.now.here }
    {
        let p = self.hand;
        self.roster.first_among(p, self.consoles.waiters(p))
    }

    /// Takes the next input byte, if it comes at the tick or before; None, and nothing changes, where none is due.
    #[tactic(auto, using(crate::proofs::Hands::handed))]
    pub fn next_arrival(&mut self, tick: Tick) -> Option<u8>
        ensures told { result ≡ next_byte tick self.old.here.console }
        ensures moved { self.new ≡ record self.old { here = with_next_taken tick self.old.here } }
    {
        let p = self.hand;
        self.consoles.next_arrival(p, tick)
    }

    /// The thread no longer waits for input; one that does not wait changes nothing.
    #[tactic(auto, using(crate::proofs::Hands::handed))]
    pub fn leave_waiters(&mut self, t: ThreadNo)
        ensures { self.new ≡ record self.old { here = with_console (without_waiter t) self.old.here } }
    {
        let p = self.hand;
        self.consoles.remove_waiter(p, t);
    }

    /// Puts the next input byte, if it comes at the tick or before, into the ring, or loses and counts it where that is
    /// full; false, and nothing changes, where none is due.
    #[tactic(auto, using(crate::proofs::Hands::handed))]
    pub fn keep_next(&mut self, tick: Tick) -> bool
        ensures told { result ≡ is_some (next_byte tick self.old.here.console) }
        ensures moved { self.new ≡ record self.old { here = with_console (console.after_next_byte (limits_here self.old).ring tick) self.old.here } }
    {
        let p = self.hand;
        self.consoles.arrive(p, tick)
    }
}
