//! The console: its output, its input, its ring and its waiters.

ghost use Rattle.std.specs.Prelude.{◌≡◌, ◌<◌, not, length, is_some};
ghost use Rattle.ptk_words_model.specs.State.{with_console};
ghost use Rattle.ptk_words_model.specs.Console.{is_full, with_waiter};
ghost use Rattle.ptk_console.specs.ConsoleTable.{after_put, first_byte, next_byte, without_byte, IsNotWaiting};
ghost use Rattle.ptk_gate_pools.specs.Held.{limits_here};

use crate::pools::Pools;
use ptk_words::{ThreadNo, Tick};

impl Pools {
    /// Whether the partition's output has all the bytes that it may have.
    pub fn is_output_full(&self) -> bool
        ensures { result ≡ is_full (limits_here self.now).output self.now.here.console }
    {
        let p = self.hand;
        self.consoles.is_full(p)
    }

    /// Appends a byte to the output; false, and nothing changes, where the output is full.
    #[tactic(auto, using(crate::proofs::Hands::handed))]
    pub fn put_byte(&mut self, byte: u8) -> bool
        ensures told { result ≡ not (is_full (limits_here self.old).output self.old.here.console) }
        ensures moved { self.new ≡ record self.old { here = with_console (after_put (limits_here self.old).output byte) self.old.here } }
    {
        let p = self.hand;
        self.consoles.put(p, byte)
    }

    /// Whether the next input byte comes at the tick or before.
    #[tactic(auto, using(crate::proofs::Hands::handed))]
    pub fn is_input_due(&self, tick: Tick) -> bool
        ensures { result ≡ is_some (next_byte tick self.now.here.console) }
    {
        let p = self.hand;
        self.consoles.is_due(p, tick)
    }

    /// Takes the ring's first byte; None, and nothing changes, where the ring is empty.
    #[tactic(auto, using(crate::proofs::Hands::handed))]
    pub fn take_byte(&mut self) -> Option<u8>
        ensures told { result ≡ first_byte self.old.here.console }
        ensures moved { self.new ≡ record self.old { here = with_console without_byte self.old.here } }
    {
        let p = self.hand;
        self.consoles.get(p)
    }

    /// The thread is the last waiter for a byte.
    #[tactic(auto, using(crate::proofs::Hands::handed))]
    pub fn add_waiter(&mut self, t: ThreadNo)
        requires new { IsNotWaiting t self.old.here.console }
        ensures { self.new ≡ record self.old { here = with_console (with_waiter t) self.old.here } }
    {
        let p = self.hand;
        self.consoles.add_waiter(p, t);
    }
}
