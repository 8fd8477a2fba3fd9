//! A tick at which two partitions' windows differ.

ghost use Rattle.std.specs.Prelude.{◌≤◌, ◌↔◌, IsTrue};
ghost use Rattle.ptk_words.specs.declared.TheConstants.{LAST_TICK};

use ptk_words::{LAST_TICK, Tick};

/// A tick at which two partitions' windows differ, with the ends of the windows that hold it.
#[derive(Clone, Copy)]
pub struct Difference {
    /// The tick.
    pub tick: Tick,
    /// The first tick after the first partition's window that holds the tick. None if none of its windows holds it.
    pub end: Option<Tick>,
    /// The first tick after the other partition's window that holds the tick. None if none of its windows holds it.
    pub other_end: Option<Tick>,
}

impl Difference {
    /// Whether the tick comes after the last tick of every run, which has at most 2^40. The windows are then the same
    /// for every run.
    pub fn is_past_runs(&self) -> bool
        ensures { IsTrue result ↔ (LAST_TICK ≤ self.now.tick) }
    {
        self.tick.ticks() >= LAST_TICK
    }
}
