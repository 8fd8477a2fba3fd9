//! A partition's clock on the way through a run.

ghost use Rattle.std.specs.Prelude.{◌≤◌};
ghost use Rattle.ptk_words.specs.declared.TheConstants.{LAST_TICK};

use crate::moment::Moment;
use crate::own::OwnWindows;
use ptk_window::WindowPlan;
use ptk_words::{PartId, Tick};

/// Counts a partition's own ticks up to the moment that was asked for last, in a run that ends at a tick.
#[derive(Clone, Copy)]
pub struct OwnClock {
    windows: OwnWindows,
    own: u64,
    tick: u64,
    end: u64,
    ghost own_within: { own ≤ tick },
    ghost tick_within: { tick ≤ end },
    ghost end_within: { end ≤ LAST_TICK },
}

impl OwnClock {
    /// That of a partition, at a tick of a run that ends at one which is not before it, and at most 2^40.
    pub fn new(plan: &WindowPlan, partition: PartId, from: Tick, end: Tick) -> OwnClock
        requires order { from ≤ end }
        requires early { end ≤ LAST_TICK }
    {
        OwnClock {
            windows: OwnWindows::new(plan, partition),
            own: 0,
            tick: from.ticks(),
            end: end.ticks(),
        }
    }

    /// The moment of a tick that is not before those asked for so far, the run's end if the tick comes later.
    #[inline(always)]
    pub fn moment(&mut self, plan: &WindowPlan, tick: u64) -> Moment {
        let tick = tick.min(self.end);
        if self.tick < tick {
            let own = self.windows.between(plan, self.tick, tick);
            self.own += own;
            self.tick = tick;
        }
        Moment {
            own: self.own,
            tick,
        }
    }

    /// The tick at which the run ends.
    pub fn end(&self) -> u64 {
        self.end
    }
}
