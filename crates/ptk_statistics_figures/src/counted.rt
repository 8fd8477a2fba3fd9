//! What became of a partition's own ticks, and how many steps it made.

use crate::moment::Moment;

/// A partition's own ticks before the end of a run, and its steps. Each such tick counts once: it is used if a step
/// takes it, also one that ends later; lost at the end of a window for which a step cost too much; after the halt from
/// the tick after the first one of the step with which the partition halted; and idle otherwise.
#[derive(Clone, Copy, Default)]
pub struct Counted {
    own: u64,
    used: u64,
    lost: u64,
    ahead: u64,
    halted_from: Option<u64>,
    steps: u64,
}

impl Counted {
    /// This many steps were made, which took this many ticks.
    #[inline(always)]
    pub fn add_steps(&mut self, steps: u64, ticks: u64) {
        self.steps = self.steps.saturating_add(steps);
        self.used = self.used.saturating_add(ticks);
    }

    /// The ticks from one on and before another were lost, in a run that ends at this one.
    pub fn add_lost(&mut self, from: u64, until: u64, end: u64) {
        let ticks = until.min(end).saturating_sub(from);
        self.lost = self.lost.saturating_add(ticks);
        self.ahead = until.saturating_sub(end);
    }

    /// The partition halted at a moment.
    pub fn halt(&mut self, at: Moment) {
        self.halted_from = Some(at.own);
    }

    /// The run ends.
    pub fn finish(&mut self, at: Moment) {
        self.own = at.own;
    }

    /// How many ticks are the partition's own.
    pub fn own(&self) -> u64 {
        self.own
    }

    /// How many of them steps took.
    pub fn used(&self) -> u64 {
        self.used
    }

    /// How many of them had nothing to do.
    pub fn idle(&self) -> u64 {
        self.own
            .saturating_sub(self.used)
            .saturating_sub(self.lost)
            .saturating_sub(self.halted())
    }

    /// How many of them were lost at ends of windows for which a step cost too much.
    pub fn lost(&self) -> u64 {
        self.lost
    }

    /// How many of them came after the partition's halt.
    pub fn halted(&self) -> u64 {
        match self.halted_from {
            Some(from) => self.own.saturating_sub(from),
            None => 0,
        }
    }

    /// How many ticks at the run's end and after it are lost already.
    pub fn ahead(&self) -> u64 {
        self.ahead
    }

    /// How many steps the partition made.
    pub fn steps(&self) -> u64 {
        self.steps
    }
}
