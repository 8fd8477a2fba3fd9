//! Which ticks are shown, and in how many columns.

ghost use Rattle.std.specs.Prelude.{◌<◌, ◌≤◌};
ghost use Rattle.ptk_words.specs.declared.TheConstants.{LAST_TICK};

use ptk_words::Tick;

/// The ticks from one to a later one, in columns of equally many ticks; the last column may have fewer.
#[derive(Clone, Copy)]
pub struct Scale {
    from: u64,
    to: u64,
    each: u64,
    ghost order: { from ≤ to },
    ghost last: { to ≤ LAST_TICK },
    ghost some: { 0 < each },
}

impl Scale {
    /// The ticks from `from` on and before `to`, none if `to` is not after `from`, in at most this many columns, with
    /// as few ticks in each as that allows: one if there are no more ticks than columns.
    pub fn new(from: Tick, to: Tick, most: u32) -> Scale
        requires { to ≤ LAST_TICK }
    {
        let to = to.ticks();
        let from = from.ticks().min(to);
        let each = (to - from).div_ceil(u64::from(most).max(1)).max(1);
        Scale { from, to, each }
    }

    /// The first tick.
    pub fn from(self) -> u64
        ensures { result ≤ LAST_TICK }
    {
        self.from
    }

    /// The tick after the last.
    pub fn to(self) -> u64
        ensures { result ≤ LAST_TICK }
    {
        self.to
    }

    /// How many ticks a column has, at least one.
    pub fn each(self) -> u64
        ensures { 0 < result }
    {
        self.each
    }

    /// How many columns there are, each with a tick at least.
    pub fn columns(self) -> usize {
        (self.to - self.from).div_ceil(self.each) as usize
    }

    /// The column of a tick from the first on.
    pub fn column_of(self, tick: u64) -> usize {
        (tick.saturating_sub(self.from) / self.each) as usize
    }

    /// How many columns end at a tick or before it.
    pub(crate) fn columns_before(self, tick: u64) -> usize {
        if self.to <= tick {
            self.columns()
        } else {
            self.column_of(tick)
        }
    }

    /// The first tick of a column; of one past the last, the tick after the last.
    pub fn start_of(self, column: usize) -> u64
        ensures { result ≤ LAST_TICK }
    {
        let before = (column as u64).saturating_mul(self.each);
        self.from.saturating_add(before).min(self.to)
    }
}
