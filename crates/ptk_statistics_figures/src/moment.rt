//! Points and lengths of time, by a partition's own ticks and by all ticks.

/// A number of ticks: of those in the partition's windows, and of all.
#[derive(Clone, Copy, Default)]
pub struct Span {
    /// The ticks in the partition's windows.
    pub own: u64,
    /// All ticks.
    pub wall: u64,
}

impl Span {
    /// The sum of both, neither number above 2^64 - 1.
    pub fn plus(self, more: Span) -> Span {
        Span {
            own: self.own.saturating_add(more.own),
            wall: self.wall.saturating_add(more.wall),
        }
    }

    /// The greater of either number.
    pub fn max(self, other: Span) -> Span {
        Span {
            own: self.own.max(other.own),
            wall: self.wall.max(other.wall),
        }
    }

    /// The lesser of either number.
    pub fn min(self, other: Span) -> Span {
        Span {
            own: self.own.min(other.own),
            wall: self.wall.min(other.wall),
        }
    }
}

/// A tick, with how many of the ticks before it lie in the partition's windows.
#[derive(Clone, Copy, Default)]
pub struct Moment {
    /// How many of the ticks before it lie in the partition's windows.
    pub own: u64,
    /// The tick.
    pub tick: u64,
}

impl Moment {
    /// The time from an earlier moment on, none from a later one.
    pub fn since(self, earlier: Moment) -> Span {
        Span {
            own: self.own.saturating_sub(earlier.own),
            wall: self.tick.saturating_sub(earlier.tick),
        }
    }
}
