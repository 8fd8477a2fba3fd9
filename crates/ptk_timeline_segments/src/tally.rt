//! The ticks of a column by shades, and what the column shows of them.

use crate::look::{Look, SHADES};

/// A column of a row.
#[derive(Clone, Copy, PartialEq, Eq)]
pub struct Cell {
    /// The last look of the shade that held longest, of the first of these at a draw.
    pub look: Look,
    /// Whether there was a look of another shade too.
    pub is_mixed: bool,
}

impl Cell {
    /// The cell of a column without ticks.
    pub(crate) const EMPTY: Cell = Cell {
        look: Look::FREE,
        is_mixed: false,
    };

    /// The cell of a column in which one look holds.
    pub(crate) fn whole(look: &Look) -> Cell {
        Cell {
            look: *look,
            is_mixed: false,
        }
    }
}

/// The ticks of a column at which a shade held, and its last look there.
#[derive(Clone, Copy)]
struct Share {
    look: Look,
    ticks: u64,
}

/// The ticks of a column so far: those of each shade, and how many they are in all.
#[derive(Clone, Copy)]
pub(crate) struct Tally {
    shares: [Share; SHADES],
    total: u64,
}

impl Tally {
    /// The tally of no ticks.
    pub(crate) const EMPTY: Tally = Tally {
        shares: [Share {
            look: Look::FREE,
            ticks: 0,
        }; SHADES],
        total: 0,
    };

    /// Whether no ticks are counted.
    pub(crate) fn is_empty(&self) -> bool {
        self.total == 0
    }

    /// Counts ticks at which the look held.
    pub(crate) fn add(&mut self, look: &Look, ticks: u64) {
        let place = look.shade().place();
        self.shares[place] = Share {
            look: *look,
            ticks: self.shares[place].ticks.saturating_add(ticks),
        };
        self.total = self.total.saturating_add(ticks);
    }

    /// What the column shows of these ticks.
    pub(crate) fn cell(&self) -> Cell {
        let mut longest = self.shares[0];
        for share in self.shares.iter() {
            if longest.ticks < share.ticks {
                longest = *share;
            }
        }
        Cell {
            look: longest.look,
            is_mixed: longest.ticks < self.total,
        }
    }
}
