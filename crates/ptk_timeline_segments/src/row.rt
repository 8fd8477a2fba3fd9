//! A thread's looks over the ticks, by columns.

use crate::look::Look;
use crate::scale::Scale;
use crate::tally::{Cell, Tally};
use std::alloc::{AllocError, Global};

/// A thread's looks from the first tick on: its columns, what is known of the one at hand, the look that holds, and the
/// tick up to which all is counted.
#[derive(Drop)]
pub struct LaneRow {
    scale: Scale,
    cells: Vec<Cell>,
    tally: Tally,
    look: Look,
    counted: u64,
}

impl LaneRow {
    /// A row of no ticks yet, which begins with a look, with room for all columns. An error if memory ran out. No other
    /// call takes memory.
    pub(crate) fn new(alloc: Global, scale: Scale, look: Look) -> Result<LaneRow, AllocError> {
        Ok(LaneRow {
            scale,
            cells: vec![in alloc; Cell::EMPTY; scale.columns()]?,
            tally: Tally::EMPTY,
            look,
            counted: scale.from(),
        })
    }

    /// Another look holds from a tick on.
    pub(crate) fn turn(&mut self, look: Look, tick: u64) {
        self.hold(tick);
        self.look = look;
    }

    /// The look holds at each tick that is not counted yet and comes before this one.
    pub(crate) fn hold(&mut self, tick: u64) {
        let stop = tick.min(self.scale.to());
        if stop <= self.counted {
            return;
        }
        let column = self.scale.column_of(self.counted);
        self.hold_in(column, stop);
        let end = self.scale.columns_before(stop);
        self.fill(column.saturating_add(1), end);
        if self.counted < stop {
            self.hold_in(end, stop);
        }
    }

    /// The look holds in whole columns, from one on and before another.
    fn fill(&mut self, first: usize, end: usize) {
        if end <= first {
            return;
        }
        let whole = Cell::whole(&self.look);
        if let Some(cells) = self.cells.as_mut_slice().get_mut(first..end) {
            put_each(cells, &whole);
        }
        self.counted = self.scale.start_of(end);
    }

    /// The look holds in a column at each tick that is not counted yet and comes before this one.
    fn hold_in(&mut self, column: usize, stop: u64) {
        let end = self.scale.start_of(column.saturating_add(1));
        let until = end.min(stop);
        let look = self.look;
        if until == end && self.tally.is_empty() {
            let whole = Cell::whole(&look);
            self.show(column, whole);
        } else {
            let ticks = until.saturating_sub(self.counted);
            self.tally.add(&look, ticks);
            if until == end {
                let cell = self.tally.cell();
                self.show(column, cell);
                self.tally = Tally::EMPTY;
            }
        }
        self.counted = until;
    }

    /// A column is complete.
    fn show(&mut self, column: usize, shown: Cell) {
        if let Some(cell) = self.cells.get_mut(column) {
            *cell = shown;
        }
    }

    /// The columns.
    pub fn cells(&self) -> &[Cell] {
        self.cells.as_slice()
    }
}

/// Each of the columns is this one.
fn put_each(cells: &mut [Cell], shown: &Cell) {
    for cell in cells.iter_mut() {
        *cell = *shown;
    }
}
