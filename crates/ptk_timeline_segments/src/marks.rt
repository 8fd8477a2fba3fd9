//! What came in the columns of a lane.

use crate::scale::Scale;
use std::alloc::{AllocError, Global};

/// What came in a column.
#[derive(Clone, Copy, PartialEq, Eq)]
pub struct Marks {
    /// A step began; never if a column is many ticks.
    pub is_stepped: bool,
    /// Ticks were lost at a window's end.
    pub is_lost: bool,
    /// Input bytes were lost, the ring being full.
    pub is_dropped: bool,
    /// The partition halted: it exited, or stopped at a fault or a break.
    pub is_halted: bool,
}

/// What can come at a tick.
#[derive(Clone, Copy)]
pub(crate) enum Mark {
    Step,
    Lost,
    Dropped,
    Halted,
}

impl Marks {
    /// Nothing came.
    const NONE: Marks = Marks {
        is_stepped: false,
        is_lost: false,
        is_dropped: false,
        is_halted: false,
    };

    /// These marks and another one.
    fn with(mut self, mark: Mark) -> Marks {
        match mark {
            Mark::Step => self.is_stepped = true,
            Mark::Lost => self.is_lost = true,
            Mark::Dropped => self.is_dropped = true,
            Mark::Halted => self.is_halted = true,
        }
        self
    }
}

/// The marks of a partition's columns.
#[derive(Drop)]
pub(crate) struct Marked {
    scale: Scale,
    columns: Vec<Marks>,
}

impl Marked {
    /// No marks yet, with room for all columns. An error if memory ran out. No other call takes memory.
    pub(crate) fn new(alloc: Global, scale: Scale) -> Result<Marked, AllocError> {
        Ok(Marked {
            scale,
            columns: vec![in alloc; Marks::NONE; scale.columns()]?,
        })
    }

    /// The columns.
    pub(crate) fn columns(&self) -> &[Marks] {
        self.columns.as_slice()
    }

    /// Marks the columns of the ticks from one on and before another. A step is marked only if a column is a tick.
    pub(crate) fn mark(&mut self, mark: Mark, from: u64, until: u64) {
        if matches!(mark, Mark::Step) && self.scale.each() != 1 {
            return;
        }
        let from = from.max(self.scale.from());
        let until = until.min(self.scale.to());
        if until <= from {
            return;
        }
        let end = self.scale.column_of(until - 1).saturating_add(1);
        for column in self.scale.column_of(from)..end {
            if let Some(marks) = self.columns.get_mut(column) {
                *marks = marks.with(mark);
            }
        }
    }
}
