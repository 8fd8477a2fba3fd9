//! A partition's rows, and the marks of its columns.

use crate::look::Look;
use crate::marks::{Mark, Marked, Marks};
use crate::row::LaneRow;
use crate::scale::Scale;
use ptk_tracepoints::{Change, Event, PartState};
use std::alloc::{AllocError, Global};

/// A partition: a row for each thread number, and what came in each column.
#[derive(Drop)]
pub struct Lane {
    rows: Vec<LaneRow>,
    marked: Marked,
}

impl Lane {
    /// The lane of a partition from the scale's first tick on, with a row for each thread number and room for all
    /// columns. An error if memory ran out. No other call takes memory.
    pub(crate) fn new(alloc: Global, scale: Scale, part: &PartState) -> Result<Lane, AllocError> {
        let mut rows = Vec::new(alloc);
        for state in part.threads() {
            rows.push(LaneRow::new(alloc, scale, Look::of(state))?)?;
        }
        Ok(Lane {
            rows,
            marked: Marked::new(alloc, scale)?,
        })
    }

    /// The rows, by thread number from 1.
    pub fn rows(&self) -> &[LaneRow] {
        self.rows.as_slice()
    }

    /// What came in each column.
    pub fn marks(&self) -> &[Marks] {
        self.marked.columns()
    }

    /// An event of the partition comes.
    pub(crate) fn see(&mut self, event: &Event) {
        match event {
            Event::Steps(steps) => self.step(steps.from, steps.count),
            Event::Call(call) => self.step(call.from, 1),
            Event::Change(change) => self.change(change),
            Event::Lost { from, until } => self.marked.mark(Mark::Lost, *from, *until),
            Event::Dropped { tick, .. } => {
                self.marked
                    .mark(Mark::Dropped, *tick, tick.saturating_add(1));
            }
            Event::Status { status, tick } if status.is_halted() => {
                self.marked
                    .mark(Mark::Halted, tick.saturating_sub(1), *tick);
            }
            Event::Status { .. }
            | Event::Reply(_)
            | Event::Owner { .. }
            | Event::WindowBegins { .. }
            | Event::WindowEnds { .. } => {}
        }
    }

    /// Steps begin, one a tick from a tick on.
    fn step(&mut self, from: u64, count: u64) {
        self.marked
            .mark(Mark::Step, from, from.saturating_add(count));
    }

    /// A thread does something else from a tick on.
    fn change(&mut self, change: &Change) {
        if let Some(row) = self.rows.get_mut(change.thread.place()) {
            row.turn(Look::of(&change.now), change.tick);
        }
    }

    /// A tick was reached.
    pub(crate) fn reach(&mut self, tick: u64) {
        for row in self.rows.iter_mut() {
            row.hold(tick);
        }
    }
}
