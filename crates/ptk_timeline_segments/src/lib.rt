#![tactic(auto)]

//! What each thread of a run was, from which tick to which, by columns of a picture (`Recording`); a partition's
//! windows one after the other (`next_window`); and where the threads of a run start, with the names of the routines
//! there (`Starts`, `Names`).
//!
//! - A recording is a fold over the events of the run (`ptk_tracepoints`). It has a lane for each partition, in it a
//!   row for each thread number of the partition, and in that each column of the scale.
//! - A column of many ticks has the last look of the shade (running, ready, blocked, ..) that held longest in it, of
//!   the first one at a draw, and shows whether another held too. It has a mark if and only if one of its ticks has
//!   it.
//! - `next_window` returns ticks from `from` on and before `stop`, at least one.
//!
//! Rows and marks are kept by columns, in room that is made once. Below are the events of a run, its window plan and
//! symbols; the drawing, `ptk_timeline`, is above.

mod lane;
mod look;
mod marks;
mod recording;
mod row;
mod scale;
mod starts;
mod tally;
mod windows;

pub use lane::Lane;
pub use look::{Look, Shade};
pub use marks::Marks;
pub use ptk_tracepoints::{Activity, Files, PartStatus, System};
pub use recording::Recording;
pub use row::LaneRow;
pub use scale::Scale;
pub use starts::{Names, Starts};
pub use tally::Cell;
pub use windows::{Span, next_window};
