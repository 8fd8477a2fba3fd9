#![tactic(auto)]

//! The picture of a run as SVG on any writer (`picture_with`): a lane for each partition with its windows shaded, in
//! it a row for each thread, and marks of what came.
//!
//! - `picture_with` returns `NoTicks` if and only if `from` is not before `to`, and has then written nothing.
//!
//! It opens in any browser, without script or network, and is drawn from a recording of the run
//! (`ptk_timeline_segments`) in at most `MOST_COLUMNS` columns of as few ticks as that allows. The windows are those
//! that the plan has at these ticks. Drawing takes no memory. Above are `ptk_main_commands`, and of the tests
//! `ptk_main_rows` and `ptk_main_stored`.

mod axis;
mod grid;
mod heading;
mod lanes;
mod legend;
mod marks;
mod picture;
mod rows;
mod signs;
mod style;
mod text;
mod windows;
mod words;

pub use picture::{PictureFault, picture_with};
pub use ptk_disasm::Symbols;
pub use ptk_timeline_segments::{
    Cell, Files, LaneRow, Names, Recording, Scale, Shade, Starts, System,
};
