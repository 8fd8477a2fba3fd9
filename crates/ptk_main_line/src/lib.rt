#![tactic(auto)]

//! The command line of the program: what its words ask for, the texts of its help, and its version.
//!
//! - The numbers of a request that `read_line` returns are within their ranges (`in_range`: `IsInRange`).
//!
//! Each command's options are a struct. Below is the crate `clap`; above is the program, which prints an error, and has
//! its status from `Error::use_stderr` and `Error::kind`.

mod commands;
mod deadlines;
mod help;
mod kinds;
mod line;
mod requests;
mod values;

pub use deadlines::NamedDeadline;
pub use kinds::{FAILURE_KINDS, FailOn, FailureKind};
pub use line::{
    MOST_STEPS, MOST_THREADS, MOST_TICKS, not_text, one_file, over_input, read_line, undecoded,
};
pub use requests::{
    AsmOptions, CheckOptions, DisasmOptions, ExplainOptions, Format, ImpactOptions, PictureFormat,
    Request, RunOptions, RunTo, StatsOptions, TimelineOptions, TraceOptions,
};
