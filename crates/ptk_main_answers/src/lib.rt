#![tactic(auto)]

//! What each request over a configuration writes, on any writer, as lines or JSON, once the files are read; among it a
//! partition's trace with each step in words, its symbol, and the names of calls and replies (`decoded_trace_with`).
//!
//! - A fault of `run_answer`, `trace_answer`, `decoded_answer` and `check_with` is the refusal that is due (no partition
//!   of the name, the first missing image, for a check the first image that is refused, each by name), out of memory
//!   only if nothing is lacking, and a failed write only if nothing is refused (`refused`); of a run it may also be
//!   that it is not as expected.
//! - At a fault nothing is written (`silent`), unless the writer failed, or the report of a run that is not as expected
//!   is written. So it is of `explain_with` and `check_document`.
//! - `decoded_trace_with` refuses a name that no partition has before all else (`first`, `known`, `unknown`), and then
//!   the first missing image (`missing`).
//!
//! If lines are asked for and nothing else, `run_answer` is `run_with` of `ptk_main_runs`. What is written is
//! tested. What needs the figures, the pictures or the explanation of a run is in `ptk_main_commands`. Below are the
//! command line (`ptk_main_line`), the faults (`ptk_main_tools`), whole runs (`ptk_main_runs`), symbols and the
//! disassembler, and the words of a configuration (`ptk_config_explain`); above is the program.

mod answer;
mod arguments;
mod check;
mod deadlock;
mod decoding;
mod document;
mod expectation;
mod explanation;
mod filter;
mod lines;
mod naming;
mod replies;
mod run;
mod steps;
mod text;
mod verdict;
mod woken;

pub use answer::{decoded_answer, trace_answer};
pub use check::check_with;
pub use decoding::decoded_trace_with;
pub use expectation::difference;
pub use explanation::explain_with;
pub use filter::Filter;
pub use naming::{boot_fault, run_fault};
pub use ptk_main_runs::{Files, RunFault, System, part_named, run_with, trace_with};
pub use run::{RunQuestion, Watch, run_answer};
pub use verdict::check_document;
