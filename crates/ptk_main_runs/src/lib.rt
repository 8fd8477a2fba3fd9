#![tactic(auto)]

//! Whole runs: `run_with` and `trace_with` make a report or a trace of a configuration, its files and ticks.
//!
//! - `run_with` and `trace_with` write the report, or the named partition's trace, of the booted configuration after
//!   the given ticks. A trace that is written has only steps with a thread's number and words (`steps`: `IsStep`).
//! - Where they are refused the writer is as it was (`silent`).
//! - `part_named` is the first section of a name.
//!
//! `PutFault` says why an answer that was begun is not written to its end; `put_members` and `put_object` put members
//! of JSON objects. Below are the configuration (`ptk_config`), the system (`ptk_system`) and traces (`ptk_trace`);
//! above are the answers to requests, and the worked rows, `ptk_main_rows`. No clause is costly to prove.

mod fault;
mod members;
mod runs;

pub use fault::PutFault;
pub use members::{Value, put_members, put_object};
pub use ptk_system::{
    Activity, BootFault, Files, MutexState, PartStatus, System, cause_word, image_fault_words,
};
pub use runs::{RunFault, part_named, run_with, trace_with};
