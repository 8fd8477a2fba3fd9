#![tactic(auto)]

//! What the tests of whole runs share: guests in assembly, and calls that assemble, configure, boot and run them.
//!
//! Memory is ample in tests, so the calls return None if it runs out. They promise nothing, and stand between each test
//! and the calls that it tests, so that a check does not compute the runs. The tests here are those of whole runs that
//! need code of their own: a run that stops on the way, a writer that fails, neighbours that are compared, and one run
//! at the greatest limits. The worked rows are files, which `ptk_main_stored` reads. Below are the assembler
//! (`ptk_asm`), and whole runs and their system (`ptk_main_runs`); above are the other crates of tests of whole runs.

mod guests;
mod runs;
pub mod sources;
#[cfg(test)]
mod tests;

pub use guests::{
    ALONE, LIBRARY, NUMBERS, P, TIMES, config_of, files_with, guest_of, image_of, is_report,
    report_of, trace_of,
};
pub use ptk_config::Config;
pub use ptk_main_runs::{BootFault, Files, RunFault, System, run_with, trace_with};
pub use runs::{booted, report_now, run_on_to, trace_now};
