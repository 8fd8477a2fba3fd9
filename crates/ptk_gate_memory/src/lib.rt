#![tactic(auto)]

//! The pools of each kind made at boot from the sections' numbers, and `Memories`, the memory of all partitions with
//! its decoded words.
//!
//! - `stores_of`, `schedules_of`, `endings_of` and `records_of` make the pools of each kind as they are at boot, an
//!   entry for each section.
//! - `Memories` is the memory of all partitions: `fill`, `step`, `store_word` and `run_row` each change one partition's
//!   bytes by one equation.
//! - `run_row` and `run_kept` carry out plain steps as `run_plain` does, and the trace is as after a push of each, with
//!   the last step's entry.
//! - That its decoded words are those of the bytes is its invariant (`AreAllDecoded`).
//!
//! Each function takes all the memory that its part ever needs, and returns an error where memory ran out. Its contract
//! is what a reader then sees of it, a list for each section (`per_section`). Whoever writes a byte of memory writes it
//! by `Memories`. Below are the pools of each kind, `ptk_rv32i`, whose loops the rows are, and `ptk_trace`, where their
//! steps are noted (`noted`); above, `ptk_gate_pools` joins the parts to one structure.

mod counts;
mod endings;
mod memories;
mod noted;
mod records;
mod schedules;
mod stores;
mod threads;
mod traced;

pub use endings::Endings;
pub use memories::Memories;
pub use ptk_roster::Roster;
pub use ptk_rv32i::{RowToCall, place_of};
pub use ptk_trace::Trace;
pub use records::{Records, records_of};
pub use schedules::Schedules;
pub use stores::{Stores, stores_of};
pub use threads::{ThreadParts, thread_parts_of};
