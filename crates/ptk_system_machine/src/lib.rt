#![tactic(auto)]

//! All partitions over the ticks: the tables with each partition's account (next decision, steps, lost ticks, last
//! steps), taken on by preparations of decisions, rows of plain steps, quiet calls, turns of single threads and idle
//! ticks.
//!
//! - A run from a tick to another, one partition after the other and each turn after turn, by rows of plain steps and
//!   quiet calls over any number of windows, turns of single threads and the ticks over which a partition has nothing
//!   to do, does to each partition what these ticks do to it alone (`Machine::run`).
//! - At each tick of a row of plain steps and quiet calls each thread does, and waits for, what it did at the row's
//!   first tick (`Machine::run_row` and `Machine::run_call`, `steady`), and behind a call to which `Machine::run_call`
//!   goes nothing happens to its partition (`last`).
//! - Each turn is prepared once: preparing a quiet partition changes nothing, and ticks that begin with a decision lead
//!   from the prepared state to where they lead from the state before (`quiet_is_prepared`, `prepared_goes_on` of
//!   `ptk_words_laws`).
//!
//! Below are the kernel and the window plan; above is the system. Costly to prove are that a decision and the ticks up
//! to the next one are as many ticks as the definition says (`proofs/Ticks`), that steps in a row are counted as the
//! decisions that they are (`proofs/Decisions`, `proofs/CountedRows`), and, for pictures, where partitions go on side
//! by side, that each may be at a tick of its own (`proofs/Coming`).

mod account;
mod machine;
mod turns;

pub use account::Account;
pub use machine::Machine;
pub use ptk_kernel::Tables;
pub use turns::idle_from;
