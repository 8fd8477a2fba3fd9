#![tactic(auto)]

//! Laws of the definitions, and worked rows that they compute, as the contracts of functions without code.
//!
//! - `costs_are_small`, `calls_are_numbered` (each call is the call of its own number and of no other),
//!   `chain_is_decided` (cycles too), `priority_is_greatest`, `sizes_stay` (each part of a state keeps its size over
//!   whole runs), `arrivals_are_due` (what arrives by a tick is what is due), `expiries_are_in_order`,
//!   `calls_leave_others`, `steps_leave_others` and `decisions_leave_others` (which calls act on another thread than
//!   their caller), `calls_keep_callers`, `steps_keep_callers` and `steps_run_no_others` (after a step its call is in
//!   a7, and no other thread runs).
//! - 66 worked rows that the definitions compute, refused calls and the order of their checks, and robust mutexes at
//!   their owners' ends, among them.
//! - Where no input, deadline or end of an interval comes before a tick and the running thread goes on, a plain step is
//!   the whole decision (`plain_is_decided`), leaves the partition so (`row_stays_quiet`) and whole (`row_keeps_well`),
//!   changes no effective priority (`row_keeps_priorities`), and plain steps in a row are that number of ticks, each
//!   counted as a decision (`row_is_ticks`), under SCHED_RR too.
//! - Ticks in a row join, leave other partitions, and are those of the partition alone (`rows_join`, `others_stay`,
//!   `alone_goes_on`, `window_is_own`).
//! - A quiet call, which replies at once, wakes nobody and changes no priority, is the whole decision of a quiet
//!   partition (`reply_is_decided`) and leaves it quiet (`reply_stays_quiet`).
//! - Where no thread runs or is ready and no input or deadline comes before a tick, a decision changes nothing
//!   (`idle_is_decided`), and ticks in a row change only the tick of the next decision (`idle_is_ticks`).
//! - The arrivals, the expiries and the choice of a tick change nothing of a quiet partition (`quiet_is_prepared`), and
//!   ticks that begin with a decision are the same from the state that is prepared for it (`prepared_goes_on`).
//!
//! They hold of the machine of one partition as it is defined, whatever code carries it. `rows` computes small guests
//! and built states; `laws` says what holds of every state and every run; `batches` has the laws of quiet partitions.
//! `specs/Quiet` says when nothing but plain steps can come before a given tick, and what n plain steps leave;
//! `specs/Replies` what a quiet call is; `specs/Idle` when a partition is idle up to a tick. Costly to prove are
//! `sizes_stay`, whose calls are searched for by rules on lengths (`proofs/Sizes`), `chain_is_decided`, which shortens
//! chains that go round (`proofs/ChainLaws` of `ptk_words_sync_invariant`), and that registers and used ticks change no
//! effective priority and no deadline. Below are the definitions and the laws of moves; above are the crates that carry
//! out rows of steps and pass over idle ticks.

mod batches;
pub mod laws;
pub mod rows;

pub use batches::{
    alone_goes_on, idle_is_decided, idle_is_ticks, none_comes_before, others_stay,
    plain_is_decided, prepared_goes_on, quiet_is_prepared, reply_is_decided, reply_stays_quiet,
    row_is_ticks, row_keeps_priorities, row_keeps_well, row_stays_quiet, rows_join, window_is_own,
};
