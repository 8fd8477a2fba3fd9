#![tactic(auto)]

//! One decision of one partition at a tick of its own (`decide`), its two halves (`prepare`, `take_turn`), and in place
//! of decisions plain steps and quiet calls in a row (`run_quiet`) and the ticks over which a partition has nothing to
//! do (`stays_idle_until`).
//!
//! - `decide` is the model's decision for p, spends what it says, at most 16 ticks a step, and leaves every other part.
//! - `decide` requires that p is not halted and room is at least 1.
//! - `quiet_until` returns the tick up to which a partition is quiet.
//! - `run_quiet` makes plain steps and quiet calls of a quiet partition in a row in place of decisions, up to that
//!   tick: each is one decision, and a step (`HasGone`), with the trace after them.
//! - `run_quiet` ends before the tick of `quiet_until` only where the next step is neither a plain one nor a quiet call
//!   that ends in time (`HasEnded`), or, behind a step, at a tick that the caller gives (`until`) or later.
//! - `run_quiet` leaves the partition as quiet as it was: each thread waits as before, and each mutex that threads wait
//!   for stays (`IsQuietStep`, `IsSteady`).
//! - `prepare` is the part of `decide` up to the choice of the running thread (`ready_at`), and `take_turn` the rest
//!   (`after_turn`, `spent_in_turn`), of whatever state p is in.
//! - `take_call` is `take_turn` of a partition whose next step is known to be a call, as `run_quiet` may say of the
//!   step before which it ends (`IsCallNext`).
//! - `prepare` leaves the running thread chosen (`IsChosen`), and then `prepared_until` is `quiet_until`.
//!
//! `prepare`, `take_turn` and `take_call` are public, since between the two halves a caller may find that the
//! partition is quiet. `last_step` returns the trace's entry. `quiet_until` tests once that nothing else can come.
//! `idle_until` returns when the partition's next deadline or input comes. `decide` and `idle_until` are for callers
//! who take one decision at a time; the system uses the halves of the first, and `stays_idle_until`. Below are the
//! gate's tables, which carry out each part of a decision, and `call` and `take_call` of the gate, one of which makes
//! every call that is not a quiet one of a row; above is the system. Costly to prove is that two moves one after
//! another are the model's one: `tables.parts()` is read first there, for its clause that every component of the tables
//! has an entry for each partition.

mod decisions;
mod events;
mod rows;
mod steps;

pub use decisions::{decide, last_step, prepare, take_call, take_turn};
pub use events::idle_until;
pub use ptk_gate::{Quiet, Reached, Tables};
pub use ptk_words_model::Spent;
pub use rows::{prepared_until, quiet_until, run_quiet, stays_idle_until};
