#![tactic(auto)]

//! The moves composed of several: reply, refuse, block, halt, the end of a turn, a round-robin interval, the
//! beginning of a thread and of an unwinding, and cancellation points; and what the running thread's next step is.
//!
//! - The model's moves that write several components, each one equation over the pools: `reply`, `refuse`, `succeed`,
//!   `block`, `halt`, `push_tail`, `end_turn`, `step_back`, `count_interval`, `begin` (a thread),
//!   `start_unwinding`, `call_routine`, `cancel` (at a cancellation point).
//! - Calls 0, 11 and 14: `exit`, `leave`, `own_number`.
//! - By a `Look` at one partition: what the next step is, the registers that it starts from, and what the trace keeps
//!   of it (`next_step`, `runner`, `registers`, `a0_after`).
//!
//! Besides there is what a word of a guest means: a thread, a priority, a deadline, a place in memory. Below is
//! `ptk_gate_pools`, whose `Pools`, `Look` and specs are passed on to the crates above: `ptk_gate_threads`,
//! `ptk_gate_steps`, `ptk_gate_threads`, `ptk_gate_sync` and the gate's tables. Costly to prove is `begin`, four moves
//! in a row.

mod blocking;
mod calls;
mod cancellation;
mod creation;
mod intervals;
mod places;
mod replies;
mod targets;
mod times;
mod turns;
mod unwinding;
mod words;

pub use blocking::{block, halt};
pub use calls::{exit, leave, own_number};
pub use cancellation::{cancel, is_cancelled, is_to_unwind, is_used_cancelled};
pub use creation::begin;
pub use intervals::count_interval;
pub use places::{end_turn, push_tail, step_back};
pub use ptk_gate_pools::{Look, Pools};
pub use ptk_threads::ThreadField;
pub use replies::{refuse, reply, succeed, succeed_with, succeed_with_two};
pub use targets::{named_thread, target};
pub use times::asked_deadline;
pub use turns::{NextStep, a0_after, next_step, registers, runner, word_fetched};
pub use unwinding::{call_routine, start_unwinding};
pub use words::{WORD_VALUES, is_pointer, named_priority, policy_number};
