#![tactic(auto)]

//! What a step costs, and the step of an instruction; up to which tick nothing but the running thread's steps can come,
//! and up to which there is nothing to do; and plain steps and quiet calls in a row.
//!
//! - The ticks of a step are those of its kind (`step_cost`), and of a call those of its number (`call_cost`).
//! - The step of an instruction is one equation over the pools (`instruct`).
//! - The ticks up to which the partition only computes (`quiet_until`; `prepared_until` where the running thread is
//!   known to be chosen) or has nothing to do (`stays_idle_until`); each is the latest such tick.
//! - `run_quiet` makes plain steps of a quiet partition in a row and the quiet calls between them, each with its
//!   effect: a mutex taken or given, a byte put, or a value of a key set. Each is one decision, and a step (`HasGone`),
//!   and it ends early only where the next step is neither (`HasEnded`). Where it says that the next step is a call, it
//!   is one (`IsCallNext`).
//! - From the first quiet call on the thread's registers are apart from its slot and put back once (`caught_up`); what
//!   a call makes does not depend on what the slot has meanwhile (`IsMade`).
//!
//! What the gate's tables ask without a change takes a `Look` at one partition, whichever is in hand, and its clauses
//! speak of that partition's numbers and part alone. Below are the pools and the instructions; above are the gate's
//! tables and the kernel. Costly to prove is `instruct`, which brings what is seen of a step and its effect together.

mod apart;
mod idle_stops;
mod instructions;
mod kinds;
mod quiet_calls;
mod quiet_stops;
mod replies;
mod stretches;
mod traced;

pub use idle_stops::stays_idle_until;
pub use instructions::instruct;
pub use kinds::{call_cost, step_cost};
pub use ptk_gate_moves::{NextStep, a0_after, next_step, registers, runner};
pub use quiet_stops::{Quiet, prepared_until, quiet_until};
pub use stretches::{Reached, run_quiet};
