#![tactic(auto)]

//! The tables of all partitions, `Tables`: the pools with what holds of them between calls, the loading of images, the
//! calls by the call table, and steps of a quiet partition in a row.
//!
//! - `Tables::new`, `load` and `refuse_image` make each partition's start.
//! - `call` is the call table's row for p (reply and state), and every other partition's part stays.
//! - That each partition's part is whole (`IsWell`) is the invariant of `Tables`, kept by every call.
//! - `call` requires that p is not halted and a thread of it runs.
//! - `Tables::take_call` is the turn of a thread whose next step is known to be a call (`after_turn`, `spent_in_turn`).
//! - `Tables::quiet_until` returns the tick up to which a partition is quiet (`Tables::prepared_until` does where the
//!   running thread is known to be chosen), and `Tables::run_quiet` makes its plain steps and quiet calls in a row.
//! - `effective_priority` and `owner` return these of a thread and of a mutex.
//!
//! Each public call names its partition, takes it in hand and makes the model's move on the part in hand. This is the
//! one place where a move of the part in hand is lifted to the tables (`lifted` of `ptk_gate_pools`). At an ECALL that
//! was looked up `Tables::pass_ecall` puts the pc past it, and the kernel makes the call; `Tables::instruct` makes the
//! effect of any other instruction. `Tables::stays_idle_until` returns how long a partition has nothing to do. Below
//! are the pools and their moves; above are the kernel and the system. Costly to prove are `call` and `load`.

mod calls;
mod loading;
mod rows;
mod steps;
mod tables;
mod telling;
mod turns;

pub use calls::call;
pub use ptk_gate_steps::{NextStep, Quiet, Reached, step_cost};
pub use ptk_words_model::{Reply, Spent};
pub use tables::Tables;
