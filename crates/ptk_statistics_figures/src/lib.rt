#![tactic(auto)]

//! What is measured of a run, and how it is added up: ticks, threads, response times, stacks, mutexes, and calls that
//! wake threads.
//!
//! - It is proved total and free of faults. `OwnClock` never counts more own ticks than there are ticks.
//!
//! `Counted` has the ticks by what became of them, `ThreadStatistics` what a thread did, `Responses` its response times,
//! `StackUse` its stack, `MutexStatistics` who owned a mutex and waited for it, and `ConditionStatistics` the calls that
//! wake threads; `call_name` names each call. Times are counted by all ticks and by a partition's own ones, those of its windows (`Moment`, `Span`). Below are the
//! window plan (`ptk_window`) and what a thread does (`ptk_system`); above are the answers to `stats` (`ptk_statistics`)
//! and decoded traces (`ptk_main_answers`). No clause is costly to prove.

mod calls;
mod clock;
mod condition;
mod counted;
mod doing;
mod moment;
mod mutex;
mod own;
mod response;
mod stack;
mod thread;

pub use calls::{CALLS, call_name};
pub use clock::OwnClock;
pub use condition::{ConditionStatistics, WakeKind, Wakes};
pub use counted::Counted;
pub use doing::Doing;
pub use moment::{Moment, Span};
pub use mutex::{Longest, MutexStatistics};
pub use response::Responses;
pub use stack::{StackPlaces, StackUse};
pub use thread::{CallCount, ThreadStatistics};
