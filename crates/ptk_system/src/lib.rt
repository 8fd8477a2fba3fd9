#![tactic(auto)]

//! A system of partitions, `System`: boot from a configuration and files, run, getters (what each thread does among
//! them), and report; and the laws of separation.
//!
//! - `states_are_alone`, `two_worlds`, `idle_world`, `one_processor`, `decisions_are_own` and `steps_are_apart`: the
//!   promises of separation, each with its clause in docs/GUARANTEES.md.
//! - Over the ticks that `compute_to` and `call_to` go over each thread does what it did (`steady`: `GoesOnAsIs`), and
//!   a call that `call_to` goes over is the last that happens to its partition (`last`: `StaysBehindCall`).
//! - `cause_word` is the report's word for a cause.
//!
//! A system's value has the state that each partition is in, and every getter, the tables and the report are functions
//! of it. The headline is the invariant of `System`, which `states_are_alone` states: after any ticks each partition's
//! state is the one that the definition gives it alone, of its own ticks, its section, its image and its input. Below
//! are all partitions over the ticks (`ptk_system_machine`), the files (`ptk_image`), the kernel, images, the
//! configuration, windows and traces; above is the program. Costly to prove is that loading one image leaves every
//! other partition (`proofs/Loading`).

mod activity;
mod booting;
mod fault;
mod laws;
mod report;
mod status;
mod system;
mod telling;

pub use activity::Activity;
pub use fault::BootFault;
pub use laws::{
    decisions_are_own, idle_world, one_processor, steps_are_apart, stop_on_the_way, two_worlds,
};
pub use ptk_image::{Files, image_fault_words};
pub use ptk_roster::MutexState;
pub use status::{PartStatus, cause_word};
pub use system::System;
