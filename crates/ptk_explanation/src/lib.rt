#![tactic(auto)]

//! How a partition stands after a run: its status, its threads and since when each does what it does, its deadlocks,
//! and what stopped it, as text or as JSON.
//!
//! - At a fault but the writer's nothing is written, and a partition that there is not is refused before the system
//!   boots (`explain_partition_with`).
//! - A thread is called deadlocked if and only if some number of waits, one at least, leads from it back to it, each
//!   for the owner of a mutex or for the end of a thread, and without a deadline (`is_deadlocked`: `IsDeadlocked`).
//!
//! What the threads have done since when is a fold over the events of the run (`ptk_tracepoints`), and so are the signals
//! that woke nobody; all else is read of the system (`ptk_system`) at the tick that is asked for. Below are also the fault
//! of a run (`ptk_main_runs`), the statement of a word and symbols (`ptk_disasm`); above is the program.

mod answer;
mod deadlock;
mod document;
mod explanation;
mod history;
mod lines;
mod members;
mod memory;
mod place;
mod signals;
mod stop;
mod target;
mod thread;
mod words;

pub use answer::{Form, explain_partition_with};
