#![tactic(auto)]

//! What happens to each partition of a run, in order, told to a probe: `Tracer::run`.
//!
//! - `Tracer::at` leaves the system at the first tick, and `Tracer::run` and `Tracer::run_part` leave it as
//!   `System::run_to` does.
//!
//! A `Tracer` goes with a booted system from one tick to another. A probe (`Probe`) is told each event by `see`,
//! partition by partition and tick by tick: stretches of plain steps, calls with their number and reply, what a thread
//! does from a tick on and by whose step, lost ticks, lost input, new owners of mutexes, the status, and the begins and
//! ends of windows. Figures, pictures and dumps of a run are folds over these events; what a reader of them keeps of a
//! partition is its `PartState`. Below is the system (`ptk_system`); above are the tools that look at a run.

mod carried;
mod decision;
mod event;
mod owners;
mod part;
mod reading;
mod row;
mod state;
mod tracer;
mod window;

pub use event::{CallStep, Change, Event, Reply, Steps};
pub use part::PartState;
pub use ptk_system::{Activity, BootFault, Files, PartStatus, System};
pub use state::ThreadState;
pub use tracer::{Probe, Tracer};
