#![tactic(auto)]

//! A run as a Value Change Dump (IEEE 1364-2005, section 18) and as trace events in JSON (`dump_with`, by its `Form`),
//! written while the run goes on.
//!
//! - Nothing is written if the first tick is not before the last, which is returned before the boot, or if the system
//!   does not boot (`dump_with`, `past`, `silent`).
//!
//! Both are folds over the events of the run (`ptk_tracepoints`): what came at a tick is written when the next tick
//! comes, so what changes twice at a tick is written once. Below are the configuration (`ptk_config`), symbols, and the
//! events; above are `ptk_main_commands` and tests.

mod change;
mod dump;
mod events;
mod fault;
mod run;
mod screen;
mod sheet;
mod shown;
mod vcd;

pub use fault::FormatFault;
pub use run::dump_with;
pub use sheet::Form;
