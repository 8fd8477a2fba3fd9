#![tactic(auto)]

//! The window plan: which partition's window has a tick, a partition's next own tick, its next turn from where it was
//! last (`Near`), and its way from window to window (`Walk`).
//!
//! - `WindowPlan::new` returns the first fault, and a plan only where there is none.
//! - `at` and `next_of` are the sets of own ticks, periodic from each stage's frame to the next one's, and the
//!   definition's look-ups.
//! - `turn_from` is the partition's next window, its first tick from a given one on and its end, wherever it was last
//!   looked up.
//! - `turn_after` of a `Walk` is the same from the end of the window that the walk is at, and `turn_from` from any
//!   tick.
//! - `stages` and `begin_of` return the number of stages and the tick at which each begins.
//! - The look-ups answer for ticks up to 2^57.
//!
//! Searches halve the stages and a stage's windows, so that a decision costs no more with many of them; only over
//! stages in which the partition has no window does a search go one by one. `turn_from` searches only where the next
//! window is neither the one where the partition was last (`Near`) nor its next one. The weight of the proofs is in the
//! orders of a stage's two sorted lists (`proofs/Orders`), what a search in them finds (`proofs/Searches`), which stage
//! has a tick (`proofs/StageLaws`) and where a partition's next window is (`proofs/Nexts`). Below are `ptk_words` and
//! `ptk_words_model`; above are the configuration and the system.

mod faults;
mod lookup;
mod near;
mod plan;
mod stages;
mod table;
mod walk;

pub use faults::{fault_of, overlaps_any, plan_fault, window_fault};
pub use near::{Near, Turn};
pub use plan::WindowPlan;
pub use ptk_words_model::{Window, WindowFault};
pub use walk::Walk;
