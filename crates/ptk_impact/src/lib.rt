#![tactic(auto)]

//! What a new configuration can change for a partition: `Impact::between` compares what boot sees of it in two systems,
//! and promises the same run if that is the same.
//!
//! - `Impact::between` returns unchanged, unchanged but for the trace kept or changed if and only if what boot sees of
//!   two partitions is the same, the same but for the trace's length, or neither, and of a changed one exactly what
//!   differs (`views`).
//! - After every number of ticks up to 2^40 the states are then the same, or the same but for the kept entries, and so
//!   are the parts of the report (`runs`).
//! - `first_difference` returns None if and only if two partitions, each of any window plan, have the same `end_at` at
//!   every tick, and else the least tick at which the two differ with both ends there.
//! - `agreement_spreads`: two partitions that agree from the beginning of each stage of either plan for one frame of
//!   each agree at all ticks.
//! - Runs of a partition alone (`alone`) with the same own ticks, image and input: if the limits differ in the trace's
//!   length alone, the states differ in the kept entries alone at every tick (`trace_is_all_that_differs`), and the
//!   shorter trace has the last entries of the longer one (`shorter_trace_is_tail`).
//! - If the limits differ in `output` alone, the states are the same, in all parts, at every tick at which the run with
//!   the smaller limit has written less than that limit, or the one with the larger limit no more than it
//!   (`larger_output_is_same_run`). What is written stays (`output_is_only_added_to`).
//!
//! In a stage a partition's windows repeat with the frame, so `first_difference` looks no further than one frame of
//! each plan from the beginning of each stage. The weight of the proofs is in `proofs/Repeats`, two functions that repeat,
//! each with a period of its own, and agree for the sum of the two periods, agree everywhere, and in the system's laws
//! below. The functions without code are laws of the definitions. Below are `ptk_window` and `ptk_system`; above is the
//! program.

mod changes;
mod comparison;
mod difference;
mod image;
mod impact;
mod input;
mod laws;
mod limit_laws;
mod limits;
mod lists;
mod search;
mod subject;
mod window_laws;

pub use changes::Changes;
pub use difference::Difference;
pub use image::ImageChange;
pub use impact::Impact;
pub use input::InputChange;
pub use laws::{deeper_trace_is_same_run, same_view_is_same_run};
pub use limit_laws::{
    larger_output_is_same_run, output_is_only_added_to, shorter_trace_is_tail,
    trace_is_all_that_differs,
};
pub use limits::{LimitChange, LimitChanges};
pub use search::first_difference;
pub use subject::Subject;
pub use window_laws::agreement_spreads;
