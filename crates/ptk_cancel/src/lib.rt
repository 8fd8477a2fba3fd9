#![tactic(auto)]

//! What all partitions' threads keep of cancellation (state, type, request, mark), and their stacks of cleanup
//! handlers.
//!
//! - State, type, request and mark of each thread and its stack of at most 16 cleanup handlers, as lists by partition
//!   and thread.
//! - Each call is one equation that changes one thread's entry, as the model's moves do.
//! - `is_acting` and `is_point_acting` return whether a normal thread is to unwind at once or at a cancellation point.
//! - `next_unwind` takes off the handler pushed last, and that is the model's next move of an unwinding thread.
//!
//! Room for 16 handlers a thread is made by `Cancellations::build` alone. Every call but the constructor is total in
//! all but the partition: past the last thread number nothing is pending, there is no handler, and a change changes
//! nothing. What else cancellation needs of a thread, its phase and its wait, is elsewhere. Below are `ptk_words`,
//! `ptk_words` and `ptk_words_model`; above, `ptk_gate_pools` has it as one of its pools. No clause is costly to
//! prove.

mod entries;
mod stack;
mod stacks;
mod table;

pub use table::Cancellations;
