#![tactic(auto)]

//! The keys of all partitions with their destructors, the values by thread and key, and how far each thread's
//! destructor calls are.
//!
//! - Keys with their destructors, values by thread and key, and rounds as lists by partition.
//! - Each call is the model's move for p.
//! - `create` takes the least free number, and `next_destructor` is the least due key above the one passed, or the
//!   least in the next of 4 rounds.
//!
//! Room for all is made by `KeyTable::build` alone. Every call but the constructor is total in all but the partition: a
//! word that is no key has the value 0, and setting something of it changes nothing. Below are `ptk_words`,
//! `ptk_words` and `ptk_words_model`; above, `ptk_gate_pools` has it as one of its pools. Costly to prove is
//! that the least key whose destructor is due is found (`proofs/Due`).

mod destructors;
mod numbers;
mod rounds;
mod table;
mod values;

pub use destructors::DestructorCall;
pub use numbers::KeyNo;
pub use ptk_words_model::thread_counts_of;
pub use table::KeyTable;
