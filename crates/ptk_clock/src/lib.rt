#![tactic(auto)]

//! Ticks of times, and the deadlines of all partitions' slots in one order, of which the least due one is the model's
//! next expiry; and the same by partition and thread (`ThreadDeadlines`).
//!
//! - `to_tick` is the least tick not before the time, `from_tick` the time of a tick.
//! - `Deadlines`, in a plain and in a shared form, is a list of pairs of deadline and slot in order, each call one
//!   equation on it.
//! - `due` is the least due pair among the slots given, which is the model's next expiry of their partition
//!   (`due_by_slot`); `take_due` takes it out.
//! - `SharedDeadlines::pairs` lends one vector for all partitions, and `added_by_slot`, `removed_by_slot` say that a
//!   pair changes its own partition's deadlines alone.
//! - `ThreadDeadlines` is that vector seen as a list by partition and thread, each call of which changes one
//!   partition's alone, with each partition's least deadline beside it.
//!
//! A tick is 1,000 ns. Pairs are ordered by deadline and then slot. `PlainDeadlines` looks its pairs through;
//! `SharedDeadlines` is one vector for all partitions, in which places are found by binary search, and a removal goes
//! through it once. All have room for all slots from the start, so that no call but a constructor takes memory. Costly
//! to prove are that room, that a place found is the pair's place in the order, and that one partition's change leaves
//! the others' deadlines (`proofs/Rooms`, `proofs/Places`, `proofs/ByThread`). Below are `ptk_words`,
//! `ptk_words`, and the order of expiries of `ptk_words_model` and `ptk_words_sync_invariant`; above is the slot
//! table of `ptk_threads`, which keeps a deadline for each timed wait.

mod deadlines;
mod laws;
mod pairs;
mod plain;
mod queue;
mod shared;
mod threads;
mod ticks;

pub use deadlines::Deadlines;
pub use laws::{added_by_slot, due_by_slot, listed_by_slot, removed_by_slot, words_are_signed};
pub use plain::PlainDeadlines;
pub use shared::SharedDeadlines;
pub use threads::ThreadDeadlines;
pub use ticks::{from_tick, to_tick};
