#![tactic(auto)]

//! The slot table, the linked line, the mutexes and the condition variables in one, `Roster`, with the waiters of each
//! mutex and condition variable in order of arrival; and one partition's effective priorities computed.
//!
//! - A call of `Roster` changes a thread, its place in the line, stored priorities, a mutex or a condition variable or
//!   its waiters, and says that the rest of what is seen stays.
//! - That all fit each other is the type's invariant (`IsRoster`): the line is sound, every ready thread is in use,
//!   stored priorities of threads in use are 1 to 32, and the queue of a number that is not in use is empty.
//! - `threads` lends the slot table with these stored priorities and says that its queues are these lists, partition by
//!   partition: of ready threads the line's of each stored priority in the line's order, and the waiters of each mutex
//!   and condition variable (`AreQueuesOf`, `AreQueuesIn`).
//! - One mutex's place, `MutexSlot`: each change of it is the definition's, whoever waits, and so are the moves of
//!   lock, trylock and re-lock with their replies.
//! - `recompute` gives a partition's effective priorities, on cycles too.
//! - `plain_raises_nobody`: a change of a mutex that is neither INHERIT nor PROTECT, of its owner or its waiters, keeps
//!   every effective priority. `same_owner_raises_alike`: so does one of any mutex that keeps its protocol and owner.
//!
//! Line and waiters are linked queues of the slot table, and no entry of the table may change without them; so `Roster`
//! keeps all four. A mutex without its waiters is in its slot; of a condition variable there is a mark alone.
//! `set_priority` and `store` change stored priorities alone, and leave each thread's place in its list. `recompute`
//! stores the held priorities, and then each thread that waits raises the chain of the owner that it waits for, up to
//! the first thread that is at least as high. Costly to prove are that this leaves the greatest held priority, on
//! cycles too, and that no walk ends too early (`proofs/Risen`, `proofs/Sweeps`); and that one queue's change is one
//! list's (`proofs/Seen`). Below are `ptk_threads`, `ptk_ready` and `ptk_words_sync_invariant`; above are `ptk_mutex`
//! and every crate that makes threads wait or run.

mod conditions;
mod fields;
pub mod laws;
mod levels;
mod moves;
mod mutexes;
mod priorities;
mod roster;
mod slot;

pub use moves::free_move;
pub use priorities::{
    assigned, awaited, effective, inheritor_of, next_in_chain, recompute, thread_slot,
};
pub use roster::{Roster, STAMP_LIMIT};
pub use slot::{Change, MutexSlot, MutexState, slot_in};
