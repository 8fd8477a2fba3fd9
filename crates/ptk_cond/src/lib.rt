#![tactic(auto)]

//! The moves on condition variables over the roster: a wait, a signal or a broadcast moves waiters through `ptk_mutex`;
//! and what the coming of a deadline does to a thread, whatever its wait is.
//!
//! - Over the roster, which has the condition variables with their waiters: wait, signal, broadcast and what ends a
//!   wait at its deadline or at a cancellation are the model's moves for p, one equation over the roster (`put_syncs`).
//! - Each choice of a broadcast is made in the state that the one before left.
//! - `time_out`, the coming of the deadline of any wait, is the model's move: a sleeper is woken, a waiter of a mutex
//!   leaves it, and one of a condition variable locks its mutex again.
//! - `wait`, `signal`, `broadcast` and `withdraw` return the set of threads woken, as 32 bits (`woken`). A waiter that
//!   has to wait for its mutex is not woken.
//! - Every call keeps what the calls ask (`ready`, and `sound` for all partitions), and says what it leaves of the
//!   number of reads: that of its re-lock, of one of its signals, 0, or what it was.
//!
//! Mutexes change by calls of `ptk_mutex` alone: a wait unlocks one once, and who is unblocked re-locks the one that it
//! named; where it has to wait for that one, it passes from one queue of waiters to the other (`pass_on`). What a call
//! needs of its partition, and leaves of it, is `AreSynced` of `ptk_mutex/specs/Sound`: what the mutex calls need, and
//! waiters that wait, from which it follows that a thread that waits for nothing is among no waiters. Which thread is
//! due is asked of the slot table, which keeps the deadline of each wait. No call takes memory. Costly to prove is that
//! waiters still wait after one of them was unblocked (`proofs/Waiters`). Below are `ptk_mutex`, `ptk_roster`, which
//! has the waiters as linked queues, and `ptk_words_sync_invariant`, which says what a wait on a condition variable is;
//! above are the pools of `ptk_gate_pools`.

mod conditions;
mod expiries;
mod naming;
mod signals;
mod waiting;

pub use conditions::{destroy, init, numbered};
pub use expiries::time_out;
pub use naming::{names, names_another};
pub use ptk_mutex::{MutexState, Mutexes, Roster};
pub use signals::{broadcast, signal, withdraw};
pub use waiting::wait;
