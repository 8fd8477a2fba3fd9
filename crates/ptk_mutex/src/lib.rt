#![tactic(auto)]

//! The moves on mutexes over the roster, robust ones among them (lock, unlock, hand over, an owner's end), after which
//! the stored priorities are the effective ones.
//!
//! - Over the roster, which has the mutexes with their waiters, robust ones among them: each call is the model's move
//!   for p, one equation over the roster (`put_locks`).
//! - After each call that takes the threads the stored priorities are the effective ones (`ready`), and set-up,
//!   destruction of a mutex that is not locked, and lock and unlock of one that raises nobody (`take_plain`,
//!   `release_plain`) leave them so (`ready`).
//! - Every call keeps what the calls here and in `ptk_cond` ask of the roster, at each partition (`sound`: `IsSound`),
//!   and `build` gives it; `destroy` keeps it if the mutex is not locked.
//! - A call that ends waits (`unlock`, `withdraw`, `abandon`, `relock`) returns the set of threads woken, as 32 bits:
//!   those that wait before and, in use, wait for nothing after (`woken`: `woken_at`). `relock` returns it beside its
//!   move, of a thread that waits.
//! - Each call says what it leaves of the number of reads (`visited`): after `lock`, `wait_for`, `trylock`,
//!   `lock_again`, `relock`, `pass_on` and a rise by `assign` the number that rose or one more, and 0 after any other.
//! - `raise` and `rise_behind`, the walk along a thread's chain after a change that can only raise: it raises each
//!   thread, stops at the first that is already at least as high, and leaves the effective priorities, on cycles too
//!   (`stored`). The number of priorities that it reads is that of those that rose, or one more (`visited`), at most
//!   one more than a partition may have threads (`few`).
//!
//! What a call needs of its partition is `AreReady` of `specs/Tables`; one that may queue its caller also needs a
//! caller that is no waiter (`IsNoWaiter`), since a thread has one link. A refused lock changes nothing; who is woken
//! goes to the tail of the line. No call but `build` takes memory. A thread that begins to wait raises whoever inherits
//! from the mutex (`rise_behind`); a `Rise` says what else raised a thread: it took a mutex, or got a higher assigned
//! priority. After any other change on which they may depend, the partition's priorities are all computed again, and
//! `visited` of `Mutexes`, the number of stored priorities that the walk read, is 0. None depends on a mutex that is
//! neither INHERIT nor PROTECT (`refresh_after`), or on a change of any mutex that keeps its owner (`amend`):
//! `ptk_roster` has the laws. Costly to prove are that stopping early changes nothing, on cycles too
//! (`proofs/Rises`), and what a rise adds to the priorities (`proofs/Joins`, `proofs/Gains`), which speak of lists
//! alone (`proofs/Rosters` puts a list into the roster); that the stored priorities choose the heir (`proofs/Locked`),
//! the calls of many moves (`proofs/Steps`), and that a call leaves other waiters alone (`proofs/Apart`). Below are
//! `ptk_roster` and `ptk_roster`; above are `ptk_cond` and `ptk_gate_pools`.

mod ends;
mod locking;
mod mutexes;
mod plain;
mod rise;
mod rising;
mod starting;
mod unlocking;
mod waking;
mod walk;

pub use mutexes::Mutexes;
pub use ptk_roster::{MutexSlot, MutexState, Roster, effective, thread_slot};
pub use rise::is_named;
pub use starting::build;
pub use waking::{Relocked, relock_move};
