#![tactic(auto)]

//! The pools of all partitions in one structure, `Pools`, with one partition in hand: what can be read of it, the moves
//! that write one component of it, and plain steps of a thread in a row; `Look` reads one partition, whichever is in
//! hand.
//!
//! - The pools of all partitions as one value, with one partition in hand (`Held`).
//! - Each call is one equation: of the part in hand one component is written, or by a move on mutexes its threads, line
//!   and mutexes, and every other partition's part stays.
//! - That stored priorities are the effective ones is its invariant.
//! - `expire_next` makes the first expiry of a partition.
//! - `run_row` makes plain steps of a thread in a row: the part and the trace are those after them, and it ends early
//!   only where the next step is not plain.
//!
//! `take` takes a partition in hand. Contracts see the pools as the partition in hand, its part, and the rest of the
//! tables (`Held`), so no call can name another partition, and two moves in a row are a record updated twice. A move of
//! a field that no priority reads leaves the stored priorities (`proofs/Stored`), and after any other they are computed
//! again. The deadlines of waits are the slot table's, so no move speaks of them. `run_row` is made on the thread's
//! registers in the slot table and on the lent memory: `plain` and `ended` say which steps they are, `moved` what they
//! leave of the part, `traced` what the trace has (`proofs/PlainRows`). Below are the pools of each kind,
//! `ptk_gate_memory`, which makes them, `ptk_cond`, the instructions and their rows; above is `ptk_gate_moves`.
//! Costly to prove are the choices by stored priorities; what takes the check longest is the drop of all pools.

mod arrivals;
mod building;
mod cancellations;
mod conditions;
mod consoles;
mod expiries;
mod keys;
mod line;
mod look;
mod memory;
mod mutexes;
mod partitions;
mod plain_mutexes;
mod pools;
mod reading;
mod rows;
mod running;
mod threads;

pub use look::Look;
pub use pools::Pools;
pub use ptk_gate_memory::place_of;
