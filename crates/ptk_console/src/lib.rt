#![tactic(auto)]

//! The consoles of all partitions: the input still to come, the ring of bytes that arrived, the bytes lost because the
//! ring was full, the output, and the threads that wait for a byte.
//!
//! - Ring, output, bytes lost and waiters as lists by partition.
//! - `arrive`, `get`, `put`, `add_waiter` and `remove_waiter` are the model's moves for p.
//! - Limits are the partition's own.
//!
//! Room for all is made by `Consoles::build` alone. Below are `ptk_words_model`, whose definitions the contracts cite,
//! and `ptk_words`, whose queue keeps the waiters; above are the gate and the kernel. Costly to prove is that a
//! move of one console is that move in the table (`proofs/Moves`).

mod console;
mod consoles;

pub use consoles::Consoles;
