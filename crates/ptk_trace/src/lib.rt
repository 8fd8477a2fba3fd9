#![tactic(auto)]

//! A partition's last steps: a ring of them with the newest in a batch, their lines, and numbers as the report and the
//! trace show them.
//!
//! - It has the last steps, oldest first, whichever lie in the ring and which in the batch; `entries` lends them.
//! - `push` puts one more in, and `note` has many noted where they are kept, by a `Noting`.
//! - `lines` appends exactly their lines to a writer that accepts them.
//! - `Decimal` displays a number in decimal, `Word` as `0x` and eight digits to base 16: exactly the definition's text.
//!
//! To keep one more step takes no memory and cannot fail. It runs nothing: who carries out steps puts them in. One
//! `write!` gives a line's exact bytes and takes no memory. Below are `ptk_words_model`, whose definitions of texts the
//! contracts cite, the kit's decimals and its ring; above are the crates that run a partition's thread, and the system,
//! which puts the other steps in, asks for the lines and writes the report.

mod noting;
mod numbers;
mod trace;

pub use noting::Noting;
pub use numbers::{Decimal, Word};
pub use trace::{Entries, Trace};
