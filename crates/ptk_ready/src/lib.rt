#![tactic(auto)]

//! The line of ready threads: the trait `Line`, and its two forms `LinkedLine`, a queue for each priority linked
//! through the slot table, and `VecLine`, a plain list for each partition.
//!
//! - The trait `Line`: the whole list after each call, for p alone.
//! - `LinkedLine` meets `Line`, and each partition's queues of ready threads are its line's threads of their priority
//!   in the line's order (`AreFiled`).
//! - Of one partition's linked line (`LinkedEntries`), in which each priority's threads are a linked queue and stamps
//!   order the line (`line_of`): once the change of the queues is made that `push_tail`, `push_head`, `remove` and
//!   `refile` (a changed priority) ask for, the list is changed by one equation, the waiters' queues are as they were
//!   and the line is sound (`IsFiled`), renumbered where a stamp would pass its limit.
//! - `first_of_greatest` is the first thread of the greatest stored priority, and `take_first` takes it out.
//! - `marks_tell_queues` says that a thread is in a queue's list if and only if its slot has that queue's mark,
//!   `lists_tell_line` that the lists alone determine the line.
//! - `VecLine` meets `Line` too.
//! - `first_of_greatest` of any threads is the first whose stored priority is greatest.
//!
//! `LinkedLine` is the form that the kernel has. Beside one partition's queues `LinkedEntries` keeps a stamp for each
//! number, which orders the line across the queues (`line_of`), a range that has the stamps of all ready threads, whose
//! ends give the next stamp at either end of the line, and a bitmap of the queues that are not empty, whose highest bit
//! finds the first of the greatest priority. Its calls read the links and change these alone; each says which call of
//! the slot table is to follow, and `LinkedLine` makes that call. A changed priority moves nobody. Below are
//! `ptk_words`, the queue of threads, `ptk_threads`, the links, and `ptk_threads`, the slot table; above
//! is every crate that makes threads wait or run. Costly to prove is that one list is sorted by stamp and has exactly
//! the ready threads (`proofs/Orders`), that each queue stays its part of that list (`proofs/Kept`), and that one
//! partition's change leaves the lines of the others (`proofs/Partitions`).

mod bits;
mod choice;
mod entries;
mod laws;
mod line;
mod linked_line;
mod places;
mod stamps;
mod vec_line;

pub use choice::first_of_greatest;
pub use entries::LinkedEntries;
pub use laws::{lists_tell_line, marks_tell_queues};
pub use line::Line;
pub use linked_line::LinkedLine;
pub use ptk_words::Queue;
pub use stamps::is_ready_queue;
pub use vec_line::VecLine;
