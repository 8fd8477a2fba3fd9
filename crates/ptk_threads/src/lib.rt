#![tactic(auto)]

//! One slot table for all partitions' threads, with the queues that are linked through its slots, each shown as the
//! list that the links of its slots lead along: a list for each priority's ready threads, and each mutex's and each
//! condition variable's waiters.
//!
//! - The slot table as threads by partition and own number: `create` takes the least free number, every call changes
//!   one partition's threads or queues.
//! - `slots` lends the slots of all partitions, along whose links, from slot to next slot and back, lies the list of
//!   each queue (`AreAlongLinks`), and no link leaves its partition (`StayInPartitions`).
//! - `update` changes one thread in its place, by a `ThreadChange`; `set_cpu` and the other setters set one field of
//!   one thread; `work_on` does a piece of work on one, and returns its answer.
//! - The deadline of a wait is kept where the wait is set, so that `next_deadline` and `first_due` look at no thread.
//!
//! The slot of thread k of a partition is its first slot plus k − 1. A contract sees, by partition and then by number,
//! the threads and their stored effective priorities, and by partition and then by place the 128 queues. A slot has a
//! link to the slot before it and to the one after it in its queue, and a mark that names the queue, so a thread is in
//! at most one queue. The links are slot numbers of the table that all partitions share (`AreLinksFrom`); the ends of
//! every queue are beside the slots.
//!
//! A reader returns None of a free number, and a setter changes nothing of it. Besides the partition these calls have
//! conditions: `update`, `update_if_used` and the calls that change a thread on its way to a queue, that the change can
//! be made; all of these but `update_if_used`, and `work_on`, that the number is in use; `append`, `prepend`, `insert`
//! and `append_updated`, that the thread lies in no queue; `pass_updated`, that it lies in none but the one that it
//! leaves; `work_on`, that its work can be done and leaves the wait; `store`, that there is one priority for each slot.
//! No call but the constructor takes memory.
//!
//! Below are `ptk_words`, which has the lists, and `ptk_clock`, which has the queue of deadlines; above are `ptk_ready`
//! and every crate that acts on threads. Costly to prove are what two changed links do to a list (`proofs/Along`), once
//! for a thread that comes and once for one that goes, and that a change of one partition's links, or of one thread,
//! leaves every queue of every partition what its links say (`proofs/Linked`).

mod change;
mod changes;
mod link;
mod queues;
mod references;
mod setters;
mod slot;
mod slot_table;
mod thread_list;
mod threads;
mod waits;
mod work;

pub use change::{DeadlineChange, Renewed, ThreadChange, ThreadField, Values, Woken};
pub use link::{Ends, Link, PLACES, QueueName, SlotLink};
pub use queues::{
    FirstThread, append, ends_of, insert, pass_on, prepend, take, take_first, take_from,
};
pub use slot::{Slot, link_of};
pub use slot_table::LinkedSlots;
pub use thread_list::{Members, ThreadList, few_members, has_members, members_of};
pub use threads::{Threads, stored_in};
pub use work::Work;
