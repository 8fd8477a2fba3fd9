//! The stamps of a partition's numbers.

ghost use Rattle.std.specs.Prelude.{◌≡◌, ◌≤◌, ◌&&◌, length, int_lt, option_map};
ghost use Rattle.ptk_threads.specs.Links.{links_of, place_of};
ghost use Rattle.ptk_ready.specs.Entries.{is_ready_place, stamp_of};
ghost use Rattle.ptk_ready.specs.Stamps.{rank, renumbered};

use ptk_threads::{QueueName, Slot};
use ptk_words::ThreadNo;

/// How many numbers a partition has at most.
pub(crate) const NUMBERS: usize = 32;

/// The stamps from a first one to a last one.
#[derive(Clone, Copy)]
pub struct StampRange {
    /// The first stamp.
    pub first: i64,
    /// The last stamp, not less than the first.
    pub last: i64,
}

/// The stamp of a number.
pub(crate) fn stamp_in(stamps: &[i64; NUMBERS], k: ThreadNo) -> i64
    ensures { result ≡ stamp_of stamps.now k }
{
    stamps[k.place()]
}

/// Whether a thread that lies in this queue, or in none, is ready (XSH 2.8.4).
pub fn is_ready_queue(queue: &Option<QueueName>) -> bool
    ensures { result ≡ is_ready_place (option_map place_of queue.now) }
{
    match queue {
        Some(name) => is_ready_name(name),
        None => false,
    }
}

/// Whether a queue is one of ready threads.
#[tactic(auto, using(std::proofs::lemmas::Bool::Decides::nat_tests))]
fn is_ready_name(name: &QueueName) -> bool
    ensures { result ≡ is_ready_place (Some (place_of name.now)) }
{
    let _place = name.place();
    match name {
        QueueName::Ready(_) => true,
        QueueName::MutexWaiters(_) | QueueName::ConditionWaiters(_) => false,
    }
}

/// Whether a thread that lies in this queue, or in none, with this stamp is ready and comes before a stamp.
fn is_ready_before(queue: &Option<QueueName>, own: i64, stamp: i64) -> bool
    ensures { result ≡ (is_ready_place (option_map place_of queue.now) && int_lt own stamp) }
{
    is_ready_queue(queue) && own < stamp
}

/// How many ready threads have a lesser stamp.
fn rank(slots: &[Slot], stamps: &[i64; NUMBERS], stamp: i64) -> u8
    requires { length slots.now ≤ 32 }
    ensures { result ≡ rank (links_of slots.now) stamps.now stamp }
{
    let mut count = 0;
    for (i, slot) in slots.iter().enumerate() {
        if is_ready_before(&slot.link.queue, stamps[i], stamp) {
            count += 1;
        }
    }
    count
}

/// The stamps numbered from 0 in the order of those of the ready threads.
pub(crate) fn renumbered(slots: &[Slot], stamps: &[i64; NUMBERS]) -> [i64; NUMBERS]
    requires { length slots.now ≤ 32 }
    ensures { result ≡ renumbered (links_of slots.now) stamps.now }
{
    let mut new = *stamps;
    for i in 0..NUMBERS {
        new[i] = i64::from(rank(slots, stamps, stamps[i]));
    }
    new
}
