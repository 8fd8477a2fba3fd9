//! The threads of one queue, read into a list.

ghost use Rattle.std.specs.Prelude.{◌≡◌, ◌<◌, ◌≤◌, [], ◌∷◌, ◌++◌, ◌==◌, not, length};
ghost use Rattle.ptk_words.specs.Pools.{is_in};
ghost use Rattle.ptk_words.specs.Parts.{part_of};
ghost use Rattle.ptk_threads.specs.Links.{AreQueues, queues, links_of, place_of};
ghost use Rattle.ptk_threads.specs.LinkChanges.{few_of};

use crate::link::{Ends, QueueName};
use crate::queues::ends_of;
use crate::slot::{Slot, link_of};
use ptk_words::ThreadNo;
use std::marker::Model;

/// At most 32 threads of one partition in an order.
#[derive(Drop)]
pub struct ThreadList {
    numbers: [ThreadNo; 32],
    count: usize,
}

impl Model for ThreadList {
    ghost use Rattle.std.specs.Prelude.{ℕ, ◌≤◌, List, take};

    ghost Value = { List ℕ };

    ghost view = { λ a. take a.count a.numbers };

    ghost invariant = { λ a. a.count ≤ 32 };
}

impl ThreadList {
    /// No thread.
    fn none() -> ThreadList
        ensures { result ≡ [] }
    {
        ThreadList {
            numbers: [ThreadNo::new(1); 32],
            count: 0,
        }
    }

    /// One more thread, the last.
    fn push(&mut self, k: ThreadNo)
        requires { length self.old < 32 }
        ensures { self.new ≡ self.old ++ k ∷ [] }
    {
        self.numbers[self.count] = k;
        self.count += 1;
    }

    /// Whether a thread is among them.
    pub fn contains(&self, k: ThreadNo) -> bool
        ensures { result ≡ is_in k self.now }
    {
        self.as_slice().iter().any(|j| k.number() == j.number())
    }

    /// The threads, in their order.
    pub fn as_slice(&self) -> &[ThreadNo]
        ensures value { result.now ≡ self.now }
        ensures few { length result.now ≤ 32 }
    {
        &self.numbers[..self.count]
    }
}

/// The threads of a queue, in its order.
pub fn members_of(slots: &[Slot], ends: &[Ends], name: QueueName) -> ThreadList
    requires queues { AreQueues (links_of slots.now) ends.now }
    requires places { length ends.now ≡ 128 }
    requires few { length slots.now ≤ 32 }
    ensures { result ≡ part_of (queues (links_of slots.now) ends.now) (place_of name) }
{
    let end = ends_of(ends, name);
    let mut found = ThreadList::none();
    let mut at = end.first;
    for _ in 0..slots.len() {
        let Some(k) = at else {
            return found;
        };
        found.push(k);
        let link = link_of(slots, k);
        at = link.next;
    }
    found
}

/// The threads of a queue, as far as a choice among them asks.
#[derive(Clone, Copy)]
pub enum Members {
    /// There is none.
    NoMember,
    /// There is this one alone.
    OnlyMember(ThreadNo),
    /// There are more than one.
    MoreMembers,
}

/// The threads of a queue, as far as a choice among them asks.
pub fn few_members(slots: &[Slot], ends: &[Ends], name: QueueName) -> Members
    requires queues { AreQueues (links_of slots.now) ends.now }
    requires places { length ends.now ≡ 128 }
    ensures { result ≡ few_of (part_of (queues (links_of slots.now) ends.now) (place_of name)) }
{
    let end = ends_of(ends, name);
    let Some(first) = end.first else {
        return Members::NoMember;
    };
    match end.last {
        Some(last) if last.number() == first.number() => Members::OnlyMember(first),
        _ => Members::MoreMembers,
    }
}

/// Whether any thread lies in a queue.
pub fn has_members(slots: &[Slot], ends: &[Ends], name: QueueName) -> bool
    requires queues { AreQueues (links_of slots.now) ends.now }
    requires places { length ends.now ≡ 128 }
    ensures { result ≡ not (length (part_of (queues (links_of slots.now) ends.now) (place_of name)) == 0) }
{
    let end = ends_of(ends, name);
    end.first.is_some()
}
