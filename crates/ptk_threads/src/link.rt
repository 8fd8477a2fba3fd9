//! What a slot keeps of the queue that its thread lies in.

ghost use Rattle.std.specs.Prelude.{◌≡◌, ◌<◌, option_map, None};
ghost use Rattle.ptk_threads.specs.Links.{place_of, IsQueueName, no_link, no_ends, number_at, slot_at, own_link, shared_link};
ghost use Rattle.ptk_threads.specs.LinkChanges.{end_between, end_without};

use ptk_words::{ConditionNo, MutexNo, Priority, SlotNo, ThreadNo};

/// How many queues a partition has.
pub const PLACES: usize = 128;

/// How many threads a partition has at most.
const NUMBERS: usize = 32;

/// A queue of a partition.
#[derive(Clone, Copy, PartialEq, Eq)]
pub enum QueueName {
    /// The ready threads of this effective priority.
    Ready(Priority),
    /// The threads that wait for this mutex.
    MutexWaiters(MutexNo),
    /// The threads that wait on this condition variable.
    ConditionWaiters(ConditionNo),
}

impl QueueName {
    /// Its place among the partition's queues, below 128.
    pub fn place(&self) -> usize
        ensures value { result ≡ place_of self.now }
        ensures in_range { result < 128 }
        ensures named { IsQueueName self.now }
    {
        match self {
            QueueName::Ready(priority) => priority.level() as usize - 1,
            QueueName::MutexWaiters(mutex) => mutex.number() as usize + 31,
            QueueName::ConditionWaiters(condition) => condition.number() as usize + 95,
        }
    }
}

/// The slots before and after one in its queue, in the table that all partitions share, and the queue.
#[derive(Clone, Copy, PartialEq, Eq)]
pub struct SlotLink {
    /// The place of its partition's first slot, which is thread 1's; at most 224, since a partition has at most 32
    /// slots, and at most 7 come before it.
    pub first: u8,
    /// The slot before it; None of the first one, and of a slot that lies in no queue.
    pub previous: Option<SlotNo>,
    /// The slot after it; None of the last one, and of a slot that lies in no queue.
    pub next: Option<SlotNo>,
    /// The queue; None of a slot that lies in none.
    pub queue: Option<QueueName>,
}

impl SlotLink {
    /// That of a slot that lies in no queue, in a partition with this first slot.
    pub fn none(first: u8) -> SlotLink
        ensures { result ≡ shared_link first no_link }
    {
        SlotLink {
            first,
            previous: None,
            next: None,
            queue: None,
        }
    }

    /// The same link in numbers of the partition.
    pub fn own(&self) -> Link
        ensures { result ≡ own_link self.now }
    {
        Link {
            previous: thread_at(self.first, &self.previous),
            next: thread_at(self.first, &self.next),
            queue: self.queue,
        }
    }

    /// Becomes a link that is given in numbers of the partition.
    #[inline(always)]
    pub(crate) fn set(&mut self, link: &Link)
        ensures shared { self.new ≡ shared_link self.old.first link.now }
        ensures own { own_link self.new ≡ link.now }
    {
        self.previous = slot_at(self.first, &link.previous);
        self.next = slot_at(self.first, &link.next);
        self.queue = link.queue;
    }

    /// This thread comes after it.
    pub(crate) fn set_next(&mut self, next: &Option<ThreadNo>)
        ensures shared { self.new ≡ record self.old { next = option_map (slot_at self.old.first) next.now } }
        ensures own { own_link self.new ≡ record (own_link self.old) { next = next.now } }
    {
        self.next = slot_at(self.first, next);
    }

    /// This thread comes before it.
    pub(crate) fn set_previous(&mut self, previous: &Option<ThreadNo>)
        ensures shared { self.new ≡ record self.old { previous = option_map (slot_at self.old.first) previous.now } }
        ensures own { own_link self.new ≡ record (own_link self.old) { previous = previous.now } }
    {
        self.previous = slot_at(self.first, previous);
    }
}

/// The thread of a slot, if it is one, in the partition with this first slot.
fn thread_at(first: u8, slot: &Option<SlotNo>) -> Option<ThreadNo>
    ensures { result ≡ option_map (number_at first) slot.now }
{
    match slot {
        Some(slot) => {
            let place = slot.index().saturating_sub(first as usize) % NUMBERS;
            Some(ThreadNo::new(place as u8 + 1))
        }
        None => None,
    }
}

/// The slot of a thread, if it is one, in the partition with this first slot.
#[tactic(auto, using(crate::proofs::Numbers::numbered_back))]
fn slot_at(first: u8, thread: &Option<ThreadNo>) -> Option<SlotNo>
    ensures slot { result ≡ option_map (slot_at first) thread.now }
    ensures back { option_map (number_at first) result ≡ thread.now }
{
    match thread {
        Some(k) => Some(SlotNo::new(u16::from(first) + k.place() as u16)),
        None => None,
    }
}

/// The threads before and after one in its queue, and the queue that it lies in.
#[derive(Clone, Copy, PartialEq, Eq)]
pub struct Link {
    /// The thread before it; None of the first.
    pub previous: Option<ThreadNo>,
    /// The thread after it; None of the last.
    pub next: Option<ThreadNo>,
    /// The queue; None of a thread that lies in none.
    pub queue: Option<QueueName>,
}

impl Link {
    /// That of a thread that lies in no queue.
    pub fn none() -> Link
        ensures { result ≡ no_link }
    {
        Link {
            previous: None,
            next: None,
            queue: None,
        }
    }
}

/// The first and the last thread of a queue, None and None of an empty one.
#[derive(Clone, Copy, PartialEq, Eq)]
pub struct Ends {
    /// The first thread.
    pub first: Option<ThreadNo>,
    /// The last thread.
    pub last: Option<ThreadNo>,
}

impl Ends {
    /// Those of an empty queue.
    pub fn none() -> Ends
        ensures { result ≡ no_ends }
    {
        Ends {
            first: None,
            last: None,
        }
    }

    /// The ends once a thread with this link is at its place.
    pub(crate) fn with(self, k: ThreadNo, link: &Link) -> Ends
        ensures { result ≡ end_between link.now.previous k link.now.next self }
    {
        let first = match &link.previous {
            Some(_) => self.first,
            None => Some(k),
        };
        let last = match &link.next {
            Some(_) => self.last,
            None => Some(k),
        };
        Ends { first, last }
    }

    /// The ends once a thread with this link is gone from its place.
    pub(crate) fn without(self, link: &Link) -> Ends
        ensures { result ≡ end_without link.now.previous link.now.next self }
    {
        let first = match &link.previous {
            Some(_) => self.first,
            None => link.next,
        };
        let last = match &link.next {
            Some(_) => self.last,
            None => link.previous,
        };
        Ends { first, last }
    }
    /// The ends once the first thread, which this one follows, is gone.
    pub(crate) fn without_first(self, next: &Option<ThreadNo>) -> Ends
        ensures { result ≡ end_without None next.now self }
    {
        let last = match next {
            Some(_) => self.last,
            None => None,
        };
        Ends { first: *next, last }
    }
}
