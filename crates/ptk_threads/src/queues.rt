//! The queues of one partition.

ghost use Rattle.std.specs.Prelude.{◌≡◌, ℕ, ◌<◌, ◌≤◌, false, [], ◌∷◌, ◌++◌, length, drop, Some, None, slice_set};
ghost use Rattle.ptk_words.specs.Pools.{is_in};
ghost use Rattle.ptk_words.specs.Parts.{part_of};
ghost use Rattle.ptk_threads.specs.Links.{AreQueues, AreLinksFrom, queues, links_of, link_in, own_link, threads_of, mark_of, place_of, ends_at};
ghost use Rattle.ptk_threads.specs.LinkChanges.{first_in, with_inserted, with_taken, with_appended, linked_between, end_between, unlinked, end_without};

use crate::link::{Ends, Link, QueueName, SlotLink};
use crate::slot::{Slot, link_of, set_link, set_next, set_previous, take_next};
use ptk_words::ThreadNo;

/// The first thread of a queue.
#[derive(Clone, Copy)]
pub struct FirstThread {
    /// The thread.
    pub thread: ThreadNo,
    /// Whether no other thread is in the queue.
    pub is_alone: bool,
}

/// The first and the last thread of a queue.
pub fn ends_of(ends: &[Ends], name: QueueName) -> Ends
    requires { length ends.now ≡ 128 }
    ensures { result ≡ ends_at ends.now (place_of name) }
{
    let i = name.place();
    ends[i]
}

/// A thread that lies in no queue becomes the last of one. The threads stay.
#[inline(always)]
pub fn append(slots: &mut [Slot], ends: &mut [Ends], name: QueueName, k: ThreadNo)
    requires queues { AreQueues (links_of slots.old) ends.old }
    requires places { length ends.old ≡ 128 }
    requires slot { k ≤ length slots.old }
    requires free { mark_of (links_of slots.old) k ≡ None }
    ensures queues { AreQueues (links_of slots.new) ends.new }
    ensures lists { queues (links_of slots.new) ends.new
        ≡ slice_set (queues (links_of slots.old) ends.old) (place_of name)
        (part_of (queues (links_of slots.old) ends.old) (place_of name) ++ k ∷ []) }
    ensures threads { threads_of slots.new ≡ threads_of slots.old }
    ensures shared { (first : ℕ) → AreLinksFrom first slots.old → AreLinksFrom first slots.new }
{
    let i = name.place();
    let end = ends[i];
    let link = Link {
        previous: end.last,
        next: None,
        queue: Some(name),
    };
    link_between(slots, ends, i, k, link);
}

/// A thread that lies in no queue becomes the first of one. The threads stay.
pub fn prepend(slots: &mut [Slot], ends: &mut [Ends], name: QueueName, k: ThreadNo)
    requires queues { AreQueues (links_of slots.old) ends.old }
    requires places { length ends.old ≡ 128 }
    requires slot { k ≤ length slots.old }
    requires free { mark_of (links_of slots.old) k ≡ None }
    ensures queues { AreQueues (links_of slots.new) ends.new }
    ensures lists { queues (links_of slots.new) ends.new
        ≡ slice_set (queues (links_of slots.old) ends.old) (place_of name)
        (k ∷ part_of (queues (links_of slots.old) ends.old) (place_of name)) }
    ensures threads { threads_of slots.new ≡ threads_of slots.old }
    ensures shared { (first : ℕ) → AreLinksFrom first slots.old → AreLinksFrom first slots.new }
{
    let i = name.place();
    let end = ends[i];
    let link = Link {
        previous: None,
        next: end.first,
        queue: Some(name),
    };
    link_between(slots, ends, i, k, link);
}

/// A thread that lies in no queue goes before another one, into the queue in which that one lies; nothing changes where
/// that one lies in none. The threads stay.
pub fn insert(slots: &mut [Slot], ends: &mut [Ends], k: ThreadNo, before: ThreadNo)
    requires queues { AreQueues (links_of slots.old) ends.old }
    requires places { length ends.old ≡ 128 }
    requires slot { k ≤ length slots.old }
    requires free { mark_of (links_of slots.old) k ≡ None }
    ensures queues { AreQueues (links_of slots.new) ends.new }
    ensures lists { queues (links_of slots.new) ends.new
        ≡ with_inserted (mark_of (links_of slots.old) before) k before (queues (links_of slots.old) ends.old) }
    ensures threads { threads_of slots.new ≡ threads_of slots.old }
    ensures shared { (first : ℕ) → AreLinksFrom first slots.old → AreLinksFrom first slots.new }
{
    let link = link_of(slots, before);
    if let Some(name) = &link.queue {
        let i = name.place();
        let next = Some(before);
        link_between(slots, ends, i, k, Link { next, ..link });
    }
}

/// A thread leaves the queue in which it lies; nothing changes where it lies in none. The threads stay.
#[inline(always)]
pub fn take(slots: &mut [Slot], ends: &mut [Ends], k: ThreadNo)
    requires queues { AreQueues (links_of slots.old) ends.old }
    requires places { length ends.old ≡ 128 }
    ensures queues { AreQueues (links_of slots.new) ends.new }
    ensures lists { queues (links_of slots.new) ends.new
        ≡ with_taken (mark_of (links_of slots.old) k) k (queues (links_of slots.old) ends.old) }
    ensures threads { threads_of slots.new ≡ threads_of slots.old }
    ensures shared { (first : ℕ) → AreLinksFrom first slots.old → AreLinksFrom first slots.new }
{
    let place = k.place();
    if place >= slots.len() {
        return;
    }
    let link = slots[place].link;
    if let Some(name) = &link.queue {
        leave(slots, ends, *name, k, &link);
    }
}

/// A thread leaves this queue; nothing changes where it lies in another one, or in none. The threads stay.
#[inline(always)]
pub fn take_from(slots: &mut [Slot], ends: &mut [Ends], name: QueueName, k: ThreadNo)
    requires queues { AreQueues (links_of slots.old) ends.old }
    requires places { length ends.old ≡ 128 }
    requires slot { k ≤ length slots.old }
    ensures queues { AreQueues (links_of slots.new) ends.new }
    ensures lists { queues (links_of slots.new) ends.new ≡ with_taken (Some (place_of name)) k (queues (links_of slots.old) ends.old) }
    ensures threads { threads_of slots.new ≡ threads_of slots.old }
    ensures shared { (first : ℕ) → AreLinksFrom first slots.old → AreLinksFrom first slots.new }
{
    let link = slots[k.place()].link;
    if let Some(own) = &link.queue {
        let _places = (own.place(), name.place());
        if *own == name {
            leave(slots, ends, name, k, &link);
        }
    }
}

/// A thread that lies in this queue, or in none, leaves it and becomes the last of another one, or of the same. The
/// threads stay.
#[inline(always)]
pub fn pass_on(slots: &mut [Slot], ends: &mut [Ends], from: QueueName, to: QueueName, k: ThreadNo)
    requires queues { AreQueues (links_of slots.old) ends.old }
    requires places { length ends.old ≡ 128 }
    requires slot { k ≤ length slots.old }
    requires free { (i : ℕ) → is_in k (part_of (with_taken (Some (place_of from)) k (queues (links_of slots.old) ends.old)) i) ≡ false }
    ensures queues { AreQueues (links_of slots.new) ends.new }
    ensures lists { queues (links_of slots.new) ends.new
        ≡ with_appended (place_of to) k (with_taken (Some (place_of from)) k (queues (links_of slots.old) ends.old)) }
    ensures threads { threads_of slots.new ≡ threads_of slots.old }
    ensures shared { (first : ℕ) → AreLinksFrom first slots.old → AreLinksFrom first slots.new }
{
    take_from(slots, ends, from, k);
    append(slots, ends, to, k);
}

/// A thread leaves this queue, in which it lies with this link. The threads stay.
#[inline(always)]
fn leave(slots: &mut [Slot], ends: &mut [Ends], name: QueueName, k: ThreadNo, link: &SlotLink)
    requires queues { AreQueues (links_of slots.old) ends.old }
    requires places { length ends.old ≡ 128 }
    requires own { own_link link.now ≡ link_in (links_of slots.old) k }
    requires named { link.now.queue ≡ Some name }
    ensures queues { AreQueues (links_of slots.new) ends.new }
    ensures lists { queues (links_of slots.new) ends.new ≡ with_taken (Some (place_of name)) k (queues (links_of slots.old) ends.old) }
    ensures threads { threads_of slots.new ≡ threads_of slots.old }
    ensures shared { (first : ℕ) → AreLinksFrom first slots.old → AreLinksFrom first slots.new }
{
    if link.previous.is_none() && link.next.is_none() {
        ends[name.place()] = Ends::none();
        set_link(slots, k, Link::none());
    } else {
        take_linked(slots, ends, name, k);
    }
}

/// A thread leaves this queue, in which it lies and is not alone. The threads stay.
#[inline(never)]
fn take_linked(slots: &mut [Slot], ends: &mut [Ends], name: QueueName, k: ThreadNo)
    requires queues { AreQueues (links_of slots.old) ends.old }
    requires places { length ends.old ≡ 128 }
    requires named { (link_in (links_of slots.old) k).queue ≡ Some name }
    ensures queues { AreQueues (links_of slots.new) ends.new }
    ensures lists { queues (links_of slots.new) ends.new ≡ with_taken (Some (place_of name)) k (queues (links_of slots.old) ends.old) }
    ensures threads { threads_of slots.new ≡ threads_of slots.old }
    ensures shared { (first : ℕ) → AreLinksFrom first slots.old → AreLinksFrom first slots.new }
{
    let link = link_of(slots, k);
    unlink(slots, ends, name.place(), k, &link);
}

/// The first thread of a queue leaves it; the function returns it, and None of an empty queue, where nothing changes.
/// The threads stay.
pub fn take_first(slots: &mut [Slot], ends: &mut [Ends], name: QueueName) -> Option<FirstThread>
    requires queues { AreQueues (links_of slots.old) ends.old }
    requires places { length ends.old ≡ 128 }
    ensures first { result ≡ first_in (part_of (queues (links_of slots.old) ends.old) (place_of name)) }
    ensures queues { AreQueues (links_of slots.new) ends.new }
    ensures lists { queues (links_of slots.new) ends.new
        ≡ slice_set (queues (links_of slots.old) ends.old) (place_of name)
        (drop 1 (part_of (queues (links_of slots.old) ends.old) (place_of name))) }
    ensures threads { threads_of slots.new ≡ threads_of slots.old }
    ensures shared { (first : ℕ) → AreLinksFrom first slots.old → AreLinksFrom first slots.new }
{
    let i = name.place();
    let end = ends[i];
    let Some(thread) = end.first else {
        return None;
    };
    let next = take_next(slots, thread);
    set_previous(slots, &next, &None);
    ends[i] = end.without_first(&next);
    let is_alone = next.is_none();
    Some(FirstThread { thread, is_alone })
}

/// Gives a thread a link in the queue at place i, and its neighbours theirs to it.
#[inline(always)]
fn link_between(slots: &mut [Slot], ends: &mut [Ends], i: usize, k: ThreadNo, link: Link)
    requires { i < length ends.old }
    ensures links { links_of slots.new ≡ linked_between k link (links_of slots.old) }
    ensures ends { ends.new ≡ slice_set ends.old i (end_between link.previous k link.next (ends_at ends.old i)) }
    ensures threads { threads_of slots.new ≡ threads_of slots.old }
    ensures shared { (first : ℕ) → AreLinksFrom first slots.old → AreLinksFrom first slots.new }
    ensures positive { 0 < k }
{
    let own = Some(k);
    set_next(slots, &link.previous, &own);
    set_previous(slots, &link.next, &own);
    let end = ends[i];
    ends[i] = end.with(k, &link);
    set_link(slots, k, link);
}

/// Links the neighbours of a thread with this link in the queue at place i to each other.
#[inline(always)]
fn unlink(slots: &mut [Slot], ends: &mut [Ends], i: usize, k: ThreadNo, link: &Link)
    requires { i < length ends.old }
    ensures links { links_of slots.new ≡ unlinked k link.now (links_of slots.old) }
    ensures ends { ends.new ≡ slice_set ends.old i (end_without link.now.previous link.now.next (ends_at ends.old i)) }
    ensures threads { threads_of slots.new ≡ threads_of slots.old }
    ensures shared { (first : ℕ) → AreLinksFrom first slots.old → AreLinksFrom first slots.new }
{
    set_next(slots, &link.previous, &link.next);
    set_previous(slots, &link.next, &link.previous);
    let end = ends[i];
    ends[i] = end.without(link);
    set_link(slots, k, Link::none());
}
