//! The slots of one partition, read and written at a thread's number.

ghost use Rattle.std.specs.Prelude.{◌≡◌, ℕ, ◌<◌, ◌≤◌, length, is_none, option_map, option_and_then, IsSome, Some};
ghost use Rattle.std.specs.Option.{option_copied};
ghost use Rattle.ptk_words.specs.Pools.{pool_set};
ghost use Rattle.ptk_words.specs.declared.threads.Thread.{Thread};
ghost use Rattle.ptk_threads.specs.Links.{links_of, threads_of, link_in, no_link, free_slot, with_next, with_previous, AreLinksFrom};

use crate::link::{Link, QueueName, SlotLink};
use ptk_words::{Cpu, Phase, Policy, Priority, SlotNo, Thread, ThreadNo, Wait};

/// A place for a thread, and its link in the queue that the thread lies in.
#[derive(Clone, Copy)]
pub struct Slot {
    /// The thread, None in a free slot.
    pub thread: Option<Thread>,
    /// Its link, in slots of the table that all partitions share.
    pub link: SlotLink,
}

impl Slot {
    /// A free slot, which lies in no queue, of a partition with this first slot.
    pub fn free(first: u8) -> Slot
        ensures { result ≡ free_slot first }
    {
        let link = SlotLink::none(first);
        Slot { thread: None, link }
    }

    /// The thread, None in a free slot.
    pub fn thread(&self) -> Option<Thread>
        ensures { result ≡ self.now.thread }
    {
        self.thread
    }

    /// The thread where it lies, None in a free slot.
    #[inline]
    pub fn thread_ref(&self) -> Option<&Thread>
        ensures { option_copied result ≡ self.now.thread }
    {
        self.thread.as_ref()
    }

    /// The thread where it lies, of a slot that is not free.
    #[inline]
    pub fn used_thread(&self) -> &Thread
        requires { IsSome self.now.thread }
        ensures { Some result.now ≡ self.now.thread }
    {
        match &self.thread {
            Some(thread) => thread,
            None => unreachable!(),
        }
    }

    /// Whether no thread has it.
    pub fn is_free(&self) -> bool
        ensures { result ≡ is_none self.now.thread }
    {
        self.thread.is_none()
    }

    /// Its thread's registers and pc; None in a free slot.
    pub fn cpu(&self) -> Option<Cpu>
        ensures { result ≡ option_map (λ (thread : Thread). thread.cpu) self.now.thread }
    {
        Some(self.thread.as_ref()?.cpu)
    }

    /// Its thread's policy; None in a free slot.
    pub fn policy(&self) -> Option<Policy>
        ensures { result ≡ option_map (λ (thread : Thread). thread.policy) self.now.thread }
    {
        Some(self.thread.as_ref()?.policy)
    }

    /// Its thread's assigned priority; None in a free slot.
    pub fn assigned_priority(&self) -> Option<Priority>
        ensures { result ≡ option_map (λ (thread : Thread). thread.priority) self.now.thread }
    {
        Some(self.thread.as_ref()?.priority)
    }

    /// The ticks that its thread used of a round-robin interval; None in a free slot.
    pub fn used(&self) -> Option<u32>
        ensures { result ≡ option_map (λ (thread : Thread). thread.used) self.now.thread }
    {
        Some(self.thread.as_ref()?.used)
    }

    /// How far its thread is; None in a free slot.
    pub fn phase(&self) -> Option<Phase>
        ensures { result ≡ option_map (λ (thread : Thread). thread.phase) self.now.thread }
    {
        Some(self.thread.as_ref()?.phase)
    }

    /// Whether the image started its thread; None in a free slot.
    pub fn is_main(&self) -> Option<bool>
        ensures { result ≡ option_map (λ (thread : Thread). thread.is_main) self.now.thread }
    {
        Some(self.thread.as_ref()?.is_main)
    }

    /// Whether its thread's number is free at its end; None in a free slot.
    pub fn is_detached(&self) -> Option<bool>
        ensures { result ≡ option_map (λ (thread : Thread). thread.is_detached) self.now.thread }
    {
        Some(self.thread.as_ref()?.is_detached)
    }

    /// The result that a joiner of its thread gets; None in a free slot.
    pub fn result(&self) -> Option<u32>
        ensures { result ≡ option_map (λ (thread : Thread). thread.result) self.now.thread }
    {
        Some(self.thread.as_ref()?.result)
    }

    /// The thread that waits for its thread's end; None in a free slot too.
    pub fn joiner(&self) -> Option<ThreadNo>
        ensures { result ≡ option_and_then (λ (thread : Thread). thread.joiner) self.now.thread }
    {
        self.thread.as_ref()?.joiner
    }

    /// What its thread waits for; None in a free slot too.
    pub fn wait(&self) -> Option<Wait>
        ensures { result ≡ option_and_then (λ (thread : Thread). thread.wait) self.now.thread }
    {
        self.thread.as_ref()?.wait
    }

    /// The slot before it in its queue; None of the first one, and of a slot that lies in no queue.
    pub fn previous(&self) -> Option<SlotNo>
        ensures { result ≡ self.now.link.previous }
    {
        self.link.previous
    }

    /// The slot after it in its queue; None of the last one, and of a slot that lies in no queue.
    pub fn next(&self) -> Option<SlotNo>
        ensures { result ≡ self.now.link.next }
    {
        self.link.next
    }

    /// The queue that its thread lies in; None of a thread that lies in none.
    pub fn queue(&self) -> Option<QueueName>
        ensures { result ≡ self.now.link.queue }
    {
        self.link.queue
    }
}

/// The link of a thread, in numbers of the partition; that of no queue past the slots.
#[tactic(auto, using(crate::proofs::LinkSlots::slots))]
pub fn link_of(slots: &[Slot], k: ThreadNo) -> Link
    ensures { result ≡ link_in (links_of slots.now) k }
{
    let i = k.place();
    if i < slots.len() {
        let slot = &slots[i];
        slot.link.own()
    } else {
        Link::none()
    }
}

/// Gives a thread this link, in numbers of the partition; nothing past the slots.
#[inline(always)]
#[tactic(auto, using(crate::proofs::LinkSlots::slots))]
pub(crate) fn set_link(slots: &mut [Slot], k: ThreadNo, link: Link)
    ensures links { links_of slots.new ≡ pool_set (links_of slots.old) k link }
    ensures threads { threads_of slots.new ≡ threads_of slots.old }
    ensures shared { (first : ℕ) → AreLinksFrom first slots.old → AreLinksFrom first slots.new }
    ensures positive { 0 < k }
{
    let i = k.place();
    if i < slots.len() {
        let slot = &mut slots[i];
        slot.link.set(&link);
    }
}

/// Gives a thread, which has a slot, the link of no queue, and returns the thread that came after it.
#[tactic(auto, using(crate::proofs::LinkSlots::slots))]
pub(crate) fn take_next(slots: &mut [Slot], k: ThreadNo) -> Option<ThreadNo>
    requires { k ≤ length slots.old }
    ensures next { result ≡ (link_in (links_of slots.old) k).next }
    ensures links { links_of slots.new ≡ pool_set (links_of slots.old) k no_link }
    ensures threads { threads_of slots.new ≡ threads_of slots.old }
    ensures shared { (first : ℕ) → AreLinksFrom first slots.old → AreLinksFrom first slots.new }
{
    let i = k.place();
    let slot = &mut slots[i];
    let link = slot.link.own();
    slot.link.set(&Link::none());
    link.next
}

/// Says who comes after this thread, if it is one.
pub(crate) fn set_next(slots: &mut [Slot], thread: &Option<ThreadNo>, next: &Option<ThreadNo>)
    ensures links { links_of slots.new ≡ with_next thread.now next.now (links_of slots.old) }
    ensures threads { threads_of slots.new ≡ threads_of slots.old }
    ensures shared { (first : ℕ) → AreLinksFrom first slots.old → AreLinksFrom first slots.new }
{
    if let Some(k) = thread {
        set_next_of(slots, *k, next);
    }
}

/// Says who comes after a thread; nothing past the slots.
#[tactic(auto, using(crate::proofs::LinkSlots::slots))]
fn set_next_of(slots: &mut [Slot], k: ThreadNo, next: &Option<ThreadNo>)
    ensures links { links_of slots.new ≡ pool_set (links_of slots.old) k (record (link_in (links_of slots.old) k) { next = next.now }) }
    ensures threads { threads_of slots.new ≡ threads_of slots.old }
    ensures shared { (first : ℕ) → AreLinksFrom first slots.old → AreLinksFrom first slots.new }
{
    let i = k.place();
    if i < slots.len() {
        let slot = &mut slots[i];
        slot.link.set_next(next);
    }
}

/// Says who comes before this thread, if it is one.
pub(crate) fn set_previous(
    slots: &mut [Slot],
    thread: &Option<ThreadNo>,
    previous: &Option<ThreadNo>,
)
    ensures links { links_of slots.new ≡ with_previous thread.now previous.now (links_of slots.old) }
    ensures threads { threads_of slots.new ≡ threads_of slots.old }
    ensures shared { (first : ℕ) → AreLinksFrom first slots.old → AreLinksFrom first slots.new }
{
    if let Some(k) = thread {
        set_previous_of(slots, *k, previous);
    }
}

/// Says who comes before a thread; nothing past the slots.
#[tactic(auto, using(crate::proofs::LinkSlots::slots))]
fn set_previous_of(slots: &mut [Slot], k: ThreadNo, previous: &Option<ThreadNo>)
    ensures links { links_of slots.new ≡ pool_set (links_of slots.old) k (record (link_in (links_of slots.old) k) { previous = previous.now }) }
    ensures threads { threads_of slots.new ≡ threads_of slots.old }
    ensures shared { (first : ℕ) → AreLinksFrom first slots.old → AreLinksFrom first slots.new }
{
    let i = k.place();
    if i < slots.len() {
        let slot = &mut slots[i];
        slot.link.set_previous(previous);
    }
}
