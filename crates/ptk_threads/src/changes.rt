//! The slots of one partition after a change of one thread, whose link stays.

ghost use Rattle.std.specs.Prelude.{◌≡◌, option_map, Some, IsSome, IfSome};
ghost use Rattle.ptk_words.specs.Pools.{pool_get, pool_set, pool_changed};
ghost use Rattle.ptk_words.specs.declared.threads.Thread.{Thread};
ghost use Rattle.ptk_threads.specs.Links.{shared_links, threads_of};
ghost use Rattle.ptk_threads.specs.Table.{replaced_by};

use crate::Slot;
use crate::change::ThreadChange;
use crate::work::Work;
use ptk_words::{Thread, ThreadNo};

/// Changes the thread of a number, which is in use.
#[inline(always)]
pub(crate) fn update_in<C: ThreadChange>(slots: &mut [Slot], k: ThreadNo, change: &C)
    requires in_use { IsSome (pool_get (threads_of slots.old) k) }
    requires possible { C.can_make change.now }
    ensures threads { threads_of slots.new ≡ pool_changed k (C.changed change.now) (threads_of slots.old) }
    ensures links { shared_links slots.new ≡ shared_links slots.old }
{
    let slot = &mut slots[k.place()];
    update_at(&mut slot.thread, change);
}

/// Sets the entry of a number.
#[tactic(auto, using(crate::proofs::Slots::changes))]
pub(crate) fn put_in(slots: &mut [Slot], k: ThreadNo, thread: Option<Thread>)
    ensures threads { threads_of slots.new ≡ pool_set (threads_of slots.old) k thread }
    ensures links { shared_links slots.new ≡ shared_links slots.old }
{
    let i = k.place();
    if i < slots.len() {
        let slot = &mut slots[i];
        slot.thread = thread;
    }
}

/// Does a piece of work on the thread of a number, which is in use, where it lies.
pub(crate) fn work_in<W: Work>(slots: &mut [Slot], k: ThreadNo, work: &mut W) -> W::Answer
    requires in_use { IsSome (pool_get (threads_of slots.old) k) }
    requires ready { IfSome (pool_get (threads_of slots.old) k) (W.can_run work.old) }
    ensures threads { (made : Thread) × (threads_of slots.new ≡ pool_changed k (replaced_by made) (threads_of slots.old)) × IfSome (pool_get (threads_of slots.old) k) (λ thread. W.has_run work.old thread result work.new made) }
    ensures links { shared_links slots.new ≡ shared_links slots.old }
{
    let slot = &mut slots[k.place()];
    work_at(&mut slot.thread, work)
}

/// Does a piece of work on a thread that is one.
fn work_at<W: Work>(place: &mut Option<Thread>, work: &mut W) -> W::Answer
    requires in_use { IsSome place.old }
    requires ready { IfSome place.old (W.can_run work.old) }
    ensures { (made : Thread) × (place.new ≡ Some made) × IfSome place.old (λ thread. W.has_run work.old thread result work.new made) }
{
    match place {
        Some(thread) => work.run(thread),
        None => unreachable!(),
    }
}

/// Changes a thread that is one.
#[inline(always)]
fn update_at<C: ThreadChange>(place: &mut Option<Thread>, change: &C)
    requires in_use { IsSome place.old }
    requires possible { C.can_make change.now }
    ensures { place.new ≡ option_map (C.changed change.now) place.old }
{
    match place {
        Some(thread) => change.make(thread),
        None => unreachable!(),
    }
}
