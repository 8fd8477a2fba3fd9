//! A thread where it lies in the table, for readers of few of its fields.

ghost use Rattle.std.specs.Prelude.{◌≡◌, ◌<◌, length, IsSome, Some};
ghost use Rattle.std.specs.Option.{option_copied};
ghost use Rattle.ptk_words.specs.Pools.{pool_get};
ghost use Rattle.ptk_threads.specs.Links.{threads_of};
ghost use Rattle.ptk_threads.specs.Table.{thread_in};

use crate::Slot;
use crate::threads::Threads;
use ptk_words::{PartId, Thread, ThreadNo};

impl Threads {
    /// The thread of a number where it lies, None of a free one. Nothing of it is copied.
    #[inline]
    pub fn thread_ref(&self, p: PartId, k: ThreadNo) -> Option<&Thread>
        requires { p < length self.now.threads }
        ensures { option_copied result ≡ thread_in self.now p k }
    {
        thread_among(self.part(p), k)
    }

    /// The thread of a number in use, where it lies. Nothing of it is copied.
    #[inline]
    pub fn used_thread(&self, p: PartId, k: ThreadNo) -> &Thread
        requires partition { p < length self.now.threads }
        requires in_use { IsSome (thread_in self.now p k) }
        ensures { Some result.now ≡ thread_in self.now p k }
    {
        used_among(self.part(p), k)
    }
}

/// The thread of a number in use among a partition's slots.
#[inline]
#[tactic(auto, using(crate::proofs::Slots::reads))]
fn used_among(slots: &[Slot], k: ThreadNo) -> &Thread
    requires { IsSome (pool_get (threads_of slots.now) k) }
    ensures { Some result.now ≡ pool_get (threads_of slots.now) k }
{
    slots[k.place()].used_thread()
}

/// The thread of a number among a partition's slots, None of a free one.
#[inline]
#[tactic(auto, using(crate::proofs::Slots::reads))]
pub(crate) fn thread_among(slots: &[Slot], k: ThreadNo) -> Option<&Thread>
    ensures { option_copied result ≡ pool_get (threads_of slots.now) k }
{
    let i = k.place();
    if i < slots.len() {
        slots[i].thread_ref()
    } else {
        None
    }
}
