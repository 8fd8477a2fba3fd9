//! One thread, changed where it lies.

ghost use Rattle.std.specs.Prelude.{◌≡◌, ◌<◌, length, IfSome, IsSome};
ghost use Rattle.ptk_words.specs.declared.threads.Thread.{Thread};
ghost use Rattle.ptk_threads.specs.Table.{thread_in, with_changed, replaced_by};

use crate::roster::Roster;
use ptk_threads::{ThreadChange, Work};
use ptk_words::{PartId, ThreadNo};

impl Roster {
    /// Changes a thread, which is in use. Where that is its wait, the deadline that is kept for it follows.
    #[inline(always)]
    pub fn update<C: ThreadChange>(&mut self, p: PartId, k: ThreadNo, change: &C)
        requires partition { p < length self.old.table.threads }
        requires in_use { IsSome (thread_in self.old.table p k) }
        requires possible { C.can_make change.now }
        ensures { self.new ≡ record self.old { table = with_changed p k (C.changed change.now) self.old.table } }
    {
        self.threads.update(p, k, change);
    }

    /// Changes a thread; a free number stays free.
    #[inline(always)]
    pub fn update_if_used<C: ThreadChange>(&mut self, p: PartId, k: ThreadNo, change: &C)
        requires partition { p < length self.old.table.threads }
        requires possible { C.can_make change.now }
        ensures { self.new ≡ record self.old { table = with_changed p k (C.changed change.now) self.old.table } }
    {
        self.threads.update_if_used(p, k, change);
    }

    /// Does a piece of work on a thread where it lies, which leaves its wait: nothing of it is copied, and nothing else
    /// changes.
    pub fn work_on<W: Work>(&mut self, p: PartId, k: ThreadNo, work: &mut W) -> W::Answer
        requires partition { p < length self.old.table.threads }
        requires in_use { IsSome (thread_in self.old.table p k) }
        requires ready { IfSome (thread_in self.old.table p k) (W.can_run work.old) }
        requires waits { (after : W) → (answer : W.Answer) → (thread made : Thread) → W.has_run work.old thread answer after made → made.wait ≡ thread.wait }
        ensures { (made : Thread) × (self.new ≡ record self.old { table = with_changed p k (replaced_by made) self.old.table }) × IfSome (thread_in self.old.table p k) (λ thread. W.has_run work.old thread result work.new made) }
    {
        self.threads.work_on(p, k, work)
    }
}
