//! Lock and unlock of a mutex that raises nobody, where nobody waits: no priority changes, so the stored ones stay.

ghost use Rattle.std.specs.Prelude.{◌≡◌, ◌<◌, false, length};
ghost use Rattle.ptk_words_model.specs.State.{with_locks};
ghost use Rattle.ptk_words_model.specs.Mutex.{mutex_at, after_take, after_free};
ghost use Rattle.ptk_roster.specs.Plain.{is_takeable, is_releasable, is_raising_at};

use crate::pools::Pools;
use ptk_words::{MutexNo, ThreadNo};

impl Pools {
    /// Whether a lock takes the mutex and changes no priority: it is free and sound, and neither INHERIT nor PROTECT
    /// (pthread_mutex_lock).
    #[inline(always)]
    pub fn is_takeable(&self, m: MutexNo) -> bool
        ensures { result ≡ is_takeable (mutex_at self.now.here.locks m) }
    {
        let p = self.hand;
        self.mutexes.is_takeable(&self.roster, p, m)
    }

    /// Whether an unlock by the thread frees the mutex, wakes nobody and changes no priority: the thread locked it
    /// once, it is sound and neither INHERIT nor PROTECT, and nobody waits for it (pthread_mutex_unlock).
    #[inline(always)]
    pub fn is_releasable(&self, t: ThreadNo, m: MutexNo) -> bool
        ensures { result ≡ is_releasable t (mutex_at self.now.here.locks m) }
    {
        let p = self.hand;
        self.mutexes.is_releasable(&self.roster, p, t, m)
    }

    /// The thread owns a mutex that is neither INHERIT nor PROTECT, counted once (pthread_mutex_lock).
    #[inline(always)]
    #[tactic(auto, using(crate::proofs::Hands::handed, crate::proofs::PlainMutexes::plain))]
    pub fn take_plain(&mut self, t: ThreadNo, m: MutexNo)
        requires plain { is_raising_at (mutex_at self.old.here.locks m) ≡ false }
        ensures { self.new ≡ record self.old { here = with_locks (after_take t m) self.old.here } }
    {
        let p = self.hand;
        self.mutexes.take_plain(&mut self.roster, p, t, m);
    }

    /// Nobody owns a mutex that is neither INHERIT nor PROTECT, and nobody is woken (pthread_mutex_unlock).
    #[inline(always)]
    #[tactic(auto, using(crate::proofs::Hands::handed, crate::proofs::PlainMutexes::plain))]
    pub fn release_plain(&mut self, m: MutexNo)
        requires plain { is_raising_at (mutex_at self.old.here.locks m) ≡ false }
        ensures { self.new ≡ record self.old { here = with_locks (after_free m) self.old.here } }
    {
        let p = self.hand;
        self.mutexes.release_plain(&mut self.roster, p, m);
    }
}
