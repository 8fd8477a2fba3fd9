//! Lock and unlock of a mutex that raises nobody, where nobody waits: no priority changes, so none is computed again.

ghost use Rattle.std.specs.Prelude.{◌≡◌, ◌<◌, true, false, length, slice_set};
ghost use Rattle.ptk_words.specs.Pools.{pool_get};
ghost use Rattle.ptk_words.specs.Parts.{part_of};
ghost use Rattle.ptk_words_model.specs.State.{locks_of};
ghost use Rattle.ptk_words_model.specs.Mutex.{after_take, after_free};
ghost use Rattle.ptk_roster.specs.Plain.{is_takeable, is_releasable, is_raising_at};
ghost use Rattle.ptk_mutex.specs.Sound.{IsSound};
ghost use Rattle.ptk_mutex.specs.Tables.{AreReady};

use crate::mutexes::Mutexes;
use ptk_roster::{Change, Roster, slot_in};
use ptk_words::{MutexNo, PartId, ThreadNo};

impl Mutexes {
    /// Whether a lock takes the mutex and changes no priority: it is free and sound, and neither INHERIT nor PROTECT
    /// (pthread_mutex_lock).
    #[inline]
    #[tactic(auto, using(ptk_roster::proofs::Bare::bares))]
    pub fn is_takeable(&self, roster: &Roster, p: PartId, m: MutexNo) -> bool
        requires { p < length roster.now.table.threads }
        ensures told { result ≡ is_takeable (pool_get (part_of roster.now.mutexes p) m) }
        ensures plain { result ≡ true → is_raising_at (pool_get (part_of roster.now.mutexes p) m) ≡ false }
    {
        match slot_in(roster.mutex_slots(p), m) {
            Some(slot) => slot.is_takeable(),
            None => false,
        }
    }

    /// Whether an unlock by the thread frees the mutex, wakes nobody and changes no priority: the thread locked it
    /// once, it is sound and neither INHERIT nor PROTECT, and nobody waits for it (pthread_mutex_unlock).
    #[inline]
    #[tactic(auto, using(ptk_roster::proofs::Bare::bares))]
    pub fn is_releasable(&self, roster: &Roster, p: PartId, t: ThreadNo, m: MutexNo) -> bool
        requires { p < length roster.now.table.threads }
        ensures told { result ≡ is_releasable t (pool_get (part_of roster.now.mutexes p) m) }
        ensures plain { result ≡ true → is_raising_at (pool_get (part_of roster.now.mutexes p) m) ≡ false }
    {
        match slot_in(roster.mutex_slots(p), m) {
            Some(slot) => slot.is_releasable(t, roster.has_mutex_waiters(p, m)),
            None => false,
        }
    }

    /// The thread owns the mutex, counted once (pthread_mutex_lock). The stored priorities stay; they are the effective
    /// ones where the mutex is neither INHERIT nor PROTECT, which is the caller's to test (`is_takeable`).
    #[inline]
    pub fn take_plain(&mut self, roster: &mut Roster, p: PartId, t: ThreadNo, m: MutexNo)
        requires { p < length roster.old.table.threads }
        ensures roster { roster.new ≡ record roster.old { mutexes = slice_set roster.old.mutexes p (after_take t m (locks_of (part_of roster.old.table.threads p) (part_of roster.old.mutexes p))).mutexes } }
        ensures visited { self.new.visited ≡ 0 }
        ensures ready { is_raising_at (pool_get (part_of roster.old.mutexes p) m) ≡ false → AreReady p roster.old → AreReady p roster.new }
        ensures sound { is_raising_at (pool_get (part_of roster.old.mutexes p) m) ≡ false → IsSound roster.old → IsSound roster.new }
    {
        self.visited = 0;
        roster.change_mutex(p, m, Change::Take(t));
    }

    /// Nobody owns the mutex, and nobody is woken (pthread_mutex_unlock). The stored priorities stay; they are the
    /// effective ones where the mutex is neither INHERIT nor PROTECT, which is the caller's to test (`is_releasable`).
    #[inline]
    pub fn release_plain(&mut self, roster: &mut Roster, p: PartId, m: MutexNo)
        requires { p < length roster.old.table.threads }
        ensures roster { roster.new ≡ record roster.old { mutexes = slice_set roster.old.mutexes p (after_free m (locks_of (part_of roster.old.table.threads p) (part_of roster.old.mutexes p))).mutexes } }
        ensures visited { self.new.visited ≡ 0 }
        ensures ready { is_raising_at (pool_get (part_of roster.old.mutexes p) m) ≡ false → AreReady p roster.old → AreReady p roster.new }
        ensures sound { is_raising_at (pool_get (part_of roster.old.mutexes p) m) ≡ false → IsSound roster.old → IsSound roster.new }
    {
        self.visited = 0;
        roster.change_mutex(p, m, Change::Release);
    }
}
