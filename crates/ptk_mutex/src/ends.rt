//! The end of a thread: what becomes of the mutexes that it owns.

ghost use Rattle.std.specs.Prelude.{◌≡◌, ◌<◌, length, IsSome};
ghost use Rattle.ptk_words.specs.Pools.{pool_get};
ghost use Rattle.ptk_words.specs.Parts.{part_of};
ghost use Rattle.ptk_words_model.specs.Mutex.{after_bequest, after_mutex_end, after_owner_end};
ghost use Rattle.ptk_roster.specs.Slots.{is_robust_at};
ghost use Rattle.ptk_mutex.specs.Sound.{IsSound};
ghost use Rattle.ptk_mutex.specs.Tables.{locks_at, put_locks, AreReady};
ghost use Rattle.ptk_mutex.specs.Woken.{woken_at};

use crate::locking::is_owner;
use crate::mutexes::Mutexes;
use crate::unlocking::{alter, amend, hand_over};
use ptk_roster::{Change, Roster, slot_in};
use ptk_words::{MutexNo, PartId, Soundness, ThreadNo};
use ptk_words_model::LockMove;

impl Mutexes {
    /// Does to a thread's mutexes what the thread's end does, in ascending number: a robust one goes, inconsistent, to
    /// its heir, whose reply is EOWNERDEAD; any other stays locked, and nobody owns it (pthread_mutexattr_setrobust;
    /// own choice). Returns the set of threads woken, as 32 bits: bit k - 1 is thread k.
    pub fn abandon(&mut self, roster: &mut Roster, p: PartId, t: ThreadNo) -> u32
        requires ready { AreReady p roster.old }
        ensures woken { result ≡ woken_at p roster.old roster.new }
        ensures roster { roster.new ≡ put_locks p (after_owner_end t (locks_at p roster.old)) roster.old }
        ensures visited { self.new.visited ≡ 0 }
        ensures ready { AreReady p roster.new }
        ensures sound { IsSound roster.old → IsSound roster.new }
    {
        self.visited = 0;
        end_all(roster, p, t)
    }
}

/// What the end of a thread makes of all its mutexes, in ascending number. Returns whom it wakes.
fn end_all(roster: &mut Roster, p: PartId, t: ThreadNo) -> u32
    requires ready { AreReady p roster.old }
    ensures woken { result ≡ woken_at p roster.old roster.new }
    ensures roster { roster.new ≡ put_locks p (after_owner_end t (locks_at p roster.old)) roster.old }
    ensures ready { AreReady p roster.new }
{
    let count = roster.mutex_slots(p).len();
    let mut woken = 0;
    for i in 0..count {
        woken |= end_mutex(roster, p, t, MutexNo::new(i as u8 + 1));
    }
    woken
}

/// What the end of a thread makes of one mutex.
#[tactic(auto, using(crate::proofs::Moved::ends))]
fn end_mutex(roster: &mut Roster, p: PartId, t: ThreadNo, m: MutexNo) -> u32
    requires ready { AreReady p roster.old }
    ensures woken { result ≡ woken_at p roster.old roster.new }
    ensures roster { roster.new ≡ put_locks p (after_mutex_end t (pool_get (part_of roster.old.mutexes p) m) m (locks_at p roster.old)) roster.old }
    ensures ready { AreReady p roster.new }
{
    if !is_owner(roster, p, t, m) {
        return 0;
    }
    if is_robust(roster, p, m) {
        bequeath(roster, p, m)
    } else {
        alter(roster, p, m, Change::Abandon);
        0
    }
}

/// A robust mutex is inconsistent and goes to its heir.
fn bequeath(roster: &mut Roster, p: PartId, m: MutexNo) -> u32
    requires ready { AreReady p roster.old }
    requires used { IsSome (pool_get (part_of roster.old.mutexes p) m) }
    ensures woken { result ≡ woken_at p roster.old roster.new }
    ensures roster { roster.new ≡ put_locks p (after_bequest m (locks_at p roster.old)) roster.old }
    ensures ready { AreReady p roster.new }
{
    let marked = Change::Mark(Soundness::Inconsistent);
    amend(roster, p, m, marked);
    hand_over(roster, p, m, LockMove::Recovers)
}

/// Whether a mutex is robust.
#[tactic(auto, using(ptk_roster::proofs::Bare::bares))]
fn is_robust(roster: &Roster, p: PartId, m: MutexNo) -> bool
    requires { p < length roster.now.table.threads }
    ensures { result ≡ is_robust_at (pool_get (part_of roster.now.mutexes p) m) }
{
    match slot_in(roster.mutex_slots(p), m) {
        Some(slot) => slot.is_robust(),
        None => false,
    }
}
