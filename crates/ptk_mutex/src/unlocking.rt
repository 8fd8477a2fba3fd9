//! Unlock: whom a mutex goes to, and what becomes of the waiters of one that is lost.

ghost use Rattle.std.specs.Prelude.{◌≡◌, ◌<◌, length};
ghost use Rattle.ptk_words.specs.Pools.{pool_get};
ghost use Rattle.ptk_words.specs.Parts.{part_of};
ghost use Rattle.ptk_words_model.specs.Mutex.{heir, soundness_of, free_move, count_of, after_hand_over, after_hand_over_to, after_refusal, after_refusal_to, after_refusals, after_loss, after_last_unlock, after_unlock};
ghost use Rattle.ptk_roster.specs.Changes.{SlotMayChange, IsQuiet, KeepsOwner};
ghost use Rattle.ptk_mutex.specs.Sound.{IsSound};
ghost use Rattle.ptk_mutex.specs.Tables.{locks_at, put_locks, put_locks_alone, HasPart, MayGet, AreReady};
ghost use Rattle.ptk_mutex.specs.Moves.{after_change};
ghost use Rattle.ptk_mutex.specs.Woken.{woken_at};

use crate::mutexes::{Mutexes, refresh_after};
use crate::waking::{leave, only};
use ptk_roster::{Change, Roster, slot_in};
use ptk_threads::Members;
use ptk_words::{Errno, MutexNo, PartId, Soundness, ThreadNo};
use ptk_words_model::LockMove;

impl Mutexes {
    /// An owner unlocks its mutex once; who owns it is the caller's to test (`owns`). The last unlock hands it over to
    /// the waiter of greatest effective priority, the earliest among equals, who is woken; but a mutex that was not
    /// made consistent is lost, and every waiter is woken with the reply ENOTRECOVERABLE (pthread_mutex_unlock,
    /// pthread_mutex_consistent). Returns the set of threads woken, as 32 bits: bit k - 1 is thread k.
    #[inline(always)]
    pub fn unlock(&mut self, roster: &mut Roster, p: PartId, m: MutexNo) -> u32
        requires ready { AreReady p roster.old }
        ensures woken { result ≡ woken_at p roster.old roster.new }
        ensures roster { roster.new ≡ put_locks p (after_unlock m (locks_at p roster.old)) roster.old }
        ensures visited { self.new.visited ≡ 0 }
        ensures ready { AreReady p roster.new }
        ensures sound { IsSound roster.old → IsSound roster.new }
    {
        self.visited = 0;
        unlock_once(roster, p, m)
    }
}

/// A count above 1 goes down by 1, else this is the last unlock. Returns whom it wakes.
#[inline(always)]
fn unlock_once(roster: &mut Roster, p: PartId, m: MutexNo) -> u32
    requires ready { AreReady p roster.old }
    ensures woken { result ≡ woken_at p roster.old roster.new }
    ensures roster { roster.new ≡ put_locks p (after_unlock m (locks_at p roster.old)) roster.old }
    ensures ready { AreReady p roster.new }
{
    if count(roster, p, m) > 1 {
        amend(roster, p, m, Change::CountDown);
        0
    } else {
        unlock_last(roster, p, m)
    }
}

/// The last unlock, by what the mutex guards.
#[inline(always)]
fn unlock_last(roster: &mut Roster, p: PartId, m: MutexNo) -> u32
    requires ready { AreReady p roster.old }
    ensures woken { result ≡ woken_at p roster.old roster.new }
    ensures roster { roster.new ≡ put_locks p (after_last_unlock (soundness_of (pool_get (part_of roster.old.mutexes p) m)) m (locks_at p roster.old)) roster.old }
    ensures ready { AreReady p roster.new }
{
    match soundness(roster, p, m) {
        Soundness::Consistent => hand_over(roster, p, m, LockMove::Takes),
        Soundness::Inconsistent | Soundness::Unrecoverable => lose(roster, p, m),
    }
}

/// The mutex is free for good, and every waiter leaves without it.
#[inline(never)]
fn lose(roster: &mut Roster, p: PartId, m: MutexNo) -> u32
    requires ready { AreReady p roster.old }
    ensures woken { result ≡ woken_at p roster.old roster.new }
    ensures roster { roster.new ≡ put_locks p (after_loss m (locks_at p roster.old)) roster.old }
    ensures ready { AreReady p roster.new }
{
    alter(roster, p, m, Change::Release);
    let lost = Change::Mark(Soundness::Unrecoverable);
    amend(roster, p, m, lost);
    refuse_all(roster, p, m)
}

/// Every waiter leaves without the mutex, each choice in the state that the one before left.
#[inline(never)]
fn refuse_all(roster: &mut Roster, p: PartId, m: MutexNo) -> u32
    requires ready { AreReady p roster.old }
    ensures woken { result ≡ woken_at p roster.old roster.new }
    ensures roster { roster.new ≡ put_locks p (after_refusals m (locks_at p roster.old)) roster.old }
    ensures ready { AreReady p roster.new }
{
    let waiters = roster.mutex_waiters(p, m);
    let count = waiters.as_slice().len();
    let mut woken = 0;
    for i in 0..count {
        woken |= refuse_next(roster, p, m);
    }
    woken
}

/// The mutex goes to the waiter of greatest effective priority, the earliest among equals, whose move this is; without
/// one it is free.
#[inline(always)]
pub(crate) fn hand_over(roster: &mut Roster, p: PartId, m: MutexNo, made: LockMove) -> u32
    requires ready { AreReady p roster.old }
    requires made { made ≡ free_move (soundness_of (pool_get (part_of roster.old.mutexes p) m)) }
    ensures woken { result ≡ woken_at p roster.old roster.new }
    ensures roster { roster.new ≡ put_locks p (after_hand_over m (locks_at p roster.old)) roster.old }
    ensures ready { AreReady p roster.new }
{
    let next = choose(roster, p, m);
    let woken = hand_to(roster, p, m, next, made);
    refresh_after(roster, p, m);
    woken
}

/// The mutex goes to a waiter, with the reply of this move (EOWNERDEAD after a dead owner), or to nobody; the stored
/// priorities stay.
#[inline(always)]
fn hand_to(
    roster: &mut Roster,
    p: PartId,
    m: MutexNo,
    next: Option<ThreadNo>,
    made: LockMove,
) -> u32
    requires part { HasPart p roster.old }
    requires may { MayGet next (locks_at p roster.old) m }
    requires made { made ≡ free_move (soundness_of (pool_get (part_of roster.old.mutexes p) m)) }
    ensures woken { result ≡ woken_at p roster.old roster.new }
    ensures roster { roster.new ≡ put_locks_alone p (after_hand_over_to next m (locks_at p roster.old)) roster.old }
{
    match next {
        Some(t) => {
            roster.change_mutex(p, m, Change::Take(t));
            leave(roster, p, t, m, made);
            only(t)
        }
        None => {
            roster.change_mutex(p, m, Change::Release);
            0
        }
    }
}

/// The waiter of greatest effective priority, the earliest among equals, leaves without the mutex.
fn refuse_next(roster: &mut Roster, p: PartId, m: MutexNo) -> u32
    requires ready { AreReady p roster.old }
    ensures woken { result ≡ woken_at p roster.old roster.new }
    ensures roster { roster.new ≡ put_locks p (after_refusal m (locks_at p roster.old)) roster.old }
    ensures ready { AreReady p roster.new }
{
    let next = choose(roster, p, m);
    let woken = refuse_to(roster, p, m, next);
    refresh_after(roster, p, m);
    woken
}

/// A waiter, if there is one, leaves without the mutex; the stored priorities stay.
fn refuse_to(roster: &mut Roster, p: PartId, m: MutexNo, next: Option<ThreadNo>) -> u32
    requires part { HasPart p roster.old }
    requires may { MayGet next (locks_at p roster.old) m }
    ensures woken { result ≡ woken_at p roster.old roster.new }
    ensures roster { roster.new ≡ put_locks_alone p (after_refusal_to next m (locks_at p roster.old)) roster.old }
{
    match next {
        Some(t) => {
            let made = LockMove::Refuses(Errno::ENOTRECOVERABLE);
            leave(roster, p, t, m, made);
            only(t)
        }
        None => 0,
    }
}

/// The first waiter of the greatest effective priority, None without waiters.
#[inline(always)]
#[tactic(auto, using(crate::proofs::Moved::choices))]
fn choose(roster: &Roster, p: PartId, m: MutexNo) -> Option<ThreadNo>
    requires ready { AreReady p roster.now }
    ensures told { result ≡ heir m (locks_at p roster.now) }
    ensures may { MayGet result (locks_at p roster.now) m }
{
    match roster.few_mutex_waiters(p, m) {
        Members::NoMember => None,
        Members::OnlyMember(t) => Some(t),
        Members::MoreMembers => first_waiter(roster, p, m),
    }
}

/// The same, by a list of all waiters.
#[inline(never)]
#[tactic(auto, using(crate::proofs::Moved::choices))]
fn first_waiter(roster: &Roster, p: PartId, m: MutexNo) -> Option<ThreadNo>
    requires ready { AreReady p roster.now }
    ensures told { result ≡ heir m (locks_at p roster.now) }
    ensures may { MayGet result (locks_at p roster.now) m }
{
    let waiters = roster.mutex_waiters(p, m);
    roster.first_among(p, waiters.as_slice())
}

/// A quiet change of a mutex, its owner too.
pub(crate) fn alter(roster: &mut Roster, p: PartId, m: MutexNo, change: Change)
    requires ready { AreReady p roster.old }
    requires quiet { IsQuiet change }
    requires possible { SlotMayChange change (pool_get (part_of roster.old.mutexes p) m) }
    ensures roster { roster.new ≡ put_locks p (after_change change m (locks_at p roster.old)) roster.old }
    ensures ready { AreReady p roster.new }
{
    roster.change_mutex(p, m, change);
    refresh_after(roster, p, m);
}

/// A quiet change of a mutex that keeps its owner, which changes no priority.
pub(crate) fn amend(roster: &mut Roster, p: PartId, m: MutexNo, change: Change)
    requires ready { AreReady p roster.old }
    requires quiet { IsQuiet change }
    requires owner { KeepsOwner change }
    requires possible { SlotMayChange change (pool_get (part_of roster.old.mutexes p) m) }
    ensures roster { roster.new ≡ put_locks p (after_change change m (locks_at p roster.old)) roster.old }
    ensures ready { AreReady p roster.new }
{
    roster.change_mutex(p, m, change);
}

/// The state of what a mutex guards.
#[tactic(auto, using(ptk_roster::proofs::Bare::bares))]
fn soundness(roster: &Roster, p: PartId, m: MutexNo) -> Soundness
    requires { p < length roster.now.table.threads }
    ensures { result ≡ soundness_of (pool_get (part_of roster.now.mutexes p) m) }
{
    match slot_in(roster.mutex_slots(p), m) {
        Some(slot) => slot.soundness(),
        None => Soundness::Consistent,
    }
}

/// How often a mutex is locked.
#[tactic(auto, using(ptk_roster::proofs::Bare::bares))]
fn count(roster: &Roster, p: PartId, m: MutexNo) -> u32
    requires { p < length roster.now.table.threads }
    ensures { result ≡ count_of (pool_get (part_of roster.now.mutexes p) m) }
{
    match slot_in(roster.mutex_slots(p), m) {
        Some(slot) => slot.count(),
        None => 0,
    }
}
