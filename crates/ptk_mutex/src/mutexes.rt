//! The state of the mutex calls, the life of numbers, and priorities that are all computed again.

ghost use Rattle.std.specs.Prelude.{◌≡◌, ◌+◌, ◌<◌, ◌≤◌, false, [], None, length, option_map, slice_set};
ghost use Rattle.ptk_words.specs.Pools.{least_free, pool_get, pool_set};
ghost use Rattle.ptk_words.specs.declared.TheConstants.{THREAD_LIMIT};
ghost use Rattle.ptk_words_model.specs.Mutex.{new_mutex, waiters_of};
ghost use Rattle.ptk_words_model.specs.MutexCalls.{is_locked};
ghost use Rattle.ptk_words_model.specs.Priority.{effective_priorities};
ghost use Rattle.ptk_words.specs.Parts.{part_of};
ghost use Rattle.ptk_roster.specs.Plain.{is_raising_at};
ghost use Rattle.ptk_roster.specs.Slots.{state_of};
ghost use Rattle.ptk_mutex.specs.Pool.{with_new_mutex};
ghost use Rattle.ptk_mutex.specs.Rosters.{with_priorities};
ghost use Rattle.ptk_mutex.specs.Sound.{IsSound};
ghost use Rattle.ptk_mutex.specs.Tables.{AreReady};

use ptk_roster::{MutexState, Roster, recompute, slot_in};
use ptk_words::{MutexKind, MutexNo, PartId, Protocol, THREAD_LIMIT};

/// The calls on the mutexes of a roster.
#[derive(Drop)]
pub struct Mutexes {
    /// How many stored priorities the walk of the last call read; 0 after one without a walk.
    pub(crate) visited: u32,
    ghost few: { visited ≤ THREAD_LIMIT + 1 },
}

impl Mutexes {
    /// Before any call.
    pub fn new() -> Mutexes
        ensures { result.visited ≡ 0 }
    {
        Mutexes { visited: 0 }
    }

    /// How many stored priorities the walk of the last call read, of whatever partition: as many as rose, or one more;
    /// 0 after one that computed all again or changed none.
    pub fn visited(&self) -> u32
        ensures value { result ≡ self.now.visited }
        ensures few { result ≤ THREAD_LIMIT + 1 }
    {
        self.visited
    }

    /// What the mutex of a number is, but for its waiters; None of a free number.
    #[tactic(auto, using(ptk_roster::proofs::Bare::bares))]
    pub fn state(&self, roster: &Roster, p: PartId, m: MutexNo) -> Option<MutexState>
        requires { p < length roster.now.table.threads }
        ensures { result ≡ option_map state_of (pool_get (part_of roster.now.mutexes p) m) }
    {
        slot_in(roster.mutex_slots(p), m)?.state()
    }

    /// A new mutex, free and consistent, at the least free number; None, and nothing changes, where no number is free
    /// (pthread_mutex_init).
    pub fn init(
        &mut self,
        roster: &mut Roster,
        p: PartId,
        kind: MutexKind,
        protocol: Protocol,
        is_robust: bool,
    ) -> Option<MutexNo>
        requires { p < length roster.old.table.threads }
        ensures told { result ≡ least_free (part_of roster.old.mutexes p) }
        ensures roster { roster.new ≡ record roster.old { mutexes = slice_set roster.old.mutexes p (with_new_mutex (new_mutex kind protocol is_robust) (part_of roster.old.mutexes p)) } }
        ensures visited { self.new.visited ≡ 0 }
        ensures ready { AreReady p roster.old → AreReady p roster.new }
        ensures sound { IsSound roster.old → IsSound roster.new }
    {
        self.visited = 0;
        open_free(roster, p, kind, protocol, is_robust)
    }

    /// The number is free (pthread_mutex_destroy).
    pub fn destroy(&mut self, roster: &mut Roster, p: PartId, m: MutexNo)
        requires partition { p < length roster.old.table.threads }
        requires unused { waiters_of (pool_get (part_of roster.old.mutexes p) m) ≡ [] }
        ensures roster { roster.new ≡ record roster.old { mutexes = slice_set roster.old.mutexes p (pool_set (part_of roster.old.mutexes p) m None) } }
        ensures visited { self.new.visited ≡ 0 }
        ensures ready { is_locked (pool_get (part_of roster.old.mutexes p) m) ≡ false → AreReady p roster.old → AreReady p roster.new }
        ensures sound { is_locked (pool_get (part_of roster.old.mutexes p) m) ≡ false → IsSound roster.old → IsSound roster.new }
    {
        self.visited = 0;
        roster.close_mutex(p, m);
    }

    /// Computes the stored priorities of a partition again, as after a change of its threads that no call here made;
    /// every other partition's stay (pthread_mutexattr_getprotocol).
    pub fn refresh(&mut self, roster: &mut Roster, p: PartId)
        requires { p < length roster.old.table.threads }
        ensures roster { roster.new ≡ with_priorities p (effective_priorities (part_of roster.old.table.threads p) (part_of roster.old.mutexes p)) roster.old }
        ensures visited { self.new.visited ≡ 0 }
        ensures sound { IsSound roster.old → IsSound roster.new }
    {
        self.visited = 0;
        refresh_priorities(roster, p);
    }
}

/// A new mutex, free and consistent, at the least free number; None, and nothing changes, where no number is free.
#[tactic(auto, using(crate::proofs::Pool::pools))]
fn open_free(
    roster: &mut Roster,
    p: PartId,
    kind: MutexKind,
    protocol: Protocol,
    is_robust: bool,
) -> Option<MutexNo>
    requires { p < length roster.old.table.threads }
    ensures told { result ≡ least_free (part_of roster.old.mutexes p) }
    ensures roster { roster.new ≡ record roster.old { mutexes = slice_set roster.old.mutexes p (with_new_mutex (new_mutex kind protocol is_robust) (part_of roster.old.mutexes p)) } }
{
    let free = roster.free_mutex(p);
    if let Some(m) = free {
        roster.open_mutex(p, m, kind, protocol, is_robust);
    }
    free
}

/// Computes the stored priorities of a partition again.
#[inline(never)]
pub(crate) fn refresh_priorities(roster: &mut Roster, p: PartId)
    requires { p < length roster.old.table.threads }
    ensures { roster.new ≡ with_priorities p (effective_priorities (part_of roster.old.table.threads p) (part_of roster.old.mutexes p)) roster.old }
{
    let mut room = [0; THREAD_LIMIT as usize];
    let slots = roster.threads().part(p);
    let n = slots.len();
    let priorities = &mut room[..n];
    recompute(slots, roster.mutex_slots(p), priorities);
    roster.store(p, priorities);
}

/// After a change of a mutex, of its owner or of its waiters: computes the stored priorities of the partition again
/// where the mutex is INHERIT or PROTECT; any other raises nobody, so they stay (pthread_mutexattr_getprotocol).
#[inline(always)]
pub(crate) fn refresh_after(roster: &mut Roster, p: PartId, m: MutexNo)
    requires partition { p < length roster.old.table.threads }
    requires plain { is_raising_at (pool_get (part_of roster.old.mutexes p) m) ≡ false → part_of roster.old.table.stored p ≡ effective_priorities (part_of roster.old.table.threads p) (part_of roster.old.mutexes p) }
    ensures { roster.new ≡ with_priorities p (effective_priorities (part_of roster.old.table.threads p) (part_of roster.old.mutexes p)) roster.old }
{
    if is_raising(roster, p, m) {
        refresh_priorities(roster, p);
    }
}

/// Whether a mutex is INHERIT or PROTECT.
#[inline(always)]
#[tactic(auto, using(ptk_roster::proofs::Bare::bares))]
fn is_raising(roster: &Roster, p: PartId, m: MutexNo) -> bool
    requires { p < length roster.now.table.threads }
    ensures { result ≡ is_raising_at (pool_get (part_of roster.now.mutexes p) m) }
{
    match slot_in(roster.mutex_slots(p), m) {
        Some(slot) => slot.is_raising(),
        None => false,
    }
}
