//! A rise of the stored priorities, by what raised a thread.

ghost use Rattle.std.specs.Prelude.{◌≡◌, ◌+◌, ◌<◌, ◌≤◌, true, Some, None, length, IsSome, if◌then◌else◌};
ghost use Rattle.ptk_words.specs.Pools.{pool_get, greatest};
ghost use Rattle.ptk_words_model.specs.Priority.{awaited, effective_priorities};
ghost use Rattle.ptk_words_model.specs.Mutex.{owns};
ghost use Rattle.ptk_words_model.specs.Condition.{is_named};
ghost use Rattle.ptk_words.specs.declared.TheConstants.{THREAD_LIMIT};
ghost use Rattle.ptk_words.specs.Parts.{part_of};
ghost use Rattle.ptk_threads.specs.Table.{thread_in, stored_of};
ghost use Rattle.ptk_mutex.specs.Risings.{IsBefore};
ghost use Rattle.ptk_mutex.specs.Before.{IsBeforeWait, IsBeforeTake, IsBeforeAssignment};
ghost use Rattle.ptk_mutex.specs.Gained.{awaiting, gained_by, gained_of};
ghost use Rattle.ptk_mutex.specs.Rosters.{with_priorities, next_at};
ghost use Rattle.ptk_mutex.specs.Visits.{IsVisited};

use crate::walk::{rise, slots_of};
use ptk_roster::{MutexSlot, Roster, assigned, awaited, slot_in};
use ptk_words::{MutexNo, PartId, Protocol, ThreadNo};

/// What raised a thread.
#[derive(Clone, Copy)]
pub enum Rise {
    /// The thread has locked the mutex, which was free.
    Take(ThreadNo, MutexNo),
    /// The thread has an assigned priority no less than before.
    Assignment(ThreadNo),
}

/// Stores a partition's effective priorities again after a rise (pthread_mutexattr_getprotocol). Returns how many
/// stored priorities the walk along the chain read.
pub fn raise(roster: &mut Roster, p: PartId, rise: Rise) -> u32
    requires partition { p < length roster.old.table.threads }
    requires before { IsBefore rise (part_of roster.old.table.threads p) (part_of roster.old.mutexes p) (part_of roster.old.table.stored p) }
    ensures stored { roster.new ≡ with_priorities p (effective_priorities (part_of roster.old.table.threads p) (part_of roster.old.mutexes p)) roster.old }
    ensures visited { IsVisited result (part_of roster.old.table.stored p) (part_of roster.new.table.stored p) }
    ensures few { result ≤ THREAD_LIMIT + 1 }
{
    match rise {
        Rise::Take(t, m) => rise_after_take(roster, p, t, m),
        Rise::Assignment(t) => rise_after_assignment(roster, p, t),
    }
}

/// A thread that waited for no mutex waits for one with this inheritor, which is the owner of an INHERIT mutex: the
/// owner's chain rises to the thread's priority, and without one nothing does (pthread_mutexattr_getprotocol). Returns
/// how many stored priorities the walk read.
#[inline(always)]
pub(crate) fn rise_behind(
    roster: &mut Roster,
    p: PartId,
    t: ThreadNo,
    inheritor: Option<ThreadNo>,
) -> u32
    requires partition { p < length roster.old.table.threads }
    requires before { IsBeforeWait t (part_of roster.old.table.threads p) (part_of roster.old.mutexes p) (part_of roster.old.table.stored p) }
    requires next { inheritor ≡ next_at p roster.old t }
    ensures stored { roster.new ≡ with_priorities p (effective_priorities (part_of roster.old.table.threads p) (part_of roster.old.mutexes p)) roster.old }
    ensures visited { IsVisited result (part_of roster.old.table.stored p) (part_of roster.new.table.stored p) }
    ensures few { result ≤ THREAD_LIMIT + 1 }
{
    match inheritor {
        Some(owner) => {
            let priority = roster.stored_priority(p, t);
            rise(roster, p, owner, priority)
        }
        None => 0,
    }
}

/// A thread has locked a free mutex: of a PROTECT one it has the ceiling, and of an INHERIT one the priority of whoever
/// waits for it; its chain rises to that (pthread_mutexattr_getprotocol). Returns how many stored priorities the walk
/// read.
fn rise_after_take(roster: &mut Roster, p: PartId, t: ThreadNo, m: MutexNo) -> u32
    requires partition { p < length roster.old.table.threads }
    requires used { IsSome (thread_in roster.old.table p t) }
    requires owned { owns t (pool_get (part_of roster.old.mutexes p) m) ≡ true }
    requires before { IsBeforeTake m (part_of roster.old.table.threads p) (part_of roster.old.mutexes p) (part_of roster.old.table.stored p) }
    ensures stored { roster.new ≡ with_priorities p (effective_priorities (part_of roster.old.table.threads p) (part_of roster.old.mutexes p)) roster.old }
    ensures visited { IsVisited result (part_of roster.old.table.stored p) (part_of roster.new.table.stored p) }
    ensures few { result ≤ THREAD_LIMIT + 1 }
{
    let gained = gained_of(roster, roster.mutex_slots(p), p, m);
    if gained == 0 {
        return 0;
    }
    rise(roster, p, t, gained)
}

/// A thread has an assigned priority no less than before: its chain rises to it (pthread_setschedprio). Returns how
/// many stored priorities the walk read.
fn rise_after_assignment(roster: &mut Roster, p: PartId, t: ThreadNo) -> u32
    requires partition { p < length roster.old.table.threads }
    requires before { IsBeforeAssignment t (part_of roster.old.table.threads p) (part_of roster.old.mutexes p) (part_of roster.old.table.stored p) }
    ensures stored { roster.new ≡ with_priorities p (effective_priorities (part_of roster.old.table.threads p) (part_of roster.old.mutexes p)) roster.old }
    ensures visited { IsVisited result (part_of roster.old.table.stored p) (part_of roster.new.table.stored p) }
    ensures few { result ≤ THREAD_LIMIT + 1 }
{
    let priority = assigned(slots_of(roster, p), t);
    rise(roster, p, t, priority)
}

/// The priority that the owner of a mutex has at least by it.
fn gained_of(roster: &Roster, mutexes: &[MutexSlot], p: PartId, m: MutexNo) -> u8
    requires { p < length roster.now.table.threads }
    ensures value { result ≡ gained_of (part_of roster.now.table.threads p) (part_of roster.now.table.stored p) m (pool_get mutexes.now m) }
    ensures in_range { result ≤ 32 }
{
    let Some(slot) = slot_in(mutexes, m) else {
        return 0;
    };
    let Some(state) = slot.state() else {
        return 0;
    };
    gained_by(roster, p, m, state.protocol)
}

/// The same, of a mutex of this protocol.
fn gained_by(roster: &Roster, p: PartId, m: MutexNo, protocol: Protocol) -> u8
    requires { p < length roster.now.table.threads }
    ensures value { result ≡ gained_by (part_of roster.now.table.threads p) (part_of roster.now.table.stored p) m protocol }
    ensures in_range { result ≤ 32 }
{
    match protocol {
        Protocol::NoProtocol => 0,
        Protocol::Inherit => greatest_awaiting(roster, p, m),
        Protocol::Protect(ceiling) => ceiling.level(),
    }
}

/// The greatest stored priority of the threads that wait for a mutex; 0 of none.
fn greatest_awaiting(roster: &Roster, p: PartId, m: MutexNo) -> u8
    requires { p < length roster.now.table.threads }
    ensures value { result ≡ greatest (stored_of (part_of roster.now.table.stored p)) (awaiting m (part_of roster.now.table.threads p)) }
    ensures in_range { result ≤ 32 }
{
    let count = slots_of(roster, p).len();
    let mut most = 0;
    for k in 0..count {
        let t = ThreadNo::new((k + 1) as u8);
        most = most.max(passed_by(roster, p, t, m));
    }
    most
}

/// The stored priority of a thread that waits for the mutex; 0 of any other.
fn passed_by(roster: &Roster, p: PartId, t: ThreadNo, m: MutexNo) -> u8
    requires { p < length roster.now.table.threads }
    ensures value { result ≡ (if is_named m (awaited (thread_in roster.now.table p t)) then stored_of (part_of roster.now.table.stored p) t else 0) }
    ensures in_range { result ≤ 32 }
{
    if is_named(m, awaited(slots_of(roster, p), t)) {
        roster.stored_priority(p, t)
    } else {
        0
    }
}

/// Whether the mutex that a wait names is this one; false where it names none.
pub fn is_named(m: MutexNo, named: Option<MutexNo>) -> bool
    ensures { result ≡ is_named m named }
{
    match named {
        Some(n) => n.number() == m.number(),
        None => false,
    }
}
