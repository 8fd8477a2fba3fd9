//! One place of the pool, what becomes of the mutex at it, but for its waiters, and the place of a number.

ghost use Rattle.std.specs.Prelude.{◌≡◌, ◌≤◌, ◌&&◌, [], Some, None, IfOk, IfSome, not, is_none, option_map, if◌then◌else◌};
ghost use Rattle.std.specs.Option.{option_flatten};
ghost use Rattle.ptk_words.specs.Pools.{pool_get};
ghost use Rattle.ptk_words.specs.declared.faults.Errno.TheVariants.{EINVAL};
ghost use Rattle.ptk_words_model.specs.State.{locks_of};
ghost use Rattle.ptk_words_model.specs.declared.LockMove.TheVariants.{Refuses};
ghost use Rattle.ptk_words_model.specs.Mutex.{new_mutex, lock_move, trylock_move, relock_move, owns, is_free, is_raising_for, is_raising, soundness_of, count_of, is_above_ceiling, owner_move, free_move};
ghost use Rattle.ptk_words_model.specs.Priority.{assigned_of, inheritor, inheritor_of, is_owner};
ghost use Rattle.ptk_threads.specs.Links.{threads_of};
ghost use Rattle.ptk_roster.specs.Slots.{state_of, is_robust_at};
ghost use Rattle.ptk_roster.specs.Changes.{mutex_changed, SlotMayChange};
ghost use Rattle.ptk_roster.specs.Raised.{protected, protected_at};
ghost use Rattle.ptk_roster.specs.Plain.{is_raising_at, is_sound, is_takeable, is_releasable};

use crate::moves::{
    OwnerMoves, free_move, is_above_ceiling, own_lock_move, own_trylock_move, owner_move,
};
use crate::priorities::assigned;
use ptk_threads::Slot;
use ptk_words::{Errno, MutexKind, MutexNo, Owner, Protocol, Soundness, ThreadNo};
use ptk_words_model::LockMove;
use std::marker::Model;

/// What a mutex is, but for its waiters.
#[derive(Clone, Copy)]
pub struct MutexState {
    /// Its type.
    pub kind: MutexKind,
    /// Its protocol.
    pub protocol: Protocol,
    /// Whether it is robust (pthread_mutexattr_setrobust).
    pub is_robust: bool,
    /// The state of what it guards (pthread_mutex_consistent).
    pub soundness: Soundness,
    /// Who owns it.
    pub owner: Owner,
    /// How often its owner locked it.
    pub count: u32,
}

/// A place for a mutex, seen as the mutex without waiters.
#[derive(Clone, Copy)]
pub struct MutexSlot {
    state: Option<MutexState>,
}

impl Model for MutexSlot {
    ghost use Rattle.std.specs.Prelude.{[], Option, option_map};
    ghost use Rattle.ptk_words_model.specs.State.{Mutex};
    ghost use Rattle.std.proofs.Common.{ap};
    ghost use Rattle.ptk_roster.specs.declared.slot.MutexState.{MutexState};
    ghost use Rattle.ptk_roster.specs.Slots.{mutex_with, state_of, state_of-bare};

    ghost Value = { Option Mutex };

    ghost view = { λ a. option_map (mutex_with []) a.state };

    ghost inverse = { λ x. record { state = option_map state_of x } };

    ghost inverse_ok = { λ a h. ap (λ (x : Option MutexState). record { state = x }) (state_of-bare a.state) };
}

/// What becomes of a mutex.
#[derive(Clone, Copy)]
pub enum Change {
    /// The thread owns it, counted once.
    Take(ThreadNo),
    /// Its owner locked it once more.
    CountUp,
    /// Its owner unlocked it, but not for the last time.
    CountDown,
    /// Nobody owns it, and it can be locked.
    Release,
    /// It stays locked, and nobody owns it.
    Abandon,
    /// What it guards is in this state.
    Mark(Soundness),
}

impl MutexSlot {
    /// A free place.
    pub fn free() -> MutexSlot
        ensures { result ≡ None }
    {
        MutexSlot { state: None }
    }

    /// What its mutex is; None at a free place.
    #[tactic(auto, using(crate::proofs::Slots::slots))]
    pub fn state(&self) -> Option<MutexState>
        ensures { result ≡ option_map state_of self.now }
    {
        self.state
    }

    /// Whether no mutex is there.
    #[tactic(auto, using(crate::proofs::Slots::slots))]
    pub fn is_free(&self) -> bool
        ensures { result ≡ is_none self.now }
    {
        self.state.is_none()
    }

    /// A new mutex, which is free and consistent, at a free place (pthread_mutex_init).
    pub fn open(&mut self, kind: MutexKind, protocol: Protocol, is_robust: bool)
        requires { self.old ≡ None }
        ensures { self.new ≡ Some (new_mutex kind protocol is_robust) }
    {
        self.state = Some(MutexState {
            kind,
            protocol,
            is_robust,
            soundness: Soundness::Consistent,
            owner: Owner::Free,
            count: 0,
        });
    }

    /// The place is free (pthread_mutex_destroy).
    pub fn close(&mut self)
        ensures { self.new ≡ None }
    {
        self.state = None;
    }

    /// Changes its mutex, if there is one.
    #[tactic(auto, using(crate::proofs::Slots::slots))]
    pub fn change(&mut self, change: Change)
        requires { SlotMayChange change self.old }
        ensures { self.new ≡ option_map (mutex_changed change) self.old }
    {
        let Some(state) = &mut self.state else {
            return;
        };
        match change {
            Change::Take(t) => {
                state.owner = Owner::OwnedBy(t);
                state.count = 1;
            }
            Change::CountUp => state.count += 1,
            Change::CountDown => state.count -= 1,
            Change::Release => {
                state.owner = Owner::Free;
                state.count = 0;
            }
            Change::Abandon => state.owner = Owner::Abandoned,
            Change::Mark(soundness) => state.soundness = soundness,
        }
    }
}

impl MutexSlot {
    /// The thread that inherits from the waiters: the owner of an INHERIT mutex (pthread_mutexattr_getprotocol).
    pub(crate) fn inheritor(&self) -> Option<ThreadNo>
        ensures { result ≡ inheritor_of self.now }
    {
        let state = self.state.as_ref()?;
        inheritor(state.protocol, state.owner)
    }

    /// The thread that owns its PROTECT mutex, with the ceiling; None where no thread owns a PROTECT mutex there
    /// (pthread_mutexattr_getprotocol).
    pub(crate) fn protected(&self) -> Option<(ThreadNo, u8)>
        ensures value { result ≡ protected_at self.now }
        ensures in_range { IfSome result (λ x. x.1 ≤ 32) }
    {
        let state = self.state.as_ref()?;
        protected(state.protocol, state.owner)
    }
}

/// The owner of a PROTECT mutex with its ceiling, where it is a thread.
fn protected(protocol: Protocol, owner: Owner) -> Option<(ThreadNo, u8)>
    ensures value { result ≡ protected protocol owner }
    ensures in_range { IfSome result (λ x. x.1 ≤ 32) }
{
    match protocol {
        Protocol::Protect(ceiling) => match owner {
            Owner::OwnedBy(u) => Some((u, ceiling.level())),
            Owner::Free | Owner::Abandoned => None,
        },
        Protocol::NoProtocol | Protocol::Inherit => None,
    }
}

/// Whether the thread is the owner.
fn is_owner(t: ThreadNo, owner: Owner) -> bool
    ensures { result ≡ is_owner t owner }
{
    match owner {
        Owner::OwnedBy(u) => u.number() == t.number(),
        Owner::Free | Owner::Abandoned => false,
    }
}

/// The owner of an INHERIT mutex, where it is a thread.
fn inheritor(protocol: Protocol, owner: Owner) -> Option<ThreadNo>
    ensures { result ≡ inheritor protocol owner }
{
    match protocol {
        Protocol::Inherit => match owner {
            Owner::OwnedBy(u) => Some(u),
            Owner::Free | Owner::Abandoned => None,
        },
        Protocol::NoProtocol | Protocol::Protect(_) => None,
    }
}

impl MutexSlot {
    /// The move of lock; the ceiling is tested first (pthread_mutex_lock).
    pub fn lock_move(&self, threads: &[Slot], t: ThreadNo) -> LockMove
        ensures { result ≡ lock_move (locks_of (threads_of threads.now) []) t self.now }
    {
        match &self.state {
            Some(state) => {
                let of_own = own_lock_move(state.kind, state.count);
                move_of_state(state, threads, t, of_own, LockMove::Waits)
            }
            None => LockMove::Refuses(Errno::EINVAL),
        }
    }

    /// The move of trylock; the ceiling is tested first (pthread_mutex_trylock).
    pub fn trylock_move(&self, threads: &[Slot], t: ThreadNo) -> LockMove
        ensures { result ≡ trylock_move (locks_of (threads_of threads.now) []) t self.now }
    {
        match &self.state {
            Some(state) => {
                let busy = LockMove::Refuses(Errno::EBUSY);
                let of_own = own_trylock_move(state.kind, state.count);
                move_of_state(state, threads, t, of_own, busy)
            }
            None => LockMove::Refuses(Errno::EINVAL),
        }
    }

    /// The move after a condition wait (pthread_cond_wait; own choice).
    pub fn relock_move(&self, t: ThreadNo) -> LockMove
        ensures { result ≡ relock_move t self.now }
    {
        match &self.state {
            Some(state) => owner_move(
                state.owner,
                t,
                OwnerMoves {
                    of_free: free_move(state.soundness),
                    of_own: LockMove::Counts,
                    of_another: LockMove::Waits,
                },
            ),
            None => LockMove::Waits,
        }
    }

    /// Whether the thread owns its mutex (pthread_mutex_unlock).
    pub fn is_owned_by(&self, t: ThreadNo) -> bool
        ensures { result ≡ owns t self.now }
    {
        match &self.state {
            Some(state) => is_owner(t, state.owner),
            None => false,
        }
    }

    /// Whether the thread owns its mutex, which is INHERIT or PROTECT (pthread_mutexattr_getprotocol).
    pub fn is_raising_for(&self, t: ThreadNo) -> bool
        ensures { result ≡ is_raising_for t self.now }
    {
        match &self.state {
            Some(state) => is_owner(t, state.owner) && is_raising(state.protocol),
            None => false,
        }
    }

    /// Whether its mutex is INHERIT or PROTECT; false at a free place (pthread_mutexattr_getprotocol).
    #[inline]
    pub fn is_raising(&self) -> bool
        ensures { result ≡ is_raising_at self.now }
    {
        match &self.state {
            Some(state) => is_raising(state.protocol),
            None => false,
        }
    }

    /// The state of what its mutex guards; consistent at a free place (pthread_mutex_consistent).
    pub fn soundness(&self) -> Soundness
        ensures { result ≡ soundness_of self.now }
    {
        match &self.state {
            Some(state) => state.soundness,
            None => Soundness::Consistent,
        }
    }

    /// Whether its mutex is robust; false at a free place (pthread_mutexattr_setrobust).
    pub fn is_robust(&self) -> bool
        ensures { result ≡ is_robust_at self.now }
    {
        match &self.state {
            Some(state) => state.is_robust,
            None => false,
        }
    }

    /// How often its mutex is locked; 0 at a free place.
    pub fn count(&self) -> u32
        ensures { result ≡ count_of self.now }
    {
        match &self.state {
            Some(state) => state.count,
            None => 0,
        }
    }
}

impl MutexSlot {
    /// Whether a lock takes its mutex and changes no priority: it is free and sound, and neither INHERIT nor PROTECT
    /// (pthread_mutex_lock).
    #[inline]
    pub fn is_takeable(&self) -> bool
        ensures { result ≡ is_takeable self.now }
    {
        match &self.state {
            Some(state) => is_plain(state) && is_free(state.owner),
            None => false,
        }
    }

    /// Whether an unlock by the thread frees its mutex, wakes nobody and changes no priority: the thread locked it
    /// once, it is sound and neither INHERIT nor PROTECT, and nobody waits for it, as the caller says
    /// (pthread_mutex_unlock).
    #[inline]
    pub fn is_releasable(&self, t: ThreadNo, has_waiters: bool) -> bool
        ensures { result ≡ (not has_waiters && is_releasable t self.now) }
    {
        match &self.state {
            Some(state) => {
                !has_waiters && is_plain(state) && is_owner(t, state.owner) && state.count == 1
            }
            None => false,
        }
    }
}

/// Whether the mutex is sound and neither INHERIT nor PROTECT.
#[inline]
fn is_plain(state: &MutexState) -> bool
    ensures { result ≡ (not (is_raising state.now.protocol) && is_sound state.now.soundness) }
{
    !is_raising(state.protocol) && is_sound(state.soundness)
}

/// Not locked.
#[inline]
fn is_free(owner: Owner) -> bool
    ensures { result ≡ is_free owner }
{
    match owner {
        Owner::Free => true,
        Owner::Abandoned | Owner::OwnedBy(_) => false,
    }
}

/// No owner ended, or the mutex was made consistent since.
#[inline]
fn is_sound(soundness: Soundness) -> bool
    ensures { result ≡ is_sound soundness }
{
    match soundness {
        Soundness::Consistent => true,
        Soundness::Inconsistent | Soundness::Unrecoverable => false,
    }
}

/// The move of a lock of this mutex: the ceiling is tested first, against the assigned priority.
fn move_of_state(
    state: &MutexState,
    threads: &[Slot],
    t: ThreadNo,
    of_own: LockMove,
    of_another: LockMove,
) -> LockMove
    ensures { result ≡ (if is_above_ceiling (assigned_of (threads_of threads.now) t) state.now.protocol then Refuses EINVAL else owner_move state.now.owner t (record { of_free = free_move state.now.soundness; of_own = of_own; of_another = of_another })) }
{
    if is_barred(state.protocol, threads, t) {
        return LockMove::Refuses(Errno::EINVAL);
    }
    let of_free = free_move(state.soundness);
    owner_move(
        state.owner,
        t,
        OwnerMoves {
            of_free,
            of_own,
            of_another,
        },
    )
}

/// Whether the thread's assigned priority is above the ceiling of a PROTECT mutex.
#[inline(always)]
fn is_barred(protocol: Protocol, threads: &[Slot], t: ThreadNo) -> bool
    ensures { result ≡ is_above_ceiling (assigned_of (threads_of threads.now) t) protocol }
{
    match protocol {
        Protocol::Protect(_) => is_above_ceiling(assigned(threads, t), protocol),
        Protocol::NoProtocol | Protocol::Inherit => false,
    }
}

/// INHERIT or PROTECT.
fn is_raising(protocol: Protocol) -> bool
    ensures { result ≡ is_raising protocol }
{
    match protocol {
        Protocol::Inherit | Protocol::Protect(_) => true,
        Protocol::NoProtocol => false,
    }
}

/// The place of a number, None past the partition's.
#[tactic(auto, using(crate::proofs::Slots::numbers))]
pub fn slot_in(slots: &[MutexSlot], m: MutexNo) -> Option<&MutexSlot>
    ensures { option_flatten (option_map (λ r. r.now) result) ≡ pool_get slots.now m }
{
    slots.get(m.place())
}
