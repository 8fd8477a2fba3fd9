//! Calls 25 and 26: what the owner of a mutex does with it.

ghost use Rattle.std.specs.Prelude.{◌≡◌, ◌<◌, [], length, option_map};
ghost use Rattle.ptk_words_model.specs.Mutex.{mutex_at};
ghost use Rattle.ptk_words_model.specs.MutexCalls.{mutex_unlock, is_inconsistent, is_repairable, mutex_consistent};
ghost use Rattle.ptk_words_invariant.specs.Rests.{unlock_named, consistent_named};
ghost use Rattle.ptk_words_invariant.specs.Well.{IsWell};
ghost use Rattle.ptk_roster.specs.Slots.{mutex_with};
ghost use Rattle.ptk_gate_moves.specs.Held.{limits_here};

use crate::naming::named_mutex;
use ptk_gate_moves::{Pools, refuse, succeed};
use ptk_roster::MutexState;
use ptk_words::{Errno, MutexNo, Soundness};
use ptk_words_model::{Invocation, Reply};

/// pthread_mutex_unlock: the caller's mutex that the word at the pointer of a0 names counts down, or goes to the waiter
/// of greatest effective priority, the earliest among equals, or is free; an inconsistent one is lost, and its waiters
/// are refused with ENOTRECOVERABLE. EFAULT, EINVAL or ENOMEM of the word, then EPERM of a mutex that the caller does
/// not own (own choice for NORMAL); a refusal changes nothing but a0 and what a static initialiser set up.
#[inline(never)]
pub fn mutex_unlock(pools: &mut Pools, i: &Invocation) -> Reply
    requires well { IsWell (limits_here pools.old) pools.old.here }
    ensures told { result ≡ (mutex_unlock i.now pools.old.here).reply }
    ensures moved { pools.new ≡ record pools.old { here = (mutex_unlock i.now pools.old.here).part } }
{
    match named_mutex(pools, i) {
        Ok(m) => unlock_named(pools, *i, m),
        Err(errno) => refuse(pools, *i, errno),
    }
}

/// The caller's unlock of the mutex named, or EPERM.
#[tactic(auto, using(ptk_gate_moves::proofs::Locked::locked))]
fn unlock_named(pools: &mut Pools, i: Invocation, m: MutexNo) -> Reply
    requires well { IsWell (limits_here pools.old) pools.old.here }
    ensures told { result ≡ (unlock_named m i pools.old.here).reply }
    ensures moved { pools.new ≡ record pools.old { here = (unlock_named m i pools.old.here).part } }
{
    if pools.owns(i.caller, m) {
        pools.unlock(m);
        succeed(pools, i)
    } else {
        refuse(pools, i, Errno::EPERM)
    }
}

/// pthread_mutex_consistent: what the caller's robust mutex guards, which the word at the pointer of a0 names, is sound
/// again after an owner's end. EFAULT, EINVAL or ENOMEM of the word, then EINVAL of a mutex that is not robust and
/// inconsistent, EPERM of one that the caller does not own (own choice); a refusal changes nothing but a0 and what a
/// static initialiser set up.
pub fn mutex_consistent(pools: &mut Pools, i: Invocation) -> Reply
    requires well { IsWell (limits_here pools.old) pools.old.here }
    ensures told { result ≡ (mutex_consistent i pools.old.here).reply }
    ensures moved { pools.new ≡ record pools.old { here = (mutex_consistent i pools.old.here).part } }
{
    match named_mutex(pools, &i) {
        Ok(m) => repair_named(pools, i, m),
        Err(errno) => refuse(pools, i, errno),
    }
}

/// The mutex named is made consistent, or EINVAL, or EPERM.
#[tactic(auto, using(ptk_gate_moves::proofs::Locked::locked))]
fn repair_named(pools: &mut Pools, i: Invocation, m: MutexNo) -> Reply
    requires well { IsWell (limits_here pools.old) pools.old.here }
    ensures told { result ≡ (consistent_named m i pools.old.here).reply }
    ensures moved { pools.new ≡ record pools.old { here = (consistent_named m i pools.old.here).part } }
{
    if !is_repairable(pools, m) {
        return refuse(pools, i, Errno::EINVAL);
    }
    if !pools.owns(i.caller, m) {
        return refuse(pools, i, Errno::EPERM);
    }
    pools.make_consistent(m);
    succeed(pools, i)
}

/// Whether the mutex is robust and inconsistent.
fn is_repairable(pools: &Pools, m: MutexNo) -> bool
    ensures { result ≡ is_repairable (mutex_at pools.now.here.locks m) }
{
    is_state_repairable(pools.mutex(m))
}

/// Whether a mutex of this state is there, robust and inconsistent.
fn is_state_repairable(state: Option<MutexState>) -> bool
    ensures { result ≡ is_repairable (option_map (mutex_with []) state) }
{
    match state {
        Some(state) => state.is_robust && is_inconsistent(state.soundness),
        None => false,
    }
}

/// Whether an owner ended, and the mutex was not made consistent since.
fn is_inconsistent(soundness: Soundness) -> bool
    ensures { result ≡ is_inconsistent soundness }
{
    match soundness {
        Soundness::Inconsistent => true,
        Soundness::Consistent | Soundness::Unrecoverable => false,
    }
}
