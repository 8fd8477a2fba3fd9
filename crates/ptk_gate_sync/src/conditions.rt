//! Calls 30, 31, 34 and 35: condition variables made, destroyed and signalled.

ghost use Rattle.std.specs.Prelude.{◌≡◌, ◌<◌, ◌≤◌, ◌+◌, length};
ghost use Rattle.ptk_words_model.specs.ConditionCalls.{cond_init, cond_destroy, cond_signal, cond_broadcast};
ghost use Rattle.ptk_words_invariant.specs.Well.{IsWell};
ghost use Rattle.ptk_gate_moves.specs.Held.{limits_here};
ghost use Rattle.ptk_words_invariant.specs.Rests.{destroy_condition_named, signal_named, broadcast_named};

use crate::condition_naming::{make_condition, named_condition};
use ptk_gate_moves::{Pools, is_pointer, refuse, succeed};
use ptk_words::{ConditionNo, DESTROYED, Errno};
use ptk_words_model::{Invocation, Reply};

/// pthread_cond_init: a condition variable without waiters at the least free number, which the word at the pointer of
/// a0 then holds; the old word is not looked at. EFAULT where the pointer is no multiple of 4 or the word lies outside
/// memory, ENOMEM where no number is free (own choice); a refusal changes nothing but a0.
#[tactic(auto, using(ptk_gate_moves::proofs::Pointers::pointers))]
pub fn cond_init(pools: &mut Pools, i: Invocation) -> Reply
    ensures told { result ≡ (cond_init i pools.old.here).reply }
    ensures moved { pools.new ≡ record pools.old { here = (cond_init i pools.old.here).part } }
{
    if !is_pointer(pools, i.a0, 4) {
        return refuse(pools, i, Errno::EFAULT);
    }
    let Some(number) = pools.first_free_condition() else {
        return refuse(pools, i, Errno::ENOMEM);
    };
    make_condition(pools, i.a0, number);
    succeed(pools, i)
}

/// pthread_cond_destroy: the number of the condition variable that the word at the pointer of a0 names is free, and the
/// word is DESTROYED, which names none. EFAULT, EINVAL or ENOMEM of the word, then EBUSY where a thread waits on it; a
/// refusal changes nothing but a0 and what a static initialiser set up.
pub fn cond_destroy(pools: &mut Pools, i: Invocation) -> Reply
    requires well { IsWell (limits_here pools.old) pools.old.here }
    ensures told { result ≡ (cond_destroy i pools.old.here).reply }
    ensures moved { pools.new ≡ record pools.old { here = (cond_destroy i pools.old.here).part } }
{
    match named_condition(pools, &i) {
        Ok(c) => destroy_condition_named(pools, i, c),
        Err(errno) => refuse(pools, i, errno),
    }
}

/// The destruction of the condition variable named, or EBUSY where a thread waits on it.
#[tactic(auto, using(crate::proofs::Waits::unwaited))]
fn destroy_condition_named(pools: &mut Pools, i: Invocation, c: ConditionNo) -> Reply
    requires room { i.a0 + 4 ≤ length pools.old.here.memory }
    ensures told { result ≡ (destroy_condition_named c i pools.old.here).reply }
    ensures moved { pools.new ≡ record pools.old { here = (destroy_condition_named c i pools.old.here).part } }
{
    if pools.has_condition_waiters(c) {
        return refuse(pools, i, Errno::EBUSY);
    }
    pools.destroy_condition(c);
    pools.store_word(i.a0, DESTROYED);
    succeed(pools, i)
}

/// pthread_cond_signal: of the threads that wait on the condition variable that the word at the pointer of a0 names,
/// the one of greatest effective priority, the earliest among equals, is unblocked and re-locks its mutex; without
/// waiters nobody is. EFAULT, EINVAL or ENOMEM of the word; a refusal changes nothing but a0.
#[inline(never)]
pub fn cond_signal(pools: &mut Pools, i: &Invocation) -> Reply
    requires well { IsWell (limits_here pools.old) pools.old.here }
    ensures told { result ≡ (cond_signal i.now pools.old.here).reply }
    ensures moved { pools.new ≡ record pools.old { here = (cond_signal i.now pools.old.here).part } }
{
    match named_condition(pools, i) {
        Ok(c) => signal_named(pools, *i, c),
        Err(errno) => refuse(pools, *i, errno),
    }
}

/// One waiter of the condition variable named is unblocked.
fn signal_named(pools: &mut Pools, i: Invocation, c: ConditionNo) -> Reply
    requires well { IsWell (limits_here pools.old) pools.old.here }
    ensures told { result ≡ (signal_named c i pools.old.here).reply }
    ensures moved { pools.new ≡ record pools.old { here = (signal_named c i pools.old.here).part } }
{
    pools.signal(c);
    succeed(pools, i)
}

/// pthread_cond_broadcast: every thread that waits on the condition variable that the word at the pointer of a0 names
/// is unblocked and re-locks its mutex, in the order in which as many signals would unblock them. EFAULT, EINVAL or
/// ENOMEM of the word; a refusal changes nothing but a0.
#[inline(never)]
pub fn cond_broadcast(pools: &mut Pools, i: &Invocation) -> Reply
    requires well { IsWell (limits_here pools.old) pools.old.here }
    ensures told { result ≡ (cond_broadcast i.now pools.old.here).reply }
    ensures moved { pools.new ≡ record pools.old { here = (cond_broadcast i.now pools.old.here).part } }
{
    match named_condition(pools, i) {
        Ok(c) => broadcast_named(pools, *i, c),
        Err(errno) => refuse(pools, *i, errno),
    }
}

/// Every waiter of the condition variable named is unblocked.
fn broadcast_named(pools: &mut Pools, i: Invocation, c: ConditionNo) -> Reply
    requires well { IsWell (limits_here pools.old) pools.old.here }
    ensures told { result ≡ (broadcast_named c i pools.old.here).reply }
    ensures moved { pools.new ≡ record pools.old { here = (broadcast_named c i pools.old.here).part } }
{
    pools.broadcast(c);
    succeed(pools, i)
}
