//! Calls 22 to 24: lock, trylock and a lock with a deadline.

ghost use Rattle.std.specs.Prelude.{◌≡◌, ◌<◌, ◌≤◌, ◌+◌, length, None, Some};
ghost use Rattle.ptk_words_model.specs.Calls.{told};
ghost use Rattle.ptk_words_model.specs.MutexCalls.{mutex_lock, mutex_trylock, mutex_timedlock};
ghost use Rattle.ptk_words_model.specs.declared.LockMove.TheVariants.{Waits};
ghost use Rattle.ptk_words_model.specs.Mutex.{mutex_at, lock_move, is_waiting};
ghost use Rattle.ptk_words_invariant.specs.Well.{IsWell};
ghost use Rattle.ptk_gate_moves.specs.Held.{limits_here};
ghost use Rattle.ptk_words_invariant.specs.Rests.{lock_by, trylock_named, timedlock_named, timed_wait_named};

use crate::naming::named_mutex;
use ptk_gate_moves::{Pools, asked_deadline, is_pointer, refuse, reply};
use ptk_words::{Errno, MutexNo, Tick};
use ptk_words_model::{Invocation, Reply};

/// pthread_mutex_lock: the caller owns the mutex that the word at the pointer of a0 names, or counts up its own
/// recursive one, or blocks as the last waiter. EOWNERDEAD where the caller now owns a robust mutex whose owner ended.
/// EFAULT, EINVAL or ENOMEM of the word, then EINVAL of a PROTECT mutex whose ceiling is below the caller's assigned
/// priority, ENOTRECOVERABLE of a mutex that was lost, EDEADLK of one's own that checks errors, EAGAIN of a recursive
/// one at its limit; a refusal changes nothing but a0 and what a static initialiser set up.
#[inline(never)]
pub fn mutex_lock(pools: &mut Pools, i: &Invocation) -> Reply
    requires well { IsWell (limits_here pools.old) pools.old.here }
    requires running { pools.old.here.running ≡ Some i.now.caller }
    ensures told { result ≡ (mutex_lock i.now pools.old.here).reply }
    ensures moved { pools.new ≡ record pools.old { here = (mutex_lock i.now pools.old.here).part } }
{
    match named_mutex(pools, i) {
        Ok(m) => lock_by(pools, *i, m),
        Err(errno) => refuse(pools, *i, errno),
    }
}

/// The caller's lock of the mutex named.
#[inline(always)]
#[tactic(auto, using(ptk_gate_moves::proofs::Locked::locked))]
fn lock_by(pools: &mut Pools, i: Invocation, m: MutexNo) -> Reply
    requires well { IsWell (limits_here pools.old) pools.old.here }
    requires running { pools.old.here.running ≡ Some i.caller }
    ensures told { result ≡ (lock_by None m i pools.old.here).reply }
    ensures moved { pools.new ≡ record pools.old { here = (lock_by None m i pools.old.here).part } }
{
    let made = pools.lock(i.caller, m, None);
    tell(pools, i, made.reply_after(Some(0)))
}

/// pthread_mutex_trylock: the caller owns the mutex that the word at the pointer of a0 names, if it is free, or counts
/// up its own recursive one. EOWNERDEAD where the caller now owns a robust mutex whose owner ended. EFAULT, EINVAL or
/// ENOMEM of the word, then EINVAL of a PROTECT mutex whose ceiling is below the caller's assigned priority,
/// ENOTRECOVERABLE, EAGAIN of one's own recursive mutex at its limit, EBUSY of any other that is locked; a refusal
/// changes nothing but a0 and what a static initialiser set up.
#[inline(never)]
pub fn mutex_trylock(pools: &mut Pools, i: &Invocation) -> Reply
    requires well { IsWell (limits_here pools.old) pools.old.here }
    requires running { pools.old.here.running ≡ Some i.now.caller }
    ensures told { result ≡ (mutex_trylock i.now pools.old.here).reply }
    ensures moved { pools.new ≡ record pools.old { here = (mutex_trylock i.now pools.old.here).part } }
{
    match named_mutex(pools, i) {
        Ok(m) => trylock_named(pools, *i, m),
        Err(errno) => refuse(pools, *i, errno),
    }
}

/// The caller's trylock of the mutex named.
#[tactic(auto, using(ptk_gate_moves::proofs::Locked::locked))]
fn trylock_named(pools: &mut Pools, i: Invocation, m: MutexNo) -> Reply
    requires well { IsWell (limits_here pools.old) pools.old.here }
    requires running { pools.old.here.running ≡ Some i.caller }
    ensures told { result ≡ (trylock_named m i pools.old.here).reply }
    ensures moved { pools.new ≡ record pools.old { here = (trylock_named m i pools.old.here).part } }
{
    let made = pools.trylock(i.caller, m);
    tell(pools, i, made.reply_after(Some(0)))
}

/// pthread_mutex_timedlock: as `mutex_lock`, but a wait has the deadline of the timespec at the pointer of a1, rounded
/// up to a tick: where that comes first, the reply is ETIMEDOUT. The time is looked at only where the lock would wait.
/// EFAULT where a1 is no multiple of 4 or its 12 bytes lie outside memory, then the refusals of `mutex_lock`, and where
/// it would wait EINVAL of nanoseconds that are none from 0 to 999,999,999, and ETIMEDOUT of a deadline that has come;
/// a refusal changes nothing but a0 and what a static initialiser set up.
#[inline(never)]
#[tactic(auto, using(ptk_gate_moves::proofs::Pointers::pointers))]
pub fn mutex_timedlock(pools: &mut Pools, i: &Invocation) -> Reply
    requires well { IsWell (limits_here pools.old) pools.old.here }
    requires running { pools.old.here.running ≡ Some i.now.caller }
    ensures told { result ≡ (mutex_timedlock i.now pools.old.here).reply }
    ensures moved { pools.new ≡ record pools.old { here = (mutex_timedlock i.now pools.old.here).part } }
{
    if !is_pointer(pools, i.a1, 12) {
        return refuse(pools, *i, Errno::EFAULT);
    }
    match named_mutex(pools, i) {
        Ok(m) => timedlock_named(pools, *i, m),
        Err(errno) => refuse(pools, *i, errno),
    }
}

/// The caller's lock of the mutex named, with the deadline of a1's timespec where it waits.
#[inline(always)]
fn timedlock_named(pools: &mut Pools, i: Invocation, m: MutexNo) -> Reply
    requires well { IsWell (limits_here pools.old) pools.old.here }
    requires running { pools.old.here.running ≡ Some i.caller }
    requires room { i.a1 + 12 ≤ length pools.old.here.memory }
    ensures told { result ≡ (timedlock_named m i pools.old.here).reply }
    ensures moved { pools.new ≡ record pools.old { here = (timedlock_named m i pools.old.here).part } }
{
    if pools.lock_move(i.caller, m).is_waiting() {
        wait_timed(pools, i, m)
    } else {
        lock_by(pools, i, m)
    }
}

/// The caller's lock that waits, with the deadline of a1's timespec: EINVAL, ETIMEDOUT, or the wait.
#[inline(always)]
#[tactic(auto, using(ptk_gate_moves::proofs::Locked::locked))]
fn wait_timed(pools: &mut Pools, i: Invocation, m: MutexNo) -> Reply
    requires well { IsWell (limits_here pools.old) pools.old.here }
    requires running { pools.old.here.running ≡ Some i.caller }
    requires room { i.a1 + 12 ≤ length pools.old.here.memory }
    requires waits { lock_move pools.old.here.locks i.caller (mutex_at pools.old.here.locks m) ≡ Waits }
    ensures told { result ≡ (timed_wait_named m i pools.old.here).reply }
    ensures moved { pools.new ≡ record pools.old { here = (timed_wait_named m i pools.old.here).part } }
{
    match asked_deadline(pools, i.a1) {
        None => refuse(pools, i, Errno::EINVAL),
        Some(deadline) => {
            if deadline.ticks() <= i.tick.ticks() {
                refuse(pools, i, Errno::ETIMEDOUT)
            } else {
                pools.wait_for(i.caller, m, Some(deadline));
                pools.stop();
                Reply::Blocked
            }
        }
    }
}

/// The word in a0; where there is none yet, the caller blocks, and no thread runs (XSH 2.3, 2.8.4).
pub(crate) fn tell(pools: &mut Pools, i: Invocation, word: Option<u32>) -> Reply
    ensures told { result ≡ (told word i pools.old.here).reply }
    ensures moved { pools.new ≡ record pools.old { here = (told word i pools.old.here).part } }
{
    match word {
        Some(word) => {
            reply(pools, i.caller, &[word]);
            Reply::Done(word)
        }
        None => {
            pools.stop();
            Reply::Blocked
        }
    }
}
