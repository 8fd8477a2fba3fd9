//! Calls 32 and 33: waits on condition variables.

ghost use Rattle.std.specs.Prelude.{◌≡◌, ◌<◌, ◌≤◌, ◌+◌, ℕ, true, length, IsSome, Some, IfOk};
ghost use Rattle.ptk_words.specs.Pools.{pool_get};
ghost use Rattle.ptk_words_model.specs.Calls.{is_pointer};
ghost use Rattle.ptk_words_model.specs.Mutex.{mutex_at, owns};
ghost use Rattle.ptk_words_model.specs.Steps.{Row, condition_named, mutex_named, valid};
ghost use Rattle.ptk_words_model.specs.ConditionCalls.{cond_wait, cond_timedwait, late_wait_answer};
ghost use Rattle.ptk_words_invariant.specs.Well.{IsWell};
ghost use Rattle.ptk_gate_moves.specs.Held.{limits_here};
ghost use Rattle.ptk_words_invariant.specs.Rests.{block_on, wait_named, wait_until, wait_until_asked, timedwait_named};

use crate::condition_naming::condition_of_word;
use crate::locking::tell;
use crate::naming::mutex_of_word;
use ptk_gate_moves::{Pools, asked_deadline, cancel, is_pointer, is_used_cancelled, refuse};
use ptk_words::{ConditionNo, Errno, MutexNo, Tick};
use ptk_words_model::{Invocation, Reply};

/// What a wait is on, and the mutex to have again.
#[derive(Clone, Copy)]
struct Named {
    pub condition: ConditionNo,
    pub mutex: MutexNo,
}

/// pthread_cond_wait: the caller releases its mutex, which the word at the pointer of a1 names, once, and blocks as the
/// last waiter on the condition variable that the word at the pointer of a0 names, as one action; unblocked, it has the
/// mutex again before its reply of 0. EFAULT where a pointer is no multiple of 4 or its word lies outside memory; then
/// a cancellation point: a cancelled caller begins its unwinding; then EINVAL or ENOMEM of the words, EPERM of a mutex
/// that the caller does not own, EINVAL where another waiter named another mutex. A refusal changes nothing but a0 and
/// what static initialisers set up.
#[inline(never)]
pub fn cond_wait(pools: &mut Pools, i: &Invocation) -> Reply
    requires well { IsWell (limits_here pools.old) pools.old.here }
    requires running { pools.old.here.running ≡ Some i.now.caller }
    ensures told { result ≡ (cond_wait i.now pools.old.here).reply }
    ensures moved { pools.new ≡ record pools.old { here = (cond_wait i.now pools.old.here).part } }
{
    if !is_pointer(pools, i.a0, 4) {
        return refuse(pools, *i, Errno::EFAULT);
    }
    if !is_pointer(pools, i.a1, 4) {
        return refuse(pools, *i, Errno::EFAULT);
    }
    if is_used_cancelled(pools, i.caller) {
        return cancel(pools, *i);
    }
    match named_both(pools, i) {
        Ok(named) => wait_named(pools, *i, named),
        Err(errno) => refuse(pools, *i, errno),
    }
}

/// pthread_cond_timedwait: as `cond_wait`, until the deadline of the timespec at the pointer of a2, rounded up to a
/// tick: where that comes first, the reply is ETIMEDOUT, once the caller has the mutex again. A deadline that has come
/// releases the mutex all the same and locks it again. EFAULT of a2's 12 bytes too; EINVAL of nanoseconds that are none
/// from 0 to 999,999,999 comes after the other refusals, which are as for `cond_wait`.
#[inline(never)]
pub fn cond_timedwait(pools: &mut Pools, i: &Invocation) -> Reply
    requires well { IsWell (limits_here pools.old) pools.old.here }
    requires running { pools.old.here.running ≡ Some i.now.caller }
    ensures told { result ≡ (cond_timedwait i.now pools.old.here).reply }
    ensures moved { pools.new ≡ record pools.old { here = (cond_timedwait i.now pools.old.here).part } }
{
    if !is_pointer(pools, i.a0, 4) {
        return refuse(pools, *i, Errno::EFAULT);
    }
    if !is_pointer(pools, i.a1, 4) {
        return refuse(pools, *i, Errno::EFAULT);
    }
    if !is_pointer(pools, i.a2, 12) {
        return refuse(pools, *i, Errno::EFAULT);
    }
    if is_used_cancelled(pools, i.caller) {
        return cancel(pools, *i);
    }
    match named_both(pools, i) {
        Ok(named) => timedwait_named(pools, *i, named),
        Err(errno) => refuse(pools, *i, errno),
    }
}

/// The condition variable of a0's word, then the mutex of a1's; words of 0 set them up, and the condition variable
/// stays so where the mutex's word is refused. EINVAL and ENOMEM as for `condition_of_word` and `mutex_of_word`.
#[inline(always)]
fn named_both(pools: &mut Pools, i: &Invocation) -> Result<Named, Errno>
    requires well { IsWell (limits_here pools.old) pools.old.here }
    requires condition { is_pointer pools.old.here i.now.a0 4 ≡ true }
    requires mutex { is_pointer pools.old.here i.now.a1 4 ≡ true }
    ensures call { (rest : ℕ → ℕ → Row) → condition_named i.now.a0 (λ c. mutex_named i.now.a1 (λ m. rest c m)) i.now pools.old.here ≡ valid result (λ named. rest named.condition named.mutex) i.now pools.new.here }
    ensures well { IsWell (limits_here pools.old) pools.new.here }
    ensures running { pools.new.here.running ≡ pools.old.here.running }
    ensures memory { length pools.new.here.memory ≡ length pools.old.here.memory }
    ensures in_use { IfOk result (λ named. IsSome (pool_get pools.new.here.conditions named.condition)) }
    ensures moved { pools.new ≡ record pools.old { here = pools.new.here } }
{
    let condition = condition_of_word(pools, i.a0)?;
    let mutex = mutex_of_word(pools, i.a1)?;
    Ok(Named { condition, mutex })
}

/// The wait without a deadline on what is named, or EPERM, or EINVAL.
#[inline(always)]
fn wait_named(pools: &mut Pools, i: Invocation, named: Named) -> Reply
    requires well { IsWell (limits_here pools.old) pools.old.here }
    requires running { pools.old.here.running ≡ Some i.caller }
    requires in_use { IsSome (pool_get pools.old.here.conditions named.condition) }
    ensures told { result ≡ (wait_named named.condition named.mutex i pools.old.here).reply }
    ensures moved { pools.new ≡ record pools.old { here = (wait_named named.condition named.mutex i pools.old.here).part } }
{
    if !pools.owns(i.caller, named.mutex) {
        return refuse(pools, i, Errno::EPERM);
    }
    if pools.names_another(named.condition, named.mutex) {
        return refuse(pools, i, Errno::EINVAL);
    }
    block_on(pools, i, named, None)
}

/// The wait with the deadline of a2's timespec on what is named, or EPERM, or EINVAL.
fn timedwait_named(pools: &mut Pools, i: Invocation, named: Named) -> Reply
    requires well { IsWell (limits_here pools.old) pools.old.here }
    requires running { pools.old.here.running ≡ Some i.caller }
    requires in_use { IsSome (pool_get pools.old.here.conditions named.condition) }
    requires room { i.a2 + 12 ≤ length pools.old.here.memory }
    ensures told { result ≡ (timedwait_named named.condition named.mutex i pools.old.here).reply }
    ensures moved { pools.new ≡ record pools.old { here = (timedwait_named named.condition named.mutex i pools.old.here).part } }
{
    if !pools.owns(i.caller, named.mutex) {
        return refuse(pools, i, Errno::EPERM);
    }
    if pools.names_another(named.condition, named.mutex) {
        return refuse(pools, i, Errno::EINVAL);
    }
    wait_until_asked(pools, i, named)
}

/// The wait of the mutex's owner until the deadline of a2's timespec, or EINVAL of bad nanoseconds.
fn wait_until_asked(pools: &mut Pools, i: Invocation, named: Named) -> Reply
    requires well { IsWell (limits_here pools.old) pools.old.here }
    requires running { pools.old.here.running ≡ Some i.caller }
    requires in_use { IsSome (pool_get pools.old.here.conditions named.condition) }
    requires owned { owns i.caller (mutex_at pools.old.here.locks named.mutex) ≡ true }
    requires room { i.a2 + 12 ≤ length pools.old.here.memory }
    ensures told { result ≡ (wait_until_asked named.condition named.mutex i pools.old.here).reply }
    ensures moved { pools.new ≡ record pools.old { here = (wait_until_asked named.condition named.mutex i pools.old.here).part } }
{
    match asked_deadline(pools, i.a2) {
        Some(deadline) => wait_until(pools, i, named, deadline),
        None => refuse(pools, i, Errno::EINVAL),
    }
}

/// The wait of the mutex's owner until the tick; where it has come, the mutex is released and locked again.
fn wait_until(pools: &mut Pools, i: Invocation, named: Named, deadline: Tick) -> Reply
    requires well { IsWell (limits_here pools.old) pools.old.here }
    requires running { pools.old.here.running ≡ Some i.caller }
    requires in_use { IsSome (pool_get pools.old.here.conditions named.condition) }
    requires owned { owns i.caller (mutex_at pools.old.here.locks named.mutex) ≡ true }
    ensures told { result ≡ (wait_until deadline named.condition named.mutex i pools.old.here).reply }
    ensures moved { pools.new ≡ record pools.old { here = (wait_until deadline named.condition named.mutex i pools.old.here).part } }
{
    if deadline.ticks() <= i.tick.ticks() {
        wait_late(pools, i, named.mutex)
    } else {
        block_on(pools, i, named, Some(deadline))
    }
}

/// The mutex's owner releases it and blocks on the condition variable, and no thread runs.
#[inline(always)]
fn block_on(pools: &mut Pools, i: Invocation, named: Named, deadline: Option<Tick>) -> Reply
    requires well { IsWell (limits_here pools.old) pools.old.here }
    requires running { pools.old.here.running ≡ Some i.caller }
    requires in_use { IsSome (pool_get pools.old.here.conditions named.condition) }
    requires owned { owns i.caller (mutex_at pools.old.here.locks named.mutex) ≡ true }
    ensures told { result ≡ (block_on deadline named.condition named.mutex i pools.old.here).reply }
    ensures moved { pools.new ≡ record pools.old { here = (block_on deadline named.condition named.mutex i pools.old.here).part } }
{
    pools.wait_on(i.caller, named.condition, named.mutex, deadline);
    pools.stop();
    Reply::Blocked
}

/// The mutex's owner releases it and locks it again, or waits for it; the reply is ETIMEDOUT, or that of the lock where
/// it is no success.
#[inline(never)]
#[tactic(auto, using(crate::proofs::Waits::released))]
fn wait_late(pools: &mut Pools, i: Invocation, m: MutexNo) -> Reply
    requires well { IsWell (limits_here pools.old) pools.old.here }
    requires running { pools.old.here.running ≡ Some i.caller }
    requires owned { owns i.caller (mutex_at pools.old.here.locks m) ≡ true }
    ensures told { result ≡ (late_wait_answer m i pools.old.here).reply }
    ensures moved { pools.new ≡ record pools.old { here = (late_wait_answer m i pools.old.here).part } }
{
    pools.unlock(m);
    let reply = Some(Errno::ETIMEDOUT.number());
    let made = pools.lock_again(i.caller, m, reply);
    tell(pools, i, made.reply_after(reply))
}
