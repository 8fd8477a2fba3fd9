//! The calls of the running thread, by the call table.

ghost use Rattle.std.specs.Prelude.{◌≡◌, ◌<◌, true, length, Some, IsSome};
ghost use Rattle.ptk_words_model.specs.CallTable.{answer_of, answer_to};
ghost use Rattle.ptk_words_model.specs.Decision.{invocation};
ghost use Rattle.ptk_words.specs.Faults.{is_active};
ghost use Rattle.ptk_words_invariant.specs.Well.{IsWell};
ghost use Rattle.ptk_gate_pools.specs.Kept.{part_at, put_part, limits_at};
ghost use Rattle.ptk_gate_pools.specs.Held.{limits_here};
ghost use Rattle.ptk_gate.specs.Answers.{call_answer};

use crate::tables::Tables;
use ptk_gate_pools::Pools;
use ptk_gate_sync::{
    cond_broadcast, cond_destroy, cond_init, cond_signal, cond_timedwait, cond_wait,
    mutex_consistent, mutex_destroy, mutex_init, mutex_lock, mutex_timedlock, mutex_trylock,
    mutex_unlock,
};
use ptk_gate_threads::{
    cancel, cleanup_pop, cleanup_push, clock_gettime, clock_nanosleep, create, detach, exit, get,
    getschedparam, getspecific, join, key_create, key_delete, leave, own_number, put, refuse,
    setcancelstate, setcanceltype, setschedparam, setschedprio, setspecific, testcancel,
    yield_turn,
};
use ptk_words::{A0, A1, A2, A3, A4, A7, Call, Cpu, Errno, Limits, PartId, ThreadNo, Tick};
use ptk_words_model::{Invocation, Reply};

/// Carries out the call that the running thread's registers state: the number in a7, the arguments in a0 to a4, at the
/// tick at which the step begins. The reply is that of the call; ENOSYS of a number that is no call. The pc is
/// already past the ECALL and stays, save that an unwinding puts the return gate there. A refusal changes a0
/// alone, save that a mutex or a condition variable that a static initialiser set up stays. No other partition changes.
#[tactic(auto, using(ptk_gate_pools::proofs::Hands::lifting, crate::proofs::Called::whole_calls))]
pub fn call(tables: &mut Tables, p: PartId, tick: Tick) -> Reply
    requires partition { p < length tables.old.limits }
    requires active { is_active (part_at p tables.old).status ≡ true }
    requires running { IsSome (part_at p tables.old).running }
    ensures told { result ≡ (call_answer (limits_at p tables.old) tick (part_at p tables.old)).reply }
    ensures moved { tables.new ≡ put_part p (call_answer (limits_at p tables.old) tick (part_at p tables.old)).part tables.old }
{
    tables.pools.take(p);
    make_call(&mut tables.pools, tick)
}

/// Carries out the call of the running thread of the partition in hand.
fn make_call(pools: &mut Pools, tick: Tick) -> Reply
    requires well { IsWell (limits_here pools.old) pools.old.here }
    requires running { IsSome pools.old.here.running }
    ensures told { result ≡ (call_answer (limits_here pools.old) tick pools.old.here).reply }
    ensures moved { pools.new ≡ record pools.old { here = (call_answer (limits_here pools.old) tick pools.old.here).part } }
{
    match pools.running() {
        Some(caller) => answer(pools, tick, caller),
        None => unreachable!(),
    }
}

/// Carries out the call that the running thread's registers state; ENOSYS of a number that is no call.
fn answer(pools: &mut Pools, tick: Tick, caller: ThreadNo) -> Reply
    requires well { IsWell (limits_here pools.old) pools.old.here }
    requires running { pools.old.here.running ≡ Some caller }
    ensures told { result ≡ (call_answer (limits_here pools.old) tick pools.old.here).reply }
    ensures moved { pools.new ≡ record pools.old { here = (call_answer (limits_here pools.old) tick pools.old.here).part } }
{
    let thread = pools.used_thread(caller);
    let cpu = &thread.cpu;
    let i = invocation(pools.limits(), tick, caller, cpu);
    let known = Call::of_number(cpu.register(A7));
    reply_to(pools, known, &i)
}

/// Carries out this call of the running thread; ENOSYS of a number that is no call.
#[inline(always)]
pub(crate) fn reply_to(pools: &mut Pools, known: Option<Call>, i: &Invocation) -> Reply
    requires limits { i.now.limits ≡ limits_here pools.old }
    requires well { IsWell (limits_here pools.old) pools.old.here }
    requires running { pools.old.here.running ≡ Some i.now.caller }
    ensures told { result ≡ (answer_to known i.now pools.old.here).reply }
    ensures moved { pools.new ≡ record pools.old { here = (answer_to known i.now pools.old.here).part } }
{
    match known {
        Some(call) => carry_out(pools, call, i),
        None => refuse(pools, *i, Errno::ENOSYS),
    }
}

/// The arguments of a call, from the caller's registers.
pub(crate) fn invocation(limits: Limits, at: Tick, t: ThreadNo, cpu: &Cpu) -> Invocation
    ensures { result ≡ invocation limits at t cpu.now }
{
    Invocation {
        limits,
        tick: at,
        caller: t,
        a0: cpu.register(A0),
        a1: cpu.register(A1),
        a2: cpu.register(A2),
        a3: cpu.register(A3),
        a4: cpu.register(A4),
    }
}

/// Carries out the call of the running thread. Those that lock, unlock, wait and signal, which threads make most, are
/// made from here on the arguments where they are; all others by the whole table.
#[inline(always)]
#[tactic(auto, using(crate::proofs::Called::called))]
fn carry_out(pools: &mut Pools, call: Call, i: &Invocation) -> Reply
    requires limits { i.now.limits ≡ limits_here pools.old }
    requires well { IsWell (limits_here pools.old) pools.old.here }
    requires running { pools.old.here.running ≡ Some i.now.caller }
    ensures told { result ≡ (answer_of call i.now pools.old.here).reply }
    ensures moved { pools.new ≡ record pools.old { here = (answer_of call i.now pools.old.here).part } }
{
    match call {
        Call::MutexLock => mutex_lock(pools, i),
        Call::MutexTrylock => mutex_trylock(pools, i),
        Call::MutexTimedlock => mutex_timedlock(pools, i),
        Call::MutexUnlock => mutex_unlock(pools, i),
        Call::CondWait => cond_wait(pools, i),
        Call::CondTimedwait => cond_timedwait(pools, i),
        Call::CondSignal => cond_signal(pools, i),
        Call::CondBroadcast => cond_broadcast(pools, i),
        _ => carry_out_any(pools, call, i),
    }
}

/// Carries out any call of the running thread: the whole call table. Most of its arms copy the arguments, so it is not
/// compiled into its callers, whose frames need no room for that.
#[inline(never)]
#[tactic(auto, using(crate::proofs::Called::called))]
fn carry_out_any(pools: &mut Pools, call: Call, i: &Invocation) -> Reply
    requires limits { i.now.limits ≡ limits_here pools.old }
    requires well { IsWell (limits_here pools.old) pools.old.here }
    requires running { pools.old.here.running ≡ Some i.now.caller }
    ensures told { result ≡ (answer_of call i.now pools.old.here).reply }
    ensures moved { pools.new ≡ record pools.old { here = (answer_of call i.now pools.old.here).part } }
{
    match call {
        Call::Exit => exit(pools, *i),
        Call::ConsolePut => put(pools, *i),
        Call::ConsoleGet => get(pools, *i),
        Call::ClockGettime => clock_gettime(pools, *i),
        Call::ClockNanosleep => clock_nanosleep(pools, *i),
        Call::PthreadCreate => create(pools, *i),
        Call::PthreadExit => leave(pools, *i),
        Call::PthreadJoin => join(pools, *i),
        Call::PthreadDetach => detach(pools, *i),
        Call::PthreadSelf => own_number(pools, *i),
        Call::SchedYield => yield_turn(pools, *i),
        Call::PthreadSetschedparam => setschedparam(pools, *i),
        Call::PthreadGetschedparam => getschedparam(pools, *i),
        Call::PthreadSetschedprio => setschedprio(pools, *i),
        Call::MutexInit => mutex_init(pools, *i),
        Call::MutexDestroy => mutex_destroy(pools, *i),
        Call::MutexLock => mutex_lock(pools, i),
        Call::MutexTrylock => mutex_trylock(pools, i),
        Call::MutexTimedlock => mutex_timedlock(pools, i),
        Call::MutexUnlock => mutex_unlock(pools, i),
        Call::MutexConsistent => mutex_consistent(pools, *i),
        Call::CondInit => cond_init(pools, *i),
        Call::CondDestroy => cond_destroy(pools, *i),
        Call::CondWait => cond_wait(pools, i),
        Call::CondTimedwait => cond_timedwait(pools, i),
        Call::CondSignal => cond_signal(pools, i),
        Call::CondBroadcast => cond_broadcast(pools, i),
        Call::PthreadCancel => cancel(pools, *i),
        Call::PthreadSetcancelstate => setcancelstate(pools, *i),
        Call::PthreadSetcanceltype => setcanceltype(pools, *i),
        Call::PthreadTestcancel => testcancel(pools, *i),
        Call::CleanupPush => cleanup_push(pools, *i),
        Call::CleanupPop => cleanup_pop(pools, *i),
        Call::KeyCreate => key_create(pools, *i),
        Call::KeyDelete => key_delete(pools, *i),
        Call::PthreadSetspecific => setspecific(pools, *i),
        Call::PthreadGetspecific => getspecific(pools, *i),
    }
}
