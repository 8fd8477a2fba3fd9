//! Call 10: a new thread.

ghost use Rattle.std.specs.Prelude.{◌≡◌, unwrap_or, Some, IfOk};
ghost use Rattle.ptk_words.specs.Pools.{least_free};
ghost use Rattle.ptk_words_model.specs.Steps.{valid, change, succeed_with};
ghost use Rattle.ptk_words_model.specs.ThreadCalls.{create};
ghost use Rattle.ptk_words_model.specs.ThreadCreation.{default_stack_top, start_cpu, created_thread, with_new_thread};
ghost use Rattle.ptk_words_model.specs.ThreadCreation as creation;
ghost use Rattle.ptk_words_invariant.specs.Well.{IsWell};
ghost use Rattle.ptk_gate_moves.specs.Held.{limits_here};

use crate::attributes::requested;
use ptk_gate_moves::{Pools, begin, refuse, succeed_with};
use ptk_words::{
    A0, Cpu, Errno, Limits, PartId, Phase, Policy, Priority, RA, RETURN_GATE, SP, Thread, ThreadNo,
};
use ptk_words_model::{Creation, Invocation, Reply, Scheduling};

/// A thread to be made, and its number.
#[derive(Clone, Copy)]
struct NewThread {
    number: ThreadNo,
    thread: Thread,
}

/// pthread_create: a thread with the attributes of a0, the start routine of a1 and its argument of a2, ready at the
/// tail; its number, the least free one, in a1. Refusals in this order (own choice), which change nothing but a0:
/// EFAULT where the attributes can't be read; EINVAL where their detach or inherit is neither 0 nor 1; of explicit
/// scheduling ENOTSUP where the policy is unknown and EINVAL where the priority is not 1 to 32; EINVAL where the stack
/// top is no multiple of 16 or lies past the memory; EAGAIN where no number is free.
pub fn create(pools: &mut Pools, i: Invocation) -> Reply
    requires limits { i.limits ≡ limits_here pools.old }
    requires well { IsWell (limits_here pools.old) pools.old.here }
    ensures told { result ≡ (create i pools.old.here).reply }
    ensures moved { pools.new ≡ record pools.old { here = (create i pools.old.here).part } }
{
    let new = match asked_thread(pools, &i) {
        Ok(new) => new,
        Err(errno) => return refuse(pools, i, errno),
    };
    begin(pools, new.number, new.thread);
    succeed_with(pools, i, new.number.number() as u32)
}

/// The thread that the call makes at the least free number, or the error that refuses the call.
fn asked_thread(pools: &Pools, i: &Invocation) -> Result<NewThread, Errno>
    ensures call { create i.now pools.now.here ≡ valid result (λ new. change (with_new_thread i.now.limits new.number new.thread) (succeed_with new.number)) i.now pools.now.here }
    ensures free { IfOk result (λ new. least_free pools.now.here.threads ≡ Some new.number) }
{
    let creation = match requested(pools, i.a0) {
        Ok(creation) => creation,
        Err(errno) => return Err(errno),
    };
    let Some(number) = pools.first_free_thread() else {
        return Err(Errno::EAGAIN);
    };
    let Some(creator) = pools.thread(i.caller) else {
        // never met at the gate: the caller runs, so it is in use
        return Err(Errno::ESRCH);
    };
    Ok(NewThread {
        number,
        thread: created_thread(i, &creation, &creator, number),
    })
}

/// The thread that the creator makes.
fn created_thread(i: &Invocation, creation: &Creation, creator: &Thread, t: ThreadNo) -> Thread
    ensures { result ≡ created_thread i.now creation.now creator.now t }
{
    let top = stack_top(&i.limits, creation.stack_top, t);
    let cpu = start_cpu(i.a1, i.a2, top);
    let is_detached = creation.is_detached;
    match creation.scheduling {
        Scheduling::Inherited => new_thread(cpu, creator.policy, creator.priority, is_detached),
        Scheduling::Explicit(policy, priority) => new_thread(cpu, policy, priority, is_detached),
    }
}

/// The end of the new thread's stack: the given one, or the number's own.
fn stack_top(limits: &Limits, given: Option<u32>, t: ThreadNo) -> u32
    ensures { result ≡ unwrap_or given (default_stack_top limits.now t) }
{
    match given {
        Some(top) => top,
        None => {
            let below = u64::from(t.number() - 1) * u64::from(limits.stack);
            u64::from(limits.memory).saturating_sub(below) as u32
        }
    }
}

/// The registers of a new thread.
fn start_cpu(routine: u32, argument: u32, top: u32) -> Cpu
    ensures { result ≡ start_cpu routine argument top }
{
    let mut cpu = Cpu::at(0);
    cpu.set_register(SP, top);
    cpu.set_register(A0, argument);
    cpu.set_register(RA, RETURN_GATE);
    cpu.set_pc(routine);
    cpu
}

/// A thread that has done nothing yet.
fn new_thread(cpu: Cpu, policy: Policy, priority: Priority, is_detached: bool) -> Thread
    ensures { result ≡ record (creation.new_thread cpu policy priority) { is_detached = is_detached } }
{
    Thread {
        cpu,
        policy,
        priority,
        used: 0,
        is_main: false,
        is_detached,
        joiner: None,
        result: 0,
        phase: Phase::Normal,
        wait: None,
    }
}
