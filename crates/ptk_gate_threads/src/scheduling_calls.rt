//! Calls 16 and 18: the policy and the priority of a thread.

ghost use Rattle.std.specs.Prelude.{◌≡◌, true, false, Some, IsSome, IfOk};
ghost use Rattle.ptk_words_model.specs.State.{with_locks};
ghost use Rattle.ptk_words_model.specs.Schedule.{with_thread};
ghost use Rattle.ptk_words_model.specs.Priority.{thread_at};
ghost use Rattle.ptk_words_model.specs.Steps.{valid, change, change_thread, succeed};
ghost use Rattle.ptk_words_model.specs.ThreadCalls.{after_placing_at_tail, setschedparam, after_priority_change, setschedprio};
ghost use Rattle.ptk_threads.specs.Table.{with_priority};
ghost use Rattle.ptk_words_invariant.specs.Well.{IsWell};
ghost use Rattle.ptk_words.specs.Pools.{is_in};
ghost use Rattle.ptk_gate_moves.specs.Tables.{AreLocked};
ghost use Rattle.ptk_gate_moves.specs.Held.{limits_here};
ghost use Rattle.ptk_words_sync_invariant.specs.Conditions.{IsNoWaiter};
ghost use Rattle.ptk_gate_moves.specs.Moves.{with_scheduling};

use crate::attributes::named_policy;
use crate::places::{place_at_head, place_last, reschedule};
use ptk_gate_moves::{Pools, named_priority, refuse, succeed, target};
use ptk_words::{Errno, Policy, Priority, ThreadNo};
use ptk_words_model::{Invocation, Reply};

/// A thread in use, and the policy and the priority that it is to have.
#[derive(Clone, Copy)]
struct NewScheduling {
    thread: ThreadNo,
    policy: Policy,
    priority: Priority,
}

/// A thread in use, the priority that it has and the one that it is to have.
#[derive(Clone, Copy)]
struct NewPriority {
    thread: ThreadNo,
    old: Priority,
    new: Priority,
}

/// pthread_setschedparam: the thread of a0 has the policy of a1 and the priority of a2. If it runs or is ready, it
/// goes to the tail, but an owner of an INHERIT or PROTECT mutex keeps its place. ESRCH, ENOTSUP, EINVAL; a refusal
/// changes nothing but a0.
#[tactic(auto, using(ptk_gate_moves::proofs::Ready::ready, ptk_gate_moves::proofs::Locked::locked))]
pub fn setschedparam(pools: &mut Pools, i: Invocation) -> Reply
    requires well { IsWell (limits_here pools.old) pools.old.here }
    ensures told { result ≡ (setschedparam i pools.old.here).reply }
    ensures moved { pools.new ≡ record pools.old { here = (setschedparam i pools.old.here).part } }
{
    let asked = match asked_scheduling(pools, &i) {
        Ok(asked) => asked,
        Err(errno) => return refuse(pools, i, errno),
    };
    reschedule(pools, asked.thread, asked.policy, asked.priority);
    succeed(pools, i)
}

/// What call 16 gives a thread, or the error that refuses it: ESRCH of a number that is not in use, then ENOTSUP of an
/// unknown policy, then EINVAL of a word that is no priority.
#[tactic(auto, using(crate::proofs::Decoding::scheduled_is))]
fn asked_scheduling(pools: &Pools, i: &Invocation) -> Result<NewScheduling, Errno>
    ensures call { setschedparam i.now pools.now.here ≡ valid result (λ asked. change_thread asked.thread (with_scheduling asked.policy asked.priority) (change (after_placing_at_tail asked.thread) succeed)) i.now pools.now.here }
    ensures in_use { IfOk result (λ asked. IsSome (thread_at pools.now.here.locks asked.thread)) }
{
    let Some(target) = target(pools, i.a0) else {
        return Err(Errno::ESRCH);
    };
    let Some(policy) = named_policy(i.a1) else {
        return Err(Errno::ENOTSUP);
    };
    let Some(priority) = named_priority(i.a2) else {
        return Err(Errno::EINVAL);
    };
    Ok(NewScheduling {
        thread: target.number,
        policy,
        priority,
    })
}

/// pthread_setschedprio: the thread of a0 has the priority of a1. If it runs or is ready, it goes to the tail where
/// its priority rose, to the head where it fell, but an owner of an INHERIT or PROTECT mutex never to the tail. ESRCH,
/// EINVAL; a refusal changes nothing but a0.
#[tactic(auto, using(ptk_gate_moves::proofs::Ready::ready, ptk_gate_moves::proofs::Locked::locked))]
pub fn setschedprio(pools: &mut Pools, i: Invocation) -> Reply
    requires well { IsWell (limits_here pools.old) pools.old.here }
    ensures told { result ≡ (setschedprio i pools.old.here).reply }
    ensures moved { pools.new ≡ record pools.old { here = (setschedprio i pools.old.here).part } }
{
    let asked = match asked_priority(pools, &i) {
        Ok(asked) => asked,
        Err(errno) => return refuse(pools, i, errno),
    };
    change_priority(pools, asked.thread, asked.old, asked.new);
    succeed(pools, i)
}

/// What call 18 gives a thread, or the error that refuses it: ESRCH of a number that is not in use, then EINVAL of a
/// word that is no priority.
#[tactic(auto, using(crate::proofs::Decoding::prioritized_is))]
fn asked_priority(pools: &Pools, i: &Invocation) -> Result<NewPriority, Errno>
    ensures call { setschedprio i.now pools.now.here ≡ valid result (λ asked. change_thread asked.thread (with_priority asked.new) (change (after_priority_change asked.old asked.new asked.thread) succeed)) i.now pools.now.here }
    ensures in_use { IfOk result (λ asked. IsSome (thread_at pools.now.here.locks asked.thread)) }
{
    let Some(target) = target(pools, i.a0) else {
        return Err(Errno::ESRCH);
    };
    let Some(new) = named_priority(i.a1) else {
        return Err(Errno::EINVAL);
    };
    Ok(NewPriority {
        thread: target.number,
        old: target.thread.priority,
        new,
    })
}

/// The thread, whose priority was the old one, has the new one, and its place follows.
#[tactic(auto, using(ptk_words::proofs::Pools::changed_own))]
fn change_priority(pools: &mut Pools, t: ThreadNo, old: Priority, new: Priority)
    requires in_use { IsSome (thread_at pools.old.here.locks t) }
    requires fresh { pools.old.here.running ≡ Some t → is_in t pools.old.here.line ≡ false }
    requires free { pools.old.here.running ≡ Some t → IsNoWaiter t pools.old.here.mutexes pools.old.here.conditions }
    requires lined_free { is_in t pools.old.here.line ≡ true → IsNoWaiter t pools.old.here.mutexes pools.old.here.conditions }
    requires locked { AreLocked pools.old.here.locks }
    ensures { pools.new ≡ record pools.old { here = after_priority_change old new t (with_locks (with_thread t (with_priority new)) pools.old.here) } }
{
    pools.give_priority(t, new);
    place_anew(pools, t, old, new);
}

/// The place of a thread whose priority was the old one and is the new one, if it runs or is ready: the tail where it
/// rose, unless it owns an INHERIT or PROTECT mutex, the head where it fell (pthread_setschedprio).
fn place_anew(pools: &mut Pools, t: ThreadNo, old: Priority, new: Priority)
    requires in_use { IsSome (thread_at pools.old.here.locks t) }
    requires fresh { pools.old.here.running ≡ Some t → is_in t pools.old.here.line ≡ false }
    requires free { pools.old.here.running ≡ Some t → IsNoWaiter t pools.old.here.mutexes pools.old.here.conditions }
    requires lined_free { is_in t pools.old.here.line ≡ true → IsNoWaiter t pools.old.here.mutexes pools.old.here.conditions }
    ensures { pools.new ≡ record pools.old { here = after_priority_change old new t pools.old.here } }
{
    if old.level() < new.level() {
        place_last(pools, t);
    } else if new.level() < old.level() {
        place_at_head(pools, t);
    }
}
