//! A thread's place after a change of its scheduling.

ghost use Rattle.std.specs.Prelude.{◌≡◌, true, false, Some, IsSome};
ghost use Rattle.ptk_words_model.specs.State.{with_locks};
ghost use Rattle.ptk_words_model.specs.Schedule.{at_tail, at_head, with_thread};
ghost use Rattle.ptk_words_model.specs.Priority.{thread_at};
ghost use Rattle.ptk_words_model.specs.ThreadCalls.{after_placing, after_placing_at_tail, yield};
ghost use Rattle.ptk_words_invariant.specs.Well.{IsWell};
ghost use Rattle.ptk_words.specs.Pools.{is_in};
ghost use Rattle.ptk_gate_moves.specs.Tables.{AreLocked};
ghost use Rattle.ptk_gate_moves.specs.Held.{limits_here};
ghost use Rattle.ptk_words_sync_invariant.specs.Conditions.{IsNoWaiter};
ghost use Rattle.ptk_gate_moves.specs.Moves.{with_scheduling};

use ptk_gate_moves::{Pools, end_turn, push_tail, step_back};
use ptk_threads::ThreadField;
use ptk_words::{Policy, Priority, ThreadNo};
use ptk_words_model::{Invocation, Reply};

/// A running or ready thread goes to the tail; a running one no longer runs (pthread_setschedparam).
#[tactic(auto, using(ptk_gate_moves::proofs::Ready::ready))]
pub(crate) fn place_at_tail(pools: &mut Pools, t: ThreadNo)
    requires in_use { IsSome (thread_at pools.old.here.locks t) }
    requires fresh { pools.old.here.running ≡ Some t → is_in t pools.old.here.line ≡ false }
    requires free { pools.old.here.running ≡ Some t → IsNoWaiter t pools.old.here.mutexes pools.old.here.conditions }
    requires lined_free { is_in t pools.old.here.line ≡ true → IsNoWaiter t pools.old.here.mutexes pools.old.here.conditions }
    ensures { pools.new ≡ record pools.old { here = after_placing at_tail t pools.old.here } }
{
    if pools.is_running(t) {
        end_turn(pools, t);
    } else if pools.is_lined(t) {
        pools.take_from_line(t);
        push_tail(pools, t);
    }
}

/// A running or ready thread goes to the head; a running one no longer runs (pthread_setschedprio).
#[tactic(auto, using(ptk_gate_moves::proofs::Ready::ready))]
pub(crate) fn place_at_head(pools: &mut Pools, t: ThreadNo)
    requires in_use { IsSome (thread_at pools.old.here.locks t) }
    requires fresh { pools.old.here.running ≡ Some t → is_in t pools.old.here.line ≡ false }
    requires free { pools.old.here.running ≡ Some t → IsNoWaiter t pools.old.here.mutexes pools.old.here.conditions }
    requires lined_free { is_in t pools.old.here.line ≡ true → IsNoWaiter t pools.old.here.mutexes pools.old.here.conditions }
    ensures { pools.new ≡ record pools.old { here = after_placing at_head t pools.old.here } }
{
    if pools.is_running(t) {
        step_back(pools, t);
    } else if pools.is_lined(t) {
        pools.take_from_line(t);
        pools.push_head(t);
    }
}

/// sched_yield: the caller, which runs, goes to the tail.
#[tactic(auto, using(ptk_gate_moves::proofs::Ready::ready))]
pub fn yield_turn(pools: &mut Pools, i: Invocation) -> Reply
    requires well { IsWell (limits_here pools.old) pools.old.here }
    requires running { pools.old.here.running ≡ Some i.caller }
    ensures told { result ≡ (yield i pools.old.here).reply }
    ensures moved { pools.new ≡ record pools.old { here = (yield i pools.old.here).part } }
{
    pools.end_turn_with(i.caller, &[0]);
    Reply::Done(0)
}

/// A running or ready thread goes to the tail, and a running one no longer runs; an owner of an INHERIT or PROTECT
/// mutex keeps its place (pthread_mutexattr_getprotocol).
pub(crate) fn place_last(pools: &mut Pools, t: ThreadNo)
    requires in_use { IsSome (thread_at pools.old.here.locks t) }
    requires fresh { pools.old.here.running ≡ Some t → is_in t pools.old.here.line ≡ false }
    requires free { pools.old.here.running ≡ Some t → IsNoWaiter t pools.old.here.mutexes pools.old.here.conditions }
    requires lined_free { is_in t pools.old.here.line ≡ true → IsNoWaiter t pools.old.here.mutexes pools.old.here.conditions }
    ensures { pools.new ≡ record pools.old { here = after_placing_at_tail t pools.old.here } }
{
    if !pools.owns_raising(t) {
        place_at_tail(pools, t);
    }
}

/// The thread has this policy and priority. If it runs or is ready, it goes to the tail, but an owner of an INHERIT or
/// PROTECT mutex keeps its place (pthread_setschedparam).
#[tactic(auto, using(ptk_words::proofs::Pools::changed_own))]
pub(crate) fn reschedule(pools: &mut Pools, t: ThreadNo, policy: Policy, priority: Priority)
    requires in_use { IsSome (thread_at pools.old.here.locks t) }
    requires fresh { pools.old.here.running ≡ Some t → is_in t pools.old.here.line ≡ false }
    requires free { pools.old.here.running ≡ Some t → IsNoWaiter t pools.old.here.mutexes pools.old.here.conditions }
    requires lined_free { is_in t pools.old.here.line ≡ true → IsNoWaiter t pools.old.here.mutexes pools.old.here.conditions }
    requires locked { AreLocked pools.old.here.locks }
    ensures { pools.new ≡ record pools.old { here = after_placing_at_tail t (with_locks (with_thread t (with_scheduling policy priority)) pools.old.here) } }
{
    give_scheduling(pools, t, policy, priority);
    place_last(pools, t);
}

/// The thread has this policy and assigned priority, and has used no tick.
#[tactic(auto, using(ptk_words::proofs::Pools::changed_twice))]
fn give_scheduling(pools: &mut Pools, t: ThreadNo, policy: Policy, priority: Priority)
    requires locked { AreLocked pools.old.here.locks }
    ensures { pools.new ≡ record pools.old { here = with_locks (with_thread t (with_scheduling policy priority)) pools.old.here } }
{
    pools.give_priority(t, priority);
    pools.update_if_used(t, &ThreadField::Policy(policy));
    pools.update_if_used(t, &ThreadField::Used(0));
}
