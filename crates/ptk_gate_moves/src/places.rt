//! Places of the running thread (XSH 2.8.4).

ghost use Rattle.std.specs.Prelude.{◌≡◌, ◌<◌, false, length, IsSome};
ghost use Rattle.ptk_words_model.specs.State.{with_locks};
ghost use Rattle.ptk_words_model.specs.Priority.{thread_at};
ghost use Rattle.ptk_words_model.specs.Schedule.{at_tail, at_head, after_turn_end};
ghost use Rattle.ptk_words.specs.Pools.{is_in};
ghost use Rattle.ptk_gate_pools.specs.Moves.{stopped};
ghost use Rattle.ptk_words_sync_invariant.specs.Conditions.{IsNoWaiter};

use ptk_gate_pools::Pools;
use ptk_threads::ThreadField;
use ptk_words::ThreadNo;

/// Puts a thread that is in use, not in the line and no waiter at its tail, with no ticks used.
pub fn push_tail(pools: &mut Pools, t: ThreadNo)
    requires in_use { IsSome (thread_at pools.old.here.locks t) }
    requires fresh { is_in t pools.old.here.line ≡ false }
    requires free { IsNoWaiter t pools.old.here.mutexes pools.old.here.conditions }
    ensures { pools.new ≡ record pools.old { here = with_locks (at_tail t) pools.old.here } }
{
    pools.append(t);
    pools.update(t, &ThreadField::Used(0));
}

/// The running thread goes to the tail, and no thread runs.
pub fn end_turn(pools: &mut Pools, t: ThreadNo)
    requires in_use { IsSome (thread_at pools.old.here.locks t) }
    requires fresh { is_in t pools.old.here.line ≡ false }
    requires free { IsNoWaiter t pools.old.here.mutexes pools.old.here.conditions }
    ensures { pools.new ≡ record pools.old { here = after_turn_end t pools.old.here } }
{
    push_tail(pools, t);
    pools.stop();
}

/// The running thread goes to the head, and no thread runs.
pub fn step_back(pools: &mut Pools, t: ThreadNo)
    requires in_use { IsSome (thread_at pools.old.here.locks t) }
    requires fresh { is_in t pools.old.here.line ≡ false }
    requires free { IsNoWaiter t pools.old.here.mutexes pools.old.here.conditions }
    ensures { pools.new ≡ record pools.old { here = stopped (with_locks (at_head t) pools.old.here) } }
{
    pools.push_head(t);
    pools.stop();
}
