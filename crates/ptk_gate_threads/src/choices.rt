//! The choice of the running thread (XSH 2.8.4).

ghost use Rattle.std.specs.Prelude.{◌≡◌, false, Some, None, IsSome};
ghost use Rattle.ptk_words_model.specs.Priority.{thread_at};
ghost use Rattle.ptk_words_model.specs.State.{with_locks};
ghost use Rattle.ptk_words_model.specs.Schedule.{at_head, first_ready, after_dispatch, after_choice_between, after_choice};
ghost use Rattle.ptk_words_invariant.specs.Well.{IsWell};
ghost use Rattle.ptk_words.specs.Pools.{is_in};
ghost use Rattle.ptk_gate_moves.specs.Held.{limits_here};
ghost use Rattle.ptk_words_sync_invariant.specs.Conditions.{IsNoWaiter};

use ptk_gate_moves::Pools;
use ptk_words::ThreadNo;

/// The thread leaves the line and runs.
fn dispatch(pools: &mut Pools, t: ThreadNo)
    ensures { pools.new ≡ record pools.old { here = after_dispatch t pools.old.here } }
{
    pools.take_from_line(t);
    pools.run(t);
}

/// The running thread goes to the head of the line, and the other one leaves the line and runs.
fn preempt(pools: &mut Pools, running: ThreadNo, t: ThreadNo)
    requires in_use { IsSome (thread_at pools.old.here.locks running) }
    requires fresh { is_in running pools.old.here.line ≡ false }
    requires free { IsNoWaiter running pools.old.here.mutexes pools.old.here.conditions }
    ensures { pools.new ≡ record pools.old { here = after_dispatch t (with_locks (at_head running) pools.old.here) } }
{
    pools.push_head(running);
    dispatch(pools, t);
}

/// The running thread stays but for a greater effective priority; it then stands first in the line, and the thread
/// of that priority runs.
#[tactic(auto, using(ptk_gate_moves::proofs::Ready::ready))]
fn choose_over(pools: &mut Pools, running: ThreadNo, t: ThreadNo)
    requires in_use { IsSome (thread_at pools.old.here.locks running) }
    requires next_in_use { IsSome (thread_at pools.old.here.locks t) }
    requires fresh { is_in running pools.old.here.line ≡ false }
    requires free { IsNoWaiter running pools.old.here.mutexes pools.old.here.conditions }
    ensures { pools.new ≡ record pools.old { here = after_choice_between (Some running) (Some t) pools.old.here } }
{
    if pools.effective_priority(running) < pools.effective_priority(t) {
        preempt(pools, running, t);
    }
}

/// The first thread of the line's greatest effective priority leaves the line and runs; nothing changes where the line
/// is empty.
#[tactic(auto, using(ptk_gate_moves::proofs::Ready::ready))]
fn run_first(pools: &mut Pools)
    requires well { IsWell (limits_here pools.old) pools.old.here }
    ensures { pools.new ≡ record pools.old { here = after_choice_between None (first_ready pools.old.here.locks) pools.old.here } }
{
    if let Some(t) = pools.take_first() {
        pools.run(t);
    }
}

/// The running thread is chosen: the first of the line's greatest effective priority, unless one runs whose
/// effective priority is as great.
#[tactic(auto, using(ptk_gate_moves::proofs::Ready::ready, crate::proofs::Chosen::chosen_in_use))]
pub fn choose(pools: &mut Pools)
    requires well { IsWell (limits_here pools.old) pools.old.here }
    ensures { pools.new ≡ record pools.old { here = after_choice pools.old.here } }
{
    match pools.running() {
        Some(running) => {
            let next = pools.first_ready();
            if let Some(t) = next {
                choose_over(pools, running, t);
            }
        }
        None => run_first(pools),
    }
}
