//! A cancelled thread is taken out of its wait (XSH 2.9.5.2).

ghost use Rattle.std.specs.Prelude.{◌≡◌, false, [], Some, IsSome};
ghost use Rattle.ptk_words.specs.Pools.{is_in};
ghost use Rattle.ptk_words_model.specs.State.{with_locks, with_console};
ghost use Rattle.ptk_words_model.specs.Priority.{thread_at};
ghost use Rattle.ptk_words_model.specs.Schedule.{after_wake};
ghost use Rattle.ptk_words_model.specs.Mutex.{wait_of};
ghost use Rattle.ptk_words_model.specs.Console.{without_waiter};
ghost use Rattle.ptk_words_model.specs.Withdrawal.{with_mark, without_joiner, after_cancelled_wait};
ghost use Rattle.ptk_words_invariant.specs.Well.{IsWell};
ghost use Rattle.ptk_gate_moves.specs.Held.{limits_here};
ghost use Rattle.ptk_words_sync_invariant.specs.Conditions.{IsNoWaiter};

use ptk_gate_moves::{Pools, ThreadField};
use ptk_words::{ThreadNo, Wait};

/// A thread blocked at a cancellation point is taken out of its wait with no reply, a condition waiter re-locks its
/// mutex first, and its next step begins its unwinding; any other wait goes on (XSH 2.9.5.2).
#[tactic(auto, using(crate::proofs::Withdrawals::waiting))]
pub(crate) fn withdraw(pools: &mut Pools, t: ThreadNo, wait: Option<Wait>)
    requires well { IsWell (limits_here pools.old) pools.old.here }
    requires waits { wait_of (thread_at pools.old.here.locks t) ≡ wait }
    ensures { pools.new ≡ record pools.old { here = after_cancelled_wait t wait pools.old.here } }
{
    match &wait {
        Some(Wait::InputWait) => stop_reading(pools, t),
        Some(Wait::SleepWait(_)) => wake_marked(pools, t),
        Some(Wait::JoinWait(u)) => stop_joining(pools, t, *u),
        Some(Wait::ConditionWait(c, _, _)) => {
            pools.withdraw_from_condition(t, *c);
            pools.mark(t);
        }
        Some(Wait::MutexWait(_, _)) | Some(Wait::RelockWait(_, _)) | None => {}
    }
}

/// The thread is ready, at the tail, with its registers as they are, and its next step begins its unwinding.
fn wake_marked(pools: &mut Pools, t: ThreadNo)
    requires in_use { IsSome (thread_at pools.old.here.locks t) }
    requires fresh { is_in t pools.old.here.line ≡ false }
    requires free { IsNoWaiter t pools.old.here.mutexes pools.old.here.conditions }
    ensures { pools.new ≡ record pools.old { here = with_mark t (with_locks (after_wake t []) pools.old.here) } }
{
    pools.wake(t, &[]);
    pools.mark(t);
}

/// The thread no longer waits for a byte of the console: a later one does not go to it.
#[tactic(auto, using(ptk_gate_moves::proofs::NoWaiters::still_apart))]
fn stop_reading(pools: &mut Pools, t: ThreadNo)
    requires in_use { IsSome (thread_at pools.old.here.locks t) }
    requires fresh { is_in t pools.old.here.line ≡ false }
    requires free { IsNoWaiter t pools.old.here.mutexes pools.old.here.conditions }
    ensures { pools.new ≡ record pools.old { here = with_mark t (with_locks (after_wake t []) (with_console (without_waiter t) pools.old.here)) } }
{
    pools.leave_waiters(t);
    wake_marked(pools, t);
}

/// The thread no longer waits for the end of thread u, which stays joinable (pthread_join).
#[tactic(auto, using(ptk_gate_moves::proofs::NoWaiters::still_apart, crate::proofs::Withdrawals::unjoined))]
fn stop_joining(pools: &mut Pools, t: ThreadNo, u: ThreadNo)
    requires in_use { IsSome (thread_at pools.old.here.locks t) }
    requires fresh { is_in t pools.old.here.line ≡ false }
    requires free { IsNoWaiter t pools.old.here.mutexes pools.old.here.conditions }
    ensures { pools.new ≡ record pools.old { here = with_mark t (with_locks (λ locks. after_wake t [] (without_joiner u locks)) pools.old.here) } }
{
    pools.update_if_used(u, &ThreadField::Joiner(None));
    wake_marked(pools, t);
}
