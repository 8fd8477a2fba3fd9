//! Input that arrives: to a waiter, or into the ring (own choice).

ghost use Rattle.std.specs.Prelude.{◌≡◌, false, [], ◌∷◌, Some, IsSome, is_some};
ghost use Rattle.ptk_words_model.specs.State.{with_locks, with_console};
ghost use Rattle.ptk_words_model.specs.Console.{without_waiter};
ghost use Rattle.ptk_words_model.specs.Priority.{thread_at};
ghost use Rattle.ptk_words_model.specs.Schedule.{after_wake};
ghost use Rattle.ptk_words_model.specs.Decision.{first_waiter, after_arrivals};
ghost use Rattle.ptk_words_invariant.specs.Well.{IsWell};
ghost use Rattle.ptk_words.specs.Pools.{is_in};
ghost use Rattle.ptk_console.specs.ConsoleTable.{next_byte};
ghost use Rattle.ptk_gate_moves.specs.Held.{limits_here};
ghost use Rattle.ptk_words_sync_invariant.specs.Conditions.{IsNoWaiter};
ghost use Rattle.ptk_gate_threads.specs.Arrivals.{after_next_arrival};

use ptk_gate_moves::Pools;
use ptk_words::{ThreadNo, Tick};

/// The waiter is ready, with the byte in a1.
#[tactic(auto, using(ptk_gate_moves::proofs::NoWaiters::still_apart))]
fn hand_byte(pools: &mut Pools, t: ThreadNo, byte: u8)
    requires in_use { IsSome (thread_at pools.old.here.locks t) }
    requires fresh { is_in t pools.old.here.line ≡ false }
    requires free { IsNoWaiter t pools.old.here.mutexes pools.old.here.conditions }
    ensures { pools.new ≡ record pools.old { here = with_locks (after_wake t (0 ∷ byte ∷ [])) (with_console (without_waiter t) pools.old.here) } }
{
    pools.leave_waiters(t);
    pools.wake(t, &[0, byte as u32]);
}

/// Hands the next input byte, if it comes at the tick or before, to the first waiter; whether one came.
#[tactic(auto, using(crate::proofs::ArrivalLoop::arrivals))]
fn hand_next(pools: &mut Pools, t: ThreadNo, tick: Tick) -> bool
    requires waiter { first_waiter pools.old.here ≡ Some t }
    requires in_use { IsSome (thread_at pools.old.here.locks t) }
    requires fresh { is_in t pools.old.here.line ≡ false }
    requires free { IsNoWaiter t pools.old.here.mutexes pools.old.here.conditions }
    ensures told { result ≡ is_some (next_byte tick pools.old.here.console) }
    ensures moved { pools.new ≡ record pools.old { here = after_next_arrival (limits_here pools.old).ring tick pools.old.here } }
{
    let next = pools.next_arrival(tick);
    match next {
        Some(byte) => {
            hand_byte(pools, t, byte);
            true
        }
        None => false,
    }
}

/// Takes the next input byte, if it comes at the tick or before, and brings it to the first waiter, or into the ring,
/// or loses it; whether one came.
#[tactic(auto, using(crate::proofs::ArrivalLoop::arrivals))]
fn arrive_next(pools: &mut Pools, tick: Tick) -> bool
    requires well { IsWell (limits_here pools.old) pools.old.here }
    ensures told { result ≡ is_some (next_byte tick pools.old.here.console) }
    ensures moved { pools.new ≡ record pools.old { here = after_next_arrival (limits_here pools.old).ring tick pools.old.here } }
{
    let is_due = pools.is_input_due(tick);
    if !is_due {
        return false;
    }
    let waiter = pools.first_waiter();
    match waiter {
        Some(t) => hand_next(pools, t, tick),
        None => pools.keep_next(tick),
    }
}

/// All input that comes at the tick or before arrives, in its order.
pub fn arrive_due(pools: &mut Pools, tick: Tick)
    requires well { IsWell (limits_here pools.old) pools.old.here }
    ensures { pools.new ≡ record pools.old { here = after_arrivals (limits_here pools.old) tick pools.old.here } }
{
    'due: while arrive_next(pools, tick) {}
}
