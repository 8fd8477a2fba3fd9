//! Deadlines that have come.

ghost use Rattle.std.specs.Prelude.{◌≡◌, is_some};
ghost use Rattle.ptk_words_model.specs.Withdrawal.{deadlines_of, after_expiries};
ghost use Rattle.ptk_words_sync_invariant.specs.Expiries.{next_expiry};
ghost use Rattle.ptk_words_invariant.specs.Well.{IsWell};
ghost use Rattle.ptk_gate_moves.specs.Held.{limits_here};
ghost use Rattle.ptk_gate_moves.specs.Expired.{after_one_expiry};

use ptk_gate_moves::Pools;
use ptk_words::Tick;

/// Ends the wait of the thread whose deadline is first by (tick, thread number) of those that have come; whether there
/// was one.
fn expire_next(pools: &mut Pools, tick: Tick) -> bool
    requires well { IsWell (limits_here pools.old) pools.old.here }
    ensures told { result ≡ is_some (next_expiry tick (deadlines_of pools.old.here.locks)) }
    ensures moved { pools.new ≡ record pools.old { here = after_one_expiry (next_expiry tick (deadlines_of pools.old.here.locks)) pools.old.here } }
{
    pools.expire_next(tick)
}

/// Every deadline of the partition's threads that comes at the tick or before ends its wait, by tick and then thread
/// number: a sleep with 0 (clock_nanosleep), a timed lock with ETIMEDOUT (pthread_mutex_timedlock), and a wait on a
/// condition variable with the re-lock of its mutex, whose reply is then ETIMEDOUT (pthread_cond_timedwait). No other
/// partition's threads and deadlines change.
pub fn expire_due(pools: &mut Pools, tick: Tick)
    requires well { IsWell (limits_here pools.old) pools.old.here }
    ensures { pools.new ≡ record pools.old { here = after_expiries tick pools.old.here } }
{
    'due: while expire_next(pools, tick) {}
}
