//! The beginning of a new thread (pthread_create).

ghost use Rattle.std.specs.Prelude.{◌≡◌, ◌<◌, length, Some};
ghost use Rattle.ptk_words.specs.Pools.{least_free};
ghost use Rattle.ptk_words_model.specs.ThreadCreation.{with_new_thread};
ghost use Rattle.ptk_words_invariant.specs.Well.{IsWell};
ghost use Rattle.ptk_gate_pools.specs.Held.{limits_here};

use ptk_gate_pools::Pools;
use ptk_words::{Thread, ThreadNo};

/// The thread begins at the least free number, at the tail of the line, with cancellation enabled and deferred, no
/// cleanup handler, 0 for every key and no destructor called (pthread_create).
#[tactic(auto, using(crate::proofs::Creations::creations))]
pub fn begin(pools: &mut Pools, t: ThreadNo, thread: Thread)
    requires well { IsWell (limits_here pools.old) pools.old.here }
    requires free { least_free pools.old.here.threads ≡ Some t }
    ensures { pools.new ≡ record pools.old { here = with_new_thread (limits_here pools.old) t thread pools.old.here } }
{
    pools.clear_keys(t);
    pools.clear_cancellation(t);
    pools.take_number(t, thread);
    pools.append(t);
}
