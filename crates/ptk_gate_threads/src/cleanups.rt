//! Calls 44 and 45: the caller's cleanup handlers.

ghost use Rattle.std.specs.Prelude.{◌≡◌};
ghost use Rattle.ptk_words_model.specs.CancellationCalls.{cleanup_push, cleanup_pop};

use ptk_gate_moves::{Pools, refuse, succeed, succeed_with_two};
use ptk_words::{Cleanup, Errno};
use ptk_words_model::{Invocation, Reply};

/// pthread_cleanup_push: the routine of a0 with the argument of a1 is the caller's cleanup handler that is called first
/// when it unwinds. EAGAIN where the caller has 16 handlers (own choice); the refusal changes nothing but a0.
#[tactic(auto, using(crate::proofs::CleanupHandlers::pushed))]
pub fn cleanup_push(pools: &mut Pools, i: Invocation) -> Reply
    ensures told { result ≡ (cleanup_push i pools.old.here).reply }
    ensures moved { pools.new ≡ record pools.old { here = (cleanup_push i pools.old.here).part } }
{
    let cleanup = Cleanup {
        routine: i.a0,
        argument: i.a1,
    };
    if pools.push_cleanup(i.caller, cleanup) {
        succeed(pools, i)
    } else {
        refuse(pools, i, Errno::EAGAIN)
    }
}

/// pthread_cleanup_pop: the caller's handler pushed last is taken off, its routine in a1 and its argument in a2, for
/// guest code to call (own choice). EINVAL where the caller has none (own choice); the refusal changes nothing but a0.
#[tactic(auto, using(crate::proofs::CleanupHandlers::popped))]
pub fn cleanup_pop(pools: &mut Pools, i: Invocation) -> Reply
    ensures told { result ≡ (cleanup_pop i pools.old.here).reply }
    ensures moved { pools.new ≡ record pools.old { here = (cleanup_pop i pools.old.here).part } }
{
    match pools.pop_cleanup(i.caller) {
        Some(cleanup) => succeed_with_two(pools, i, cleanup.routine, cleanup.argument),
        None => refuse(pools, i, Errno::EINVAL),
    }
}
