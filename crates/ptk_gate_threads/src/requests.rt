//! Call 40: a request to end a thread.

ghost use Rattle.std.specs.Prelude.{◌≡◌};
ghost use Rattle.ptk_words_model.specs.Priority.{thread_at};
ghost use Rattle.ptk_words_model.specs.Mutex.{wait_of};
ghost use Rattle.ptk_words_model.specs.CancellationCalls as calls;
ghost use Rattle.ptk_words_invariant.specs.Well.{IsWell};
ghost use Rattle.ptk_gate_moves.specs.Held.{limits_here};
ghost use Rattle.ptk_gate_threads.specs.Requests.{after_request};

use crate::withdrawal::withdraw;
use ptk_gate_moves::{Pools, is_cancelled, refuse, succeed, target};
use ptk_words::{Errno, ThreadNo, Wait};
use ptk_words_model::{Invocation, Reply};

/// pthread_cancel: a request is pending for the thread of a0, which may be the caller. Where it acts on a thread that
/// is blocked at a cancellation point, that thread is taken out of its wait without a reply, and its next step begins
/// its unwinding; one that waits on a condition variable re-locks its mutex first (XSH 2.9.5.2). A wait for a mutex
/// goes on. Of a thread that has ended nothing changes, and the answer is 0 too. ESRCH of a number that is not in use;
/// the refusal changes nothing but a0.
#[tactic(auto, using(crate::proofs::Requested::requested))]
pub fn cancel(pools: &mut Pools, i: Invocation) -> Reply
    requires well { IsWell (limits_here pools.old) pools.old.here }
    ensures told { result ≡ (calls.cancel i pools.old.here).reply }
    ensures moved { pools.new ≡ record pools.old { here = (calls.cancel i pools.old.here).part } }
{
    let Some(target) = target(pools, i.a0) else {
        return refuse(pools, i, Errno::ESRCH);
    };
    if target.thread.phase.is_ended() {
        return succeed(pools, i);
    }
    request(pools, target.number, target.thread.wait);
    succeed(pools, i)
}

/// A request is pending for the thread, which is in this wait, if in any; where it acts, the thread is taken out of it
/// (XSH 2.9.5.2).
#[tactic(auto, unfolding(crate::specs::Requests::after_request))]
fn request(pools: &mut Pools, t: ThreadNo, wait: Option<Wait>)
    requires well { IsWell (limits_here pools.old) pools.old.here }
    requires waits { wait_of (thread_at pools.old.here.locks t) ≡ wait }
    ensures { pools.new ≡ record pools.old { here = after_request t wait pools.old.here } }
{
    pools.request_cancellation(t);
    if is_cancelled(pools, t) {
        withdraw(pools, t, wait);
    }
}
