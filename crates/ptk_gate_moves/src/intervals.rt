//! Round-robin intervals (XSH 2.8.4, SCHED_RR).

ghost use Rattle.std.specs.Prelude.{◌≡◌, ◌<◌, false, length, Some};
ghost use Rattle.ptk_words_model.specs.Priority.{thread_at};
ghost use Rattle.ptk_words_model.specs.Schedule.{is_round_robin, after_interval};
ghost use Rattle.ptk_words.specs.Pools.{is_in};
ghost use Rattle.ptk_words_sync_invariant.specs.Conditions.{IsNoWaiter};

use crate::places::end_turn;
use ptk_gate_pools::Pools;
use ptk_threads::ThreadField;
use ptk_words::{Policy, ThreadNo};

/// A thread of SCHED_RR that still runs after a step of this many ticks has used them; at the interval it goes to the
/// tail, and no thread runs.
#[tactic(auto, using(ptk_gate_pools::proofs::Ranks::put_same, crate::proofs::Ready::ready))]
pub fn count_interval(pools: &mut Pools, interval: u32, cost: u32, t: ThreadNo)
    requires fresh { pools.old.here.running ≡ Some t → is_in t pools.old.here.line ≡ false }
    requires free { pools.old.here.running ≡ Some t → IsNoWaiter t pools.old.here.mutexes pools.old.here.conditions }
    ensures { pools.new ≡ record pools.old { here = after_interval interval cost t (thread_at pools.old.here.locks t) pools.old.here } }
{
    let found = pools.thread_ref(t);
    if let Some(thread) = found {
        if is_round_robin(thread.policy) && pools.is_running(t) {
            let used = thread.used as u64 + cost as u64;
            if interval as u64 <= used {
                end_turn(pools, t);
            } else {
                pools.update(t, &ThreadField::Used(used as u32));
            }
        }
    }
}

/// Whether the policy is SCHED_RR.
fn is_round_robin(policy: Policy) -> bool
    ensures { result ≡ is_round_robin policy }
{
    match policy {
        Policy::Fifo => false,
        Policy::RoundRobin => true,
    }
}
