//! Calls 13 and 17: a thread detached, and its scheduling returned.

ghost use Rattle.std.specs.Prelude.{◌≡◌};
ghost use Rattle.ptk_words_model.specs.ThreadCalls.{getschedparam};
ghost use Rattle.ptk_words_model.specs.ThreadCalls as calls;
ghost use Rattle.ptk_words_invariant.specs.Well.{IsWell};
ghost use Rattle.ptk_gate_moves.specs.Held.{limits_here};

use ptk_gate_moves::{Pools, named_thread, policy_number, refuse, succeed, succeed_with_two};
use ptk_words::{Errno, ThreadNo};
use ptk_words_model::{Invocation, Reply};

/// pthread_getschedparam: the policy of the thread of a0 in a1 and its assigned priority in a2. ESRCH of a number that
/// is not in use; a refusal changes nothing but a0.
pub fn getschedparam(pools: &mut Pools, i: Invocation) -> Reply
    ensures told { result ≡ (getschedparam i pools.old.here).reply }
    ensures moved { pools.new ≡ record pools.old { here = (getschedparam i pools.old.here).part } }
{
    match named_thread(pools, i.a0) {
        Some(target) => {
            let priority = target.priority;
            let policy = policy_number(target.policy);
            succeed_with_two(pools, i, policy, priority.level() as u32)
        }
        None => refuse(pools, i, Errno::ESRCH),
    }
}

/// pthread_detach: the number of an ended thread is free, another thread is detached. ESRCH of a number that is not in
/// use, EINVAL of a thread that is detached or has a joiner; a refusal changes nothing but a0.
#[tactic(auto, using(crate::proofs::Leaving::detached_is, crate::proofs::Absent::detached_out))]
pub fn detach(pools: &mut Pools, i: Invocation) -> Reply
    requires well { IsWell (limits_here pools.old) pools.old.here }
    ensures told { result ≡ (calls.detach i pools.old.here).reply }
    ensures moved { pools.new ≡ record pools.old { here = (calls.detach i pools.old.here).part } }
{
    let Some(target) = named_thread(pools, i.a0) else {
        return refuse(pools, i, Errno::ESRCH);
    };
    if target.is_taken() {
        return refuse(pools, i, Errno::EINVAL);
    }
    pools.detach(ThreadNo::new(i.a0 as u8));
    succeed(pools, i)
}
