//! Replies in the caller's registers.

ghost use Rattle.std.specs.Prelude.{◌≡◌, ◌<◌, [], ◌∷◌, length};
ghost use Rattle.ptk_words_model.specs.Calls.{replied, refusal, success};

use ptk_gate_pools::Pools;
use ptk_threads::Values;
use ptk_words::{Errno, ThreadNo};
use ptk_words_model::{Invocation, Reply};

/// Puts the values into the thread's a0, a1 and so on; a free number stays free.
pub fn reply(pools: &mut Pools, t: ThreadNo, values: &[u32])
    requires few { length values.now < 4 }
    ensures { pools.new ≡ record pools.old { here = replied t values.now pools.old.here } }
{
    pools.update_if_used(t, &Values { values });
}

/// Refuses the call: the error number in a0, and nothing else changes.
pub fn refuse(pools: &mut Pools, i: Invocation, errno: Errno) -> Reply
    ensures told { result ≡ (refusal errno i pools.old.here).reply }
    ensures moved { pools.new ≡ record pools.old { here = (refusal errno i pools.old.here).part } }
{
    let number = errno.number();
    reply(pools, i.caller, &[number]);
    Reply::Done(number)
}

/// The call succeeds: 0 in a0, and nothing else.
pub fn succeed(pools: &mut Pools, i: Invocation) -> Reply
    ensures told { result ≡ (success [] i pools.old.here).reply }
    ensures moved { pools.new ≡ record pools.old { here = (success [] i pools.old.here).part } }
{
    reply(pools, i.caller, &[0]);
    Reply::Done(0)
}

/// The call succeeds with a value in a1.
pub fn succeed_with(pools: &mut Pools, i: Invocation, value: u32) -> Reply
    ensures told { result ≡ (success (value ∷ []) i pools.old.here).reply }
    ensures moved { pools.new ≡ record pools.old { here = (success (value ∷ []) i pools.old.here).part } }
{
    reply(pools, i.caller, &[0, value]);
    Reply::Done(0)
}

/// The call succeeds with values in a1 and a2.
pub fn succeed_with_two(pools: &mut Pools, i: Invocation, first: u32, second: u32) -> Reply
    ensures told { result ≡ (success (first ∷ second ∷ []) i pools.old.here).reply }
    ensures moved { pools.new ≡ record pools.old { here = (success (first ∷ second ∷ []) i pools.old.here).part } }
{
    reply(pools, i.caller, &[0, first, second]);
    Reply::Done(0)
}
