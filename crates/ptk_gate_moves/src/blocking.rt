//! Threads that block, and partitions that halt.

ghost use Rattle.std.specs.Prelude.{◌≡◌};
ghost use Rattle.ptk_words_model.specs.State.{with_halt};
ghost use Rattle.ptk_words_model.specs.Calls.{blocked_in};

use ptk_gate_pools::Pools;
use ptk_words::{Status, ThreadNo, Wait};
use ptk_words_model::{Invocation, Reply};

/// The caller blocks in this wait, and no thread runs.
pub fn block(pools: &mut Pools, i: Invocation, wait: Wait) -> Reply
    ensures told { result ≡ (blocked_in wait i pools.old.here).reply }
    ensures moved { pools.new ≡ record pools.old { here = (blocked_in wait i pools.old.here).part } }
{
    pools.give_wait(i.caller, Some(wait));
    pools.stop();
    Reply::Blocked
}

/// A halted partition has no running thread.
pub fn halt(pools: &mut Pools, status: Status)
    ensures { pools.new ≡ record pools.old { here = with_halt status pools.old.here } }
{
    pools.give_status(status);
    pools.stop();
}
