//! Calls 41 to 43: the caller's cancelability state and type, and a cancellation point.

ghost use Rattle.std.specs.Prelude.{◌≡◌, ◌<◌, if◌then◌else◌};
ghost use Rattle.ptk_words_model.specs.CancellationCalls.{setcancelstate, setcanceltype, testcancel};

use ptk_gate_moves::{Pools, cancel, is_cancelled, refuse, succeed, succeed_with};
use ptk_words::Errno;
use ptk_words_model::{Invocation, Reply};

/// The number that a guest reads for a cancelability state: PTHREAD_CANCEL_ENABLE 0, PTHREAD_CANCEL_DISABLE 1 (own
/// choice).
fn state_number(is_enabled: bool) -> u32
    ensures { result ≡ (if is_enabled then 0 else 1) }
{
    if is_enabled { 0 } else { 1 }
}

/// The number that a guest reads for a cancelability type: PTHREAD_CANCEL_DEFERRED 0, PTHREAD_CANCEL_ASYNCHRONOUS 1
/// (own choice).
fn type_number(is_asynchronous: bool) -> u32
    ensures { result ≡ (if is_asynchronous then 1 else 0) }
{
    if is_asynchronous { 1 } else { 0 }
}

/// pthread_setcancelstate: the caller's cancelability state is that of a0, PTHREAD_CANCEL_ENABLE, 0, or
/// PTHREAD_CANCEL_DISABLE, 1, and the old one is returned in a1. A pending request stays pending. EINVAL of another
/// word; a refusal changes nothing but a0.
pub fn setcancelstate(pools: &mut Pools, i: Invocation) -> Reply
    ensures told { result ≡ (setcancelstate i pools.old.here).reply }
    ensures moved { pools.new ≡ record pools.old { here = (setcancelstate i pools.old.here).part } }
{
    if 1 < i.a0 {
        return refuse(pools, i, Errno::EINVAL);
    }
    let was_enabled = pools.is_cancel_enabled(i.caller);
    pools.set_cancel_state(i.caller, i.a0 == 0);
    succeed_with(pools, i, state_number(was_enabled))
}

/// pthread_setcanceltype: the caller's cancelability type is that of a0, PTHREAD_CANCEL_DEFERRED, 0, or
/// PTHREAD_CANCEL_ASYNCHRONOUS, 1, and the old one is returned in a1. EINVAL of another word; a refusal changes nothing
/// but a0.
pub fn setcanceltype(pools: &mut Pools, i: Invocation) -> Reply
    ensures told { result ≡ (setcanceltype i pools.old.here).reply }
    ensures moved { pools.new ≡ record pools.old { here = (setcanceltype i pools.old.here).part } }
{
    if 1 < i.a0 {
        return refuse(pools, i, Errno::EINVAL);
    }
    let was_asynchronous = pools.is_cancel_asynchronous(i.caller);
    pools.set_cancel_type(i.caller, i.a0 == 1);
    succeed_with(pools, i, type_number(was_asynchronous))
}

/// pthread_testcancel: a cancellation point and nothing else. A cancelled caller begins its unwinding; any other goes
/// on with 0. It is never refused.
pub fn testcancel(pools: &mut Pools, i: Invocation) -> Reply
    ensures told { result ≡ (testcancel i pools.old.here).reply }
    ensures moved { pools.new ≡ record pools.old { here = (testcancel i pools.old.here).part } }
{
    if is_cancelled(pools, i.caller) {
        cancel(pools, i)
    } else {
        succeed(pools, i)
    }
}
