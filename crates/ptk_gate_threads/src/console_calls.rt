//! Calls 1 and 2: the console.

ghost use Rattle.std.specs.Prelude.{◌≡◌};
ghost use Rattle.ptk_words_model.specs.ConsoleCalls.{console_put, console_get, take_input};
ghost use Rattle.ptk_console.specs.ConsoleTable.{IsNotWaiting};
ghost use Rattle.ptk_gate_moves.specs.Held.{limits_here};

use ptk_gate_moves::{Pools, block, cancel, is_cancelled, refuse, succeed, succeed_with};
use ptk_words::{Errno, Wait};
use ptk_words_model::{Invocation, Reply};

/// console_put: the low 8 bits of a0 at the end of the output (own choice). A cancellation point: a cancelled caller
/// begins its unwinding, and no byte is put. EAGAIN where the output is full; the refusal changes nothing but a0.
pub fn put(pools: &mut Pools, i: Invocation) -> Reply
    requires limits { i.limits ≡ limits_here pools.old }
    ensures told { result ≡ (console_put i pools.old.here).reply }
    ensures moved { pools.new ≡ record pools.old { here = (console_put i pools.old.here).part } }
{
    if is_cancelled(pools, i.caller) {
        cancel(pools, i)
    } else if pools.put_byte((i.a0 % 256) as u8) {
        succeed(pools, i)
    } else {
        refuse(pools, i, Errno::EAGAIN)
    }
}

/// console_get: the ring's first byte in a1, or the caller blocks as the last waiter (own choice). A cancellation
/// point: a cancelled caller begins its unwinding, and no byte is taken. It is never refused.
pub fn get(pools: &mut Pools, i: Invocation) -> Reply
    requires new { IsNotWaiting i.caller pools.old.here.console }
    ensures told { result ≡ (console_get i pools.old.here).reply }
    ensures moved { pools.new ≡ record pools.old { here = (console_get i pools.old.here).part } }
{
    if is_cancelled(pools, i.caller) {
        cancel(pools, i)
    } else {
        take_or_wait(pools, i)
    }
}

/// The ring's first byte in a1, or the caller blocks as the last waiter.
#[tactic(auto, using(crate::proofs::Rings::rings))]
fn take_or_wait(pools: &mut Pools, i: Invocation) -> Reply
    requires new { IsNotWaiting i.caller pools.old.here.console }
    ensures told { result ≡ (take_input pools.old.here.console.ring i pools.old.here).reply }
    ensures moved { pools.new ≡ record pools.old { here = (take_input pools.old.here.console.ring i pools.old.here).part } }
{
    let taken = pools.take_byte();
    match taken {
        Some(byte) => succeed_with(pools, i, byte as u32),
        None => {
            pools.add_waiter(i.caller);
            block(pools, i, Wait::InputWait)
        }
    }
}
