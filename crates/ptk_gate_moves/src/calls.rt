//! Calls that are one move.

ghost use Rattle.std.specs.Prelude.{◌≡◌};
ghost use Rattle.ptk_words_model.specs.ConsoleCalls.{exit_call};
ghost use Rattle.ptk_words_model.specs.ThreadCalls.{pthread_exit};
ghost use Rattle.ptk_words_model.specs.ThreadCalls as threads;

use crate::blocking::halt;
use crate::replies::succeed_with;
use crate::unwinding::start_unwinding;
use ptk_gate_pools::Pools;
use ptk_words::Status;
use ptk_words_model::{Invocation, Reply};

/// exit: halts the partition with the low 8 bits of the code (own choice).
pub fn exit(pools: &mut Pools, i: Invocation) -> Reply
    ensures told { result ≡ (exit_call i pools.old.here).reply }
    ensures moved { pools.new ≡ record pools.old { here = (exit_call i pools.old.here).part } }
{
    halt(pools, Status::Exited((i.a0 % 256) as u8));
    Reply::Halted
}

/// pthread_exit: the value is the thread's result, and its unwinding begins.
pub fn leave(pools: &mut Pools, i: Invocation) -> Reply
    ensures told { result ≡ (pthread_exit i pools.old.here).reply }
    ensures moved { pools.new ≡ record pools.old { here = (pthread_exit i pools.old.here).part } }
{
    start_unwinding(pools, i.caller, i.a0);
    Reply::Unwinding
}

/// pthread_self: the caller's number in a1.
pub fn own_number(pools: &mut Pools, i: Invocation) -> Reply
    ensures told { result ≡ (threads.self i pools.old.here).reply }
    ensures moved { pools.new ≡ record pools.old { here = (threads.self i pools.old.here).part } }
{
    let number = i.caller.number();
    succeed_with(pools, i, number as u32)
}
