//! The start of an unwinding, and the routines that it calls (pthread_exit, XSH 2.9.5.3).

ghost use Rattle.std.specs.Prelude.{◌≡◌};
ghost use Rattle.ptk_words_model.specs.State.{with_locks};
ghost use Rattle.ptk_words_model.specs.Schedule.{with_thread};
ghost use Rattle.ptk_words_model.specs.Unwinding.{after_unwinding_start, after_routine_call, phase_of};
ghost use Rattle.ptk_gate_moves.specs.Moves.{unwinding};

use ptk_gate_pools::Pools;
use ptk_threads::ThreadField;
use ptk_words::{A0, Phase, RA, RETURN_GATE, Thread, ThreadNo};

/// Cancellation is disabled and deferred, the value is the result, and the next step is at the return gate
/// (pthread_exit, XSH 2.9.5.3).
pub fn start_unwinding(pools: &mut Pools, t: ThreadNo, value: u32)
    ensures { pools.new ≡ record pools.old { here = after_unwinding_start t value pools.old.here } }
{
    let phase = phase_of(pools.thread(t));
    pools.disable_cancellation(t);
    pools.begin_rounds(t, phase);
    unwind(pools, t, value);
}

/// The thread unwinds with this result, and its next step is at the return gate.
#[tactic(auto, using(ptk_gate_pools::proofs::Numbers::changed_none, ptk_gate_pools::proofs::Ranks::put_same, ptk_words::proofs::Pools::changed_twice))]
fn unwind(pools: &mut Pools, t: ThreadNo, value: u32)
    ensures { pools.new ≡ record pools.old { here = with_locks (with_thread t (unwinding value)) pools.old.here } }
{
    if let Some(mut cpu) = pools.cpu(t) {
        cpu.set_pc(RETURN_GATE);
        pools.update_if_used(t, &ThreadField::Registers(cpu));
        pools.update_if_used(t, &ThreadField::Result(value));
        pools.update_if_used(t, &ThreadField::Phase(Phase::Unwinding));
    }
}

/// The thread calls the routine: its next step is at the routine's address, with the argument in a0 and the return gate
/// in ra (own choice). A free number stays free.
#[tactic(auto, using(ptk_gate_pools::proofs::Numbers::changed_none, ptk_gate_pools::proofs::Ranks::put_same))]
pub fn call_routine(pools: &mut Pools, t: ThreadNo, routine: u32, argument: u32)
    ensures { pools.new ≡ record pools.old { here = after_routine_call t routine argument pools.old.here } }
{
    if let Some(mut cpu) = pools.cpu(t) {
        cpu.set_register(A0, argument);
        cpu.set_register(RA, RETURN_GATE);
        cpu.set_pc(routine);
        pools.update_if_used(t, &ThreadField::Registers(cpu));
    }
}

/// The phase of a thread; a free number's is that of one that has ended.
fn phase_of(thread: Option<Thread>) -> Phase
    ensures { result ≡ phase_of thread }
{
    match thread {
        Some(thread) => thread.phase,
        None => Phase::Ended,
    }
}
