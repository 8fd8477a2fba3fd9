//! The steps at the return gate: a return, and the moves of an unwinding.

ghost use Rattle.std.specs.Prelude.{◌≡◌, None, Some};
ghost use Rattle.ptk_words_model.specs.Keys.{next_destructor};
ghost use Rattle.ptk_words_model.specs.Unwinding.{after_return, after_gate_step, after_unwinding_move, after_destructor_or_end, cleanups_of};
ghost use Rattle.ptk_words_invariant.specs.Well.{IsWell};
ghost use Rattle.ptk_gate_moves.specs.Held.{limits_here};

use crate::ends::end;
use ptk_gate_moves::{Pools, call_routine, halt, start_unwinding};
use ptk_keys::DestructorCall;
use ptk_words::{A0, Phase, Status, Thread, ThreadNo};

/// A step of the running thread at the return gate: a normal thread's start routine has returned, an unwinding one goes
/// on with its unwinding, and one that has ended takes no step (pthread_exit, XSH 2.9.5.3).
pub fn step_at_gate(pools: &mut Pools, t: ThreadNo, thread: Thread)
    requires well { IsWell (limits_here pools.old) pools.old.here }
    requires runs { pools.old.here.running ≡ Some t }
    ensures { pools.new ≡ record pools.old { here = after_gate_step thread.phase t thread pools.old.here } }
{
    match thread.phase {
        Phase::Normal => return_from(pools, t, thread),
        Phase::Unwinding => unwind_further(pools, t),
        Phase::Ended => {}
    }
}

/// A return of the main thread exits the partition with a0, of any other begins its unwinding (pthread_create).
fn return_from(pools: &mut Pools, t: ThreadNo, thread: Thread)
    ensures { pools.new ≡ record pools.old { here = after_return t thread pools.old.here } }
{
    let value = thread.cpu.register(A0);
    if thread.is_main {
        halt(pools, Status::Exited((value % 256) as u8));
    } else {
        start_unwinding(pools, t, value);
    }
}

/// The next move of the running thread, which unwinds: the handler pushed last is taken off and called, else its next
/// destructor is called, else it ends (XSH 2.9.5.3).
#[tactic(auto, using(crate::proofs::Handlers::unwound))]
fn unwind_further(pools: &mut Pools, t: ThreadNo)
    requires well { IsWell (limits_here pools.old) pools.old.here }
    requires runs { pools.old.here.running ≡ Some t }
    ensures { pools.new ≡ record pools.old { here = after_unwinding_move t (cleanups_of pools.old.here t) pools.old.here } }
{
    match pools.next_unwind(t) {
        Some(cleanup) => call_routine(pools, t, cleanup.routine, cleanup.argument),
        None => call_destructor_or_end(pools, t),
    }
}

/// The next move of the running thread, which unwinds and has no handlers: its next destructor is called, else it ends
/// (pthread_key_create, pthread_exit).
fn call_destructor_or_end(pools: &mut Pools, t: ThreadNo)
    requires well { IsWell (limits_here pools.old) pools.old.here }
    requires runs { pools.old.here.running ≡ Some t }
    ensures { pools.new ≡ record pools.old { here = after_destructor_or_end t (next_destructor pools.old.here.keys t) pools.old.here } }
{
    match pools.next_destructor(t) {
        Some(call) => call_destructor(pools, t, call),
        None => end(pools, t),
    }
}

/// The destructor of the call's key is called with the value, which is 0 from then on, and the key is passed in its
/// round (pthread_key_create).
fn call_destructor(pools: &mut Pools, t: ThreadNo, call: DestructorCall)
    ensures { pools.new ≡ record pools.old { here = after_destructor_or_end t (Some call) pools.old.here } }
{
    let destructor = pools.destructor(call.key());
    pools.note_destructor_call(t, call);
    call_routine(pools, t, destructor, call.argument());
}
