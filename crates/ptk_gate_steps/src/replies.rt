//! What a thread's next step is, and quiet calls made on registers that are apart from their thread's slot.

ghost use Rattle.std.specs.Prelude.{◌≡◌, ◌+◌, ◌^◌, ◌<◌, ◌≤◌, true, None, Some, IfSome, IsSome};
ghost use Rattle.ptk_words.specs.Calls.{call_of, cost_of};
ghost use Rattle.ptk_words.specs.Processor.{register};
ghost use Rattle.ptk_words.specs.declared.TheConstants.{A0, A7};
ghost use Rattle.ptk_words.specs.declared.threads.Thread.{Thread};
ghost use Rattle.ptk_words_model.specs.Priority.{thread_at};
ghost use Rattle.ptk_words_model.specs.Schedule.{with_thread};
ghost use Rattle.ptk_words_model.specs.State.{with_locks};
ghost use Rattle.ptk_words_laws.specs.Quiet.{computed};
ghost use Rattle.ptk_gate_steps.specs.QuietCalls.{is_quiet_with};
ghost use Rattle.ptk_gate_steps.specs.NextSteps.{next_kind_of};
ghost use Rattle.ptk_gate_steps.specs.Replies.{IsMade};

use crate::kinds::call_cost;
use crate::quiet_calls::{is_quiet, put_reply};
use ptk_gate_moves::{Pools, ThreadField, word_fetched};
use ptk_words::{A0, A7, Call, Cpu, ECALL, Policy, ThreadNo, cost};

/// What a thread's next step is, as far as a stretch asks.
#[derive(Clone, Copy)]
pub(crate) enum Next {
    /// It is a quiet call.
    Quiet,
    /// It is another call.
    Call,
    /// It is no call.
    Other,
}

/// What the next step of a thread of the partition in hand is.
#[inline(always)]
#[tactic(auto, using(crate::proofs::QuietCalls::next_steps))]
pub(crate) fn next_is(pools: &Pools, t: ThreadNo) -> Next
    requires in_use { IsSome (thread_at pools.now.here.locks t) }
    ensures { (thread : Thread) → thread_at pools.now.here.locks t ≡ Some thread → result ≡ next_kind_of t thread pools.now.here }
{
    let registers = &pools.used_thread(t).cpu;
    if word_fetched(pools.memory(), registers.pc()) != ECALL {
        return Next::Other;
    }
    let known = Call::of_number(registers.register(A7));
    if is_quiet(pools, t, known, registers.register(A0)) {
        Next::Quiet
    } else {
        Next::Call
    }
}

/// The ticks of the longest step, which is a broadcast (own choice).
const LONGEST_STEP: u32 = 16;

/// Makes the call that these registers of the thread state, where it is quiet and takes at most `room` ticks. Its
/// ticks; None, and nothing changes, where it is not made.
#[inline(always)]
pub(crate) fn answer(pools: &mut Pools, t: ThreadNo, cpu: &mut Cpu, room: u32) -> Option<u32>
    ensures made { IfSome result (λ ticks. (ticks ≡ cost_of (register cpu.old A7)) × (ticks ≤ room) × (0 < ticks) × (ticks ≤ 16) × IsMade t cpu.old cpu.new pools.old pools.new) }
    ensures none { result ≡ None → (pools.new ≡ pools.old) × (cpu.new ≡ cpu.old) }
    ensures missed { result ≡ None → is_quiet_with (call_of (register cpu.old A7)) t (register cpu.old A0) pools.old.here ≡ true → room < cost_of (register cpu.old A7) }
{
    let number = cpu.register(A7);
    if room < LONGEST_STEP && room < cost(number) {
        return None;
    }
    let known = Call::of_number(number);
    if !put_reply(pools, t, known, cpu) {
        return None;
    }
    Some(call_cost(known))
}

/// The thread has the registers after steps of this number of ticks, which are counted under SCHED_RR (XSH 2.8.4).
#[tactic(auto, using(crate::proofs::RepliesMade::leavings))]
pub(crate) fn leave(pools: &mut Pools, t: ThreadNo, policy: Policy, used: u32, ticks: u32, cpu: Cpu)
    requires thread { (thread : Thread) × (thread_at pools.old.here.locks t ≡ Some thread) × (thread.policy ≡ policy) × (thread.used ≡ used) }
    requires room { used + ticks < 2 ^ 32 }
    ensures { pools.new ≡ record pools.old { here = with_locks (with_thread t (computed ticks cpu)) pools.old.here } }
{
    pools.update_if_used(t, &ThreadField::Registers(cpu));
    match policy {
        Policy::Fifo => {}
        Policy::RoundRobin => pools.update_if_used(t, &ThreadField::Used(used + ticks)),
    }
}
