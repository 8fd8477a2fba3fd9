//! What a decision reads of the running thread. Its next step is read where the thread lies: nothing of it is copied.

ghost use Rattle.std.specs.Prelude.{◌≡◌};
ghost use Rattle.ptk_words_model.specs.Decision.{runner_of, word_fetched};
ghost use Rattle.ptk_words_model.specs.Priority.{thread_at};
ghost use Rattle.ptk_gate_moves.specs.NextSteps.{a0_kept, cpu_of, next_step_in, next_step_of};

use crate::cancellation::is_to_unwind;
use ptk_gate_pools::Look;
use ptk_words::{A0, A7, Cpu, ECALL, RETURN_GATE, Thread, ThreadNo, read_word};
use ptk_words_model::{Runner, StepKind};

/// The next step of the running thread.
#[derive(Clone, Copy)]
pub struct NextStep {
    /// The thread.
    pub thread: ThreadNo,
    /// What its step is.
    pub kind: StepKind,
    /// Its pc before the step.
    pub pc: u32,
    /// The word that the trace keeps of the step; 0 of a step that fetches none.
    pub word: u32,
    /// Its a0 before the step.
    pub a0: u32,
}

/// The next step of the running thread; None where none runs.
pub fn next_step(look: &Look<'_>) -> Option<NextStep>
    ensures { result ≡ next_step_in look.now.part }
{
    let number = look.running()?;
    let thread = look.thread_ref(number)?;
    Some(step_of(look, number, thread))
}

/// The thread that runs, if one does.
pub fn runner(look: &Look<'_>) -> Option<Runner>
    ensures { result ≡ runner_of look.now.part }
{
    let number = look.running()?;
    let thread = look.thread(number)?;
    Some(Runner { number, thread })
}

/// The next step of a thread, by its pc and the word there.
fn step_of(look: &Look<'_>, t: ThreadNo, thread: &Thread) -> NextStep
    ensures { result ≡ next_step_of look.now.part (record { number = t; thread = thread.now }) }
{
    let cpu = &thread.cpu;
    let pc = cpu.pc();
    let a0 = cpu.register(A0);
    if is_to_unwind(look, t, thread) {
        return fetchless(t, StepKind::UnwindingStart, pc, a0);
    }
    if pc == RETURN_GATE {
        return fetchless(t, StepKind::GateStep, pc, a0);
    }
    let word = word_fetched(look.memory(), pc);
    let kind = if word == ECALL {
        StepKind::CallStep(cpu.register(A7))
    } else {
        StepKind::InstructionStep
    };
    NextStep {
        thread: t,
        kind,
        pc,
        word,
        a0,
    }
}

/// The word at the pc, 0 where none can be fetched.
pub fn word_fetched(memory: &[u8], pc: u32) -> u32
    ensures { result ≡ word_fetched memory.now pc }
{
    let at = pc as usize;
    if pc % 4 == 0 && at + 4 <= memory.len() {
        read_word(memory, at)
    } else {
        0
    }
}

/// A step that fetches no word.
fn fetchless(thread: ThreadNo, kind: StepKind, pc: u32, a0: u32) -> NextStep
    ensures { result ≡ record { thread = thread; kind = kind; pc = pc; word = 0; a0 = a0 } }
{
    NextStep {
        thread,
        kind,
        pc,
        word: 0,
        a0,
    }
}

/// The registers and pc of the thread of a number; 0 in all of them where the number is free.
pub fn registers(look: &Look<'_>, t: ThreadNo) -> Cpu
    ensures { result ≡ cpu_of (thread_at look.now.part.locks t) }
{
    match look.thread_ref(t) {
        Some(thread) => thread.cpu,
        None => Cpu::at(0),
    }
}

/// The thread's a0 now, after a step; what it was before where the thread ended.
pub fn a0_after(look: &Look<'_>, t: ThreadNo, before: u32) -> u32
    ensures { result ≡ a0_kept before (thread_at look.now.part.locks t) }
{
    match look.thread_ref(t) {
        Some(thread) if !thread.phase.is_ended() => {
            let cpu = &thread.cpu;
            cpu.register(A0)
        }
        _ => before,
    }
}
