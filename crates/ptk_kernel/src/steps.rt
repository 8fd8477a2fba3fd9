//! One step of the running thread.

ghost use Rattle.std.specs.Prelude.{◌≡◌, ℕ, ◌<◌, length, Some};
ghost use Rattle.ptk_words_model.specs.declared.Runner.{Runner};
ghost use Rattle.ptk_words_model.specs.Decision.{after_step, after_whole_step, runner_of, step_cost};
ghost use Rattle.ptk_words_model.specs.declared.StepKind.TheVariants.{InstructionStep};
ghost use Rattle.ptk_words_model.specs.Unwinding.{after_gate_step};
ghost use Rattle.ptk_gate.specs.Kept.{part_at, put_part, limits_at};
ghost use Rattle.ptk_gate.specs.NextSteps.{next_step_in};
ghost use Rattle.ptk_gate.specs.Answers.{call_answer};
ghost use Rattle.ptk_gate.specs.CallSteps.{past_ecall};
ghost use Rattle.ptk_kernel.specs.StepParts.{noted, stepped};

use ptk_gate::{NextStep, Tables, call};
use ptk_words::{Entry, PartId, Tick};
use ptk_words_model::StepKind;

/// The step with its entry in the trace and its ticks in the round-robin interval.
pub(crate) fn whole_step(tables: &mut Tables, p: PartId, tick: Tick, next: &NextStep, cost: u32)
    requires partition { p < length tables.old.limits }
    requires next { next_step_in (part_at p tables.old) ≡ Some next.now }
    requires cost { cost ≡ step_cost next.now.kind }
    ensures { (r : Runner) → runner_of (part_at p tables.old) ≡ Some r →
        tables.new ≡ put_part p (after_whole_step (limits_at p tables.old) tick r next.now.kind (part_at p tables.old)) tables.old }
{
    let _parts = tables.parts();
    make_step(tables, p, tick, next);
    tables.count_interval(p, cost, next.thread);
}

/// The step with its entry in the trace: the word before it, and the thread after it.
fn make_step(tables: &mut Tables, p: PartId, tick: Tick, next: &NextStep)
    requires partition { p < length tables.old.limits }
    requires next { next_step_in (part_at p tables.old) ≡ Some next.now }
    ensures { (r : Runner) → runner_of (part_at p tables.old) ≡ Some r →
        tables.new ≡ put_part p (stepped (limits_at p tables.old) tick r next.now.kind (part_at p tables.old)) tables.old }
{
    let _parts = tables.parts();
    carry_out(tables, p, tick, next);
    note(tables, p, tick, next);
}

/// The step's effect on the partition. A call goes by the registers where they lie.
fn carry_out(tables: &mut Tables, p: PartId, tick: Tick, next: &NextStep)
    requires partition { p < length tables.old.limits }
    requires next { next_step_in (part_at p tables.old) ≡ Some next.now }
    ensures { (r : Runner) → runner_of (part_at p tables.old) ≡ Some r →
        tables.new ≡ put_part p (after_step (limits_at p tables.old) tick r next.now.kind (part_at p tables.old)) tables.old }
{
    match next.kind {
        StepKind::UnwindingStart => tables.begin_unwinding(p, next.thread),
        StepKind::GateStep => step_at_gate(tables, p),
        StepKind::CallStep(_) => make_call(tables, p, tick, next),
        StepKind::InstructionStep => instruct(tables, p, *next),
    }
}

/// The step of an ECALL: the pc goes past it, and then the call that the registers state.
fn make_call(tables: &mut Tables, p: PartId, tick: Tick, next: &NextStep)
    requires partition { p < length tables.old.limits }
    requires running { (part_at p tables.old).running ≡ Some next.now.thread }
    ensures { tables.new ≡ put_part p (call_answer (limits_at p tables.old) tick (past_ecall next.now.thread next.now.pc (part_at p tables.old))).part tables.old }
{
    let _parts = tables.parts();
    tables.pass_ecall(p, next.thread, next.pc);
    let _told = call(tables, p, tick);
}

/// The step of the running thread at the return gate.
#[tactic(auto, using(ptk_words_invariant::proofs::Decisions::runner_runs))]
fn step_at_gate(tables: &mut Tables, p: PartId)
    requires partition { p < length tables.old.limits }
    ensures { (r : Runner) → runner_of (part_at p tables.old) ≡ Some r →
        tables.new ≡ put_part p (after_gate_step r.thread.phase r.number r.thread (part_at p tables.old)) tables.old }
{
    let runner = tables.runner(p);
    if let Some(runner) = runner {
        tables.step_at_gate(p, runner.number, runner.thread);
    }
}

/// The step of an instruction that is no ECALL.
fn instruct(tables: &mut Tables, p: PartId, next: NextStep)
    requires partition { p < length tables.old.limits }
    requires next { next_step_in (part_at p tables.old) ≡ Some next }
    requires instruction { next.kind ≡ InstructionStep }
    ensures { (r : Runner) → (tick : ℕ) → runner_of (part_at p tables.old) ≡ Some r →
        tables.new ≡ put_part p (after_step (limits_at p tables.old) tick r next.kind (part_at p tables.old)) tables.old }
{
    let cpu = tables.registers(p, next.thread);
    tables.instruct(p, next.thread, cpu);
}

/// The step is the last one, with what the thread is after it.
fn note(tables: &mut Tables, p: PartId, tick: Tick, next: &NextStep)
    requires partition { p < length tables.old.limits }
    ensures { tables.new ≡ put_part p (noted tick next.now (part_at p tables.old)) tables.old }
{
    let a0 = tables.a0_after(p, next.thread, next.a0);
    tables.note_last(
        p,
        Entry {
            tick,
            thread: next.thread,
            pc: next.pc,
            word: next.word,
            a0,
        },
    );
}
