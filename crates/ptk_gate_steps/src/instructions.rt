//! The step of an instruction.

ghost use Rattle.std.specs.Prelude.{◌≡◌};
ghost use Rattle.ptk_words_model.specs.Instructions.{effect_at};
ghost use Rattle.ptk_gate_steps.specs.Instructions.{after_instruction, settled};

use ptk_gate_moves::{Pools, ThreadField, halt};
use ptk_rv32i::Outcome;
use ptk_words::{Cause, Cpu, Status, ThreadNo};

/// A step of the thread, which has these registers: the instruction's effect on the registers and the memory, or the
/// partition stops at a break or a fault, which leaves both. The call of an ECALL is left to be carried out on the
/// state after it.
pub fn instruct(pools: &mut Pools, t: ThreadNo, cpu: Cpu)
    ensures { pools.new ≡ record pools.old { here = after_instruction t cpu.pc (effect_at cpu pools.old.here.memory) pools.old.here } }
{
    let pc = cpu.pc();
    let mut after = cpu;
    let outcome = pools.step_memory(&mut after);
    settle(pools, t, pc, outcome, after);
}

/// After a step with this effect: the thread has the registers, or the partition has stopped at the pc.
fn settle(pools: &mut Pools, t: ThreadNo, pc: u32, outcome: Outcome, cpu: Cpu)
    ensures { pools.new ≡ record pools.old { here = settled t pc outcome cpu pools.old.here } }
{
    match outcome {
        Outcome::Done | Outcome::Call => pools.update_if_used(t, &ThreadField::Registers(cpu)),
        Outcome::Break => halt(pools, Status::Stopped(Cause::Break, pc)),
        Outcome::Fault(kind) => halt(pools, Status::Stopped(Cause::Fault(kind), pc)),
    }
}
