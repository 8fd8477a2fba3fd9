//! One instruction of a processor.

ghost use Rattle.std.specs.Prelude.{◌≡◌};
ghost use Rattle.ptk_words_model.specs.Instructions.{effect_at};
ghost use Rattle.ptk_rv32i.specs.Effects.{seen, after};

use crate::outcome::Outcome;
use crate::stepping::execute;
use ptk_rv32i_code::decode;
use ptk_words::{Cpu, FaultKind, read_word};

/// Carries out the instruction at the pc on these registers and this memory, whose addresses count from 0: what the
/// instruction table says of the word there, and no more. Faults, each of which changes nothing: `Misaligned` where
/// the pc, a target, or the address of a load or store has the wrong alignment, `Fetch` where no word lies at the pc,
/// `Illegal` where the word is no instruction, `Load` and `Store` outside memory (RISC-V 1.6, 2.4 to 2.8).
#[tactic(auto, using(crate::proofs::Effects::same_effect))]
pub fn step(cpu: &mut Cpu, memory: &mut [u8]) -> Outcome
    ensures { seen cpu.new memory.new result ≡ after cpu.old memory.old (effect_at cpu.old memory.old) }
{
    let pc = cpu.pc();
    if pc % 4 != 0 {
        return Outcome::Fault(FaultKind::Misaligned);
    }
    let at = pc as usize;
    if memory.len() < at + 4 {
        return Outcome::Fault(FaultKind::Fetch);
    }
    match decode(read_word(memory, at)) {
        Some(instr) => execute(cpu, memory, instr),
        None => Outcome::Fault(FaultKind::Illegal),
    }
}
