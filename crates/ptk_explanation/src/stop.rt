//! What stopped a partition at an instruction.

ghost use Rattle.std.specs.Prelude.{◌<◌, length};

use crate::memory::{WORD_BYTES, call_before};
use crate::thread::thread_of;
use ptk_disasm::{BRANCH_BITS, IMMEDIATE_BITS, JUMP_BITS, address_at, push_word_statement};
use ptk_rv32i_code::{Instr, decode};
use ptk_system::System;
use ptk_words::{Cause, Cpu, Entry, FaultKind, PartId, RA};
use std::alloc::{AllocError, Global};

/// What stopped a partition at an instruction.
#[derive(Drop)]
pub(crate) struct Stop {
    /// The cause.
    pub(crate) cause: Cause,
    /// The step: its tick, its thread, the pc and the word there.
    pub(crate) step: Entry,
    /// The registers of the thread, as the step left them.
    pub(crate) cpu: Cpu,
    /// The instruction, None if none was fetched.
    pub(crate) statement: Option<String>,
    /// The address for which it was not carried out.
    pub(crate) address: Option<u32>,
    /// The address of the call to which the thread's register ra returns, None if it holds no such address.
    pub(crate) call: Option<u32>,
}

impl Stop {
    /// What stopped a partition, for this cause. None if no step is kept. An error if memory runs out.
    pub(crate) fn of(
        alloc: Global,
        system: &System<'_>,
        p: PartId,
        cause: Cause,
    ) -> Result<Option<Stop>, AllocError>
        requires { p < length system.now.config.sections }
    {
        let Some(step) = system.last_step(p) else {
            return Ok(None);
        };
        let Some(thread) = thread_of(system, p, step.thread) else {
            return Ok(None);
        };
        let statement = statement_of(alloc, cause, &step)?;
        Ok(Some(Stop {
            cause,
            step,
            cpu: thread.cpu,
            statement,
            address: stop_address(cause, &thread.cpu, step.word),
            call: call_before(system, p, thread.cpu.register(RA)),
        }))
    }
}

/// The statement of the word at which a step stopped, None if it was not fetched. An error if memory runs out.
fn statement_of(alloc: Global, cause: Cause, step: &Entry) -> Result<Option<String>, AllocError> {
    if !is_fetched(cause, step.pc) {
        return Ok(None);
    }
    let mut statement = String::new(alloc);
    push_word_statement(&mut statement, step.word)?;
    Ok(Some(statement))
}

/// Whether a word was fetched at a pc, if this was the cause.
fn is_fetched(cause: Cause, pc: u32) -> bool {
    match cause {
        Cause::Fault(FaultKind::Fetch) => false,
        Cause::Break | Cause::Fault(_) => pc % WORD_BYTES == 0,
    }
}

/// The address for which the instruction was not carried out, None of a break.
fn stop_address(cause: Cause, cpu: &Cpu, word: u32) -> Option<u32> {
    match cause {
        Cause::Break => None,
        Cause::Fault(kind) => refused_address(kind, cpu, word),
    }
}

/// The address for which an instruction was not carried out: the pc if it was not fetched, the address of a load or a
/// store, the target of a jump; None of a word that is no instruction. `cpu` is the thread's, which a fault leaves as
/// it was, and `word` what stands at its pc.
fn refused_address(kind: FaultKind, cpu: &Cpu, word: u32) -> Option<u32> {
    match kind {
        FaultKind::Illegal => None,
        FaultKind::Fetch => Some(cpu.pc()),
        FaultKind::Load | FaultKind::Store => address_of(cpu, decode(word)?),
        FaultKind::Misaligned => {
            if cpu.pc() % WORD_BYTES == 0 {
                address_of(cpu, decode(word)?)
            } else {
                Some(cpu.pc())
            }
        }
    }
}

/// The address that an instruction goes to, loads from or stores to (RISC-V 2.5, 2.6); None of every other.
fn address_of(cpu: &Cpu, instruction: Instr) -> Option<u32> {
    match instruction {
        Instr::Load { rs1, offset, .. } | Instr::Store { rs1, offset, .. } => {
            let base = cpu.register(rs1.number());
            Some(address_at(base, IMMEDIATE_BITS, offset.number()))
        }
        Instr::Jalr { rs1, offset, .. } => {
            let base = cpu.register(rs1.number());
            let sum = address_at(base, IMMEDIATE_BITS, offset.number());
            Some(sum - sum % 2)
        }
        Instr::Jal { offset, .. } => Some(address_at(cpu.pc(), JUMP_BITS, offset.number())),
        Instr::Branch { offset, .. } => Some(address_at(cpu.pc(), BRANCH_BITS, offset.number())),
        Instr::Lui { .. }
        | Instr::Auipc { .. }
        | Instr::WithImmediate { .. }
        | Instr::Shift { .. }
        | Instr::WithRegister { .. }
        | Instr::Fence { .. }
        | Instr::Ecall
        | Instr::Ebreak => None,
    }
}
