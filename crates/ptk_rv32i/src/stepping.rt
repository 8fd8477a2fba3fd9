//! What each instruction does.

ghost use Rattle.std.specs.Prelude.{◌^◌, ◌≡◌, ◌+◌, ◌*◌, ◌%◌, ◌-◌, ℕ, List};
ghost use Rattle.ptk_words.specs.Words.{word_of, sign_extension};
ghost use Rattle.ptk_words.specs.Processor.{register, with_register as after_write};
ghost use Rattle.ptk_words_model.specs.Instructions.{with_next_pc, link_effect};
ghost use Rattle.ptk_rv32i.specs.Values.{immediate_value, shift_value, register_value};
ghost use Rattle.ptk_rv32i.specs.Effects.{at_pc, operands, seen, after, effect_of_instr};

use crate::memory::{load, store};
use crate::outcome::Outcome;
use crate::values::{
    extend_12, extend_13, extend_21, passes, shifted, with_immediate, with_register,
};
use ptk_rv32i_code::{
    BranchOffset, BranchTest, Immediate, ImmediateOp, Instr, JumpOffset, LoadKind, Register,
    RegisterOp, ShiftAmount, ShiftOp, StoreKind, UpperImmediate,
};
use ptk_words::{Cpu, FaultKind};

/// The sum of a register and an offset: the address of a load or store.
#[inline(always)]
fn address(cpu: &Cpu, rs1: Register, offset: Immediate) -> u32
    ensures { result ≡ word_of (register cpu.now rs1 + sign_extension 12 offset) }
{
    cpu.register(rs1.number())
        .wrapping_add(extend_12(offset.number()))
}

/// Goes on at the next word, as FENCE does.
#[inline(always)]
pub fn advance(pc: &mut u32) -> Outcome
    ensures pc { pc.new ≡ word_of (pc.old + 4) }
    ensures outcome { result ≡ Outcome.Done }
{
    *pc = pc.wrapping_add(4);
    Outcome::Done
}

/// Writes a register, and goes on at the next word.
#[inline(always)]
fn write(cpu: &mut Cpu, pc: &mut u32, rd: Register, value: u32) -> Outcome
    ensures cpu { at_pc pc.new cpu.new ≡ after_write (with_next_pc (at_pc pc.old cpu.old)) rd value }
    ensures outcome { result ≡ Outcome.Done }
{
    cpu.set_register(rd.number(), value);
    *pc = pc.wrapping_add(4);
    Outcome::Done
}

/// Goes on at the target, with the address of the next word in a register.
#[inline(always)]
fn link(cpu: &mut Cpu, pc: &mut u32, rd: Register, target: u32) -> Outcome
    ensures { (memory : List ℕ) → seen (at_pc pc.new cpu.new) memory result ≡ after (at_pc pc.old cpu.old) memory (link_effect (operands (at_pc pc.old cpu.old) memory 0 0 rd 0) target) }
{
    if target & 3 != 0 {
        return Outcome::Fault(FaultKind::Misaligned);
    }
    cpu.set_register(rd.number(), pc.wrapping_add(4));
    *pc = target;
    Outcome::Done
}

/// The target of a jump to a register, from the sum of the register and the offset.
#[inline(always)]
fn register_target(sum: u32) -> u32
    ensures { result ≡ sum - sum % 2 }
{
    sum - (sum & 1)
}

/// BEQ, BNE, BLT, BGE, BLTU, BGEU.
#[inline(always)]
pub fn branch(
    cpu: &Cpu,
    pc: &mut u32,
    test: BranchTest,
    rs1: Register,
    rs2: Register,
    offset: BranchOffset,
) -> Outcome
    ensures { (memory : List ℕ) → seen (at_pc pc.new cpu.now) memory result ≡ after (at_pc pc.old cpu.now) memory (effect_of_instr (at_pc pc.old cpu.now) memory (Instr.Branch test rs1 rs2 offset)) }
{
    if passes(test, cpu.register(rs1.number()), cpu.register(rs2.number())) {
        let target = pc.wrapping_add(extend_13(offset.number()));
        if target & 3 != 0 {
            return Outcome::Fault(FaultKind::Misaligned);
        }
        *pc = target;
    } else {
        *pc = pc.wrapping_add(4);
    }
    Outcome::Done
}

/// LUI.
#[inline(always)]
pub fn load_upper(cpu: &mut Cpu, pc: &mut u32, rd: Register, upper: UpperImmediate) -> Outcome
    ensures cpu { at_pc pc.new cpu.new ≡ after_write (with_next_pc (at_pc pc.old cpu.old)) rd (upper * 2 ^ 12) }
    ensures outcome { result ≡ Outcome.Done }
{
    write(cpu, pc, rd, upper.number() << 12)
}

/// AUIPC.
#[inline(always)]
pub fn add_upper(cpu: &mut Cpu, pc: &mut u32, rd: Register, upper: UpperImmediate) -> Outcome
    ensures cpu { at_pc pc.new cpu.new ≡ after_write (with_next_pc (at_pc pc.old cpu.old)) rd (word_of (pc.old + upper * 2 ^ 12)) }
    ensures outcome { result ≡ Outcome.Done }
{
    let value = pc.wrapping_add(upper.number() << 12);
    write(cpu, pc, rd, value)
}

/// JAL.
#[inline(always)]
pub fn jump(cpu: &mut Cpu, pc: &mut u32, rd: Register, offset: JumpOffset) -> Outcome
    ensures { (memory : List ℕ) → seen (at_pc pc.new cpu.new) memory result ≡ after (at_pc pc.old cpu.old) memory (effect_of_instr (at_pc pc.old cpu.old) memory (Instr.Jal rd offset)) }
{
    let target = pc.wrapping_add(extend_21(offset.number()));
    link(cpu, pc, rd, target)
}

/// JALR.
#[inline(always)]
pub fn jump_register(
    cpu: &mut Cpu,
    pc: &mut u32,
    rd: Register,
    rs1: Register,
    offset: Immediate,
) -> Outcome
    ensures { (memory : List ℕ) → seen (at_pc pc.new cpu.new) memory result ≡ after (at_pc pc.old cpu.old) memory (effect_of_instr (at_pc pc.old cpu.old) memory (Instr.Jalr rd rs1 offset)) }
{
    let target = register_target(address(cpu, rs1, offset));
    link(cpu, pc, rd, target)
}

/// LB, LH, LW, LBU, LHU.
#[inline(always)]
pub fn load_register(
    cpu: &mut Cpu,
    memory: &[u8],
    pc: &mut u32,
    kind: LoadKind,
    rd: Register,
    rs1: Register,
    offset: Immediate,
) -> Outcome
    ensures { seen (at_pc pc.new cpu.new) memory.now result ≡ after (at_pc pc.old cpu.old) memory.now (effect_of_instr (at_pc pc.old cpu.old) memory.now (Instr.Load kind rd rs1 offset)) }
{
    match load(memory, kind, address(cpu, rs1, offset)) {
        Ok(value) => write(cpu, pc, rd, value),
        Err(fault) => Outcome::Fault(fault),
    }
}

/// SB, SH, SW.
#[inline(always)]
pub fn store_register(
    cpu: &Cpu,
    memory: &mut [u8],
    pc: &mut u32,
    kind: StoreKind,
    rs1: Register,
    rs2: Register,
    offset: Immediate,
) -> Outcome
    ensures { seen (at_pc pc.new cpu.now) memory.new result ≡ after (at_pc pc.old cpu.now) memory.old (effect_of_instr (at_pc pc.old cpu.now) memory.old (Instr.Store kind rs1 rs2 offset)) }
{
    let value = cpu.register(rs2.number());
    match store(memory, kind, address(cpu, rs1, offset), value) {
        Ok(()) => advance(pc),
        Err(fault) => Outcome::Fault(fault),
    }
}

/// ADDI, SLTI, SLTIU, XORI, ORI, ANDI.
#[inline(always)]
pub fn compute_immediate(
    cpu: &mut Cpu,
    pc: &mut u32,
    op: ImmediateOp,
    rd: Register,
    rs1: Register,
    immediate: Immediate,
) -> Outcome
    ensures cpu { at_pc pc.new cpu.new ≡ after_write (with_next_pc (at_pc pc.old cpu.old)) rd (immediate_value op (register cpu.old rs1) (sign_extension 12 immediate)) }
    ensures outcome { result ≡ Outcome.Done }
{
    let value = with_immediate(
        op,
        cpu.register(rs1.number()),
        extend_12(immediate.number()),
    );
    write(cpu, pc, rd, value)
}

/// SLLI, SRLI, SRAI.
#[inline(always)]
pub fn shift(
    cpu: &mut Cpu,
    pc: &mut u32,
    op: ShiftOp,
    rd: Register,
    rs1: Register,
    amount: ShiftAmount,
) -> Outcome
    ensures cpu { at_pc pc.new cpu.new ≡ after_write (with_next_pc (at_pc pc.old cpu.old)) rd (shift_value op (register cpu.old rs1) amount) }
    ensures outcome { result ≡ Outcome.Done }
{
    let value = shifted(op, cpu.register(rs1.number()), amount.number());
    write(cpu, pc, rd, value)
}

/// ADD, SUB, SLL, SLT, SLTU, XOR, SRL, SRA, OR, AND.
#[inline(always)]
pub fn compute(
    cpu: &mut Cpu,
    pc: &mut u32,
    op: RegisterOp,
    rd: Register,
    rs1: Register,
    rs2: Register,
) -> Outcome
    ensures cpu { at_pc pc.new cpu.new ≡ after_write (with_next_pc (at_pc pc.old cpu.old)) rd (register_value op (register cpu.old rs1) (register cpu.old rs2)) }
    ensures outcome { result ≡ Outcome.Done }
{
    let value = with_register(op, cpu.register(rs1.number()), cpu.register(rs2.number()));
    write(cpu, pc, rd, value)
}

/// Carries out an instruction at this pc, which then is the next one's; the pc of the registers themselves is not read,
/// and nothing is said of it. A fault or a break leaves all three as they were, and a call the registers and the
/// memory.
#[inline(always)]
pub fn carry_out(cpu: &mut Cpu, memory: &mut [u8], pc: &mut u32, instr: Instr) -> Outcome
    ensures { seen (at_pc pc.new cpu.new) memory.new result ≡ after (at_pc pc.old cpu.old) memory.old (effect_of_instr (at_pc pc.old cpu.old) memory.old instr) }
{
    match instr {
        Instr::Lui { rd, upper } => load_upper(cpu, pc, rd, upper),
        Instr::Auipc { rd, upper } => add_upper(cpu, pc, rd, upper),
        Instr::Jal { rd, offset } => jump(cpu, pc, rd, offset),
        Instr::Jalr { rd, rs1, offset } => jump_register(cpu, pc, rd, rs1, offset),
        Instr::Branch {
            test,
            rs1,
            rs2,
            offset,
        } => branch(cpu, pc, test, rs1, rs2, offset),
        Instr::Load {
            kind,
            rd,
            rs1,
            offset,
        } => load_register(cpu, memory, pc, kind, rd, rs1, offset),
        Instr::Store {
            kind,
            rs1,
            rs2,
            offset,
        } => store_register(cpu, memory, pc, kind, rs1, rs2, offset),
        Instr::WithImmediate {
            op,
            rd,
            rs1,
            immediate,
        } => compute_immediate(cpu, pc, op, rd, rs1, immediate),
        Instr::Shift {
            op,
            rd,
            rs1,
            amount,
        } => shift(cpu, pc, op, rd, rs1, amount),
        Instr::WithRegister { op, rd, rs1, rs2 } => compute(cpu, pc, op, rd, rs1, rs2),
        Instr::Fence { .. } => advance(pc),
        Instr::Ecall => {
            *pc = pc.wrapping_add(4);
            Outcome::Call
        }
        Instr::Ebreak => Outcome::Break,
    }
}

/// Carries out an instruction at the pc of the registers.
#[inline(always)]
pub fn execute(cpu: &mut Cpu, memory: &mut [u8], instr: Instr) -> Outcome
    ensures { seen cpu.new memory.new result ≡ after cpu.old memory.old (effect_of_instr cpu.old memory.old instr) }
{
    let mut pc = cpu.pc();
    let outcome = carry_out(cpu, memory, &mut pc, instr);
    cpu.set_pc(pc);
    outcome
}
