//! Single instructions on registers and memory. The words are those of LLVM's assembler.

use ptk_rv32i::{Outcome, step, write_word};
use ptk_words::{Cpu, FaultKind, read_word};
use std::process::Abort;

/// The word at address 64, x1, x2, and what x3 and the pc are after it. The words are those of LLVM's assembler.
type Row = (u32, u32, u32, u32, u32);

/// Integer computation and FENCE (RISC-V 2.4, 2.7).
const COMPUTATION: [Row; 29] = [
    (0xffff_f1b7, 0, 0, 0xffff_f000, 68), // lui x3, 0xfffff
    (0x0000_11b7, 0, 0, 0x1000, 68), // lui x3, 1
    (0xffff_f197, 0, 0, 0xffff_f040, 68), // auipc x3, 0xfffff
    (0x8000_8193, 0, 0, 0xffff_f800, 68), // addi x3, x1, -2048
    (0x7ff0_8193, 0xffff_ffff, 0, 0x7fe, 68), // addi x3, x1, 2047
    (0xfff0_a193, 0xffff_fffe, 0, 1, 68), // slti x3, x1, -1
    (0xfff0_a193, 0, 0, 0, 68), // slti x3, x1, -1
    (0xfff0_b193, 0, 0, 1, 68), // sltiu x3, x1, -1
    (0x0010_b193, 0xffff_ffff, 0, 0, 68), // sltiu x3, x1, 1
    (0xfff0_c193, 0x1234_5678, 0, 0xedcb_a987, 68), // xori x3, x1, -1
    (0x0f00_e193, 0xf00, 0, 0xff0, 68), // ori x3, x1, 0x0f0
    (0xff00_f193, 0x1234_5678, 0, 0x1234_5670, 68), // andi x3, x1, -16
    (0x01f0_9193, 3, 0, 0x8000_0000, 68), // slli x3, x1, 31
    (0x01f0_d193, 0x8000_0000, 0, 1, 68), // srli x3, x1, 31
    (0x41f0_d193, 0x8000_0000, 0, 0xffff_ffff, 68), // srai x3, x1, 31
    (0x4040_d193, 0x7fff_ffff, 0, 0x07ff_ffff, 68), // srai x3, x1, 4
    (0x0020_81b3, 0xffff_ffff, 2, 1, 68), // add x3, x1, x2
    (0x4020_81b3, 1, 2, 0xffff_ffff, 68), // sub x3, x1, x2
    (0x0020_91b3, 1, 33, 2, 68), // sll x3, x1, x2
    (0x0020_a1b3, 0xffff_ffff, 0, 1, 68), // slt x3, x1, x2
    (0x0020_b1b3, 0xffff_ffff, 0, 0, 68), // sltu x3, x1, x2
    (0x0020_b1b3, 0, 0xffff_ffff, 1, 68), // sltu x3, x1, x2
    (0x0020_c1b3, 0xff00_ff00, 0x0ff0_0ff0, 0xf0f0_f0f0, 68), // xor x3, x1, x2
    (0x0020_d1b3, 0x8000_0000, 36, 0x0800_0000, 68), // srl x3, x1, x2
    (0x4020_d1b3, 0x8000_0000, 36, 0xf800_0000, 68), // sra x3, x1, x2
    (0x0020_e1b3, 0xf0, 15, 0xff, 68), // or x3, x1, x2
    (0x0020_f1b3, 0xff0, 0xff, 0xf0, 68), // and x3, x1, x2
    (0x0050_8013, 32, 0, 0, 68), // addi x0, x1, 5
    (0x0ff0_000f, 0, 0, 0, 68), // fence
];

/// Control transfer (RISC-V 2.5).
const TRANSFER: [Row; 18] = [
    (0xfc1f_f1ef, 0, 0, 68, 0), // jal x3, -64
    (0x8000_01ef, 0, 0, 68, 0xfff0_0040), // jal x3, -1048576
    (0x7fdf_f1ef, 0, 0, 68, 0x0010_003c), // jal x3, 1048572
    (0x0010_01ef, 0, 0, 68, 0x840), // jal x3, 2048
    (0xfff0_81e7, 0x102, 0, 68, 0x100), // jalr x3, -1(x1)
    (0x7ff0_81e7, 0x801, 0, 68, 0x1000), // jalr x3, 2047(x1)
    (0x8020_8063, 7, 7, 0, 0xffff_f040), // beq x1, x2, -4096
    (0x0020_8463, 7, 8, 0, 68), // beq x1, x2, 8
    (0x7e20_9ee3, 7, 8, 0, 0x103c), // bne x1, x2, 4092
    (0x0020_9463, 7, 7, 0, 68), // bne x1, x2, 8
    (0x0020_c463, 0xffff_ffff, 0, 0, 72), // blt x1, x2, 8
    (0x0020_c463, 0, 0xffff_ffff, 0, 68), // blt x1, x2, 8
    (0x0020_d463, 0, 0xffff_ffff, 0, 72), // bge x1, x2, 8
    (0x0020_d463, 0x8000_0000, 0x7fff_ffff, 0, 68), // bge x1, x2, 8
    (0x0020_e463, 0, 0xffff_ffff, 0, 72), // bltu x1, x2, 8
    (0x0020_e463, 0xffff_ffff, 0, 0, 68), // bltu x1, x2, 8
    (0xfc20_f0e3, 0xffff_ffff, 0, 0, 0), // bgeu x1, x2, -64
    (0x0020_f463, 0, 0xffff_ffff, 0, 68), // bgeu x1, x2, 8
];

/// Loads, where the bytes 80 ff 7f 01 stand at address 16 (RISC-V 2.6).
const LOADS: [Row; 7] = [
    (0x0000_8183, 16, 0, 0xffff_ff80, 68), // lb x3, 0(x1)
    (0x8000_8183, 0x811, 0, 0xffff_ffff, 68), // lb x3, -2048(x1)
    (0x0020_9183, 14, 0, 0xffff_ff80, 68), // lh x3, 2(x1)
    (0x0020_9183, 16, 0, 0x17f, 68), // lh x3, 2(x1)
    (0xffc0_a183, 20, 0, 0x017f_ff80, 68), // lw x3, -4(x1)
    (0x0010_c183, 16, 0, 0xff, 68), // lbu x3, 1(x1)
    (0x0000_d183, 16, 0, 0xff80, 68), // lhu x3, 0(x1)
];

/// The word at address 16 after a store of 0x12345678 in x2, from 0x017fff80: the word of the store, x1, what is
/// wanted.
const STORES: [(u32, u32, u32); 5] = [
    (0x0020_8023, 16, 0x017f_ff78), // sb x2, 0(x1)
    (0x8020_8023, 2065, 0x017f_7880), // sb x2, -2048(x1)
    (0x0020_9123, 16, 0x5678_ff80), // sh x2, 2(x1)
    (0x7e20_afa3, 0xffff_f811, 0x1234_5678), // sw x2, 2047(x1)
    (0xfe20_ae23, 20, 0x1234_5678), // sw x2, -4(x1)
];

/// The word, x1 and the fault, in a memory of 96 bytes.
const FAULTS: [(u32, u32, FaultKind); 14] = [
    (0x0000_0000, 0, FaultKind::Illegal),
    (0xffff_ffff, 0, FaultKind::Illegal),
    (0x7fff_f1ef, 0, FaultKind::Misaligned), // jal x3, 1048574
    (0x0020_81e7, 0, FaultKind::Misaligned), // jalr x3, 2(x1)
    (0x7e00_0fe3, 0, FaultKind::Misaligned), // beq x0, x0, 4094
    (0x0010_9183, 16, FaultKind::Misaligned), // lh x3, 1(x1)
    (0x0000_a183, 18, FaultKind::Misaligned), // lw x3, 0(x1)
    (0x0000_a183, 98, FaultKind::Misaligned),
    (0x0000_a183, 96, FaultKind::Load),
    (0x0000_c183, 96, FaultKind::Load), // lbu x3, 0(x1)
    (0xfff0_c183, 0, FaultKind::Load), // lbu x3, -1(x1)
    (0x0020_90a3, 96, FaultKind::Misaligned), // sh x2, 1(x1)
    (0x0020_8023, 96, FaultKind::Store), // sb x2, 0(x1)
    (0x0020_a023, 0xffff_fffc, FaultKind::Store), // sw x2, 0(x1)
];

/// The outcome of the word at address 64 of a memory of 96 bytes, with these values of x1 and x2; the registers after
/// it, and the word at address 16.
fn after(word: u32, first: u32, second: u32) -> (Outcome, Cpu, u32) {
    let mut memory = [0; 96];
    write_word(&mut memory, 16, 0x017f_ff80);
    write_word(&mut memory, 64, word);
    let mut cpu = Cpu::at(64);
    cpu.set_register(1, first);
    cpu.set_register(2, second);
    let outcome = step(&mut cpu, &mut memory);
    (outcome, cpu, read_word(&memory, 16))
}

fn check_rows(rt: &impl Abort, rows: &[Row]) {
    for (word, first, second, value, pc) in rows {
        let (outcome, cpu, _) = after(*word, *first, *second);
        let is_after = cpu.register(3) == *value && cpu.pc() == *pc;
        assert!(rt; outcome == Outcome::Done && is_after, "{word:#x}");
    }
}

#[test]
fn each_row_of_the_table(rt: HostRuntime) {
    check_rows(&rt, &COMPUTATION);
    check_rows(&rt, &TRANSFER);
    check_rows(&rt, &LOADS);
}

#[test]
fn each_store(rt: HostRuntime) {
    for (word, first, want) in STORES {
        let (outcome, cpu, stored) = after(word, first, 0x1234_5678);
        let is_stored = stored == want && cpu.pc() == 68;
        assert!(rt; outcome == Outcome::Done && is_stored, "{word:#x}");
    }
}

#[test]
fn each_fault(rt: HostRuntime) {
    for (word, first, kind) in FAULTS {
        let (outcome, cpu, _) = after(word, first, 0);
        assert!(rt;
            outcome == Outcome::Fault(kind) && cpu.pc() == 64,
            "{word:#x}"
        );
    }
}

#[test]
fn calls_breaks_and_a_link_over_its_base(rt: HostRuntime) {
    let (outcome, cpu, _) = after(0x0000_0073, 0, 0);
    assert!(rt; outcome == Outcome::Call && cpu.pc() == 68);
    let (outcome, cpu, _) = after(0x0010_0073, 0, 0);
    assert!(rt; outcome == Outcome::Break && cpu.pc() == 64);
    // jalr x1, 0(x1)
    let (_, cpu, _) = after(0x0000_80e7, 32, 0);
    assert!(rt; cpu.register(1) == 68 && cpu.pc() == 32);
}

#[test]
fn a_pc_without_a_word(rt: HostRuntime) {
    let mut memory = [0; 96];
    for (pc, kind) in [
        (2, FaultKind::Misaligned),
        (98, FaultKind::Misaligned),
        (96, FaultKind::Fetch),
        (0xffff_fffc, FaultKind::Fetch),
    ] {
        let mut cpu = Cpu::at(pc);
        let outcome = step(&mut cpu, &mut memory);
        assert!(rt; outcome == Outcome::Fault(kind), "{pc}");
    }
}

/// `li t0, 4096`, `lbu a0, -1(t0)` and this word, in a memory of 4,096 bytes whose last one is 7.
fn at_memory_end(last: u32) -> (Outcome, Cpu) {
    let mut memory = [0; 4096];
    write_word(&mut memory, 0, 0x0000_12b7);
    write_word(&mut memory, 4, 0x0002_8293);
    write_word(&mut memory, 8, 0xfff2_c503);
    write_word(&mut memory, 12, last);
    memory[4095] = 7;
    let mut cpu = Cpu::at(0);
    let mut outcome = Outcome::Done;
    for _ in 0..4 {
        outcome = step(&mut cpu, &mut memory);
    }
    (outcome, cpu)
}

#[test]
fn a_load_at_the_end_of_memory(rt: HostRuntime) {
    // lw a0, -2(t0); lw a0, 0(t0)
    for (last, kind) in [
        (0xffe2_a503, FaultKind::Misaligned),
        (0x0002_a503, FaultKind::Load),
    ] {
        let (outcome, cpu) = at_memory_end(last);
        let is_fault = outcome == Outcome::Fault(kind) && cpu.pc() == 12;
        assert!(rt; is_fault && cpu.register(10) == 7, "{last:#x}");
    }
}
