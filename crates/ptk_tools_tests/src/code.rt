//! Words as instructions and back. The words are those of LLVM's assembler.

ghost use Rattle.std.specs.Prelude.{◌<◌};

use ptk_rv32i::{
    BranchOffset, BranchTest, Immediate, ImmediateOp, Instr, JumpOffset, LoadKind, Register,
    RegisterOp, ShiftAmount, ShiftOp, StoreKind, UpperImmediate, decode, encode, instr_again,
    word_again,
};
use std::process::Abort;

/// The neighbours of words of the table that are no instructions.
const ILLEGAL: [u32; 19] = [
    0x0000_0000,
    0xffff_ffff,
    0x0020_0073, // above EBREAK
    0x0010_00f3, // EBREAK with rd x1
    0x0000_8073, // ECALL with rs1 x1
    0x0000_1073, // CSRRW
    0x0220_81b3, // ADD with bit 25 (MUL)
    0x4020_91b3, // SLL with bit 30
    0x4020_e1b3, // OR with bit 30
    0x03f0_9193, // SLLI with bit 25
    0x03f0_d193, // SRLI with bit 25
    0x43f0_d193, // SRAI with bit 25
    0x41f0_9193, // SLLI with bit 30
    0x0000_90e7, // JALR with funct3 1
    0x0020_a463, // a branch with funct3 2
    0x0000_b183, // a load with funct3 3
    0x0000_e183, // a load with funct3 6
    0x0020_b023, // a store with funct3 3
    0x0000_100f, // FENCE.I
];

fn x(number: u32) -> Register
    requires { number < 32 }
{
    Register::new(number)
}

/// The word is that of the instruction, and the other way round.
fn check(rt: &impl Abort, word: u32, instr: Instr) {
    let is_pair = decode(word) == Some(instr)
        && encode(&instr) == word
        && word_again(word) == Some(word)
        && instr_again(&instr) == Some(instr);
    assert!(rt; is_pair, "{word:#x}");
}

/// A branch with an offset of these bits.
fn branch(test: BranchTest, rs1: Register, rs2: Register, offset: BranchOffset) -> Instr {
    Instr::Branch {
        test,
        rs1,
        rs2,
        offset,
    }
}

/// A store with an offset of these bits.
fn store(kind: StoreKind, rs1: Register, rs2: Register, offset: Immediate) -> Instr {
    Instr::Store {
        kind,
        rs1,
        rs2,
        offset,
    }
}

/// A shift by a constant amount.
fn shift(op: ShiftOp, rd: Register, rs1: Register, amount: ShiftAmount) -> Instr {
    Instr::Shift {
        op,
        rd,
        rs1,
        amount,
    }
}

#[test]
fn upper_immediates_and_jumps(rt: HostRuntime) {
    // lui x31, 0xfffff
    let (rd, upper) = (x(31), UpperImmediate::new(0xf_ffff));
    check(&rt, 0xffff_ffb7, Instr::Lui { rd, upper });
    // auipc x1, 1
    let (rd, upper) = (x(1), UpperImmediate::new(1));
    check(&rt, 0x0000_1097, Instr::Auipc { rd, upper });
    // jal x0, -1048576
    let (rd, offset) = (x(0), JumpOffset::new(0x10_0000));
    check(&rt, 0x8000_006f, Instr::Jal { rd, offset });
    // jal x31, 1048574
    let (rd, offset) = (x(31), JumpOffset::new(0xf_fffe));
    check(&rt, 0x7fff_ffef, Instr::Jal { rd, offset });
    // jalr x1, -1(x2)
    let (rd, rs1, offset) = (x(1), x(2), Immediate::new(0xfff));
    check(&rt, 0xfff1_00e7, Instr::Jalr { rd, rs1, offset });
}

#[test]
fn branches(rt: HostRuntime) {
    // beq x1, x2, -4096
    let (test, rs1, rs2) = (BranchTest::Equal, x(1), x(2));
    let offset = BranchOffset::new(0x1000);
    check(&rt, 0x8020_8063, branch(test, rs1, rs2, offset));
    // beq x31, x0, 4094
    let (rs1, rs2, offset) = (x(31), x(0), BranchOffset::new(0xffe));
    check(&rt, 0x7e0f_8fe3, branch(test, rs1, rs2, offset));
    // bgeu x1, x2, -2
    let (test, rs1, rs2) = (BranchTest::NotLessUnsigned, x(1), x(2));
    let offset = BranchOffset::new(0x1ffe);
    check(&rt, 0xfe20_ffe3, branch(test, rs1, rs2, offset));
}

#[test]
fn loads_and_stores(rt: HostRuntime) {
    // lhu x5, -2048(x6)
    let (kind, rd, rs1) = (LoadKind::HalfUnsigned, x(5), x(6));
    let offset = Immediate::new(0x800);
    check(
        &rt,
        0x8003_5283,
        Instr::Load {
            kind,
            rd,
            rs1,
            offset,
        },
    );
    // sw x2, -1(x31)
    let (kind, rs1, rs2) = (StoreKind::Word, x(31), x(2));
    let offset = Immediate::new(0xfff);
    check(&rt, 0xfe2f_afa3, store(kind, rs1, rs2, offset));
    // sb x0, 2047(x0)
    let (kind, rs1, rs2) = (StoreKind::Byte, x(0), x(0));
    let offset = Immediate::new(0x7ff);
    check(&rt, 0x7e00_0fa3, store(kind, rs1, rs2, offset));
}

#[test]
fn integer_computation(rt: HostRuntime) {
    // addi x3, x1, -1
    let (op, rd, rs1) = (ImmediateOp::Add, x(3), x(1));
    let immediate = Immediate::new(0xfff);
    check(
        &rt,
        0xfff0_8193,
        Instr::WithImmediate {
            op,
            rd,
            rs1,
            immediate,
        },
    );
    // srai x3, x1, 31
    let (op, amount) = (ShiftOp::RightSigned, ShiftAmount::new(31));
    check(&rt, 0x41f0_d193, shift(op, rd, rs1, amount));
    // slli x3, x1, 0
    let (op, amount) = (ShiftOp::Left, ShiftAmount::new(0));
    check(&rt, 0x0000_9193, shift(op, rd, rs1, amount));
    // sub x1, x2, x3
    let (op, rd, rs1, rs2) = (RegisterOp::Subtract, x(1), x(2), x(3));
    check(&rt, 0x4031_00b3, Instr::WithRegister { op, rd, rs1, rs2 });
}

#[test]
fn fences_and_system_words(rt: HostRuntime) {
    // fence.tso
    let (rd, rs1, high) = (x(0), x(0), Immediate::new(0x833));
    check(&rt, 0x8330_000f, Instr::Fence { rd, rs1, high });
    // fence iorw, iorw, with rd x1 and rs1 x2
    let (rd, rs1, high) = (x(1), x(2), Immediate::new(0x0ff));
    check(&rt, 0x0ff1_008f, Instr::Fence { rd, rs1, high });
    check(&rt, 0x0000_0073, Instr::Ecall);
    check(&rt, 0x0010_0073, Instr::Ebreak);
}

/// The first of these words that is an instruction.
fn first_instruction(words: &[u32]) -> Option<u32> {
    for word in words {
        if decode(*word) != None || word_again(*word) != None {
            return Some(*word);
        }
    }
    None
}

#[test]
fn no_neighbour_is_an_instruction(rt: HostRuntime) {
    assert_eq!(rt; first_instruction(&ILLEGAL), None);
}
