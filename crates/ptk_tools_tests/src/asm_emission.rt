//! Statements with the bytes that LLVM's assembler gives them.

use crate::asm::are_words;
use ptk_asm::push_statement;
use ptk_asm_language::Form;
use ptk_rv32i::{BranchTest, LoadKind, Register, StoreKind};
use std::alloc::AllocError;

// Statements, each with how many of ra and sp (x1 and x2) it has, and with its number.
const STATEMENTS: [(Form, usize, i64); 8] = [
    (Form::Load(LoadKind::Word), 2, -4), // lw ra, -4(sp)
    (Form::Store(StoreKind::Word), 2, 8), // sw ra, 8(sp)
    (Form::Branch(BranchTest::Equal), 2, -4), // beq ra, sp, -4
    (Form::Call, 0, 8), // call, over 8 bytes
    (Form::LoadValue, 1, 4095), // li ra, 4095
    (Form::Byte, 0, -1), // .byte -1
    (Form::Space, 0, 3), // .space 3
    (Form::Word, 0, 258), // .word 258
];

// Their bytes, one after the other.
const WORDS: [u32; 8] = [
    0xffc1_2083,
    0x0011_2423,
    0xfe20_8ee3,
    0x0080_00ef,
    0x0000_10b7,
    0xfff0_8093,
    0x0000_00ff,
    0x0000_0102,
];

#[test]
fn statements_have_their_bytes(rt: HostRuntime) -> Result<(), AllocError> {
    let registers = [Register::new(1), Register::new(2)];
    let mut out = Vec::new(rt.alloc());
    for (form, count, number) in STATEMENTS {
        push_statement(&mut out, form, &registers[..count.min(2)], number)?;
    }
    assert!(rt; are_words(&out, &WORDS));
    Ok(())
}
