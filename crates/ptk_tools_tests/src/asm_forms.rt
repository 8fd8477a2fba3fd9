//! The operands of a load, with each kind of fault among them.

use ptk_asm_language::{
    FaultKind, Form, LineFault, Operands, Spanned, Token, Value, operands_of, slots_of,
};
use ptk_rv32i::{LoadKind, Register};
use std::alloc::Global;

// A token with its place.
fn spanned(token: Token<'_>, from: usize, to: usize) -> Spanned<'_> {
    Spanned { token, from, to }
}

// The operands of `lw a0, -4(sp)` with another register and another offset, up to a closing mark.
fn load<'a>(
    alloc: Global,
    register: &'a [u8],
    offset: &'a [u8],
    end: u8,
) -> Result<Operands<'a>, LineFault> {
    let tokens = [
        spanned(Token::Name(register), 3, 5),
        spanned(Token::Mark(b','), 5, 6),
        spanned(Token::Number(offset), 7, 9),
        spanned(Token::Mark(b'('), 9, 10),
        spanned(Token::Name(b"sp"), 10, 12),
        spanned(Token::Mark(end), 12, 13),
    ];
    operands_of(alloc, slots_of(Form::Load(LoadKind::Word)), &tokens, 13)
}

// Whether the line is refused so.
fn is_refused(
    found: Result<Operands<'_>, LineFault>,
    kind: FaultKind,
    from: usize,
    to: usize,
) -> bool {
    match found {
        Ok(_operands) => false,
        Err(fault) => fault == LineFault { from, to, kind },
    }
}

#[test]
fn a_load_has_two_registers_and_a_number(rt: HostRuntime) {
    match load(rt.alloc(), b"a0", b"-4", b')') {
        Ok(operands) => {
            let registers = [Register::new(10), Register::new(2)];
            assert!(rt; operands.registers.as_slice() == registers.as_slice());
            match operands.value {
                Value::Given(number) => assert!(rt; number == -4),
                _ => assert!(rt; false, "no number"),
            }
        }
        Err(_fault) => assert!(rt; false, "refused"),
    }
}

#[test]
fn the_first_fault_is_told_with_its_token(rt: HostRuntime) {
    let found = load(rt.alloc(), b"a8", b"9999", b',');
    assert!(rt; is_refused(found, FaultKind::Register, 3, 5));
    let found = load(rt.alloc(), b"x10", b"2048", b',');
    assert!(rt; is_refused(found, FaultKind::Range, 7, 9));
    let found = load(rt.alloc(), b"fp", b"0x7ff", b',');
    assert!(rt; is_refused(found, FaultKind::Token, 12, 13));
    let found = operands_of(rt.alloc(), slots_of(Form::JumpRegister), &[], 4);
    assert!(rt; is_refused(found, FaultKind::Token, 4, 4));
}
