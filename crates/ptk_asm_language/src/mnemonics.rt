//! The mnemonics, in four tables.

ghost use Rattle.std.specs.Prelude.{◌≡◌, map};
ghost use Rattle.ptk_asm_language.specs.Statements as is;

use crate::statement::{Form, Section};
use ptk_rv32i_code::{BranchTest, ImmediateOp, LoadKind, RegisterOp, ShiftOp, StoreKind};

/// The directives and their forms.
static DIRECTIVES: [(&[u8], Form); 6] = [
    (b".text", Form::Within(Section::Text)),
    (b".data", Form::Within(Section::Data)),
    (b".bss", Form::Within(Section::Bss)),
    (b".word", Form::Word),
    (b".byte", Form::Byte),
    (b".space", Form::Space),
];

/// The calls of the environment, `fence` and the short forms.
static SHORT_MNEMONICS: [(&[u8], Form); 11] = [
    (b"ecall", Form::Ecall),
    (b"ebreak", Form::Ebreak),
    (b"fence", Form::Fence),
    (b"nop", Form::Nop),
    (b"mv", Form::Move),
    (b"j", Form::Jump),
    (b"jr", Form::JumpRegister),
    (b"ret", Form::Return),
    (b"call", Form::Call),
    (b"li", Form::LoadValue),
    (b"la", Form::LoadAddress),
];

/// The computations.
static COMPUTING_MNEMONICS: [(&[u8], Form); 19] = [
    (b"addi", Form::WithImmediate(ImmediateOp::Add)),
    (b"slti", Form::WithImmediate(ImmediateOp::Less)),
    (b"sltiu", Form::WithImmediate(ImmediateOp::LessUnsigned)),
    (b"xori", Form::WithImmediate(ImmediateOp::Xor)),
    (b"ori", Form::WithImmediate(ImmediateOp::Or)),
    (b"andi", Form::WithImmediate(ImmediateOp::And)),
    (b"slli", Form::Shift(ShiftOp::Left)),
    (b"srli", Form::Shift(ShiftOp::Right)),
    (b"srai", Form::Shift(ShiftOp::RightSigned)),
    (b"add", Form::WithRegister(RegisterOp::Add)),
    (b"sub", Form::WithRegister(RegisterOp::Subtract)),
    (b"sll", Form::WithRegister(RegisterOp::ShiftLeft)),
    (b"slt", Form::WithRegister(RegisterOp::Less)),
    (b"sltu", Form::WithRegister(RegisterOp::LessUnsigned)),
    (b"xor", Form::WithRegister(RegisterOp::Xor)),
    (b"srl", Form::WithRegister(RegisterOp::ShiftRight)),
    (b"sra", Form::WithRegister(RegisterOp::ShiftRightSigned)),
    (b"or", Form::WithRegister(RegisterOp::Or)),
    (b"and", Form::WithRegister(RegisterOp::And)),
];

/// The loads, stores, branches, jumps and upper parts.
static MOVING_MNEMONICS: [(&[u8], Form); 18] = [
    (b"lb", Form::Load(LoadKind::Byte)),
    (b"lh", Form::Load(LoadKind::Half)),
    (b"lw", Form::Load(LoadKind::Word)),
    (b"lbu", Form::Load(LoadKind::ByteUnsigned)),
    (b"lhu", Form::Load(LoadKind::HalfUnsigned)),
    (b"sb", Form::Store(StoreKind::Byte)),
    (b"sh", Form::Store(StoreKind::Half)),
    (b"sw", Form::Store(StoreKind::Word)),
    (b"beq", Form::Branch(BranchTest::Equal)),
    (b"bne", Form::Branch(BranchTest::NotEqual)),
    (b"blt", Form::Branch(BranchTest::Less)),
    (b"bge", Form::Branch(BranchTest::NotLess)),
    (b"bltu", Form::Branch(BranchTest::LessUnsigned)),
    (b"bgeu", Form::Branch(BranchTest::NotLessUnsigned)),
    (b"jalr", Form::Jalr),
    (b"jal", Form::Jal),
    (b"lui", Form::Lui),
    (b"auipc", Form::Auipc),
];

/// The form of a name in a table; None for a name that the table doesn't have.
#[tactic(auto, using(crate::proofs::Entries::entries))]
fn form_in(table: &[(&[u8], Form)], name: &[u8]) -> Option<Form>
    ensures { result ≡ is.named (map (λ e. (e.0.now, e.1)) table.now) name.now }
{
    for entry in table {
        if entry.0 == name {
            return Some(entry.1);
        }
    }
    None
}

/// The form of a directive; None for another name.
fn directive(name: &[u8]) -> Option<Form>
    ensures { result ≡ is.directive name.now }
{
    form_in(&DIRECTIVES, name)
}

/// The form of a call of the environment, of `fence` or of a short form; None for another name.
fn short_form(name: &[u8]) -> Option<Form>
    ensures { result ≡ is.short_form name.now }
{
    form_in(&SHORT_MNEMONICS, name)
}

/// The form of a computation; None for another name.
fn computing_form(name: &[u8]) -> Option<Form>
    ensures { result ≡ is.computing_form name.now }
{
    form_in(&COMPUTING_MNEMONICS, name)
}

/// The form of a load, a store, a branch, a jump or an upper part; None for another name.
fn moving_form(name: &[u8]) -> Option<Form>
    ensures { result ≡ is.moving_form name.now }
{
    form_in(&MOVING_MNEMONICS, name)
}

/// What a mnemonic stands for; None for a name that is no mnemonic.
pub fn form_named(name: &[u8]) -> Option<Form>
    ensures { result ≡ is.form_named name.now }
{
    if let Some(form) = directive(name) {
        return Some(form);
    }
    if let Some(form) = short_form(name) {
        return Some(form);
    }
    if let Some(form) = computing_form(name) {
        return Some(form);
    }
    moving_form(name)
}
