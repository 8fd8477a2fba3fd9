//! The names of forms and registers.

ghost use Rattle.std.specs.Prelude.{◌≡◌};
ghost use Rattle.ptk_disasm.specs.Spelling as is;

use ptk_asm_language::{Form, Section};
use ptk_rv32i_code::{BranchTest, ImmediateOp, LoadKind, Register, RegisterOp, ShiftOp, StoreKind};

/// The mnemonic of an operation on a register and an immediate.
fn immediate_mnemonic(op: ImmediateOp) -> &'static str
    ensures { result.now ≡ is.mnemonic (Form.WithImmediate op) }
{
    match op {
        ImmediateOp::Add => "addi",
        ImmediateOp::Less => "slti",
        ImmediateOp::LessUnsigned => "sltiu",
        ImmediateOp::Xor => "xori",
        ImmediateOp::Or => "ori",
        ImmediateOp::And => "andi",
    }
}

/// The mnemonic of an operation on two registers.
fn register_mnemonic(op: RegisterOp) -> &'static str
    ensures { result.now ≡ is.mnemonic (Form.WithRegister op) }
{
    match op {
        RegisterOp::Add => "add",
        RegisterOp::Subtract => "sub",
        RegisterOp::ShiftLeft => "sll",
        RegisterOp::Less => "slt",
        RegisterOp::LessUnsigned => "sltu",
        RegisterOp::Xor => "xor",
        RegisterOp::ShiftRight => "srl",
        RegisterOp::ShiftRightSigned => "sra",
        RegisterOp::Or => "or",
        RegisterOp::And => "and",
    }
}

/// The mnemonic of a branch.
fn branch_mnemonic(test: BranchTest) -> &'static str
    ensures { result.now ≡ is.mnemonic (Form.Branch test) }
{
    match test {
        BranchTest::Equal => "beq",
        BranchTest::NotEqual => "bne",
        BranchTest::Less => "blt",
        BranchTest::NotLess => "bge",
        BranchTest::LessUnsigned => "bltu",
        BranchTest::NotLessUnsigned => "bgeu",
    }
}

/// The mnemonic of a form.
pub(crate) fn mnemonic(form: Form) -> &'static str
    ensures { result.now ≡ is.mnemonic form }
{
    match form {
        Form::Within(Section::Text) => ".text",
        Form::Within(Section::Data) => ".data",
        Form::Within(Section::Bss) => ".bss",
        Form::Word => ".word",
        Form::Byte => ".byte",
        Form::Space => ".space",
        Form::WithImmediate(op) => immediate_mnemonic(op),
        Form::Shift(ShiftOp::Left) => "slli",
        Form::Shift(ShiftOp::Right) => "srli",
        Form::Shift(ShiftOp::RightSigned) => "srai",
        Form::WithRegister(op) => register_mnemonic(op),
        Form::Load(LoadKind::Byte) => "lb",
        Form::Load(LoadKind::Half) => "lh",
        Form::Load(LoadKind::Word) => "lw",
        Form::Load(LoadKind::ByteUnsigned) => "lbu",
        Form::Load(LoadKind::HalfUnsigned) => "lhu",
        Form::Store(StoreKind::Byte) => "sb",
        Form::Store(StoreKind::Half) => "sh",
        Form::Store(StoreKind::Word) => "sw",
        Form::Branch(test) => branch_mnemonic(test),
        Form::Jalr => "jalr",
        Form::Jal => "jal",
        Form::Lui => "lui",
        Form::Auipc => "auipc",
        Form::Ecall => "ecall",
        Form::Ebreak => "ebreak",
        Form::Fence => "fence",
        Form::Nop => "nop",
        Form::Move => "mv",
        Form::Jump => "j",
        Form::JumpRegister => "jr",
        Form::Return => "ret",
        Form::Call => "call",
        Form::LoadValue => "li",
        Form::LoadAddress => "la",
    }
}

/// The name of a register by its use, as `sp`.
pub fn register_name(register: Register) -> &'static str
    ensures { result.now ≡ is.register_name register }
{
    match register.number() {
        0 => "zero",
        1 => "ra",
        2 => "sp",
        3 => "gp",
        4 => "tp",
        5 => "t0",
        6 => "t1",
        7 => "t2",
        8 => "s0",
        9 => "s1",
        10 => "a0",
        11 => "a1",
        12 => "a2",
        13 => "a3",
        14 => "a4",
        15 => "a5",
        16 => "a6",
        17 => "a7",
        18 => "s2",
        19 => "s3",
        20 => "s4",
        21 => "s5",
        22 => "s6",
        23 => "s7",
        24 => "s8",
        25 => "s9",
        26 => "s10",
        27 => "s11",
        28 => "t3",
        29 => "t4",
        30 => "t5",
        _ => "t6",
    }
}
