//! The instructions of a statement.

ghost use Rattle.std.specs.Prelude.{◌≡◌, [], ◌∷◌};
ghost use Rattle.ptk_asm_language.specs.Statements as is;
ghost use Rattle.ptk_asm.specs.Emitting.{listed};

use crate::fields::{
    amount_field, branch_field, immediate_field, jump_field, register_at, upper_field, upper_part,
};
use ptk_asm_language::{Form, is_short};
use ptk_rv32i_code::{
    BranchTest, Immediate, ImmediateOp, Instr, LoadKind, Register, RegisterOp, ShiftOp, StoreKind,
};

/// The instructions of a statement: at most two.
#[derive(Clone, Copy, PartialEq, Eq)]
pub enum Instructions {
    /// None: a directive.
    None,
    /// One.
    One(Instr),
    /// Two, in their order.
    Two(Instr, Instr),
}

/// addi.
fn add_immediate(rd: Register, rs1: Register, immediate: Immediate) -> Instr
    ensures { result ≡ Instr.WithImmediate ImmediateOp.Add rd rs1 immediate }
{
    Instr::WithImmediate {
        op: ImmediateOp::Add,
        rd,
        rs1,
        immediate,
    }
}

/// lui and addi that make a register this value.
fn upper_and_lower(rd: Register, number: i64) -> Instructions
    ensures { listed result ≡ is.pair rd number }
{
    Instructions::Two(
        Instr::Lui {
            rd,
            upper: upper_part(number),
        },
        add_immediate(rd, rd, immediate_field(number)),
    )
}

/// What makes a register a value: one addi from x0 for -2048 to 2047, else lui and addi.
fn load_value(registers: &[Register], number: i64) -> Instructions
    ensures { listed result ≡ is.instructions_of Form.LoadValue registers.now number }
{
    let rd = register_at(registers, 0);
    if is_short(number) {
        Instructions::One(add_immediate(rd, Register::new(0), immediate_field(number)))
    } else {
        upper_and_lower(rd, number)
    }
}

/// The instruction of an operation on a register and an immediate.
fn with_immediate(op: ImmediateOp, registers: &[Register], number: i64) -> Instr
    ensures { is.instructions_of (Form.WithImmediate op) registers.now number ≡ result ∷ [] }
{
    Instr::WithImmediate {
        op,
        rd: register_at(registers, 0),
        rs1: register_at(registers, 1),
        immediate: immediate_field(number),
    }
}

/// The instruction of a shift by a constant.
fn shift(op: ShiftOp, registers: &[Register], number: i64) -> Instr
    ensures { is.instructions_of (Form.Shift op) registers.now number ≡ result ∷ [] }
{
    Instr::Shift {
        op,
        rd: register_at(registers, 0),
        rs1: register_at(registers, 1),
        amount: amount_field(number),
    }
}

/// The instruction of an operation on two registers.
fn with_register(op: RegisterOp, registers: &[Register], number: i64) -> Instr
    ensures { is.instructions_of (Form.WithRegister op) registers.now number ≡ result ∷ [] }
{
    let _number = number;
    Instr::WithRegister {
        op,
        rd: register_at(registers, 0),
        rs1: register_at(registers, 1),
        rs2: register_at(registers, 2),
    }
}

/// The instruction of a load.
fn load(kind: LoadKind, registers: &[Register], number: i64) -> Instr
    ensures { is.instructions_of (Form.Load kind) registers.now number ≡ result ∷ [] }
{
    Instr::Load {
        kind,
        rd: register_at(registers, 0),
        rs1: register_at(registers, 1),
        offset: immediate_field(number),
    }
}

/// The instruction of a store, which names rs2 before rs1.
fn store(kind: StoreKind, registers: &[Register], number: i64) -> Instr
    ensures { is.instructions_of (Form.Store kind) registers.now number ≡ result ∷ [] }
{
    Instr::Store {
        kind,
        rs1: register_at(registers, 1),
        rs2: register_at(registers, 0),
        offset: immediate_field(number),
    }
}

/// The instruction of a branch.
fn branch(test: BranchTest, registers: &[Register], number: i64) -> Instr
    ensures { is.instructions_of (Form.Branch test) registers.now number ≡ result ∷ [] }
{
    Instr::Branch {
        test,
        rs1: register_at(registers, 0),
        rs2: register_at(registers, 1),
        offset: branch_field(number),
    }
}

/// jal over a distance.
fn jump(rd: Register, number: i64) -> Instr
    ensures { result ≡ Instr.Jal rd (is.distance_field 21 number) }
{
    Instr::Jal {
        rd,
        offset: jump_field(number),
    }
}

/// jalr.
fn jump_to(rd: Register, rs1: Register, offset: Immediate) -> Instr
    ensures { result ≡ Instr.Jalr rd rs1 offset }
{
    Instr::Jalr { rd, rs1, offset }
}

/// `fence` over all kinds of access.
fn fence() -> Instr
    ensures { result ≡ Instr.Fence 0 0 255 }
{
    Instr::Fence {
        rd: Register::new(0),
        rs1: Register::new(0),
        high: Immediate::new(255),
    }
}

/// The instructions that a form stands for, at these registers and this number: a distance for branches and jumps, else
/// a value or an address. None for a directive.
pub fn instructions_of(form: Form, registers: &[Register], number: i64) -> Instructions
    ensures { listed result ≡ is.instructions_of form registers.now number }
{
    let rd = register_at(registers, 0);
    let rs1 = register_at(registers, 1);
    let x0 = Register::new(0);
    let nothing = Immediate::new(0);
    match form {
        Form::WithImmediate(op) => Instructions::One(with_immediate(op, registers, number)),
        Form::Shift(op) => Instructions::One(shift(op, registers, number)),
        Form::WithRegister(op) => Instructions::One(with_register(op, registers, number)),
        Form::Load(kind) => Instructions::One(load(kind, registers, number)),
        Form::Store(kind) => Instructions::One(store(kind, registers, number)),
        Form::Branch(test) => Instructions::One(branch(test, registers, number)),
        Form::Jalr => Instructions::One(jump_to(rd, rs1, immediate_field(number))),
        Form::Jal => Instructions::One(jump(rd, number)),
        Form::Lui => Instructions::One(Instr::Lui {
            rd,
            upper: upper_field(number),
        }),
        Form::Auipc => Instructions::One(Instr::Auipc {
            rd,
            upper: upper_field(number),
        }),
        Form::Ecall => Instructions::One(Instr::Ecall),
        Form::Ebreak => Instructions::One(Instr::Ebreak),
        Form::Fence => Instructions::One(fence()),
        Form::Nop => Instructions::One(add_immediate(x0, x0, nothing)),
        Form::Move => Instructions::One(add_immediate(rd, rs1, nothing)),
        Form::Jump => Instructions::One(jump(x0, number)),
        Form::JumpRegister => Instructions::One(jump_to(x0, rd, nothing)),
        Form::Return => Instructions::One(jump_to(x0, Register::new(1), nothing)),
        Form::Call => Instructions::One(jump(Register::new(1), number)),
        Form::LoadValue => load_value(registers, number),
        Form::LoadAddress => upper_and_lower(rd, number),
        Form::Within(_) | Form::Word | Form::Byte | Form::Space => Instructions::None,
    }
}
