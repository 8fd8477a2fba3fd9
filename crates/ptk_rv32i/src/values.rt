//! What the operations of the instructions compute.

ghost use Rattle.std.specs.Prelude.{◌≡◌, ◌<◌, ◌+◌, ◌*◌, ◌%◌, ◌^◌};
ghost use Rattle.ptk_words.specs.Words.{sign_extension};
ghost use Rattle.ptk_rv32i.specs.Values.{test_passes, immediate_value, shift_value, register_value};

use ptk_rv32i_code::{BranchTest, ImmediateOp, RegisterOp, ShiftOp};

/// A byte as a word, its sign copied.
#[inline(always)]
pub fn extend_8(number: u32) -> u32
    requires { number < 2 ^ 8 }
    ensures { result ≡ sign_extension 8 number }
{
    ((number << 24).cast_signed() >> 24).cast_unsigned()
}

/// 12 bits as a word, the sign copied.
#[inline(always)]
pub fn extend_12(number: u32) -> u32
    requires { number < 2 ^ 12 }
    ensures { result ≡ sign_extension 12 number }
{
    ((number << 20).cast_signed() >> 20).cast_unsigned()
}

/// 13 bits as a word, the sign copied.
#[inline(always)]
pub fn extend_13(number: u32) -> u32
    requires { number < 2 ^ 13 }
    ensures { result ≡ sign_extension 13 number }
{
    ((number << 19).cast_signed() >> 19).cast_unsigned()
}

/// A half as a word, its sign copied.
#[inline(always)]
pub fn extend_16(number: u32) -> u32
    requires { number < 2 ^ 16 }
    ensures { result ≡ sign_extension 16 number }
{
    ((number << 16).cast_signed() >> 16).cast_unsigned()
}

/// 21 bits as a word, the sign copied.
#[inline(always)]
pub fn extend_21(number: u32) -> u32
    requires { number < 2 ^ 21 }
    ensures { result ≡ sign_extension 21 number }
{
    ((number << 11).cast_signed() >> 11).cast_unsigned()
}

/// Whether the branch is taken.
#[inline(always)]
pub fn passes(test: BranchTest, a: u32, b: u32) -> bool
    ensures { result ≡ test_passes test a b }
{
    match test {
        BranchTest::Equal => a == b,
        BranchTest::NotEqual => a != b,
        BranchTest::Less => a.cast_signed() < b.cast_signed(),
        BranchTest::NotLess => a.cast_signed() >= b.cast_signed(),
        BranchTest::LessUnsigned => a < b,
        BranchTest::NotLessUnsigned => a >= b,
    }
}

/// An operation with an immediate.
#[inline(always)]
pub fn with_immediate(op: ImmediateOp, a: u32, b: u32) -> u32
    ensures { result ≡ immediate_value op a b }
{
    match op {
        ImmediateOp::Add => a.wrapping_add(b),
        ImmediateOp::Less => u32::from(a.cast_signed() < b.cast_signed()),
        ImmediateOp::LessUnsigned => u32::from(a < b),
        ImmediateOp::Xor => a ^ b,
        ImmediateOp::Or => a | b,
        ImmediateOp::And => a & b,
    }
}

/// A shift.
#[inline(always)]
pub fn shifted(op: ShiftOp, a: u32, by: u32) -> u32
    requires { by < 32 }
    ensures { result ≡ shift_value op a by }
{
    match op {
        ShiftOp::Left => a << by,
        ShiftOp::Right => a >> by,
        ShiftOp::RightSigned => (a.cast_signed() >> by).cast_unsigned(),
    }
}

/// An operation on two registers.
#[inline(always)]
pub fn with_register(op: RegisterOp, a: u32, b: u32) -> u32
    ensures { result ≡ register_value op a b }
{
    match op {
        RegisterOp::Add => a.wrapping_add(b),
        RegisterOp::Subtract => a.wrapping_sub(b),
        RegisterOp::ShiftLeft => a << (b & 31),
        RegisterOp::Less => u32::from(a.cast_signed() < b.cast_signed()),
        RegisterOp::LessUnsigned => u32::from(a < b),
        RegisterOp::Xor => a ^ b,
        RegisterOp::ShiftRight => a >> (b & 31),
        RegisterOp::ShiftRightSigned => (a.cast_signed() >> (b & 31)).cast_unsigned(),
        RegisterOp::Or => a | b,
        RegisterOp::And => a & b,
    }
}
