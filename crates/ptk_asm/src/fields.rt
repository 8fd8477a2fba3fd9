//! Numbers as fields of instructions, and registers of a list.

ghost use Rattle.std.specs.Prelude.{◌≡◌, slice_index};
ghost use Rattle.ptk_asm_language.specs.Statements as is;

use ptk_rv32i_code::{BranchOffset, Immediate, JumpOffset, Register, ShiftAmount, UpperImmediate};

/// A number in 32 bits.
pub fn word_field(number: i64) -> u32
    ensures { result ≡ is.field 32 number }
{
    (number.cast_unsigned() % 4_294_967_296) as u32
}

/// A number in 8 bits.
pub fn byte_field(number: i64) -> u8
    ensures { result ≡ is.field 8 number }
{
    (number.cast_unsigned() % 256) as u8
}

/// A number as an immediate of 12 bits.
pub fn immediate_field(number: i64) -> Immediate
    ensures { result ≡ is.field 12 number }
{
    Immediate::new((number.cast_unsigned() % 4096) as u32)
}

/// A number as the amount of a shift, 5 bits.
pub fn amount_field(number: i64) -> ShiftAmount
    ensures { result ≡ is.field 5 number }
{
    ShiftAmount::new((number.cast_unsigned() % 32) as u32)
}

/// A number as an upper immediate, 20 bits.
pub fn upper_field(number: i64) -> UpperImmediate
    ensures { result ≡ is.field 20 number }
{
    UpperImmediate::new((number.cast_unsigned() % 1_048_576) as u32)
}

/// The upper immediate of a value that lui and addi make: of the value minus its low 12 bits as a signed number.
pub fn upper_part(number: i64) -> UpperImmediate
    ensures { result ≡ is.upper_bits number }
{
    let rounded = u64::from(word_field(number)) + 2048;
    UpperImmediate::new((rounded / 4096 % 1_048_576) as u32)
}

/// A distance as the offset of a branch, 13 bits of which the lowest is 0.
pub fn branch_field(number: i64) -> BranchOffset
    ensures { result ≡ is.distance_field 13 number }
{
    BranchOffset::new((number.cast_unsigned() % 8192 / 2 * 2) as u32)
}

/// A distance as the offset of a jump, 21 bits of which the lowest is 0.
pub fn jump_field(number: i64) -> JumpOffset
    ensures { result ≡ is.distance_field 21 number }
{
    JumpOffset::new((number.cast_unsigned() % 2_097_152 / 2 * 2) as u32)
}

/// The register at an index, x0 where there is none.
pub fn register_at(registers: &[Register], i: usize) -> Register
    ensures { result ≡ slice_index registers.now i }
{
    match registers.get(i) {
        Some(register) => *register,
        None => Register::new(0),
    }
}
