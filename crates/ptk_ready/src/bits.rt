//! Single bits of a number.

ghost use Rattle.std.specs.Prelude.{◌<◌, true, false};
ghost use Rattle.ptk_ready.specs.Bits.{IsBitChanged, IsGreatestBit};

/// These bits with bit i set.
pub(crate) fn with_bit(bits: u32, i: usize) -> u32
    requires { i < 32 }
    ensures { IsBitChanged bits result i true }
{
    bits | 1 << i
}

/// These bits with bit i clear.
pub(crate) fn without_bit(bits: u32, i: usize) -> u32
    requires { i < 32 }
    ensures { IsBitChanged bits result i false }
{
    bits & !(1 << i)
}

/// The greatest bit that is set, None where none is.
pub(crate) fn greatest_bit(bits: u32) -> Option<usize>
    ensures { IsGreatestBit bits result }
{
    if bits == 0 {
        None
    } else {
        Some(31 - bits.leading_zeros() as usize)
    }
}
