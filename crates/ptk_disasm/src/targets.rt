//! Where branches and jumps go.

ghost use Rattle.std.specs.Prelude.{◌≡◌, ◌<◌, ◌≤◌, ◌+◌, ◌^◌};
ghost use Rattle.ptk_words.specs.Words.{sign_extension, word_of};
ghost use Rattle.ptk_rv32i_code.specs.Coding.{decoded};
ghost use Rattle.ptk_disasm.specs.Disassembly as is;

use crate::instructions::{BRANCH_BITS, JUMP_BITS};
use ptk_rv32i_code::{Instr, decode};

/// The address at a distance from another, given as the bits of a field of this width in two's complement (RISC-V 2.3,
/// 2.5).
pub fn address_at(at: u32, width: u32, bits: u32) -> u32
    requires some { 0 < width }
    requires narrow { width ≤ 21 }
    requires inside { bits < 2 ^ width }
    ensures { result ≡ word_of (at + sign_extension width bits) }
{
    let half = 2u32.pow(width - 1);
    if bits < half {
        at.wrapping_add(bits)
    } else {
        let upper = u32::MAX - (2 * half - 1);
        at.wrapping_add(bits + upper)
    }
}

/// The address that an instruction at an address goes to, which is a branch or a jump; `None` for every other.
fn target_for(at: u32, instruction: Instr) -> Option<u32>
    ensures { result ≡ is.target_of at (Some instruction) }
{
    match instruction {
        Instr::Branch { offset, .. } => Some(address_at(at, BRANCH_BITS, offset.number())),
        Instr::Jal { offset, .. } => Some(address_at(at, JUMP_BITS, offset.number())),
        _ => None,
    }
}

/// The address that a branch or a jump goes to whose word stands at an address; `None` for every other word.
pub fn target_of(at: u32, word: u32) -> Option<u32>
    ensures { result ≡ is.target_of at (decoded word) }
{
    target_for(at, decode(word)?)
}
