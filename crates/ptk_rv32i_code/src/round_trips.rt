//! Decoding and encoding undo each other.

ghost use Rattle.std.specs.Prelude.{◌≡◌, Some, option_map};
ghost use Rattle.ptk_rv32i_code.specs.Coding.{decoded};

use crate::decoding::decode;
use crate::encoding::encode;
use crate::instr::Instr;

/// The word that the instruction of this word is encoded to, which is this word; None where it is no instruction.
pub fn word_again(word: u32) -> Option<u32>
    ensures { result ≡ option_map (λ _. word) (decoded word) }
{
    let instr = decode(word)?;
    Some(encode(&instr))
}

/// The instruction that the word of this instruction is decoded to, which is this instruction.
pub fn instr_again(instr: &Instr) -> Option<Instr>
    ensures { result ≡ Some instr.now }
{
    decode(encode(instr))
}
