//! What is read of a partition's memory.

ghost use Rattle.std.specs.Prelude.{◌<◌, length};

use ptk_rv32i_code::{Instr, decode};
use ptk_system::System;
use ptk_words::{PartId, RA, ThreadNo};

/// The bytes of a word (RISC-V 1.5).
pub(crate) const WORD_BYTES: u32 = 4;

/// The word at an address, None if not all of its bytes are in the partition's memory.
pub(crate) fn word_at(system: &System<'_>, p: PartId, address: u32) -> Option<u32>
    requires { p < length system.now.config.sections }
{
    Some(u32::from_le_bytes([
        system.byte(p, address)?,
        system.byte(p, address.wrapping_add(1))?,
        system.byte(p, address.wrapping_add(2))?,
        system.byte(p, address.wrapping_add(3))?,
    ]))
}

/// The address of the call to which the register ra of a thread returns: a jump before the address in ra, which sets
/// ra. None if ra holds no such address, or the thread has ended (RISC-V 2.5).
pub(crate) fn call_of(system: &System<'_>, p: PartId, t: ThreadNo) -> Option<u32>
    requires { p < length system.now.config.sections }
{
    call_before(system, p, system.register(p, t, RA)?)
}

/// The address of the jump before an address, which sets the register ra. None if no such jump is there.
pub(crate) fn call_before(system: &System<'_>, p: PartId, address: u32) -> Option<u32>
    requires { p < length system.now.config.sections }
{
    let call = address.wrapping_sub(WORD_BYTES);
    match decode(word_at(system, p, call)?)? {
        Instr::Jal { rd, .. } | Instr::Jalr { rd, .. } if rd.number() == RA => Some(call),
        _ => None,
    }
}
