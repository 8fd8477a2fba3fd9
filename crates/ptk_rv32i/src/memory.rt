//! Loads and stores on a list of bytes.

ghost use Rattle.std.specs.Prelude.{◌≡◌, ◌≤◌, ◌<◌, ◌+◌, length, Ok, IfOk, IfErr};
ghost use Rattle.std.specs.Result.{result_map_both};
ghost use Rattle.ptk_rv32i.specs.Effects.{place_of, loaded, stored};

use crate::bytes::{read_byte, read_half, write_byte, write_half, write_word};
use crate::values::{extend_8, extend_16};
use ptk_rv32i_code::{LoadKind, StoreKind};
use ptk_words::{FaultKind, read_word};

/// Where an access of this many bytes begins; a misaligned address is tested before the range.
#[inline(always)]
fn place(memory: &[u8], address: u32, size: u32, outside: FaultKind) -> Result<usize, FaultKind>
    requires { 0 < size }
    ensures place { result ≡ place_of memory.now address size outside }
    ensures inside { IfOk result (λ at. at + size ≤ length memory.now) }
{
    if address % size != 0 {
        return Err(FaultKind::Misaligned);
    }
    let at = address as usize;
    if memory.len() < at + size as usize {
        return Err(outside);
    }
    Ok(at)
}

/// What a load gives.
#[inline(always)]
pub fn load(memory: &[u8], kind: LoadKind, address: u32) -> Result<u32, FaultKind>
    ensures { result ≡ loaded kind memory.now address }
{
    Ok(match kind {
        LoadKind::Byte => extend_8(read_byte(memory, place(memory, address, 1, FaultKind::Load)?)),
        LoadKind::Half => extend_16(read_half(memory, place(memory, address, 2, FaultKind::Load)?)),
        LoadKind::Word => read_word(memory, place(memory, address, 4, FaultKind::Load)?),
        LoadKind::ByteUnsigned => read_byte(memory, place(memory, address, 1, FaultKind::Load)?),
        LoadKind::HalfUnsigned => read_half(memory, place(memory, address, 2, FaultKind::Load)?),
    })
}

/// Carries out a store; a fault leaves the memory as it was.
#[inline(always)]
pub fn store(memory: &mut [u8], kind: StoreKind, address: u32, value: u32) -> Result<(), FaultKind>
    ensures stored { result_map_both (λ _. memory.new) (λ kind. kind) result ≡ stored kind memory.old address value }
    ensures kept { IfErr result (λ _. memory.new ≡ memory.old) }
{
    match kind {
        StoreKind::Byte => {
            let at = place(memory, address, 1, FaultKind::Store)?;
            write_byte(memory, at, value);
        }
        StoreKind::Half => {
            let at = place(memory, address, 2, FaultKind::Store)?;
            write_half(memory, at, value);
        }
        StoreKind::Word => {
            let at = place(memory, address, 4, FaultKind::Store)?;
            write_word(memory, at, value);
        }
    }
    Ok(())
}
