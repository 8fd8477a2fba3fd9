//! Bytes and halves read, and bytes, halves and words written, least byte first.

ghost use Rattle.std.specs.Prelude.{◌≡◌, ◌≤◌, ◌+◌, length};
ghost use Rattle.std.specs.Int.{w8, w16, w32, from_le_bytes, to_le_bytes};
ghost use Rattle.ptk_words.specs.Words.{bytes_at, with_bytes};

/// The byte at an index.
#[inline(always)]
pub fn read_byte(memory: &[u8], at: usize) -> u32
    requires { at + 1 ≤ length memory.now }
    ensures { result ≡ from_le_bytes w8 (bytes_at memory.now at 1) }
{
    u32::from(memory[at])
}

/// The half at an index.
#[inline(always)]
pub fn read_half(memory: &[u8], at: usize) -> u32
    requires { at + 2 ≤ length memory.now }
    ensures { result ≡ from_le_bytes w16 (bytes_at memory.now at 2) }
{
    u32::from(u16::from_le_bytes([memory[at], memory[at + 1]]))
}

/// Writes the low byte of a word at an index.
#[inline(always)]
pub fn write_byte(memory: &mut [u8], at: usize, value: u32)
    requires { at + 1 ≤ length memory.old }
    ensures { memory.new ≡ with_bytes memory.old at (to_le_bytes w8 value) }
{
    memory[at..at + 1].copy_from_slice(&[(value & 0xff) as u8]);
}

/// Writes the low half of a word at an index.
#[inline(always)]
pub fn write_half(memory: &mut [u8], at: usize, value: u32)
    requires { at + 2 ≤ length memory.old }
    ensures { memory.new ≡ with_bytes memory.old at (to_le_bytes w16 value) }
{
    memory[at..at + 2].copy_from_slice(&((value & 0xffff) as u16).to_le_bytes());
}

/// Writes a word at an index.
#[inline(always)]
pub fn write_word(memory: &mut [u8], at: usize, value: u32)
    requires { at + 4 ≤ length memory.old }
    ensures { memory.new ≡ with_bytes memory.old at (to_le_bytes w32 value) }
{
    memory[at..at + 4].copy_from_slice(&value.to_le_bytes());
}
