//! Words in a memory of bytes, least byte first (RISC-V 2.6).

ghost use Rattle.std.specs.Prelude.{◌≡◌, ◌≤◌, ◌+◌, length};
ghost use Rattle.ptk_words.specs.Words.{word_at};

/// The word at an index. No hint stands here: LLVM makes one read of the four bytes only before it inlines.
pub fn read_word(memory: &[u8], at: usize) -> u32
    requires { at + 4 ≤ length memory.now }
    ensures { result ≡ word_at memory.now at }
{
    u32::from_le_bytes([memory[at], memory[at + 1], memory[at + 2], memory[at + 3]])
}
