//! What is wanted follows from the formats, the calls and their costs; it was worked out by hand.

mod calls;
mod images;
mod refusals;
mod storms;
mod texts;

use std::alloc::{AllocError, Global};

/// The configuration of one partition that has the whole processor, in windows of 20 ticks.
const FIRST_PATH: &str = "frame = 20
[[partition]]
name = \"p\"
image = \"p.img\"
memory = 4096
threads = 4
stack = 256
mutexes = 4
conds = 4
keys = 4
interval = 100
ring = 16
output = 64
trace = 16
[[window]]
start = 0
length = 20
partition = \"p\"
";

/// Puts `h` and `i` and exits with 0. Its image has 60 bytes: 24 of the header, then nine words.
const HELLO: &str = "_start: li a7, 1
        li a0, 104  # h
        ecall
        li a7, 1
        li a0, 105  # i
        ecall
        li a7, 0
        li a0, 0
        ecall
";

// The bytes with another one at a place, if they have it.
fn changed(alloc: Global, bytes: &[u8], place: usize, byte: u8) -> Result<Vec<u8>, AllocError> {
    let mut all = Vec::from_slice(alloc, bytes)?;
    if place < all.len() {
        all[place] = byte;
    }
    Ok(all)
}
