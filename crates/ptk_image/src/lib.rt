#![tactic(auto)]

//! Images of guests, read from bytes and written as bytes, and the files that a system is booted with, by name.
//!
//! - `read_image` returns the image that the bytes spell, or the first failed check.
//! - `write_image` writes the one spelling.
//! - `reads_back` and `writes_back`.
//! - `image_fault_words` returns the words of a fault.
//! - `Files::add` gives a name its bytes and leaves every other name's. A refused one changes nothing.
//!
//! Below is `ptk_words`, whose definitions say which bytes spell an image; above are the assembler and the system.
//! Costly to prove is `writes_back`, that no other bytes spell an image (`proofs/Spelling`).

mod file;
mod files;
mod image;
mod laws;
mod reading;
mod words;
mod writing;

pub use files::Files;
pub use image::Image;
pub use laws::{reads_back, writes_back};
pub use ptk_words::ImageFault;
pub use reading::read_image;
pub use words::image_fault_words;
pub use writing::write_image;

/// The bytes with which an image begins.
const MAGIC: [u8; 4] = *b"PTKI";

/// The version of the format.
const VERSION: u32 = 1;

/// Bytes of the header.
const HEADER_LENGTH: usize = 24;
