//! Writing an image.

ghost use Rattle.std.specs.Prelude.{◌≡◌, ◌++◌, IfOk, OnOk};
ghost use Rattle.ptk_words.specs.Image.{image_bytes, spelled};

use crate::image::Image;
use crate::{MAGIC, VERSION};
use byteorder::{ByteOrder, LittleEndian};
use std::alloc::{AllocError, Global};

/// Writes the bytes of an image, in memory of their own: the one spelling that `read_image` reads.
pub fn write_image(alloc: Global, image: &Image) -> Result<Vec<u8>, AllocError>
    ensures { IfOk result (λ bytes. bytes.items ≡ image_bytes image.now) }
{
    let text = image.text();
    let data = image.data();
    let mut bytes = Vec::from_slice(alloc, &MAGIC)?;
    push_word(&mut bytes, VERSION)?;
    push_word(&mut bytes, image.entry())?;
    push_word(&mut bytes, text.len() as u32)?;
    push_word(&mut bytes, data.len() as u32)?;
    push_word(&mut bytes, image.bss())?;
    bytes.extend_from_slice(text)?;
    bytes.extend_from_slice(data)?;
    Ok(bytes)
}

// Appends a word, its least byte first.
fn push_word(bytes: &mut Vec<u8>, word: u32) -> Result<(), AllocError>
    ensures { OnOk result (bytes.new.items ≡ bytes.old.items ++ spelled word) }
{
    let mut word_bytes = [0u8; 4];
    LittleEndian::write_u32(&mut word_bytes, word);
    bytes.extend_from_slice(&word_bytes)
}
