//! Reading an image.

ghost use Rattle.std.specs.Prelude.{◌≡◌, ◌≢◌, ◌<◌, ◌≤◌, ◌+◌, ◌*◌, IfOk, IfErr, IsOk, length};
ghost use Rattle.ptk_words.specs.Image.{header_word, image_of};

use crate::image::Image;
use crate::{HEADER_LENGTH, MAGIC, VERSION};
use byteorder::{ByteOrder, LittleEndian};
use ptk_words::ImageFault;
use std::alloc::Global;

/// Reads an image: the bytes `PTKI`, the little-endian words version (1), entry, text length, data length and bss
/// length, the text, the data. The first failed check is the error: `Short` for fewer than 24 bytes, `Magic`,
/// `Version`, `Length` for a text length that is not a multiple of 4 or bytes after the header that are not exactly
/// text and data, `Entry` for one that is not a multiple of 4 or is above the text length. `Memory` comes only where
/// the bytes pass every check and there is no memory for a copy of text and data.
pub fn read_image(alloc: Global, bytes: &[u8]) -> Result<Image, ImageFault>
    ensures image { IfOk result (λ image. image_of bytes.now ≡ Ok image) }
    ensures fault { IfErr result (λ fault. fault ≢ ImageFault.Memory → image_of bytes.now ≡ Err fault) }
    ensures memory { IfErr result (λ fault. fault ≡ ImageFault.Memory → IsOk (image_of bytes.now)) }
{
    if bytes.len() < HEADER_LENGTH {
        return Err(ImageFault::Short);
    }
    if !bytes.starts_with(&MAGIC) {
        return Err(ImageFault::Magic);
    }
    let version = header_word(bytes, 0);
    if version != VERSION {
        return Err(ImageFault::Version);
    }
    let entry = header_word(bytes, 1);
    let text_length = header_word(bytes, 2);
    let data_length = header_word(bytes, 3);
    let bss = header_word(bytes, 4);
    let (_header, body) = bytes.split_at(HEADER_LENGTH);
    if text_length % 4 != 0 || body.len() as u64 != text_length as u64 + data_length as u64 {
        return Err(ImageFault::Length);
    }
    if entry % 4 != 0 || entry > text_length {
        return Err(ImageFault::Entry);
    }
    let cut = text_length as usize;
    let (text, data) = body.split_at(cut);
    let text = copied(alloc, text)?;
    let data = copied(alloc, data)?;
    Ok(Image::new(entry, text, data, bss))
}

// A word of the header, after the first four bytes.
fn header_word(bytes: &[u8], i: usize) -> u32
    requires long { 24 ≤ length bytes.now }
    requires inside { i < 5 }
    ensures { result ≡ header_word bytes.now i }
{
    let at = 4 + 4 * i;
    let word = &bytes[at..at + 4];
    LittleEndian::read_u32(word)
}

// The bytes in memory of their own.
fn copied(alloc: Global, bytes: &[u8]) -> Result<Vec<u8>, ImageFault>
    ensures copy { IfOk result (λ copy. copy.items ≡ bytes.now) }
    ensures fault { IfErr result (λ fault. fault ≡ ImageFault.Memory) }
{
    match Vec::from_slice(alloc, bytes) {
        Ok(copy) => Ok(copy),
        Err(_) => Err(ImageFault::Memory),
    }
}
