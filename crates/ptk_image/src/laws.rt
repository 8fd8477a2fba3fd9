//! Each of reading and writing is the other's inverse.

ghost use Rattle.std.specs.Prelude.{◌≡◌};
ghost use Rattle.ptk_words.specs.Image.{ImageParts, image_bytes, image_of};

use crate::image::Image;

/// The bytes of an image are read as that image.
pub fn reads_back(image: &Image)
    ensures { image_of (image_bytes image.now) ≡ Ok image.now }
{
    let (_entry, _text, _data, _bss) = (image.entry(), image.text(), image.data(), image.bss());
}

/// Bytes that are read as an image are its spelling: no other bytes spell it.
pub fn writes_back(bytes: &[u8])
    ensures { (image : ImageParts) → image_of bytes.now ≡ Ok image → image_bytes image ≡ bytes.now }
{
    let _bytes = bytes;
}
