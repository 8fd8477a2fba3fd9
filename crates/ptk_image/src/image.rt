//! Images.

ghost use Rattle.std.specs.Prelude.{◌≡◌, ◌<◌, ◌≤◌, ◌%◌, ◌^◌, length};

use std::marker::Model;

/// What a guest starts with: the bytes of its text and data, the zeros that come after them, and its first pc.
pub struct Image {
    entry: u32,
    text: Vec<u8>,
    data: Vec<u8>,
    bss: u32,
}

// By hand: a function that drops an image calls this, and its proof does not spell out the drop of each part.
impl Drop for Image {
    fn drop(self) {
        let Image {
            entry,
            text,
            data,
            bss,
        } = self;
    }
}

impl Model for Image {
    ghost use Rattle.ptk_words.specs.Image.{ImageParts};
    ghost use Rattle.ptk_image.specs.Images.{IsImage};

    ghost Value = { ImageParts };

    ghost view = { λ a. record { entry = a.entry; text = a.text.items; «data» = a.«data».items; bss = a.bss } };

    ghost invariant = { λ a. IsImage (record { entry = a.entry; text = a.text.items; «data» = a.«data».items; bss = a.bss }) };
}

impl Image {
    /// The image of these parts. The text is whole words, the entry is the offset of one of them or the text's end, and
    /// both lengths are below 2^32.
    pub fn new(entry: u32, text: Vec<u8>, data: Vec<u8>, bss: u32) -> Image
        requires aligned { entry % 4 ≡ 0 }
        requires inside { entry ≤ length text.items }
        requires whole { length text.items % 4 ≡ 0 }
        requires text_fits { length text.items < 2 ^ 32 }
        requires data_fits { length «data».items < 2 ^ 32 }
        ensures { result ≡ record { entry = entry; text = text.items; «data» = «data».items; bss = bss } }
    {
        Image {
            entry,
            text,
            data,
            bss,
        }
    }

    /// The first pc: an offset into the text that is a multiple of 4, or the text's end.
    pub fn entry(&self) -> u32
        ensures value { result ≡ self.now.entry }
        ensures aligned { self.now.entry % 4 ≡ 0 }
        ensures inside { self.now.entry ≤ length self.now.text }
    {
        let _text = &self.text;
        self.entry
    }

    /// The bytes of the text, whole words, which go to address 0.
    pub fn text(&self) -> &[u8]
        ensures value { result.now ≡ self.now.text }
        ensures whole { length self.now.text % 4 ≡ 0 }
        ensures fits { length self.now.text < 2 ^ 32 }
    {
        self.text.as_slice()
    }

    /// The bytes of the data, which go behind the text.
    pub fn data(&self) -> &[u8]
        ensures value { result.now ≡ self.now.«data» }
        ensures fits { length self.now.«data» < 2 ^ 32 }
    {
        self.data.as_slice()
    }

    /// How many zeros come behind the data.
    pub fn bss(&self) -> u32
        ensures value { result ≡ self.now.bss }
    {
        self.bss
    }
}
