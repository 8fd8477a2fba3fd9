//! Windows.

ghost use Rattle.std.specs.Prelude.{◌≡◌, ◌+◌};

use ptk_words::PartId;

/// A part of the frame that is one partition's.
#[derive(Clone, Copy, PartialEq, Eq)]
pub struct Window {
    /// The tick of the frame at which it begins.
    pub start: u32,
    /// How many ticks it has.
    pub length: u32,
    /// The partition whose it is.
    pub partition: PartId,
}

impl Window {
    /// The first tick of the frame after it.
    pub fn end(&self) -> u64
        ensures { result ≡ self.now.start + self.now.length }
    {
        u64::from(self.start) + u64::from(self.length)
    }
}
