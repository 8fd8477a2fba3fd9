//! How the images of two partitions differ.

ghost use Rattle.std.specs.Prelude.{◌≡◌, MatchOption, option_map};
ghost use Rattle.ptk_impact.specs.Changes.{IsImageChange};

use crate::lists::first_other;

/// How the bytes of the images differ.
#[derive(Clone, Copy)]
pub enum ImageChange {
    /// The new partition has an image, and the old one has none.
    Added,
    /// The old partition has an image, and the new one has none.
    Removed,
    /// Both have one, and this is the first offset at which their bytes differ: the length of one that is the beginning
    /// of the other.
    Bytes(usize),
}

impl ImageChange {
    /// How the bytes differ. None if they are the same, or neither partition has any.
    pub(crate) fn between(old: Option<&[u8]>, new: Option<&[u8]>) -> Option<ImageChange>
        ensures { let before = option_map (λ bytes. bytes.now) old.entry in
            let after = option_map (λ bytes. bytes.now) new.entry in
            MatchOption result (before ≡ after) (IsImageChange before after) }
    {
        match (old, new) {
            (None, None) => None,
            (None, Some(_)) => Some(ImageChange::Added),
            (Some(_), None) => Some(ImageChange::Removed),
            (Some(old), Some(new)) => first_other(old, new).map(ImageChange::Bytes),
        }
    }
}
