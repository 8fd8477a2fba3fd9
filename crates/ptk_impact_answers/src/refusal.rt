//! Why an image is refused.

ghost use Rattle.ptk_impact.specs.Views.{IsPartition};

use ptk_image::{Image, read_image};
use ptk_impact::{Impact, Subject};
use ptk_words::{ImageFault, Limits};
use std::alloc::{AllocError, Global};

/// Why boot refuses the image of a partition, None if it does not or the partition is not changed. An error if memory
/// ran out.
pub(crate) fn refusal_if_changed(
    alloc: Global,
    impact: &Impact,
    subject: &Subject<'_>,
) -> Result<Option<ImageFault>, AllocError>
    requires { IsPartition subject.now }
{
    match impact {
        Impact::Changed(_) => refusal_of(alloc, subject.section().limits(), subject.image()),
        Impact::Unchanged | Impact::UnchangedButForTrace(_) => Ok(None),
    }
}

/// Why boot refuses these bytes as the image of a section with these numbers, None if it accepts them or there are
/// none. An error if memory ran out.
fn refusal_of(
    alloc: Global,
    limits: Limits,
    bytes: Option<&[u8]>,
) -> Result<Option<ImageFault>, AllocError> {
    let Some(bytes) = bytes else {
        return Ok(None);
    };
    match read_image(alloc, bytes) {
        Ok(image) if fits(limits, &image) => Ok(None),
        Ok(_image) => Ok(Some(ImageFault::Unfit)),
        Err(ImageFault::Memory) => Err(AllocError),
        Err(fault) => Ok(Some(fault)),
    }
}

/// Whether text, data and bss lie below all stacks.
fn fits(limits: Limits, image: &Image) -> bool {
    let stacks = u64::from(limits.threads) * u64::from(limits.stack);
    let room = u64::from(limits.memory).saturating_sub(stacks);
    let (text, initial) = (image.text(), image.data());
    text.len() as u64 + initial.len() as u64 + u64::from(image.bss()) <= room
}
