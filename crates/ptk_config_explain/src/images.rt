//! The verdicts on the images of an accepted configuration, and the first image that is refused.

ghost use Rattle.std.specs.Prelude.{◌≡◌, ◌<◌, IfOk, IfErr, IfSome, length, vec_len};
ghost use Rattle.ptk_words.specs.Ranges.{IsWithinLimits};

use crate::refusal::ExplainFault;
use ptk_config::Section;
use ptk_image::{Files, Image, image_fault_words, read_image};
use ptk_words::{ImageFault, Limits};
use std::alloc::{AllocError, Global};
use std::fmt;
use std::io::Write;

/// The verdict on the image of a section.
#[derive(Clone, Copy)]
pub(crate) enum Outcome {
    /// The section names none; this many bytes are free below the stacks.
    Unnamed {
        free: u64,
    },
    /// No file has its name.
    Missing,
    /// The bytes of its file are no image.
    Refused(ImageFault),
    /// It fills more bytes than there is room for below the stacks.
    Unfit {
        filled: u64,
        room: u64,
    },
    /// It is accepted: its bytes of text, data and bss, and those that are free below the stacks.
    Accepted {
        text: usize,
        data: usize,
        bss: u32,
        free: u64,
    },
}

impl Outcome {
    /// The verdict on an image, if there is room for this many bytes below the stacks.
    fn of(image: &Image, room: u64) -> Outcome {
        let (text, data, bss) = (image.text().len(), image.data().len(), image.bss());
        let filled = text as u64 + data as u64 + u64::from(bss);
        if filled <= room {
            Outcome::Accepted {
                text,
                data,
                bss,
                free: room - filled,
            }
        } else {
            Outcome::Unfit { filled, room }
        }
    }

    // Whether the image's file is not there.
    fn is_missing(self) -> bool {
        match self {
            Outcome::Missing => true,
            Outcome::Unnamed { .. }
            | Outcome::Refused(_)
            | Outcome::Unfit { .. }
            | Outcome::Accepted { .. } => false,
        }
    }

    // Whether the file is there, and is no image or one that does not fit.
    fn is_refused(self) -> bool {
        match self {
            Outcome::Refused(_) | Outcome::Unfit { .. } => true,
            Outcome::Unnamed { .. } | Outcome::Missing | Outcome::Accepted { .. } => false,
        }
    }
}

impl fmt::Display for Outcome {
    fn fmt<W: fmt::Write>(&self, f: &mut fmt::Formatter<W>) -> fmt::Result {
        match *self {
            Outcome::Unnamed { free } => write!(f, "{free} bytes free below the stacks"),
            Outcome::Missing => f.write_str("no such file"),
            Outcome::Refused(fault) => f.write_str(image_fault_words(fault)),
            Outcome::Unfit { filled, room } => {
                write!(f, "{filled} bytes where {room} are below the stacks")
            }
            Outcome::Accepted {
                text,
                data,
                bss,
                free,
            } => {
                write!(
                    f,
                    "text {text}, data {data}, bss {bss}; {free} bytes free below the stacks"
                )
            }
        }
    }
}

/// How many bytes of memory lie below the stacks.
fn room_below_stacks(limits: &Limits) -> u64
    requires { IsWithinLimits limits.now }
{
    let stacks = u64::from(limits.threads) * u64::from(limits.stack);
    u64::from(limits.memory) - stacks
}

/// The verdict on the image of a section with these files. An error if memory was refused.
fn outcome_in(alloc: Global, section: &Section, files: &Files) -> Result<Outcome, AllocError> {
    let room = room_below_stacks(&section.limits());
    let Some(name) = section.image() else {
        return Ok(Outcome::Unnamed { free: room });
    };
    match files.get(name) {
        Some(bytes) => match read_image(alloc, bytes) {
            Ok(image) => Ok(Outcome::of(&image, room)),
            Err(ImageFault::Memory) => Err(AllocError),
            Err(fault) => Ok(Outcome::Refused(fault)),
        },
        None => Ok(Outcome::Missing),
    }
}

/// The verdict on the image of each section with these files. An error if memory was refused.
pub(crate) fn outcomes_of(
    alloc: Global,
    sections: &[Section],
    files: &Files,
) -> Result<Vec<Outcome>, AllocError>
    ensures { IfOk result (λ outcomes. vec_len outcomes ≡ length sections.now) }
{
    let mut outcomes = Vec::new(alloc);
    for section in sections {
        outcomes.push(outcome_in(alloc, section, files)?)?;
    }
    Ok(outcomes)
}

/// The place, from 0, of the image that is refused first, in the order in which `ptk check` names it: the first whose
/// file is not there, and if every file is there, the first that is refused. None if every image is accepted.
pub(crate) fn first_refused(outcomes: &[Outcome]) -> Option<usize>
    ensures { IfSome result (λ place. place < length outcomes.now) }
{
    match outcomes.iter().position(|outcome| outcome.is_missing()) {
        Some(place) => Some(place),
        None => outcomes.iter().position(|outcome| outcome.is_refused()),
    }
}

/// Writes the verdict on the image of a section, with its name, and ends the line.
pub(crate) fn put_image<W: Write>(
    section: &Section,
    outcome: Outcome,
    out: &mut W,
) -> Result<(), ExplainFault>
    ensures { IfErr result (λ fault. fault ≡ ExplainFault.Write) }
{
    match section.image() {
        Some(name) => writeln!(out, "image {name}: {outcome}")?,
        None => writeln!(out, "no image; {outcome}")?,
    }
    Ok(())
}
