//! `asm`: the image of a source.

use crate::fault::{Fault, fault_line};
use crate::files::{is_one_file, write_file};
use crate::places::put_place;
use crate::reading::text_in;
use crate::status::ExitStatus;
use crate::telling::{put_reason, tell, tell_read, usage};
use ptk_asm::{AsmFault, assemble, label_table};
use ptk_image::{Image, write_image};
use ptk_main_line::{AsmOptions, one_file};
use std::alloc::AllocError;
use std::io;

/// Why the files of a source are not written.
#[derive(Drop)]
enum AsmFailure<'p> {
    /// The source is refused.
    Source(AsmFault),
    /// Memory was refused.
    Memory,
    /// The file of this path can't be written, for the system's reason.
    File(&'p str, io::Error),
}

impl From<AllocError> for AsmFailure<'_> {
    fn from(_error: AllocError) -> Self {
        AsmFailure::Memory
    }
}

/// Writes the image of a source into a file, and on request its labels into another, and gives the number of the
/// status. Nothing is written if the source is refused, or two of the files are one. The labels are written first:
/// if the image can't be written then, the labels stay.
pub fn asm(rt: &HostRuntime, options: AsmOptions<'_>) -> u8 {
    if are_mixed(rt, options) {
        return refuse_mixed(rt);
    }
    match text_in(rt, options.source) {
        Ok(text) => asm_text(rt, text.as_str(), options),
        Err(fault) => tell_read(rt, &fault, None, options.explain),
    }
}

// Whether two of the files are one.
fn are_mixed(rt: &HostRuntime, options: AsmOptions<'_>) -> bool {
    let (source, image) = (options.source, options.image);
    is_one_file(rt, source, image)
        || match options.symbols {
            Some(labels) => is_one_file(rt, source, labels) || is_one_file(rt, image, labels),
            None => false,
        }
}

// The status of a command line of which two files are one.
fn refuse_mixed(rt: &HostRuntime) -> u8 {
    match one_file(rt.alloc()) {
        Ok(error) => usage(rt, &error),
        Err(_) => tell(rt, &Fault::NoMemory),
    }
}

// Writes the image of a text, and its labels. Nothing is written if the text is refused.
fn asm_text(rt: &HostRuntime, text: &str, options: AsmOptions<'_>) -> u8 {
    match put_files(rt, text, options) {
        Ok(()) => ExitStatus::Done.number(),
        Err(AsmFailure::Source(fault)) => refused(rt, text, options.explain, &fault),
        Err(AsmFailure::Memory) => tell(rt, &Fault::NoMemory),
        Err(AsmFailure::File(path, error)) => unwritten(rt, path, options.explain, &error),
    }
}

// Writes the labels of a text into their file, if one is named, and then its image.
fn put_files<'p>(
    rt: &HostRuntime,
    text: &str,
    options: AsmOptions<'p>,
) -> Result<(), AsmFailure<'p>> {
    let image = match assemble(rt.alloc(), text) {
        Ok(image) => image,
        Err(fault) => return Err(AsmFailure::Source(fault)),
    };
    if let Some(target) = options.symbols {
        put_labels(rt, text, target)?;
    }
    put_image(rt, &image, options.image)
}

// Writes the labels of a text into a file.
fn put_labels<'p>(rt: &HostRuntime, text: &str, target: &'p str) -> Result<(), AsmFailure<'p>> {
    match label_table(rt.alloc(), text) {
        Ok(table) => put_file(rt, target, table.as_bytes()),
        Err(fault) => Err(AsmFailure::Source(fault)),
    }
}

// Writes an image into a file.
fn put_image<'p>(rt: &HostRuntime, image: &Image, target: &'p str) -> Result<(), AsmFailure<'p>> {
    let bytes = write_image(rt.alloc(), image)?;
    put_file(rt, target, bytes.as_slice())
}

// Writes bytes into a file.
fn put_file<'p>(rt: &HostRuntime, path: &'p str, bytes: &[u8]) -> Result<(), AsmFailure<'p>> {
    match write_file(rt, path, bytes) {
        Ok(()) => Ok(()),
        Err(error) => Err(AsmFailure::File(path, error)),
    }
}

// The status of a file that can't be written, whose line goes to standard error, and after it on request the path and
// the system's reason.
fn unwritten(rt: &HostRuntime, path: &str, explain: bool, error: &io::Error) -> u8 {
    let status = tell(rt, &Fault::WriteFailed);
    if explain {
        put_reason(rt, path, error);
    }
    status
}

// The status of a refused source, whose line goes to standard error, and after it on request where and why. Out of
// memory says nothing of the source.
fn refused(rt: &HostRuntime, text: &str, explain: bool, refusal: &AsmFault) -> u8 {
    let fault = Fault::of_asm(refusal.line as u64, refusal.kind.number());
    let _told = fault_line(&fault, &mut rt.stderr());
    if explain && fault != Fault::NoMemory {
        let _told = put_place(text.as_bytes(), refusal, &mut rt.stderr());
    }
    fault.status().number()
}
