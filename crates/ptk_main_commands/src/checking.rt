//! `check`: whether a configuration and the images that it names are in order.

ghost use Rattle.std.specs.Prelude.{◌≢◌};
ghost use Rattle.ptk_main_tools.specs.Statuses.{status_number};
ghost use Rattle.ptk_main_tools.specs.declared.status.ExitStatus.TheVariants.{Usage};

use crate::explaining::end_explained;
use ptk_config::Config;
use ptk_main_answers::{Files, check_document, check_with, explain_with};
use ptk_main_line::{CheckOptions, Format};
use ptk_main_tools::{Fault, config_of, end_flushed, images_of, tell_read, text_in};
use std::alloc::Global;
use std::io::Write;

/// Checks the configuration in a file, writes what is asked for of it, and gives the number of the status.
pub(crate) fn check<W: Write>(rt: &HostRuntime, options: CheckOptions<'_>, out: &mut W) -> u8
    ensures { result ≢ status_number Usage }
{
    let text = match text_in(rt, options.file) {
        Ok(text) => text,
        Err(fault) => return tell_read(rt, &fault, None, options.explain),
    };
    let text = text.as_str();
    match config_of(rt, text) {
        Ok(config) => {
            let outcome = check_in_form(rt, text, &config, options, out);
            end_explained(rt, &config, outcome, options.root, options.explain, out)
        }
        Err(fault) => {
            let fault = refusal_in_form(rt.alloc(), text, fault, options, out);
            end_flushed(rt, Err(fault), out)
        }
    }
}

// Writes what a check says of a configuration, in the form that is asked for.
fn check_in_form<'a, W: Write>(
    rt: &HostRuntime,
    text: &str,
    config: &'a Config,
    options: CheckOptions<'_>,
    out: &mut W,
) -> Result<(), Fault<'a>> {
    match options.format {
        Format::Text => check_config(rt, text, config, options, out),
        Format::Json => {
            let files = images_of(rt, config, options.root)?;
            put_object(rt.alloc(), text, config, &files, out)
        }
    }
}

// The fault of a refused text, after what is asked for of it is written; that of the host if this can't be written.
fn refusal_in_form<W: Write>(
    alloc: Global,
    text: &str,
    fault: Fault<'static>,
    options: CheckOptions<'_>,
    out: &mut W,
) -> Fault<'static> {
    match options.format {
        Format::Text if options.explain => refusal_explained(alloc, text, fault, out),
        Format::Text => fault,
        Format::Json => refusal_json(alloc, text, fault, out),
    }
}

/// Writes what a check says in lines, on request after what the configuration has with its images. The first fault, as
/// an error: an image that is not there or can't be read, is no image, or does not fit; memory ran out, or the writer
/// failed.
pub fn check_config<'a, W: Write>(
    rt: &HostRuntime,
    text: &str,
    config: &'a Config,
    options: CheckOptions<'_>,
    out: &mut W,
) -> Result<(), Fault<'a>> {
    let files = images_of(rt, config, options.root)?;
    if options.explain {
        explain_with(rt.alloc(), text, &files, out)?;
    }
    check_with(rt.alloc(), config, &files, out)
}

// Writes what a check says as a JSON object, with the explanation, asked for or not. The first fault, as an error,
// after its object.
fn put_object<'a, W: Write>(
    alloc: Global,
    text: &str,
    config: &'a Config,
    files: &Files,
    out: &mut W,
) -> Result<(), Fault<'a>> {
    let words = explanation(alloc, text, files)?;
    let mut line = Vec::new(alloc);
    match check_with(alloc, config, files, &mut line) {
        Ok(()) => check_document(alloc, None, words.as_str(), out),
        Err(Fault::NoMemory | Fault::WriteFailed) => Err(Fault::NoMemory),
        Err(fault) => {
            check_document(alloc, Some(&fault), words.as_str(), out)?;
            Err(fault)
        }
    }
}

/// The fault of a refused text, after where and why it is refused is written; that of the host if these words can't
/// be written. Out of memory says nothing of the text, and comes alone.
pub fn refusal_explained<W: Write>(
    alloc: Global,
    text: &str,
    fault: Fault<'static>,
    out: &mut W,
) -> Fault<'static> {
    if let Fault::NoMemory = fault {
        return fault;
    }
    let files = Files::new(alloc);
    match explain_with(alloc, text, &files, out) {
        Ok(_) => fault,
        Err(failure) => failure,
    }
}

// The fault of a refused text, after the JSON object of the refusal is written; that of the host if it can't be
// written. Out of memory says nothing of the text, and comes alone.
fn refusal_json<W: Write>(
    alloc: Global,
    text: &str,
    fault: Fault<'static>,
    out: &mut W,
) -> Fault<'static> {
    if let Fault::NoMemory = fault {
        return fault;
    }
    let files = Files::new(alloc);
    let words = match explanation(alloc, text, &files) {
        Ok(words) => words,
        Err(failure) => return failure,
    };
    match check_document(alloc, Some(&fault), words.as_str(), out) {
        Ok(()) => fault,
        Err(failure) => failure,
    }
}

// What `check --explain` says of a text. A write of it into memory fails only if memory runs out.
fn explanation(alloc: Global, text: &str, files: &Files) -> Result<String, Fault<'static>> {
    let mut bytes = Vec::new(alloc);
    if explain_with(alloc, text, files, &mut bytes).is_err() {
        return Err(Fault::NoMemory);
    }
    match String::from_utf8(bytes) {
        Ok(words) => Ok(words),
        Err(_) => Err(Fault::NotText("the explanation")),
    }
}
