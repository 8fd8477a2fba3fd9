//! Where and why a text is refused.

ghost use Rattle.std.specs.Prelude.{◌≡◌, ◌≢◌, None, IfOk, IfErr, option_map};
ghost use Rattle.std.specs.Result.{result_err};
ghost use Rattle.toml.specs.Errors.{IsWithin};
ghost use Rattle.ptk_config.specs.Configuration.{configuration_in};
ghost use Rattle.ptk_config_explain.specs.declared.refusal.ExplainFault.TheVariants as failure;

use crate::nearest::nearest_unknown;
use crate::reason::{name_of, reason_of};
use crate::statements::{line_after, line_of};
use crate::target::Target;
use crate::words::Located;
use ptk_config::{ConfigFault, Place, Refusal, first_refusal};
use std::alloc::{AllocError, Global};
use std::io;
use std::io::Write;
use thiserror::Error;
use toml::Table;
use toml_parser::ErrorKind;

/// Why no explanation was given.
#[derive(Clone, Copy, Debug, PartialEq, Eq, Error)]
pub enum ExplainFault {
    /// Out of memory.
    #[error("out of memory")]
    Memory,
    /// The writer failed.
    #[error("write failed")]
    Write,
}

impl From<AllocError> for ExplainFault {
    ghost from_gives = { λ _ fault. fault ≡ failure.Memory };

    fn from(_error: AllocError) -> ExplainFault {
        ExplainFault::Memory
    }
}

impl From<io::Error> for ExplainFault {
    ghost from_gives = { λ _ fault. fault ≡ failure.Write };

    fn from(_error: io::Error) -> ExplainFault {
        ExplainFault::Write
    }
}

/// Writes where and why a configuration is refused, and nothing if it is accepted: of a document the place and the
/// reason in words, and the line of the text; of another text its line and why it is none. Returns its first fault with
/// the place, None if the text is accepted. An error if memory was refused, with the writer as it was, or if the writer
/// fails; how much of the words it then has is not said.
pub fn explain_refusal<W: Write>(
    alloc: Global,
    text: &str,
    out: &mut W,
) -> Result<Option<Refusal>, ExplainFault>
    ensures fault { IfOk result
        (λ found. option_map (λ r. r.fault) found ≡ result_err (configuration_in text.now)) }
    ensures accepted { IfOk result (λ found. found ≡ None → out.new ≡ out.old) }
    ensures silent { IfErr result (λ fault. fault ≢ ExplainFault.Write → out.new ≡ out.old) }
{
    let found = first_refusal(alloc, text)?;
    if let Some(refusal) = found {
        match toml::table_from_str(alloc, text) {
            Ok(document) => put_refusal(alloc, text, &document, &refusal, out)?,
            Err(error) => put_no_document(text, &error, out)?,
        }
    }
    Ok(found)
}

/// Writes the refusal of this document, which the text states.
fn put_refusal<W: Write>(
    alloc: Global,
    text: &str,
    document: &Table,
    refusal: &Refusal,
    out: &mut W,
) -> Result<(), ExplainFault>
    ensures silent { IfErr result (λ fault. fault ≢ ExplainFault.Write → out.new ≡ out.old) }
{
    let reason = reason_of(alloc, document, refusal)?;
    let found = line_of_refusal(alloc, text, document, refusal)?;
    let place = Located {
        place: refusal.place,
        name: name_of(document, refusal.place),
    };
    writeln!(out, "{place}: {reason}")?;
    match found {
        Some((line, Some(key))) => writeln!(out, "  line {line} has key {key}")?,
        Some((line, None)) => writeln!(out, "  line {line}")?,
        None => {}
    }
    Ok(())
}

/// The line of the text, counted from 1, that states what is refused, None if that is the document; of a missing key
/// the line of an unknown one that is near to it, with that one, if there is one. An error if memory was refused.
fn line_of_refusal<'a>(
    alloc: Global,
    text: &str,
    document: &'a Table,
    refusal: &Refusal,
) -> Result<Option<(usize, Option<&'a str>)>, AllocError> {
    if let (Place::Key(table, missing), ConfigFault::MissingKey) = (refusal.place, refusal.fault) {
        if let Some(key) = nearest_unknown(alloc, document, table, missing)? {
            let line = line_of(alloc, text, &Target::UnknownKey(table, key))?;
            return Ok(Some((line, Some(key))));
        }
    }
    match Target::of(document, refusal) {
        Some(target) => Ok(Some((line_of(alloc, text, &target)?, None))),
        None => Ok(None),
    }
}

/// Writes that a text is no TOML document, for this error in reading it, with the line of the text at which the reader
/// stopped. Refused memory says nothing of the text, and nothing is written.
fn put_no_document<W: Write>(
    text: &str,
    error: &toml::de::Error,
    out: &mut W,
) -> Result<(), ExplainFault>
    requires { IsWithin text.now error.now }
    ensures silent { IfErr result (λ fault. fault ≢ ExplainFault.Write → out.new ≡ out.old) }
{
    match error.span() {
        Some(span) => {
            let line = line_after(&text.as_bytes()[..span.start]);
            let words = words_of(error);
            writeln!(out, "the text, line {line}: {words}")?;
            Ok(())
        }
        None => Err(ExplainFault::Memory),
    }
}

/// Why a text is no document, in words.
fn words_of(error: &toml::de::Error) -> &'static str {
    let message = error.message();
    if message == ErrorKind::DuplicateKey.description() {
        "a key is there twice"
    } else if message == ErrorKind::Overflow.description() {
        "a number is too large"
    } else {
        "not TOML"
    }
}
