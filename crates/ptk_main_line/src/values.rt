//! The values of a subcommand's options in its matches.
ghost use Rattle.std.specs.Prelude.{◌≤◌, IfOk, IfSome};

use crate::deadlines::NamedDeadline;
use crate::kinds::FailOn;
use crate::requests::{Format, PictureFormat};
use clap::ArgMatches;
use clap::parser::ValueSource;
use std::fmt;

/// Why words that `clap` takes ask for nothing.
#[derive(Clone, Copy)]
pub(crate) enum NoRequest<'a> {
    /// There is no command of this program.
    NoCommand,
    /// The argument of this name has no value, or a number out of its range.
    NoValue(&'a str),
    /// A value is none of the words that its option takes.
    OtherWord {
        /// The option's long name.
        option: &'a str,
        /// The value.
        value: &'a str,
        /// The words that the option takes.
        words: &'static str,
    },
}

impl fmt::Display for NoRequest<'_> {
    fn fmt<W: fmt::Write>(&self, f: &mut fmt::Formatter<W>) -> fmt::Result {
        match *self {
            NoRequest::NoCommand => f.write_str("there is no command"),
            NoRequest::NoValue(name) => write!(f, "{name} has no value, or one out of its range"),
            NoRequest::OtherWord {
                option,
                value,
                words,
            } => write!(f, "the value '{value}' of --{option} is none of {words}"),
        }
    }
}

impl Format {
    /// The words of the forms.
    const WORDS: &'static str = "text, json";

    /// The form that a word names, None if it names none.
    fn named(word: &str) -> Option<Format> {
        match word {
            "text" => Some(Format::Text),
            "json" => Some(Format::Json),
            _other => None,
        }
    }
}

impl PictureFormat {
    /// The words of the forms.
    const WORDS: &'static str = "svg, vcd, json";

    /// The form that a word names, None if it names none.
    fn named(word: &str) -> Option<PictureFormat> {
        match word {
            "svg" => Some(PictureFormat::Svg),
            "vcd" => Some(PictureFormat::Vcd),
            "json" => Some(PictureFormat::Json),
            _other => None,
        }
    }
}

/// The text that has to be there.
pub(crate) fn text_in<'a>(found: &ArgMatches<'a>, id: &'a str) -> Result<&'a str, NoRequest<'a>> {
    match found.get_str(id) {
        Some(text) => Ok(text),
        None => Err(NoRequest::NoValue(id)),
    }
}

/// The text that may be left out.
pub(crate) fn option_in<'a>(found: &ArgMatches<'a>, id: &str) -> Option<&'a str> {
    found.get_str(id)
}

/// Whether the words have a flag.
pub(crate) fn has_flag(found: &ArgMatches, id: &str) -> bool {
    matches!(found.value_source(id), Some(ValueSource::CommandLine))
}

/// The number that has to be there, from `least` to `most`.
pub(crate) fn number_in<'a>(
    found: &ArgMatches<'a>,
    id: &'a str,
    least: u64,
    most: u64,
) -> Result<u64, NoRequest<'a>>
    ensures least { IfOk result (λ n. least ≤ n) }
    ensures most { IfOk result (λ n. n ≤ most) }
{
    match found.get_one::<u64>(id) {
        Some(number) if least <= number && number <= most => Ok(number),
        _ => Err(NoRequest::NoValue(id)),
    }
}

/// The number that may be left out, from `least` to `most` if it is there.
pub(crate) fn optional_number_in<'a>(
    found: &ArgMatches<'a>,
    id: &'a str,
    least: u64,
    most: u64,
) -> Result<Option<u64>, NoRequest<'a>>
    ensures least { IfOk result (λ number. IfSome number (λ n. least ≤ n)) }
    ensures most { IfOk result (λ number. IfSome number (λ n. n ≤ most)) }
{
    if found.get_str(id).is_none() {
        return Ok(None);
    }
    Ok(Some(number_in(found, id, least, most)?))
}

/// The form that `--format` names, `Format::Text` if it is not given.
pub(crate) fn format_in<'a>(found: &ArgMatches<'a>) -> Result<Format, NoRequest<'a>> {
    let Some(value) = found.get_str("format") else {
        return Ok(Format::Text);
    };
    match Format::named(value) {
        Some(format) => Ok(format),
        None => Err(other_word("format", value, Format::WORDS)),
    }
}

/// The form of a picture that `--format` names, `PictureFormat::Svg` if it is not given.
pub(crate) fn picture_format_in<'a>(
    found: &ArgMatches<'a>,
) -> Result<PictureFormat, NoRequest<'a>> {
    let Some(value) = found.get_str("format") else {
        return Ok(PictureFormat::Svg);
    };
    match PictureFormat::named(value) {
        Some(format) => Ok(format),
        None => Err(other_word("format", value, PictureFormat::WORDS)),
    }
}

/// The kinds that `--fail-on` names, none if it is not given.
pub(crate) fn kinds_in<'a>(found: &ArgMatches<'a>) -> Result<FailOn, NoRequest<'a>> {
    let Some(value) = found.get_str("fail-on") else {
        return Ok(FailOn::NONE);
    };
    match FailOn::named(value) {
        Some(kinds) => Ok(kinds),
        None => Err(other_word("fail-on", value, FailOn::WORDS)),
    }
}

/// The deadlines that `--deadline` names, as they are written.
pub(crate) fn deadlines_in<'a>(found: &ArgMatches<'a>) -> Result<Option<&'a str>, NoRequest<'a>> {
    let Some(value) = found.get_str("deadline") else {
        return Ok(None);
    };
    if NamedDeadline::are_named(value) {
        Ok(Some(value))
    } else {
        Err(other_word("deadline", value, NamedDeadline::FORM))
    }
}

/// That the value of an option is none of the words that it takes.
fn other_word<'a>(option: &'a str, value: &'a str, words: &'static str) -> NoRequest<'a> {
    NoRequest::OtherWord {
        option,
        value,
        words,
    }
}
