//! The forms of an answer.

use crate::comparison::Comparison;
use crate::document::{json_of, json_of_alone};
use crate::lines::put_lines;
use crate::tally::Tally;
use ptk_main_runs::PutFault;
use std::alloc::Global;
use std::io;
use std::io::Write;

/// The form of an answer.
#[derive(Clone, Copy)]
pub(crate) enum Form {
    /// Lines of text.
    Lines,
    /// One JSON object.
    Json,
}

/// Writes what stands before the partitions.
pub(crate) fn put_beginning<W: Write>(form: Form, out: &mut W) -> io::Result<()> {
    match form {
        Form::Lines => Ok(()),
        Form::Json => out.write_all(b"{\"format\":\"ptk impact 1\",\"partitions\":["),
    }
}

/// Writes a partition that both configurations have, after those that are counted.
pub(crate) fn put_comparison<W: Write>(
    form: Form,
    alloc: Global,
    tally: &Tally,
    comparison: &Comparison<'_>,
    out: &mut W,
) -> Result<(), PutFault> {
    match form {
        Form::Lines => put_lines(comparison, out)?,
        Form::Json => put_member(tally, &json_of(alloc, comparison)?, out)?,
    }
    Ok(())
}

/// Writes a partition that one configuration has, with the word of its answer, after those that are counted.
pub(crate) fn put_alone<W: Write>(
    form: Form,
    alloc: Global,
    tally: &Tally,
    name: &str,
    answer: &'static str,
    out: &mut W,
) -> Result<(), PutFault> {
    match form {
        Form::Lines => writeln!(out, "{name}: {answer}")?,
        Form::Json => put_member(tally, &json_of_alone(alloc, name, answer)?, out)?,
    }
    Ok(())
}

/// Writes a member of the array of partitions, with a comma before it if one is counted already.
fn put_member<W: Write>(tally: &Tally, text: &String, out: &mut W) -> io::Result<()> {
    let comma = if tally.is_empty() { "" } else { "," };
    write!(out, "{comma}{text}")
}

/// Writes the counts, after the partitions.
pub(crate) fn put_counts<W: Write>(form: Form, tally: &Tally, out: &mut W) -> io::Result<()> {
    match form {
        Form::Lines => writeln!(out, "{tally}"),
        Form::Json => put_end(tally, out),
    }
}

/// Writes what is after the partitions in the JSON object: the counts.
fn put_end<W: Write>(tally: &Tally, out: &mut W) -> io::Result<()> {
    let (unchanged, but_for_trace) = (tally.unchanged, tally.but_for_trace);
    write!(
        out,
        "],\"unchanged\":{unchanged},\"unchanged_but_for_trace\":{but_for_trace}"
    )?;
    let (changed, added, removed) = (tally.changed, tally.added, tally.removed);
    writeln!(
        out,
        ",\"changed\":{changed},\"new\":{added},\"gone\":{removed}}}"
    )
}
