//! The lines of text.

use crate::comparison::{Comparison, Pair, by_key, impact_words};
use ptk_impact::{Changes, Difference, ImageChange, Impact, InputChange, LimitChange};
use ptk_words::{Arrival, ImageFault, Tick};
use std::io::Write;
use std::{fmt, io};

/// The end of a window that holds a tick, None if the tick is not the partition's.
#[derive(Clone, Copy)]
struct End(Option<Tick>);

impl fmt::Display for End {
    fn fmt<W: fmt::Write>(&self, f: &mut fmt::Formatter<W>) -> fmt::Result {
        match self.0 {
            Some(end) => {
                let end = end.ticks();
                write!(f, "its own until {end}")
            }
            None => f.write_str("not its own"),
        }
    }
}

/// An arrival, None after the last.
#[derive(Clone, Copy)]
struct Coming(Option<Arrival>);

impl fmt::Display for Coming {
    fn fmt<W: fmt::Write>(&self, f: &mut fmt::Formatter<W>) -> fmt::Result {
        match self.0 {
            Some(arrival) => {
                let (byte, tick) = (arrival.byte, arrival.tick.ticks());
                write!(f, "byte {byte} at tick {tick}")
            }
            None => f.write_str("none"),
        }
    }
}

/// Whether an image is refused.
#[derive(Clone, Copy)]
struct Verdict(Option<ImageFault>);

impl fmt::Display for Verdict {
    fn fmt<W: fmt::Write>(&self, f: &mut fmt::Formatter<W>) -> fmt::Result {
        match self.0 {
            Some(fault) => {
                let number = fault.number();
                write!(f, "refused, fault {number}")
            }
            None => f.write_str("not refused"),
        }
    }
}

/// Writes the lines of a partition that both configurations have. An error is the writer's.
pub(crate) fn put_lines<W: Write>(comparison: &Comparison<'_>, out: &mut W) -> io::Result<()> {
    let (name, answer) = (comparison.names.new, impact_words(&comparison.impact));
    writeln!(out, "{name}: {answer}")?;
    match &comparison.impact {
        Impact::Unchanged => {}
        Impact::UnchangedButForTrace(trace) => put_limit("trace", trace, out)?,
        Impact::Changed(changes) => put_changes(changes, out)?,
    }
    if comparison.is_refused() {
        let (old, new) = (
            Verdict(comparison.refusals.old),
            Verdict(comparison.refusals.new),
        );
        writeln!(out, "  image: {old} -> {new}")?;
    }
    put_notes(comparison, out)
}

/// Writes what differs of a changed partition.
fn put_changes<W: Write>(changes: &Changes, out: &mut W) -> io::Result<()> {
    if let Some(difference) = &changes.windows {
        put_windows(difference, out)?;
    }
    for (key, limit) in by_key(&changes.limits).iter() {
        if let Some(change) = limit {
            put_limit(key, change, out)?;
        }
    }
    if let Some(image) = &changes.image {
        put_image(image, out)?;
    }
    if let Some(change) = &changes.input {
        put_input(change, out)?;
    }
    Ok(())
}

/// Writes where the windows first differ, and that no run gets there if none does.
fn put_windows<W: Write>(difference: &Difference, out: &mut W) -> io::Result<()> {
    let tick = difference.tick.ticks();
    let (old, new) = (End(difference.end), End(difference.other_end));
    let note = if difference.is_past_runs() {
        " (after the last tick of every run)"
    } else {
        ""
    };
    writeln!(out, "  windows: tick {tick}: {old} -> {new}{note}")
}

/// Writes a limit that differs, by its key.
fn put_limit<W: Write>(key: &str, change: &LimitChange, out: &mut W) -> io::Result<()> {
    let (old, new) = (change.old, change.new);
    writeln!(out, "  {key}: {old} -> {new}")
}

/// Writes how the bytes of the image differ.
fn put_image<W: Write>(image: &ImageChange, out: &mut W) -> io::Result<()> {
    match image {
        ImageChange::Added => writeln!(out, "  image: none -> one"),
        ImageChange::Removed => writeln!(out, "  image: one -> none"),
        ImageChange::Bytes(offset) => writeln!(out, "  image: other bytes from offset {offset}"),
    }
}

/// Writes where the input first differs.
fn put_input<W: Write>(change: &InputChange, out: &mut W) -> io::Result<()> {
    let place = change.place;
    let (old, new) = (Coming(change.old), Coming(change.new));
    writeln!(out, "  input: arrival {place}: {old} -> {new}")
}

/// Writes what differs and plays no part in a run: the name, the place among the sections, the name of the image's
/// file.
fn put_notes<W: Write>(comparison: &Comparison<'_>, out: &mut W) -> io::Result<()> {
    if let Some(Pair { old, new }) = comparison.other_names() {
        writeln!(out, "  name: {old} -> {new} (no change of behaviour)")?;
    }
    if let Some(Pair { old, new }) = comparison.other_places() {
        writeln!(out, "  place: {old} -> {new} (no change of behaviour)")?;
    }
    if let Some(Pair { old, new }) = comparison.other_files() {
        writeln!(out, "  file: {old} -> {new} (no change of behaviour)")?;
    }
    Ok(())
}
