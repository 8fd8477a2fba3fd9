//! A partition's windows, and its running threads, which stand still outside of these.

ghost use Rattle.std.specs.Prelude.{◌≤◌};
ghost use Rattle.ptk_words.specs.declared.TheConstants.{LAST_TICK};

use crate::grid::{BAR, Grid};
use crate::text::Escaped;
use ptk_timeline_segments::{Span, next_window};
use ptk_window::WindowPlan;
use ptk_words::PartId;
use std::io;
use std::io::Write;

/// The narrowest window of which the edges are drawn.
const EDGED: u64 = 4;

/// A partition of a picture: the plan of its windows, its number and its name.
#[derive(Clone, Copy)]
pub(crate) struct Part<'a> {
    pub(crate) plan: &'a WindowPlan,
    pub(crate) id: PartId,
    pub(crate) name: &'a str,
}

/// A thread of a picture: its partition and its number.
#[derive(Clone, Copy)]
pub(crate) struct Drawn<'p, 'a> {
    pub(crate) part: &'p Part<'a>,
    pub(crate) number: usize,
}

/// Why the running thread of a partition makes no step.
#[derive(Clone, Copy)]
pub(crate) enum Standstill {
    /// The partition has no window.
    NoWindow,
    /// The ticks are lost.
    Lost,
}

impl Standstill {
    /// What it is in words.
    fn words(self) -> &'static str {
        match self {
            Standstill::NoWindow => "running, stands still: no window",
            Standstill::Lost => "running, stands still: ticks lost",
        }
    }
}

/// Writes the ground of a partition's lane, this high: each of the windows shaded, or all of it hatched if they are too
/// narrow to be drawn.
pub(crate) fn write_ground<W: Write>(
    out: &mut W,
    grid: &Grid,
    part: &Part<'_>,
    height: u32,
) -> io::Result<()> {
    let width = grid.plot_width();
    writeln!(
        out,
        "<rect class=\"lane\" width=\"{width}\" height=\"{height}\"/>"
    )?;
    if grid.are_windows_wide() {
        return write_windows(out, grid, part, height);
    }
    write!(
        out,
        "<rect class=\"narrow\" width=\"{width}\" height=\"{height}\">"
    )?;
    out.write_all(b"<title>windows too narrow to be drawn</title></rect>\n")
}

/// Writes each of a partition's windows, this high.
fn write_windows<W: Write>(
    out: &mut W,
    grid: &Grid,
    part: &Part<'_>,
    height: u32,
) -> io::Result<()> {
    let stop = grid.scale().to();
    let mut tick = grid.scale().from();
    while let Some(window) = next_window(part.plan, part.id, tick, stop) {
        write_window(out, grid, part.name, &window, height)?;
        tick = window.to;
    }
    Ok(())
}

/// Writes a window, this high, with its edges if it is wide enough.
fn write_window<W: Write>(
    out: &mut W,
    grid: &Grid,
    name: &str,
    window: &Span,
    height: u32,
) -> io::Result<()> {
    let (from, to, name) = (window.from, window.to, Escaped(name));
    let (x, end, width) = (
        grid.place_of(from),
        grid.place_of(to),
        grid.width_of(from, to),
    );
    if width == 0 {
        return Ok(());
    }
    write!(
        out,
        "<rect class=\"window\" x=\"{x}\" width=\"{width}\" height=\"{height}\">"
    )?;
    writeln!(
        out,
        "<title>window of {name}, ticks {from} to {to}</title></rect>"
    )?;
    if width < EDGED {
        return Ok(());
    }
    writeln!(
        out,
        "<path class=\"edge\" d=\"M{x} 0v{height}M{end} 0v{height}\"/>"
    )
}

/// Writes the bar of a running thread from a tick on and before another: over its partition's windows as high as a bar
/// is, and lower where there is none and the thread stands still.
pub(crate) fn write_running<W: Write>(
    out: &mut W,
    grid: &Grid,
    thread: &Drawn<'_, '_>,
    from: u64,
    to: u64,
) -> io::Result<()>
    requires { to ≤ LAST_TICK }
{
    let mut tick = from;
    while let Some(window) = next_window(thread.part.plan, thread.part.id, tick, to) {
        write_still(out, grid, thread, Standstill::NoWindow, tick, window.from)?;
        let (x, width) = (
            grid.place_of(window.from),
            grid.width_of(window.from, window.to),
        );
        if width > 0 {
            write!(
                out,
                "<rect class=\"running\" x=\"{x}\" width=\"{width}\" height=\"{BAR}\">"
            )?;
            write_ticks(out, thread, "running", window.from, window.to)?;
        }
        tick = window.to;
    }
    write_still(out, grid, thread, Standstill::NoWindow, tick, to)
}

/// Writes the bar of a thread that is the running one and stands still from a tick on and before another.
pub(crate) fn write_still<W: Write>(
    out: &mut W,
    grid: &Grid,
    thread: &Drawn<'_, '_>,
    standstill: Standstill,
    from: u64,
    to: u64,
) -> io::Result<()> {
    let (x, width) = (grid.place_of(from), grid.width_of(from, to));
    if width == 0 {
        return Ok(());
    }
    write!(
        out,
        "<rect class=\"suspended\" x=\"{x}\" y=\"6\" width=\"{width}\" height=\"5\">"
    )?;
    write_ticks(out, thread, standstill.words(), from, to)
}

/// Writes the title of the bar of a thread that does this from a tick on and before another, and the bar's end.
fn write_ticks<W: Write>(
    out: &mut W,
    thread: &Drawn<'_, '_>,
    words: &str,
    from: u64,
    to: u64,
) -> io::Result<()> {
    let (name, number) = (Escaped(thread.part.name), thread.number);
    write!(out, "<title>{name}, thread {number}: {words}, ")?;
    writeln!(out, "ticks {from} to {to}</title></rect>")
}
