//! The title of a picture.

use crate::grid::Grid;
use crate::text::{Cut, Escaped};
use ptk_config::Config;
use ptk_timeline_segments::Recording;
use std::io;
use std::io::Write;

/// How high the title is without the lines below it.
const TITLE: u32 = 32;

/// How high a line below the title is.
const LINE: u32 = 21;

/// How many characters of a file's name are shown.
const FILE_ROOM: usize = 70;

/// How many characters of a partition's name are shown.
const NAME_ROOM: usize = 40;

/// How high the heading of a picture is.
pub(crate) fn heading_height(config: &Config, grid: &Grid) -> u32 {
    let lines = (config.parts() as u32)
        .saturating_add(u32::from(has_wide_columns(grid)))
        .saturating_add(u32::from(!grid.are_windows_wide()));
    LINE.saturating_mul(lines).saturating_add(TITLE)
}

/// Whether a column is several ticks.
fn has_wide_columns(grid: &Grid) -> bool {
    grid.scale().each() > 1
}

/// Writes the title of the picture of a file: the file and the ticks, and below it what each partition is at their end,
/// how many ticks a column is, and whether the windows are too narrow to be drawn.
pub(crate) fn write_heading<W: Write>(
    out: &mut W,
    config: &Config,
    grid: &Grid,
    recording: &Recording,
    file: &str,
) -> io::Result<()> {
    let (from, to) = (grid.scale().from(), grid.scale().to());
    let (whole, cut) = (
        Escaped(file),
        Cut {
            text: file,
            room: FILE_ROOM,
        },
    );
    writeln!(out, "<title>{whole}, ticks {from} to {to}</title>")?;
    write!(out, "<text class=\"title\" x=\"8\" y=\"22\">{cut}, ")?;
    writeln!(out, "ticks {from} to {to}</text>")?;
    let y = write_statuses(out, config, recording, to)?;
    write_widths(out, config, grid, y)
}

/// Writes at `y` and below how many ticks a column is, if they are several, and that the windows are too narrow to be
/// drawn, if they are.
fn write_widths<W: Write>(out: &mut W, config: &Config, grid: &Grid, y: u32) -> io::Result<()> {
    let mut y = y;
    if has_wide_columns(grid) {
        let each = grid.scale().each();
        writeln!(
            out,
            "<text x=\"8\" y=\"{y}\">A column of the picture is {each} ticks.</text>"
        )?;
        y = y.saturating_add(LINE);
    }
    if !grid.are_windows_wide() {
        let frame = config.frame();
        write!(
            out,
            "<text x=\"8\" y=\"{y}\">The windows are too narrow to be drawn: "
        )?;
        writeln!(out, "a frame is {frame} ticks.</text>")?;
    }
    Ok(())
}

/// Writes a line for each partition: what it is at the picture's end. Returns where the next line is.
fn write_statuses<W: Write>(
    out: &mut W,
    config: &Config,
    recording: &Recording,
    to: u64,
) -> io::Result<u32> {
    let mut y = TITLE.saturating_add(15);
    for (section, status) in config.sections().iter().zip(recording.statuses().iter()) {
        let name = Cut {
            text: section.name(),
            room: NAME_ROOM,
        };
        writeln!(
            out,
            "<text x=\"8\" y=\"{y}\">{name}: {status} at tick {to}</text>"
        )?;
        y = y.saturating_add(LINE);
    }
    Ok(y)
}
