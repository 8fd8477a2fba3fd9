//! The lanes of a picture.

use crate::grid::{GAP, Grid, HEAD, LEFT, lane_height};
use crate::marks::write_marks;
use crate::rows::{write_names, write_rows};
use crate::text::{Cut, Escaped};
use crate::windows::{Part, write_ground};
use ptk_config::Config;
use ptk_timeline_segments::{Names, Recording};
use ptk_words::PartId;
use std::io;
use std::io::Write;

/// How many characters of a partition's name are shown.
const NAME_ROOM: usize = 20;

/// How high all lanes are.
pub(crate) fn lanes_height(recording: &Recording) -> u32 {
    let mut height = 0u32;
    for lane in recording.lanes() {
        height = height.saturating_add(lane_height(lane)).saturating_add(GAP);
    }
    height
}

/// Writes the ground of each lane, one below the other from `top` on.
pub(crate) fn write_grounds<W: Write>(
    out: &mut W,
    config: &Config,
    grid: &Grid,
    recording: &Recording,
    top: u32,
) -> io::Result<()> {
    let mut y = top;
    for place in 0..config.parts() {
        if let Some(lane) = recording.lanes().get(place) {
            let part = Part {
                plan: config.plan(),
                id: PartId::new(place as u8),
                name: config.sections()[place].name(),
            };
            let height = lane_height(lane);
            writeln!(out, "<g transform=\"translate({LEFT} {y})\">")?;
            write_ground(out, grid, &part, height)?;
            out.write_all(b"</g>\n")?;
            y = y.saturating_add(height).saturating_add(GAP);
        }
    }
    Ok(())
}

/// Writes what is on the ground of each lane, one below the other from `top` on: its name and the names of its threads,
/// its marks and its rows.
pub(crate) fn write_lanes<W: Write>(
    out: &mut W,
    config: &Config,
    grid: &Grid,
    recording: &Recording,
    names: &Names<'_, '_>,
    top: u32,
) -> io::Result<()> {
    let mut y = top;
    for place in 0..config.parts() {
        if let Some(lane) = recording.lanes().get(place) {
            let section = &config.sections()[place];
            let part = Part {
                plan: config.plan(),
                id: PartId::new(place as u8),
                name: section.name(),
            };
            write_head(out, part.name, y)?;
            let rows = y.saturating_add(HEAD);
            writeln!(out, "<g transform=\"translate(0 {rows})\">")?;
            write_names(out, lane, names, part.id)?;
            writeln!(out, "</g>\n<g transform=\"translate({LEFT} {y})\">")?;
            write_marks(out, section, grid, lane)?;
            writeln!(out, "</g>\n<g transform=\"translate({LEFT} {rows})\">")?;
            write_rows(out, grid, lane, &part)?;
            out.write_all(b"</g>\n")?;
            y = y.saturating_add(lane_height(lane)).saturating_add(GAP);
        }
    }
    Ok(())
}

/// Writes the name of a lane in its head, below `top`.
fn write_head<W: Write>(out: &mut W, name: &str, top: u32) -> io::Result<()> {
    let y = top.saturating_add(19);
    let cut = Cut {
        text: name,
        room: NAME_ROOM,
    };
    let whole = Escaped(name);
    write!(out, "<text class=\"part\" x=\"8\" y=\"{y}\">{cut}")?;
    writeln!(out, "<title>{whole}</title></text>")
}
