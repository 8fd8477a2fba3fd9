//! The picture.

ghost use Rattle.std.specs.Prelude.{◌≡◌, ◌≢◌, ◌≤◌, ◌<◌, IfErr, IfOk};
ghost use Rattle.ptk_words.specs.declared.TheConstants.{LAST_TICK};

use crate::axis::{AXIS, write_axis, write_plan};
use crate::grid::{Grid, MOST_COLUMNS, WIDTH};
use crate::heading::{heading_height, write_heading};
use crate::lanes::{lanes_height, write_grounds, write_lanes};
use crate::legend::{legend_height, write_legend};
use crate::signs::Signs;
use crate::style::STYLE;
use ptk_config::Config;
use ptk_timeline_segments::{Names, Recording, Scale, System};
use ptk_words::Tick;
use std::alloc::Global;
use std::io;
use std::io::Write;
use thiserror::Error;

/// Why there is no picture.
#[derive(Clone, Copy, Debug, PartialEq, Eq, Error)]
pub enum PictureFault {
    /// Memory was refused.
    #[error("out of memory")]
    Memory,
    /// The writer failed.
    #[error("the writer failed")]
    Write,
    /// There is no tick to show: the first one is not before the end.
    #[error("no tick to show")]
    NoTicks,
}

/// Runs the system of a configuration, which has just booted, to a tick of at most 2^40, and writes the picture of its
/// ticks from `from` on, with these names of its threads and that of the configuration's file in the title. A fault if
/// there is none of these ticks, memory is refused or the writer fails; nothing is written before the run is at its
/// end.
pub fn picture_with<W: Write>(
    alloc: Global,
    config: &Config,
    system: &mut System<'_>,
    names: &Names<'_, '_>,
    file: &str,
    from: Tick,
    to: Tick,
    out: &mut W,
) -> Result<(), PictureFault>
    requires last { to ≤ LAST_TICK }
    requires booted { system.old.tick ≡ 0 }
    ensures some { IfOk result (λ _. from < to) }
    ensures none { IfErr result (λ fault. fault ≡ PictureFault.NoTicks → to ≤ from) }
    ensures silent { IfErr result (λ fault. fault ≢ PictureFault.Write → out.new ≡ out.old) }
{
    if to.ticks() <= from.ticks() {
        return Err(PictureFault::NoTicks);
    }
    let scale = Scale::new(from, to, MOST_COLUMNS);
    let recording = match Recording::of_run(alloc, system, scale) {
        Ok(recording) => recording,
        Err(_) => return Err(PictureFault::Memory),
    };
    match write_picture(out, config, &recording, names, file) {
        Ok(()) => Ok(()),
        Err(_) => Err(PictureFault::Write),
    }
}

/// Writes the picture of a recording of a file's run. An error if the writer fails; what it got before is not known.
fn write_picture<W: Write>(
    out: &mut W,
    config: &Config,
    recording: &Recording,
    names: &Names<'_, '_>,
    file: &str,
) -> io::Result<()> {
    let grid = Grid::of(config, recording.scale());
    let signs = Signs::of(config, recording, &grid);
    let top = heading_height(config, &grid).saturating_add(AXIS);
    let end = top.saturating_add(lanes_height(recording));
    let height = end.saturating_add(legend_height(&signs));
    writeln!(
        out,
        "<svg xmlns=\"http://www.w3.org/2000/svg\" width=\"100%\" viewBox=\"0 0 {WIDTH} {height}\">"
    )?;
    out.write_all(STYLE.as_bytes())?;
    writeln!(
        out,
        "<rect width=\"{WIDTH}\" height=\"{height}\" fill=\"#fff\"/>"
    )?;
    write_heading(out, config, &grid, recording, file)?;
    write_grounds(out, config, &grid, recording, top)?;
    write_axis(out, &grid, top, end)?;
    write_lanes(out, config, &grid, recording, names, top)?;
    write_plan(out, config.plan(), &grid, top, end)?;
    write_legend(out, &signs, end)?;
    out.write_all(b"</svg>\n")
}
