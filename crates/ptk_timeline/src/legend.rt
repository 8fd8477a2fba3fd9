//! The legend: what each kind of shape means that the picture has.

use crate::signs::{Sign, Signs};
use std::io;
use std::io::Write;

/// How many entries are in a line.
const COLUMNS: u32 = 3;

/// How wide an entry is.
const ENTRY: u32 = 405;

/// How high a line of entries is.
const LINE: u32 = 27;

/// The room above and below the lines.
const MARGIN: u32 = 24;

/// How high the legend is.
pub(crate) fn legend_height(signs: &Signs) -> u32 {
    LINE.saturating_mul(signs.count().div_ceil(COLUMNS))
        .saturating_add(MARGIN)
}

/// Writes the legend below `top`.
pub(crate) fn write_legend<W: Write>(out: &mut W, signs: &Signs, top: u32) -> io::Result<()> {
    let mut number = 0u32;
    for sign in Sign::ALL {
        if signs.has(sign) {
            let x = (number % COLUMNS).saturating_mul(ENTRY).saturating_add(8);
            let line = (number / COLUMNS)
                .saturating_mul(LINE)
                .saturating_add(MARGIN / 2);
            let (y, meaning) = (top.saturating_add(line), sign.meaning());
            writeln!(out, "<g transform=\"translate({x} {y})\">")?;
            write_sample(out, sign)?;
            writeln!(out, "<text x=\"34\" y=\"14\">{meaning}</text></g>")?;
            number = number.saturating_add(1);
        }
    }
    Ok(())
}

/// Writes a sample of a sign, 24 pixels wide and as high as a bar, in the shape that it has in the picture.
fn write_sample<W: Write>(out: &mut W, sign: Sign) -> io::Result<()> {
    let (ground, shape, class) = (ground_of(sign), shape_of(sign), sign.class());
    writeln!(out, "{ground}<{shape} class=\"{class}\"/>")
}

/// What the sample of a sign has below the sign.
fn ground_of(sign: Sign) -> &'static str {
    match sign {
        Sign::Raised => "<rect class=\"running\" y=\"6\" width=\"24\" height=\"11\"/>",
        Sign::Mixed => "<rect class=\"ready\" width=\"24\" height=\"11\"/>",
        Sign::Step => "<rect class=\"running\" width=\"24\" height=\"17\"/>",
        Sign::Window => "<path class=\"edge\" d=\"M-.5 0v17M24.5 0v17\"/>",
        Sign::Running
        | Sign::Suspended
        | Sign::Ready
        | Sign::Mutex
        | Sign::Condition
        | Sign::Relock
        | Sign::Sleep
        | Sign::Join
        | Sign::Input
        | Sign::Ended
        | Sign::Halted
        | Sign::NoWindow
        | Sign::NarrowWindows
        | Sign::Arrived
        | Sign::Dropped
        | Sign::Lost
        | Sign::End
        | Sign::Plan => "",
    }
}

/// The shape of a sign.
fn shape_of(sign: Sign) -> &'static str {
    match sign {
        Sign::Running
        | Sign::Ready
        | Sign::Mutex
        | Sign::Condition
        | Sign::Relock
        | Sign::Sleep
        | Sign::Join
        | Sign::Input
        | Sign::Ended
        | Sign::Halted
        | Sign::Window
        | Sign::NoWindow
        | Sign::NarrowWindows => "rect width=\"24\" height=\"17\"",
        Sign::Suspended => "rect y=\"6\" width=\"24\" height=\"5\"",
        Sign::Raised => "rect y=\"1\" width=\"24\" height=\"4\"",
        Sign::Mixed => "rect y=\"13\" width=\"24\" height=\"2\"",
        Sign::Lost => "rect y=\"6\" width=\"24\" height=\"6\"",
        Sign::Step => "path d=\"M6 0v17M12 0v17M18 0v17\"",
        Sign::Arrived => "path d=\"M12 13l5 -10h-10z\"",
        Sign::Dropped => "path d=\"M12 8m-4 -4l8 8m0 -8l-8 8\"",
        Sign::End | Sign::Plan => "path d=\"M12 0v17\"",
    }
}
