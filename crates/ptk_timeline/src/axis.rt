//! The tick axis, and the ticks at which the window plan changes.

ghost use Rattle.std.specs.Prelude.{◌<◌};

use crate::grid::{Grid, LEFT};
use crate::signs::is_drawn;
use ptk_window::WindowPlan;
use std::io;
use std::io::Write;

/// How many pixels there are from one number to the next at least: a number of 13 digits has no more.
const APART: u64 = 130;

/// How many zeros the largest step has, which is a power of ten.
const MOST_DIGITS: u32 = 18;

/// How high the numbers and their marks are above the lanes.
pub(crate) const AXIS: u32 = 36;

/// Writes the axis above the lanes, which begin at `top`, with a line down to `end` at each number: the multiples of
/// the step from the first tick to the tick after the last.
pub(crate) fn write_axis<W: Write>(out: &mut W, grid: &Grid, top: u32, end: u32) -> io::Result<()> {
    let scale = grid.scale();
    let (y, length) = (
        top.saturating_sub(12),
        end.saturating_sub(top).saturating_add(8),
    );
    writeln!(out, "<text x=\"8\" y=\"{y}\">tick</text>")?;
    let step = step_of(grid);
    let above = top.saturating_sub(8);
    for k in scale.from().div_ceil(step)..(scale.to() / step).saturating_add(1) {
        let tick = k.saturating_mul(step);
        let x = LEFT.saturating_add(grid.place_of(tick));
        writeln!(out, "<path class=\"grid\" d=\"M{x} {above}v{length}\"/>")?;
        writeln!(
            out,
            "<text x=\"{x}\" y=\"{y}\" text-anchor=\"middle\">{tick}</text>"
        )?;
    }
    Ok(())
}

/// The ticks from one number to the next: 1, 2 or 5 times a power of ten, so that they stand `APART` pixels apart or
/// more.
fn step_of(grid: &Grid) -> u64
    ensures { 0 < result }
{
    let least = grid.scale().each().saturating_mul(APART) / grid.column_width();
    let mut power = 1u64;
    for _exponent in 0..MOST_DIGITS {
        for times in [1, 2, 5] {
            if least <= power.saturating_mul(times) {
                return power.saturating_mul(times).max(1);
            }
        }
        power = power.saturating_mul(10);
    }
    power.max(1)
}

/// Writes a line from above the lanes, which begin at `top`, down to `end` at each tick at which another stage of the
/// plan begins.
pub(crate) fn write_plan<W: Write>(
    out: &mut W,
    plan: &WindowPlan,
    grid: &Grid,
    top: u32,
    end: u32,
) -> io::Result<()> {
    let above = top.saturating_sub(8);
    let length = end.saturating_sub(above);
    for stage in 1..plan.stages() {
        let tick = plan.begin_of(stage).ticks();
        if is_drawn(grid, tick) {
            let x = LEFT.saturating_add(grid.place_of(tick));
            write!(out, "<path class=\"plan\" d=\"M{x} {above}v{length}\">")?;
            let words = "the plan's next windows begin at tick";
            writeln!(out, "<title>{words} {tick}</title></path>")?;
        }
    }
    Ok(())
}
