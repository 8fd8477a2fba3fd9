//! The marks of a lane: input that comes, input lost, ticks lost, and the end of the partition.

use crate::grid::{Grid, HEAD, Stretch};
use crate::signs::is_drawn;
use ptk_config::Section;
use ptk_timeline_segments::{Lane, Marks};
use std::io;
use std::io::Write;

/// Writes the marks of a lane in its head.
pub(crate) fn write_marks<W: Write>(
    out: &mut W,
    section: &Section,
    grid: &Grid,
    lane: &Lane,
) -> io::Result<()> {
    write_input(out, section, grid)?;
    write_losses(out, grid, lane.marks())?;
    for (column, marks) in lane.marks().iter().enumerate() {
        let stretch = Stretch {
            first: column,
            end: column.saturating_add(1),
        };
        write_column(out, grid, &stretch, marks)?;
    }
    Ok(())
}

/// Writes a mark for each place at which input of a partition comes.
fn write_input<W: Write>(out: &mut W, section: &Section, grid: &Grid) -> io::Result<()> {
    let mut last = None;
    for arrival in section.input() {
        let tick = arrival.tick.ticks();
        let x = grid.place_of(tick);
        if is_drawn(grid, tick) && last != Some(x) {
            write!(out, "<path class=\"arrived\" d=\"M{x} 22l5 -10h-10z\">")?;
            writeln!(out, "<title>input at tick {tick}</title></path>")?;
            last = Some(x);
        }
    }
    Ok(())
}

/// Writes a double line over the columns in which ticks are lost.
fn write_losses<W: Write>(out: &mut W, grid: &Grid, columns: &[Marks]) -> io::Result<()> {
    let mut first = 0;
    for (column, marks) in columns.iter().enumerate() {
        let end = column.saturating_add(1);
        if !is_same_loss(marks, columns.get(end)) {
            if marks.is_lost {
                write_loss(out, grid, &Stretch { first, end })?;
            }
            first = end;
        }
    }
    Ok(())
}

/// Whether ticks are lost in the next column if and only if they are in a column.
fn is_same_loss(marks: &Marks, next: Option<&Marks>) -> bool {
    match next {
        Some(next) => marks.is_lost == next.is_lost,
        None => false,
    }
}

/// Writes the double line of a stretch in which ticks are lost.
fn write_loss<W: Write>(out: &mut W, grid: &Grid, stretch: &Stretch) -> io::Result<()> {
    let (x, width) = (stretch.left(grid), stretch.width(grid));
    write!(
        out,
        "<rect class=\"lost\" x=\"{x}\" y=\"24\" width=\"{width}\" height=\"6\">"
    )?;
    write_ticks(out, "ticks lost", grid, stretch)?;
    out.write_all(b"</rect>\n")
}

/// Writes the marks of a column: input lost, and the end of the partition.
fn write_column<W: Write>(
    out: &mut W,
    grid: &Grid,
    stretch: &Stretch,
    marks: &Marks,
) -> io::Result<()> {
    if marks.is_dropped {
        let x = stretch.left(grid);
        write!(
            out,
            "<path class=\"dropped\" d=\"M{x} 6m-4 -4l8 8m0 -8l-8 8\">"
        )?;
        write_ticks(out, "input lost", grid, stretch)?;
        out.write_all(b"</path>\n")?;
    }
    if marks.is_halted {
        let x = grid.column_place(stretch.end);
        write!(out, "<path class=\"halted\" d=\"M{x} 0v{HEAD}\">")?;
        write_ticks(out, "the partition halts", grid, stretch)?;
        out.write_all(b"</path>\n")?;
    }
    Ok(())
}

/// Writes the title of a mark: these words, and the ticks of its columns.
fn write_ticks<W: Write>(
    out: &mut W,
    words: &str,
    grid: &Grid,
    stretch: &Stretch,
) -> io::Result<()> {
    let (from, to) = (stretch.from(grid), stretch.to(grid));
    write!(out, "<title>{words}, ticks {from} to {to}</title>")
}
