//! The rows of a lane's threads.

use crate::grid::{BAR, Grid, ROW, Stretch, is_shown};
use crate::signs::Sign;
use crate::text::{Cut, Escaped};
use crate::windows::{Drawn, Part, Standstill, write_running, write_still};
use crate::words::Words;
use ptk_disasm::text_in;
use ptk_timeline_segments::{Cell, Lane, LaneRow, Look, Marks, Names, Shade};
use ptk_words::PartId;
use std::io;
use std::io::Write;

/// How many characters the name of a thread has at most, with its number.
const NAME_ROOM: usize = 20;

/// The least width of a bar in which a raised priority is written.
const LEVEL_WIDTH: u64 = 28;

/// The least width of a bar which is bordered beside another one of a blocked thread.
const BORDERED: u64 = 3;

/// Writes the rows of the lane of a partition, one below the other.
pub(crate) fn write_rows<W: Write>(
    out: &mut W,
    grid: &Grid,
    lane: &Lane,
    part: &Part<'_>,
) -> io::Result<()> {
    let mut y = 0u32;
    for (place, row) in lane.rows().iter().enumerate() {
        if is_shown(row) {
            let number = place.saturating_add(1);
            let thread = Drawn { part, number };
            writeln!(out, "<g transform=\"translate(0 {y})\">")?;
            write_row(out, grid, &thread, row, lane.marks())?;
            out.write_all(b"</g>\n")?;
            y = y.saturating_add(ROW);
        }
    }
    Ok(())
}

/// Writes the names of the threads of the rows of a lane, one below the other: the number, and the routine at which the
/// thread starts, if that has a name.
pub(crate) fn write_names<W: Write>(
    out: &mut W,
    lane: &Lane,
    names: &Names<'_, '_>,
    part: PartId,
) -> io::Result<()> {
    let mut y = 14u32;
    for (place, row) in lane.rows().iter().enumerate() {
        if is_shown(row) {
            write_thread(out, names, part, place.saturating_add(1), y)?;
            y = y.saturating_add(ROW);
        }
    }
    Ok(())
}

/// Writes the name of a thread.
fn write_thread<W: Write>(
    out: &mut W,
    names: &Names<'_, '_>,
    part: PartId,
    number: usize,
    y: u32,
) -> io::Result<()> {
    let routine = match names.routine(part, number) {
        Some(routine) => text_in(routine.name),
        None => None,
    };
    let Some(routine) = routine else {
        return writeln!(
            out,
            "<text class=\"name\" x=\"8\" y=\"{y}\">thread {number}</text>"
        );
    };
    let (cut, whole) = (
        Cut {
            text: routine,
            room: NAME_ROOM - 3,
        },
        Escaped(routine),
    );
    write!(out, "<text class=\"name\" x=\"8\" y=\"{y}\">{number} {cut}")?;
    writeln!(
        out,
        "<title>thread {number} starts at {whole}</title></text>"
    )
}

/// Writes the row of a thread.
fn write_row<W: Write>(
    out: &mut W,
    grid: &Grid,
    thread: &Drawn<'_, '_>,
    row: &LaneRow,
    marks: &[Marks],
) -> io::Result<()> {
    let cells = row.cells();
    write_bars(out, grid, thread, cells, marks)?;
    write_mixed(out, grid, cells)?;
    write_raised(out, grid, cells)?;
    if grid.are_steps_wide() {
        write_steps(out, grid, cells, marks)?;
    }
    Ok(())
}

/// Writes the bars: each all columns in a row that have one look, with its owner and its raised priority. That of a
/// running thread ends as well if ticks begin to be lost, or are no longer.
fn write_bars<W: Write>(
    out: &mut W,
    grid: &Grid,
    thread: &Drawn<'_, '_>,
    cells: &[Cell],
    marks: &[Marks],
) -> io::Result<()> {
    let mut first = 0;
    let mut is_after_blocked = false;
    for (column, cell) in cells.iter().enumerate() {
        let end = column.saturating_add(1);
        if !goes_on(grid, cells, marks, column) {
            let stretch = Stretch { first, end };
            let is_still = stands_still(grid, cell, marks.get(column));
            write_look(out, grid, thread, &cell.look, is_still, &stretch)?;
            let is_blocked = is_blocked(cell.look.shade());
            if is_after_blocked && is_blocked {
                write_border(out, grid, &stretch)?;
            }
            is_after_blocked = is_blocked;
            first = end;
        }
    }
    Ok(())
}

/// Writes a line where the stretch of a blocked thread begins after another one, if it is wide enough.
fn write_border<W: Write>(out: &mut W, grid: &Grid, stretch: &Stretch) -> io::Result<()> {
    if stretch.width(grid) < BORDERED {
        return Ok(());
    }
    let x = stretch.left(grid);
    writeln!(out, "<path class=\"border\" d=\"M{x}.5 0v{BAR}\"/>")
}

/// Whether the bar of a column goes on in the next one: its look, owner and raised priority included, and whether the
/// thread stands still.
pub(crate) fn goes_on(grid: &Grid, cells: &[Cell], marks: &[Marks], column: usize) -> bool {
    let end = column.saturating_add(1);
    let (Some(cell), Some(next)) = (cells.get(column), cells.get(end)) else {
        return false;
    };
    let is_still = stands_still(grid, cell, marks.get(column));
    cell.look == next.look && is_still == stands_still(grid, next, marks.get(end))
}

/// Whether the thread of a column's look is drawn as one that stands still, since it is the running one and the ticks of
/// these marks are lost.
pub(crate) fn stands_still(grid: &Grid, cell: &Cell, marks: Option<&Marks>) -> bool {
    match marks {
        Some(marks) => {
            marks.is_lost && grid.are_losses_exact() && cell.look.shade() == Shade::Running
        }
        None => false,
    }
}

/// Whether this is the shade of a wait.
fn is_blocked(shade: Shade) -> bool {
    match shade {
        Shade::Input
        | Shade::Sleep
        | Shade::Join
        | Shade::Mutex
        | Shade::Condition
        | Shade::Relock => true,
        Shade::Free | Shade::Running | Shade::Ready | Shade::Ended | Shade::Halted => false,
    }
}

/// Writes the bar of a look over a stretch, of a running thread that stands still or not; none if there is no thread.
fn write_look<W: Write>(
    out: &mut W,
    grid: &Grid,
    thread: &Drawn<'_, '_>,
    look: &Look,
    is_still: bool,
    stretch: &Stretch,
) -> io::Result<()> {
    let (from, to) = (stretch.from(grid), stretch.to(grid));
    if is_still {
        return write_still(out, grid, thread, Standstill::Lost, from, to);
    }
    let Some(sign) = Sign::of(look.shade()) else {
        return Ok(());
    };
    if sign == Sign::Running && grid.are_windows_wide() {
        return write_running(out, grid, thread, from, to);
    }
    let (x, width, class) = (stretch.left(grid), stretch.width(grid), sign.class());
    let (name, number) = (Escaped(thread.part.name), thread.number);
    let words = Words(*look);
    write!(
        out,
        "<rect class=\"{class}\" x=\"{x}\" width=\"{width}\" height=\"{BAR}\">"
    )?;
    write!(out, "<title>{name}, thread {number}: {words}, ")?;
    writeln!(out, "ticks {from} to {to}</title></rect>")
}

/// Writes a line below the columns that have another shade beside the one drawn.
fn write_mixed<W: Write>(out: &mut W, grid: &Grid, cells: &[Cell]) -> io::Result<()> {
    let mut first = 0;
    for (column, cell) in cells.iter().enumerate() {
        let end = column.saturating_add(1);
        if !is_same_mix(cell, cells.get(end)) {
            let stretch = Stretch { first, end };
            if cell.is_mixed {
                let (x, width) = (stretch.left(grid), stretch.width(grid));
                writeln!(
                    out,
                    "<rect class=\"mixed\" x=\"{x}\" y=\"18\" width=\"{width}\" height=\"2\"/>"
                )?;
            }
            first = end;
        }
    }
    Ok(())
}

/// Whether the next column is mixed or not as a column is.
fn is_same_mix(cell: &Cell, next: Option<&Cell>) -> bool {
    match next {
        Some(next) => cell.is_mixed == next.is_mixed,
        None => false,
    }
}

/// Writes a line above the columns in which the effective priority is raised.
fn write_raised<W: Write>(out: &mut W, grid: &Grid, cells: &[Cell]) -> io::Result<()> {
    let mut first = 0;
    for (column, cell) in cells.iter().enumerate() {
        let end = column.saturating_add(1);
        if !is_same_level(cell, cells.get(end)) {
            if let Some(level) = cell.look.raised {
                write_level(out, grid, level, &Stretch { first, end })?;
            }
            first = end;
        }
    }
    Ok(())
}

/// Whether the next column has the raised priority of a column, or none as it has.
fn is_same_level(cell: &Cell, next: Option<&Cell>) -> bool {
    match next {
        Some(next) => cell.look.raised == next.look.raised,
        None => false,
    }
}

/// Writes the line above a stretch of a raised priority, and the priority if there is room.
fn write_level<W: Write>(out: &mut W, grid: &Grid, level: u8, stretch: &Stretch) -> io::Result<()> {
    let (x, width) = (stretch.left(grid), stretch.width(grid));
    write!(
        out,
        "<rect class=\"raised\" x=\"{x}\" y=\"-5\" width=\"{width}\" height=\"4\">"
    )?;
    writeln!(out, "<title>effective priority {level}</title></rect>")?;
    if width < LEVEL_WIDTH {
        return Ok(());
    }
    let x = x.saturating_add(4);
    writeln!(
        out,
        "<text class=\"level\" x=\"{x}\" y=\"14\">{level}</text>"
    )
}

/// Writes a line where each step of the row's thread begins.
fn write_steps<W: Write>(
    out: &mut W,
    grid: &Grid,
    cells: &[Cell],
    marks: &[Marks],
) -> io::Result<()> {
    out.write_all(b"<path class=\"steps\" d=\"")?;
    for (column, (cell, here)) in cells.iter().zip(marks.iter()).enumerate() {
        if here.is_stepped && cell.look.shade() == Shade::Running {
            let x = grid.column_place(column);
            write!(out, "M{x} 0v{BAR}")?;
        }
    }
    out.write_all(b"\"/>\n")
}
