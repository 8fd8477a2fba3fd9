//! What recordings of a run show: the data of pictures.

use anyhow::{Error, Result, ensure};
use ptk_main_guests::{Config, Files};
use ptk_timeline::{Cell, LaneRow, Recording, Scale, Shade, System};
use ptk_words::{LAST_TICK, Tick};
use serde::Deserialize;
use std::alloc::Global;

/// A recording of the ticks from one on and before another, in at most so many columns, and what it shows of the first
/// partition.
#[derive(Drop, Deserialize)]
#[serde(deny_unknown_fields)]
pub(crate) struct Picture {
    from: u64,
    to: u64,
    columns: u32,
    /// If columns are a tick each: who was what, from which tick to which.
    #[serde(default)]
    segment: Vec<Segment>,
    /// What threads show of priorities that are raised.
    #[serde(default)]
    raised: Vec<Raised>,
    /// The ticks of marks, if columns are a tick each.
    marks: Option<Marks>,
    /// A thread that has one shade in all columns.
    whole: Option<Whole>,
    /// If the recording agrees with one whose columns are a tick each.
    #[serde(default)]
    sums_up: bool,
}

/// A thread has a shade from a tick on and before another, and another one on either side.
#[derive(Drop, Deserialize)]
#[serde(deny_unknown_fields)]
struct Segment {
    thread: u8,
    from: u64,
    to: u64,
    shade: Shown,
}

/// The shades, by their names.
#[derive(Drop, Deserialize)]
#[serde(rename_all = "lowercase")]
enum Shown {
    Free,
    Running,
    Ready,
    Sleep,
    Mutex,
    Ended,
}

/// What a thread shows of its priority in a column: to what it is raised, if it is.
#[derive(Drop, Deserialize)]
#[serde(deny_unknown_fields)]
struct Raised {
    thread: u8,
    column: usize,
    to: Option<u8>,
}

/// The ticks at which a step begins, a tick is lost, and the partition halts.
#[derive(Drop, Deserialize)]
#[serde(deny_unknown_fields)]
struct Marks {
    stepped: Vec<usize>,
    lost: Vec<usize>,
    halted: Vec<usize>,
}

/// A thread that has one shade in all columns, and another one beside it in these alone.
#[derive(Drop, Deserialize)]
#[serde(deny_unknown_fields)]
struct Whole {
    thread: u8,
    shade: Shown,
    mixed: Vec<usize>,
}

impl Shown {
    /// The shade.
    fn shade(&self) -> Shade {
        match self {
            Shown::Free => Shade::Free,
            Shown::Running => Shade::Running,
            Shown::Ready => Shade::Ready,
            Shown::Sleep => Shade::Sleep,
            Shown::Mutex => Shade::Mutex,
            Shown::Ended => Shade::Ended,
        }
    }
}

/// An error, which says what differs, if a recording is not as wanted.
pub(crate) fn check_picture(
    alloc: Global,
    config: &Config,
    files: &Files,
    picture: &Picture,
) -> Result<()> {
    let Some(recording) = recorded(alloc, config, files, picture, picture.columns) else {
        return Err(Error::msg("no recording"));
    };
    check_segments(&recording, &picture.segment)?;
    check_raised(&recording, &picture.raised)?;
    check_marks(&recording, &picture.marks)?;
    check_whole(&recording, &picture.whole)?;
    if picture.sums_up {
        check_sums(alloc, config, files, picture, &recording)?;
    }
    Ok(())
}

// The recording of a picture's ticks, in at most this many columns. None if there is none.
fn recorded(
    alloc: Global,
    config: &Config,
    files: &Files,
    picture: &Picture,
    most: u32,
) -> Option<Recording> {
    let mut system = System::boot(alloc, config, files).ok()?;
    let to = picture.to.min(LAST_TICK);
    let scale = Scale::new(Tick::new(picture.from.min(to)), Tick::new(to), most);
    Recording::of_run(alloc, &mut system, scale).ok()
}

// The row of a thread of the first partition. None if there is none.
fn row_of(recording: &Recording, thread: u8) -> Option<&LaneRow> {
    let place = usize::from(thread.checked_sub(1)?);
    let lane = recording.lanes().first()?;
    lane.rows().get(place)
}

// An error if a recording whose columns are a tick each does not have these segments.
fn check_segments(recording: &Recording, segments: &[Segment]) -> Result<()> {
    for segment in segments.iter() {
        let is_there = match row_of(recording, segment.thread) {
            Some(row) => has_segment(row, recording.scale(), segment),
            None => false,
        };
        let (thread, from) = (segment.thread, segment.from);
        ensure!(is_there, "thread {thread} is another from {from} on");
    }
    Ok(())
}

// Whether a row, whose columns are a tick each, has the segment.
fn has_segment(row: &LaneRow, scale: Scale, segment: &Segment) -> bool {
    let shade = segment.shade.shade();
    for (column, cell) in row.cells().iter().enumerate() {
        let tick = scale.start_of(column);
        let is_within = segment.from <= tick && tick < segment.to;
        let is_beside = tick.saturating_add(1) == segment.from || tick == segment.to;
        if is_within && (cell.look.shade() != shade || cell.is_mixed) {
            return false;
        }
        if is_beside && cell.look.shade() == shade {
            return false;
        }
    }
    true
}

// An error if threads do not show what is wanted of their priorities.
fn check_raised(recording: &Recording, raised: &[Raised]) -> Result<()> {
    for want in raised.iter() {
        let (thread, column) = (want.thread, want.column);
        ensure!(
            is_raised(recording, want),
            "thread {thread} in column {column}"
        );
    }
    Ok(())
}

// Whether a thread shows this of its priority.
fn is_raised(recording: &Recording, want: &Raised) -> bool {
    match row_of(recording, want.thread) {
        Some(row) => match row.cells().get(want.column) {
            Some(cell) => cell.look.raised == want.to,
            None => false,
        },
        None => false,
    }
}

// An error if the first partition of a recording whose columns are a tick each does not have just these marks, if some
// are wanted.
fn check_marks(recording: &Recording, marks: &Option<Marks>) -> Result<()> {
    if let Some(marks) = marks {
        ensure!(has_marks(recording, marks), "other marks");
    }
    Ok(())
}

// Whether the first partition of a recording has just these marks.
fn has_marks(recording: &Recording, want: &Marks) -> bool {
    let Some(lane) = recording.lanes().first() else {
        return false;
    };
    for (tick, marks) in lane.marks().iter().enumerate() {
        let is_right = marks.is_stepped == want.stepped.contains(&tick)
            && marks.is_lost == want.lost.contains(&tick)
            && marks.is_halted == want.halted.contains(&tick);
        if !is_right {
            return false;
        }
    }
    true
}

// An error if a thread does not have one shade in all columns, if that is wanted of one.
fn check_whole(recording: &Recording, whole: &Option<Whole>) -> Result<()> {
    if let Some(whole) = whole {
        let is_right = match row_of(recording, whole.thread) {
            Some(row) => is_whole(row.cells(), whole),
            None => false,
        };
        ensure!(is_right, "a thread has another shade");
    }
    Ok(())
}

// Whether these cells show the shade, and another one beside it in the columns that are named.
fn is_whole(cells: &[Cell], whole: &Whole) -> bool {
    let shade = whole.shade.shade();
    for (column, cell) in cells.iter().enumerate() {
        if cell.look.shade() != shade || cell.is_mixed != whole.mixed.contains(&column) {
            return false;
        }
    }
    true
}

// An error if a recording does not agree with one of the same ticks in columns of a tick each.
fn check_sums(
    alloc: Global,
    config: &Config,
    files: &Files,
    picture: &Picture,
    wide: &Recording,
) -> Result<()> {
    let is_right = match recorded(alloc, config, files, picture, u32::MAX) {
        Some(narrow) => does_sum_up(wide, &narrow),
        None => false,
    };
    ensure!(is_right, "columns do not sum up");
    Ok(())
}

// Whether the rows of a recording of the first partition, in columns of many ticks, agree with those of a recording of
// the same ticks whose columns are a tick each.
fn does_sum_up(wide: &Recording, narrow: &Recording) -> bool {
    let (Some(first), Some(second)) = (wide.lanes().first(), narrow.lanes().first()) else {
        return false;
    };
    let each = wide.scale().each() as usize;
    first
        .rows()
        .iter()
        .zip(second.rows().iter())
        .all(|(wide, narrow)| row_sums_up(wide, each, narrow))
}

// Whether a row's columns agree with those of a row of the same ticks, whose columns are a tick each.
fn row_sums_up(wide: &LaneRow, each: usize, narrow: &LaneRow) -> bool {
    let cells = narrow.cells();
    for (place, column) in wide.cells().iter().enumerate() {
        let from = place.saturating_mul(each).min(cells.len());
        let to = from.saturating_add(each).min(cells.len()).max(from);
        if !sums_up(column, &cells[from..to]) {
            return false;
        }
    }
    true
}

// Whether a cell of a column shows these cells, a tick each: no shade is more often there than its own, and it is mixed
// if there is another one.
fn sums_up(column: &Cell, cells: &[Cell]) -> bool {
    let own = count_of(cells, column.look.shade());
    own > 0
        && column.is_mixed == (own < cells.len())
        && cells
            .iter()
            .all(|cell| count_of(cells, cell.look.shade()) <= own)
}

// How many of these cells have the shade.
fn count_of(cells: &[Cell], shade: Shade) -> usize {
    cells
        .iter()
        .filter(|cell| cell.look.shade() == shade)
        .count()
}
