//! Where things are in the picture, in pixels.

ghost use Rattle.std.specs.Prelude.{◌<◌, ◌≤◌};
ghost use Rattle.ptk_words.specs.declared.TheConstants.{LAST_TICK};

use ptk_config::Config;
use ptk_timeline_segments::{Cell, Lane, LaneRow, Scale, Shade};

/// How wide the picture is: the columns, and half a number of the axis beside them. Its texts of 15 pixels have 10 if a
/// page shows it 838 pixels wide.
pub(crate) const WIDTH: u64 = 1256;

/// The room for names at the left.
pub(crate) const LEFT: u64 = 192;

/// How many columns a picture has at most, and how wide they are together at most.
pub(crate) const MOST_COLUMNS: u32 = 1000;

/// How wide a column is at most.
const WIDEST_COLUMN: u64 = 24;

/// The least width of a column in which the beginnings of steps are drawn.
const STEP_WIDTH: u64 = 4;

/// The least width of a frame whose windows are drawn.
const FRAME_WIDTH: u64 = 4;

/// The height of a lane's head, in which its name and its marks are, and the line above its first row.
pub(crate) const HEAD: u32 = 36;

/// The height of a thread's row.
pub(crate) const ROW: u32 = 27;

/// The height of a bar in a row.
pub(crate) const BAR: u32 = 17;

/// The room between two lanes.
pub(crate) const GAP: u32 = 14;

/// Where the ticks of a picture are, from the left of its columns.
#[derive(Clone, Copy)]
pub(crate) struct Grid {
    scale: Scale,
    // the width of a column
    width: u64,
    are_windows_wide: bool,
    ghost some: { 0 < width },
}

impl Grid {
    /// The grid of a picture of a configuration's run at the ticks of a scale.
    pub(crate) fn of(config: &Config, scale: Scale) -> Grid {
        let columns = (scale.columns() as u64).max(1);
        let width = (u64::from(MOST_COLUMNS) / columns)
            .min(WIDEST_COLUMN)
            .max(1);
        let frame = u64::from(config.frame()).saturating_mul(width) / scale.each();
        Grid {
            scale,
            width,
            are_windows_wide: frame >= FRAME_WIDTH,
        }
    }

    /// Which ticks these are.
    pub(crate) fn scale(&self) -> Scale {
        self.scale
    }

    /// The width of a column.
    pub(crate) fn column_width(&self) -> u64
        ensures { 0 < result }
    {
        self.width
    }

    /// Whether windows are drawn: whether a frame is wide enough.
    pub(crate) fn are_windows_wide(&self) -> bool {
        self.are_windows_wide
    }

    /// Whether a column is a tick, and wide enough for its steps to be seen apart.
    pub(crate) fn are_steps_wide(&self) -> bool {
        self.scale.each() == 1 && self.width >= STEP_WIDTH
    }

    /// Whether the running thread is drawn as one that stands still while ticks are lost: whether a column is a tick,
    /// and windows are drawn.
    pub(crate) fn are_losses_exact(&self) -> bool {
        self.scale.each() == 1 && self.are_windows_wide
    }

    /// The width of all columns.
    pub(crate) fn plot_width(&self) -> u64 {
        self.column_place(self.scale.columns())
    }

    /// Where a column begins.
    pub(crate) fn column_place(&self, column: usize) -> u64 {
        (column as u64).saturating_mul(self.width)
    }

    /// Where a tick begins: within the columns.
    pub(crate) fn place_of(&self, tick: u64) -> u64 {
        let ticks = tick.min(self.scale.to()).saturating_sub(self.scale.from());
        ticks.saturating_mul(self.width) / self.scale.each()
    }

    /// How wide the ticks from one on and before another are.
    pub(crate) fn width_of(&self, from: u64, to: u64) -> u64 {
        self.place_of(to).saturating_sub(self.place_of(from))
    }
}

/// Columns that are drawn as one, from one on and before another.
#[derive(Clone, Copy)]
pub(crate) struct Stretch {
    pub(crate) first: usize,
    pub(crate) end: usize,
}

impl Stretch {
    /// Where it begins.
    pub(crate) fn left(&self, grid: &Grid) -> u64 {
        grid.column_place(self.first)
    }

    /// Its width.
    pub(crate) fn width(&self, grid: &Grid) -> u64 {
        grid.column_place(self.end).saturating_sub(self.left(grid))
    }

    /// Its first tick.
    pub(crate) fn from(&self, grid: &Grid) -> u64
        ensures { result ≤ LAST_TICK }
    {
        grid.scale().start_of(self.first)
    }

    /// The tick after its last.
    pub(crate) fn to(&self, grid: &Grid) -> u64
        ensures { result ≤ LAST_TICK }
    {
        grid.scale().start_of(self.end)
    }
}

/// Whether a row has a thread at some tick.
pub(crate) fn is_shown(row: &LaneRow) -> bool {
    row.cells().iter().any(|cell| shows_thread(cell))
}

/// Whether a column has a thread at some tick.
fn shows_thread(cell: &Cell) -> bool {
    cell.is_mixed || cell.look.shade() != Shade::Free
}

/// The height of a lane; one without threads has room for a row.
pub(crate) fn lane_height(lane: &Lane) -> u32 {
    let mut rows = 0u32;
    for row in lane.rows() {
        if is_shown(row) {
            rows = rows.saturating_add(ROW);
        }
    }
    rows.max(ROW).saturating_add(HEAD)
}
