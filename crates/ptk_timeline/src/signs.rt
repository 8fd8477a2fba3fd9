//! What a picture shows, which its legend explains.

ghost use Rattle.std.specs.Prelude.{◌≤◌};
ghost use Rattle.ptk_words.specs.declared.TheConstants.{LAST_TICK};

use crate::grid::{Grid, Stretch};
use crate::rows::{goes_on, stands_still};
use ptk_config::{Config, Section};
use ptk_timeline_segments::{Cell, Lane, Look, Marks, Recording, Shade, Span, next_window};
use ptk_window::WindowPlan;
use ptk_words::PartId;

/// A kind of shape that a picture can have.
#[derive(Clone, Copy, PartialEq, Eq)]
pub(crate) enum Sign {
    Running,
    Suspended,
    Ready,
    Mutex,
    Condition,
    Relock,
    Sleep,
    Join,
    Input,
    Ended,
    Halted,
    Raised,
    Mixed,
    Step,
    Window,
    NoWindow,
    NarrowWindows,
    Arrived,
    Dropped,
    Lost,
    End,
    Plan,
}

impl Sign {
    /// How many there are.
    pub(crate) const COUNT: usize = 22;

    /// All, in the order of the legend.
    pub(crate) const ALL: [Sign; Sign::COUNT] = [
        Sign::Running,
        Sign::Suspended,
        Sign::Ready,
        Sign::Mutex,
        Sign::Condition,
        Sign::Relock,
        Sign::Sleep,
        Sign::Join,
        Sign::Input,
        Sign::Ended,
        Sign::Halted,
        Sign::Raised,
        Sign::Mixed,
        Sign::Step,
        Sign::Window,
        Sign::NoWindow,
        Sign::NarrowWindows,
        Sign::Arrived,
        Sign::Dropped,
        Sign::Lost,
        Sign::End,
        Sign::Plan,
    ];

    /// That of a shade, None if a number without a thread has it.
    pub(crate) fn of(shade: Shade) -> Option<Sign> {
        match shade {
            Shade::Free => None,
            Shade::Running => Some(Sign::Running),
            Shade::Ready => Some(Sign::Ready),
            Shade::Input => Some(Sign::Input),
            Shade::Sleep => Some(Sign::Sleep),
            Shade::Join => Some(Sign::Join),
            Shade::Mutex => Some(Sign::Mutex),
            Shade::Condition => Some(Sign::Condition),
            Shade::Relock => Some(Sign::Relock),
            Shade::Ended => Some(Sign::Ended),
            Shade::Halted => Some(Sign::Halted),
        }
    }

    /// Its class in the picture's style.
    pub(crate) fn class(self) -> &'static str {
        match self {
            Sign::Running => "running",
            Sign::Suspended => "suspended",
            Sign::Ready => "ready",
            Sign::Mutex => "mutex",
            Sign::Condition => "condition",
            Sign::Relock => "relock",
            Sign::Sleep => "sleep",
            Sign::Join => "join",
            Sign::Input => "input",
            Sign::Ended => "ended",
            Sign::Halted => "still",
            Sign::Raised => "raised",
            Sign::Mixed => "mixed",
            Sign::Step => "steps",
            Sign::Window => "window",
            Sign::NoWindow => "lane",
            Sign::NarrowWindows => "narrow",
            Sign::Arrived => "arrived",
            Sign::Dropped => "dropped",
            Sign::Lost => "lost",
            Sign::End => "halted",
            Sign::Plan => "plan",
        }
    }

    /// What it means.
    pub(crate) fn meaning(self) -> &'static str {
        match self {
            Sign::Running => "running",
            Sign::Suspended => "running, but stands still",
            Sign::Ready => "ready",
            Sign::Mutex => "blocked: mutex",
            Sign::Condition => "blocked: condition variable",
            Sign::Relock => "blocked: mutex again after a condition wait",
            Sign::Sleep => "blocked: sleep",
            Sign::Join => "blocked: join",
            Sign::Input => "blocked: console",
            Sign::Ended => "ended, not yet joined",
            Sign::Halted => "not ended, in a halted partition",
            Sign::Raised => "effective priority above the assigned one",
            Sign::Mixed => "something else too, for less long",
            Sign::Step => "a step begins",
            Sign::Window => "the partition's own window",
            Sign::NoWindow => "no window of the partition",
            Sign::NarrowWindows => "windows, too narrow to be drawn",
            Sign::Arrived => "input comes",
            Sign::Dropped => "input lost",
            Sign::Lost => "ticks lost at a window's end",
            Sign::End => "the partition halts: fault or exit",
            Sign::Plan => "the plan's next windows begin",
        }
    }
}

/// Which signs a picture has.
#[derive(Clone, Copy)]
pub(crate) struct Signs([bool; Sign::COUNT]);

impl Signs {
    /// Those of the picture of a recording.
    pub(crate) fn of(config: &Config, recording: &Recording, grid: &Grid) -> Signs {
        let mut signs = Signs([false; Sign::COUNT]);
        if !grid.are_windows_wide() {
            signs.add(Sign::NarrowWindows);
        }
        for place in 0..config.parts() {
            let p = PartId::new(place as u8);
            if grid.are_windows_wide() {
                let ticks = Span {
                    from: grid.scale().from(),
                    to: grid.scale().to(),
                };
                signs.see_windows(config.plan(), p, grid, &ticks, Sign::Window, Sign::NoWindow);
            }
            if let Some(lane) = recording.lanes().get(place) {
                signs.see_lane(config.plan(), lane, p, grid);
            }
        }
        signs.see_inputs(config.sections(), grid);
        signs.see_stages(config, grid);
        signs
    }

    /// A sign is there.
    fn add(&mut self, sign: Sign) {
        if let Some(is_there) = self.0.get_mut(sign as usize) {
            *is_there = true;
        }
    }

    /// Whether a sign is there.
    pub(crate) fn has(&self, sign: Sign) -> bool {
        self.0.get(sign as usize).copied().unwrap_or(false)
    }

    /// How many signs are there.
    pub(crate) fn count(&self) -> u32 {
        let mut count = 0u32;
        for is_there in self.0 {
            count = count.saturating_add(u32::from(is_there));
        }
        count
    }

    /// The signs of a lane are there.
    fn see_lane(&mut self, plan: &WindowPlan, lane: &Lane, p: PartId, grid: &Grid) {
        for row in lane.rows() {
            self.see_row(plan, row.cells(), lane.marks(), p, grid);
        }
        for marks in lane.marks() {
            self.see_marks(marks, grid);
        }
    }

    /// The signs of a row are there.
    fn see_row(
        &mut self,
        plan: &WindowPlan,
        cells: &[Cell],
        marks: &[Marks],
        p: PartId,
        grid: &Grid,
    ) {
        let mut first = 0;
        for (column, cell) in cells.iter().enumerate() {
            let end = column.saturating_add(1);
            if cell.is_mixed {
                self.add(Sign::Mixed);
            }
            if !goes_on(grid, cells, marks, column) {
                let stretch = Stretch { first, end };
                let is_still = stands_still(grid, cell, marks.get(column));
                self.see_look(plan, &cell.look, is_still, &stretch, p, grid);
                first = end;
            }
        }
    }

    /// The signs of a bar of a look are there, of a running thread that stands still or not.
    fn see_look(
        &mut self,
        plan: &WindowPlan,
        look: &Look,
        is_still: bool,
        stretch: &Stretch,
        p: PartId,
        grid: &Grid,
    ) {
        if look.raised.is_some() {
            self.add(Sign::Raised);
        }
        let Some(sign) = Sign::of(look.shade()) else {
            return;
        };
        if is_still {
            self.add(Sign::Suspended);
        } else if sign == Sign::Running && grid.are_windows_wide() {
            let ticks = Span {
                from: stretch.from(grid),
                to: stretch.to(grid),
            };
            self.see_windows(plan, p, grid, &ticks, Sign::Running, Sign::Suspended);
        } else {
            self.add(sign);
        }
    }

    /// The sign of a partition's windows in some ticks is there, and that of what is between them, if they are wide
    /// enough to be drawn.
    fn see_windows(
        &mut self,
        plan: &WindowPlan,
        p: PartId,
        grid: &Grid,
        ticks: &Span,
        own: Sign,
        other: Sign,
    )
        requires { ticks.now.to ≤ LAST_TICK }
    {
        let stop = ticks.to;
        let mut tick = ticks.from;
        while let Some(window) = next_window(plan, p, tick, stop) {
            self.see_ticks(other, grid, tick, window.from);
            self.see_ticks(own, grid, window.from, window.to);
            tick = window.to;
        }
        self.see_ticks(other, grid, tick, stop);
    }

    /// A sign is there if the ticks from one on and before another are wide enough to be drawn.
    fn see_ticks(&mut self, sign: Sign, grid: &Grid, from: u64, to: u64) {
        if grid.width_of(from, to) > 0 {
            self.add(sign);
        }
    }

    /// The signs of what came in a column are there.
    fn see_marks(&mut self, marks: &Marks, grid: &Grid) {
        if marks.is_stepped && grid.are_steps_wide() {
            self.add(Sign::Step);
        }
        if marks.is_lost {
            self.add(Sign::Lost);
        }
        if marks.is_dropped {
            self.add(Sign::Dropped);
        }
        if marks.is_halted {
            self.add(Sign::End);
        }
    }

    /// The sign of input is there if some comes.
    fn see_inputs(&mut self, sections: &[Section], grid: &Grid) {
        for section in sections {
            for arrival in section.input() {
                if is_drawn(grid, arrival.tick.ticks()) {
                    self.add(Sign::Arrived);
                }
            }
        }
    }

    /// The sign of a stage of the plan is there if one begins.
    fn see_stages(&mut self, config: &Config, grid: &Grid) {
        let plan = config.plan();
        for stage in 1..plan.stages() {
            if is_drawn(grid, plan.begin_of(stage).ticks()) {
                self.add(Sign::Plan);
            }
        }
    }
}

/// Whether the picture has the tick.
pub(crate) fn is_drawn(grid: &Grid, tick: u64) -> bool {
    grid.scale().from() <= tick && tick < grid.scale().to()
}
