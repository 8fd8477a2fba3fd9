//! The window plan.

use crate::faults::plan_fault;
use crate::lookup::holder;
use crate::near::{Near, Turn};
use crate::stages::stage_at;
use crate::table::Table;
use crate::walk::Walk;
use ptk_words::{PartId, Tick};
use ptk_words_model::{Window, WindowFault};
use std::alloc::{AllocError, Global};
use std::marker::Model;

/// A frame, which repeats, and by stages the windows that it has: those of a stage from the frame of its number on,
/// until the next stage's. Each window lies in the frame and is a known partition's, and no two of a stage have a
/// common tick.
#[derive(Drop)]
pub struct WindowPlan {
    frame: u32,
    tables: Vec<Table>,
}

impl Model for WindowPlan {
    ghost use Rattle.ptk_words_model.specs.Windows as plan;
    ghost use Rattle.ptk_window.specs.Stages.{ArePlanned, plan_of};

    ghost Value = { plan.WindowPlan };

    ghost view = { λ a. plan_of a.frame a.tables.items };

    ghost invariant = { λ a. ArePlanned a.frame a.tables.items };
}

ghost use Rattle.std.specs.Prelude.{◌≡◌, ◌≢◌, ℕ, ◌+◌, ◌*◌, ◌^◌, ◌<◌, ◌≤◌, None, Some, IfSome, IfOk, IfErr, MatchOption, All, length, map, slice_index_or};
ghost use Rattle.ptk_words_model.specs.WindowFaults.{plan_fault, window_fault};
ghost use Rattle.ptk_window.specs.Stages.{stage_of};
ghost use Rattle.ptk_words_model.specs.Windows.{IsOwn, IsFirstOwn, IsOwnUntil, IsPlan, Stage, own_ticks, windows_at};
ghost use Rattle.ptk_window.specs.Order.{IsOrdered, end_of};
ghost use Rattle.ptk_window.specs.Turn.{IsTurn, IsShort, IsSoon};

impl WindowPlan {
    /// The plan of these stages, for this many partitions: of each the number of the frame from which on the frame has
    /// these windows. The frame is at most 1,000,000 and each number at most 2^36.
    ///
    /// Returns the first fault: no stage, a first number that is not 0, or numbers that do not strictly rise (7). Then,
    /// stage by stage, no window (1); of the first faulty window a length below 16 (2), an end after the frame (4) or a
    /// partition that is not below `parts` (5); then two windows with a common tick (3). Refused memory is fault 6.
    pub fn new(
        alloc: Global,
        frame: u32,
        parts: usize,
        stages: &[(u64, &[Window])],
    ) -> Result<WindowPlan, WindowFault>
        requires frame { frame ≤ 1000000 }
        requires numbers { All (λ stage. stage.0 ≤ 2 ^ 36) stages.now }
        ensures none { IfOk result
            (λ _. plan_fault frame parts (map (λ stage. record { from = stage.0; windows = stage.1.now }) stages.now) ≡ None) }
        ensures value { IfOk result
            (λ plan. plan ≡ record { frame = frame; stages = map (λ stage. record { from = stage.0; windows = stage.1.now }) stages.now }) }
        ensures fault { IfErr result (λ e. e ≢ WindowFault.Memory →
            plan_fault frame parts (map (λ stage. record { from = stage.0; windows = stage.1.now }) stages.now) ≡ Some e) }
    {
        if let Some(fault) = plan_fault(frame, parts, stages) {
            return Err(fault);
        }
        let tables = tables_of(alloc, frame, parts, stages)?;
        Ok(WindowPlan { frame, tables })
    }

    /// How many ticks a frame has.
    pub fn frame(&self) -> u32
        ensures { result ≡ self.now.frame }
    {
        self.frame
    }

    /// How many stages it has, at least one.
    pub fn stages(&self) -> usize
        ensures { result ≡ length self.now.stages }
    {
        self.tables.len()
    }

    /// The tick at which a stage begins, that is the first one of the frame of its number, which comes before 2^56.
    pub fn begin_of(&self, stage: usize) -> Tick
        requires { stage < length self.now.stages }
        ensures begin { (d : Stage) → result ≡ (slice_index_or self.now.stages stage d).from * self.now.frame }
        ensures early { result ≤ 2 ^ 56 }
    {
        let tables = self.tables.as_slice();
        Tick::new(tables[stage].begin())
    }

    /// The windows in the frame that holds the tick, as they were given.
    pub fn windows_at(&self, tick: Tick) -> &[Window]
        ensures { result.now ≡ windows_at self.now tick }
    {
        let tables = self.tables.as_slice();
        &tables[stage_at(tables, self.frame, tick)].windows
    }

    /// What every plan is: its first stage begins with frame 0, the stages' numbers strictly rise, and the windows of
    /// each lie in the frame, are long enough, and no two have a common tick.
    pub fn is_plan(&self)
        ensures { IsPlan self.now }
    {
        // a function knows the invariant of a plan of which it reads a field
        let _ = &self.frame;
    }

    /// The partition whose window holds the tick, which is at most 2^57, and the first tick after that window,
    /// which comes at most a frame later. None where the tick lies in no window.
    pub fn at(&self, tick: Tick) -> Option<(PartId, Tick)>
        requires { tick ≤ 2 ^ 57 }
        ensures own { MatchOption result
            ((p : ℕ) → ¬ IsOwn self.now p tick)
            (λ found. IsOwnUntil self.now found.0 tick found.1) }
        ensures ends { (p : ℕ) → (own_ticks self.now p).end_at tick ≡ end_of p result }
        ensures near { IfSome result (λ found. (tick < found.1) × (found.1 ≤ tick + self.now.frame)) }
    {
        let tables = self.tables.as_slice();
        let table = &tables[stage_at(tables, self.frame, tick)];
        let place = tick.ticks() % u64::from(self.frame);
        let window = holder(&table.by_start, place)?;
        let end = tick.ticks() - place + window.end();
        Some((window.partition, Tick::new(end)))
    }

    /// The partition's first own tick that is not before the tick, which is at most 2^57. It comes less than a
    /// frame later, or less than a frame after the last stage begins. None where the partition has no tick from this
    /// one on.
    pub fn next_of(&self, partition: PartId, tick: Tick) -> Option<Tick>
        requires { tick ≤ 2 ^ 57 }
        ensures first { MatchOption result
            ((n : ℕ) → tick ≤ n → ¬ IsOwn self.now partition n)
            (IsFirstOwn self.now partition tick) }
        ensures next { result ≡ (own_ticks self.now partition).next_of tick }
        ensures near { IfSome result (IsSoon self.now tick) }
    {
        let tables = self.tables.as_slice();
        let mut near = Near::first(self.frame);
        if near.search(tables, self.frame, partition, tick) {
            Some(near.turn(tables, tick).start)
        } else {
            None
        }
    }

    /// Where the first look-up of a partition begins, which has been found nowhere: at the plan's first window.
    pub fn first_near(&self) -> Near {
        Near::first(self.frame)
    }

    /// The partition's way through its windows, which begins near the one where it was last found.
    #[inline(always)]
    pub fn walk(&self, partition: PartId, near: Near) -> Walk<'_>
        ensures { result ≡ record { plan = self.now; partition = partition; end = None } }
    {
        Walk::new(self.tables.as_slice(), self.frame, partition, near)
    }

    /// The partition's first own tick that is not before the tick, which is at most 2^57, and the end of the window
    /// that holds it. None where the partition has no tick from this one on.
    ///
    /// Whatever `near` is, the answer is the same. Where the window that it was left at holds the tick, or the
    /// partition's next one comes next, in this frame or the next one, there is no search and no division.
    #[inline(always)]
    pub fn turn_from(&self, partition: PartId, tick: Tick, near: &mut Near) -> Option<Turn>
        requires { tick ≤ 2 ^ 57 }
        ensures turn { MatchOption result
            ((own_ticks self.now partition).next_of tick ≡ None)
            (IsTurn self.now partition tick) }
        ensures near { IfSome result (IsShort self.now tick) }
    {
        let tables = self.tables.as_slice();
        if near.look_up(tables, self.frame, partition, tick) {
            Some(near.turn(tables, tick))
        } else {
            None
        }
    }
}

/// The tables of these stages, whose windows have no fault. An error where memory ran out.
fn tables_of(
    alloc: Global,
    frame: u32,
    parts: usize,
    stages: &[(u64, &[Window])],
) -> Result<Vec<Table>, AllocError>
    requires frame { frame ≤ 1000000 }
    requires numbers { All (λ stage. stage.0 ≤ 2 ^ 36) stages.now }
    requires fine { All (λ stage. window_fault frame parts stage.1.now ≡ None) stages.now }
    ensures stages { IfOk result (λ tables. map stage_of tables.items ≡ map (λ stage. record { from = stage.0; windows = stage.1.now }) stages.now) }
    ensures frames { IfOk result (λ tables. All (λ table. table.frame ≡ frame) tables.items) }
    ensures ordered { IfOk result
        (λ tables. All (λ table. IsOrdered frame table.windows.items table.by_start.items table.by_partition.items) tables.items) }
{
    let mut tables = Vec::new(alloc);
    for stage in stages {
        tables.push(Table::new(alloc, frame, parts, stage.0, stage.1)?)?;
    }
    Ok(tables)
}
