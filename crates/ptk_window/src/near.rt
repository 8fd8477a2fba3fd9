//! Where a partition was last found among its windows, and how it goes on from there.

ghost use Rattle.std.specs.Prelude.{◌≡◌, ℕ, ◌+◌, ◌*◌, ◌%◌, ◌^◌, ◌<◌, ◌≤◌, false, length, slice_index_or, IsTrue, All, MatchBool};
ghost use Rattle.ptk_words_model.specs.Windows.{IsOwn};
ghost use Rattle.ptk_window.specs.Order.{IsFirst};
ghost use Rattle.ptk_window.specs.Stages.{ArePlanned, HasTick, from_at, groups_at, plan_of};
ghost use Rattle.ptk_window.specs.declared.stages.TheConstants.{NEVER};

use crate::lookup::place_after;
use crate::stages::{end_of, stage_at};
use crate::table::Table;
use ptk_words::{PartId, Tick};
use ptk_words_model::Window;

/// A turn of a partition: its first own tick from some tick on, up to the end of the window that holds it.
#[derive(Clone, Copy, PartialEq, Eq)]
pub struct Turn {
    /// The first own tick.
    pub start: Tick,
    /// The first tick after the window that holds it.
    pub end: Tick,
}

/// Where a partition was last found among its windows: at one of them, in one of the frames that repeat.
///
/// It decides how fast the next look-up is and never what it returns, so nothing is promised of its value: a look-up
/// tests whether it fits the plan and the partition.
#[derive(Clone, Copy)]
pub struct Near {
    /// How many ticks a frame has.
    frame: u32,
    /// The tick at which the frame begins.
    frame_start: u64,
    /// The stage whose windows the frame has.
    stage: usize,
    /// Where the window stands among the stage's, by partition.
    place: usize,
    ghost aligned: { frame_start % frame ≡ 0 },
}

impl Near {
    ghost use Rattle.ptk_window.specs.Near.{IsEndAt, IsNextFrom, IsTurnAt};

    /// The first window by partition of the first stage, in the first frame, which has this many ticks.
    pub(crate) fn first(frame: u32) -> Near {
        Near {
            frame,
            frame_start: 0,
            stage: 0,
            place: 0,
        }
    }

    /// Goes to the partition's next window from the tick on. False where it has none from there on.
    #[inline(always)]
    pub(crate) fn look_up(
        &mut self,
        tables: &[Table],
        frame: u32,
        partition: PartId,
        tick: Tick,
    ) -> bool
        requires planned { ArePlanned frame tables.now }
        requires time { tick ≤ 2 ^ 57 }
        ensures { MatchBool result
            (IsNextFrom frame tables.now partition tick self.new)
            ((k : ℕ) → tick ≤ k → ¬ IsOwn (plan_of frame tables.now) partition k) }
    {
        if self.goes_on(tables, frame, partition, tick) {
            return true;
        }
        self.search(tables, frame, partition, tick)
    }

    /// Goes to the partition's next window from the tick on, where that is the window here, which holds the tick, or
    /// the partition's next one. False where it is neither.
    #[inline(always)]
    fn goes_on(&mut self, tables: &[Table], frame: u32, partition: PartId, tick: Tick) -> bool
        requires planned { ArePlanned frame tables.now }
        requires time { tick ≤ 2 ^ 57 }
        ensures { IsTrue result → IsNextFrom frame tables.now partition tick self.new }
    {
        if self.frame != frame || tick.ticks() < self.frame_start || !self.is_in_stage(tables) {
            return false;
        }
        let windows = tables[self.stage].by_partition.as_slice();
        if windows.len() <= self.place {
            return false;
        }
        let window = windows[self.place];
        if window.partition != partition {
            return false;
        }
        if tick.ticks() < self.frame_start + window.end() {
            return self.frame_start + u64::from(window.start) <= tick.ticks();
        }
        self.moves_on(tables, partition, tick)
    }

    /// Whether the stage here has the frame here.
    #[inline(always)]
    fn is_in_stage(&self, tables: &[Table]) -> bool
        ensures within { IsTrue result → self.now.stage < length tables.now }
        ensures has { IsTrue result → (frame : ℕ) → ArePlanned frame tables.now → HasTick frame tables.now self.now.stage self.now.frame_start }
    {
        self.stage < tables.len()
            && tables[self.stage].begin() <= self.frame_start
            && self.frame_start < end_of(tables, self.stage)
    }

    /// Goes from the partition's window here, which ended by the tick, to the next one: that after it, or the
    /// first in the next frame. False where that one ended by the tick too.
    fn moves_on(&mut self, tables: &[Table], partition: PartId, tick: Tick) -> bool
        requires planned { ArePlanned self.old.frame tables.now }
        requires time { tick ≤ 2 ^ 57 }
        requires begun { self.old.frame_start ≤ tick }
        requires has { HasTick self.old.frame tables.now self.old.stage self.old.frame_start }
        requires place { self.old.place < length (groups_at tables.now self.old.stage) }
        requires own { (d : Window) → (slice_index_or (groups_at tables.now self.old.stage) self.old.place d).partition ≡ partition }
        requires ended { (d : Window) → self.old.frame_start
            + ((slice_index_or (groups_at tables.now self.old.stage) self.old.place d).start
            + (slice_index_or (groups_at tables.now self.old.stage) self.old.place d).length) ≤ tick }
        ensures { IsTrue result → IsNextFrom self.old.frame tables.now partition tick self.new }
    {
        let windows = tables[self.stage].by_partition.as_slice();
        let next = self.place + 1;
        if next < windows.len() && windows[next].partition == partition {
            self.place = next;
            return tick.ticks() < self.frame_start + windows[next].end();
        }
        self.begins_anew(tables, partition, tick)
    }

    /// Goes to the partition's first window in the next frame, where all in this one ended by the tick. False where
    /// that one ended by the tick too, or no such window is known.
    fn begins_anew(&mut self, tables: &[Table], partition: PartId, tick: Tick) -> bool
        requires planned { ArePlanned self.old.frame tables.now }
        requires time { tick ≤ 2 ^ 57 }
        requires begun { self.old.frame_start ≤ tick }
        requires has { HasTick self.old.frame tables.now self.old.stage self.old.frame_start }
        requires ended { All (λ w. w.partition ≡ partition → self.old.frame_start + (w.start + w.length) ≤ tick)
            (groups_at tables.now self.old.stage) }
        ensures { IsTrue result → IsNextFrom self.old.frame tables.now partition tick self.new }
    {
        let frame_start = self.frame_start + u64::from(self.frame);
        let stage = self.next_stage(tables, frame_start);
        let Some(place) = tables[stage].first_of(partition) else {
            return false;
        };
        let windows = tables[stage].by_partition.as_slice();
        *self = Near {
            frame: self.frame,
            frame_start,
            stage,
            place,
        };
        tick.ticks() < frame_start + windows[place].end()
    }

    /// Goes from the partition's window here to its next one, in this stage, which ends at `stage_end` and where the
    /// partition's first window stands at `first`. False, and nothing changes, where this stage has none after it.
    #[inline(always)]
    pub(crate) fn steps_on(
        &mut self,
        tables: &[Table],
        partition: PartId,
        first: usize,
        stage_end: u64,
    ) -> bool
        requires planned { ArePlanned self.old.frame tables.now }
        requires has { HasTick self.old.frame tables.now self.old.stage self.old.frame_start }
        requires room { self.old.frame_start ≤ 288230376151711744 }
        requires place { self.old.place < length (groups_at tables.now self.old.stage) }
        requires own { (d : Window) → (slice_index_or (groups_at tables.now self.old.stage) self.old.place d).partition ≡ partition }
        requires first { IsFirst (groups_at tables.now self.old.stage) partition first }
        requires stage_end { self.old.stage + 1 < length tables.now → stage_end ≡ from_at tables.now (self.old.stage + 1) * self.old.frame }
        ensures next { IsTrue result → (tick : ℕ) → tick ≤ 2 ^ 57 → ((d : Window) → IsEndAt tables.now self.old d tick) → IsNextFrom self.old.frame tables.now partition tick self.new }
        ensures stage { self.new.stage ≡ self.old.stage }
        ensures stays { result ≡ false → self.new ≡ self.old }
    {
        let windows = tables[self.stage].by_partition.as_slice();
        let next = self.place + 1;
        if next < windows.len() && windows[next].partition == partition {
            self.place = next;
            return true;
        }
        let next_frame = self.frame_start + u64::from(self.frame);
        if next_frame < stage_end {
            self.place = first;
            self.frame_start = next_frame;
            return true;
        }
        false
    }

    /// The stage here.
    pub(crate) fn stage(&self) -> usize
        ensures { result ≡ self.now.stage }
    {
        self.stage
    }

    /// The stage that has the next frame, which begins at the tick.
    #[inline(always)]
    fn next_stage(&self, tables: &[Table], next: u64) -> usize
        requires planned { ArePlanned self.now.frame tables.now }
        requires has { HasTick self.now.frame tables.now self.now.stage self.now.frame_start }
        requires next { next ≡ self.now.frame_start + self.now.frame }
        requires room { next < NEVER }
        ensures { HasTick self.now.frame tables.now result next }
    {
        if next < end_of(tables, self.stage) {
            self.stage
        } else {
            self.stage + 1
        }
    }

    /// Goes to the partition's next window from the tick on, which it finds by halves. False where it has none from
    /// there on.
    #[cold]
    #[inline(never)]
    pub(crate) fn search(
        &mut self,
        tables: &[Table],
        frame: u32,
        partition: PartId,
        tick: Tick,
    ) -> bool
        requires planned { ArePlanned frame tables.now }
        requires time { tick ≤ 2 ^ 57 }
        ensures { MatchBool result
            (IsNextFrom frame tables.now partition tick self.new)
            ((k : ℕ) → tick ≤ k → ¬ IsOwn (plan_of frame tables.now) partition k) }
    {
        let stage = stage_at(tables, frame, tick);
        let offset = tick.ticks() % u64::from(frame);
        let frame_start = tick.ticks() - offset;
        if let Some(place) = place_after(&tables[stage].by_partition, partition, offset) {
            *self = Near {
                frame,
                frame_start,
                stage,
                place,
            };
            return true;
        }
        self.search_later(
            tables,
            frame,
            partition,
            stage,
            frame_start + u64::from(frame),
        )
    }

    /// Goes to the partition's first window in the frames from that which begins at the tick on, in this stage or a
    /// later one. False where it has none there.
    fn search_later(
        &mut self,
        tables: &[Table],
        frame: u32,
        partition: PartId,
        stage: usize,
        from: u64,
    ) -> bool
        requires planned { ArePlanned frame tables.now }
        requires time { from ≤ 2 ^ 58 }
        requires aligned { from % frame ≡ 0 }
        requires stage { stage < length tables.now }
        requires begun { from_at tables.now stage * frame ≤ from }
        ensures next { MatchBool result
            (IsNextFrom frame tables.now partition from self.new)
            ((k : ℕ) → from ≤ k → ¬ IsOwn (plan_of frame tables.now) partition k) }
        ensures later { IsTrue result → from ≤ self.new.frame_start }
    {
        for later in stage..tables.len() {
            let frame_start = from.max(tables[later].begin());
            if end_of(tables, later) <= frame_start {
                continue;
            }
            if let Some(place) = place_after(&tables[later].by_partition, partition, 0) {
                *self = Near {
                    frame,
                    frame_start,
                    stage: later,
                    place,
                };
                return true;
            }
        }
        false
    }

    /// From the tick on, the ticks of the window here.
    #[inline(always)]
    pub(crate) fn turn(&self, tables: &[Table], tick: Tick) -> Turn
        requires stage { self.now.stage < length tables.now }
        requires place { self.now.place < length (groups_at tables.now self.now.stage) }
        requires room { (d : Window) → self.now.frame_start
            + ((slice_index_or (groups_at tables.now self.now.stage) self.now.place d).start
            + (slice_index_or (groups_at tables.now self.now.stage) self.now.place d).length) < 2 ^ 64 }
        ensures { IsTurnAt tables.now tick self.now result }
    {
        let window = tables[self.stage].by_partition[self.place];
        let start = self.frame_start + u64::from(window.start);
        Turn {
            start: Tick::new(tick.ticks().max(start)),
            end: Tick::new(self.frame_start + window.end()),
        }
    }
}
