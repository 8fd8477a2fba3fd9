//! A partition's way from one of its windows to the next.

ghost use Rattle.std.specs.Prelude.{◌≡◌, ℕ, ◌+◌, ◌*◌, ◌^◌, ◌<◌, ◌≤◌, None, IfSome, MatchOption, length};
ghost use Rattle.ptk_words_model.specs.Windows.{own_ticks};
ghost use Rattle.ptk_window.specs.Order.{IsFirst};
ghost use Rattle.ptk_window.specs.Stages.{ArePlanned, from_at, groups_at, plan_of};
ghost use Rattle.ptk_window.specs.Turn.{IsShort, IsTurn};

use crate::near::{Near, Turn};
use crate::stages::end_of;
use crate::table::Table;
use ptk_words::{PartId, Tick};
use std::marker::Model;

/// The way of a partition through its windows in a plan. It finds the first of them, and one that is farther on, as any
/// look-up does; from then on it knows at which window it is, and goes to the next one without a search or a test.
#[derive(Drop)]
pub struct Walk<'a> {
    tables: &'a [Table],
    near: Near,
    stay: Option<Stay>,
    frame: u32,
    partition: PartId,
}

/// What is kept of the stage whose windows the frame here has.
#[derive(Clone, Copy)]
pub(crate) struct Stay {
    /// Where the partition's first window stands.
    first: usize,
    /// The tick at which the stage ends; `NEVER` of the last one.
    end: u64,
}

impl<'a> Model for Walk<'a> {
    ghost use Rattle.ptk_window.specs.Walks.{IsOnWay, Way, way_of};

    ghost Value = { Way };

    ghost view = { λ a. way_of a.frame a.tables.now a.partition a.near a.stay };

    ghost invariant = { λ a. IsOnWay a.frame a.tables.now a.partition a.near a.stay };
}

impl<'a> Walk<'a> {
    /// The way of a partition through the windows of these tables, near one of them where that is so.
    #[inline(always)]
    pub(crate) fn new(tables: &'a [Table], frame: u32, partition: PartId, near: Near) -> Walk<'a>
        requires { ArePlanned frame tables.now }
        ensures { result ≡ record { plan = plan_of frame tables.now; partition = partition; end = None } }
    {
        Walk {
            tables,
            near,
            stay: None,
            frame,
            partition,
        }
    }

    /// Where the partition was last found, for the next look-up.
    pub fn near(&self) -> Near {
        self.near
    }

    /// The partition's first own tick that is not before this one, which is at most 2^57, and the end of the window
    /// that holds it. Where it is known at which window the way is, that one ends at this tick. None where the
    /// partition has no tick from this one on.
    #[inline(always)]
    pub fn turn_after(&mut self, end: Tick) -> Option<Turn>
        requires time { end ≤ 2 ^ 57 }
        requires at { IfSome self.old.end (λ at. at ≡ end) }
        ensures same { (self.new.plan ≡ self.old.plan) × (self.new.partition ≡ self.old.partition) }
        ensures turn { MatchOption result
            ((own_ticks self.old.plan self.old.partition).next_of end ≡ None)
            (IsTurn self.old.plan self.old.partition end) }
        ensures near { IfSome result (IsShort self.old.plan end) }
        ensures at { IfSome result (λ turn. IfSome self.new.end (λ at. at ≡ turn.end)) }
    {
        if let Some(stay) = self.stay {
            if self
                .near
                .steps_on(self.tables, self.partition, stay.first, stay.end)
            {
                return Some(self.near.turn(self.tables, end));
            }
        }
        self.turn_from(end)
    }

    /// The partition's first own tick that is not before the tick, which is at most 2^57, and the end of the window
    /// that holds it, wherever the way is: by a look-up. None where the partition has no tick from this one on.
    #[cold]
    #[inline(never)]
    pub fn turn_from(&mut self, tick: Tick) -> Option<Turn>
        requires { tick ≤ 2 ^ 57 }
        ensures same { (self.new.plan ≡ self.old.plan) × (self.new.partition ≡ self.old.partition) }
        ensures turn { MatchOption result
            ((own_ticks self.old.plan self.old.partition).next_of tick ≡ None)
            (IsTurn self.old.plan self.old.partition tick) }
        ensures near { IfSome result (IsShort self.old.plan tick) }
        ensures at { IfSome result (λ turn. IfSome self.new.end (λ at. at ≡ turn.end)) }
    {
        let (tables, frame, partition) = (self.tables, self.frame, self.partition);
        self.stay = None;
        if !self.near.look_up(tables, frame, partition, tick) {
            return None;
        }
        self.stay = stay_in(tables, self.near.stage(), partition);
        Some(self.near.turn(tables, tick))
    }
}

/// What is kept of a stage. None where it is not known where the partition's first window stands.
fn stay_in(tables: &[Table], stage: usize, partition: PartId) -> Option<Stay>
    requires { stage < length tables.now }
    ensures first { IfSome result (λ stay. IsFirst (groups_at tables.now stage) partition stay.first) }
    ensures ends { IfSome result (λ stay. stage + 1 < length tables.now → (frame : ℕ) → ArePlanned frame tables.now → stay.end ≡ from_at tables.now (stage + 1) * frame) }
{
    let first = tables[stage].first_of(partition)?;
    let end = end_of(tables, stage);
    Some(Stay { first, end })
}
