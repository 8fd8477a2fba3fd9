//! What the next turns of two partitions say of their ticks.

ghost use Rattle.std.specs.Prelude.{◌≡◌, ◌≢◌, ℕ, ◌≤◌, Option};
ghost use Rattle.ptk_words_model.specs.Windows.{WindowPlan, IsPlan, own_ticks};
ghost use Rattle.ptk_window.specs.Turn.{IsTurn};
ghost use Rattle.ptk_impact.specs.Search.{IsNextTurn, IsTrueFrom};

use crate::difference::Difference;
use ptk_window::Turn;
use ptk_words::Tick;

/// What the next turns of two partitions from a tick on say of their ticks from there on.
#[derive(Clone, Copy)]
pub(crate) enum Comparison {
    /// They agree at all of them.
    Agree,
    /// They agree at those before this tick, which comes later.
    AgreeUntil(Tick),
    /// They agree at those before the difference, and differ there.
    Differ(Difference),
}

impl Comparison {
    /// Compares the partitions' next turns from one tick on, None for a partition that has no tick from there on.
    pub(crate) fn new(turn: Option<Turn>, other: Option<Turn>) -> Comparison
        ensures { (a b : WindowPlan) (p q tick : ℕ) → IsPlan a → IsPlan b → IsNextTurn a p tick turn → IsNextTurn b q tick other
            → IsTrueFrom a p b q tick result }
    {
        match (turn, other) {
            (Some(turn), Some(other)) => Comparison::of_turns(turn, other),
            (Some(turn), None) => Comparison::Differ(Difference {
                tick: turn.start,
                end: Some(turn.end),
                other_end: None,
            }),
            (None, Some(other)) => Comparison::Differ(Difference {
                tick: other.start,
                end: None,
                other_end: Some(other.end),
            }),
            (None, None) => Comparison::Agree,
        }
    }

    /// Compares the next turns of two partitions that have one each.
    fn of_turns(turn: Turn, other: Turn) -> Comparison
        ensures { (a b : WindowPlan) (p q tick : ℕ) → IsPlan a → IsPlan b → IsTurn a p tick turn → IsTurn b q tick other
            → IsTrueFrom a p b q tick result }
    {
        if turn == other {
            return Comparison::AgreeUntil(turn.end);
        }
        let tick = Tick::new(turn.start.ticks().min(other.start.ticks()));
        Comparison::Differ(Difference {
            tick,
            end: end_at(turn, tick),
            other_end: end_at(other, tick),
        })
    }
}

/// The end of the partition's window that holds the tick, which comes no later than its next turn begins. None if the
/// turn begins later.
fn end_at(turn: Turn, tick: Tick) -> Option<Tick>
    requires { tick ≤ turn.start }
    ensures { (plan : WindowPlan) (p from : ℕ) → IsPlan plan → IsTurn plan p from turn → from ≤ tick → result ≡ (own_ticks plan p).end_at tick }
{
    if turn.start == tick {
        Some(turn.end)
    } else {
        None
    }
}
