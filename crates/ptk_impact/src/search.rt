//! The first tick at which two partitions' windows differ.

ghost use Rattle.std.specs.Prelude.{◌≡◌, ℕ, ◌+◌, ◌^◌, ◌<◌, ◌≤◌, ◌↔◌, ◌⊎◌, IsNone, IfSome, MatchOption};
ghost use Rattle.ptk_impact.specs.Agreement.{Agree, IsDifference, IsFirstDifference};
ghost use Rattle.ptk_impact.specs.Search.{AgreeNearBegins, IsBefore, IsDifferenceFrom};

use crate::comparison::Comparison;
use crate::difference::Difference;
use ptk_window::WindowPlan;
use ptk_words::{PartId, Tick};

/// The least tick at which the windows of two partitions differ, each of a plan of its own: one of them has a window
/// that holds the tick and the other has none, or their windows that hold it end at two ticks. None if and only if
/// there is no such tick, so that the two have the same own ticks and window ends at all ticks, however the plans are
/// written.
///
/// It compares window by window, from the beginning of each stage of either plan for one frame of each plan, and no
/// further. So it ends after at most 32 such ranges of at most 193 pairs of windows each, for plans of at most 16
/// stages and 64 windows in a stage, however long their frames are. It takes no memory.
pub fn first_difference(
    plan: &WindowPlan,
    partition: PartId,
    other_plan: &WindowPlan,
    other_partition: PartId,
) -> Option<Difference>
    ensures same { IsNone result ↔ ((tick : ℕ) → Agree plan.now partition other_plan.now other_partition tick) }
    ensures first { IfSome result (IsFirstDifference plan.now partition other_plan.now other_partition) }
{
    plan.is_plan();
    other_plan.is_plan();
    let near_own = difference_near_stages(plan, plan, partition, other_plan, other_partition);
    let near_other = difference_near_stages(
        other_plan,
        plan,
        partition,
        other_plan,
        other_partition,
    );
    earlier(near_own, near_other)
}

/// A difference of the two partitions, before which they agree near the beginning of each stage of the plan `staged`.
/// None if they agree near each of them.
fn difference_near_stages(
    staged: &WindowPlan,
    plan: &WindowPlan,
    partition: PartId,
    other_plan: &WindowPlan,
    other_partition: PartId,
) -> Option<Difference>
    ensures differ { IfSome result (IsDifference plan.now partition other_plan.now other_partition) }
    ensures agree { AgreeNearBegins staged.now plan.now partition other_plan.now other_partition result }
{
    let mut first = None;
    for stage in 0..staged.stages() {
        let begin = staged.begin_of(stage);
        let found = difference_from(begin, plan, partition, other_plan, other_partition);
        first = earlier(first, found);
    }
    first
}

/// The earlier of two differences, None if there is none.
fn earlier(found: Option<Difference>, other: Option<Difference>) -> Option<Difference>
    ensures before { (k : ℕ) → IsBefore k result → IsBefore k found × IsBefore k other }
    ensures one { (result ≡ found) ⊎ (result ≡ other) }
{
    match (found, other) {
        (Some(first), Some(second)) if second.tick.ticks() < first.tick.ticks() => other,
        (Some(_), _) => found,
        (None, _) => other,
    }
}

/// The first difference of the two partitions that does not come before the beginning. None if they agree at each
/// tick from there on for one frame of each plan.
fn difference_from(
    begin: Tick,
    plan: &WindowPlan,
    partition: PartId,
    other_plan: &WindowPlan,
    other_partition: PartId,
) -> Option<Difference>
    requires { begin ≤ 2 ^ 56 }
    ensures { MatchOption result
        ((k : ℕ) → begin ≤ k → k < begin + (plan.now.frame + other_plan.now.frame) → Agree plan.now partition other_plan.now other_partition k)
        (IsDifferenceFrom plan.now partition other_plan.now other_partition begin) }
{
    plan.is_plan();
    other_plan.is_plan();
    let end = begin.ticks() + u64::from(plan.frame()) + u64::from(other_plan.frame());
    let (mut near, mut other_near) = (plan.first_near(), other_plan.first_near());
    let mut tick = begin;
    while tick.ticks() < end {
        let turn = plan.turn_from(partition, tick, &mut near);
        let other_turn = other_plan.turn_from(other_partition, tick, &mut other_near);
        match Comparison::new(turn, other_turn) {
            Comparison::AgreeUntil(next) => tick = next,
            Comparison::Agree => return None,
            Comparison::Differ(difference) => return Some(difference),
        }
    }
    None
}
