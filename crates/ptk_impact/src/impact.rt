//! What a new configuration can change for a partition.

ghost use Rattle.std.specs.Prelude.{◌≡◌, ◌≤◌, ℕ};
ghost use Rattle.ptk_words.specs.declared.TheConstants.{LAST_TICK};
ghost use Rattle.ptk_config.specs.Configuration.{IsConfiguration};
ghost use Rattle.ptk_impact.specs.Deeper.{with_trace_limit};
ghost use Rattle.ptk_impact.specs.Impact.{IsImpact, RunsAreAlike};
ghost use Rattle.ptk_impact.specs.Views.{IsPartition};

use crate::changes::Changes;
use crate::laws::{deeper_trace_is_same_run, same_view_is_same_run};
use crate::limits::LimitChange;
use crate::subject::Subject;
use ptk_words::Limits;

/// What a new configuration can change for a partition.
#[derive(Clone, Copy)]
pub enum Impact {
    /// Nothing: it is in the same state at every tick.
    Unchanged,
    /// The entries that its trace keeps, and nothing else: these are the lengths of the trace.
    UnchangedButForTrace(LimitChange),
    /// It may behave otherwise: this is what differs.
    Changed(Changes),
}

impl Impact {
    /// How the new partition differs from the old one. `Unchanged` if and only if the own ticks and the ends of the
    /// windows, the limits, the bytes of the image and the input are the same; `UnchangedButForTrace` if and only if
    /// they are the same but for the trace's length, which is not. Name and place among the sections, the names of
    /// the images' files and all other partitions play no part.
    ///
    /// After every number of ticks up to 2^40 an unchanged partition is in the same state in both systems, and one that
    /// is unchanged but for the trace is in a state that differs in the kept entries alone. If it has its name in both,
    /// its part of the report is the same.
    ///
    /// Windows are compared at all ticks. A run has at most 2^40, so windows that first differ at tick 2^40 or later
    /// are `Changed`, although no run has a tick at which they differ (`Difference::is_past_runs`).
    pub fn between(old: &Subject<'_>, new: &Subject<'_>) -> Impact
        requires old { IsPartition old.now }
        requires new { IsPartition new.now }
        ensures views { IsImpact old.now new.now result }
        ensures runs { (n : ℕ) → n ≤ LAST_TICK → RunsAreAlike old.now new.now n result }
    {
        same_view_is_same_run();
        deeper_trace_is_same_run();
        Impact::of_views(old, new)
    }

    /// What stands between what boot sees of the two partitions.
    fn of_views(old: &Subject<'_>, new: &Subject<'_>) -> Impact
        requires old { IsPartition old.now }
        requires new { IsPartition new.now }
        ensures views { IsImpact old.now new.now result }
        ensures configured { IsConfiguration old.now.config.now × IsConfiguration new.now.config.now }
    {
        let changes = Changes::between(old, new);
        let before = old.section().limits();
        let after = new.section().limits();
        if !changes.are_in_limits_alone() {
            return Impact::Changed(changes);
        }
        if before == after {
            return Impact::Unchanged;
        }
        let Some(trace) = changes.limits.trace else {
            return Impact::Changed(changes);
        };
        if before == with_trace_limit(before.trace, after) {
            Impact::UnchangedButForTrace(trace)
        } else {
            Impact::Changed(changes)
        }
    }
}

/// The limits with a trace of this length.
fn with_trace_limit(trace: u32, limits: Limits) -> Limits
    ensures { result ≡ with_trace_limit trace limits }
{
    Limits { trace, ..limits }
}
