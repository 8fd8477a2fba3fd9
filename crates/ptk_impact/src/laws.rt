//! What the answers promise of whole runs, each the contract of a function without code.

ghost use Rattle.ptk_impact.specs.Views.{DeeperTraceIsSameRun, SameViewIsSameRun};

use crate::limit_laws::trace_is_all_that_differs;

/// A partition that boot sees alike in two systems is in the same state after every number of ticks up to 2^40, and its
/// part of the report is the same if its name is.
pub fn same_view_is_same_run()
    ensures { SameViewIsSameRun }
{}

/// A partition that boot sees alike but for the trace's length is, after every number of ticks up to 2^40, in a state
/// that differs in the kept entries alone, and its part of the report is the same if its name is.
pub fn deeper_trace_is_same_run()
    ensures { DeeperTraceIsSameRun }
{
    trace_is_all_that_differs();
}
