//! Laws of the lengths of the trace and of the output, each the contract of a function without code.

ghost use Rattle.ptk_impact.specs.Deeper.{ShorterTraceIsTail, TraceIsAllThatDiffers};
ghost use Rattle.ptk_impact.specs.Larger.{LargerOutputIsSameRun, OutputIsOnlyAddedTo};

/// Two partitions with the same own ticks, image, input and limits but for the trace's length have, after every number
/// of ticks, states that differ in the kept entries alone.
pub fn trace_is_all_that_differs()
    ensures { TraceIsAllThatDiffers }
{}

/// Of two such partitions the shorter trace has the last entries of the longer one, after every number of ticks.
pub fn shorter_trace_is_tail()
    ensures { ShorterTraceIsTail }
{}

/// What a partition has written stays: its output after fewer ticks is the beginning of its output after more.
pub fn output_is_only_added_to()
    ensures { OutputIsOnlyAddedTo }
{}

/// Two partitions with the same own ticks, image, input and limits but for the output have the same state, in all its
/// parts, after every number of ticks at which the one with the smaller limit has written less than that limit, or the
/// one with the larger limit no more than it.
pub fn larger_output_is_same_run()
    ensures { LargerOutputIsSameRun }
{}
