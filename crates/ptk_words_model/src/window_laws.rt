//! Laws of the own ticks, each the contract of a function without code.

ghost use Rattle.ptk_words_model.specs.OwnTicksLaws.{AcceptedIsPlan, InForceHolds, NextIsFirst, NextIsOne, NextIsNear, EndIsOfWindow, EndIsOne, WindowIsWhole, OwnTicksAreApart};

/// Stages without a fault are a plan, and each window is a known partition's.
pub fn accepted_is_plan()
    ensures { AcceptedIsPlan }
{}

/// The windows of a frame are those of the stage of the greatest number not above the frame's.
pub fn in_force_holds()
    ensures { InForceHolds }
{}

/// The next own tick is the first one not before the tick. There is none only for a partition that has no tick from
/// this one on.
pub fn next_is_first()
    ensures { NextIsFirst }
{}

/// Only one tick is the first own one not before the tick.
pub fn next_is_one()
    ensures { NextIsOne }
{}

/// The next own tick comes less than a frame after the tick, or after the beginning of the last stage.
pub fn next_is_near()
    ensures { NextIsNear }
{}

/// The end is that of the partition's window that holds the tick. There is none only for a tick not its own.
pub fn end_is_of_window()
    ensures { EndIsOfWindow }
{}

/// Only one end is that of the partition's window that holds the tick.
pub fn end_is_one()
    ensures { EndIsOne }
{}

/// The end comes at most a frame after the tick, and from the tick to it each tick is the partition's, in the same
/// window.
pub fn window_is_whole()
    ensures { WindowIsWhole }
{}

/// No tick is two partitions'.
pub fn own_ticks_are_apart()
    ensures { OwnTicksAreApart }
{}
