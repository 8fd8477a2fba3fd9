//! Which stage has a tick.

ghost use Rattle.std.specs.Prelude.{◌≡◌, ℕ, ◌+◌, ◌*◌, ◌^◌, ◌<◌, ◌≤◌, length};
ghost use Rattle.ptk_window.specs.Stages.{ArePlanned, HasTick, from_at};
ghost use Rattle.ptk_window.specs.declared.stages.TheConstants.{NEVER};

use crate::table::Table;
use ptk_words::Tick;

/// The end of the last stage, which ends never: it is after every tick that is looked up, and these are at most 2^57. A
/// number, since a partition's step to its next frame compares with it, and an end that may be absent would be one more
/// test there.
pub(crate) const NEVER: u64 = u64::MAX;

/// The stage that has the tick.
pub(crate) fn stage_at(tables: &[Table], frame: u32, tick: Tick) -> usize
    requires { ArePlanned frame tables.now }
    ensures { HasTick frame tables.now result tick }
{
    let number = tick.ticks() / u64::from(frame);
    tables.partition_point(|table| table.from <= number) - 1
}

/// The tick at which the stage ends, that is the next one begins; `NEVER` of the last one.
#[inline(always)]
pub(crate) fn end_of(tables: &[Table], stage: usize) -> u64
    requires { stage < length tables.now }
    ensures next { stage + 1 < length tables.now → (frame : ℕ) → ArePlanned frame tables.now → result ≡ from_at tables.now (stage + 1) * frame }
    ensures last { length tables.now ≤ stage + 1 → result ≡ NEVER }
{
    if stage + 1 < tables.len() {
        tables[stage + 1].begin()
    } else {
        NEVER
    }
}
