//! Ticks and the times of a clock.

ghost use Rattle.std.specs.Prelude.{◌≡◌, ℕ, ◌<◌, ◌≤◌, ◌+◌, ◌*◌, ◌↔◌, pos};
ghost use Rattle.ptk_words.specs.declared.TheConstants.{LAST_TICK};
ghost use Rattle.ptk_clock.specs.Ticks.{tick_of, IsNotBefore, seconds_of, nanoseconds_of};

use ptk_words::{LAST_TICK, Tick};

/// A second that begins after the last tick of any run; a later one is as late (own choice).
const LAST_SECOND: u64 = LAST_TICK / 1_000_000 + 1;

/// The tick of a deadline: the least one of 1,000 ns that is not before the time, 0 for negative times, and
/// `LAST_TICK + 1`, which is never due, where that tick is above `LAST_TICK`.
pub fn to_tick(seconds: i64, nanoseconds: u32) -> Tick
    requires { nanoseconds < 1000000000 }
    ensures value { result ≡ tick_of seconds nanoseconds }
    ensures least { (tick : ℕ) → tick ≤ LAST_TICK → (result ≤ tick) ↔ IsNotBefore tick seconds nanoseconds }
    ensures bound { result ≤ LAST_TICK + 1 }
{
    if seconds < 0 {
        return Tick::new(0);
    }
    let whole = (seconds as u64).min(LAST_SECOND);
    let ticks = whole * 1_000_000 + nanoseconds.div_ceil(1000) as u64;
    Tick::new(ticks.min(LAST_TICK + 1))
}

/// The time of a tick, as seconds and nanoseconds.
pub fn from_tick(tick: Tick) -> (i64, u32)
    ensures value { result ≡ (pos (seconds_of tick), nanoseconds_of tick) }
    ensures time { seconds_of tick * 1000000000 + nanoseconds_of tick ≡ tick * 1000 }
    ensures nanoseconds { nanoseconds_of tick < 1000000000 }
{
    let ticks = tick.ticks();
    (
        (ticks / 1_000_000) as i64,
        (ticks % 1_000_000 * 1000) as u32,
    )
}
