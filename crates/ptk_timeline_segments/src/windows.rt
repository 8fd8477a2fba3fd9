//! A partition's windows, one after the other.

ghost use Rattle.std.specs.Prelude.{◌<◌, ◌≤◌, IfSome};
ghost use Rattle.ptk_words.specs.declared.TheConstants.{LAST_TICK};

use ptk_window::WindowPlan;
use ptk_words::{PartId, Tick};

/// Ticks of one window: from one on and before a later one.
#[derive(Clone, Copy)]
pub struct Span {
    /// The first of them.
    pub from: u64,
    /// The tick after the last.
    pub to: u64,
}

/// The next window of a partition: of its first one with a tick from `from` on and before `stop`, the ticks that lie
/// there. None if no tick there is the partition's. The plan is asked at these ticks, so each stage has its own
/// windows.
pub fn next_window(plan: &WindowPlan, p: PartId, from: u64, stop: u64) -> Option<Span>
    requires { stop ≤ LAST_TICK }
    ensures { IfSome result (λ window. (from ≤ window.from) × (window.from < window.to) × (window.to ≤ stop)) }
{
    let mut near = plan.first_near();
    let turn = plan.turn_from(p, Tick::new(from.min(stop)), &mut near)?;
    let window = Span {
        from: turn.start.ticks().max(from),
        to: turn.end.ticks().min(stop),
    };
    if window.from < window.to {
        Some(window)
    } else {
        None
    }
}
