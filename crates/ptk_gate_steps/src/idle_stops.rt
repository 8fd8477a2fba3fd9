//! Whether a partition has nothing to do, and up to which tick.

ghost use Rattle.std.specs.Prelude.{◌≡◌, ℕ, ◌≤◌, IfSome};
ghost use Rattle.std.specs.Option.{IsSomeAnd};
ghost use Rattle.ptk_words_invariant.specs.Well.{IsWell};
ghost use Rattle.ptk_words_laws.specs.Idle.{IsIdle};

use crate::quiet_stops::before_events;
use ptk_gate_moves::Look;
use ptk_words::{Status, Tick};

/// The tick up to which the partition has nothing to do, at most `stop`: no thread runs or is ready, and no input comes
/// and no deadline is due before it. None where the partition is halted, or a thread runs or is ready.
pub fn stays_idle_until(look: &Look<'_>, stop: Tick) -> Option<Tick>
    requires well { IsWell look.now.limits look.now.part }
    ensures idle { IfSome result (λ u. (u ≤ stop) × IsIdle u look.now.part) }
    ensures full { (k : ℕ) → k ≤ stop → IsIdle k look.now.part → IsSomeAnd result (λ u. k ≤ u) }
{
    match look.status() {
        Status::Active => match look.running() {
            None if !look.has_ready() => Some(before_events(look, stop)),
            _ => None,
        },
        Status::Exited(_) | Status::Stopped(_, _) | Status::Refused(_) => None,
    }
}
