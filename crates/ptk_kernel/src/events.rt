//! What comes next of a partition by itself.

ghost use Rattle.std.specs.Prelude.{◌≡◌, ◌<◌, length};
ghost use Rattle.ptk_clock.specs.ByThread.{earlier};
ghost use Rattle.ptk_gate.specs.Kept.{part_at};
ghost use Rattle.ptk_kernel.specs.Events.{next_event};

use ptk_gate::Tables;
use ptk_words::{PartId, Tick};

/// The lesser of the partition's next deadline and its next input tick; None where neither comes. Before this tick an
/// idle partition has nothing to do (own choice).
pub fn idle_until(tables: &Tables, p: PartId) -> Option<Tick>
    requires { p < length tables.now.limits }
    ensures { result ≡ next_event (part_at p tables.now) }
{
    earlier(tables.next_deadline(p), tables.next_arrival_tick(p))
}

/// The earlier of two ticks, where there are two.
fn earlier(first: Option<Tick>, second: Option<Tick>) -> Option<Tick>
    ensures { result ≡ earlier first second }
{
    let Some(a) = first else {
        return second;
    };
    let Some(b) = second else {
        return Some(a);
    };
    if a.ticks() < b.ticks() {
        Some(a)
    } else {
        Some(b)
    }
}
