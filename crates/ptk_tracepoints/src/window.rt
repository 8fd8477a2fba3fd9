//! The windows that a tracer goes over.

ghost use Rattle.std.specs.Prelude.{◌≡◌, ◌<◌, ◌≤◌, IfSome, length, min};
ghost use Rattle.ptk_words.specs.declared.TheConstants.{LAST_TICK};

use ptk_config::Config;
use ptk_words::{PartId, Tick};

/// The ticks of a partition's window that are told: from `from` on and before `stop`. The window ends at `end`, which
/// is not before `stop`.
#[derive(Clone, Copy)]
pub(crate) struct Window {
    pub(crate) partition: PartId,
    pub(crate) from: u64,
    pub(crate) stop: u64,
    pub(crate) end: u64,
}

/// The window that holds a tick, from that tick on and before another. None if no window holds the tick.
pub(crate) fn window_at(config: &Config, tick: u64, to: u64) -> Option<Window>
    requires { tick ≤ LAST_TICK }
    ensures known { IfSome result (λ window. window.partition < length config.now.sections) }
    ensures from { IfSome result (λ window. window.from ≡ tick) }
    ensures stop { IfSome result (λ window. window.stop ≡ min window.end to) }
    ensures some { IfSome result (λ window. tick < window.end) }
{
    match config.plan().at(Tick::new(tick)) {
        Some((partition, end)) => {
            let end = end.ticks();
            Some(Window {
                partition,
                from: tick,
                stop: end.min(to),
                end,
            })
        }
        None => None,
    }
}

/// The partition whose window holds a tick, None if no window holds it.
pub(crate) fn holder_at(config: &Config, tick: u64) -> Option<PartId>
    requires { tick ≤ LAST_TICK }
    ensures { IfSome result (λ p. p < length config.now.sections) }
{
    match window_at(config, tick, tick) {
        Some(window) => Some(window.partition),
        None => None,
    }
}

/// The first tick after this one at which a window begins, at most `to`. The tick is in no window.
pub(crate) fn next_start(config: &Config, tick: u64, to: u64) -> u64
    requires early { tick ≤ LAST_TICK }
    requires order { tick < to }
    ensures later { tick < result }
    ensures within { result ≤ to }
{
    let mut next = to;
    for i in 0..config.parts() {
        if let Some(start) = config.plan().next_of(PartId::new(i as u8), Tick::new(tick)) {
            next = next.min(start.ticks());
        }
    }
    next.max(tick + 1)
}
