//! Which steps are shown.

use ptk_words::{ECALL, Entry, LAST_TICK, ThreadNo, Tick};

/// Which steps of a trace are shown.
#[derive(Clone, Copy)]
pub struct Filter {
    /// The thread whose steps are shown; every thread's if none is given.
    pub thread: Option<ThreadNo>,
    /// Whether ECALLs alone are shown.
    pub is_calls_only: bool,
    /// The first tick that is shown.
    pub from: Tick,
    /// The tick before which all is shown.
    pub to: Tick,
}

impl Filter {
    /// Every step.
    pub fn all() -> Filter {
        Filter {
            thread: None,
            is_calls_only: false,
            from: Tick::new(0),
            to: Tick::new(LAST_TICK),
        }
    }

    /// Whether a step is shown.
    pub(crate) fn shows(&self, entry: &Entry) -> bool {
        let tick = entry.tick.ticks();
        self.thread
            .is_none_or(|asked| asked.number() == entry.thread.number())
            && (!self.is_calls_only || entry.word == ECALL)
            && self.from.ticks() <= tick
            && tick < self.to.ticks()
    }
}
