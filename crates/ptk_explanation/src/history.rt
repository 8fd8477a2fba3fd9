//! Since when each thread does what it does.

ghost use Rattle.std.specs.Prelude.{◌≡◌, ◌<◌, ◌≤◌, OnOk, length};
ghost use Rattle.ptk_words.specs.declared.TheConstants.{LAST_TICK};

use crate::deadlock::thread_count;
use crate::signals::LastSignals;
use ptk_system::{Activity, System};
use ptk_tracepoints::{Change, Event, Probe, Tracer};
use ptk_words::{PartId, SP, ThreadNo, Tick};
use std::alloc::{AllocError, Global};

/// What was seen of a thread over a run.
#[derive(Clone, Copy)]
pub(crate) struct History {
    /// The first tick from which on it does what it does. If a step of its own is under way at the tick to which the
    /// run goes, that tick.
    pub(crate) since: u64,
    /// The least value of its stack pointer that was seen, None if it has none.
    pub(crate) least_stack: Option<u32>,
    /// Of a thread that waits on a condition variable, the last signals of it that woke nobody before.
    pub(crate) signals: LastSignals,
}

impl History {
    /// Of a number that no thread has had.
    const NEW: History = History {
        since: 0,
        least_stack: None,
        signals: LastSignals::NONE,
    };

    /// The thread has this stack pointer.
    fn see_stack(&mut self, stack: Option<u32>) {
        self.least_stack = lesser(self.least_stack, stack);
    }

    /// The thread does something else from a tick on, which is at most `to` here.
    fn change(&mut self, change: &Change, to: u64) {
        if change.before.activity != change.now.activity {
            self.since = change.tick.min(to);
        }
        if change.now.activity == Activity::Free {
            self.least_stack = None;
        }
        self.see_stack(change.stack);
    }
}

/// The histories of a partition's threads, by number from 1, over a run to a tick.
#[derive(Drop)]
struct HistoryProbe {
    threads: Vec<History>,
    to: u64,
}

impl HistoryProbe {
    /// A thread has this stack pointer.
    fn see_stack(&mut self, t: ThreadNo, stack: Option<u32>) {
        let place = t.place();
        if place < self.threads.len() {
            self.threads[place].see_stack(stack);
        }
    }

    /// A thread does something else.
    fn change(&mut self, change: &Change) {
        let place = change.thread.place();
        if place < self.threads.len() {
            self.threads[place].change(change, self.to);
        }
    }
}

impl Probe for HistoryProbe {
    type Fault = AllocError;

    const CALLS: bool = false;

    const WINDOWS: bool = false;

    fn see(&mut self, _p: PartId, event: &Event) -> Result<(), AllocError> {
        match event {
            Event::Steps(steps) => self.see_stack(steps.thread, steps.stack),
            Event::Call(call) => self.see_stack(call.thread, call.stack),
            Event::Change(change) => self.change(change),
            Event::WindowBegins { .. }
            | Event::WindowEnds { .. }
            | Event::Reply(_)
            | Event::Owner { .. }
            | Event::Dropped { .. }
            | Event::Lost { .. }
            | Event::Status { .. } => {}
        }
        Ok(())
    }
}

/// The lesser of two values, of which either may be missing.
fn lesser(a: Option<u32>, b: Option<u32>) -> Option<u32> {
    match (a, b) {
        (Some(a), Some(b)) => Some(a.min(b)),
        (Some(a), None) => Some(a),
        (None, b) => b,
    }
}

/// The histories of a partition's threads, one for each number from 1, over the run of a system that has just booted to
/// a tick. The system goes there as by `run_to`. An error if memory runs out.
pub(crate) fn histories(
    alloc: Global,
    system: &mut System<'_>,
    p: PartId,
    to: Tick,
) -> Result<Vec<History>, AllocError>
    requires partition { p < length system.old.config.sections }
    requires early { to ≤ LAST_TICK }
    requires booted { system.old.tick ≡ 0 }
    ensures config { OnOk result (system.new.config ≡ system.old.config) }
{
    let mut told = HistoryProbe {
        threads: first_histories(alloc, system, p)?,
        to: to.ticks(),
    };
    let mut tracer = Tracer::at(alloc, system, Tick::new(0))?;
    tracer.run_part(system, p, to, &mut told)?;
    let HistoryProbe { threads, .. } = told;
    Ok(threads)
}

/// The histories of a partition's threads at its boot.
fn first_histories(
    alloc: Global,
    system: &System<'_>,
    p: PartId,
) -> Result<Vec<History>, AllocError>
    requires { p < length system.now.config.sections }
{
    let count = thread_count(system, p);
    let mut threads = Vec::new(alloc);
    for place in 0..count {
        let mut history = History::NEW;
        history.see_stack(system.register(p, ThreadNo::new(place as u8 + 1), SP));
        threads.push(history)?;
    }
    Ok(threads)
}
