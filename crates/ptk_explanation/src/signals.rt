//! The signals that woke nobody before a thread began to wait on their condition variable.

ghost use Rattle.std.specs.Prelude.{◌≡◌, ◌<◌, None, IfErr, MatchResult, OnOk, length};
ghost use Rattle.ptk_system.specs.Missing.{first_missing, missing_in};

use crate::deadlock::thread_count;
use crate::history::History;
use crate::memory::word_at;
use ptk_config::Config;
use ptk_system::{Activity, BootFault, Files, System};
use ptk_tracepoints::{CallStep, Change, Event, Probe, Tracer};
use ptk_words::{A0, Call, ConditionNo, LAST_TICK, PartId, ThreadNo, Tick};
use std::alloc::{AllocError, Global};

/// How many signals are named of a thread.
const NAMED: usize = 3;

/// A call of pthread_cond_signal or pthread_cond_broadcast that woke nobody.
#[derive(Clone, Copy)]
pub(crate) struct Signal {
    /// The tick at which it began.
    pub(crate) tick: u64,
    /// The thread that made it.
    pub(crate) thread: ThreadNo,
}

/// The last signals that woke nobody, at most three, oldest first.
#[derive(Clone, Copy)]
pub(crate) struct LastSignals {
    signals: [Option<Signal>; NAMED],
}

impl LastSignals {
    /// None.
    pub(crate) const NONE: LastSignals = LastSignals {
        signals: [None; NAMED],
    };

    /// A later one.
    fn push(&mut self, signal: Signal) {
        self.signals[0] = self.signals[1];
        self.signals[1] = self.signals[2];
        self.signals[2] = Some(signal);
    }

    /// Whether there is none.
    pub(crate) fn is_empty(&self) -> bool {
        self.signals[NAMED - 1].is_none()
    }

    /// The signals, after as many times None as there are fewer than three.
    pub(crate) fn as_slice(&self) -> &[Option<Signal>] {
        &self.signals
    }
}

/// A thread that waits on a condition variable.
#[derive(Clone, Copy)]
struct ConditionWait {
    thread: ThreadNo,
    condition: ConditionNo,
    since: u64,
}

/// The signals of a partition that woke nobody, oldest first.
#[derive(Drop)]
struct SignalProbe {
    signals: Vec<Signal>,
    // the last signal, as long as nobody was woken by it
    latest: Option<Signal>,
}

impl SignalProbe {
    /// Nobody is woken by the last signal any more.
    fn keep_latest(&mut self) -> Result<(), AllocError> {
        if let Some(signal) = self.latest {
            self.signals.push(signal)?;
            self.latest = None;
        }
        Ok(())
    }

    /// A thread makes a call.
    fn call(&mut self, call: &CallStep) -> Result<(), AllocError> {
        self.keep_latest()?;
        if is_signal(call) {
            self.latest = Some(Signal {
                tick: call.from,
                thread: call.thread,
            });
        }
        Ok(())
    }

    /// A thread does something else.
    fn change(&mut self, change: &Change) {
        if change.waker().is_some() {
            self.latest = None;
        }
    }
}

impl Probe for SignalProbe {
    type Fault = AllocError;

    const CALLS: bool = true;

    const WINDOWS: bool = false;

    fn see(&mut self, _p: PartId, event: &Event) -> Result<(), AllocError> {
        match event {
            Event::Steps(_) => self.keep_latest(),
            Event::Call(call) => self.call(call),
            Event::Change(change) => {
                self.change(change);
                Ok(())
            }
            Event::WindowBegins { .. }
            | Event::WindowEnds { .. }
            | Event::Reply(_)
            | Event::Owner { .. }
            | Event::Dropped { .. }
            | Event::Lost { .. }
            | Event::Status { .. } => Ok(()),
        }
    }
}

/// Whether a call is a signal or a broadcast that was not refused.
fn is_signal(call: &CallStep) -> bool {
    call.reply == Some(0)
        && matches!(
            Call::of_number(call.number),
            Some(Call::CondSignal | Call::CondBroadcast)
        )
}

/// Adds to the histories of a partition's threads, of each that waits on a condition variable at the system's tick, the
/// last signals of the condition variable of that number that woke nobody before the thread began to wait.
///
/// The run is made twice more, up to the last such beginning, and only if there is one: an event does not tell which
/// condition variable a signal is for, so a system is run to each signal that woke nobody.
pub(crate) fn add_signals(
    alloc: Global,
    config: &Config,
    files: &Files,
    system: &System<'_>,
    p: PartId,
    histories: &mut [History],
) -> Result<(), BootFault>
    requires partition { p < length config.now.sections }
    requires same { system.now.config ≡ config.now }
    requires present { first_missing files.now config.now.sections ≡ None }
    ensures missing { IfErr result (λ fault. first_missing files.now config.now.sections ≡ missing_in fault) }
{
    let waits = condition_waits(alloc, system, p, histories)?;
    let to = latest_beginning(waits.as_slice());
    if to == 0 {
        return Ok(());
    }
    let signals = signals_that_woke_nobody(alloc, config, files, p, to)?;
    let mut replayed = System::boot(alloc, config, files)?;
    for signal in signals.as_slice() {
        if let Some(word) = condition_word(&mut replayed, p, signal) {
            add_signal(histories, waits.as_slice(), word, signal);
        }
    }
    Ok(())
}

/// The threads of a partition that wait on a condition variable, by number.
fn condition_waits(
    alloc: Global,
    system: &System<'_>,
    p: PartId,
    histories: &[History],
) -> Result<Vec<ConditionWait>, AllocError>
    requires { p < length system.now.config.sections }
{
    let count = thread_count(system, p).min(histories.len());
    let mut waits = Vec::new(alloc);
    for place in 0..count {
        let thread = ThreadNo::new(place as u8 + 1);
        if let Some(condition) = condition_of(system, p, thread) {
            waits.push(ConditionWait {
                thread,
                condition,
                since: histories[place].since,
            })?;
        }
    }
    Ok(waits)
}

/// The condition variable that a thread waits on, None if it waits on none.
fn condition_of(system: &System<'_>, p: PartId, thread: ThreadNo) -> Option<ConditionNo>
    requires { p < length system.now.config.sections }
{
    match system.activity(p, thread) {
        Activity::Blocked(wait) => wait.condition(),
        Activity::Free | Activity::Running | Activity::Ready | Activity::Ended | Activity::Halted =>
            None,
    }
}

/// The tick at which the last of some waits began, 0 if there is none.
fn latest_beginning(waits: &[ConditionWait]) -> u64 {
    let mut latest = 0;
    for wait in waits {
        latest = wait.since.max(latest);
    }
    latest
}

/// The signals of a partition that woke nobody before a tick, oldest first.
fn signals_that_woke_nobody(
    alloc: Global,
    config: &Config,
    files: &Files,
    p: PartId,
    to: u64,
) -> Result<Vec<Signal>, BootFault>
    requires partition { p < length config.now.sections }
    ensures missing { MatchResult result
        (λ _. first_missing files.now config.now.sections ≡ None)
        (λ fault. first_missing files.now config.now.sections ≡ missing_in fault) }
{
    let mut system = System::boot(alloc, config, files)?;
    let mut tracer = Tracer::at(alloc, &mut system, Tick::new(0))?;
    let mut told = SignalProbe {
        signals: Vec::new(alloc),
        latest: None,
    };
    tracer.run_part(&mut system, p, Tick::new(to.min(LAST_TICK)), &mut told)?;
    told.keep_latest()?;
    let SignalProbe { signals, .. } = told;
    Ok(signals)
}

/// The word of the condition variable of a signal, which is its number. The system goes on over the signal.
fn condition_word(system: &mut System<'_>, p: PartId, signal: &Signal) -> Option<u32>
    requires { p < length system.old.config.sections }
    ensures { system.new.config ≡ system.old.config }
{
    let tick = signal.tick.min(LAST_TICK - 1);
    system.run_to(Tick::new(tick));
    let address = system.register(p, signal.thread, A0);
    system.run_to(Tick::new(tick + 1));
    word_at(system, p, address?)
}

/// Adds a signal for the condition variable of a number to the histories of the threads that have waited on it since.
fn add_signal(histories: &mut [History], waits: &[ConditionWait], word: u32, signal: &Signal) {
    for wait in waits {
        let place = wait.thread.place();
        let is_for_it = u32::from(wait.condition.number()) == word && signal.tick < wait.since;
        if is_for_it && place < histories.len() {
            histories[place].signals.push(*signal);
        }
    }
}
