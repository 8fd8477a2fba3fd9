//! The Value Change Dump (IEEE 1364-2005, section 18).

use crate::change::Change;
use crate::shown::Shown;
use ptk_config::{Config, Section};
use ptk_tracepoints::PartStatus;
use ptk_words::{PartId, THREAD_LIMIT, ThreadNo};
use std::io::Write;
use std::{fmt, io};

/// How many characters an identifier is made of: the printable ones of ASCII (18.2.1).
const CHARACTERS: usize = 94;

/// The first of them.
const FIRST_CHARACTER: u8 = b'!';

/// The signals of a partition before those of its threads.
const PART_SIGNALS: usize = 3;

/// The signals of a partition with the most threads, of which each has two.
const SIGNALS: usize = PART_SIGNALS + 2 * THREAD_LIMIT as usize;

/// The number of a thread or a priority if there is none.
const NONE_NUMBER: u8 = 0;

/// A signal, by its number.
#[derive(Clone, Copy)]
struct Signal(usize);

impl Signal {
    /// The partition's window, 1 bit.
    fn window(p: PartId) -> Signal {
        Signal(p.index().saturating_mul(SIGNALS))
    }

    /// The partition's status, 3 bits.
    fn status(p: PartId) -> Signal {
        Signal::window(p).after(1)
    }

    /// The partition's running thread, 6 bits.
    fn runner(p: PartId) -> Signal {
        Signal::window(p).after(2)
    }

    /// The state of a thread, 4 bits.
    fn state(p: PartId, t: ThreadNo) -> Signal {
        Signal::window(p).after(PART_SIGNALS + 2 * t.place())
    }

    /// The effective priority of a thread, 6 bits.
    fn priority(p: PartId, t: ThreadNo) -> Signal {
        Signal::state(p, t).after(1)
    }

    /// The signal that is this many after it.
    fn after(self, count: usize) -> Signal {
        Signal(self.0.saturating_add(count))
    }
}

/// A signal's identifier, of two characters.
impl fmt::Display for Signal {
    fn fmt<W: fmt::Write>(&self, f: &mut fmt::Formatter<W>) -> fmt::Result {
        let first = (self.0 / CHARACTERS % CHARACTERS) as u8 + FIRST_CHARACTER;
        let second = (self.0 % CHARACTERS) as u8 + FIRST_CHARACTER;
        write!(f, "{}{}", first as char, second as char)
    }
}

/// Writes what is before the first values: a scope for each partition, in it its signals, and the first tick.
pub(crate) fn put_vcd_head<W: Write>(config: &Config, from: u64, out: &mut W) -> io::Result<()> {
    out.write_all(b"$version ptk timeline $end\n$timescale 1 us $end\n")?;
    for place in 0..config.parts() {
        put_scope(PartId::new(place as u8), &config.sections()[place], out)?;
    }
    writeln!(out, "$enddefinitions $end\n#{from}\n$dumpvars")
}

/// Writes the scope of a partition: its signals, and a scope with those of each of its threads.
fn put_scope<W: Write>(p: PartId, section: &Section, out: &mut W) -> io::Result<()> {
    let (window, status, runner) = (Signal::window(p), Signal::status(p), Signal::runner(p));
    let name = section.name();
    writeln!(out, "$scope module {name} $end")?;
    writeln!(out, "$var wire 1 {window} window $end")?;
    writeln!(out, "$var wire 3 {status} status [2:0] $end")?;
    writeln!(out, "$var wire 6 {runner} running [5:0] $end")?;
    for place in 0..section.limits().threads.min(THREAD_LIMIT) {
        put_thread_scope(p, ThreadNo::new(place as u8 + 1), out)?;
    }
    out.write_all(b"$upscope $end\n")
}

/// Writes the scope of a thread: the signals of what it does and of its effective priority.
fn put_thread_scope<W: Write>(p: PartId, t: ThreadNo, out: &mut W) -> io::Result<()> {
    let (number, state, priority) = (t.number(), Signal::state(p, t), Signal::priority(p, t));
    writeln!(out, "$scope module thread_{number} $end")?;
    writeln!(out, "$var wire 4 {state} state [3:0] $end")?;
    writeln!(out, "$var wire 6 {priority} priority [5:0] $end")?;
    out.write_all(b"$upscope $end\n")
}

/// Whether a signal shows the change.
pub(crate) fn is_signal(change: &Change<'_>) -> bool {
    match change {
        Change::WindowBegins
        | Change::WindowEnds { .. }
        | Change::Status(_)
        | Change::Runner(_)
        | Change::First { .. }
        | Change::Next { .. } => true,
        Change::Woken { .. } | Change::Lost { .. } | Change::Dropped { .. } => false,
    }
}

/// Writes the values that change.
pub(crate) fn put_values<W: Write>(p: PartId, change: &Change<'_>, out: &mut W) -> io::Result<()> {
    match change {
        Change::WindowBegins => put_bit(1, Signal::window(p), out),
        Change::WindowEnds { .. } => put_bit(0, Signal::window(p), out),
        Change::Status(status) => put_vector(status_number(*status), Signal::status(p), out),
        Change::Runner(thread) => put_vector(runner_number(*thread), Signal::runner(p), out),
        Change::First { thread, shown, .. } => {
            put_vector(shown.doing.label().number, Signal::state(p, *thread), out)?;
            put_vector(priority_number(shown), Signal::priority(p, *thread), out)
        }
        Change::Next {
            thread,
            before,
            now,
        } => put_thread(p, *thread, &before.shown, now, out),
        Change::Woken { .. } | Change::Lost { .. } | Change::Dropped { .. } => Ok(()),
    }
}

/// Writes the value of a signal of one bit, right before the signal (18.2.1).
fn put_bit<W: Write>(bit: u8, signal: Signal, out: &mut W) -> io::Result<()> {
    writeln!(out, "{bit}{signal}")
}

/// Writes the value of a signal of several bits, as a binary number without leading zeros and a blank (18.2.1).
fn put_vector<W: Write>(number: u8, signal: Signal, out: &mut W) -> io::Result<()> {
    writeln!(out, "b{number:b} {signal}")
}

/// Writes which of the numbers of a thread's state and effective priority is another than before.
fn put_thread<W: Write>(
    p: PartId,
    t: ThreadNo,
    before: &Shown,
    now: &Shown,
    out: &mut W,
) -> io::Result<()> {
    let state = now.doing.label().number;
    if before.doing.label().number != state {
        put_vector(state, Signal::state(p, t), out)?;
    }
    let priority = priority_number(now);
    if priority_number(before) != priority {
        put_vector(priority, Signal::priority(p, t), out)?;
    }
    Ok(())
}

/// The number of the running thread, `NONE_NUMBER` if none runs.
fn runner_number(thread: Option<ThreadNo>) -> u8 {
    match thread {
        Some(thread) => thread.number(),
        None => NONE_NUMBER,
    }
}

/// The number of a thread's effective priority, `NONE_NUMBER` of a free number.
fn priority_number(shown: &Shown) -> u8 {
    shown.priority.unwrap_or(NONE_NUMBER)
}

/// The number of a status.
fn status_number(status: PartStatus) -> u8 {
    match status {
        PartStatus::Idle => 0,
        PartStatus::Running => 1,
        PartStatus::Exited(_) => 2,
        PartStatus::Stopped(_, _) => 3,
        PartStatus::Refused(_) => 4,
    }
}
