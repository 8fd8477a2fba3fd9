//! The Trace Event Format.

use crate::change::{Change, ShownSince};
use crate::fault::PutFault;
use crate::shown::{Doing, Shown};
use ptk_config::{Config, Section};
use ptk_disasm::{Symbols, text_in};
use ptk_words::{Arrival, PartId, ThreadNo, Tick, Wait};
use std::alloc::Global;
use std::io::Write;
use std::{fmt, io};

/// The track of a partition's windows, beside those of its threads from 1 on.
const WINDOWS: u8 = 0;

/// Where an event is: its process and thread.
#[derive(Clone, Copy)]
struct Track {
    process: usize,
    thread: u8,
}

impl Track {
    /// The track of a partition's windows.
    fn windows(p: PartId) -> Track {
        Track {
            process: p.index().saturating_add(1),
            thread: WINDOWS,
        }
    }

    /// The track of a thread.
    fn thread(p: PartId, t: ThreadNo) -> Track {
        Track {
            process: p.index().saturating_add(1),
            thread: t.number(),
        }
    }
}

/// A track as the members of an event.
impl fmt::Display for Track {
    fn fmt<W: fmt::Write>(&self, f: &mut fmt::Formatter<W>) -> fmt::Result {
        let Track { process, thread } = *self;
        write!(f, "\"pid\":{process},\"tid\":{thread}")
    }
}

/// The numbers of what is shown of a thread as the last member of an event, after a comma; none of a free number.
#[derive(Clone, Copy)]
struct Numbers(Shown);

impl fmt::Display for Numbers {
    fn fmt<W: fmt::Write>(&self, f: &mut fmt::Formatter<W>) -> fmt::Result {
        let Some(priority) = self.0.priority else {
            return Ok(());
        };
        let wait = WaitNumbers(self.0.doing);
        write!(f, ",\"args\":{{\"priority\":{priority}{wait}}}")
    }
}

/// What a thread waits for, as members after a comma; none if it does not wait.
#[derive(Clone, Copy)]
struct WaitNumbers(Doing);

impl fmt::Display for WaitNumbers {
    fn fmt<W: fmt::Write>(&self, f: &mut fmt::Formatter<W>) -> fmt::Result {
        let Doing::Blocked(wait) = self.0 else {
            return Ok(());
        };
        match wait {
            Wait::InputWait => Ok(()),
            Wait::SleepWait(deadline) => Until(Some(deadline)).fmt(f),
            Wait::JoinWait(thread) => write!(f, ",\"thread\":{}", thread.number()),
            Wait::MutexWait(m, deadline) => {
                write!(f, ",\"mutex\":{}{}", m.number(), Until(deadline))
            }
            Wait::ConditionWait(c, m, deadline) => {
                write!(f, ",\"condition\":{}", c.number())?;
                write!(f, ",\"mutex\":{}{}", m.number(), Until(deadline))
            }
            Wait::RelockWait(m, _) => write!(f, ",\"mutex\":{}", m.number()),
        }
    }
}

/// A deadline as a member after a comma, none if there is no deadline.
#[derive(Clone, Copy)]
struct Until(Option<Tick>);

impl fmt::Display for Until {
    fn fmt<W: fmt::Write>(&self, f: &mut fmt::Formatter<W>) -> fmt::Result {
        match self.0 {
            Some(deadline) => write!(f, ",\"until\":{}", deadline.ticks()),
            None => Ok(()),
        }
    }
}

/// Writes what is before the events, the names of the partitions and of the tracks of their windows, and the input
/// that comes from a tick on and before another.
pub(crate) fn put_events_head<W: Write>(
    alloc: Global,
    config: &Config,
    from: u64,
    to: u64,
    out: &mut W,
) -> Result<(), PutFault> {
    let mut before = "{\"displayTimeUnit\":\"ns\",\"traceEvents\":[\n";
    for place in 0..config.parts() {
        let section = &config.sections()[place];
        let p = PartId::new(place as u8);
        let name = serde_json::to_string(alloc, &section.name())?;
        put_section(before, p, name.as_str(), out)?;
        put_input(p, section, from, to, out)?;
        before = ",\n";
    }
    Ok(())
}

/// Writes the name of a partition, a JSON text, and that of the track of its windows.
fn put_section<W: Write>(before: &str, p: PartId, name: &str, out: &mut W) -> io::Result<()> {
    let windows = Track::windows(p);
    let process = windows.process;
    write!(
        out,
        "{before}{{\"ph\":\"M\",\"pid\":{process},\"name\":\"process_name\",\"args\":{{\"name\":{name}}}}}"
    )?;
    put_track_name(windows, "\"windows\"", out)
}

/// Writes the name of a track, a JSON text.
fn put_track_name<W: Write>(track: Track, name: &str, out: &mut W) -> io::Result<()> {
    write!(
        out,
        ",\n{{\"ph\":\"M\",{track},\"name\":\"thread_name\",\"args\":{{\"name\":{name}}}}}"
    )
}

/// Writes an instant for each tick from one on and before another at which input comes, with how many bytes.
fn put_input<W: Write>(
    p: PartId,
    section: &Section,
    from: u64,
    to: u64,
    out: &mut W,
) -> io::Result<()> {
    let input = section.input();
    let mut bytes = 0u64;
    for (place, arrival) in input.iter().enumerate() {
        let tick = arrival.tick.ticks();
        bytes = bytes.saturating_add(1);
        if is_last_of_tick(input, place, tick) {
            if from <= tick && tick < to {
                put_instant(p, tick, "input", "bytes", bytes, out)?;
            }
            bytes = 0;
        }
    }
    Ok(())
}

/// Whether the input after the byte at a place does not go on with one that comes at this tick.
fn is_last_of_tick(input: &[Arrival], place: usize, tick: u64) -> bool {
    match input.get(place.saturating_add(1)) {
        Some(next) => next.tick.ticks() != tick,
        None => true,
    }
}

/// Writes the events of what changes of a partition at a tick.
pub(crate) fn put_event<W: Write>(
    alloc: Global,
    symbols: &Symbols<'_>,
    p: PartId,
    tick: u64,
    change: &Change<'_>,
    out: &mut W,
) -> Result<(), PutFault> {
    match change {
        Change::WindowBegins | Change::Runner(_) => {}
        Change::WindowEnds { since } => put_window(p, *since, tick, out)?,
        Change::Next { thread, before, .. } => {
            put_slice(Track::thread(p, *thread), before, tick, out)?;
        }
        Change::Lost { ticks } => put_instant(p, tick, "ticks lost", "ticks", *ticks, out)?,
        Change::Dropped { bytes } => put_instant(p, tick, "input lost", "bytes", *bytes, out)?,
        Change::First {
            thread,
            shown,
            start,
        } => {
            if !shown.is_free() {
                put_start(alloc, symbols, Track::thread(p, *thread), *start, out)?;
            }
        }
        Change::Status(status) => {
            if status.is_halted() {
                let track = Track::windows(p);
                write!(
                    out,
                    ",\n{{\"ph\":\"i\",{track},\"ts\":{tick},\"s\":\"p\",\"name\":\"{status}\"}}"
                )?;
            }
        }
        Change::Woken { by, thread } => put_flow(p, *by, *thread, tick, out)?,
    }
    Ok(())
}

/// Writes an instant of a partition, with a number.
fn put_instant<W: Write>(
    p: PartId,
    tick: u64,
    name: &str,
    key: &str,
    number: u64,
    out: &mut W,
) -> io::Result<()> {
    let track = Track::windows(p);
    write!(
        out,
        ",\n{{\"ph\":\"i\",{track},\"ts\":{tick},\"s\":\"p\",\"name\":\"{name}\",\"args\":{{\"{key}\":{number}}}}}"
    )
}

/// Writes the slice of a window from a tick up to another; nothing of no ticks.
fn put_window<W: Write>(p: PartId, since: u64, tick: u64, out: &mut W) -> io::Result<()> {
    if tick <= since {
        return Ok(());
    }
    let (track, ticks) = (Track::windows(p), tick - since);
    write!(
        out,
        ",\n{{\"ph\":\"X\",{track},\"ts\":{since},\"dur\":{ticks},\"name\":\"window\"}}"
    )
}

/// Writes the slice of what was shown of a thread up to a tick; nothing of no ticks or of a free number.
fn put_slice<W: Write>(
    track: Track,
    before: &ShownSince,
    tick: u64,
    out: &mut W,
) -> io::Result<()> {
    let since = before.since;
    if tick <= since || before.shown.is_free() {
        return Ok(());
    }
    let (ticks, word) = (tick - since, before.shown.doing.label().word);
    let numbers = Numbers(before.shown);
    write!(
        out,
        ",\n{{\"ph\":\"X\",{track},\"ts\":{since},\"dur\":{ticks},\"name\":\"{word}\"{numbers}}}"
    )
}

/// Writes the name of a thread's track: that of the routine at which the thread starts, or its number.
fn put_start<W: Write>(
    alloc: Global,
    symbols: &Symbols<'_>,
    track: Track,
    start: Option<u32>,
    out: &mut W,
) -> Result<(), PutFault> {
    let number = track.thread;
    let name = match routine_at(symbols, start) {
        Some(routine) => serde_json::to_string(alloc, &routine)?,
        None => format!(in alloc; "\"thread {number}\"")?,
    };
    put_track_name(track, name.as_str(), out)?;
    Ok(())
}

/// The name of the symbol that begins where a thread starts, if there is one.
fn routine_at<'a>(symbols: &Symbols<'a>, start: Option<u32>) -> Option<&'a str> {
    let located = symbols.nearest(start?)?;
    if located.distance == 0 {
        text_in(located.name)
    } else {
        None
    }
}

/// Writes the flow from a thread's step to the thread whose wait it has ended. Both ends lie in the middle of the tick,
/// so inside of both slices.
fn put_flow<W: Write>(
    p: PartId,
    by: ThreadNo,
    t: ThreadNo,
    tick: u64,
    out: &mut W,
) -> io::Result<()> {
    let to = Track::thread(p, t);
    put_flow_end("\"s\"", Track::thread(p, by), to, tick, out)?;
    put_flow_end("\"f\",\"bp\":\"e\"", to, to, tick, out)
}

/// Writes an end of a flow to a thread, on a track.
fn put_flow_end<W: Write>(
    phase: &str,
    at: Track,
    to: Track,
    tick: u64,
    out: &mut W,
) -> io::Result<()> {
    let Track { process, thread } = to;
    write!(
        out,
        ",\n{{\"ph\":{phase},{at},\"ts\":{tick}.5,\"cat\":\"wake\",\"name\":\"wakes\""
    )?;
    write!(out, ",\"id\":\"{process}.{thread}.{tick}\"}}")
}
