//! The tables of a partition.

use crate::part::PartStatistics;
use crate::words::{KINDS, doing_word, outcome_word};
use ptk_statistics_figures::{
    CALLS, CallCount, ConditionStatistics, Counted, Longest, MutexStatistics, Responses, Span,
    StackUse, ThreadStatistics, call_name,
};
use std::io;
use std::io::Write;

/// Writes the tables of a partition of this name, and an empty line.
pub(crate) fn put_tables<W: Write>(
    name: &str,
    part: &PartStatistics,
    out: &mut W,
) -> io::Result<()> {
    let word = outcome_word(part.status());
    writeln!(out, "partition {name} {word}")?;
    put_counted(part.counted(), out)?;
    put_threads(part.threads(), out)?;
    put_spans(part.threads(), out)?;
    put_responses(part.threads(), out)?;
    put_stacks(part.threads(), out)?;
    put_calls(part.threads(), out)?;
    put_mutexes(part.mutexes(), out)?;
    put_conditions(part.conditions(), out)?;
    out.write_all(b"\n")
}

/// Writes the ticks and the steps of a partition.
fn put_counted<W: Write>(counted: &Counted, out: &mut W) -> io::Result<()> {
    out.write_all(
        b"  own ticks        used        idle        lost  after halt  lost ahead       steps\n",
    )?;
    writeln!(
        out,
        "{:>11} {:>11} {:>11} {:>11} {:>11} {:>11} {:>11}",
        counted.own(),
        counted.used(),
        counted.idle(),
        counted.lost(),
        counted.halted(),
        counted.ahead(),
        counted.steps()
    )
}

/// Writes what each thread does, its steps and preemptions, and the longest time from ready to running.
fn put_threads<W: Write>(threads: &[ThreadStatistics], out: &mut W) -> io::Result<()> {
    out.write_all(
        b"thread does            since       steps   preempted       to run    to run own\n",
    )?;
    for (i, thread) in threads.iter().enumerate() {
        if thread.is_used() {
            put_thread(i as u64 + 1, thread, out)?;
        }
    }
    Ok(())
}

/// Writes the line of a thread.
fn put_thread<W: Write>(number: u64, thread: &ThreadStatistics, out: &mut W) -> io::Result<()> {
    let to_run = thread.to_run();
    writeln!(
        out,
        "{number:>6} {:<9} {:>11} {:>11} {:>11} {:>12} {:>13}",
        doing_word(thread.doing()),
        thread.since().ticks(),
        thread.steps(),
        thread.preemptions(),
        to_run.wall,
        to_run.own
    )
}

/// Writes for how long each thread did what: a line of own ticks and one of all.
fn put_spans<W: Write>(threads: &[ThreadStatistics], out: &mut W) -> io::Result<()> {
    out.write_all(
        b"thread ticks     running       ready       input       sleep        join       mutex   condition      relock\n",
    )?;
    for (i, thread) in threads.iter().enumerate() {
        if thread.is_used() {
            let number = i as u64 + 1;
            write!(out, "{number:>6} own  ")?;
            put_ticks(thread, |span| span.own, out)?;
            write!(out, "{number:>6} all  ")?;
            put_ticks(thread, |span| span.wall, out)?;
        }
    }
    Ok(())
}

/// Writes for how long a thread did what, by these of its ticks.
fn put_ticks<W: Write, F: Fn(Span) -> u64>(
    thread: &ThreadStatistics,
    ticks: F,
    out: &mut W,
) -> io::Result<()>
    requires { F.IsAlwaysCallable ticks }
{
    for kind in KINDS.iter() {
        write!(out, " {:>11}", ticks(thread.span(*kind)))?;
    }
    out.write_all(b"\n")
}

/// Writes the response times of the threads that have some, or a deadline.
fn put_responses<W: Write>(threads: &[ThreadStatistics], out: &mut W) -> io::Result<()> {
    out.write_all(
        b"thread responses       least        mean        95 %        99 %    greatest     at tick        late    deadline      missed\n",
    )?;
    for (i, thread) in threads.iter().enumerate() {
        if thread.responses().is_used() {
            put_response(i as u64 + 1, thread.responses(), out)?;
        }
    }
    Ok(())
}

/// Writes the response times of a thread.
fn put_response<W: Write>(number: u64, responses: &Responses, out: &mut W) -> io::Result<()> {
    write!(
        out,
        "{number:>6} {:>9} {:>11} {:>11} {:>11} {:>11} {:>11} {:>11} {:>11}",
        responses.count(),
        responses.least(),
        responses.mean(),
        responses.within_95(),
        responses.within_99(),
        responses.greatest(),
        responses.greatest_from().ticks(),
        responses.late()
    )?;
    match responses.deadline() {
        Some(deadline) => writeln!(out, " {deadline:>11} {:>11}", responses.missed()),
        None => writeln!(out, "           -           -"),
    }
}

/// Writes how much of its stack each thread used.
fn put_stacks<W: Write>(threads: &[ThreadStatistics], out: &mut W) -> io::Result<()> {
    out.write_all(b"thread stack       bottom      least        used          of\n")?;
    for (i, thread) in threads.iter().enumerate() {
        if let Some(stack) = thread.stack() {
            put_stack(i as u64 + 1, &stack, out)?;
        }
    }
    Ok(())
}

/// Writes how much of its stack a thread used, and whether that is more than there is.
fn put_stack<W: Write>(number: u64, stack: &StackUse, out: &mut W) -> io::Result<()> {
    write!(out, "{number:>6}      ")?;
    match stack.bottom() {
        Some(bottom) => write!(out, "  0x{bottom:08x}")?,
        None => write!(out, "           -")?,
    }
    write!(out, " 0x{:08x}", stack.least())?;
    put_bytes(stack.used(), out)?;
    put_bytes(stack.size(), out)?;
    if stack.overflow() != 0 {
        out.write_all(b" overflow")?;
    }
    out.write_all(b"\n")
}

/// Writes a number of bytes, if it is known.
fn put_bytes<W: Write>(bytes: Option<u32>, out: &mut W) -> io::Result<()> {
    match bytes {
        Some(bytes) => write!(out, " {bytes:>11}"),
        None => write!(out, "           -"),
    }
}

/// Writes the calls that each thread made.
fn put_calls<W: Write>(threads: &[ThreadStatistics], out: &mut W) -> io::Result<()> {
    out.write_all(b"thread call                           made     refused\n")?;
    for (i, thread) in threads.iter().enumerate() {
        put_calls_of(i as u64 + 1, thread, out)?;
    }
    Ok(())
}

/// Writes the calls that a thread made.
fn put_calls_of<W: Write>(number: u64, thread: &ThreadStatistics, out: &mut W) -> io::Result<()> {
    for call in CALLS.iter() {
        put_call(number, call_name(*call), thread.calls(*call), out)?;
    }
    put_call(number, "no call", thread.unknown_calls(), out)
}

/// Writes how often a call was made, if it was.
fn put_call<W: Write>(number: u64, word: &str, count: CallCount, out: &mut W) -> io::Result<()> {
    if count.made == 0 {
        return Ok(());
    }
    let (made, refused) = (count.made, count.refused);
    writeln!(out, "{number:>6} {word:<23} {made:>11} {refused:>11}")
}

/// Writes the times of the mutexes that somebody owned or waited for.
fn put_mutexes<W: Write>(mutexes: &[MutexStatistics], out: &mut W) -> io::Result<()> {
    out.write_all(b" mutex longest       ticks   own ticks      thread     at tick\n")?;
    for (i, mutex) in mutexes.iter().enumerate() {
        put_longest(i as u64 + 1, "held", mutex.held(), out)?;
        put_longest(i as u64 + 1, "waited", mutex.waited(), out)?;
    }
    Ok(())
}

/// Writes a mutex's longest time, if there was one.
fn put_longest<W: Write>(
    number: u64,
    word: &str,
    longest: Option<Longest>,
    out: &mut W,
) -> io::Result<()> {
    let Some(longest) = longest else {
        return Ok(());
    };
    writeln!(
        out,
        "{number:>6} {word:<7} {:>11} {:>11} {:>11} {:>11}",
        longest.span.wall,
        longest.span.own,
        longest.thread.number(),
        longest.from.ticks()
    )
}

/// Writes how often calls woke threads from each condition variable for which one was made, or nobody.
fn put_conditions<W: Write>(conditions: &[ConditionStatistics], out: &mut W) -> io::Result<()> {
    out.write_all(b"condition    signals  woke nobody  broadcasts  woke nobody\n")?;
    for (i, condition) in conditions.iter().enumerate() {
        if condition.is_used() {
            put_condition(i as u64 + 1, condition, out)?;
        }
    }
    Ok(())
}

/// Writes how often calls woke threads from a condition variable, or nobody.
fn put_condition<W: Write>(
    number: u64,
    condition: &ConditionStatistics,
    out: &mut W,
) -> io::Result<()> {
    let (signals, broadcasts) = (condition.signals, condition.broadcasts);
    writeln!(
        out,
        "{number:>9} {:>10} {:>12} {:>11} {:>12}",
        signals.made, signals.in_vain, broadcasts.made, broadcasts.in_vain
    )
}
