//! The JSON object of a partition, written member by member.

use crate::part::PartStatistics;
use crate::words::{KINDS, doing_word};
use ptk_config::Section;
use ptk_main_runs::{PartStatus, Value, cause_word, put_members, put_object};
use ptk_statistics_figures::{
    CALLS, CallCount, ConditionStatistics, Counted, Longest, MutexStatistics, Responses, Span,
    StackUse, ThreadStatistics, Wakes, call_name,
};
use serde::{Described, Serialize, Serializer};
use serde_json::Error;
use std::alloc::Global;

/// A partition with its figures.
#[derive(Clone, Copy)]
struct Figures<'a> {
    section: &'a Section,
    part: &'a PartStatistics,
}

/// The JSON text of the partition of a section: an object in the compact form of its tokens, with no newline. An error
/// if memory runs out.
pub(crate) fn json_of(
    alloc: Global,
    section: &Section,
    part: &PartStatistics,
) -> Result<String, Error> {
    serde_json::to_string(alloc, &Figures { section, part })
}

impl Described for Figures<'_> {}

impl Serialize for Figures<'_> {
    fn serialize<S: Serializer>(&self, out: &mut S) -> Result<(), S::Error> {
        out.begin_map(None)?;
        put_members(&[("name", Value::Word(self.section.name()))], out)?;
        match self.section.image() {
            Some(_) => put_status(self.part.status(), out)?,
            None => put_members(&[("status", Value::Word("no image"))], out)?,
        }
        put_counted(self.part.counted(), out)?;
        put_threads(self.part.threads(), out)?;
        put_mutexes(self.part.mutexes(), out)?;
        put_conditions(self.part.conditions(), out)?;
        out.end_map()
    }
}

/// Puts the members of a status.
fn put_status<S: Serializer>(status: PartStatus, out: &mut S) -> Result<(), S::Error> {
    match status {
        PartStatus::Idle => put_members(&[("status", Value::Word("idle"))], out),
        PartStatus::Running => put_members(&[("status", Value::Word("running"))], out),
        PartStatus::Exited(code) => {
            let code = Value::Number(u64::from(code));
            put_members(&[("status", Value::Word("exit")), ("code", code)], out)
        }
        PartStatus::Stopped(cause, pc) => {
            let members = [
                ("status", Value::Word("fault")),
                ("cause", Value::Word(cause_word(cause))),
                ("pc", Value::Number(u64::from(pc))),
            ];
            put_members(&members, out)
        }
        PartStatus::Refused(fault) => {
            let number = Value::Number(u64::from(fault.number()));
            let members = [("status", Value::Word("refused")), ("image_fault", number)];
            put_members(&members, out)
        }
    }
}

/// Puts the ticks and the steps of a partition.
fn put_counted<S: Serializer>(counted: &Counted, out: &mut S) -> Result<(), S::Error> {
    let members = [
        ("own", Value::Number(counted.own())),
        ("used", Value::Number(counted.used())),
        ("idle", Value::Number(counted.idle())),
        ("lost", Value::Number(counted.lost())),
        ("after_halt", Value::Number(counted.halted())),
        ("lost_ahead", Value::Number(counted.ahead())),
        ("steps", Value::Number(counted.steps())),
    ];
    put_members(&members, out)
}

/// Puts the threads that there were.
fn put_threads<S: Serializer>(threads: &[ThreadStatistics], out: &mut S) -> Result<(), S::Error> {
    out.key("threads")?;
    out.begin_seq(None)?;
    for (i, thread) in threads.iter().enumerate() {
        if thread.is_used() {
            put_thread(i as u64 + 1, thread, out)?;
        }
    }
    out.end_seq()
}

/// Puts a thread.
fn put_thread<S: Serializer>(
    number: u64,
    thread: &ThreadStatistics,
    out: &mut S,
) -> Result<(), S::Error> {
    let members = [
        ("thread", Value::Number(number)),
        ("does", Value::Word(doing_word(thread.doing()))),
        ("since", Value::Number(thread.since().ticks())),
        ("steps", Value::Number(thread.steps())),
        ("preemptions", Value::Number(thread.preemptions())),
    ];
    out.begin_map(None)?;
    put_members(&members, out)?;
    put_span("to_run", thread.to_run(), out)?;
    put_spans(thread, out)?;
    put_responses(thread.responses(), out)?;
    put_stack(thread.stack(), out)?;
    put_calls(thread, out)?;
    out.end_map()
}

/// Puts a number of own ticks and of all ticks under a key.
fn put_span<S: Serializer>(key: &str, span: Span, out: &mut S) -> Result<(), S::Error> {
    let members = [
        ("own", Value::Number(span.own)),
        ("all", Value::Number(span.wall)),
    ];
    put_object(key, &members, out)
}

/// Puts for how long a thread did what, each by its word.
fn put_spans<S: Serializer>(thread: &ThreadStatistics, out: &mut S) -> Result<(), S::Error> {
    out.key("ticks")?;
    out.begin_map(None)?;
    for kind in KINDS.iter() {
        put_span(doing_word(*kind), thread.span(*kind), out)?;
    }
    out.end_map()
}

/// Puts a thread's response times.
fn put_responses<S: Serializer>(responses: &Responses, out: &mut S) -> Result<(), S::Error> {
    let members = [
        ("count", Value::Number(responses.count())),
        ("least", Value::Number(responses.least())),
        ("mean", Value::Number(responses.mean())),
        ("within_95", Value::Number(responses.within_95())),
        ("within_99", Value::Number(responses.within_99())),
        ("greatest", Value::Number(responses.greatest())),
        (
            "greatest_from",
            Value::Number(responses.greatest_from().ticks()),
        ),
        ("late", Value::Number(responses.late())),
        ("deadline", Value::optional(responses.deadline())),
        ("missed", Value::Number(responses.missed())),
    ];
    put_object("response", &members, out)
}

/// Puts how much of its stack a thread used.
fn put_stack<S: Serializer>(stack: Option<StackUse>, out: &mut S) -> Result<(), S::Error> {
    let Some(stack) = stack else {
        return put_members(&[("stack", Value::Null)], out);
    };
    let members = [
        ("bottom", bytes_value(stack.bottom())),
        ("least", Value::Number(u64::from(stack.least()))),
        ("used", bytes_value(stack.used())),
        ("size", bytes_value(stack.size())),
        ("overflow", Value::Number(u64::from(stack.overflow()))),
    ];
    put_object("stack", &members, out)
}

/// A number of bytes or an address, null if it is not known.
fn bytes_value(bytes: Option<u32>) -> Value<'static> {
    match bytes {
        Some(bytes) => Value::Number(u64::from(bytes)),
        None => Value::Null,
    }
}

/// Puts the calls that a thread made.
fn put_calls<S: Serializer>(thread: &ThreadStatistics, out: &mut S) -> Result<(), S::Error> {
    out.key("calls")?;
    out.begin_seq(None)?;
    for call in CALLS.iter() {
        put_call(call_name(*call), thread.calls(*call), out)?;
    }
    put_call("no call", thread.unknown_calls(), out)?;
    out.end_seq()
}

/// Puts how often a call was made, if it was.
fn put_call<S: Serializer>(word: &str, count: CallCount, out: &mut S) -> Result<(), S::Error> {
    if count.made == 0 {
        return Ok(());
    }
    let members = [
        ("call", Value::Word(word)),
        ("made", Value::Number(count.made)),
        ("refused", Value::Number(count.refused)),
    ];
    out.begin_map(None)?;
    put_members(&members, out)?;
    out.end_map()
}

/// Puts the mutexes that somebody owned or waited for.
fn put_mutexes<S: Serializer>(mutexes: &[MutexStatistics], out: &mut S) -> Result<(), S::Error> {
    out.key("mutexes")?;
    out.begin_seq(None)?;
    for (i, mutex) in mutexes.iter().enumerate() {
        if mutex.is_used() {
            put_mutex(i as u64 + 1, mutex, out)?;
        }
    }
    out.end_seq()
}

/// Puts the mutex of this number.
fn put_mutex<S: Serializer>(
    number: u64,
    mutex: &MutexStatistics,
    out: &mut S,
) -> Result<(), S::Error> {
    out.begin_map(None)?;
    put_members(&[("mutex", Value::Number(number))], out)?;
    put_longest("held", mutex.held(), out)?;
    put_longest("waited", mutex.waited(), out)?;
    out.end_map()
}

/// Puts a mutex's longest time, if there was one.
fn put_longest<S: Serializer>(
    key: &str,
    longest: Option<Longest>,
    out: &mut S,
) -> Result<(), S::Error> {
    let Some(longest) = longest else {
        return Ok(());
    };
    let members = [
        ("own", Value::Number(longest.span.own)),
        ("all", Value::Number(longest.span.wall)),
        ("thread", Value::Number(u64::from(longest.thread.number()))),
        ("from", Value::Number(longest.from.ticks())),
    ];
    put_object(key, &members, out)
}

/// Puts the condition variables from which calls woke threads, or nobody.
fn put_conditions<S: Serializer>(
    conditions: &[ConditionStatistics],
    out: &mut S,
) -> Result<(), S::Error> {
    out.key("conditions")?;
    out.begin_seq(None)?;
    for (i, condition) in conditions.iter().enumerate() {
        if condition.is_used() {
            put_condition(i as u64 + 1, condition, out)?;
        }
    }
    out.end_seq()
}

/// Puts the condition variable of this number.
fn put_condition<S: Serializer>(
    number: u64,
    condition: &ConditionStatistics,
    out: &mut S,
) -> Result<(), S::Error> {
    out.begin_map(None)?;
    put_members(&[("condition", Value::Number(number))], out)?;
    put_wakes("signals", condition.signals, out)?;
    put_wakes("broadcasts", condition.broadcasts, out)?;
    out.end_map()
}

/// Puts how often calls of a kind were made, and how often they woke nobody.
fn put_wakes<S: Serializer>(key: &str, wakes: Wakes, out: &mut S) -> Result<(), S::Error> {
    let members = [
        ("made", Value::Number(wakes.made)),
        ("woke_nobody", Value::Number(wakes.in_vain)),
    ];
    put_object(key, &members, out)
}
