//! The JSON object.

use crate::deadlock::Waiter;
use crate::explanation::{Body, Explanation, Going};
use crate::members::{Member, MemberValue, comma_unless, push_members, push_object, push_text};
use crate::place::{Place, caller_of};
use crate::signals::LastSignals;
use crate::stop::Stop;
use crate::target::Target;
use crate::thread::{Awaited, ThreadFacts};
use crate::words::{REGISTERS, ceiling_of, policy_name, protocol_name, type_name};
use ptk_disasm::Symbols;
use ptk_system::{PartStatus, cause_word};
use ptk_words::Cpu;
use std::alloc::{AllocError, Global};
use std::fmt::Write;

/// What a mutex is that a thread waits for. What it does not have is left out.
#[derive(Clone, Copy)]
struct MutexMembers {
    kind: Option<&'static str>,
    protocol: Option<&'static str>,
    ceiling: Option<u8>,
}

impl MutexMembers {
    /// Of the mutex that a thread waits for, if it waits for one.
    fn of(awaited: &Option<Awaited>) -> MutexMembers {
        let none = MutexMembers {
            kind: None,
            protocol: None,
            ceiling: None,
        };
        let Some(awaited) = awaited else {
            return none;
        };
        match &awaited.state {
            Some(state) => MutexMembers {
                kind: Some(type_name(state.kind)),
                protocol: Some(protocol_name(state.protocol)),
                ceiling: ceiling_of(state.protocol),
            },
            None => none,
        }
    }
}

/// Appends how the partition of a name stands as one object on one line. An error if memory runs out.
pub(crate) fn push_document(
    alloc: Global,
    out: &mut String,
    name: &str,
    explanation: &Explanation,
    symbols: &Symbols<'_>,
) -> Result<(), AllocError> {
    let (ticks, steps, lost) = (explanation.tick, explanation.steps, explanation.lost);
    write!(
        out,
        "{{\"format\":\"ptk explain 1\",\"ticks\":{ticks},\"partition\":"
    )?;
    push_text(alloc, out, name)?;
    push_status(out, explanation.status)?;
    write!(out, ",\"steps\":{steps},\"lost\":{lost}")?;
    match &explanation.body {
        Body::Stopped(stop) => push_stop(alloc, out, stop, symbols)?,
        Body::Going(going) => push_going(alloc, out, going, symbols)?,
        Body::Nothing => {}
    }
    out.push_str("}\n")
}

/// Appends the members of a status, as the report has them; `no image` if the partition has none.
fn push_status(out: &mut String, status: Option<PartStatus>) -> Result<(), AllocError> {
    match status {
        Some(PartStatus::Idle) => out.push_str(",\"status\":\"idle\""),
        Some(PartStatus::Running) => out.push_str(",\"status\":\"running\""),
        Some(PartStatus::Exited(code)) => write!(out, ",\"status\":\"exit\",\"code\":{code}"),
        Some(PartStatus::Stopped(cause, pc)) => {
            let cause = cause_word(cause);
            write!(
                out,
                ",\"status\":\"fault\",\"cause\":\"{cause}\",\"pc\":{pc}"
            )
        }
        Some(PartStatus::Refused(fault)) => {
            let number = fault.number();
            write!(out, ",\"status\":\"refused\",\"image_fault\":{number}")
        }
        None => out.push_str(",\"status\":\"no image\""),
    }
}

/// Appends what stopped a partition, and the registers of its thread.
fn push_stop(
    alloc: Global,
    out: &mut String,
    stop: &Stop,
    symbols: &Symbols<'_>,
) -> Result<(), AllocError> {
    out.push_str(",\"fault\":")?;
    push_object(alloc, out, &stop_members(stop, symbols))?;
    push_registers(out, &stop.cpu)
}

/// The members of what stopped a partition.
fn stop_members<'a>(stop: &'a Stop, symbols: &Symbols<'a>) -> [Member<'a>; 9] {
    let place = Place::of(symbols, Some(stop.step.pc));
    let call = caller_of(symbols, Some(stop.step.pc), stop.call);
    let caller = Place::of(symbols, call);
    [
        ("tick", MemberValue::Number(Some(stop.step.tick.ticks()))),
        ("thread", MemberValue::Byte(Some(stop.step.thread.number()))),
        ("symbol", MemberValue::Text(place.symbol)),
        ("offset", MemberValue::Word(place.offset)),
        ("caller", MemberValue::Word(call)),
        ("caller_symbol", MemberValue::Text(caller.symbol)),
        ("caller_offset", MemberValue::Word(caller.offset)),
        ("instruction", MemberValue::Text(stop.statement.as_deref())),
        ("address", MemberValue::Word(stop.address)),
    ]
}

/// Appends the registers, by number from 0.
fn push_registers(out: &mut String, cpu: &Cpu) -> Result<(), AllocError> {
    out.push_str(",\"registers\":[")?;
    for number in 0..REGISTERS {
        let before = comma_unless(number == 0);
        let value = cpu.register(number);
        write!(out, "{before}{value}")?;
    }
    out.push_str("]")
}

/// Appends what there is to say of a partition that goes on.
fn push_going(
    alloc: Global,
    out: &mut String,
    going: &Going,
    symbols: &Symbols<'_>,
) -> Result<(), AllocError> {
    if going.is_idle_for_good {
        out.push_str(",\"idle_for_good\":true")?;
    }
    push_threads(alloc, out, going.threads.as_slice(), symbols)?;
    push_deadlocks(out, going.deadlocks.as_slice())
}

/// Appends the threads, by number.
fn push_threads(
    alloc: Global,
    out: &mut String,
    threads: &[ThreadFacts],
    symbols: &Symbols<'_>,
) -> Result<(), AllocError> {
    out.push_str(",\"threads\":[")?;
    let mut is_first = true;
    for facts in threads {
        out.push_str(comma_unless(is_first))?;
        is_first = false;
        push_members(alloc, out, &thread_members(facts, symbols))?;
        push_signals(out, &facts.history.signals)?;
        out.push_str("}")?;
    }
    out.push_str("]")
}

/// Appends the last signals that woke nobody as a further member of an object, if there are any: each as its thread and
/// tick.
fn push_signals(out: &mut String, signals: &LastSignals) -> Result<(), AllocError> {
    if signals.is_empty() {
        return Ok(());
    }
    out.push_str(",\"woke_nobody\":[")?;
    let mut is_first = true;
    for signal in signals.as_slice() {
        if let Some(signal) = signal {
            let (before, thread) = (comma_unless(is_first), signal.thread.number());
            let tick = signal.tick;
            is_first = false;
            write!(out, "{before}{{\"thread\":{thread},\"tick\":{tick}}}")?;
        }
    }
    out.push_str("]")
}

/// The members of a thread.
fn thread_members<'a>(facts: &ThreadFacts, symbols: &Symbols<'a>) -> [Member<'a>; 23] {
    let target = Target::of(&facts.doing.activity);
    let place = Place::of(symbols, facts.pc);
    let call = caller_of(symbols, facts.pc, facts.call);
    let caller = Place::of(symbols, call);
    let owner = owner_number(facts);
    let mutex = MutexMembers::of(&facts.doing.awaited);
    let (policy, least) = (policy_name(facts.policy), facts.history.least_stack);
    [
        ("thread", MemberValue::Byte(Some(facts.number.number()))),
        ("activity", MemberValue::Text(Some(target.activity))),
        ("since", MemberValue::Number(Some(facts.history.since))),
        ("mutex", MemberValue::Byte(target.mutex)),
        ("owner", MemberValue::Byte(owner)),
        ("mutex_type", MemberValue::Text(mutex.kind)),
        ("mutex_protocol", MemberValue::Text(mutex.protocol)),
        ("mutex_ceiling", MemberValue::Byte(mutex.ceiling)),
        ("condition", MemberValue::Byte(target.condition)),
        ("joins", MemberValue::Byte(target.joins)),
        ("deadline", MemberValue::Number(target.deadline)),
        ("policy", MemberValue::Text(Some(policy))),
        ("assigned_priority", MemberValue::Byte(Some(facts.assigned))),
        (
            "effective_priority",
            MemberValue::Byte(Some(facts.effective)),
        ),
        ("pc", MemberValue::Word(facts.pc)),
        ("symbol", MemberValue::Text(place.symbol)),
        ("offset", MemberValue::Word(place.offset)),
        ("caller", MemberValue::Word(call)),
        ("caller_symbol", MemberValue::Text(caller.symbol)),
        ("caller_offset", MemberValue::Word(caller.offset)),
        ("stack_pointer", MemberValue::Word(facts.stack_pointer)),
        ("least_stack_pointer", MemberValue::Word(least)),
        ("cancel_pending", MemberValue::Fact(facts.is_cancel_pending)),
    ]
}

/// The number of the thread that owns the mutex for which a thread waits.
fn owner_number(facts: &ThreadFacts) -> Option<u8> {
    let owner = facts.doing.owner_thread()?;
    Some(owner.number())
}

/// Appends the cycles of threads that wait for one another, each as the numbers of its threads in order.
fn push_deadlocks(out: &mut String, cycles: &[Vec<Waiter>]) -> Result<(), AllocError> {
    out.push_str(",\"deadlocks\":[")?;
    let mut is_first = true;
    for cycle in cycles {
        out.push_str(comma_unless(is_first))?;
        is_first = false;
        push_cycle(out, cycle.as_slice())?;
    }
    out.push_str("]")
}

/// Appends the numbers of a cycle's threads.
fn push_cycle(out: &mut String, cycle: &[Waiter]) -> Result<(), AllocError> {
    out.push_str("[")?;
    let mut is_first = true;
    for waiter in cycle {
        let (before, number) = (comma_unless(is_first), waiter.thread.number());
        is_first = false;
        write!(out, "{before}{number}")?;
    }
    out.push_str("]")
}
