//! The lines of text.

use crate::deadlock::Waiter;
use crate::explanation::{Body, Explanation, Going};
use crate::place::caller_of;
use crate::signals::LastSignals;
use crate::stop::Stop;
use crate::thread::{Awaited, ThreadFacts};
use crate::words::{
    Headline, REGISTERS, ceiling_of, policy_name, protocol_name, refusal_words, type_name,
};
use ptk_disasm::{Symbols, register_name};
use ptk_rv32i_code::Register;
use ptk_system::MutexState;
use ptk_trace::Word;
use ptk_words::{Cpu, MutexNo};
use std::alloc::AllocError;
use std::fmt::Write;

/// How many registers are in a line.
const REGISTERS_IN_LINE: u32 = 4;

/// Appends how the partition of a name stands. An error if memory runs out.
pub(crate) fn push_lines(
    out: &mut String,
    name: &str,
    explanation: &Explanation,
    symbols: &Symbols<'_>,
) -> Result<(), AllocError> {
    let (tick, headline) = (explanation.tick, Headline(explanation.status));
    let (steps, lost) = (explanation.steps, explanation.lost);
    writeln!(
        out,
        "partition {name} at tick {tick}: {headline}, steps {steps}, lost {lost}"
    )?;
    match &explanation.body {
        Body::Stopped(stop) => push_stop(out, stop, symbols),
        Body::Going(going) => push_going(out, going, symbols),
        Body::Nothing => Ok(()),
    }
}

/// Appends what stopped a partition: the instruction, the address for which it was not carried out, the registers.
fn push_stop(out: &mut String, stop: &Stop, symbols: &Symbols<'_>) -> Result<(), AllocError> {
    let (tick, thread) = (stop.step.tick.ticks(), stop.step.thread.number());
    write!(out, "thread {thread} at tick {tick}")?;
    push_place(out, symbols, stop.step.pc, stop.call)?;
    if let Some(statement) = &stop.statement {
        write!(out, ": {statement}")?;
    }
    out.push_str("\n")?;
    if let Some(address) = stop.address {
        let (address, why) = (Word(address), refusal_words(stop.cause));
        writeln!(out, "address {address}: {why}")?;
    }
    push_registers(out, &stop.cpu)
}

/// Appends the registers, some in a line.
fn push_registers(out: &mut String, cpu: &Cpu) -> Result<(), AllocError> {
    for number in 0..REGISTERS {
        let name = register_name(Register::new(number));
        let value = Word(cpu.register(number));
        write!(out, "  {name:>4} {value}")?;
        if (number + 1) % REGISTERS_IN_LINE == 0 {
            out.push_str("\n")?;
        }
    }
    Ok(())
}

/// Appends what there is to say of a partition that goes on.
fn push_going(out: &mut String, going: &Going, symbols: &Symbols<'_>) -> Result<(), AllocError> {
    if going.is_idle_for_good {
        out.push_str("idle for good: no input to come, no deadline\n")?;
    }
    for facts in going.threads.as_slice() {
        push_thread(out, facts, symbols)?;
    }
    push_deadlocks(out, going.deadlocks.as_slice())
}

/// Appends the lines of a thread.
fn push_thread(
    out: &mut String,
    facts: &ThreadFacts,
    symbols: &Symbols<'_>,
) -> Result<(), AllocError> {
    let (number, doing, since) = (facts.number.number(), facts.doing, facts.history.since);
    writeln!(out, "thread {number}: {doing}, since tick {since}")?;
    push_scheduling(out, facts, symbols)?;
    if let Some(awaited) = &facts.doing.awaited {
        push_awaited(out, awaited)?;
    }
    push_signals(out, &facts.history.signals)?;
    if facts.is_cancel_pending {
        out.push_str("  a cancellation is pending\n")?;
    }
    Ok(())
}

/// Appends the policy and the priorities of a thread, and where it stands if it has not ended.
fn push_scheduling(
    out: &mut String,
    facts: &ThreadFacts,
    symbols: &Symbols<'_>,
) -> Result<(), AllocError> {
    let policy = policy_name(facts.policy);
    let (assigned, effective) = (facts.assigned, facts.effective);
    write!(
        out,
        "  {policy}, priority {assigned}, effective {effective}"
    )?;
    if let (Some(pc), Some(stack)) = (facts.pc, facts.stack_pointer) {
        push_place(out, symbols, pc, facts.call)?;
        push_stack(out, stack, facts.history.least_stack.unwrap_or(stack))?;
    }
    out.push_str("\n")
}

/// Appends a pc with the symbol that is nearest to it, and if a call to which the thread returns is in another function
/// the call likewise.
fn push_place(
    out: &mut String,
    symbols: &Symbols<'_>,
    pc: u32,
    call: Option<u32>,
) -> Result<(), AllocError> {
    let word = Word(pc);
    write!(out, ", pc {word}")?;
    symbols.push_place(out, pc)?;
    match caller_of(symbols, Some(pc), call) {
        Some(caller) => {
            let word = Word(caller);
            write!(out, ", called at {word}")?;
            symbols.push_place(out, caller)
        }
        None => Ok(()),
    }
}

/// Appends a stack pointer, and the least one that was seen.
fn push_stack(out: &mut String, stack: u32, least: u32) -> Result<(), AllocError> {
    let (stack, least) = (Word(stack), Word(least));
    write!(out, ", sp {stack}, least {least}")
}

/// Appends the type and the protocol of the mutex that a thread waits for, nothing of a number that is no mutex.
fn push_awaited(out: &mut String, awaited: &Awaited) -> Result<(), AllocError> {
    match &awaited.state {
        Some(state) => push_mutex(out, awaited.mutex, state),
        None => Ok(()),
    }
}

/// Appends the type and the protocol of a mutex.
fn push_mutex(out: &mut String, mutex: MutexNo, state: &MutexState) -> Result<(), AllocError> {
    let (number, kind) = (mutex.number(), type_name(state.kind));
    let (protocol, ceiling) = (protocol_name(state.protocol), ceiling_of(state.protocol));
    write!(out, "  mutex {number}: {kind}, {protocol}")?;
    if let Some(ceiling) = ceiling {
        write!(out, ", ceiling {ceiling}")?;
    }
    out.push_str("\n")
}

/// Appends the last signals that woke nobody, if there are any.
fn push_signals(out: &mut String, signals: &LastSignals) -> Result<(), AllocError> {
    if signals.is_empty() {
        return Ok(());
    }
    out.push_str("  earlier signals that woke nobody: ")?;
    let mut is_first = true;
    for signal in signals.as_slice() {
        if let Some(signal) = signal {
            let before = if is_first { "" } else { "; " };
            is_first = false;
            let (thread, tick) = (signal.thread.number(), signal.tick);
            write!(out, "{before}thread {thread} at tick {tick}")?;
        }
    }
    out.push_str("\n")
}

/// Appends a line for each cycle of threads that wait for one another.
fn push_deadlocks(out: &mut String, cycles: &[Vec<Waiter>]) -> Result<(), AllocError> {
    for cycle in cycles {
        out.push_str("deadlock: ")?;
        push_waits(out, cycle.as_slice())?;
        out.push_str("\n")?;
    }
    Ok(())
}

/// Appends the waits of a cycle, with a semicolon between them.
fn push_waits(out: &mut String, cycle: &[Waiter]) -> Result<(), AllocError> {
    let mut is_first = true;
    for waiter in cycle {
        if !is_first {
            out.push_str("; ")?;
        }
        is_first = false;
        let (number, doing) = (waiter.thread.number(), waiter.doing);
        write!(out, "thread {number} {doing}")?;
    }
    Ok(())
}
