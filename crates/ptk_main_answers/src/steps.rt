//! A step in words.

ghost use Rattle.std.specs.Prelude.{◌≡◌, ◌<◌, ◌≤◌, length};
ghost use Rattle.ptk_words.specs.declared.TheConstants.{LAST_TICK};

use crate::arguments::{Argument, arguments_of, push_arguments, word_at};
use crate::replies::{SUCCESS, reply_name};
use crate::woken::Waits;
use ptk_disasm::{Symbols, push_target, push_word_statement, target_of};
use ptk_main_runs::{Activity, System};
use ptk_statistics_figures::call_name;
use ptk_words::{A7, Call, ECALL, Entry, LAST_TICK, PartId, RA, RETURN_GATE, Tick};
use std::alloc::{AllocError, Global};
use std::fmt::Write;

/// Bytes of an instruction.
const WORD: u32 = 4;

/// The bits of a word that have its opcode and the register that it writes.
const LINK_FIELDS: u32 = 0xfff;

/// These bits of a `jal` that writes ra.
const JAL_RA: u32 = 0x0ef;

/// These bits of a `jalr` that writes ra.
const JALR_RA: u32 = 0x0e7;

/// What a call leaves in a0, or that it leaves nothing there yet.
#[derive(Clone, Copy)]
enum Reply {
    /// It replied this.
    Of(u32),
    /// Its caller is blocked.
    Blocked,
    /// It has no reply.
    Never,
}

/// Appends the symbol that is nearest to a pc, and the step of the word there.
fn push_decoded(
    text: &mut String,
    symbols: &Symbols<'_>,
    pc: u32,
    word: u32,
) -> Result<(), AllocError> {
    symbols.push_place(text, pc)?;
    text.push_str(" ")?;
    if pc == RETURN_GATE {
        return text.push_str("return gate");
    }
    push_word_statement(text, word)?;
    push_target(text, symbols, target_of(pc, word))
}

/// Appends what a call replied, by its name if it has one.
fn push_reply(text: &mut String, reply: Reply) -> Result<(), AllocError> {
    match reply {
        Reply::Of(a0) => {
            text.push_str(" -> ")?;
            push_number(text, a0)
        }
        Reply::Blocked => text.push_str(" blocked"),
        Reply::Never => Ok(()),
    }
}

/// Appends what a call left in a0, by its name if it has one.
fn push_number(text: &mut String, a0: u32) -> Result<(), AllocError> {
    match reply_name(a0) {
        Some(name) => text.push_str(name),
        None => write!(text, "{a0}"),
    }
}

/// What the call of a step replied, in a system that has gone over it: nothing if the thread waits, its partition is
/// halted, or it does not go on after the ECALL.
fn reply_of(system: &System<'_>, p: PartId, entry: &Entry) -> Reply
    requires { p < length system.now.config.sections }
{
    match system.activity(p, entry.thread) {
        Activity::Blocked(_) => Reply::Blocked,
        Activity::Running | Activity::Ready => {
            if system.pc(p, entry.thread) == Some(entry.pc.wrapping_add(WORD)) {
                Reply::Of(entry.a0)
            } else {
                Reply::Never
            }
        }
        Activity::Free | Activity::Ended | Activity::Halted => Reply::Never,
    }
}

/// A tick as a run reaches it: no run goes on after the last tick.
fn stop_at(tick: u64) -> Tick
    ensures { result ≤ LAST_TICK }
{
    Tick::new(tick.min(LAST_TICK))
}

/// A call that a step makes, as it is read before the step.
#[derive(Drop)]
struct MadeCall {
    /// Its number. None if its thread is no more there.
    number: Option<u32>,
    /// Its arguments. None if they are not known before the step, since the thread's wait ends with the same decision,
    /// or if it is a number that is no call.
    arguments: Option<Vec<Argument>>,
    /// The return address of its caller. None if a call of the caller does not lead to the step.
    caller: Option<u32>,
    /// What the partition's threads wait for.
    waits: Waits,
}

impl MadeCall {
    /// The call that a step makes, in a system that has come to its tick.
    fn before(
        alloc: Global,
        system: &System<'_>,
        p: PartId,
        symbols: &Symbols<'_>,
        entry: &Entry,
    ) -> Result<MadeCall, AllocError>
        requires { p < length system.now.config.sections }
    {
        let number = system.register(p, entry.thread, A7);
        let is_waiting = matches!(system.activity(p, entry.thread), Activity::Blocked(_));
        let arguments = match call_of(number) {
            Some(call) if !is_waiting => {
                Some(arguments_of(alloc, system, p, entry.thread, call)?)
            }
            _ => None,
        };
        let caller = caller_of(system, p, symbols, entry);
        let waits = Waits::before(alloc, system, p, entry)?;
        Ok(MadeCall {
            number,
            arguments,
            caller,
            waits,
        })
    }

    /// Appends the call, whom it has woken, and its reply, in a system that has gone over the step.
    fn push(
        &self,
        text: &mut String,
        system: &System<'_>,
        p: PartId,
        symbols: &Symbols<'_>,
        entry: &Entry,
    ) -> Result<(), AllocError>
        requires { p < length system.now.config.sections }
    {
        push_name(text, self.number)?;
        if let Some(arguments) = &self.arguments {
            text.push_str("(")?;
            push_arguments(text, system, p, symbols, arguments.as_slice())?;
            text.push_str(")")?;
        }
        if let Some(address) = self.caller {
            text.push_str(" from")?;
            symbols.push_place(text, address)?;
        }
        let reply = reply_of(system, p, entry);
        let says_nobody = is_success(&reply) && can_wake(call_of(self.number));
        self.waits.push_woken(text, system, p, says_nobody)?;
        push_reply(text, reply)
    }
}

/// Whether a reply is that of a call that succeeded.
fn is_success(reply: &Reply) -> bool {
    match reply {
        Reply::Of(a0) => *a0 == SUCCESS,
        Reply::Blocked | Reply::Never => false,
    }
}

/// The call of a number.
fn call_of(number: Option<u32>) -> Option<Call> {
    Call::of_number(number?)
}

/// Whether it is worth saying of a call that it has woken nobody.
fn can_wake(call: Option<Call>) -> bool {
    match call {
        Some(
            Call::MutexUnlock
            | Call::CondSignal
            | Call::CondBroadcast
            | Call::PthreadCancel
            | Call::PthreadDetach,
        ) => true,
        _ => false,
    }
}

/// Appends the name of a call, or its number if no call has it.
fn push_name(text: &mut String, number: Option<u32>) -> Result<(), AllocError> {
    let Some(number) = number else {
        return Ok(());
    };
    match Call::of_number(number) {
        Some(call) => {
            text.push_str(" ")?;
            text.push_str(call_name(call))
        }
        None => write!(text, " call {number}"),
    }
}

/// The address to which the routine of a step returns, if the call before it leads to the routine, by the symbols.
fn caller_of(system: &System<'_>, p: PartId, symbols: &Symbols<'_>, entry: &Entry) -> Option<u32>
    requires { p < length system.now.config.sections }
{
    let routine = start_of(symbols, entry.pc)?;
    let address = system.register(p, entry.thread, RA)?;
    let place = address.checked_sub(WORD)?;
    let word = word_at(system, p, place)?;
    let leads_here = match word & LINK_FIELDS {
        JAL_RA => start_of(symbols, target_of(place, word)?) == Some(routine),
        JALR_RA => start_of(symbols, address) != Some(routine),
        _ => false,
    };
    leads_here.then_some(address)
}

/// The address at which the symbol begins that is nearest to an address.
fn start_of(symbols: &Symbols<'_>, address: u32) -> Option<u32> {
    let located = symbols.nearest(address)?;
    address.checked_sub(located.distance)
}

/// Appends a call that a step makes. The system goes on to the step, and over it.
fn push_made_call(
    text: &mut String,
    alloc: Global,
    system: &mut System<'_>,
    p: PartId,
    symbols: &Symbols<'_>,
    entry: &Entry,
) -> Result<(), AllocError>
    requires { p < length system.old.config.sections }
    ensures same { system.new.config ≡ system.old.config }
{
    let tick = entry.tick.ticks();
    system.run_to(stop_at(tick));
    let call = MadeCall::before(alloc, system, p, symbols, entry)?;
    system.run_to(stop_at(tick.saturating_add(1)));
    call.push(text, system, p, symbols, entry)
}

/// Appends whom a step at the return gate has woken. The system goes on to the step, and over it.
fn push_woken_at_gate(
    text: &mut String,
    alloc: Global,
    system: &mut System<'_>,
    p: PartId,
    entry: &Entry,
) -> Result<(), AllocError>
    requires { p < length system.old.config.sections }
    ensures same { system.new.config ≡ system.old.config }
{
    let tick = entry.tick.ticks();
    system.run_to(stop_at(tick));
    let waits = Waits::before(alloc, system, p, entry)?;
    system.run_to(stop_at(tick.saturating_add(1)));
    waits.push_woken(text, system, p, false)
}

/// Appends a step in words, after which the system is if the step is an ECALL or at the return gate.
pub(crate) fn push_step(
    text: &mut String,
    alloc: Global,
    system: &mut System<'_>,
    p: PartId,
    symbols: &Symbols<'_>,
    entry: &Entry,
) -> Result<(), AllocError>
    requires { p < length system.old.config.sections }
    ensures same { system.new.config ≡ system.old.config }
{
    push_decoded(text, symbols, entry.pc, entry.word)?;
    if entry.pc == RETURN_GATE {
        push_woken_at_gate(text, alloc, system, p, entry)
    } else if entry.word == ECALL {
        push_made_call(text, alloc, system, p, symbols, entry)
    } else {
        Ok(())
    }
}
