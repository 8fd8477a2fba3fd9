//! The arguments of a call in words.

ghost use Rattle.std.specs.Prelude.{◌<◌, length};

use ptk_disasm::{Located, Symbols, text_in};
use ptk_main_runs::System;
use ptk_trace::Word;
use ptk_words::{A0, A1, A2, A3, Call, PartId, ThreadNo};
use std::alloc::{AllocError, Global};
use std::fmt::Write;

/// The registers of the arguments that are shown, in their order.
const REGISTERS: [u32; 4] = [A0, A1, A2, A3];

/// The distance from a symbol from which on an address is not named by it.
const FAR: u32 = 4096;

/// What an argument of a call is.
#[derive(Clone, Copy, PartialEq, Eq)]
enum Kind {
    /// A number.
    Number,
    /// An address, or 0 for none.
    Address,
    /// The address of the word of a mutex or condition variable.
    Object,
    /// The address of such a word, which the call sets up.
    NewObject,
}

/// An argument of a call: its value, and of an object the word at its address.
#[derive(Clone, Copy)]
pub(crate) struct Argument {
    kind: Kind,
    value: u32,
    word: Option<u32>,
}

/// What the arguments of a call are, from a0 on.
fn kinds_of(call: Call) -> &'static [Kind] {
    match call {
        Call::ConsoleGet
        | Call::PthreadSelf
        | Call::SchedYield
        | Call::PthreadTestcancel
        | Call::CleanupPop => &[],
        Call::Exit
        | Call::ConsolePut
        | Call::PthreadExit
        | Call::PthreadJoin
        | Call::PthreadDetach
        | Call::PthreadGetschedparam
        | Call::PthreadCancel
        | Call::PthreadSetcancelstate
        | Call::PthreadSetcanceltype
        | Call::KeyDelete
        | Call::PthreadGetspecific => &[Kind::Number],
        Call::PthreadSetschedprio | Call::PthreadSetspecific => &[Kind::Number, Kind::Number],
        Call::PthreadSetschedparam => &[Kind::Number, Kind::Number, Kind::Number],
        Call::ClockGettime | Call::ClockNanosleep => &[Kind::Number, Kind::Address],
        Call::PthreadCreate => &[Kind::Address, Kind::Address, Kind::Number],
        Call::CleanupPush => &[Kind::Address, Kind::Number],
        Call::KeyCreate => &[Kind::Address],
        Call::MutexInit => &[Kind::NewObject, Kind::Number, Kind::Number, Kind::Number],
        Call::CondInit => &[Kind::NewObject],
        Call::MutexDestroy
        | Call::MutexLock
        | Call::MutexTrylock
        | Call::MutexUnlock
        | Call::MutexConsistent
        | Call::CondDestroy
        | Call::CondSignal
        | Call::CondBroadcast => &[Kind::Object],
        Call::MutexTimedlock => &[Kind::Object, Kind::Address],
        Call::CondWait => &[Kind::Object, Kind::Object],
        Call::CondTimedwait => &[Kind::Object, Kind::Object, Kind::Address],
    }
}

/// The arguments of a call that a thread is about to make.
pub(crate) fn arguments_of(
    alloc: Global,
    system: &System<'_>,
    p: PartId,
    thread: ThreadNo,
    call: Call,
) -> Result<Vec<Argument>, AllocError>
    requires { p < length system.now.config.sections }
{
    let mut arguments = Vec::new(alloc);
    for (place, kind) in kinds_of(call).iter().enumerate() {
        let register = REGISTERS.get(place).copied().unwrap_or(A0);
        let value = system.register(p, thread, register).unwrap_or(0);
        let word = match kind {
            Kind::Object => word_at(system, p, value),
            Kind::Number | Kind::Address | Kind::NewObject => None,
        };
        arguments.push(Argument {
            kind: *kind,
            value,
            word,
        })?;
    }
    Ok(arguments)
}

/// The word at an address. None if it does not lie in the partition's memory.
pub(crate) fn word_at(system: &System<'_>, p: PartId, address: u32) -> Option<u32>
    requires { p < length system.now.config.sections }
{
    let first = system.byte(p, address)?;
    let second = system.byte(p, address.checked_add(1)?)?;
    let third = system.byte(p, address.checked_add(2)?)?;
    let fourth = system.byte(p, address.checked_add(3)?)?;
    Some(u32::from_le_bytes([first, second, third, fourth]))
}

/// Appends the arguments of a call that was made, with commas between them.
pub(crate) fn push_arguments(
    text: &mut String,
    system: &System<'_>,
    p: PartId,
    symbols: &Symbols<'_>,
    arguments: &[Argument],
) -> Result<(), AllocError>
    requires { p < length system.now.config.sections }
{
    for (place, argument) in arguments.iter().enumerate() {
        if place > 0 {
            text.push_str(", ")?;
        }
        push_argument(text, system, p, symbols, argument)?;
    }
    Ok(())
}

/// Appends an argument of a call that was made: a number, an address by its symbol, or an object by its symbol and its
/// number.
fn push_argument(
    text: &mut String,
    system: &System<'_>,
    p: PartId,
    symbols: &Symbols<'_>,
    argument: &Argument,
) -> Result<(), AllocError>
    requires { p < length system.now.config.sections }
{
    let value = argument.value;
    match argument.kind {
        Kind::Number => write!(text, "{value}"),
        Kind::Address => push_address(text, symbols, value),
        Kind::Object | Kind::NewObject => {
            push_address(text, symbols, value)?;
            match object_of(system, p, argument) {
                Some(number) => write!(text, "={number}"),
                None => Ok(()),
            }
        }
    }
}

/// The number of an object: the word at its address before the call, or after it if the call sets it up. None if the
/// word does not lie in the partition's memory.
fn object_of(system: &System<'_>, p: PartId, argument: &Argument) -> Option<u32>
    requires { p < length system.now.config.sections }
{
    match argument.word {
        Some(number) if number > 0 => Some(number),
        _ => word_at(system, p, argument.value),
    }
}

/// Appends an address by the symbol that is nearest to it, or as a number if none is near.
fn push_address(text: &mut String, symbols: &Symbols<'_>, address: u32) -> Result<(), AllocError> {
    if address == 0 {
        return text.push_str("0");
    }
    match symbols.nearest(address) {
        Some(located) if located.distance < FAR => push_located(text, &located),
        _ => {
            let address = Word(address);
            write!(text, "{address}")
        }
    }
}

/// Appends the name of a symbol, and the distance from its beginning.
fn push_located(text: &mut String, located: &Located<'_>) -> Result<(), AllocError> {
    let distance = located.distance;
    if let Some(name) = text_in(located.name) {
        text.push_str(name)?;
    }
    if distance > 0 {
        write!(text, "+0x{distance:x}")?;
    }
    Ok(())
}
