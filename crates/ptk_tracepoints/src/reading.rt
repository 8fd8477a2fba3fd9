//! What is read of a partition after a decision: the call that its step is, the reply, and how long the step takes.

ghost use Rattle.std.specs.Prelude.{◌<◌, ◌≤◌, ◌+◌, length};
ghost use Rattle.ptk_words.specs.declared.TheConstants.{LAST_TICK};

use crate::window::Window;
use ptk_system::{Activity, System};
use ptk_words::{A0, A7, Call, ECALL, Entry, PartId, SP, ThreadNo, Tick, Wait};

/// Bytes of an instruction.
const WORD: u32 = 4;

/// The word of a step that fetched none.
const NO_WORD: u32 = 0;

/// The number of the call that a step is, None of a step that is no call. A thread that ended with its call made
/// pthread_exit.
pub(crate) fn call_of(system: &System<'_>, p: PartId, entry: &Entry) -> Option<u32>
    requires { p < length system.now.config.sections }
{
    if entry.word != ECALL {
        return None;
    }
    let number = system.register(p, entry.thread, A7);
    Some(number.unwrap_or(Call::PthreadExit.number()))
}

/// The pc after a step that is a call.
pub(crate) fn pc_after(entry: &Entry) -> u32 {
    entry.pc.wrapping_add(WORD)
}

/// The reply of the call that a step is, to its thread which does this after it. None if the thread does not go on
/// after the call.
pub(crate) fn reply_after(
    system: &System<'_>,
    p: PartId,
    entry: &Entry,
    activity: &Activity,
) -> Option<u32>
    requires { p < length system.now.config.sections }
{
    match activity {
        Activity::Blocked(_) | Activity::Halted => None,
        Activity::Free | Activity::Running | Activity::Ready | Activity::Ended => {
            goes_on_after(system, p, entry).then_some(entry.a0)
        }
    }
}

/// The reply to a thread that waits no more, and which was to go on at this pc. None if a cancellation has taken it out
/// of its wait, or it goes on elsewhere.
pub(crate) fn reply_at(system: &System<'_>, p: PartId, t: ThreadNo, pc: u32) -> Option<u32>
    requires { p < length system.now.config.sections }
{
    if is_waiting(system, p, t) || system.is_marked(p, t) || system.pc(p, t) != Some(pc) {
        return None;
    }
    system.register(p, t, A0)
}

/// Whether the thread of a step that is a call goes on after the call.
#[inline(always)]
pub(crate) fn goes_on_after(system: &System<'_>, p: PartId, entry: &Entry) -> bool
    requires { p < length system.now.config.sections }
{
    match system.tables().threads().thread_ref(p, entry.thread) {
        Some(thread) => !thread.phase.is_ended() && thread.cpu.pc() == pc_after(entry),
        None => false,
    }
}

/// The stack pointer of a thread. None if there is no such thread, or it has ended.
#[inline(always)]
pub(crate) fn stack_of(system: &System<'_>, p: PartId, t: ThreadNo) -> Option<u32>
    requires { p < length system.now.config.sections }
{
    match system.tables().threads().thread_ref(p, t) {
        Some(thread) if !thread.phase.is_ended() => Some(thread.cpu.register(SP)),
        _ => None,
    }
}

/// Whether a thread waits for something, also in a partition that is halted.
fn is_waiting(system: &System<'_>, p: PartId, t: ThreadNo) -> bool
    requires { p < length system.now.config.sections }
{
    match system.tables().threads().thread(p, t) {
        Some(thread) => thread.wait.is_some(),
        None => false,
    }
}

/// Whether a deadline can end what a thread does with an error: a wait for a mutex or on a condition variable.
pub(crate) fn is_timed(activity: &Activity) -> bool {
    match activity {
        Activity::Blocked(Wait::MutexWait(_, _) | Wait::ConditionWait(_, _, _)) => true,
        Activity::Blocked(_)
        | Activity::Free
        | Activity::Running
        | Activity::Ready
        | Activity::Ended
        | Activity::Halted => false,
    }
}

/// Whether input arrives or a deadline expires with the partition's decision at a tick.
pub(crate) fn is_disturbed(system: &System<'_>, p: PartId, tick: u64) -> bool
    requires { p < length system.now.config.sections }
{
    comes_by(system.tables().next_deadline(p), tick)
        || comes_by(system.tables().next_arrival_tick(p), tick)
}

/// Whether there is a tick, and it is not after another.
fn comes_by(due: Option<Tick>, tick: u64) -> bool {
    match due {
        Some(due) => due.ticks() <= tick,
        None => false,
    }
}

/// Whether a step changes nothing of another thread but the one that ran before: an instruction of a partition that is
/// not halted, no call that acts on another thread or its priority, and no step of a thread's end.
pub(crate) fn is_apart(system: &System<'_>, p: PartId, entry: &Entry, call: Option<u32>) -> bool
    requires { p < length system.now.config.sections }
{
    if system.status(p).is_halted() {
        return false;
    }
    match call {
        Some(number) => !can_act_on_others(Call::of_number(number)),
        None => entry.word != NO_WORD,
    }
}

/// Whether a call can wake, make, cancel, end or free another thread than its caller, change its priority or whom it
/// waits for, or halt the partition.
fn can_act_on_others(call: Option<Call>) -> bool {
    match call {
        Some(
            Call::Exit
            | Call::PthreadCreate
            | Call::PthreadExit
            | Call::PthreadJoin
            | Call::PthreadDetach
            | Call::PthreadCancel
            | Call::PthreadSetschedparam
            | Call::PthreadSetschedprio
            | Call::MutexLock
            | Call::MutexTimedlock
            | Call::MutexUnlock
            | Call::CondWait
            | Call::CondTimedwait
            | Call::CondSignal
            | Call::CondBroadcast,
        ) => true,
        None
        | Some(
            Call::ConsolePut
            | Call::ConsoleGet
            | Call::ClockGettime
            | Call::ClockNanosleep
            | Call::PthreadSelf
            | Call::SchedYield
            | Call::PthreadGetschedparam
            | Call::MutexInit
            | Call::MutexDestroy
            | Call::MutexTrylock
            | Call::MutexConsistent
            | Call::CondInit
            | Call::CondDestroy
            | Call::PthreadSetcancelstate
            | Call::PthreadSetcanceltype
            | Call::PthreadTestcancel
            | Call::CleanupPush
            | Call::CleanupPop
            | Call::KeyCreate
            | Call::KeyDelete
            | Call::PthreadSetspecific
            | Call::PthreadGetspecific,
        ) => false,
    }
}

/// Whether a call can give a mutex another owner while its caller goes on.
pub(crate) fn changes_an_owner(number: u32) -> bool {
    match Call::of_number(number) {
        Some(
            Call::MutexInit
            | Call::MutexDestroy
            | Call::MutexLock
            | Call::MutexTrylock
            | Call::MutexTimedlock
            | Call::MutexUnlock,
        ) => true,
        _ => false,
    }
}

/// The partition's next decision after a tick of its window, at the latest the end of the window.
fn decision_end(system: &System<'_>, window: &Window, tick: u64) -> u64
    requires partition { window.now.partition < length system.now.config.sections }
    requires early { tick < window.now.end }
    ensures later { tick < result }
    ensures within { result ≤ window.now.end }
{
    let end = window.end;
    match system.next(window.partition) {
        Some(next) => next.ticks().max(tick + 1).min(end),
        None => end,
    }
}

/// The tick after the last that the partition's step takes which began at a tick of its window; of a step that halted
/// the partition the tick after its first.
pub(crate) fn step_end(system: &System<'_>, window: &Window, tick: u64) -> u64
    requires partition { window.now.partition < length system.now.config.sections }
    requires early { tick < window.now.end }
    ensures later { tick < result }
    ensures within { result ≤ window.now.end }
{
    let end = decision_end(system, window, tick);
    if system.status(window.partition).is_halted() {
        tick + 1
    } else {
        end
    }
}

/// The first tick from this one on at which something of a window's partition can change, or one from which on nothing
/// of it is told.
#[inline(always)]
pub(crate) fn due(system: &System<'_>, window: &Window, tick: u64) -> u64
    requires { window.now.partition < length system.now.config.sections }
    ensures { tick ≤ result }
{
    let until = system.stays_until(window.partition, Tick::new(window.stop));
    until.ticks().max(tick)
}
