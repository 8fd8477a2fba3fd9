//! Threads that wait for one another in a cycle.

ghost use Rattle.std.specs.Prelude.{◌≡◌, ◌<◌, ◌≤◌, ◌↔◌, length, IsTrue};
ghost use Rattle.ptk_words.specs.declared.TheConstants.{THREAD_LIMIT};
ghost use Rattle.ptk_words_model.specs.Chain.{leads_to};
ghost use Rattle.ptk_system.specs.World.{state_of};
ghost use Rattle.ptk_explanation.specs.Deadlocks.{IsDeadlocked, blocker_in, blocker_of_wait};

use crate::thread::Doing;
use ptk_system::{Activity, System};
use ptk_words::{PartId, ThreadNo, Wait};
use std::alloc::{AllocError, Global};

/// A thread of a cycle, and what it does: it waits for the next one.
#[derive(Clone, Copy)]
pub(crate) struct Waiter {
    pub(crate) thread: ThreadNo,
    pub(crate) doing: Doing,
}

/// The cycles of threads that wait for one another, in the order of their least threads. Each is named once, from its
/// least thread on, each thread before the one for which it waits. An error if memory runs out.
pub(crate) fn deadlocks(
    alloc: Global,
    system: &System<'_>,
    p: PartId,
) -> Result<Vec<Vec<Waiter>>, AllocError>
    requires { p < length system.now.config.sections }
{
    let count = thread_count(system, p);
    let mut cycles = Vec::new(alloc);
    for place in 0..count {
        let first = ThreadNo::new(place as u8 + 1);
        if is_deadlocked(system, p, first) {
            let cycle = cycle_from(alloc, system, p, first)?;
            if is_least(first, cycle.as_slice()) {
                cycles.push(cycle)?;
            }
        }
    }
    Ok(cycles)
}

/// How many numbers of threads a partition has, at most `THREAD_LIMIT`.
pub(crate) fn thread_count(system: &System<'_>, p: PartId) -> usize
    requires { p < length system.now.config.sections }
    ensures count { result ≡ length (state_of system.now p).part.locks.threads }
    ensures few { result ≤ THREAD_LIMIT }
{
    system.tables().threads().part(p).len()
}

/// The threads of a cycle from one of them on, each before the one for which it waits.
fn cycle_from(
    alloc: Global,
    system: &System<'_>,
    p: PartId,
    first: ThreadNo,
) -> Result<Vec<Waiter>, AllocError>
    requires { p < length system.now.config.sections }
{
    let mut cycle = Vec::new(alloc);
    let mut thread = first;
    for _ in 0..thread_count(system, p) {
        let doing = Doing::of(system, p, thread);
        cycle.push(Waiter { thread, doing })?;
        match blocker(system, p, thread) {
            Some(next) if next.number() != first.number() => thread = next,
            _ => return Ok(cycle),
        }
    }
    Ok(cycle)
}

/// Whether no thread of a cycle has a lesser number.
fn is_least(first: ThreadNo, cycle: &[Waiter]) -> bool {
    for waiter in cycle {
        if waiter.thread.number() < first.number() {
            return false;
        }
    }
    true
}

/// Whether a thread waits on a cycle: some number of waits, one at least, leads from it back to it. It then waits for
/// ever, unless another thread cancels one that waits for the end of a thread.
fn is_deadlocked(system: &System<'_>, p: PartId, t: ThreadNo) -> bool
    requires { p < length system.now.config.sections }
    ensures { IsTrue result ↔ IsDeadlocked (state_of system.now p).part t }
{
    let most = thread_count(system, p);
    match blocker(system, p, t) {
        Some(next) => leads(system, p, t, most, next),
        None => false,
    }
}

/// Whether at most this many waits lead from a thread to another.
fn leads(system: &System<'_>, p: PartId, to: ThreadNo, most: usize, from: ThreadNo) -> bool
    requires { p < length system.now.config.sections }
    ensures { result ≡ leads_to (blocker_in (state_of system.now p).part) to most from }
{
    if from.number() == to.number() {
        return true;
    }
    if most == 0 {
        return false;
    }
    match blocker(system, p, from) {
        Some(next) => leads(system, p, to, most - 1, next),
        None => false,
    }
}

/// The thread for which a thread waits: the owner of the mutex that it waits for, or the thread whose end it waits for.
/// None if it waits for no thread, or has a deadline, at which its wait ends by itself (pthread_mutex_lock,
/// pthread_mutex_timedlock, pthread_join).
fn blocker(system: &System<'_>, p: PartId, t: ThreadNo) -> Option<ThreadNo>
    requires { p < length system.now.config.sections }
    ensures { result ≡ blocker_in (state_of system.now p).part t }
{
    match system.activity(p, t) {
        Activity::Blocked(wait) => blocker_of_wait(system, p, &wait),
        Activity::Free | Activity::Running | Activity::Ready | Activity::Ended | Activity::Halted =>
            None,
    }
}

/// The thread for which a wait is.
fn blocker_of_wait(system: &System<'_>, p: PartId, wait: &Wait) -> Option<ThreadNo>
    requires { p < length system.now.config.sections }
    ensures { result ≡ blocker_of_wait (state_of system.now p).part.locks wait.now }
{
    match wait {
        Wait::JoinWait(u) => Some(*u),
        Wait::MutexWait(m, None) | Wait::RelockWait(m, _) => system.owner_thread(p, *m),
        Wait::MutexWait(_, Some(_)) => None,
        Wait::InputWait | Wait::SleepWait(_) | Wait::ConditionWait(_, _, _) => None,
    }
}
