//! The threads that a step wakes.

ghost use Rattle.std.specs.Prelude.{◌<◌, length};

use ptk_main_runs::{Activity, System};
use ptk_words::{Entry, PartId, THREAD_LIMIT, ThreadNo, Tick, Wait};
use std::alloc::{AllocError, Global};
use std::fmt::Write;

/// What the threads of a partition do before a step, in the order of their numbers. A thread whose wait ends at its
/// deadline with the step's decision is `Free`, or waits for its mutex if the step's thread owns that.
#[derive(Drop)]
pub(crate) struct Waits {
    threads: Vec<Activity>,
}

/// How a step ends a thread's wait.
#[derive(Clone, Copy, PartialEq, Eq)]
enum End {
    /// It waits no more.
    Woken,
    /// Its wait for a condition is over, and it waits for its mutex.
    Passed,
}

impl Waits {
    /// What a partition's threads do before the step of one of them, in a system that has come to the step's tick.
    pub(crate) fn before(
        alloc: Global,
        system: &System<'_>,
        p: PartId,
        entry: &Entry,
    ) -> Result<Waits, AllocError>
        requires { p < length system.now.config.sections }
    {
        let mut threads = Vec::new(alloc);
        for place in 0..THREAD_LIMIT {
            let thread = ThreadNo::new(place as u8 + 1);
            let activity = activity_before(system, p, thread, entry);
            add(&mut threads, &activity)?;
        }
        Ok(Waits { threads })
    }

    /// Appends ` wakes` and the numbers of the threads whose waits the step has ended, in a system that has gone over
    /// the step. If there are none it appends ` wakes nobody` if that is worth saying, and else nothing.
    pub(crate) fn push_woken(
        &self,
        text: &mut String,
        system: &System<'_>,
        p: PartId,
        says_nobody: bool,
    ) -> Result<(), AllocError>
        requires { p < length system.now.config.sections }
    {
        let mut before = " wakes ";
        for place in 0..THREAD_LIMIT {
            let thread = ThreadNo::new(place as u8 + 1);
            if let Some(end) = self.end_of(system, p, thread) {
                text.push_str(before)?;
                push_end(text, thread, end)?;
                before = ", ";
            }
        }
        if says_nobody && before != ", " {
            text.push_str(" wakes nobody")?;
        }
        Ok(())
    }

    /// How the step has ended the wait of a thread. None if it has not.
    fn end_of(&self, system: &System<'_>, p: PartId, thread: ThreadNo) -> Option<End>
        requires { p < length system.now.config.sections }
    {
        let before = self.threads.get(thread.number() as usize - 1)?;
        let now = system.activity(p, thread);
        match before {
            Activity::Blocked(wait) => end_of_wait(wait, &now, system.is_marked(p, thread)),
            Activity::Free
            | Activity::Running
            | Activity::Ready
            | Activity::Ended
            | Activity::Halted => None,
        }
    }
}

/// Puts a copy of an item at the end of a list.
fn add<T: Copy>(list: &mut Vec<T>, item: &T) -> Result<(), AllocError> {
    list.push(*item)?;
    Ok(())
}

/// What a thread does before a step: after the deadlines that come with the step's decision.
fn activity_before(system: &System<'_>, p: PartId, thread: ThreadNo, entry: &Entry) -> Activity
    requires { p < length system.now.config.sections }
{
    let activity = system.activity(p, thread);
    if let Activity::Blocked(wait) = &activity
        && is_due(wait, entry.tick)
    {
        return activity_when_due(system, p, wait, entry.thread);
    }
    activity
}

/// Whether the deadline of a wait has come by a tick.
fn is_due(wait: &Wait, tick: Tick) -> bool {
    match wait.deadline() {
        Some(deadline) => deadline.ticks() <= tick.ticks(),
        None => false,
    }
}

/// What a thread does whose wait ends at its deadline, before a step of the thread `by`: it waits for the mutex of a
/// condition wait if that thread owns it.
fn activity_when_due(system: &System<'_>, p: PartId, wait: &Wait, by: ThreadNo) -> Activity
    requires { p < length system.now.config.sections }
{
    let Some(mutex) = wait.condition_mutex() else {
        return Activity::Free;
    };
    match system.owner_thread(p, mutex) {
        Some(owner) if owner.number() == by.number() => {
            Activity::Blocked(Wait::RelockWait(mutex, None))
        }
        _ => Activity::Free,
    }
}

/// How a step has ended a wait of a thread that does this after it, and whether a cancellation took it out of its wait.
/// A wait for input that no cancellation has ended has ended with the input. None if it has not.
fn end_of_wait(wait: &Wait, now: &Activity, is_cancelled: bool) -> Option<End> {
    match now {
        Activity::Running | Activity::Ready => {
            let is_own = *wait == Wait::InputWait && !is_cancelled;
            (!is_own).then_some(End::Woken)
        }
        Activity::Blocked(next) => {
            let is_passed = wait.condition().is_some() && next.condition().is_none();
            is_passed.then_some(End::Passed)
        }
        Activity::Free | Activity::Ended | Activity::Halted => None,
    }
}

/// Appends the number of a thread whose wait has ended.
fn push_end(text: &mut String, thread: ThreadNo, end: End) -> Result<(), AllocError> {
    let number = thread.number();
    match end {
        End::Woken => write!(text, "{number}"),
        End::Passed => write!(text, "{number} (mutex)"),
    }
}
