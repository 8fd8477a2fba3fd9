//! What is read of a thread.

ghost use Rattle.std.specs.Prelude.{◌<◌, length};

use crate::deadlock::thread_count;
use crate::history::History;
use crate::memory::call_of;
use ptk_system::{Activity, MutexState, System};
use ptk_words::{MutexNo, Owner, PartId, Policy, SP, Thread, ThreadNo};
use std::alloc::{AllocError, Global};

/// A mutex that a thread waits for.
#[derive(Clone, Copy)]
pub(crate) struct Awaited {
    /// Its number.
    pub(crate) mutex: MutexNo,
    /// What it is, None if the number is that of no mutex.
    pub(crate) state: Option<MutexState>,
}

impl Awaited {
    /// The mutex that a thread waits for which does this, None if it waits for none.
    fn of(system: &System<'_>, p: PartId, activity: &Activity) -> Option<Awaited>
        requires { p < length system.now.config.sections }
    {
        let mutex = activity.mutex()?;
        let state = system.mutex(p, mutex);
        Some(Awaited { mutex, state })
    }

    /// Who owns the mutex.
    fn owner(&self) -> Option<Owner> {
        let state = self.state.as_ref()?;
        Some(state.owner)
    }
}

/// What a thread does, and the mutex that it waits for.
#[derive(Clone, Copy)]
pub(crate) struct Doing {
    pub(crate) activity: Activity,
    pub(crate) awaited: Option<Awaited>,
}

impl Doing {
    /// That of the thread of a number.
    pub(crate) fn of(system: &System<'_>, p: PartId, t: ThreadNo) -> Doing
        requires { p < length system.now.config.sections }
    {
        let activity = system.activity(p, t);
        let awaited = Awaited::of(system, p, &activity);
        Doing { activity, awaited }
    }

    /// Who owns the mutex that the thread waits for.
    pub(crate) fn owner(&self) -> Option<Owner> {
        let awaited = self.awaited.as_ref()?;
        awaited.owner()
    }

    /// The thread that owns the mutex that this thread waits for, None if no thread does.
    pub(crate) fn owner_thread(&self) -> Option<ThreadNo> {
        match self.owner()? {
            Owner::OwnedBy(t) => Some(t),
            Owner::Free | Owner::Abandoned => None,
        }
    }
}

/// A thread: what it does, and what is kept of it.
#[derive(Clone, Copy)]
pub(crate) struct ThreadFacts {
    /// Its number.
    pub(crate) number: ThreadNo,
    /// What it does.
    pub(crate) doing: Doing,
    /// Its policy (XSH 2.8.4).
    pub(crate) policy: Policy,
    /// Its assigned priority.
    pub(crate) assigned: u8,
    /// Its effective priority (XSH 2.9.4).
    pub(crate) effective: u8,
    /// Its pc, None if it has ended.
    pub(crate) pc: Option<u32>,
    /// The address of the call to which its register ra returns, None if it holds no such address or has ended.
    pub(crate) call: Option<u32>,
    /// Its stack pointer, None if it has ended.
    pub(crate) stack_pointer: Option<u32>,
    /// Whether a request to cancel it is pending, on which it has not acted: one that unwinds keeps its request
    /// (XSH 2.9.5).
    pub(crate) is_cancel_pending: bool,
    /// What was seen of it over the run.
    pub(crate) history: History,
}

impl ThreadFacts {
    /// Those of the thread of a number, None of a free one.
    fn of(
        system: &System<'_>,
        p: PartId,
        number: ThreadNo,
        history: &History,
    ) -> Option<ThreadFacts>
        requires { p < length system.now.config.sections }
    {
        let thread = thread_of(system, p, number)?;
        let effective = system.effective_priority(p, number)?;
        Some(ThreadFacts {
            number,
            doing: Doing::of(system, p, number),
            policy: thread.policy,
            assigned: thread.priority.level(),
            effective,
            pc: system.pc(p, number),
            call: call_of(system, p, number),
            stack_pointer: system.register(p, number, SP),
            is_cancel_pending: thread.phase.is_normal() && system.is_cancel_pending(p, number),
            history: *history,
        })
    }
}

/// The threads of a partition, by number. An error if memory runs out.
pub(crate) fn threads_of(
    alloc: Global,
    system: &System<'_>,
    p: PartId,
    histories: &[History],
) -> Result<Vec<ThreadFacts>, AllocError>
    requires { p < length system.now.config.sections }
{
    let count = thread_count(system, p).min(histories.len());
    let mut threads = Vec::new(alloc);
    for place in 0..count {
        let number = ThreadNo::new(place as u8 + 1);
        let facts = ThreadFacts::of(system, p, number, &histories[place]);
        add_known(&mut threads, &facts)?;
    }
    Ok(threads)
}

/// Puts the facts of a thread at the end, if there are any.
fn add_known(
    threads: &mut Vec<ThreadFacts>,
    facts: &Option<ThreadFacts>,
) -> Result<(), AllocError> {
    match facts {
        Some(facts) => add(threads, facts),
        None => Ok(()),
    }
}

/// Puts a copy of an item at the end of a list.
fn add<T: Copy>(list: &mut Vec<T>, item: &T) -> Result<(), AllocError> {
    list.push(*item)?;
    Ok(())
}

/// The thread of a number, None of a free one.
pub(crate) fn thread_of(system: &System<'_>, p: PartId, t: ThreadNo) -> Option<Thread>
    requires { p < length system.now.config.sections }
{
    system.tables().threads().thread(p, t)
}
