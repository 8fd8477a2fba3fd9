//! What a thread does, as the events tell it.

ghost use Rattle.std.specs.Prelude.{◌<◌, length};

use ptk_system::{Activity, System};
use ptk_words::{Owner, PartId, ThreadNo};

/// What a thread does, and its priorities.
#[derive(Clone, Copy, PartialEq, Eq)]
pub struct ThreadState {
    /// What it does. The thread of a step runs at each tick that the step takes.
    pub activity: Activity,
    /// Its effective priority, None of a free number.
    pub effective: Option<u8>,
    /// Its assigned priority, None of a free number.
    pub assigned: Option<u8>,
    /// The owner of the mutex that it waits for, None if it waits for none.
    pub owner: Option<Owner>,
}

impl ThreadState {
    /// That of a number which no thread has.
    pub const FREE: ThreadState = ThreadState {
        activity: Activity::Free,
        effective: None,
        assigned: None,
        owner: None,
    };

    /// That of a thread of a system.
    pub(crate) fn of(system: &System<'_>, p: PartId, t: ThreadNo) -> ThreadState
        requires { p < length system.now.config.sections }
    {
        let activity = system.activity(p, t);
        ThreadState {
            activity,
            effective: system.effective_priority(p, t),
            assigned: assigned_level(system, p, t),
            owner: owner_for(system, p, &activity),
        }
    }

    /// The same at a tick that a step of the thread takes.
    pub(crate) fn stepping(&self) -> ThreadState {
        ThreadState {
            activity: Activity::Running,
            effective: self.effective,
            assigned: self.assigned,
            owner: None,
        }
    }

    /// Whether the thread is blocked.
    pub fn is_blocked(&self) -> bool {
        match self.activity {
            Activity::Blocked(_) => true,
            Activity::Free
            | Activity::Running
            | Activity::Ready
            | Activity::Ended
            | Activity::Halted => false,
        }
    }

    /// The effective priority, if it is above the assigned one.
    pub fn raised(&self) -> Option<u8> {
        match (self.effective, self.assigned) {
            (Some(level), Some(assigned)) if assigned < level => Some(level),
            _ => None,
        }
    }
}

/// The assigned priority of a thread, None of a free number.
fn assigned_level(system: &System<'_>, p: PartId, t: ThreadNo) -> Option<u8>
    requires { p < length system.now.config.sections }
{
    match system.assigned_priority(p, t) {
        Some(priority) => Some(priority.level()),
        None => None,
    }
}

/// The owner of the mutex that a thread waits for, None if it waits for none.
fn owner_for(system: &System<'_>, p: PartId, activity: &Activity) -> Option<Owner>
    requires { p < length system.now.config.sections }
{
    match activity.mutex() {
        Some(mutex) => system.owner(p, mutex),
        None => None,
    }
}
