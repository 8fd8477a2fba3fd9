//! Threads that wait for one another in a cycle.

ghost use Rattle.std.specs.Prelude.{◌<◌, length};

use ptk_main_runs::{Activity, System};
use ptk_words::{PartId, THREAD_LIMIT, ThreadNo, Wait};

/// Whether threads of a partition wait for one another in a cycle, each for the owner of a mutex or for the end of a
/// thread, and none with a deadline.
pub(crate) fn has_deadlock(system: &System<'_>, p: PartId) -> bool
    requires { p < length system.now.config.sections }
{
    for place in 0..THREAD_LIMIT {
        if is_in_cycle(system, p, ThreadNo::new(place as u8 + 1)) {
            return true;
        }
    }
    false
}

/// Whether a thread waits on a cycle: waits lead from it back to it.
fn is_in_cycle(system: &System<'_>, p: PartId, thread: ThreadNo) -> bool
    requires { p < length system.now.config.sections }
{
    let mut last = thread;
    for _ in 0..THREAD_LIMIT {
        match blocker(system, p, last) {
            Some(next) if next.number() == thread.number() => return true,
            Some(next) => last = next,
            None => return false,
        }
    }
    false
}

/// The thread for which a thread waits without a deadline. None if it waits for none.
fn blocker(system: &System<'_>, p: PartId, thread: ThreadNo) -> Option<ThreadNo>
    requires { p < length system.now.config.sections }
{
    match system.activity(p, thread) {
        Activity::Blocked(wait) => match &wait {
            Wait::JoinWait(other) => Some(*other),
            Wait::MutexWait(mutex, None) | Wait::RelockWait(mutex, _) => {
                system.owner_thread(p, *mutex)
            }
            Wait::MutexWait(_, Some(_))
            | Wait::InputWait
            | Wait::SleepWait(_)
            | Wait::ConditionWait(..) => None,
        },
        Activity::Free | Activity::Running | Activity::Ready | Activity::Ended | Activity::Halted =>
            None,
    }
}
