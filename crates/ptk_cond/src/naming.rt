//! Which mutexes condition waits name.

ghost use Rattle.std.specs.Prelude.{◌≡◌, ◌<◌, [], length, not};
ghost use Rattle.std.specs.List.{list_any};
ghost use Rattle.ptk_words.specs.Pools.{pool_get};
ghost use Rattle.ptk_words.specs.Parts.{part_of};
ghost use Rattle.ptk_words_model.specs.State.{locks_of};
ghost use Rattle.ptk_words_model.specs.Mutex.{wait_of};
ghost use Rattle.ptk_words_model.specs.Condition.{mutex_of_condition_wait, is_named, names_mutex, names_another};
ghost use Rattle.ptk_threads.specs.Links.{threads_of};
ghost use Rattle.ptk_cond.specs.Tables.{syncs_of};

use ptk_mutex::{Roster, is_named, thread_slot};
use ptk_threads::Slot;
use ptk_words::{ConditionNo, MutexNo, PartId, ThreadNo, Wait};

/// Whether a thread waits on a condition variable and is to have this mutex again (pthread_mutex_destroy, EBUSY).
pub fn names(roster: &Roster, p: PartId, m: MutexNo) -> bool
    requires { p < length roster.now.table.threads }
    ensures { result ≡ names_mutex (locks_of (part_of roster.now.table.threads p) []) m }
{
    is_any_naming(roster.threads().part(p), m)
}

/// Whether a waiter of a condition variable is to have another mutex again (pthread_cond_wait, EINVAL).
#[inline(always)]
#[tactic(auto, using(crate::proofs::Waits::none_passes))]
pub fn names_another(roster: &Roster, p: PartId, c: ConditionNo, m: MutexNo) -> bool
    requires { p < length roster.now.table.threads }
    ensures { result ≡ names_another (syncs_of (part_of roster.now.table.threads p) (part_of roster.now.conditions p)) c m }
{
    if !roster.has_condition_waiters(p, c) {
        return false;
    }
    is_any_waiter_naming_another(roster, p, c, m)
}

/// The same, by a list of all waiters.
#[inline(never)]
fn is_any_waiter_naming_another(roster: &Roster, p: PartId, c: ConditionNo, m: MutexNo) -> bool
    requires { p < length roster.now.table.threads }
    ensures { result ≡ names_another (syncs_of (part_of roster.now.table.threads p) (part_of roster.now.conditions p)) c m }
{
    let waiters = roster.condition_waiters(p, c);
    is_any_naming_another(roster.threads().part(p), waiters.as_slice(), m)
}

/// Whether one of these threads names the mutex.
fn is_any_naming(threads: &[Slot], m: MutexNo) -> bool
    ensures { result ≡ list_any (λ thread. is_named m (mutex_of_condition_wait (wait_of thread))) (threads_of threads.now) }
{
    threads.iter().any(|slot| is_naming(slot, m))
}

/// Whether one of these waiters names another mutex.
fn is_any_naming_another(threads: &[Slot], waiters: &[ThreadNo], m: MutexNo) -> bool
    ensures { result ≡ list_any (λ t. not (is_named m (mutex_of_condition_wait (wait_of (pool_get (threads_of threads.now) t))))) waiters.now }
{
    waiters.iter().any(|t| !is_naming_at(threads, *t, m))
}

/// Whether the thread of a number names the mutex.
fn is_naming_at(threads: &[Slot], t: ThreadNo, m: MutexNo) -> bool
    ensures { result ≡ is_named m (mutex_of_condition_wait (wait_of (pool_get (threads_of threads.now) t))) }
{
    match thread_slot(threads, t) {
        Some(slot) => is_naming(slot, m),
        None => false,
    }
}

/// Whether the thread of a slot names the mutex.
#[tactic(auto, using(crate::proofs::Waits::waits))]
fn is_naming(slot: &Slot, m: MutexNo) -> bool
    ensures { result ≡ is_named m (mutex_of_condition_wait (wait_of slot.now.thread)) }
{
    is_named(m, mutex_of_condition_wait(slot.wait()))
}

/// The mutex that a condition wait names; None of any other wait, and of a thread that does not wait.
pub(crate) fn mutex_of_condition_wait(wait: Option<Wait>) -> Option<MutexNo>
    ensures { result ≡ mutex_of_condition_wait wait }
{
    match wait {
        Some(wait) => wait.condition_mutex(),
        None => None,
    }
}
