//! Stored effective priorities: those of one partition computed again, and what is stored of a thread.

ghost use Rattle.std.specs.Prelude.{◌≡◌, ◌<◌, ◌≤◌, List, length, map, Option, option_map, option_and_then, unwrap_or, IsSome};
ghost use Rattle.std.specs.Option.{option_flatten};
ghost use Rattle.ptk_words.specs.Pools.{pool_get, numbers_of};
ghost use Rattle.ptk_words.specs.declared.threads.Thread.{Thread};
ghost use Rattle.ptk_words_model.specs.Priority.{awaited, assigned_of, next_in_chain, inheritor_of, effective_priorities};
ghost use Rattle.ptk_words.specs.Threads.{mutex_of_wait};
ghost use Rattle.ptk_words.specs.Parts.{part_of};
ghost use Rattle.ptk_threads.specs.Links.{threads_of};
ghost use Rattle.ptk_threads.specs.Table.{thread_in, stored_of, AreLevelsOf};
ghost use Rattle.ptk_roster.specs.Raised.{raised, risen, with_ceilings};
ghost use Rattle.ptk_roster.specs.Tables.{effective_at};

use crate::slot::{MutexSlot, slot_in};
use ptk_threads::{Slot, Threads};
use ptk_words::{MutexNo, PartId, Phase, ThreadNo, Wait};

/// The stored effective priority of a thread; None where the number names no thread or an ended one
/// (pthread_mutexattr_getprotocol; own choice).
#[tactic(auto, using(crate::proofs::LevelLists::readings))]
pub fn effective(threads: &Threads, p: PartId, t: ThreadNo) -> Option<u8>
    requires { p < length threads.now.threads }
    ensures { result ≡ effective_at (stored_of (part_of threads.now.stored p) t) (thread_in threads.now p t) }
{
    match threads.phase(p, t) {
        Some(Phase::Normal) | Some(Phase::Unwinding) => Some(threads.stored_priority(p, t)),
        Some(Phase::Ended) | None => None,
    }
}

/// Computes the priorities again: each thread has its held priority, and then each one raises the chain of the thread
/// that it waits for (pthread_mutexattr_getprotocol). None is above 32, and that of a thread is at least 1.
pub fn recompute(threads: &[Slot], mutexes: &[MutexSlot], stored: &mut [u8])
    requires same { length stored.old ≡ length threads.now }
    requires few { length threads.now ≤ 32 }
    ensures stored { stored.new ≡ effective_priorities (threads_of threads.now) mutexes.now }
    ensures levels { AreLevelsOf (threads_of threads.now) stored.new }
{
    put_assigned(threads, stored);
    raise_owners(mutexes, stored);
    for (k, slot) in threads.iter().enumerate() {
        if let Some(v) = inheritor_from(slot, mutexes) {
            let priority = stored[k];
            raise_chain(threads, mutexes, stored, v, priority, threads.len());
        }
    }
}

/// Stores each thread's assigned priority (XSH 2.8.4).
fn put_assigned(threads: &[Slot], stored: &mut [u8])
    requires same { length stored.old ≡ length threads.now }
    ensures stored { stored.new ≡ map (assigned_of (threads_of threads.now)) (numbers_of (threads_of threads.now)) }
    ensures levels { AreLevelsOf (threads_of threads.now) stored.new }
{
    for k in 0..threads.len() {
        stored[k] = level_at(&threads[k]);
    }
}

/// The owner of each PROTECT mutex has at least its ceiling (pthread_mutexattr_getprotocol).
fn raise_owners(mutexes: &[MutexSlot], stored: &mut [u8])
    ensures stored { stored.new ≡ with_ceilings mutexes.now stored.old }
    ensures levels { (threads : List (Option Thread)) → AreLevelsOf threads stored.old → AreLevelsOf threads stored.new }
{
    for slot in mutexes {
        if let Some((u, ceiling)) = slot.protected() {
            raise(stored, u, ceiling);
        }
    }
}

/// Each thread of the chain, up to the first that is at least as high, has at least this priority; the chain has at
/// most this many steps.
fn raise_chain(
    threads: &[Slot],
    mutexes: &[MutexSlot],
    stored: &mut [u8],
    u: ThreadNo,
    priority: u8,
    fuel: usize,
)
    requires same { length stored.old ≡ length threads.now }
    ensures { stored.new ≡ risen (next_in_chain (threads_of threads.now) mutexes.now) priority fuel u stored.old }
{
    let i = u.place();
    if i >= stored.len() || stored[i] >= priority {
        return;
    }
    stored[i] = priority;
    if fuel == 0 {
        return;
    }
    if let Some(v) = next_in_chain(threads, mutexes, u) {
        raise_chain(threads, mutexes, stored, v, priority, fuel - 1);
    }
}

/// The thread that inherits from a slot's thread: the owner of the INHERIT mutex that it waits for.
fn inheritor_from(slot: &Slot, mutexes: &[MutexSlot]) -> Option<ThreadNo>
    ensures { result ≡ option_and_then (λ m. inheritor_of (pool_get mutexes.now m)) (awaited slot.now.thread) }
{
    inheritor_of(mutexes, awaited_in(slot)?)
}

/// The assigned priority of a slot's thread, 0 of a free one (XSH 2.8.4).
fn level_at(slot: &Slot) -> u8
    ensures value { result ≡ unwrap_or (option_map (λ (thread : Thread). thread.priority) slot.now.thread) 0 }
    ensures in_range { result ≤ 32 }
    ensures positive { IsSome slot.now.thread → 0 < result }
{
    match slot.assigned_priority() {
        Some(priority) => priority.level(),
        None => 0,
    }
}

/// The thread has at least this priority.
#[tactic(auto, using(crate::proofs::LevelLists::numbers))]
fn raise(stored: &mut [u8], t: ThreadNo, priority: u8)
    ensures { stored.new ≡ raised priority t stored.old }
{
    let i = t.place();
    if i < stored.len() {
        stored[i] = stored[i].max(priority);
    }
}

/// The next thread of a chain: the owner of the INHERIT mutex that the thread waits for.
pub fn next_in_chain(threads: &[Slot], mutexes: &[MutexSlot], t: ThreadNo) -> Option<ThreadNo>
    ensures { result ≡ next_in_chain (threads_of threads.now) mutexes.now t }
{
    inheritor_of(mutexes, awaited(threads, t)?)
}

/// The mutex that a thread waits for.
pub fn awaited(threads: &[Slot], t: ThreadNo) -> Option<MutexNo>
    ensures { result ≡ awaited (pool_get (threads_of threads.now) t) }
{
    awaited_in(thread_slot(threads, t)?)
}

/// The mutex that a slot's thread waits for.
#[tactic(auto, using(crate::proofs::LevelLists::readings))]
fn awaited_in(slot: &Slot) -> Option<MutexNo>
    ensures { result ≡ awaited slot.now.thread }
{
    mutex_of_wait(slot.wait())
}

/// The mutex that a wait is for.
fn mutex_of_wait(wait: Option<Wait>) -> Option<MutexNo>
    ensures { result ≡ mutex_of_wait wait }
{
    match wait {
        Some(wait) => wait.mutex(),
        None => None,
    }
}

/// The thread that inherits from the waiters of a mutex.
pub fn inheritor_of(mutexes: &[MutexSlot], m: MutexNo) -> Option<ThreadNo>
    ensures { result ≡ inheritor_of (pool_get mutexes.now m) }
{
    slot_in(mutexes, m)?.inheritor()
}

/// The assigned priority of a thread, 1 to 32; 0 of a free number (XSH 2.8.4).
pub fn assigned(threads: &[Slot], t: ThreadNo) -> u8
    ensures value { result ≡ assigned_of (threads_of threads.now) t }
    ensures in_range { result ≤ 32 }
    ensures positive { IsSome (pool_get (threads_of threads.now) t) → 0 < result }
{
    match thread_slot(threads, t) {
        Some(slot) => match slot.assigned_priority() {
            Some(priority) => priority.level(),
            None => 0,
        },
        None => 0,
    }
}

/// The slot of a number, None past the partition's.
#[tactic(auto, using(crate::proofs::Slots::numbers))]
pub fn thread_slot(threads: &[Slot], t: ThreadNo) -> Option<&Slot>
    ensures { option_flatten (option_map (λ r. r.now.thread) result) ≡ pool_get (threads_of threads.now) t }
{
    threads.get(t.place())
}
