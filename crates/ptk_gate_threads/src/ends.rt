//! The end of a thread.

ghost use Rattle.std.specs.Prelude.{◌≡◌, ◌≢◌, false, Some, IsSome, IfSome};
ghost use Rattle.std.specs.List.{list_any};
ghost use Rattle.ptk_words_model.specs.State.{with_locks};
ghost use Rattle.ptk_words_model.specs.Priority.{thread_at};
ghost use Rattle.ptk_words_model.specs.Unwinding.{is_alive, after_join_by, after_release, after_last_end, after_end};
ghost use Rattle.ptk_words_sync_invariant.specs.Locks.{joiner_of};
ghost use Rattle.ptk_words_invariant.specs.Well.{IsWell};
ghost use Rattle.ptk_words.specs.Pools.{is_in};
ghost use Rattle.ptk_threads.specs.Links.{threads_of};
ghost use Rattle.ptk_gate_moves.specs.Held.{limits_here};
ghost use Rattle.ptk_words_sync_invariant.specs.Conditions.{IsNoWaiter};
ghost use Rattle.ptk_gate_moves.specs.Moves.{stopped};

use ptk_gate_moves::{Pools, halt};
use ptk_threads::Slot;
use ptk_words::{Status, Thread, ThreadNo};

/// The running thread has ended: its robust mutexes go to their heirs and its others are nobody's, then its joiner is
/// woken, its number free or kept, and the last thread's end exits the partition with 0 (pthread_exit,
/// pthread_mutexattr_setrobust).
#[tactic(auto, using(ptk_gate_moves::proofs::Locked::locked, crate::proofs::Endings::ended))]
pub(crate) fn end(pools: &mut Pools, t: ThreadNo)
    requires well { IsWell (limits_here pools.old) pools.old.here }
    requires runs { pools.old.here.running ≡ Some t }
    ensures { pools.new ≡ record pools.old { here = after_end t pools.old.here } }
{
    pools.abandon(t);
    end_without_mutexes(pools, t);
}

/// The end of a thread that has no mutex any more: its joiner is woken, its number free or kept, no thread runs, and
/// the last thread's end exits the partition with 0 (pthread_exit).
fn end_without_mutexes(pools: &mut Pools, t: ThreadNo)
    requires in_use { IfSome (joiner_of (thread_at pools.old.here.locks t)) (λ u. IsSome (thread_at pools.old.here.locks u)) }
    requires fresh { IfSome (joiner_of (thread_at pools.old.here.locks t)) (λ u. is_in u pools.old.here.line ≡ false) }
    requires free { IfSome (joiner_of (thread_at pools.old.here.locks t)) (λ u. IsNoWaiter u pools.old.here.mutexes pools.old.here.conditions) }
    requires apart { IfSome (joiner_of (thread_at pools.old.here.locks t)) (λ u. u ≢ t) }
    requires out { is_in t pools.old.here.line ≡ false }
    ensures { pools.new ≡ record pools.old { here = after_last_end (stopped (with_locks (after_release t (thread_at pools.old.here.locks t)) pools.old.here)) } }
{
    release(pools, t);
    pools.stop();
    halt_at_last_end(pools);
}

/// The thread's number is free, or kept with its result until a joiner comes (pthread_exit, pthread_detach).
fn release(pools: &mut Pools, t: ThreadNo)
    requires in_use { IfSome (joiner_of (thread_at pools.old.here.locks t)) (λ u. IsSome (thread_at pools.old.here.locks u)) }
    requires fresh { IfSome (joiner_of (thread_at pools.old.here.locks t)) (λ u. is_in u pools.old.here.line ≡ false) }
    requires free { IfSome (joiner_of (thread_at pools.old.here.locks t)) (λ u. IsNoWaiter u pools.old.here.mutexes pools.old.here.conditions) }
    requires apart { IfSome (joiner_of (thread_at pools.old.here.locks t)) (λ u. u ≢ t) }
    requires out { is_in t pools.old.here.line ≡ false }
    ensures { pools.new ≡ record pools.old { here = with_locks (after_release t (thread_at pools.old.here.locks t)) pools.old.here } }
{
    let thread = pools.thread(t);
    match thread {
        Some(thread) => release_thread(pools, t, thread),
        None => {}
    }
}

/// The joiner of a thread in use is woken with its result, and its number is free or kept (pthread_exit,
/// pthread_detach).
#[tactic(auto, using(crate::proofs::Absent::joined_out, crate::proofs::Leaving::released_is))]
fn release_thread(pools: &mut Pools, t: ThreadNo, thread: Thread)
    requires named { thread_at pools.old.here.locks t ≡ Some thread }
    requires in_use { IfSome thread.joiner (λ u. IsSome (thread_at pools.old.here.locks u)) }
    requires fresh { IfSome thread.joiner (λ u. is_in u pools.old.here.line ≡ false) }
    requires free { IfSome thread.joiner (λ u. IsNoWaiter u pools.old.here.mutexes pools.old.here.conditions) }
    requires apart { IfSome thread.joiner (λ u. u ≢ t) }
    requires out { is_in t pools.old.here.line ≡ false }
    ensures { pools.new ≡ record pools.old { here = with_locks (after_release t (Some thread)) pools.old.here } }
{
    tell_joiner(pools, thread.joiner, thread.result);
    pools.end(t);
}

/// The thread's result goes to the thread that joins it (pthread_join).
fn tell_joiner(pools: &mut Pools, joiner: Option<ThreadNo>, value: u32)
    requires in_use { IfSome joiner (λ u. IsSome (thread_at pools.old.here.locks u)) }
    requires fresh { IfSome joiner (λ u. is_in u pools.old.here.line ≡ false) }
    requires free { IfSome joiner (λ u. IsNoWaiter u pools.old.here.mutexes pools.old.here.conditions) }
    ensures { pools.new ≡ record pools.old { here = with_locks (after_join_by joiner value) pools.old.here } }
{
    match joiner {
        Some(u) => pools.wake(u, &[0, value]),
        None => {}
    }
}

/// With no thread alive, the partition exits with 0 (pthread_exit).
fn halt_at_last_end(pools: &mut Pools)
    ensures { pools.new ≡ record pools.old { here = after_last_end pools.old.here } }
{
    if is_any_alive(pools.slots()) {
        return;
    }
    halt(pools, Status::Exited(0));
}

/// Whether the slot's thread is in use and has not ended.
fn is_alive(slot: &Slot) -> bool
    ensures { result ≡ is_alive slot.now.thread }
{
    match slot.thread() {
        Some(thread) => !thread.phase.is_ended(),
        None => false,
    }
}

/// Whether a thread of the slots is in use and has not ended.
fn is_any_alive(slots: &[Slot]) -> bool
    ensures { result ≡ list_any is_alive (threads_of slots.now) }
{
    slots.iter().any(|slot| is_alive(slot))
}
