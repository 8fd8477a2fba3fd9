//! Cancellation points (XSH 2.9.5.2).

ghost use Rattle.std.specs.Prelude.{◌≡◌, IsSome};
ghost use Rattle.ptk_words.specs.Threads.{is_normal};
ghost use Rattle.ptk_words_model.specs.Calls.{is_cancelled, cancellation_answer};
ghost use Rattle.ptk_words_model.specs.Decision.{is_to_unwind};
ghost use Rattle.ptk_words_model.specs.Priority.{thread_at};

use crate::unwinding::start_unwinding;
use ptk_gate_pools::{Look, Pools};
use ptk_words::{CANCELED, Thread, ThreadNo};
use ptk_words_model::{Invocation, Reply};

/// A cancellation point at which a pending request is acted on: the call is not carried out (XSH 2.9.5.2).
pub fn cancel(pools: &mut Pools, i: Invocation) -> Reply
    ensures told { result ≡ (cancellation_answer i pools.old.here).reply }
    ensures moved { pools.new ≡ record pools.old { here = (cancellation_answer i pools.old.here).part } }
{
    start_unwinding(pools, i.caller, CANCELED);
    Reply::Unwinding
}

/// Whether the thread has a pending request that a cancellation point acts on (XSH 2.9.5.2).
pub fn is_cancelled(pools: &Pools, t: ThreadNo) -> bool
    ensures { result ≡ is_cancelled pools.now.here t }
{
    match pools.thread_ref(t) {
        Some(thread) => thread.phase.is_normal() && pools.is_point_acting(t),
        None => false,
    }
}

/// `is_cancelled` of a thread that is in use.
#[inline(always)]
pub fn is_used_cancelled(pools: &Pools, t: ThreadNo) -> bool
    requires in_use { IsSome (thread_at pools.now.here.locks t) }
    ensures { result ≡ is_cancelled pools.now.here t }
{
    let thread = pools.used_thread(t);
    thread.phase.is_normal() && pools.is_point_acting(t)
}

/// Whether the thread's next step begins its unwinding (XSH 2.9.5.2).
pub fn is_to_unwind(look: &Look<'_>, t: ThreadNo, thread: &Thread) -> bool
    ensures { result ≡ is_to_unwind look.now.part t thread.now }
{
    thread.phase.is_normal() && look.is_acting(t)
}
