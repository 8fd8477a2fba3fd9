//! Whether a partition only computes, and up to which tick.

ghost use Rattle.std.specs.Prelude.{◌≡◌, ℕ, ◌^◌, ◌<◌, ◌≤◌, true, length, min, Some, IfSome, IsSome, option_map, unwrap_or};
ghost use Rattle.std.specs.Option.{IsSomeAnd};
ghost use Rattle.ptk_words.specs.declared.TheConstants.{RETURN_GATE};
ghost use Rattle.ptk_words.specs.declared.threads.Thread.{Thread};
ghost use Rattle.ptk_words_model.specs.Priority.{thread_at, effective_priority};
ghost use Rattle.ptk_words_model.specs.Schedule.{first_ready};
ghost use Rattle.ptk_words.specs.Faults.{is_active};
ghost use Rattle.ptk_words_invariant.specs.Well.{IsWell};
ghost use Rattle.ptk_words_laws.specs.Quiet.{stays_before, IsQuiet};
ghost use Rattle.ptk_gate_steps.specs.Chosen.{IsChosen};
ghost use Rattle.ptk_gate_steps.specs.QuietStops.{before_event, quiet_stop};

use ptk_gate_moves::{Look, is_to_unwind};
use ptk_words::{Policy, Thread, ThreadNo, Tick};

/// A partition that only computes.
#[derive(Clone, Copy)]
pub struct Quiet {
    /// Its running thread.
    pub thread: ThreadNo,
    /// The tick before which nothing but this thread's steps can come.
    pub stop: Tick,
}

/// Whether the partition only computes from the tick on, and up to which tick, at most `stop`: no input comes before
/// it, no deadline is due, no round-robin interval ends, and the running thread stays and begins no unwinding. None
/// where a thread must be chosen, an unwinding begins, or something comes at the tick itself.
pub fn quiet_until(look: &Look<'_>, tick: Tick, stop: Tick) -> Option<Quiet>
    requires active { is_active look.now.part.status ≡ true }
    requires well { IsWell look.now.limits look.now.part }
    requires gate { length look.now.part.memory ≤ RETURN_GATE }
    requires order { tick < stop }
    requires time { stop ≤ 2 ^ 41 }
    ensures quiet { IfSome result (λ q. (tick < q.stop) × (q.stop ≤ stop) × ((thread : Thread) × (thread_at look.now.part.locks q.thread ≡ Some thread) × IsQuiet look.now.limits tick q.stop q.thread thread look.now.part)) }
    ensures full { (t k : ℕ) → (thread : Thread) → tick < k → k ≤ stop → IsQuiet look.now.limits tick k t thread look.now.part → IsSomeAnd result (λ q. k ≤ q.stop) }
{
    let number = look.running()?;
    let thread = look.thread_ref(number)?;
    quiet_thread(look, number, thread, tick, stop)
}

/// `quiet_until` of a partition whose running thread is chosen: it stays before those of the line, and that is not
/// tested.
#[inline(always)]
#[tactic(auto, using(ptk_gate_moves::proofs::Ready::ready))]
pub fn prepared_until(look: &Look<'_>, tick: Tick, stop: Tick) -> Option<Quiet>
    requires active { is_active look.now.part.status ≡ true }
    requires well { IsWell look.now.limits look.now.part }
    requires gate { length look.now.part.memory ≤ RETURN_GATE }
    requires order { tick < stop }
    requires time { stop ≤ 2 ^ 41 }
    requires chosen { IsChosen look.now.part }
    ensures quiet { IfSome result (λ q. (tick < q.stop) × (q.stop ≤ stop) × ((thread : Thread) × (thread_at look.now.part.locks q.thread ≡ Some thread) × IsQuiet look.now.limits tick q.stop q.thread thread look.now.part)) }
    ensures full { (t k : ℕ) → (thread : Thread) → tick < k → k ≤ stop → IsQuiet look.now.limits tick k t thread look.now.part → IsSomeAnd result (λ q. k ≤ q.stop) }
{
    let number = look.running()?;
    chosen_thread(look, number, look.used_thread(number), tick, stop)
}

/// Whether the running thread stays and goes on computing, and up to which tick.
fn quiet_thread(
    look: &Look<'_>,
    t: ThreadNo,
    thread: &Thread,
    tick: Tick,
    stop: Tick,
) -> Option<Quiet>
    requires active { is_active look.now.part.status ≡ true }
    requires well { IsWell look.now.limits look.now.part }
    requires gate { length look.now.part.memory ≤ RETURN_GATE }
    requires order { tick < stop }
    requires time { stop ≤ 2 ^ 41 }
    requires runs { look.now.part.running ≡ Some t }
    requires in_use { thread_at look.now.part.locks t ≡ Some thread.now }
    ensures quiet { IfSome result (λ q. (q.thread ≡ t) × (tick < q.stop) × (q.stop ≤ stop) × IsQuiet look.now.limits tick q.stop t thread.now look.now.part) }
    ensures full { (k : ℕ) → tick < k → k ≤ stop → IsQuiet look.now.limits tick k t thread.now look.now.part → IsSomeAnd result (λ q. k ≤ q.stop) }
{
    if !stays(look, t) {
        return None;
    }
    chosen_thread(look, t, thread, tick, stop)
}

/// Whether the running thread, which stays, goes on computing, and up to which tick.
#[inline(always)]
fn chosen_thread(
    look: &Look<'_>,
    t: ThreadNo,
    thread: &Thread,
    tick: Tick,
    stop: Tick,
) -> Option<Quiet>
    requires active { is_active look.now.part.status ≡ true }
    requires well { IsWell look.now.limits look.now.part }
    requires gate { length look.now.part.memory ≤ RETURN_GATE }
    requires order { tick < stop }
    requires time { stop ≤ 2 ^ 41 }
    requires runs { look.now.part.running ≡ Some t }
    requires in_use { thread_at look.now.part.locks t ≡ Some thread.now }
    requires stays { stays_before (effective_priority look.now.part.locks) t (first_ready look.now.part.locks) ≡ true }
    ensures quiet { IfSome result (λ q. (q.thread ≡ t) × (tick < q.stop) × (q.stop ≤ stop) × IsQuiet look.now.limits tick q.stop t thread.now look.now.part) }
    ensures full { (k : ℕ) → tick < k → k ≤ stop → IsQuiet look.now.limits tick k t thread.now look.now.part → IsSomeAnd result (λ q. k ≤ q.stop) }
{
    if is_to_unwind(look, t, thread) {
        return None;
    }
    let stop = stop_of(look, thread, tick, stop);
    if stop.ticks() > tick.ticks() {
        Some(Quiet { thread: t, stop })
    } else {
        None
    }
}

/// Whether the running thread stays before those of the line (XSH 2.8.4).
fn stays(look: &Look<'_>, t: ThreadNo) -> bool
    requires well { IsWell look.now.limits look.now.part }
    requires in_use { IsSome (thread_at look.now.part.locks t) }
    ensures { result ≡ stays_before (effective_priority look.now.part.locks) t (first_ready look.now.part.locks) }
{
    let next = look.first_ready();
    match next {
        Some(first) => look.effective_priority(t) >= look.effective_priority(first),
        None => true,
    }
}

/// The tick before which no input comes, no deadline is due and the thread's interval does not end.
fn stop_of(look: &Look<'_>, thread: &Thread, tick: Tick, stop: Tick) -> Tick
    requires room { thread.now.used < look.now.limits.interval }
    requires time { tick ≤ 2 ^ 41 }
    ensures { result ≡ quiet_stop look.now.limits tick thread.now look.now.part stop }
{
    let stop = before_events(look, stop);
    match thread.policy {
        Policy::Fifo => stop,
        Policy::RoundRobin => {
            let left = look.interval() - thread.used - 1;
            earlier(Tick::new(tick.ticks() + u64::from(left)), stop)
        }
    }
}

/// The tick before which no input comes and no deadline is due, at most `stop`.
pub(crate) fn before_events(look: &Look<'_>, stop: Tick) -> Tick
    ensures { result ≡ before_event look.now.part stop }
{
    let stop = before(look.next_arrival_tick(), stop);
    before(look.next_deadline(), stop)
}

/// The earlier of a tick, if there is one, and another.
fn before(first: Option<Tick>, stop: Tick) -> Tick
    ensures { result ≡ unwrap_or (option_map (λ tick. min tick stop) first) stop }
{
    match first {
        Some(first) => earlier(first, stop),
        None => stop,
    }
}

/// The earlier of two ticks.
fn earlier(a: Tick, b: Tick) -> Tick
    ensures { result ≡ min a b }
{
    if a.ticks() < b.ticks() { a } else { b }
}
