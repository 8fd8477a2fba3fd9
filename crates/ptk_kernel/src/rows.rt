//! Steps of a quiet partition in a row, and ticks at which nothing happens.

ghost use Rattle.std.specs.Prelude.{◌≡◌, ℕ, ◌+◌, ◌^◌, ◌<◌, ◌≤◌, true, length, Some, IfSome};
ghost use Rattle.std.specs.Option.{IsSomeAnd};
ghost use Rattle.ptk_words.specs.declared.threads.Thread.{Thread};
ghost use Rattle.ptk_words_model.specs.Priority.{thread_at};
ghost use Rattle.ptk_words.specs.Faults.{is_active};
ghost use Rattle.ptk_words_laws.specs.Quiet.{IsQuiet};
ghost use Rattle.ptk_words_laws.specs.Idle.{IsIdle};
ghost use Rattle.ptk_gate.specs.Kept.{part_at, put_part, limits_at};
ghost use Rattle.ptk_gate.specs.Chosen.{IsChosen};
ghost use Rattle.ptk_gate.specs.Decisions.{begun};
ghost use Rattle.ptk_gate.specs.NextSteps.{IsCallNext};
ghost use Rattle.ptk_gate.specs.Stretches.{HasEnded, HasGone, IsCallLast};
ghost use Rattle.ptk_kernel.specs.Rows.{IsStill, IsStillTo};

use ptk_gate::{Quiet, Reached, Tables};
use ptk_trace::Trace;
use ptk_words::{PartId, Tick};

/// Whether the partition only computes from the tick on, and up to which tick, at most `stop`: no input comes before
/// it, no deadline is due, no round-robin interval ends, and the running thread stays and begins no unwinding. None
/// where no tick after the first one is such.
pub fn quiet_until(tables: &Tables, p: PartId, tick: Tick, stop: Tick) -> Option<Quiet>
    requires partition { p < length tables.now.limits }
    requires active { is_active (part_at p tables.now).status ≡ true }
    requires order { tick < stop }
    requires time { stop ≤ 2 ^ 41 }
    ensures quiet { IfSome result (λ q. (tick < q.stop) × (q.stop ≤ stop) × ((thread : Thread) × (thread_at (part_at p tables.now).locks q.thread ≡ Some thread) × IsQuiet (limits_at p tables.now) tick q.stop q.thread thread (part_at p tables.now))) }
    ensures full { (t k : ℕ) → (thread : Thread) → tick < k → k ≤ stop → IsQuiet (limits_at p tables.now) tick k t thread (part_at p tables.now) → IsSomeAnd result (λ q. k ≤ q.stop) }
{
    tables.quiet_until(p, tick, stop)
}

/// `quiet_until` of a partition whose running thread is chosen, as `prepare` leaves it: it stays before those of the
/// line, and that is not tested.
#[inline(always)]
pub fn prepared_until(tables: &Tables, p: PartId, tick: Tick, stop: Tick) -> Option<Quiet>
    requires partition { p < length tables.now.limits }
    requires active { is_active (part_at p tables.now).status ≡ true }
    requires order { tick < stop }
    requires time { stop ≤ 2 ^ 41 }
    requires chosen { IsChosen (part_at p tables.now) }
    ensures quiet { IfSome result (λ q. (tick < q.stop) × (q.stop ≤ stop) × ((thread : Thread) × (thread_at (part_at p tables.now).locks q.thread ≡ Some thread) × IsQuiet (limits_at p tables.now) tick q.stop q.thread thread (part_at p tables.now))) }
    ensures full { (t k : ℕ) → (thread : Thread) → tick < k → k ≤ stop → IsQuiet (limits_at p tables.now) tick k t thread (part_at p tables.now) → IsSomeAnd result (λ q. k ≤ q.stop) }
{
    tables.prepared_until(p, tick, stop)
}

/// Steps of a quiet partition in a row, the first of them at the tick, each in place of a decision: plain ones, and
/// quiet calls that end at its stop or before. Such a call replies at once, wakes nobody and changes no priority. The
/// row ends before that stop only where the next step is neither of the two, or, behind a step, at `until` or later;
/// where `until` is the tick or before, a call is the last step. Returns the tick of the next decision, how many steps
/// there were, and whether the step at that tick is known to be a call; the first tick, and nothing changes, where the
/// step at that one is neither of the two. The partition is as quiet as it was, up to that stop or a later one: the
/// same thread runs, each thread waits as before, and a mutex that threads wait for keeps its owner. The trace has the
/// steps as the newest. No other partition changes.
pub fn run_quiet(
    tables: &mut Tables,
    p: PartId,
    quiet: Quiet,
    tick: Tick,
    until: Tick,
    trace: &mut Trace,
) -> Reached
    requires partition { p < length tables.old.limits }
    requires order { tick < quiet.stop }
    requires near { quiet.stop ≤ tick + 2 ^ 31 }
    requires time { quiet.stop ≤ 2 ^ 41 }
    requires quiet { IsStill p tick quiet tables.old }
    ensures from { tick + result.steps ≤ result.tick }
    ensures within { result.tick ≤ quiet.stop }
    ensures none { result.steps ≡ 0 → (result.tick ≡ tick) × (tables.new ≡ tables.old) × (trace.new ≡ trace.old) }
    ensures moved { tables.new ≡ put_part p (part_at p tables.new) tables.old }
    ensures gone { HasGone (limits_at p tables.old) quiet.thread tick result.steps result.tick (part_at p tables.old) (part_at p tables.new) trace.old trace.new }
    ensures last { until ≤ tick → IsCallLast (limits_at p tables.old) result.steps (begun tick (part_at p tables.old)) }
    ensures ended { result.tick < quiet.stop → (tick < result.tick → result.tick < until) → HasEnded quiet.stop quiet.thread result.tick (part_at p tables.new) }
    ensures call { result.is_call ≡ true → IsCallNext quiet.thread (part_at p tables.new) }
    ensures still { (stop : ℕ) → quiet.stop ≤ stop → IsStillTo p tick stop quiet.thread tables.old → IsStillTo p result.tick stop quiet.thread tables.new }
{
    let _capacity = trace.capacity();
    tables.run_quiet(p, quiet, tick, until, trace)
}

/// The tick up to which the partition has nothing to do, at most `stop`: no thread runs or is ready, and no input comes
/// and no deadline is due before it, so that each decision at a tick of its own before it is Idle and changes nothing.
/// None where the partition is halted, or a thread runs or is ready. No tick at which it has nothing to do is missed.
pub fn stays_idle_until(tables: &Tables, p: PartId, stop: Tick) -> Option<Tick>
    requires partition { p < length tables.now.limits }
    ensures idle { IfSome result (λ u. (u ≤ stop) × IsIdle u (part_at p tables.now)) }
    ensures full { (k : ℕ) → k ≤ stop → IsIdle k (part_at p tables.now) → IsSomeAnd result (λ u. k ≤ u) }
{
    tables.stays_idle_until(p, stop)
}
