//! Steps of a quiet partition in a row, and ticks at which nothing happens.

ghost use Rattle.std.specs.Prelude.{◌≡◌, ℕ, ◌+◌, ◌^◌, ◌<◌, ◌≤◌, true, length, Some, IfSome};
ghost use Rattle.std.specs.Option.{IsSomeAnd};
ghost use Rattle.ptk_words.specs.declared.threads.Thread.{Thread};
ghost use Rattle.ptk_words_model.specs.Priority.{thread_at};
ghost use Rattle.ptk_words.specs.Faults.{is_active};
ghost use Rattle.ptk_words_laws.specs.Quiet.{IsQuiet};
ghost use Rattle.ptk_words_laws.specs.Idle.{IsIdle};
ghost use Rattle.ptk_gate_pools.specs.Kept.{part_at, put_part, limits_at};
ghost use Rattle.ptk_gate_steps.specs.Chosen.{IsChosen};
ghost use Rattle.ptk_gate_steps.specs.Decisions.{IsQuietTo, begun};
ghost use Rattle.ptk_gate_steps.specs.NextSteps.{IsCallNext};
ghost use Rattle.ptk_gate_steps.specs.Stretches.{HasEnded, HasGone, IsCallLast};

use crate::tables::Tables;
use ptk_gate_steps::{Quiet, Reached, prepared_until, quiet_until, run_quiet, stays_idle_until};
use ptk_trace::Trace;
use ptk_words::{PartId, Tick};

impl Tables {
    /// Whether the partition only computes from the tick on, and up to which tick, at most `stop`: no input comes
    /// before it, no deadline is due, no round-robin interval ends, and the running thread stays and begins no
    /// unwinding. None where no tick after the first one is such.
    #[tactic(auto, using(crate::proofs::Wholes::moves, crate::proofs::RowsWhole::gate_far))]
    pub fn quiet_until(&self, p: PartId, tick: Tick, stop: Tick) -> Option<Quiet>
        requires partition { p < length self.now.limits }
        requires active { is_active (part_at p self.now).status ≡ true }
        requires order { tick < stop }
        requires time { stop ≤ 2 ^ 41 }
        ensures quiet { IfSome result (λ q. (tick < q.stop) × (q.stop ≤ stop) × ((thread : Thread) × (thread_at (part_at p self.now).locks q.thread ≡ Some thread) × IsQuiet (limits_at p self.now) tick q.stop q.thread thread (part_at p self.now))) }
        ensures full { (t k : ℕ) → (thread : Thread) → tick < k → k ≤ stop → IsQuiet (limits_at p self.now) tick k t thread (part_at p self.now) → IsSomeAnd result (λ q. k ≤ q.stop) }
    {
        quiet_until(&self.pools.look(p), tick, stop)
    }

    /// `quiet_until` of a partition whose running thread is chosen: it stays before those of the line, and that is not
    /// tested.
    #[inline(always)]
    #[tactic(auto, using(crate::proofs::Wholes::moves, crate::proofs::RowsWhole::gate_far))]
    pub fn prepared_until(&self, p: PartId, tick: Tick, stop: Tick) -> Option<Quiet>
        requires partition { p < length self.now.limits }
        requires active { is_active (part_at p self.now).status ≡ true }
        requires order { tick < stop }
        requires time { stop ≤ 2 ^ 41 }
        requires chosen { IsChosen (part_at p self.now) }
        ensures quiet { IfSome result (λ q. (tick < q.stop) × (q.stop ≤ stop) × ((thread : Thread) × (thread_at (part_at p self.now).locks q.thread ≡ Some thread) × IsQuiet (limits_at p self.now) tick q.stop q.thread thread (part_at p self.now))) }
        ensures full { (t k : ℕ) → (thread : Thread) → tick < k → k ≤ stop → IsQuiet (limits_at p self.now) tick k t thread (part_at p self.now) → IsSomeAnd result (λ q. k ≤ q.stop) }
    {
        prepared_until(&self.pools.look(p), tick, stop)
    }

    /// Steps of the running thread of a quiet partition in a row, the first of them at the tick: plain ones, and quiet
    /// calls that end at its stop or before. The row ends before that stop only where the next step is neither of the
    /// two, or, behind a step, at `until` or later; where `until` is the tick or before, a call is the last step. Each
    /// step is in place of a decision, and the trace has them as the newest. Returns the tick of the next decision, how
    /// many steps there were, and whether the step at that tick is known to be a call.
    pub fn run_quiet(
        &mut self,
        p: PartId,
        quiet: Quiet,
        tick: Tick,
        until: Tick,
        trace: &mut Trace,
    ) -> Reached
        requires partition { p < length self.old.limits }
        requires order { tick < quiet.stop }
        requires near { quiet.stop ≤ tick + 2 ^ 31 }
        requires time { quiet.stop ≤ 2 ^ 41 }
        requires quiet { IsQuietTo (limits_at p self.old) tick quiet.stop quiet.thread (part_at p self.old) }
        ensures within { result.tick ≤ quiet.stop }
        ensures moved { self.new ≡ put_part p (part_at p self.new) self.old }
        ensures gone { HasGone (limits_at p self.old) quiet.thread tick result.steps result.tick (part_at p self.old) (part_at p self.new) trace.old trace.new }
        ensures last { until ≤ tick → IsCallLast (limits_at p self.old) result.steps (begun tick (part_at p self.old)) }
        ensures ended { result.tick < quiet.stop → (tick < result.tick → result.tick < until) → HasEnded quiet.stop quiet.thread result.tick (part_at p self.new) }
        ensures call { result.is_call ≡ true → IsCallNext quiet.thread (part_at p self.new) }
    {
        self.pools.take(p);
        run_quiet(&mut self.pools, quiet, tick, until, trace)
    }

    /// The tick up to which the partition has nothing to do, at most `stop`: no thread runs or is ready, and no input
    /// comes and no deadline is due before it. None where the partition is halted, or a thread runs or is ready.
    #[tactic(auto, using(crate::proofs::Wholes::moves, ptk_gate_pools::proofs::Hands::lifting))]
    pub fn stays_idle_until(&self, p: PartId, stop: Tick) -> Option<Tick>
        requires partition { p < length self.now.limits }
        ensures idle { IfSome result (λ u. (u ≤ stop) × IsIdle u (part_at p self.now)) }
        ensures full { (k : ℕ) → k ≤ stop → IsIdle k (part_at p self.now) → IsSomeAnd result (λ u. k ≤ u) }
    {
        stays_idle_until(&self.pools.look(p), stop)
    }
}
