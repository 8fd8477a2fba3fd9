//! A decision in two halves, and what it spends.

ghost use Rattle.std.specs.Prelude.{◌≡◌, ◌<◌, ◌≤◌, true, length, Some};
ghost use Rattle.ptk_words_model.specs.Decision.{runner_of, ready_at, after_turn, spent_in_turn, after_decision, spent_by_decision};
ghost use Rattle.ptk_words.specs.Faults.{is_active};
ghost use Rattle.ptk_gate.specs.Kept.{part_at, put_part, limits_at};
ghost use Rattle.ptk_gate.specs.Decisions.{longest_step};
ghost use Rattle.ptk_gate.specs.Chosen.{IsChosen};
ghost use Rattle.ptk_gate.specs.NextSteps.{IsCallNext, next_step_in};
ghost use Rattle.ptk_kernel.specs.Spending.{cost_in};

use crate::steps::whole_step;
use ptk_gate::{NextStep, Tables, step_cost};
use ptk_words::{Entry, PartId, ThreadNo, Tick};
use ptk_words_model::Spent;

/// A decision of the partition, which has not halted, at a tick of its own with this number of ticks to its window's
/// end: `prepare`, and then `take_turn`. What it spent: the ticks of the step, Idle where no thread runs, Lost where
/// the cost does not fit and no step was made. No other partition changes.
pub fn decide(tables: &mut Tables, p: PartId, tick: Tick, room: u32) -> Spent
    requires partition { p < length tables.old.limits }
    requires active { is_active (part_at p tables.old).status ≡ true }
    requires room { 1 ≤ room }
    ensures told { result ≡ spent_by_decision (limits_at p tables.old) tick room (part_at p tables.old) }
    ensures moved { tables.new ≡ put_part p (after_decision (limits_at p tables.old) tick room (part_at p tables.old)) tables.old }
    ensures short { cost_in result ≤ longest_step }
{
    let _parts = tables.parts();
    prepare(tables, p, tick);
    take_turn(tables, p, tick, room)
}

/// The first half of a decision of the partition, which has not halted, at the tick: what has come by that tick
/// arrives, the deadlines that are due expire, and the running thread is chosen: it stays before those of the line. The
/// partition's part is `ready_at` of what it was; no tick is spent, and no other partition changes.
pub fn prepare(tables: &mut Tables, p: PartId, tick: Tick)
    requires partition { p < length tables.old.limits }
    requires active { is_active (part_at p tables.old).status ≡ true }
    ensures moved { tables.new ≡ put_part p (ready_at (limits_at p tables.old) tick (part_at p tables.old)) tables.old }
    ensures chosen { IsChosen (part_at p tables.new) }
{
    let _parts = tables.parts();
    tables.arrive_due(p, tick);
    tables.expire_due(p, tick);
    tables.choose(p);
}

/// The second half of a decision, of a partition that is prepared for it: the running thread makes its next step at the
/// tick, if the whole cost fits into the room, the ticks to the window's end. What it spent: the ticks of the step;
/// Idle where no thread runs and Lost where the cost does not fit, and nothing changes. No other partition changes.
#[tactic(auto, using(crate::proofs::Turns::turns))]
pub fn take_turn(tables: &mut Tables, p: PartId, tick: Tick, room: u32) -> Spent
    requires partition { p < length tables.old.limits }
    ensures told { result ≡ spent_in_turn (limits_at p tables.old) tick room (runner_of (part_at p tables.old)) (part_at p tables.old) }
    ensures moved { tables.new ≡ put_part p (after_turn (limits_at p tables.old) tick room (runner_of (part_at p tables.old)) (part_at p tables.old)) tables.old }
    ensures short { cost_in result ≤ longest_step }
{
    let next = tables.next_step(p);
    match next {
        Some(next) => begin_step(tables, p, tick, room, &next),
        None => Spent::Idle,
    }
}

/// The second half of a decision, of a partition that is prepared for it and whose running thread's next step is known
/// to be a call: the call is made at the tick, if its whole cost fits into the room, the ticks to the window's end.
/// What it spent: the ticks of the call; Lost where the cost does not fit, and nothing changes. No other partition
/// changes.
#[inline(always)]
pub fn take_call(tables: &mut Tables, p: PartId, t: ThreadNo, tick: Tick, room: u32) -> Spent
    requires partition { p < length tables.old.limits }
    requires call { IsCallNext t (part_at p tables.old) }
    ensures told { result ≡ spent_in_turn (limits_at p tables.old) tick room (runner_of (part_at p tables.old)) (part_at p tables.old) }
    ensures moved { tables.new ≡ put_part p (after_turn (limits_at p tables.old) tick room (runner_of (part_at p tables.old)) (part_at p tables.old)) tables.old }
    ensures short { cost_in result ≤ longest_step }
{
    tables.take_call(p, t, tick, room)
}

/// The step of the running thread, if its whole cost fits; Lost where it does not, and nothing changes.
#[tactic(auto, using(crate::proofs::Turns::turns))]
fn begin_step(tables: &mut Tables, p: PartId, tick: Tick, room: u32, next: &NextStep) -> Spent
    requires partition { p < length tables.old.limits }
    requires next { next_step_in (part_at p tables.old) ≡ Some next.now }
    ensures told { result ≡ spent_in_turn (limits_at p tables.old) tick room (runner_of (part_at p tables.old)) (part_at p tables.old) }
    ensures moved { tables.new ≡ put_part p (after_turn (limits_at p tables.old) tick room (runner_of (part_at p tables.old)) (part_at p tables.old)) tables.old }
    ensures short { cost_in result ≤ longest_step }
{
    let cost = step_cost(next.kind);
    if room < cost {
        return Spent::Lost;
    }
    whole_step(tables, p, tick, next, cost);
    Spent::Step(cost)
}

/// The partition's last step, None before the first.
pub fn last_step(tables: &Tables, p: PartId) -> Option<Entry>
    requires partition { p < length tables.now.limits }
    ensures { result ≡ (part_at p tables.now).last }
{
    tables.last_step(p)
}
