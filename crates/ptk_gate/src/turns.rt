//! The turn of a thread whose next step is known to be a call (`Tables::take_call`): the step is not looked up, and the
//! thread is looked at once before its call and once after it, and again only where its ticks count in its interval.

ghost use Rattle.std.specs.Prelude.{◌≡◌, ℕ, ◌<◌, ◌≤◌, false, length, Some, option_map, unwrap_or};
ghost use Rattle.ptk_words.specs.declared.calls.Call.TheVariants.{SchedYield};
ghost use Rattle.ptk_words.specs.declared.threads.Thread.{Thread};
ghost use Rattle.ptk_words_model.specs.declared.Invocation.{Invocation};
ghost use Rattle.ptk_words_model.specs.CallTable.{answer_to};
ghost use Rattle.ptk_words_model.specs.Decision.{after_turn, runner_of, spent_in_turn};
ghost use Rattle.ptk_words_model.specs.Priority.{thread_at};
ghost use Rattle.ptk_words_model.specs.Schedule.{is_round_robin};
ghost use Rattle.ptk_words_invariant.specs.Well.{IsWell};
ghost use Rattle.ptk_gate_pools.specs.Kept.{part_at, put_part, limits_at};
ghost use Rattle.ptk_gate_pools.specs.Held.{limits_here};
ghost use Rattle.ptk_gate_steps.specs.Decisions.{cost_in};
ghost use Rattle.ptk_gate_steps.specs.NextSteps.{IsCallNext, a0_kept};
ghost use Rattle.ptk_gate.specs.CallSteps.{ecall_entry, finished, past_ecall};

use crate::calls::{invocation, reply_to};
use crate::tables::Tables;
use ptk_gate_pools::Pools;
use ptk_gate_steps::call_cost;
use ptk_gate_threads::count_interval;
use ptk_threads::ThreadField;
use ptk_words::{A0, A7, Call, Cpu, ECALL, Entry, PartId, Policy, ThreadNo, Tick};
use ptk_words_model::{Invocation, Spent};

impl Tables {
    /// The turn of the running thread, whose next step is known to be a call: the call is made at the tick, if its
    /// whole cost fits into the room, the ticks to the window's end. The pc goes past the ECALL, the call is carried
    /// out as `call` does it, and it is the last step, whose ticks count in the round-robin interval (XSH 2.8.4). What
    /// it spent: the ticks of the call; Lost where the cost does not fit, and nothing changes. No other partition
    /// changes.
    #[inline(always)]
    #[tactic(auto, using(ptk_gate_pools::proofs::Hands::lifting, crate::proofs::CallSteps::whole_turns))]
    pub fn take_call(&mut self, p: PartId, t: ThreadNo, tick: Tick, room: u32) -> Spent
        requires partition { p < length self.old.limits }
        requires call { IsCallNext t (part_at p self.old) }
        ensures told { result ≡ spent_in_turn (limits_at p self.old) tick room (runner_of (part_at p self.old)) (part_at p self.old) }
        ensures moved { self.new ≡ put_part p (after_turn (limits_at p self.old) tick room (runner_of (part_at p self.old)) (part_at p self.old)) self.old }
        ensures short { cost_in result ≤ 16 }
    {
        self.pools.take(p);
        take_turn(&mut self.pools, t, tick, room)
    }
}

/// The turn of the partition in hand, whose running thread's next step is a call.
#[inline(always)]
fn take_turn(pools: &mut Pools, t: ThreadNo, tick: Tick, room: u32) -> Spent
    requires well { IsWell (limits_here pools.old) pools.old.here }
    requires call { IsCallNext t pools.old.here }
    ensures told { result ≡ spent_in_turn (limits_here pools.old) tick room (runner_of pools.old.here) pools.old.here }
    ensures moved { pools.new ≡ record pools.old { here = after_turn (limits_here pools.old) tick room (runner_of pools.old.here) pools.old.here } }
    ensures short { cost_in result ≤ 16 }
{
    let thread = pools.used_thread(t);
    let cpu = &thread.cpu;
    let known = Call::of_number(cpu.register(A7));
    let cost = call_cost(known);
    if room < cost {
        return Spent::Lost;
    }
    let pc = cpu.pc();
    if let Some(Call::SchedYield) = known {
        make_yield(pools, t, tick, pc);
    } else {
        let i = invocation(pools.limits(), tick, t, cpu);
        make_step(pools, known, &i, pc, cost);
    }
    Spent::Step(cost)
}

/// The step of a sched_yield whose ECALL is at this pc: the caller goes to the tail with 0 in a0, and no thread runs,
/// so that no ticks count in an interval. It is what `make_step` makes of this call, without the frame that the others
/// need.
#[inline(always)]
#[tactic(auto, using(crate::proofs::Yields::yields))]
fn make_yield(pools: &mut Pools, t: ThreadNo, tick: Tick, pc: u32)
    requires well { IsWell (limits_here pools.old) pools.old.here }
    requires running { pools.old.here.running ≡ Some t }
    ensures { (i : Invocation) (cost : ℕ) → i.caller ≡ t → i.tick ≡ tick → pools.new ≡ record pools.old { here = finished (limits_here pools.old) (ecall_entry pc i) cost (answer_to (Some SchedYield) i (past_ecall t pc pools.old.here)).part } }
{
    pools.update(t, &ThreadField::Address(pc.wrapping_add(4)));
    pools.end_turn_with(t, &[0]);
    pools.note_last(Entry {
        tick,
        thread: t,
        pc,
        word: ECALL,
        a0: 0,
    });
}

/// The step of the call, of these ticks, whose ECALL is at this pc.
#[inline(always)]
fn make_step(pools: &mut Pools, known: Option<Call>, i: &Invocation, pc: u32, cost: u32)
    requires limits { i.now.limits ≡ limits_here pools.old }
    requires well { IsWell (limits_here pools.old) pools.old.here }
    requires running { pools.old.here.running ≡ Some i.now.caller }
    ensures { pools.new ≡ record pools.old { here = finished (limits_here pools.old) (ecall_entry pc i.now) cost (answer_to known i.now (past_ecall i.now.caller pc pools.old.here)).part } }
{
    let entry = entry_of(i, pc);
    pools.update(i.caller, &ThreadField::Address(pc.wrapping_add(4)));
    let _told = reply_to(pools, known, i);
    finish(pools, &entry, cost);
}

/// The entry of the ECALL at this pc that states the call, with a0 before it.
#[inline]
fn entry_of(i: &Invocation, pc: u32) -> Entry
    ensures { result ≡ ecall_entry pc i.now }
{
    Entry {
        tick: i.tick,
        thread: i.caller,
        pc,
        word: ECALL,
        a0: i.a0,
    }
}

/// The last step is this one, with a0 as its thread has it now, or as it is here where that ended, and its ticks count
/// in the thread's round-robin interval (XSH 2.8.4). The thread is looked at once, and again only where they count.
#[inline(always)]
#[tactic(auto, using(crate::proofs::CallSteps::finishes))]
fn finish(pools: &mut Pools, entry: &Entry, cost: u32)
    requires well { IsWell (limits_here pools.old) pools.old.here }
    ensures { pools.new ≡ record pools.old { here = finished (limits_here pools.old) entry.now cost pools.old.here } }
{
    let left = left_by(pools, entry.thread, entry.a0);
    pools.note_last(Entry {
        tick: entry.tick,
        thread: entry.thread,
        pc: entry.pc,
        word: entry.word,
        a0: left.a0,
    });
    if left.counts {
        let limits = pools.limits();
        count_interval(pools, limits.interval, cost, entry.thread);
    }
}

/// What is read of a thread after its call.
#[derive(Clone, Copy)]
struct Left {
    /// Its a0, or what that was before the call where the thread ended.
    a0: u32,
    /// Whether its ticks count: it is in use and of SCHED_RR.
    counts: bool,
}

/// What is read of the thread after its call, before which a0 was this.
#[inline(always)]
fn left_by(pools: &Pools, t: ThreadNo, before: u32) -> Left
    ensures a0 { result.a0 ≡ a0_kept before (thread_at pools.now.here.locks t) }
    ensures counts { result.counts ≡ unwrap_or (option_map (λ (thread : Thread). is_round_robin thread.policy) (thread_at pools.now.here.locks t)) false }
{
    let Some(thread) = pools.thread_ref(t) else {
        return Left {
            a0: before,
            counts: false,
        };
    };
    let cpu = &thread.cpu;
    Left {
        a0: if thread.phase.is_ended() {
            before
        } else {
            cpu.register(A0)
        },
        counts: matches!(thread.policy, Policy::RoundRobin),
    }
}
