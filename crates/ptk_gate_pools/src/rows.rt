//! Plain steps of a thread in a row, on its registers where they lie in the slot table.

ghost use Rattle.std.specs.Prelude.{◌≡◌, false, ◌+◌, ◌^◌, ◌<◌, ◌≤◌, length, slice_set, Option, Some, IsSome};
ghost use Rattle.ptk_words.specs.declared.threads.Thread.{Thread};
ghost use Rattle.ptk_words.specs.Parts.{part_of};
ghost use Rattle.ptk_words_model.specs.PlainSteps.{core, is_plain, plain_steps};
ghost use Rattle.ptk_words_model.specs.Priority.{thread_at};
ghost use Rattle.ptk_threads.specs.Table.{thread_in, with_changed};
ghost use Rattle.ptk_gate_memory.specs.Quiet.{ArePlain, core_of, computed, after_row, last_after};
ghost use Rattle.ptk_gate_memory.specs.TracedRows.{traced};

use crate::pools::Pools;
use ptk_gate_memory::{Memories, Roster, Trace};
use ptk_threads::Work;
use ptk_words::{Entry, PartId, Policy, Thread, ThreadNo, Tick};

impl Pools {
    /// Plain steps of a thread in use in a row, the first of them at the tick, at most this many, until the next word
    /// is no plain step; how many. Each is counted as if it had been a decision: the registers, the memory, the used
    /// ticks of SCHED_RR, the last step, and the trace, which has them as the newest. Nothing else changes.
    pub fn run_row(&mut self, t: ThreadNo, tick: Tick, most: u32, trace: &mut Trace) -> u32
        requires time { tick < 2 ^ 63 }
        requires in_use { IsSome (thread_at self.old.here.locks t) }
        requires room { (thread : Thread) → thread_at self.old.here.locks t ≡ Some thread → thread.used + most < 2 ^ 32 }
        ensures few { result ≤ most }
        ensures plain { (thread : Thread) → thread_at self.old.here.locks t ≡ Some thread → ArePlain result (core_of thread self.old.here) }
        ensures moved { (thread : Thread) → thread_at self.old.here.locks t ≡ Some thread → self.new ≡ record self.old { here = after_row tick t result thread self.old.here } }
        ensures traced { (thread : Thread) → thread_at self.old.here.locks t ≡ Some thread → trace.new ≡ traced tick t result (core_of thread self.old.here) trace.old }
        ensures ended { (thread : Thread) → thread_at self.old.here.locks t ≡ Some thread → result < most → is_plain (plain_steps result (core_of thread self.old.here)) ≡ false }
    {
        let p = self.hand;
        run_at(
            &mut self.roster,
            &mut self.memories,
            p,
            t,
            tick,
            most,
            trace,
            &mut self.lasts[p.index()],
        )
    }
}

/// A row of the thread of a number on its registers and its partition's memory.
#[inline(always)]
#[tactic(auto, using(crate::proofs::PlainRows::at_thread))]
fn run_at(
    roster: &mut Roster,
    memories: &mut Memories,
    p: PartId,
    t: ThreadNo,
    tick: Tick,
    most: u32,
    trace: &mut Trace,
    last: &mut Option<Entry>,
) -> u32
    requires partition { p < length roster.old.table.threads }
    requires memory { p < length memories.old }
    requires time { tick < 2 ^ 63 }
    requires in_use { IsSome (thread_in roster.old.table p t) }
    requires room { (thread : Thread) → thread_in roster.old.table p t ≡ Some thread → thread.used + most < 2 ^ 32 }
    ensures few { result ≤ most }
    ensures plain { (thread : Thread) → thread_in roster.old.table p t ≡ Some thread → ArePlain result (core thread.cpu (part_of memories.old p)) }
    ensures threads { (thread : Thread) → thread_in roster.old.table p t ≡ Some thread → roster.new.table ≡ with_changed p t (computed result (plain_steps result (core thread.cpu (part_of memories.old p))).cpu) roster.old.table }
    ensures lines { roster.new.lines ≡ roster.old.lines }
    ensures mutexes { roster.new.mutexes ≡ roster.old.mutexes }
    ensures conditions { roster.new.conditions ≡ roster.old.conditions }
    ensures memory { (thread : Thread) → thread_in roster.old.table p t ≡ Some thread → memories.new ≡ slice_set memories.old p (plain_steps result (core thread.cpu (part_of memories.old p))).memory }
    ensures traced { (thread : Thread) → thread_in roster.old.table p t ≡ Some thread → trace.new ≡ traced tick t result (core thread.cpu (part_of memories.old p)) trace.old }
    ensures last { (thread : Thread) → thread_in roster.old.table p t ≡ Some thread → last.new ≡ last_after tick t result (core thread.cpu (part_of memories.old p)) last.old }
    ensures ended { (thread : Thread) → thread_in roster.old.table p t ≡ Some thread → result < most → is_plain (plain_steps result (core thread.cpu (part_of memories.old p))) ≡ false }
{
    let mut row = PlainRow {
        p,
        t,
        tick,
        most,
        memories,
        trace,
        last,
    };
    roster.work_on(p, t, &mut row)
}

/// Plain steps of a thread in a row, as work on it: whose they are, of which partition, from when on and at most how
/// many, and what they write beside its registers.
#[derive(Drop)]
struct PlainRow<'a> {
    p: PartId,
    t: ThreadNo,
    tick: Tick,
    most: u32,
    memories: &'a mut Memories,
    trace: &'a mut Trace,
    last: &'a mut Option<Entry>,
}

impl Work for PlainRow<'_> {
    ghost use Rattle.ptk_gate_pools.specs.Rows.{MayRun, HasRun};

    type Answer = u32;

    ghost can_run = { λ row thread. MayRun row thread };

    ghost has_run = { λ row thread steps after made. HasRun row thread steps after made };

    /// Runs the row, and returns how many steps it took.
    #[inline(always)]
    fn run(&mut self, thread: &mut Thread) -> u32 {
        let memories = &mut *self.memories;
        let trace = &mut *self.trace;
        let last = &mut *self.last;
        run_thread(
            thread, memories, self.p, self.t, self.tick, self.most, trace, last,
        )
    }
}

/// A row of a thread on its registers and this memory, with the ticks of its interval counted.
#[inline(always)]
fn run_thread(
    thread: &mut Thread,
    memories: &mut Memories,
    p: PartId,
    t: ThreadNo,
    tick: Tick,
    most: u32,
    trace: &mut Trace,
    last: &mut Option<Entry>,
) -> u32
    requires partition { p < length memories.old }
    requires time { tick < 2 ^ 63 }
    requires room { thread.old.used + most < 2 ^ 32 }
    ensures few { result ≤ most }
    ensures plain { ArePlain result (core thread.old.cpu (part_of memories.old p)) }
    ensures thread { thread.new ≡ computed result (plain_steps result (core thread.old.cpu (part_of memories.old p))).cpu thread.old }
    ensures memory { memories.new ≡ slice_set memories.old p (plain_steps result (core thread.old.cpu (part_of memories.old p))).memory }
    ensures traced { trace.new ≡ traced tick t result (core thread.old.cpu (part_of memories.old p)) trace.old }
    ensures last { last.new ≡ last_after tick t result (core thread.old.cpu (part_of memories.old p)) last.old }
    ensures ended { result < most → is_plain (plain_steps result (core thread.old.cpu (part_of memories.old p))) ≡ false }
{
    let steps = memories.run_row(p, &mut thread.cpu, tick, t, most, trace, last);
    match thread.policy {
        Policy::Fifo => {}
        Policy::RoundRobin => thread.used += steps,
    }
    steps
}
