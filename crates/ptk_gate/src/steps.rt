//! What a decision of a partition is made of.

ghost use Rattle.std.specs.Prelude.{◌≡◌, ◌<◌, ◌+◌, true, length, Some, IsSome};
ghost use Rattle.ptk_words.specs.declared.TheConstants.{CANCELED};
ghost use Rattle.ptk_words_model.specs.Instructions.{effect_at};
ghost use Rattle.ptk_words_model.specs.Priority.{thread_at};
ghost use Rattle.ptk_words_model.specs.Schedule.{after_choice, after_interval, with_thread};
ghost use Rattle.ptk_words_model.specs.Unwinding.{after_unwinding_start, after_gate_step};
ghost use Rattle.ptk_words_model.specs.Withdrawal.{after_expiries};
ghost use Rattle.ptk_words_model.specs.Decision.{after_arrivals, runner_of};
ghost use Rattle.ptk_words.specs.Faults.{is_active};
ghost use Rattle.ptk_gate_pools.specs.Kept.{part_at, put_part, limits_at};
ghost use Rattle.ptk_gate_steps.specs.Instructions.{after_instruction};
ghost use Rattle.ptk_gate_steps.specs.NextSteps.{a0_kept, cpu_of, next_step_in};
ghost use Rattle.ptk_threads.specs.Registers.{with_pc};
ghost use Rattle.ptk_words.specs.Words.{word_of};
ghost use Rattle.ptk_words_model.specs.State.{with_locks};

use crate::tables::Tables;
use ptk_gate_steps::{NextStep, a0_after, instruct, next_step, registers, runner};
use ptk_gate_threads::{
    arrive_due, choose, count_interval, expire_due, start_unwinding, step_at_gate,
};
use ptk_threads::ThreadField;
use ptk_words::{CANCELED, Cpu, Entry, PartId, Thread, ThreadNo, Tick};
use ptk_words_model::Runner;

impl Tables {
    /// All input that comes at the tick or before arrives, in its order.
    #[tactic(auto, using(crate::proofs::Wholes::moves, ptk_gate_pools::proofs::Hands::lifting))]
    pub fn arrive_due(&mut self, p: PartId, tick: Tick)
        requires partition { p < length self.old.limits }
        ensures { self.new ≡ put_part p (after_arrivals (limits_at p self.old) tick (part_at p self.old)) self.old }
    {
        self.pools.take(p);
        arrive_due(&mut self.pools, tick);
    }

    /// All deadlines of the partition at the tick or before expire, in the order of deadline and thread number, each in
    /// the state that the one before left (clock_nanosleep, pthread_mutex_timedlock, pthread_cond_timedwait; own
    /// choice).
    #[tactic(auto, using(crate::proofs::Wholes::moves, ptk_gate_pools::proofs::Hands::lifting))]
    pub fn expire_due(&mut self, p: PartId, tick: Tick)
        requires partition { p < length self.old.limits }
        ensures { self.new ≡ put_part p (after_expiries tick (part_at p self.old)) self.old }
    {
        self.pools.take(p);
        expire_due(&mut self.pools, tick);
    }

    /// The running thread is chosen: the first of the line's greatest effective priority, unless one runs whose
    /// effective priority is as great (XSH 2.8.4).
    #[tactic(auto, using(crate::proofs::Wholes::moves, ptk_gate_pools::proofs::Hands::lifting))]
    pub fn choose(&mut self, p: PartId)
        requires partition { p < length self.old.limits }
        requires active { is_active (part_at p self.old).status ≡ true }
        ensures { self.new ≡ put_part p (after_choice (part_at p self.old)) self.old }
    {
        self.pools.take(p);
        choose(&mut self.pools);
    }

    /// The thread that runs, if one does.
    pub fn runner(&self, p: PartId) -> Option<Runner>
        requires partition { p < length self.now.limits }
        ensures { result ≡ runner_of (part_at p self.now) }
    {
        runner(&self.pools.look(p))
    }

    /// The next step of the running thread: by its pc and the word there, and what the trace keeps of it. None where
    /// no thread runs.
    pub fn next_step(&self, p: PartId) -> Option<NextStep>
        requires partition { p < length self.now.limits }
        ensures { result ≡ next_step_in (part_at p self.now) }
    {
        next_step(&self.pools.look(p))
    }

    /// The registers and pc of the thread of a number; 0 in all of them where the number is free.
    pub fn registers(&self, p: PartId, t: ThreadNo) -> Cpu
        requires partition { p < length self.now.limits }
        ensures { result ≡ cpu_of (thread_at (part_at p self.now).locks t) }
    {
        registers(&self.pools.look(p), t)
    }

    /// The thread's a0 now, after a step; what it was before where the thread ended.
    pub fn a0_after(&self, p: PartId, t: ThreadNo, before: u32) -> u32
        requires partition { p < length self.now.limits }
        ensures { result ≡ a0_kept before (thread_at (part_at p self.now).locks t) }
    {
        a0_after(&self.pools.look(p), t, before)
    }

    /// The running thread, which is cancelled, begins its unwinding (XSH 2.9.5.2).
    #[tactic(auto, using(crate::proofs::Wholes::moves, ptk_gate_pools::proofs::Hands::lifting))]
    pub fn begin_unwinding(&mut self, p: PartId, t: ThreadNo)
        requires partition { p < length self.old.limits }
        requires running { (part_at p self.old).running ≡ Some t }
        ensures { self.new ≡ put_part p (after_unwinding_start t CANCELED (part_at p self.old)) self.old }
    {
        self.pools.take(p);
        start_unwinding(&mut self.pools, t, CANCELED);
    }

    /// A step of the running thread at the return gate: a normal thread's start routine has returned; an unwinding one
    /// calls its next handler or destructor, or ends (pthread_exit, XSH 2.9.5.3).
    #[tactic(auto, using(crate::proofs::Wholes::moves, ptk_gate_pools::proofs::Hands::lifting))]
    pub fn step_at_gate(&mut self, p: PartId, t: ThreadNo, thread: Thread)
        requires partition { p < length self.old.limits }
        requires running { (part_at p self.old).running ≡ Some t }
        ensures { self.new ≡ put_part p (after_gate_step thread.phase t thread (part_at p self.old)) self.old }
    {
        self.pools.take(p);
        step_at_gate(&mut self.pools, t, thread);
    }

    /// The running thread goes on past the ECALL at this pc, whose call is still to be carried out.
    #[tactic(auto, using(crate::proofs::Passing::passing, ptk_gate_pools::proofs::Hands::lifting))]
    pub fn pass_ecall(&mut self, p: PartId, t: ThreadNo, pc: u32)
        requires partition { p < length self.old.limits }
        requires running { (part_at p self.old).running ≡ Some t }
        ensures moved { self.new ≡ put_part p (with_locks (with_thread t (with_pc (word_of (pc + 4)))) (part_at p self.old)) self.old }
        ensures active { is_active (part_at p self.new).status ≡ true }
        ensures still_running { IsSome (part_at p self.new).running }
    {
        self.pools.take(p);
        self.pools
            .update(t, &ThreadField::Address(pc.wrapping_add(4)));
    }

    /// A step of the thread from these registers: the instruction's effect on the registers and the memory, or the
    /// partition stops at a break or a fault. The call of an ECALL is left to be carried out.
    #[tactic(auto, using(crate::proofs::Wholes::moves, ptk_gate_pools::proofs::Hands::lifting))]
    pub fn instruct(&mut self, p: PartId, t: ThreadNo, cpu: Cpu)
        requires partition { p < length self.old.limits }
        ensures { self.new ≡ put_part p (after_instruction t cpu.pc (effect_at cpu (part_at p self.old).memory) (part_at p self.old)) self.old }
    {
        self.pools.take(p);
        instruct(&mut self.pools, t, cpu);
    }

    /// A thread of SCHED_RR that still runs after a step of this many ticks has used them; at the interval it goes to
    /// the tail, and no thread runs (XSH 2.8.4).
    #[tactic(auto, using(crate::proofs::Wholes::intervals, ptk_gate_pools::proofs::Hands::lifting))]
    pub fn count_interval(&mut self, p: PartId, cost: u32, t: ThreadNo)
        requires partition { p < length self.old.limits }
        ensures { self.new ≡ put_part p (after_interval (limits_at p self.old).interval cost t (thread_at (part_at p self.old).locks t) (part_at p self.old)) self.old }
    {
        self.pools.take(p);
        let limits = self.pools.limits();
        count_interval(&mut self.pools, limits.interval, cost, t);
    }

    /// The last step is this one.
    #[tactic(auto, using(crate::proofs::Wholes::moves, ptk_gate_pools::proofs::Hands::lifting))]
    pub fn note_last(&mut self, p: PartId, entry: Entry)
        requires partition { p < length self.old.limits }
        ensures { self.new ≡ put_part p (record (part_at p self.old) { last = Some entry }) self.old }
    {
        self.pools.take(p);
        self.pools.note_last(entry);
    }

    /// The partition's last step, None before the first.
    pub fn last_step(&self, p: PartId) -> Option<Entry>
        requires partition { p < length self.now.limits }
        ensures { result ≡ (part_at p self.now).last }
    {
        self.pools.look(p).last_step()
    }
}
