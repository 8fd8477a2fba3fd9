//! The tables.

ghost use Rattle.std.specs.Prelude.{◌≡◌, ℕ, ◌+◌, ◌<◌, ◌≤◌, length, map, nat_lt, All, IfOk};
ghost use Rattle.ptk_words.specs.declared.TheConstants.{THREAD_LIMIT};
ghost use Rattle.ptk_words.specs.Ranges.{IsWithinLimits};
ghost use Rattle.ptk_console.specs.ConsoleTable.{fresh_console};
ghost use Rattle.ptk_gate_pools.specs.Blank.{blank};
ghost use Rattle.ptk_words_model.specs.Withdrawal.{deadlines_of};
ghost use Rattle.ptk_clock.specs.BySlot.{deadlines_from};
ghost use Rattle.ptk_clock.specs.ByThread.{first_slot};
ghost use Rattle.ptk_gate_pools.specs.Kept.{AreParts, AreQueued, AreStored, part_at, deadlines_in};

use ptk_clock::SharedDeadlines;
use ptk_gate_pools::Pools;
use ptk_regions::Regions;
use ptk_threads::Threads;
use ptk_words::{Arrival, Limits, PartId, Status, ThreadNo};
use std::alloc::{AllocError, Global};
use std::marker::Model;

/// What the kernel keeps of 1 to 8 partitions.
#[derive(Drop)]
pub struct Tables {
    pub(crate) pools: Pools,
}

impl Model for Tables {
    ghost use Rattle.ptk_gate_pools.specs.Kept.{Kept};
    ghost use Rattle.ptk_gate_pools.specs.Held.{all_of};
    ghost use Rattle.ptk_gate.specs.Whole.{AreWhole};

    ghost Value = { Kept };

    ghost view = { λ a. all_of a.pools };

    ghost invariant = { λ a. AreWhole (all_of a.pools) };
}

impl Tables {
    /// The tables of 1 to 8 sections, from each one's numbers and input, with the room that all later calls fill:
    /// memory all 0, no thread, and all input still to come. An error where memory ran out. No other call takes memory.
    #[tactic(auto, using(crate::proofs::Blanks::blanks))]
    pub fn new(
        alloc: Global,
        limits: &[Limits],
        inputs: &[&[Arrival]],
    ) -> Result<Tables, AllocError>
        requires some { 1 ≤ length limits.now }
        requires few { length limits.now ≤ 8 }
        requires inputs { length inputs.now ≡ length limits.now }
        requires ranges { All IsWithinLimits limits.now }
        ensures { IfOk result (λ tables. tables ≡ blank limits.now (map (λ input. fresh_console input.now) inputs.now)) }
    {
        let pools = Pools::build(alloc, limits, inputs)?;
        Ok(Tables { pools })
    }

    /// How many partitions there are, 1 to 8.
    pub fn parts(&self) -> usize
        ensures count { result ≡ length self.now.limits }
        ensures some { 1 ≤ result }
        ensures few { result ≤ 8 }
        ensures whole { AreParts (length self.now.limits) self.now }
    {
        self.pools.parts()
    }

    /// The slot table of all partitions' threads. Its stored priorities are the effective ones, and its queues, which
    /// lie along the links of the slots, are the ready threads of each priority, in the line's order, and the waiters
    /// of each mutex and condition variable (XSH 2.8.4, pthread_mutexattr_getprotocol).
    pub fn threads(&self) -> &Threads
        ensures threads { result.now.threads ≡ self.now.threads }
        ensures stored { AreStored result.now.stored self.now.threads self.now.mutexes }
        ensures queues { AreQueued result.now.stored result.now.queues self.now }
    {
        self.pools.threads()
    }

    /// How many stored priorities the last call on mutexes read as it raised some, of whatever partition: at most one
    /// more than a partition may have threads. The exact number is promised by the calls of `ptk_mutex`; here and above
    /// its bound alone is.
    pub fn visited(&self) -> u32
        ensures { result ≤ THREAD_LIMIT + 1 }
    {
        self.pools.visited()
    }

    /// The memory of all partitions.
    pub fn regions(&self) -> &Regions
        ensures { result.now ≡ self.now.memory }
    {
        self.pools.regions()
    }

    /// The deadlines of all partitions' threads: one queue, of which each partition's are read by its slots.
    pub fn deadlines(&self) -> &SharedDeadlines
        ensures { (p : ℕ) → p < length self.now.limits
            → deadlines_of (part_at p self.now).locks ≡ deadlines_from (first_slot p (map deadlines_in self.now.threads)) (length (part_at p self.now).threads) result.now.pairs }
    {
        self.pools.deadlines()
    }

    /// Whether the partition goes on, or why it is halted.
    pub fn status(&self, p: PartId) -> Status
        requires { p < length self.now.limits }
        ensures { result ≡ (part_at p self.now).status }
    {
        self.pools.look(p).status()
    }

    /// The partition's running thread, if one runs.
    pub fn running(&self, p: PartId) -> Option<ThreadNo>
        requires { p < length self.now.limits }
        ensures { result ≡ (part_at p self.now).running }
    {
        self.pools.look(p).running()
    }

    /// Whether a thread of the partition is ready, which the running one is not (XSH 2.8.4).
    pub fn has_ready(&self, p: PartId) -> bool
        requires { p < length self.now.limits }
        ensures { result ≡ nat_lt 0 (length (part_at p self.now).line) }
    {
        self.pools.look(p).has_ready()
    }

    /// The partition's output so far.
    pub fn output(&self, p: PartId) -> &[u8]
        requires { p < length self.now.limits }
        ensures { result.now ≡ (part_at p self.now).console.output }
    {
        self.pools.output(p)
    }

    /// How many of the partition's input bytes were lost.
    pub fn dropped(&self, p: PartId) -> u64
        requires { p < length self.now.limits }
        ensures { result ≡ (part_at p self.now).console.dropped }
    {
        self.pools.look(p).dropped()
    }
}
