//! The tables.

ghost use Rattle.std.specs.Prelude.{◌≡◌, ◌+◌, ◌<◌, ◌≤◌, length};
ghost use Rattle.ptk_words.specs.declared.TheConstants.{THREAD_LIMIT};
ghost use Rattle.ptk_gate_pools.specs.Kept.{AreStored, AreQueued};
ghost use Rattle.ptk_gate_pools.specs.Held.{held, all_of};

use ptk_cancel::Cancellations;
use ptk_cond::Mutexes;
use ptk_console::Consoles;
use ptk_gate_memory::{Memories, Roster};
use ptk_keys::KeyTable;
use ptk_regions::Regions;
use ptk_threads::Threads;
use ptk_words::{Entry, Limits, PartId, Status, ThreadNo};
use std::marker::Model;

/// What the kernel keeps of all partitions: one slot table, one memory vector, and a pool of each other kind.
pub struct Pools {
    pub(crate) memories: Memories,
    pub(crate) roster: Roster,
    pub(crate) mutexes: Mutexes,
    pub(crate) running: Vec<Option<ThreadNo>>,
    pub(crate) cancellations: Cancellations,
    pub(crate) keys: KeyTable,
    pub(crate) consoles: Consoles,
    pub(crate) statuses: Vec<Status>,
    pub(crate) lasts: Vec<Option<Entry>>,
    pub(crate) limits: Vec<Limits>,
    pub(crate) hand: PartId,
}

// By hand: a function that drops the pools calls this, and its proof does not spell out the drop of each part.
impl Drop for Pools {
    fn drop(self) {
        let Pools {
            memories,
            roster,
            mutexes,
            running,
            cancellations,
            keys,
            consoles,
            statuses,
            lasts,
            limits,
            hand,
        } = self;
    }
}

impl Model for Pools {
    ghost use Rattle.ptk_gate_pools.specs.Held.{Held, held};
    ghost use Rattle.ptk_gate_pools.specs.Pooled.{kept_of, ArePooled};

    ghost Value = { Held };

    ghost view = { λ a. held a.hand (kept_of a) };

    ghost invariant = { λ a. ArePooled a };
}

impl Pools {
    /// How many partitions there are, at most 8.
    pub fn parts(&self) -> usize
        ensures { result ≡ length self.now.elsewhere.limits }
    {
        self.limits.len()
    }

    /// Takes the partition in hand: the calls that follow act on it.
    #[tactic(auto, using(crate::proofs::Hands::taken))]
    pub fn take(&mut self, p: PartId)
        requires { p < length self.old.elsewhere.limits }
        ensures { self.new ≡ held p (all_of self.old) }
    {
        self.hand = p;
    }

    /// The slot table of all partitions' threads. Its stored priorities are the effective ones, and its queues are the
    /// ready threads of each priority, in the line's order, and the waiters of each mutex and condition variable.
    pub fn threads(&self) -> &Threads
        ensures threads { result.now.threads ≡ (all_of self.now).threads }
        ensures stored { AreStored result.now.stored (all_of self.now).threads (all_of self.now).mutexes }
        ensures queues { AreQueued result.now.stored result.now.queues (all_of self.now) }
    {
        self.roster.threads()
    }

    /// How many stored priorities the last call on mutexes read as it raised some, of whatever partition: at most one
    /// more than a partition may have threads. The exact number is promised by the calls of `ptk_mutex`; here and above
    /// its bound alone is.
    pub fn visited(&self) -> u32
        ensures { result ≤ THREAD_LIMIT + 1 }
    {
        self.mutexes.visited()
    }

    /// The memory of all partitions.
    #[tactic(auto, using(crate::proofs::Hands::taken))]
    pub fn regions(&self) -> &Regions
        ensures { result.now ≡ (all_of self.now).memory }
    {
        self.memories.regions()
    }
}
