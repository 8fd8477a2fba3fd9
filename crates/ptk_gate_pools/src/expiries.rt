//! Deadlines: the next one, and its coming (clock_nanosleep, pthread_mutex_timedlock, pthread_cond_timedwait).

ghost use Rattle.std.specs.Prelude.{◌≡◌, ℕ, ◌<◌, length, map, is_some};
ghost use Rattle.ptk_words_model.specs.Withdrawal.{deadlines_of};
ghost use Rattle.ptk_words_sync_invariant.specs.Expiries.{next_expiry};
ghost use Rattle.ptk_words_invariant.specs.Well.{IsWell};
ghost use Rattle.ptk_clock.specs.BySlot.{deadlines_from};
ghost use Rattle.ptk_clock.specs.ByThread.{first_slot, least_deadline};
ghost use Rattle.ptk_gate_pools.specs.Kept.{part_at, deadlines_in};
ghost use Rattle.ptk_gate_pools.specs.Held.{limits_here, all_of};
ghost use Rattle.ptk_gate_pools.specs.Expired.{after_one_expiry};

use crate::pools::Pools;
use ptk_clock::SharedDeadlines;
use ptk_cond::time_out;
use ptk_words::Tick;

impl Pools {
    /// The queue of all partitions' deadlines, by slot: a partition's threads have the slots behind those of the
    /// partitions before it, in order of number.
    pub fn deadlines(&self) -> &SharedDeadlines
        ensures { (q : ℕ) → q < length self.now.elsewhere.limits
            → deadlines_of (part_at q (all_of self.now)).locks ≡ deadlines_from (first_slot q (map deadlines_in (all_of self.now).threads)) (length (part_at q (all_of self.now)).threads) result.now.pairs }
    {
        self.roster.threads().deadlines()
    }

    /// The deadline of the partition that is first by (deadline, thread number) comes, if it is at the tick or before:
    /// a sleeper is woken with 0, a timed lock fails with ETIMEDOUT, a timed wait re-locks and then gets ETIMEDOUT
    /// (clock_nanosleep, pthread_mutex_timedlock, pthread_cond_timedwait). False, and nothing changes, where none is
    /// due.
    #[tactic(auto, using(crate::proofs::Hands::handed))]
    pub fn expire_next(&mut self, tick: Tick) -> bool
        requires well { IsWell (limits_here self.old) self.old.here }
        ensures told { result ≡ is_some (next_expiry tick (deadlines_of self.old.here.locks)) }
        ensures moved { self.new ≡ record self.old { here = after_one_expiry (next_expiry tick (deadlines_of self.old.here.locks)) self.old.here } }
    {
        let p = self.hand;
        match self.roster.threads().first_due(p, tick) {
            Some(t) => {
                let roster = &mut self.roster;
                let mutexes = &mut self.mutexes;
                time_out(roster, mutexes, p, t);
                true
            }
            None => false,
        }
    }
}
