//! Mutexes and condition variables of a roster as `build` makes it, in which nobody waits.

ghost use Rattle.std.specs.Prelude.{◌≡◌, ◌<◌, ◌≤◌, length, All};

use ptk_mutex::{Mutexes, Roster};
use ptk_words::{ConditionNo, MutexKind, MutexNo, PartId, Protocol};
use std::alloc::{AllocError, Global};
use std::marker::Model;
use std::process::Abort;

/// A partition of a roster, and the calls on it.
struct Objects {
    p: PartId,
    roster: Roster,
    mutexes: Mutexes,
}

impl Model for Objects {
    ghost use Rattle.std.specs.Prelude.{◌<◌, length};
    ghost use Rattle.ptk_mutex.specs.SyncRosters.{Rostered};
    ghost use Rattle.ptk_mutex.specs.Sound.{IsSound};

    ghost Value = { Rostered };

    ghost view = { λ a. a.roster };

    ghost invariant = { λ a. (a.p < length a.roster.table.threads) × IsSound a.roster };
}

impl Drop for Objects {
    fn drop(self) {
        let Objects { p, roster, mutexes } = self;
    }
}

impl Objects {
    /// Of the first partition; the counts are no numbers here, so that the check does not write the tables out.
    fn build(
        alloc: Global,
        threads: &[u32],
        mutexes: &[u32],
        conditions: &[u32],
    ) -> Result<Objects, AllocError>
        requires partitions { (0 < length threads.now) × (length threads.now ≤ 8) }
        requires same { (length mutexes.now ≡ length threads.now) × (length conditions.now ≡ length threads.now) }
        requires threads { All (λ count. count ≤ 32) threads.now }
        requires mutexes { All (λ count. count ≤ 64) mutexes.now }
        requires conditions { All (λ count. count ≤ 32) conditions.now }
    {
        let p = PartId::new(0);
        let roster = ptk_mutex::build(alloc, threads, mutexes, conditions)?;
        let mutexes = Mutexes::new();
        Ok(Objects { p, roster, mutexes })
    }

    /// A new mutex that is INHERIT and not robust.
    fn mutex(&mut self) -> Option<MutexNo> {
        let roster = &mut self.roster;
        let kind = MutexKind::Normal;
        self.mutexes
            .init(roster, self.p, kind, Protocol::Inherit, false)
    }

    /// A new condition variable.
    fn condition(&mut self) -> Option<ConditionNo> {
        ptk_cond::init(&mut self.roster, self.p)
    }

    /// The mutex is unlocked. Returns whom this wakes.
    fn unlock(&mut self, m: MutexNo) -> u32 {
        self.mutexes.unlock(&mut self.roster, self.p, m)
    }

    /// The condition variable is signalled. Returns whom this wakes.
    fn signal(&mut self, c: ConditionNo) -> u32 {
        let roster = &mut self.roster;
        let mutexes = &mut self.mutexes;
        ptk_cond::signal(roster, mutexes, self.p, c)
    }

    /// The condition variable is signalled for each waiter. Returns whom this wakes.
    fn broadcast(&mut self, c: ConditionNo) -> u32 {
        let roster = &mut self.roster;
        let mutexes = &mut self.mutexes;
        ptk_cond::broadcast(roster, mutexes, self.p, c)
    }
}

/// A new mutex and a new condition variable.
fn mutex_and_condition(objects: &mut Objects) -> Option<(MutexNo, ConditionNo)> {
    let m = objects.mutex()?;
    let c = objects.condition()?;
    Some((m, c))
}

#[test]
fn each_number_is_given_once_and_nobody_is_woken(rt: HostRuntime) -> Result<(), AllocError> {
    let mut objects = Objects::build(rt.alloc(), &[2], &[1], &[1])?;
    let Some((m, c)) = mutex_and_condition(&mut objects) else {
        rt.abort()
    };
    assert!(rt; mutex_and_condition(&mut objects).is_none() && objects.condition().is_none());
    assert!(rt; objects.unlock(m) == 0 && objects.signal(c) == 0 && objects.broadcast(c) == 0);
    assert!(rt; objects.mutexes.visited() == 0);
    Ok(())
}
