//! The beginning of a condition wait.

ghost use Rattle.std.specs.Prelude.{◌≡◌, IsSome};
ghost use Rattle.ptk_words.specs.Pools.{pool_get};
ghost use Rattle.ptk_words.specs.Parts.{part_of};
ghost use Rattle.ptk_words_model.specs.Condition.{after_condition_wait};
ghost use Rattle.ptk_mutex.specs.Sound.{IsSound};
ghost use Rattle.ptk_mutex.specs.Tables.{locks_at};
ghost use Rattle.ptk_mutex.specs.Woken.{woken_at};
ghost use Rattle.ptk_cond.specs.Tables.{syncs_at, put_syncs, AreSynced, IsAwake};

use ptk_mutex::{Mutexes, Roster};
use ptk_threads::ThreadField;
use ptk_words::{ConditionNo, MutexNo, PartId, ThreadNo, Tick, Wait};

/// A thread that waits for nothing unlocks the mutex once, as unlock does, and is then the last waiter of the condition
/// variable, until the deadline (a tick) if there is one (pthread_cond_wait, pthread_cond_timedwait). Returns the set
/// of threads that the unlock wakes, as 32 bits: bit k - 1 is thread k.
#[inline(always)]
#[tactic(auto, using(crate::proofs::Steps::waits))]
pub fn wait(
    roster: &mut Roster,
    mutexes: &mut Mutexes,
    p: PartId,
    t: ThreadNo,
    c: ConditionNo,
    m: MutexNo,
    deadline: Option<Tick>,
) -> u32
    requires ready { AreSynced p roster.old }
    requires caller { IsAwake (locks_at p roster.old) t }
    requires used { IsSome (pool_get (part_of roster.old.conditions p) c) }
    ensures woken { result ≡ woken_at p roster.old roster.new }
    ensures roster { roster.new ≡ put_syncs p (after_condition_wait t c m deadline (syncs_at p roster.old)) roster.old }
    ensures ready { AreSynced p roster.new }
    ensures visited { mutexes.new.visited ≡ 0 }
    ensures sound { IsSound roster.old → IsSound roster.new }
{
    roster.await_condition(p, c, t);
    let woken = mutexes.unlock(roster, p, m);
    let wait = Wait::ConditionWait(c, m, deadline);
    roster.update(p, t, &ThreadField::Wait(Some(wait)));
    woken
}
