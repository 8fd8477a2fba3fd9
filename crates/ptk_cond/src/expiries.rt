//! A deadline that comes, and what its coming does to a thread (clock_nanosleep, pthread_mutex_timedlock,
//! pthread_cond_timedwait).

ghost use Rattle.std.specs.Prelude.{◌≡◌, None, IsSome};
ghost use Rattle.ptk_words.specs.Parts.{part_of};
ghost use Rattle.ptk_words_model.specs.Mutex.{wait_of};
ghost use Rattle.ptk_threads.specs.Table.{thread_in};
ghost use Rattle.ptk_words.specs.Threads.{condition_of_wait};
ghost use Rattle.ptk_cond.specs.LockVisits.{IsVisited};
ghost use Rattle.ptk_cond.specs.Sound.{IsSound};
ghost use Rattle.ptk_cond.specs.Tables.{syncs_at, put_syncs, AreSynced};
ghost use Rattle.ptk_cond.specs.Timeouts.{after_sync_timeout, mutex_locked, IsBlocked};

use crate::{Mutexes, Roster, withdraw};
use ptk_words::{Errno, PartId, ThreadNo, Wait};

/// The deadline of the thread's wait comes; a thread that is in no timed wait stays.
#[tactic(auto, using(crate::proofs::Waits::waits))]
pub fn time_out(roster: &mut Roster, mutexes: &mut Mutexes, p: PartId, t: ThreadNo)
    requires ready { AreSynced p roster.old }
    requires blocked { IsBlocked (syncs_at p roster.old) t }
    ensures roster { roster.new ≡ put_syncs p (after_sync_timeout t (wait_of (thread_in roster.old.table p t)) (syncs_at p roster.old)) roster.old }
    ensures visited { IsSome (condition_of_wait (wait_of (thread_in roster.old.table p t))) → IsVisited mutexes.new.visited (part_of roster.old.table.stored p) (part_of roster.new.table.stored p) }
    ensures withdrawn { IsSome (mutex_locked (wait_of (thread_in roster.old.table p t))) → mutexes.new.visited ≡ 0 }
    ensures unvisited { condition_of_wait (wait_of (thread_in roster.old.table p t)) ≡ None → mutex_locked (wait_of (thread_in roster.old.table p t)) ≡ None → mutexes.new ≡ mutexes.old }
    ensures ready { AreSynced p roster.new }
    ensures sound { IsSound roster.old → IsSound roster.new }
{
    let reply = Some(Errno::ETIMEDOUT.number());
    let wait = roster.threads().wait(p, t);
    match &wait {
        Some(Wait::SleepWait(_)) => roster.rouse(p, t, &[0]),
        Some(Wait::MutexWait(m, _)) => {
            mutexes.withdraw(roster, p, t, *m, reply);
        }
        Some(Wait::ConditionWait(c, _, _)) => {
            withdraw(roster, mutexes, p, t, *c, reply);
        }
        Some(Wait::InputWait) | Some(Wait::JoinWait(_)) | Some(Wait::RelockWait(_, _)) | None => {}
    }
}
