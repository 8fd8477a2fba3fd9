//! Call 21: a mutex destroyed.

ghost use Rattle.std.specs.Prelude.{◌≡◌, ◌<◌, ◌≤◌, ◌+◌, ◌||◌, [], length, option_map};
ghost use Rattle.ptk_words_model.specs.Mutex.{mutex_at};
ghost use Rattle.ptk_words_model.specs.Condition.{names_mutex};
ghost use Rattle.ptk_words_model.specs.MutexCalls.{is_locked, mutex_destroy};
ghost use Rattle.ptk_words_invariant.specs.Well.{IsWell};
ghost use Rattle.ptk_roster.specs.Slots.{mutex_with};
ghost use Rattle.ptk_gate_moves.specs.Held.{limits_here};
ghost use Rattle.ptk_words_invariant.specs.Rests.{destroy_named};

use crate::naming::named_mutex;
use ptk_gate_moves::{Pools, refuse, succeed};
use ptk_roster::MutexState;
use ptk_words::{DESTROYED, Errno, MutexNo, Owner};
use ptk_words_model::{Invocation, Reply};

/// pthread_mutex_destroy: the number of the mutex that the word at the pointer of a0 names is free, and the word is
/// DESTROYED, which names none. EFAULT, EINVAL or ENOMEM of the word, then EBUSY of a mutex that is locked, or that a
/// thread which waits on a condition variable is to have again; a refusal changes nothing but a0 and what a static
/// initialiser set up.
pub fn mutex_destroy(pools: &mut Pools, i: Invocation) -> Reply
    requires well { IsWell (limits_here pools.old) pools.old.here }
    ensures told { result ≡ (mutex_destroy i pools.old.here).reply }
    ensures moved { pools.new ≡ record pools.old { here = (mutex_destroy i pools.old.here).part } }
{
    match named_mutex(pools, &i) {
        Ok(m) => destroy_named(pools, i, m),
        Err(errno) => refuse(pools, i, errno),
    }
}

/// The destruction of the mutex named, or EBUSY where it is in use.
fn destroy_named(pools: &mut Pools, i: Invocation, m: MutexNo) -> Reply
    requires well { IsWell (limits_here pools.old) pools.old.here }
    requires word { i.a0 + 4 ≤ length pools.old.here.memory }
    ensures told { result ≡ (destroy_named m i pools.old.here).reply }
    ensures moved { pools.new ≡ record pools.old { here = (destroy_named m i pools.old.here).part } }
{
    if is_in_use(pools, m) {
        return refuse(pools, i, Errno::EBUSY);
    }
    pools.destroy_mutex(m);
    pools.store_word(i.a0, DESTROYED);
    succeed(pools, i)
}

/// Whether the mutex is locked, or a thread that waits on a condition variable is to have it again.
fn is_in_use(pools: &Pools, m: MutexNo) -> bool
    ensures { result ≡ (is_locked (mutex_at pools.now.here.locks m) || names_mutex pools.now.here.locks m) }
{
    is_locked(pools.mutex(m)) || pools.names_mutex(m)
}

/// Whether a mutex of this state is there and locked.
fn is_locked(state: Option<MutexState>) -> bool
    ensures { result ≡ is_locked (option_map (mutex_with []) state) }
{
    match state {
        Some(state) => match state.owner {
            Owner::Free => false,
            Owner::Abandoned | Owner::OwnedBy(_) => true,
        },
        None => false,
    }
}
