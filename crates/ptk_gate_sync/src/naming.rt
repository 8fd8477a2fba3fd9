//! The mutex of the word that a call points to.

ghost use Rattle.std.specs.Prelude.{◌≡◌, ◌<◌, ◌≤◌, ◌+◌, true, false, length, is_some, option_map, unwrap_or, Some, Ok, Err};
ghost use Rattle.ptk_words.specs.Pools.{least_free, pool_get};
ghost use Rattle.ptk_words.specs.declared.faults.Errno.TheVariants.{ENOMEM};
ghost use Rattle.ptk_words.specs.declared.mutexes.MutexKind.TheVariants.{Normal};
ghost use Rattle.ptk_words.specs.declared.mutexes.Protocol.TheVariants.{NoProtocol};
ghost use Rattle.ptk_words.specs.Words.{word_at};
ghost use Rattle.ptk_words_model.specs.Mutex.{new_mutex};
ghost use Rattle.ptk_words_model.specs.Calls.{is_pointer, with_stored, with_pool_mutex};
ghost use Rattle.ptk_words_invariant.specs.Well.{IsWell};
ghost use Rattle.ptk_gate_moves.specs.Held.{limits_here};
ghost use Rattle.ptk_gate_sync.specs.Named.{IsNamed, IsMutexOfWord};

use crate::creation::{NewMutex, make};
use ptk_gate_moves::{Pools, is_pointer};
use ptk_words::{Errno, MutexKind, MutexNo, Protocol, read_word};
use ptk_words_model::Invocation;

/// The mutex that the word at the pointer of a0 names. A word of 0 (PTHREAD_MUTEX_INITIALIZER) sets up a mutex of
/// default attributes at the least free number, which the word then holds; it stays also where the call is then
/// refused. EFAULT where the pointer is no multiple of 4 or the word lies outside memory, ENOMEM where a mutex is to be
/// set up and no number is free, EINVAL of a word that is neither 0 nor the number of a mutex in use (own choice):
/// nothing changes then.
#[tactic(auto, using(crate::proofs::Namings::naming))]
pub(crate) fn named_mutex(pools: &mut Pools, i: &Invocation) -> Result<MutexNo, Errno>
    requires well { IsWell (limits_here pools.old) pools.old.here }
    ensures named { IsNamed (limits_here pools.old) i.now pools.old.here result pools.new.here }
    ensures moved { pools.new ≡ record pools.old { here = pools.new.here } }
{
    if is_pointer(pools, i.a0, 4) {
        mutex_of_word(pools, i.a0)
    } else {
        Err(Errno::EFAULT)
    }
}

/// The mutex that the word at a pointer names; a word of 0 sets it up, as for `named_mutex`. ENOMEM and EINVAL as
/// there.
#[inline(always)]
#[tactic(auto, using(crate::proofs::Namings::naming))]
pub(crate) fn mutex_of_word(pools: &mut Pools, pointer: u32) -> Result<MutexNo, Errno>
    requires well { IsWell (limits_here pools.old) pools.old.here }
    requires word { is_pointer pools.old.here pointer 4 ≡ true }
    ensures named { IsMutexOfWord (limits_here pools.old) pointer pools.old.here result pools.new.here }
    ensures moved { pools.new ≡ record pools.old { here = pools.new.here } }
{
    let word = read_word(pools.memory(), pointer as usize);
    match pools.mutex_numbered(word) {
        Some(number) => Ok(number),
        None => unnumbered_mutex(pools, pointer, word),
    }
}

/// The mutex of the word at the pointer, which is not the number of one in use: 0 (PTHREAD_MUTEX_INITIALIZER) sets one
/// up, as for `mutex_of_word`. EINVAL of any other word (own choice), ENOMEM where no number is free: nothing changes
/// then.
#[inline(never)]
#[tactic(auto, using(crate::proofs::Namings::naming))]
fn unnumbered_mutex(pools: &mut Pools, pointer: u32, word: u32) -> Result<MutexNo, Errno>
    requires well { IsWell (limits_here pools.old) pools.old.here }
    requires readable { is_pointer pools.old.here pointer 4 ≡ true }
    requires read { word ≡ word_at pools.old.here.memory pointer }
    requires unnumbered { is_some (pool_get pools.old.here.mutexes word) ≡ false }
    ensures named { IsMutexOfWord (limits_here pools.old) pointer pools.old.here result pools.new.here }
    ensures moved { pools.new ≡ record pools.old { here = pools.new.here } }
{
    if word != 0 {
        return Err(Errno::EINVAL);
    }
    new_mutex_at(pools, pointer)
}

/// A mutex of default attributes is set up at the least free number, which the word at the pointer then holds
/// (PTHREAD_MUTEX_INITIALIZER). ENOMEM where no number is free; nothing changes then.
#[inline(never)]
fn new_mutex_at(pools: &mut Pools, pointer: u32) -> Result<MutexNo, Errno>
    requires room { pointer + 4 ≤ length pools.old.here.memory }
    ensures told { result ≡ unwrap_or (option_map Ok (least_free pools.old.here.mutexes)) (Err ENOMEM) }
    ensures moved { pools.new ≡ record pools.old { here = unwrap_or (option_map (λ m. with_stored pointer m (with_pool_mutex m (Some (new_mutex Normal NoProtocol false)) pools.old.here)) (least_free pools.old.here.mutexes)) pools.old.here } }
{
    let Some(number) = pools.first_free_mutex() else {
        return Err(Errno::ENOMEM);
    };
    let new = NewMutex {
        number,
        kind: MutexKind::Normal,
        protocol: Protocol::NoProtocol,
        is_robust: false,
    };
    make(pools, pointer, new);
    Ok(number)
}
