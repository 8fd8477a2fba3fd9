//! Call 20: a new mutex.

ghost use Rattle.std.specs.Prelude.{◌≡◌, ◌<◌, ◌≤◌, ◌+◌, length, Some, IfOk};
ghost use Rattle.ptk_words.specs.Pools.{least_free};
ghost use Rattle.ptk_words_model.specs.Mutex.{new_mutex};
ghost use Rattle.ptk_words_model.specs.Calls.{with_stored, with_pool_mutex};
ghost use Rattle.ptk_words_model.specs.Steps.{valid, change, succeed};
ghost use Rattle.ptk_words_model.specs.MutexCalls.{mutex_init};

use crate::attributes::{is_robust_type, kind_of, protocol_of};
use ptk_gate_moves::{Pools, is_pointer, refuse, succeed};
use ptk_words::{Errno, MutexKind, MutexNo, Protocol};
use ptk_words_model::{Invocation, Reply};

/// A mutex to be made, and its number.
#[derive(Clone, Copy)]
pub(crate) struct NewMutex {
    pub number: MutexNo,
    pub kind: MutexKind,
    pub protocol: Protocol,
    pub is_robust: bool,
}

/// pthread_mutex_init: a mutex of the type of a1 and the protocol of a2, with the ceiling of a3 where it has one, at
/// the least free number, which the word at the pointer of a0 then holds; the old word is not looked at. Refusals in
/// this order (own choice), which change nothing but a0: EFAULT where the pointer is no multiple of 4 or the word lies
/// outside memory; EINVAL of a type, of a protocol or of PROTECT's ceiling; ENOMEM where no number is free.
pub fn mutex_init(pools: &mut Pools, i: Invocation) -> Reply
    ensures told { result ≡ (mutex_init i pools.old.here).reply }
    ensures moved { pools.new ≡ record pools.old { here = (mutex_init i pools.old.here).part } }
{
    let new = match asked_mutex(pools, &i) {
        Ok(new) => new,
        Err(errno) => return refuse(pools, i, errno),
    };
    make(pools, i.a0, new);
    succeed(pools, i)
}

/// The mutex that the call makes at the least free number, or the error that refuses the call.
fn asked_mutex(pools: &Pools, i: &Invocation) -> Result<NewMutex, Errno>
    ensures call { mutex_init i.now pools.now.here ≡ valid result (λ new. change (with_pool_mutex new.number (Some (new_mutex new.kind new.protocol new.is_robust))) (change (with_stored i.now.a0 new.number) succeed)) i.now pools.now.here }
    ensures free { IfOk result (λ new. least_free pools.now.here.mutexes ≡ Some new.number) }
    ensures word { IfOk result (λ _. i.now.a0 + 4 ≤ length pools.now.here.memory) }
{
    if !is_pointer(pools, i.a0, 4) {
        return Err(Errno::EFAULT);
    }
    let Some(kind) = kind_of(i.a1) else {
        return Err(Errno::EINVAL);
    };
    let Some(protocol) = protocol_of(i.a2, i.a3) else {
        return Err(Errno::EINVAL);
    };
    let Some(number) = pools.first_free_mutex() else {
        return Err(Errno::ENOMEM);
    };
    Ok(NewMutex {
        number,
        kind,
        protocol,
        is_robust: is_robust_type(i.a1),
    })
}

/// The mutex is made at the least free number, and the word at the pointer holds that (pthread_mutex_init).
pub(crate) fn make(pools: &mut Pools, pointer: u32, new: NewMutex)
    requires free { least_free pools.old.here.mutexes ≡ Some new.number }
    requires word { pointer + 4 ≤ length pools.old.here.memory }
    ensures { pools.new ≡ record pools.old { here = with_stored pointer new.number (with_pool_mutex new.number (Some (new_mutex new.kind new.protocol new.is_robust)) pools.old.here) } }
{
    pools.init_mutex(new.number, new.kind, new.protocol, new.is_robust);
    let number = new.number.number();
    pools.store_word(pointer, number as u32);
}
