//! Calls 50 and 51: the keys of a partition.

ghost use Rattle.std.specs.Prelude.{◌≡◌};
ghost use Rattle.ptk_words_model.specs.KeyCalls.{key_create, key_delete};

use ptk_gate_moves::{Pools, refuse, succeed, succeed_with};
use ptk_keys::KeyNo;
use ptk_words::Errno;
use ptk_words_model::{Invocation, Reply};

/// pthread_key_create: a new key at the least free number, which is returned in a1, with the destructor at the address
/// of a0, or none where that is 0; its value is 0 in every thread. EAGAIN where the partition has no free key; a
/// refusal changes nothing but a0.
pub fn key_create(pools: &mut Pools, i: Invocation) -> Reply
    ensures told { result ≡ (key_create i pools.old.here).reply }
    ensures moved { pools.new ≡ record pools.old { here = (key_create i pools.old.here).part } }
{
    match pools.create_key(i.a0) {
        Some(key) => succeed_with(pools, i, key.number()),
        None => refuse(pools, i, Errno::EAGAIN),
    }
}

/// pthread_key_delete: the key of a0 is free, and its value 0 in every thread; no destructor is called. EINVAL of an
/// unknown key; a refusal changes nothing but a0.
pub fn key_delete(pools: &mut Pools, i: Invocation) -> Reply
    ensures told { result ≡ (key_delete i pools.old.here).reply }
    ensures moved { pools.new ≡ record pools.old { here = (key_delete i pools.old.here).part } }
{
    let key = KeyNo::new(i.a0);
    if !pools.is_key(key) {
        return refuse(pools, i, Errno::EINVAL);
    }
    pools.delete_key(key);
    succeed(pools, i)
}
