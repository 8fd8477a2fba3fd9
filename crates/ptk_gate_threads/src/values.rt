//! Calls 52 and 53: a thread's values of the keys.

ghost use Rattle.std.specs.Prelude.{◌≡◌};
ghost use Rattle.ptk_words_model.specs.KeyCalls.{setspecific, getspecific};
ghost use Rattle.ptk_words_model.specs.Keys.{specific};

use ptk_gate_moves::{Pools, refuse, succeed, succeed_with};
use ptk_keys::KeyNo;
use ptk_words::{Errno, ThreadNo};
use ptk_words_model::{Invocation, Reply};

/// pthread_setspecific: the caller's value of the key of a0 is the word of a1; no other thread's value changes. EINVAL
/// of an unknown key; a refusal changes nothing but a0.
pub fn setspecific(pools: &mut Pools, i: Invocation) -> Reply
    ensures told { result ≡ (setspecific i pools.old.here).reply }
    ensures moved { pools.new ≡ record pools.old { here = (setspecific i pools.old.here).part } }
{
    let key = KeyNo::new(i.a0);
    if !pools.is_key(key) {
        return refuse(pools, i, Errno::EINVAL);
    }
    pools.set_value(i.caller, key, i.a1);
    succeed(pools, i)
}

/// pthread_getspecific: the caller's value of the key of a0, in a1; 0 of an unknown key (own choice). It always
/// succeeds, and changes nothing but a0 and a1.
pub fn getspecific(pools: &mut Pools, i: Invocation) -> Reply
    ensures told { result ≡ (getspecific i pools.old.here).reply }
    ensures moved { pools.new ≡ record pools.old { here = (getspecific i pools.old.here).part } }
{
    let value = value_of(pools, i.caller, i.a0);
    succeed_with(pools, i, value)
}

/// The thread's value of the key of a word, 0 of an unknown key.
fn value_of(pools: &Pools, t: ThreadNo, word: u32) -> u32
    ensures { result ≡ specific pools.now.here.keys t word }
{
    pools.value(t, KeyNo::new(word))
}
