//! The condition variable of the word that a call points to.

ghost use Rattle.std.specs.Prelude.{◌≡◌, ◌<◌, ◌≤◌, ◌+◌, true, false, [], length, is_some, option_map, unwrap_or, Some, Ok, Err};
ghost use Rattle.ptk_words.specs.Pools.{least_free, pool_get};
ghost use Rattle.ptk_words.specs.declared.faults.Errno.TheVariants.{ENOMEM};
ghost use Rattle.ptk_words.specs.Words.{word_at};
ghost use Rattle.ptk_words_model.specs.Calls.{is_pointer, with_stored, with_pool_condition};
ghost use Rattle.ptk_words_invariant.specs.Well.{IsWell};
ghost use Rattle.ptk_gate_moves.specs.Held.{limits_here};
ghost use Rattle.ptk_gate_sync.specs.Named.{IsConditionOfWord, IsConditionNamed};

use ptk_gate_moves::{Pools, is_pointer};
use ptk_words::{ConditionNo, Errno, read_word};
use ptk_words_model::Invocation;

/// The condition variable that the word at the pointer of a0 names. A word of 0 (PTHREAD_COND_INITIALIZER) sets one up
/// at the least free number, which the word then holds; it stays also where the call is then refused. EFAULT where the
/// pointer is no multiple of 4 or the word lies outside memory, ENOMEM where one is to be set up and no number is free,
/// EINVAL of a word that is neither 0 nor the number of a condition variable in use (own choice): nothing changes then.
#[tactic(auto, using(crate::proofs::Namings::naming))]
pub(crate) fn named_condition(pools: &mut Pools, i: &Invocation) -> Result<ConditionNo, Errno>
    requires well { IsWell (limits_here pools.old) pools.old.here }
    ensures named { IsConditionNamed (limits_here pools.old) i.now pools.old.here result pools.new.here }
    ensures moved { pools.new ≡ record pools.old { here = pools.new.here } }
{
    if is_pointer(pools, i.a0, 4) {
        condition_of_word(pools, i.a0)
    } else {
        Err(Errno::EFAULT)
    }
}

/// The condition variable that the word at a pointer names; a word of 0 sets it up, as for `named_condition`. ENOMEM
/// and EINVAL as there.
#[inline(always)]
#[tactic(auto, using(crate::proofs::Namings::naming))]
pub(crate) fn condition_of_word(pools: &mut Pools, pointer: u32) -> Result<ConditionNo, Errno>
    requires well { IsWell (limits_here pools.old) pools.old.here }
    requires word { is_pointer pools.old.here pointer 4 ≡ true }
    ensures named { IsConditionOfWord (limits_here pools.old) pointer pools.old.here result pools.new.here }
    ensures moved { pools.new ≡ record pools.old { here = pools.new.here } }
{
    let word = read_word(pools.memory(), pointer as usize);
    match pools.condition_numbered(word) {
        Some(number) => Ok(number),
        None => unnumbered_condition(pools, pointer, word),
    }
}

/// The condition variable of the word at the pointer, which is not the number of one in use: 0
/// (PTHREAD_COND_INITIALIZER) sets one up, as for `condition_of_word`. EINVAL of any other word (own choice), ENOMEM
/// where no number is free: nothing changes then.
#[inline(never)]
#[tactic(auto, using(crate::proofs::Namings::naming))]
fn unnumbered_condition(pools: &mut Pools, pointer: u32, word: u32) -> Result<ConditionNo, Errno>
    requires well { IsWell (limits_here pools.old) pools.old.here }
    requires readable { is_pointer pools.old.here pointer 4 ≡ true }
    requires read { word ≡ word_at pools.old.here.memory pointer }
    requires unnumbered { is_some (pool_get pools.old.here.conditions word) ≡ false }
    ensures named { IsConditionOfWord (limits_here pools.old) pointer pools.old.here result pools.new.here }
    ensures moved { pools.new ≡ record pools.old { here = pools.new.here } }
{
    if word != 0 {
        return Err(Errno::EINVAL);
    }
    new_condition_at(pools, pointer)
}

/// A condition variable without waiters is set up at the least free number, which the word at the pointer then holds
/// (PTHREAD_COND_INITIALIZER). ENOMEM where no number is free; nothing changes then.
#[inline(never)]
fn new_condition_at(pools: &mut Pools, pointer: u32) -> Result<ConditionNo, Errno>
    requires room { pointer + 4 ≤ length pools.old.here.memory }
    ensures told { result ≡ unwrap_or (option_map Ok (least_free pools.old.here.conditions)) (Err ENOMEM) }
    ensures moved { pools.new ≡ record pools.old { here = unwrap_or (option_map (λ c. with_stored pointer c (with_pool_condition c (Some (record { waiters = [] })) pools.old.here)) (least_free pools.old.here.conditions)) pools.old.here } }
{
    let Some(number) = pools.first_free_condition() else {
        return Err(Errno::ENOMEM);
    };
    make_condition(pools, pointer, number);
    Ok(number)
}

/// The condition variable is made at the least free number, and the word at the pointer holds that (pthread_cond_init).
pub(crate) fn make_condition(pools: &mut Pools, pointer: u32, c: ConditionNo)
    requires free { least_free pools.old.here.conditions ≡ Some c }
    requires room { pointer + 4 ≤ length pools.old.here.memory }
    ensures { pools.new ≡ record pools.old { here = with_stored pointer c (with_pool_condition c (Some (record { waiters = [] })) pools.old.here) } }
{
    pools.init_condition(c);
    let number = c.number();
    pools.store_word(pointer, number as u32);
}
