//! The thread that a guest names, and what is shown of it.

ghost use Rattle.std.specs.Prelude.{◌≡◌, ◌<◌, ◌≤◌, length, IfSome};
ghost use Rattle.std.specs.Option.{option_copied};
ghost use Rattle.ptk_words.specs.Pools.{pool_get};
ghost use Rattle.ptk_words_model.specs.Decision.{runner_at};
ghost use Rattle.ptk_words_model.specs.Priority.{thread_at};
ghost use Rattle.ptk_threads.specs.Links.{threads_of};

use ptk_gate_pools::Pools;
use ptk_threads::Slot;
use ptk_words::{Thread, ThreadNo};
use ptk_words_model::Runner;

/// The thread that a guest names by a word, if that is the number of one in use.
pub fn target(pools: &Pools, word: u32) -> Option<Runner>
    ensures { result ≡ runner_at word (thread_at pools.now.here.locks word) }
{
    named(pools.slots(), word)
}

/// The thread of a word among the slots, which are at most 32.
#[tactic(auto, using(ptk_threads::proofs::Slots::reads))]
fn named(slots: &[Slot], word: u32) -> Option<Runner>
    requires few { length slots.now ≤ 32 }
    ensures { result ≡ runner_at word (pool_get (threads_of slots.now) word) }
{
    if word == 0 {
        return None;
    }
    let index = word as usize - 1;
    if index >= slots.len() {
        return None;
    }
    match slots[index].thread() {
        Some(thread) => Some(Runner {
            number: ThreadNo::new(word as u8),
            thread,
        }),
        None => None,
    }
}

/// The thread that a guest names by a word, where it lies, if that is the number of one in use. Nothing of it is
/// copied.
pub fn named_thread(pools: &Pools, word: u32) -> Option<&Thread>
    ensures thread { option_copied result ≡ thread_at pools.now.here.locks word }
    ensures number { IfSome result (λ _. (0 < word) × (word ≤ 32)) }
{
    thread_named(pools.slots(), word)
}

/// The thread of a word among the slots, which are at most 32, where it lies.
#[tactic(auto, using(ptk_threads::proofs::Slots::reads))]
fn thread_named(slots: &[Slot], word: u32) -> Option<&Thread>
    requires few { length slots.now ≤ 32 }
    ensures thread { option_copied result ≡ pool_get (threads_of slots.now) word }
    ensures number { IfSome result (λ _. (0 < word) × (word ≤ 32)) }
{
    if word == 0 {
        return None;
    }
    let index = word as usize - 1;
    if index >= slots.len() {
        return None;
    }
    slots[index].thread_ref()
}
