//! What a word of a guest stands for: a priority, a policy, or a place in memory.

ghost use Rattle.std.specs.Prelude.{◌≡◌};
ghost use Rattle.ptk_words_model.specs.Calls.{is_pointer};
ghost use Rattle.ptk_words_model.specs.ThreadCreation.{policy_number, priority_of};

use ptk_gate_pools::Pools;
use ptk_words::{Policy, Priority};

/// How many values a word of 32 bits has.
pub const WORD_VALUES: u64 = 4_294_967_296;

/// The least priority (own choice).
const LEAST_PRIORITY: u32 = 1;

/// The greatest priority (own choice).
const GREATEST_PRIORITY: u32 = 32;

/// The priority of a guest's number, 1 to 32; None of another word.
pub fn named_priority(word: u32) -> Option<Priority>
    ensures { result ≡ priority_of word }
{
    if LEAST_PRIORITY <= word && word <= GREATEST_PRIORITY {
        Some(Priority::new(word as u8))
    } else {
        None
    }
}

/// The number that a guest reads for a policy (own choice).
pub fn policy_number(policy: Policy) -> u32
    ensures { result ≡ policy_number policy }
{
    match policy {
        Policy::Fifo => 1,
        Policy::RoundRobin => 2,
    }
}

/// Whether the word is a multiple of 4 at which this many bytes lie in memory (own choice).
pub fn is_pointer(pools: &Pools, word: u32, count: u32) -> bool
    ensures { result ≡ is_pointer pools.now.here word count }
{
    word % 4 == 0 && word as usize + count as usize <= pools.memory().len()
}
