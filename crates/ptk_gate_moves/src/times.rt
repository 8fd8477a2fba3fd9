//! The times that a guest states.

ghost use Rattle.std.specs.Prelude.{◌≡◌, ◌<◌, ◌≤◌, ◌+◌, length};
ghost use Rattle.ptk_words_model.specs.Time.{timespec_at};
ghost use Rattle.ptk_gate_moves.specs.Moves.{deadline_asked};

use crate::words::WORD_VALUES;
use ptk_clock::to_tick;
use ptk_gate_pools::Pools;
use ptk_words::{Tick, read_word};

/// The deadline of the timespec at the pointer (seconds as two words, low and high, one signed number, then a word of
/// nanoseconds): the least tick that is not before its time, 0 for negative times, and for a time past every run the
/// tick after the last, which never comes. None where the nanoseconds are none from 0 to 999,999,999
/// (clock_nanosleep, EINVAL).
pub fn asked_deadline(pools: &Pools, pointer: u32) -> Option<Tick>
    requires room { pointer + 12 ≤ length pools.now.here.memory }
    ensures { result ≡ deadline_asked (timespec_at pools.now.here.memory pointer) }
{
    let memory = pools.memory();
    let at = pointer as usize;
    let low = read_word(memory, at);
    let high = read_word(memory, at + 4);
    let nanoseconds = read_word(memory, at + 8);
    deadline_of(low, high, nanoseconds)
}

/// The deadline of a timespec of these words; None where the nanoseconds are none.
#[tactic(auto, using(ptk_clock::proofs::Signs::signs))]
fn deadline_of(low: u32, high: u32, nanoseconds: u32) -> Option<Tick>
    ensures { result ≡ deadline_asked (record { low = low; high = high; nanoseconds = nanoseconds }) }
{
    if nanoseconds >= 1_000_000_000 {
        return None;
    }
    let seconds = (high as u64 * WORD_VALUES + low as u64).cast_signed();
    Some(to_tick(seconds, nanoseconds))
}
