//! Calls 3 and 4: the clocks.

ghost use Rattle.std.specs.Prelude.{◌≡◌, ◌<◌, ◌≤◌, ◌+◌, length};
ghost use Rattle.ptk_words_model.specs.TimeCalls.{is_no_clock, clock_gettime, clock_nanosleep};
ghost use Rattle.ptk_words_invariant.specs.Well.{IsWell};
ghost use Rattle.ptk_gate_moves.specs.Held.{limits_here};
ghost use Rattle.ptk_clock.specs.Ticks.{seconds_of, nanoseconds_of};
ghost use Rattle.ptk_gate_threads.specs.Times.{with_seconds, with_time, slept};

use ptk_clock::from_tick;
use ptk_gate_moves::{
    Pools, WORD_VALUES, asked_deadline, block, cancel, is_cancelled, is_pointer, refuse, succeed,
};
use ptk_words::{Errno, Tick, Wait};
use ptk_words_model::{Invocation, Reply};

/// clock_gettime: the tick at which the step began, of 1,000 ns, as a timespec at the pointer of a1; CLOCK_REALTIME, 0,
/// and CLOCK_MONOTONIC, 1, read the same (own choice). EFAULT where the pointer is no multiple of 4 or its 12 bytes lie
/// outside memory, then EINVAL of another clock in a0; a refusal changes nothing but a0.
#[tactic(auto, using(ptk_gate_moves::proofs::Pointers::pointers))]
pub fn clock_gettime(pools: &mut Pools, i: Invocation) -> Reply
    requires well { IsWell (limits_here pools.old) pools.old.here }
    requires limits { i.limits ≡ limits_here pools.old }
    ensures told { result ≡ (clock_gettime i pools.old.here).reply }
    ensures moved { pools.new ≡ record pools.old { here = (clock_gettime i pools.old.here).part } }
{
    if !is_pointer(pools, i.a1, 12) {
        return refuse(pools, i, Errno::EFAULT);
    }
    if is_no_clock(i.a0) {
        return refuse(pools, i, Errno::EINVAL);
    }
    store_time(pools, i.a1, i.limits.memory, i.tick);
    succeed(pools, i)
}

/// Whether the word is neither CLOCK_REALTIME, 0, nor CLOCK_MONOTONIC, 1.
fn is_no_clock(word: u32) -> bool
    ensures { result ≡ is_no_clock word }
{
    1 < word
}

/// Stores the tick as a timespec at the pointer, in a memory of this size: seconds low and high, then nanoseconds.
#[tactic(auto, using(crate::proofs::Stores::time_stores))]
fn store_time(pools: &mut Pools, pointer: u32, size: u32, tick: Tick)
    requires size { length pools.old.here.memory ≡ size }
    requires room { pointer + 12 ≤ size }
    ensures { pools.new ≡ record pools.old { here = with_time pointer tick pools.old.here } }
{
    let (seconds, nanoseconds) = time_of(tick);
    store_seconds(pools, pointer, size, seconds);
    pools.store_word(pointer + 8, nanoseconds);
}

/// The time of a tick, as seconds and nanoseconds.
fn time_of(tick: Tick) -> (u64, u32)
    ensures { result ≡ (seconds_of tick, nanoseconds_of tick) }
{
    let (seconds, nanoseconds) = from_tick(tick);
    (seconds as u64, nanoseconds)
}

/// Stores the seconds at the pointer, in a memory of this size: the low word, then the high one.
#[tactic(auto, using(crate::proofs::Stores::seconds_stores))]
fn store_seconds(pools: &mut Pools, pointer: u32, size: u32, seconds: u64)
    requires size { length pools.old.here.memory ≡ size }
    requires room { pointer + 8 ≤ size }
    ensures { pools.new ≡ record pools.old { here = with_seconds pointer seconds pools.old.here } }
{
    pools.store_word(pointer, (seconds % WORD_VALUES) as u32);
    pools.store_word(pointer + 4, (seconds / WORD_VALUES) as u32);
}

/// clock_nanosleep with TIMER_ABSTIME: the caller blocks until the time of the timespec at the pointer of a1, rounded
/// up to a tick, and its reply is then 0; at once where that tick has come. CLOCK_REALTIME, 0, and CLOCK_MONOTONIC, 1,
/// are the same (own choice). EFAULT where the pointer is no multiple of 4 or its 12 bytes lie outside memory; then a
/// cancellation point: a cancelled caller begins its unwinding; then EINVAL of another clock in a0 or of nanoseconds
/// that are none from 0 to 999,999,999. A refusal changes nothing but a0.
#[tactic(auto, using(ptk_gate_moves::proofs::Pointers::pointers))]
pub fn clock_nanosleep(pools: &mut Pools, i: Invocation) -> Reply
    ensures told { result ≡ (clock_nanosleep i pools.old.here).reply }
    ensures moved { pools.new ≡ record pools.old { here = (clock_nanosleep i pools.old.here).part } }
{
    if !is_pointer(pools, i.a1, 12) {
        return refuse(pools, i, Errno::EFAULT);
    }
    if is_cancelled(pools, i.caller) {
        return cancel(pools, i);
    }
    if is_no_clock(i.a0) {
        return refuse(pools, i, Errno::EINVAL);
    }
    match asked_deadline(pools, i.a1) {
        Some(deadline) => sleep(pools, i, deadline),
        None => refuse(pools, i, Errno::EINVAL),
    }
}

/// The caller sleeps until the tick, and not at all where it has come.
fn sleep(pools: &mut Pools, i: Invocation, deadline: Tick) -> Reply
    ensures told { result ≡ (slept deadline i pools.old.here).reply }
    ensures moved { pools.new ≡ record pools.old { here = (slept deadline i pools.old.here).part } }
{
    if deadline.ticks() <= i.tick.ticks() {
        succeed(pools, i)
    } else {
        block(pools, i, Wait::SleepWait(deadline))
    }
}
