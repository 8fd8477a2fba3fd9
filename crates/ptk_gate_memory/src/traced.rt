//! Plain steps of a thread in a row, each kept in its trace as the newest.

ghost use Rattle.std.specs.Prelude.{◌≡◌, ℕ, true, false, ◌+◌, ◌++◌, ◌^◌, ◌<◌, ◌≤◌, length};
ghost use Rattle.ptk_words_model.specs.PlainSteps.{core, is_plain, plain_steps};
ghost use Rattle.ptk_words_laws.specs.Quiet.{last_after};
ghost use Rattle.ptk_rv32i.specs.Entries.{AreDecoded};
ghost use Rattle.ptk_gate_memory.specs.TracedRows.{traced};

use crate::noted::{NotedRow, entry_of, note_newest, put_last};
use ptk_rv32i::{Decoded, Note, run_briefly, run_last, run_plain};
use ptk_trace::Trace;
use ptk_words::{A0, Cpu, Entry, ThreadNo, Tick};

// Of how many steps at most a trace keeps few.
const FEW: usize = 64;

// How many steps are in a batch or a piece at least, where the row is not over.
const LEAST_PIECE: u32 = 64;

// How many steps of a long row are noted briefly before the newest of them go into the trace.
pub(crate) const LONG: usize = 512;

/// Carries out plain steps on these registers and this memory, at most `most`, until the next one is a call, a break or
/// a fault, which is left; how many. They are the steps of the thread from this tick on. The trace has them as the
/// newest, and `last` is the last of them, or stays as it was where there is none. The decoded entries stay those of
/// the memory.
pub(crate) fn run_row(
    trace: &mut Trace,
    cpu: &mut Cpu,
    memory: &mut [u8],
    decoded: &mut [Decoded],
    notes: &mut [Note; LONG],
    tick: Tick,
    thread: ThreadNo,
    most: u32,
    last: &mut Option<Entry>,
) -> u32
    requires decoded { AreDecoded memory.old decoded.old }
    requires time { tick < 2 ^ 63 }
    ensures decoded { AreDecoded memory.new decoded.new }
    ensures few { result ≤ most }
    ensures plain { (k : ℕ) → k < result → is_plain (plain_steps k (core cpu.old memory.old)) ≡ true }
    ensures moved { core cpu.new memory.new ≡ plain_steps result (core cpu.old memory.old) }
    ensures traced { trace.new ≡ traced tick thread result (core cpu.old memory.old) trace.old }
    ensures last { last.new ≡ last_after tick thread result (core cpu.old memory.old) last.old }
    ensures ended { result < most → is_plain (core cpu.new memory.new) ≡ false }
{
    if trace.capacity() == 0 {
        run_unkept(cpu, memory, decoded, tick, thread, most, last)
    } else {
        run_kept(trace, cpu, memory, decoded, notes, tick, thread, most, last)
    }
}

/// The same as `run_row`, and fast where the trace keeps some steps. Most rows end in the first batch.
#[inline(never)]
pub(crate) fn run_kept(
    trace: &mut Trace,
    cpu: &mut Cpu,
    memory: &mut [u8],
    decoded: &mut [Decoded],
    notes: &mut [Note; LONG],
    tick: Tick,
    thread: ThreadNo,
    most: u32,
    last: &mut Option<Entry>,
) -> u32
    requires decoded { AreDecoded memory.old decoded.old }
    requires time { tick < 2 ^ 63 }
    ensures decoded { AreDecoded memory.new decoded.new }
    ensures few { result ≤ most }
    ensures plain { (k : ℕ) → k < result → is_plain (plain_steps k (core cpu.old memory.old)) ≡ true }
    ensures moved { core cpu.new memory.new ≡ plain_steps result (core cpu.old memory.old) }
    ensures traced { trace.new ≡ traced tick thread result (core cpu.old memory.old) trace.old }
    ensures last { last.new ≡ last_after tick thread result (core cpu.old memory.old) last.old }
    ensures ended { result < most → is_plain (core cpu.new memory.new) ≡ false }
{
    let steps = run_batch(trace, cpu, memory, decoded, tick, thread, most, last);
    if steps < LEAST_PIECE || steps == most {
        return steps;
    }
    let now = Tick::new(tick.ticks() + u64::from(steps));
    steps
        + run_rest(
            trace,
            cpu,
            memory,
            decoded,
            notes,
            now,
            thread,
            most - steps,
            last,
        )
}

/// The rest of a row that is longer than a batch, piece by piece.
#[inline(never)]
fn run_rest(
    trace: &mut Trace,
    cpu: &mut Cpu,
    memory: &mut [u8],
    decoded: &mut [Decoded],
    notes: &mut [Note; LONG],
    tick: Tick,
    thread: ThreadNo,
    most: u32,
    last: &mut Option<Entry>,
) -> u32
    requires decoded { AreDecoded memory.old decoded.old }
    requires time { tick + most < 2 ^ 63 + 2 ^ 32 }
    ensures decoded { AreDecoded memory.new decoded.new }
    ensures few { result ≤ most }
    ensures plain { (k : ℕ) → k < result → is_plain (plain_steps k (core cpu.old memory.old)) ≡ true }
    ensures moved { core cpu.new memory.new ≡ plain_steps result (core cpu.old memory.old) }
    ensures traced { trace.new ≡ traced tick thread result (core cpu.old memory.old) trace.old }
    ensures last { last.new ≡ last_after tick thread result (core cpu.old memory.old) last.old }
    ensures ended { result < most → is_plain (core cpu.new memory.new) ≡ false }
{
    let _capacity = trace.capacity();
    let mut steps = 0;
    while steps < most {
        let now = Tick::new(tick.ticks() + u64::from(steps));
        let more = run_piece(
            trace,
            cpu,
            memory,
            decoded,
            notes,
            now,
            thread,
            most - steps,
            last,
        );
        steps += more;
        if more < LEAST_PIECE {
            return steps;
        }
    }
    steps
}

/// A piece of a row, of 64 steps at least where the row is not over. Where few of many steps are kept, all are noted
/// briefly.
#[inline(always)]
fn run_piece(
    trace: &mut Trace,
    cpu: &mut Cpu,
    memory: &mut [u8],
    decoded: &mut [Decoded],
    notes: &mut [Note; LONG],
    tick: Tick,
    thread: ThreadNo,
    most: u32,
    last: &mut Option<Entry>,
) -> u32
    requires decoded { AreDecoded memory.old decoded.old }
    requires time { tick < 2 ^ 63 + 2 ^ 32 }
    ensures decoded { AreDecoded memory.new decoded.new }
    ensures few { result ≤ most }
    ensures plain { (k : ℕ) → k < result → is_plain (plain_steps k (core cpu.old memory.old)) ≡ true }
    ensures moved { core cpu.new memory.new ≡ plain_steps result (core cpu.old memory.old) }
    ensures traced { trace.new ≡ traced tick thread result (core cpu.old memory.old) trace.old }
    ensures last { last.new ≡ last_after tick thread result (core cpu.old memory.old) last.old }
    ensures ended { result < most → result < 64 → is_plain (core cpu.new memory.new) ≡ false }
{
    if most >= LONG as u32 && trace.capacity() <= FEW {
        run_long(trace, cpu, memory, decoded, notes, tick, thread, last)
    } else {
        run_batch(trace, cpu, memory, decoded, tick, thread, most, last)
    }
}

/// A row of no more steps than there are notes, of which the newest go into the trace.
#[inline(never)]
fn run_long(
    trace: &mut Trace,
    cpu: &mut Cpu,
    memory: &mut [u8],
    decoded: &mut [Decoded],
    notes: &mut [Note; LONG],
    tick: Tick,
    thread: ThreadNo,
    last: &mut Option<Entry>,
) -> u32
    requires decoded { AreDecoded memory.old decoded.old }
    requires time { tick < 2 ^ 63 + 2 ^ 32 }
    requires small { trace.old.capacity ≤ 64 }
    ensures decoded { AreDecoded memory.new decoded.new }
    ensures few { result ≤ 512 }
    ensures plain { (k : ℕ) → k < result → is_plain (plain_steps k (core cpu.old memory.old)) ≡ true }
    ensures moved { core cpu.new memory.new ≡ plain_steps result (core cpu.old memory.old) }
    ensures traced { trace.new ≡ traced tick thread result (core cpu.old memory.old) trace.old }
    ensures last { last.new ≡ last_after tick thread result (core cpu.old memory.old) last.old }
    ensures ended { result < 512 → is_plain (core cpu.new memory.new) ≡ false }
{
    let steps = run_briefly(cpu, memory, decoded, LONG, notes);
    let gone = steps.saturating_sub(trace.capacity());
    let first = Tick::new(tick.ticks() + gone as u64);
    let made = &notes[..steps];
    note_newest(trace, first, thread, &made[gone..]);
    if steps > 0 {
        let when = Tick::new(tick.ticks() + (steps - 1) as u64);
        put_last(last, &entry_of(when, thread, &made[steps - 1]));
    }
    steps as u32
}

/// A row of no more steps than the trace has room to note, which is 64 at least.
#[inline(always)]
fn run_batch(
    trace: &mut Trace,
    cpu: &mut Cpu,
    memory: &mut [u8],
    decoded: &mut [Decoded],
    tick: Tick,
    thread: ThreadNo,
    most: u32,
    last: &mut Option<Entry>,
) -> u32
    requires decoded { AreDecoded memory.old decoded.old }
    requires time { tick < 2 ^ 63 + 2 ^ 32 }
    ensures decoded { AreDecoded memory.new decoded.new }
    ensures few { result ≤ most }
    ensures plain { (k : ℕ) → k < result → is_plain (plain_steps k (core cpu.old memory.old)) ≡ true }
    ensures moved { core cpu.new memory.new ≡ plain_steps result (core cpu.old memory.old) }
    ensures traced { trace.new ≡ traced tick thread result (core cpu.old memory.old) trace.old }
    ensures last { last.new ≡ last_after tick thread result (core cpu.old memory.old) last.old }
    ensures ended { result < most → result < 64 → is_plain (core cpu.new memory.new) ≡ false }
{
    let mut row = NotedRow {
        cpu,
        memory,
        decoded,
        last,
        tick,
        thread,
        most,
    };
    trace.note(&mut row) as u32
}

/// A row without a trace.
fn run_unkept(
    cpu: &mut Cpu,
    memory: &mut [u8],
    decoded: &mut [Decoded],
    tick: Tick,
    thread: ThreadNo,
    most: u32,
    last: &mut Option<Entry>,
) -> u32
    requires decoded { AreDecoded memory.old decoded.old }
    requires time { tick < 2 ^ 63 }
    ensures decoded { AreDecoded memory.new decoded.new }
    ensures few { result ≤ most }
    ensures plain { (k : ℕ) → k < result → is_plain (plain_steps k (core cpu.old memory.old)) ≡ true }
    ensures moved { core cpu.new memory.new ≡ plain_steps result (core cpu.old memory.old) }
    ensures last { last.new ≡ last_after tick thread result (core cpu.old memory.old) last.old }
    ensures ended { result < most → is_plain (core cpu.new memory.new) ≡ false }
{
    match last {
        Some(entry) => {
            let steps = run_last(cpu, memory, decoded, most, entry);
            if steps > 0 {
                entry.tick = Tick::new(tick.ticks() + u64::from(steps - 1));
                entry.thread = thread;
            }
            steps
        }
        None => run_first(cpu, memory, decoded, tick, thread, most, last),
    }
}

/// A row without a trace, where no step was made before.
#[cold]
#[inline(never)]
fn run_first(
    cpu: &mut Cpu,
    memory: &mut [u8],
    decoded: &mut [Decoded],
    tick: Tick,
    thread: ThreadNo,
    most: u32,
    last: &mut Option<Entry>,
) -> u32
    requires decoded { AreDecoded memory.old decoded.old }
    requires time { tick < 2 ^ 63 }
    ensures decoded { AreDecoded memory.new decoded.new }
    ensures few { result ≤ most }
    ensures plain { (k : ℕ) → k < result → is_plain (plain_steps k (core cpu.old memory.old)) ≡ true }
    ensures moved { core cpu.new memory.new ≡ plain_steps result (core cpu.old memory.old) }
    ensures last { last.new ≡ last_after tick thread result (core cpu.old memory.old) last.old }
    ensures ended { result < most → is_plain (core cpu.new memory.new) ≡ false }
{
    let row = run_plain(cpu, memory, decoded, most);
    if row.steps > 0 {
        *last = Some(Entry {
            tick: Tick::new(tick.ticks() + u64::from(row.steps - 1)),
            thread,
            pc: row.pc,
            word: row.word,
            a0: cpu.register(A0),
        });
    }
    row.steps
}
