//! Plain steps that are noted where a trace keeps them, as the row runs or from notes of it.

ghost use Rattle.std.specs.Prelude.{◌≡◌, ℕ, true, false, ◌+◌, ◌++◌, ◌^◌, ◌<◌, ◌≤◌, length, take, Some};
ghost use Rattle.ptk_words_model.specs.PlainSteps.{core, is_plain, plain_steps, plain_entries};
ghost use Rattle.ptk_words_laws.specs.Quiet.{last_after};
ghost use Rattle.ptk_rv32i.specs.Entries.{AreDecoded};
ghost use Rattle.ptk_rv32i.specs.Notes.{stamp, stamped};
ghost use Rattle.ptk_trace.specs.Run.{last_of};

use ptk_rv32i::{Decoded, Note, run_noted};
use ptk_trace::{Noting, Trace};
use ptk_words::{Cpu, Entry, ThreadNo, Tick};

/// Plain steps of a thread in a row, which are noted as they are carried out: the registers, the memory and its decoded
/// words, the place of the last step's entry, the first tick, whose steps they are, and at most how many.
#[derive(Drop)]
pub(crate) struct NotedRow<'a> {
    pub(crate) cpu: &'a mut Cpu,
    pub(crate) memory: &'a mut [u8],
    pub(crate) decoded: &'a mut [Decoded],
    pub(crate) last: &'a mut Option<Entry>,
    pub(crate) tick: Tick,
    pub(crate) thread: ThreadNo,
    pub(crate) most: u32,
}

impl Noting for NotedRow<'_> {
    ghost use Rattle.ptk_gate_memory.specs.NotedRows.{MayNote, HasNoted};

    ghost can_note = { λ row. MayNote row };

    ghost has_noted = { λ row steps entries after. HasNoted row steps entries after };

    /// Runs the row up to the end of the room.
    #[inline(always)]
    fn note(&mut self, room: &mut [Entry]) -> usize {
        let cpu = &mut *self.cpu;
        let memory = &mut *self.memory;
        let decoded = &mut *self.decoded;
        let last = &mut *self.last;
        note_row(
            cpu,
            memory,
            decoded,
            last,
            self.tick,
            self.thread,
            self.most,
            room,
        )
    }
}

/// Carries out plain steps, and writes their entries into the first places of a room.
#[inline(always)]
fn note_row(
    cpu: &mut Cpu,
    memory: &mut [u8],
    decoded: &mut [Decoded],
    last: &mut Option<Entry>,
    tick: Tick,
    thread: ThreadNo,
    most: u32,
    room: &mut [Entry],
) -> usize
    requires decoded { AreDecoded memory.old decoded.old }
    requires time { tick < 2 ^ 63 + 2 ^ 32 }
    requires room { 64 ≤ length room.old }
    ensures decoded { AreDecoded memory.new decoded.new }
    ensures few { result ≤ most }
    ensures fit { result ≤ length room.old }
    ensures plain { (k : ℕ) → k < result → is_plain (plain_steps k (core cpu.old memory.old)) ≡ true }
    ensures moved { core cpu.new memory.new ≡ plain_steps result (core cpu.old memory.old) }
    ensures noted { take result room.new ≡ plain_entries tick thread result (core cpu.old memory.old) }
    ensures last { last.new ≡ last_after tick thread result (core cpu.old memory.old) last.old }
    ensures ended { result < most → result < 64 → is_plain (core cpu.new memory.new) ≡ false }
{
    let many = (most as usize).min(room.len());
    let steps = run_noted(cpu, memory, decoded, tick, thread, many, room);
    if steps > 0 {
        put_last(last, &room[steps - 1]);
    }
    steps
}

/// Notes of steps in a row, one a tick: from when on, and whose they are.
#[derive(Drop)]
pub(crate) struct Newest<'a> {
    pub(crate) notes: &'a [Note],
    pub(crate) tick: Tick,
    pub(crate) thread: ThreadNo,
}

impl Noting for Newest<'_> {
    ghost use Rattle.ptk_gate_memory.specs.NotedRows.{MayStamp, HasStamped};

    ghost can_note = { λ newest. MayStamp newest };

    ghost has_noted = { λ newest steps entries after. HasStamped newest entries };

    /// Writes their entries.
    fn note(&mut self, room: &mut [Entry]) -> usize {
        put_stamped(room, self.tick, self.thread, self.notes);
        self.notes.len()
    }
}

/// Puts noted steps, one a tick, into a trace as the newest.
pub(crate) fn note_newest(trace: &mut Trace, tick: Tick, thread: ThreadNo, notes: &[Note])
    requires few { length notes.now ≤ 64 }
    requires time { tick < 2 ^ 63 + 2 ^ 33 }
    ensures { trace.new ≡ record trace.old { entries = last_of trace.old.capacity (trace.old.entries ++ stamped tick thread notes.now) } }
{
    let mut newest = Newest {
        notes,
        tick,
        thread,
    };
    trace.note(&mut newest);
}

/// The entry of a noted step.
#[inline(always)]
pub(crate) fn entry_of(tick: Tick, thread: ThreadNo, note: &Note) -> Entry
    ensures { result ≡ stamp tick thread note.now }
{
    Entry {
        tick,
        thread,
        pc: note.index.wrapping_mul(4),
        word: note.word,
        a0: note.a0,
    }
}

/// Writes the entries of noted steps, in order, into the first places of a room.
fn put_stamped(room: &mut [Entry], tick: Tick, thread: ThreadNo, notes: &[Note])
    requires room { length notes.now ≤ length room.old }
    requires few { length notes.now ≤ 64 }
    requires time { tick < 2 ^ 63 + 2 ^ 33 }
    ensures { take (length notes.now) room.new ≡ stamped tick thread notes.now }
{
    for i in 0..notes.len() {
        room[i] = entry_of(Tick::new(tick.ticks() + i as u64), thread, &notes[i]);
    }
}

/// Makes an entry the last one, field by field, as it was written: a wider read would wait for the writes before it.
#[inline(always)]
pub(crate) fn put_last(last: &mut Option<Entry>, entry: &Entry)
    ensures { last.new ≡ Some entry.now }
{
    match last {
        Some(place) => {
            place.tick = entry.tick;
            place.thread = entry.thread;
            place.pc = entry.pc;
            place.word = entry.word;
            place.a0 = entry.a0;
        }
        None => {
            *last = Some(Entry {
                tick: entry.tick,
                thread: entry.thread,
                pc: entry.pc,
                word: entry.word,
                a0: entry.a0,
            });
        }
    }
}
