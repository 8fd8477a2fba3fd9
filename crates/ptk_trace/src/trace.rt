//! The last steps, and their lines.

ghost use Rattle.std.specs.Prelude.{◌≡◌, ◌<◌, ◌≤◌, ◌^◌, ◌++◌, List, ◌∷◌, [], length, take, drop, All, IfOk, OnOk};
ghost use Rattle.std.specs.Io.KnownBytes.{Appends};
ghost use Rattle.circular_buffer.specs.Buffer.{Buffer};
ghost use Rattle.ptk_words.specs.declared.sections.Entry.{Entry};
ghost use Rattle.ptk_words_model.specs.Run.{last_of};
ghost use Rattle.ptk_words_model.specs.Text.{trace_line, trace_text};
ghost use Rattle.ptk_trace.specs.KeptSteps.{IsStep, with_newest, kept_steps};

use crate::noting::Noting;
use crate::{Decimal, Word};
use circular_buffer::HeapCircularBuffer;
use ptk_words::{Entry, ThreadNo, Tick};
use std::alloc::{AllocError, Global};
use std::io;
use std::io::Write;
use std::marker::Model;

// How many of the newest steps are noted before they go into the ring.
const BATCH: usize = 256;

// For how many more entries the batch has room when steps are noted.
const ROOM: usize = 64;

/// The last steps of a partition, with room for as many as its section keeps: a ring of them, and after it the newest
/// ones in a batch, which goes into the ring as one.
#[derive(Drop)]
pub struct Trace {
    ring: HeapCircularBuffer<Entry>,
    batch: [Entry; BATCH],
    noted: usize,
}

impl Model for Trace {
    ghost use Rattle.std.specs.Prelude.{◌≤◌};
    ghost use Rattle.ptk_trace.specs.KeptSteps.{KeptSteps, kept_steps};

    ghost Value = { KeptSteps };

    ghost view = { λ a. kept_steps a.ring.capacity a.ring.items a.noted a.batch };

    ghost invariant = { λ a. a.noted ≤ 256 };
}

/// The steps that a trace keeps, oldest first, where they lie: one part after the other.
#[derive(Clone, Copy)]
pub struct Entries<'a> {
    /// The oldest of them.
    pub oldest: &'a [Entry],
    /// Those after them.
    pub later: &'a [Entry],
    /// The newest of them.
    pub newest: &'a [Entry],
}

impl Trace {
    /// A trace that keeps the last `capacity` steps, and none where that is 0. An error where memory ran out. No other
    /// call takes memory.
    pub fn new(alloc: Global, capacity: u32) -> Result<Trace, AllocError>
        ensures { IfOk result (λ made. made ≡ record { capacity = capacity; entries = [] }) }
    {
        let ring = HeapCircularBuffer::with_capacity(alloc, capacity as usize)?;
        let unset = Entry {
            tick: Tick::new(0),
            thread: ThreadNo::new(1),
            pc: 0,
            word: 0,
            a0: 0,
        };
        Ok(Trace {
            ring,
            batch: [unset; BATCH],
            noted: 0,
        })
    }

    /// How many steps it keeps at most.
    pub fn capacity(&self) -> usize
        ensures value { result ≡ self.now.capacity }
        ensures within { length self.now.entries ≤ result }
    {
        self.ring.capacity()
    }

    /// Puts a step in as the newest. Where the room is full the oldest goes.
    pub fn push(&mut self, entry: Entry)
        ensures { self.new ≡ with_newest (entry ∷ []) self.old }
    {
        if self.ring.capacity() == 0 {
            return;
        }
        self.noted = make_room(&mut self.ring, &self.batch, self.noted);
        self.batch[self.noted] = entry;
        self.noted += 1;
    }

    /// Has steps noted where they are kept: what they write, in this order, are the newest steps. How many they are, at
    /// most as many as a batch has room for. Where the room is full the oldest go.
    #[inline(always)]
    pub fn note<N: Noting>(&mut self, steps: &mut N) -> usize
        requires { N.can_note steps.old }
        ensures few { result ≤ 256 }
        ensures noted { (newest : List Entry) × (length newest ≡ result) × (self.new ≡ with_newest newest self.old) × N.has_noted steps.old result newest steps.new }
    {
        let noted = make_room(&mut self.ring, &self.batch, self.noted);
        let batch = &mut self.batch[..];
        let written = steps.note(&mut batch[noted..]);
        self.noted = noted + written;
        written
    }

    /// The steps that are kept, oldest first, in three parts; any of them may be empty.
    pub fn entries(&self) -> Entries<'_>
        ensures { (result.oldest.now ++ result.later.now) ++ result.newest.now ≡ self.now.entries }
    {
        let (front, back) = self.ring.as_slices();
        let newest = &self.batch[..self.noted];
        let older = front.len() + back.len();
        let gone = (older + newest.len()).saturating_sub(self.ring.capacity());
        Entries {
            oldest: after(front, gone),
            later: after(back, gone.saturating_sub(front.len())),
            newest: after(newest, gone.saturating_sub(older)),
        }
    }

    /// Writes the lines of the steps that are kept, oldest first, a newline after each, and takes no memory. An error
    /// where the writer fails; the trace stays as it was.
    pub fn lines<W: Write>(&self, out: &mut W) -> io::Result<()>
        ensures lines { OnOk result (Appends (W.contents out.old) (W.contents out.new) (trace_text self.now.entries)) }
        ensures steps { OnOk result (All IsStep self.now.entries) }
    {
        let entries = self.entries();
        put_lines(out, entries.oldest)?;
        put_lines(out, entries.later)?;
        put_lines(out, entries.newest)
    }
}

// Room for 64 more in the batch: where there is less, its entries go into the ring. How many it then has.
#[inline(always)]
fn make_room(ring: &mut HeapCircularBuffer<Entry>, batch: &[Entry; BATCH], noted: usize) -> usize
    requires { noted ≤ 256 }
    ensures room { result ≤ 192 }
    ensures kept { kept_steps ring.new.capacity ring.new.items result batch.now ≡ kept_steps ring.old.capacity ring.old.items noted batch.now }
{
    if noted <= BATCH - ROOM {
        return noted;
    }
    hand_over(ring, &batch[..noted]);
    0
}

// The newest steps go into the ring.
#[cold]
#[inline(never)]
fn hand_over(ring: &mut HeapCircularBuffer<Entry>, newest: &[Entry])
    ensures room { ring.new.capacity ≡ ring.old.capacity }
    ensures kept { ring.new.items ≡ last_of ring.old.capacity (ring.old.items ++ newest.now) }
{
    ring.extend_from_slice(newest);
}

// The steps after this many.
fn after(entries: &[Entry], count: usize) -> &[Entry]
    ensures { result.now ≡ drop count entries.now }
{
    &entries[count.min(entries.len())..]
}

// The lines of the steps, in order.
fn put_lines<W: Write>(out: &mut W, entries: &[Entry]) -> io::Result<()>
    ensures lines { OnOk result (Appends (W.contents out.old) (W.contents out.new) (trace_text entries.now)) }
    ensures steps { OnOk result (All IsStep entries.now) }
{
    for entry in entries {
        put_line(out, entry)?;
    }
    Ok(())
}

// The line of a step.
fn put_line<W: Write>(out: &mut W, entry: &Entry) -> io::Result<()>
    ensures step { IsStep entry.now }
    ensures line { OnOk result (Appends (W.contents out.old) (W.contents out.new) (trace_line entry.now)) }
{
    let tick = Decimal(entry.tick.ticks());
    let thread = Decimal(u64::from(entry.thread.number()));
    let (pc, word, a0) = (shown(entry.pc), shown(entry.word), shown(entry.a0));
    writeln!(out, "{tick} {thread} {pc} {word} {a0}")
}

// A number of 32 bits, as it is shown.
fn shown(number: u32) -> Word
    ensures value { result.0 ≡ number }
    ensures fits { number < 2 ^ 32 }
{
    Word(number)
}
