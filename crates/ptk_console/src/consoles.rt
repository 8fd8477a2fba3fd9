//! The consoles of all partitions.

ghost use Rattle.std.specs.Prelude.{◌≡◌, ◌<◌, not, length, map, is_some, option_map, slice_get, IfOk};
ghost use Rattle.ptk_words_model.specs.Console.{is_full, with_waiter, without_waiter};
ghost use Rattle.ptk_console.specs.ConsoleTable.{IsNotWaiting, after_next_byte, after_put, console_at, first_byte, fresh_console, console_limits_at, next_byte, put_console, without_byte, without_next};

use crate::console::PartitionConsole;
use ptk_words::{Arrival, Limits, PartId, ThreadNo, Tick};
use std::alloc::{AllocError, Global};
use std::marker::Model;

/// A console for each partition, in the order of the partitions.
#[derive(Drop)]
pub struct Consoles {
    items: Vec<PartitionConsole>,
}

impl Model for Consoles {
    ghost use Rattle.ptk_console.specs.ConsoleTable.{ConsoleTable, table_of};

    ghost Value = { ConsoleTable };

    ghost view = { λ a. table_of a.items.items };
}

impl Consoles {
    /// A console for each section, from its numbers and its input, with all the room that it may ever need. An error
    /// where memory ran out. No other call takes memory.
    pub fn build(
        alloc: Global,
        limits: &[Limits],
        inputs: &[&[Arrival]],
    ) -> Result<Consoles, AllocError>
        requires { length inputs.now ≡ length limits.now }
        ensures { IfOk result (λ made. made ≡ record { consoles = map (λ input. fresh_console input.now) inputs.now; limits = limits.now }) }
    {
        let mut items = Vec::new(alloc);
        for i in 0..limits.len() {
            items.push(PartitionConsole::new(alloc, limits[i], inputs[i])?)?;
        }
        Ok(Consoles { items })
    }

    /// How many partitions there are.
    pub fn parts(&self) -> usize
        ensures { result ≡ length self.now.consoles }
    {
        self.items.len()
    }

    /// Takes the partition's next input byte, if it comes at the tick or before. A waiter gets it, or else `arrive`.
    pub fn next_arrival(&mut self, p: PartId, tick: Tick) -> Option<u8>
        requires { p < length self.old.consoles }
        ensures told { result ≡ next_byte tick (console_at self.old p) }
        ensures moved { self.new ≡ put_console p (without_next tick (console_at self.old p)) self.old }
    {
        let console = &mut self.items[p.index()];
        console.next_arrival(tick)
    }

    /// The partition's input that is still to come, with its ticks.
    pub fn coming(&self, p: PartId) -> &[Arrival]
        requires { p < length self.now.consoles }
        ensures { result.now ≡ (console_at self.now p).coming }
    {
        self.items[p.index()].coming()
    }

    /// The tick of the partition's first input still to come, None where none is.
    pub fn next_arrival_tick(&self, p: PartId) -> Option<Tick>
        requires { p < length self.now.consoles }
        ensures { result ≡ option_map (λ a. a.tick) (slice_get (console_at self.now p).coming 0) }
    {
        self.items[p.index()].next_arrival_tick()
    }

    /// Whether the partition's next input byte comes at the tick or before.
    pub fn is_due(&self, p: PartId, tick: Tick) -> bool
        requires { p < length self.now.consoles }
        ensures { result ≡ is_some (next_byte tick (console_at self.now p)) }
    {
        self.items[p.index()].is_due(tick)
    }

    /// Puts the partition's next input byte into its ring, or loses and counts it where the ring is full, if it comes
    /// at the tick or before; false where none does.
    pub fn arrive(&mut self, p: PartId, tick: Tick) -> bool
        requires { p < length self.old.consoles }
        ensures told { result ≡ is_some (next_byte tick (console_at self.old p)) }
        ensures moved { self.new ≡ put_console p (after_next_byte (console_limits_at self.old p).ring tick (console_at self.old p)) self.old }
    {
        let console = &mut self.items[p.index()];
        console.arrive(tick)
    }

    /// Takes the first byte of the partition's ring, None where it is empty.
    pub fn get(&mut self, p: PartId) -> Option<u8>
        requires { p < length self.old.consoles }
        ensures told { result ≡ first_byte (console_at self.old p) }
        ensures moved { self.new ≡ put_console p (without_byte (console_at self.old p)) self.old }
    {
        let console = &mut self.items[p.index()];
        console.get()
    }

    /// Whether the partition's output has all the bytes that it may have.
    pub fn is_full(&self, p: PartId) -> bool
        requires { p < length self.now.consoles }
        ensures { result ≡ is_full (console_limits_at self.now p).output (console_at self.now p) }
    {
        self.items[p.index()].is_full()
    }

    /// Appends a byte to the partition's output; false, and nothing changes, where the output is full.
    pub fn put(&mut self, p: PartId, byte: u8) -> bool
        requires { p < length self.old.consoles }
        ensures told { result ≡ not (is_full (console_limits_at self.old p).output (console_at self.old p)) }
        ensures moved { self.new ≡ put_console p (after_put (console_limits_at self.old p).output byte (console_at self.old p)) self.old }
    {
        let console = &mut self.items[p.index()];
        console.put(byte)
    }

    /// How many of the partition's input bytes were lost.
    pub fn dropped(&self, p: PartId) -> u64
        requires { p < length self.now.consoles }
        ensures { result ≡ (console_at self.now p).dropped }
    {
        self.items[p.index()].dropped()
    }

    /// The partition's output so far.
    pub fn output(&self, p: PartId) -> &[u8]
        requires { p < length self.now.consoles }
        ensures { result.now ≡ (console_at self.now p).output }
    {
        self.items[p.index()].output()
    }

    /// The partition's threads that wait for a byte, in the order of their arrival.
    pub fn waiters(&self, p: PartId) -> &[ThreadNo]
        requires { p < length self.now.consoles }
        ensures { result.now ≡ (console_at self.now p).waiters }
    {
        self.items[p.index()].waiters()
    }

    /// Makes a thread of the partition that does not wait for a byte the last waiter.
    pub fn add_waiter(&mut self, p: PartId, thread: ThreadNo)
        requires partition { p < length self.old.consoles }
        requires new { IsNotWaiting thread (console_at self.old p) }
        ensures { self.new ≡ put_console p (with_waiter thread (console_at self.old p)) self.old }
    {
        let console = &mut self.items[p.index()];
        console.add_waiter(thread);
    }

    /// Takes a thread out of the partition's waiters. One that does not wait changes nothing.
    pub fn remove_waiter(&mut self, p: PartId, thread: ThreadNo)
        requires { p < length self.old.consoles }
        ensures { self.new ≡ put_console p (without_waiter thread (console_at self.old p)) self.old }
    {
        let console = &mut self.items[p.index()];
        console.remove_waiter(thread);
    }
}
