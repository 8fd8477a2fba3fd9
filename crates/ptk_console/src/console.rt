//! The console of one partition.

ghost use Rattle.std.specs.Prelude.{◌≡◌, ◌<◌, ◌+◌, ◌^◌, not, length, is_some, option_map, slice_get, IfOk};
ghost use Rattle.ptk_words_model.specs.Console.{is_full, with_input, with_waiter, without_waiter};
ghost use Rattle.ptk_console.specs.ConsoleTable.{IsNotWaiting, after_next_byte, after_put, first_byte, fresh_console, next_byte, without_byte, without_next};

use circular_buffer::HeapCircularBuffer;
use ptk_words::{Arrival, Limits, Queue, ThreadNo, Tick};
use std::alloc::{AllocError, Global};
use std::marker::Model;

/// A partition's console, with room for all that its section allows.
#[derive(Drop)]
pub struct PartitionConsole {
    limits: Limits,
    input: Vec<Arrival>,
    arrived: usize,
    ring: HeapCircularBuffer<u8>,
    dropped: u64,
    output: Vec<u8>,
    waiters: Queue,
}

impl Model for PartitionConsole {
    ghost use Rattle.std.specs.Prelude.{◌≡◌, ◌≤◌, ◌<◌, ◌+◌, ◌^◌, length, drop, vec_capacity};
    ghost use Rattle.ptk_console.specs.ConsoleTable.{LimitedConsole};

    ghost Value = { LimitedConsole };

    ghost view = { λ a. record { console = record { coming = drop a.arrived a.input.items; ring = a.ring.items; dropped = a.dropped; output = a.output.items; waiters = a.waiters }; limits = a.limits } };

    ghost invariant = { λ a. (a.arrived ≤ length a.input.items) × (a.ring.capacity ≡ a.limits.ring) × (length a.output.items ≤ a.limits.output) × (a.limits.output ≤ vec_capacity a.output) × (a.dropped + length a.input.items < 2 ^ 64 + a.arrived) };
}

impl PartitionConsole {
    /// A console with this input and no byte yet. An error where memory ran out.
    pub fn new(
        alloc: Global,
        limits: Limits,
        input: &[Arrival],
    ) -> Result<PartitionConsole, AllocError>
        ensures { IfOk result (λ made. made ≡ record { console = fresh_console input.now; limits = limits }) }
    {
        let input = Vec::from_slice(alloc, input)?;
        let ring = HeapCircularBuffer::with_capacity(alloc, limits.ring as usize)?;
        let output = Vec::with_capacity(alloc, limits.output as usize)?;
        let waiters = Queue::new(alloc)?;
        Ok(PartitionConsole {
            limits,
            input,
            arrived: 0,
            ring,
            dropped: 0,
            output,
            waiters,
        })
    }

    /// Takes the next input byte, if it comes at the tick or before.
    pub fn next_arrival(&mut self, tick: Tick) -> Option<u8>
        ensures told { result ≡ next_byte tick self.old.console }
        ensures moved { self.new ≡ record self.old { console = without_next tick self.old.console } }
    {
        let arrival = *self.coming().first()?;
        if arrival.tick.ticks() > tick.ticks() {
            return None;
        }
        self.arrived += 1;
        Some(arrival.byte)
    }

    /// The input still to come.
    pub fn coming(&self) -> &[Arrival]
        ensures { result.now ≡ self.now.console.coming }
    {
        &self.input[self.arrived..]
    }

    /// The tick of the first input still to come, None where none is.
    pub fn next_arrival_tick(&self) -> Option<Tick>
        ensures { result ≡ option_map (λ a. a.tick) (slice_get self.now.console.coming 0) }
    {
        Some(self.coming().first()?.tick)
    }

    /// Whether the next input byte comes at the tick or before.
    pub fn is_due(&self, tick: Tick) -> bool
        ensures { result ≡ is_some (next_byte tick self.now.console) }
    {
        match self.coming().first() {
            Some(arrival) => arrival.tick.ticks() <= tick.ticks(),
            None => false,
        }
    }

    /// Puts the next input byte into the ring, or loses and counts it, if it comes at the tick or before.
    pub fn arrive(&mut self, tick: Tick) -> bool
        ensures told { result ≡ is_some (next_byte tick self.old.console) }
        ensures moved { self.new ≡ record self.old { console = after_next_byte self.old.limits.ring tick self.old.console } }
    {
        let _counted = self.dropped;
        match self.next_arrival(tick) {
            Some(byte) => {
                self.keep(byte);
                true
            }
            None => false,
        }
    }

    // Puts a byte into the ring, or loses and counts it where the ring is full. The lost bytes and those still to come
    // stay countable.
    fn keep(&mut self, byte: u8)
        requires { self.old.console.dropped + 1 + length self.old.console.coming < 2 ^ 64 }
        ensures { self.new ≡ record self.old { console = with_input self.old.limits.ring byte self.old.console } }
    {
        if self.ring.try_push_back(byte).is_err() {
            self.dropped += 1;
        }
    }

    /// Takes the first byte of the ring.
    pub fn get(&mut self) -> Option<u8>
        ensures told { result ≡ first_byte self.old.console }
        ensures moved { self.new ≡ record self.old { console = without_byte self.old.console } }
    {
        self.ring.pop_front()
    }

    /// Whether the output has all the bytes that it may have.
    pub fn is_full(&self) -> bool
        ensures { result ≡ is_full self.now.limits.output self.now.console }
    {
        self.output.len() >= self.limits.output as usize
    }

    /// Appends a byte to the output, unless it is full.
    pub fn put(&mut self, byte: u8) -> bool
        ensures told { result ≡ not (is_full self.old.limits.output self.old.console) }
        ensures moved { self.new ≡ record self.old { console = after_put self.old.limits.output byte self.old.console } }
    {
        if self.is_full() {
            return false;
        }
        self.output.push_reserved(byte);
        true
    }

    /// How many bytes were lost.
    pub fn dropped(&self) -> u64
        ensures { result ≡ self.now.console.dropped }
    {
        self.dropped
    }

    /// The output so far.
    pub fn output(&self) -> &[u8]
        ensures { result.now ≡ self.now.console.output }
    {
        self.output.as_slice()
    }

    /// The threads that wait, in the order of their arrival.
    pub fn waiters(&self) -> &[ThreadNo]
        ensures { result.now ≡ self.now.console.waiters }
    {
        self.waiters.threads()
    }

    /// Makes a thread that does not wait the last waiter.
    pub fn add_waiter(&mut self, thread: ThreadNo)
        requires { IsNotWaiting thread self.old.console }
        ensures { self.new ≡ record self.old { console = with_waiter thread self.old.console } }
    {
        self.waiters.push_tail(thread);
    }

    /// Takes a thread out of the waiters. One that does not wait changes nothing.
    pub fn remove_waiter(&mut self, thread: ThreadNo)
        ensures { self.new ≡ record self.old { console = without_waiter thread self.old.console } }
    {
        self.waiters.remove(thread);
    }
}
