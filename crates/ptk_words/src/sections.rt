//! What the configuration gives a partition, and what its trace keeps.

use crate::numbers::{ThreadNo, Tick};

/// The numbers of a partition's section.
#[derive(Clone, Copy, PartialEq, Eq)]
pub struct Limits {
    /// Bytes of memory.
    pub memory: u32,
    /// The greatest number of threads.
    pub threads: u32,
    /// Bytes of a thread's default stack.
    pub stack: u32,
    /// The greatest number of mutexes.
    pub mutexes: u32,
    /// The greatest number of condition variables.
    pub conditions: u32,
    /// The greatest number of keys.
    pub keys: u32,
    /// Ticks of a round-robin interval.
    pub interval: u32,
    /// Bytes of the input ring.
    pub ring: u32,
    /// Bytes of output.
    pub output: u32,
    /// Entries of the trace.
    pub trace: u32,
}

/// An input byte and the tick at which it comes.
#[derive(Clone, Copy, PartialEq, Eq)]
pub struct Arrival {
    /// The tick at which it comes.
    pub tick: Tick,
    /// The byte.
    pub byte: u8,
}

/// A step in the trace.
#[derive(Clone, Copy, PartialEq, Eq)]
pub struct Entry {
    /// The tick at which it began.
    pub tick: Tick,
    /// The thread that made it.
    pub thread: ThreadNo,
    /// Its pc before the step.
    pub pc: u32,
    /// The word at that pc, 0 where the step fetched none.
    pub word: u32,
    /// Its a0 after the step, or before it where the thread ended.
    pub a0: u32,
}
