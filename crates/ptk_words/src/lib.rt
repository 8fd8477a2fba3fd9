#![tactic(auto)]

//! The plain types that every crate uses (numbers of partitions, threads, slots and ticks, registers, threads, mutexes,
//! faults, limits), lists by partition, the calls with their numbers and costs, and definitions of words, bytes, pools,
//! calls and images.
//!
//! - The list of calls: `Call::of_number` finds the call of every number, and `number` and `cost` are the list's, 2 to
//!   16 ticks.
//! - The function `cost` is that of every number, 2 where the number is no call.
//! - A `Cpu`'s x0 reads 0 (its invariant).
//! - The numbers of errors and faults are the definitions'.
//! - A `Parted` is a list for each partition: `get`, `part`, `whole` read it, `set` and `lend` change one list and
//!   leave every other.
//! - A `Queue` is an order of one partition's threads, none twice.
//! - The lemmas that several crates use: on options (`proofs/Options`), on lists (`proofs/Lists`), and on pools, whose
//!   numbers count from 1 (`proofs/Pools`).
//!
//! The memory, the slot table and what is kept of each thread number are `Parted`, one vector for all partitions, so
//! that offsets occur here alone. `Extents` says where each list lies: it is part of the `Parted` itself, for at most 8
//! partitions, so that a look-up of a list reads no second vector. A `Queue` has room for all 32 threads from the start
//! (`proofs/QueueLists`). The ruleset `loans` of `proofs/Cuts` is for the crates above: a loan that keeps its length is
//! a `slice_set`. Costly to prove is `writes_back` of `lend`. Nothing is below; every other crate is above.

mod calls;
mod extents;
mod faults;
mod memory;
mod mutexes;
mod numbers;
mod parted;
mod processor;
mod queue;
mod sections;
mod threads;

pub use calls::{Call, CallNo, UNKNOWN_TICKS, cost};
pub use faults::{Cause, Errno, FaultKind, ImageFault, Status};
pub use memory::read_word;
pub use mutexes::{MutexKind, Owner, Protocol, Soundness};
pub use numbers::{ConditionNo, MutexNo, PartId, Priority, SlotNo, ThreadNo, Tick};
pub use parted::{Parted, repeated};
pub use processor::Cpu;
pub use queue::Queue;
pub use sections::{Arrival, Entry, Limits};
pub use threads::{Cleanup, Phase, Policy, Thread, Wait};

/// The register of the return address (RISC-V 2.1, the calling convention's ra).
pub const RA: u32 = 1;

/// The register of the stack pointer (RISC-V 2.1, the calling convention's sp).
pub const SP: u32 = 2;

/// The register of a call's first argument and of its reply (the calling convention's a0).
pub const A0: u32 = 10;

/// The register of a call's second argument and of the first value that it gives (the calling convention's a1).
pub const A1: u32 = 11;

/// The register of a call's third argument and of the second value that it gives (the calling convention's a2).
pub const A2: u32 = 12;

/// The register of a call's fourth argument (the calling convention's a3).
pub const A3: u32 = 13;

/// The register of a call's fifth argument (the calling convention's a4).
pub const A4: u32 = 14;

/// The register of a call's number (the calling convention's a7; own choice).
pub const A7: u32 = 17;

/// The word of ECALL (RISC-V 2.8).
pub const ECALL: u32 = 0x0000_0073;

/// The return gate: a step at this pc ends a routine (own choice).
pub const RETURN_GATE: u32 = 0xFFFF_FFF0;

/// The result of a cancelled thread: PTHREAD_CANCELED (pthread_join).
pub const CANCELED: u32 = 0xFFFF_FFFF;

/// What destroy stores in the word of a mutex or condition variable (own choice).
pub const DESTROYED: u32 = 0xFFFF_FFFF;

/// The greatest count of a recursive mutex (pthread_mutex_lock, EAGAIN; own choice).
pub const COUNT_LIMIT: u32 = 65_535;

/// The greatest number of cleanup handlers of a thread (pthread_cleanup_push; own choice).
pub const CLEANUP_LIMIT: u32 = 16;

/// The rounds of key destructors at a thread's end: PTHREAD_DESTRUCTOR_ITERATIONS (pthread_key_create).
pub const DESTRUCTOR_ROUNDS: u32 = 4;

/// The last tick of any run, 2^40 (own choice).
pub const LAST_TICK: u64 = 1_099_511_627_776;

/// The greatest number of threads of a partition (own choice).
pub const THREAD_LIMIT: u32 = 32;
