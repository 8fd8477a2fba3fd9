//! A second run of the system, which is looked at where the events of the first say too little.

ghost use Rattle.std.specs.Prelude.{◌≤◌};
ghost use Rattle.ptk_words.specs.declared.TheConstants.{LAST_TICK};

use ptk_clock::to_tick;
use ptk_system::System;
use ptk_tracepoints::{CallStep, Steps};
use ptk_words::{A0, A1, PartId, SP, ThreadNo, Tick};

/// How many nanoseconds make a second.
const SECOND: u32 = 1_000_000_000;

/// Where the words of a time are: its seconds, low and high, and its nanoseconds.
const SECONDS_LOW: u32 = 0;

const SECONDS_HIGH: u32 = 4;

const NANOSECONDS: u32 = 8;

/// The word of a condition variable that no call has set up (PTHREAD_COND_INITIALIZER).
const UNUSED: u32 = 0;

/// A second run of a system, up to a tick of at most 2^40. It is asked for ticks that never fall. The events of the
/// first run have no argument of a call, and no stack pointer between the steps of a row.
#[derive(Drop)]
pub(crate) struct SecondRun<'a> {
    system: System<'a>,
    end: u64,
    ghost end_within: { end ≤ LAST_TICK },
}

impl<'a> SecondRun<'a> {
    /// That of a system that has just booted, up to a tick of at most 2^40.
    pub(crate) fn new(system: System<'a>, end: Tick) -> SecondRun<'a>
        requires { end ≤ LAST_TICK }
    {
        SecondRun {
            system,
            end: end.ticks(),
        }
    }

    /// Goes on to a tick, at most to the end.
    fn go_to(&mut self, tick: u64) {
        let tick = tick.min(self.end);
        self.system.run_to(Tick::new(tick));
    }

    /// A register of a thread at this tick.
    fn register(&self, p: PartId, thread: ThreadNo, register: u32) -> Option<u32> {
        if self.system.parts() <= p.index() {
            return None;
        }
        self.system.register(p, thread, register)
    }

    /// The byte at an address.
    fn byte(&self, p: PartId, address: u32) -> Option<u8> {
        if self.system.parts() <= p.index() {
            return None;
        }
        self.system.byte(p, address)
    }

    /// The word at an address. Its bytes are in the order of RISC-V, the lowest first.
    fn word(&self, p: PartId, address: u32) -> Option<u32> {
        let first = self.byte(p, address)?;
        let second = self.byte(p, address.checked_add(1)?)?;
        let third = self.byte(p, address.checked_add(2)?)?;
        let fourth = self.byte(p, address.checked_add(3)?)?;
        Some(u32::from_le_bytes([first, second, third, fourth]))
    }

    /// The stack pointer of a thread before a tick's decision.
    pub(crate) fn stack_at(&mut self, p: PartId, thread: ThreadNo, tick: u64) -> Option<u32> {
        self.go_to(tick);
        self.register(p, thread, SP)
    }

    /// The least stack pointer after each of the steps of a row.
    pub(crate) fn least_stack(&mut self, p: PartId, steps: &Steps) -> Option<u32> {
        let mut least = steps.stack;
        for tick in steps.from..steps.until.min(self.end) {
            self.go_to(tick.saturating_add(1));
            if let Some(pointer) = self.register(p, steps.thread, SP) {
                least = Some(least.unwrap_or(pointer).min(pointer));
            }
        }
        least
    }

    /// The tick up to which a call of clock_nanosleep asks to sleep.
    pub(crate) fn deadline_of(&mut self, p: PartId, call: &CallStep) -> Option<Tick> {
        self.go_to(call.from);
        let pointer = self.register(p, call.thread, A1)?;
        let low = self.word(p, pointer.checked_add(SECONDS_LOW)?)?;
        let high = self.word(p, pointer.checked_add(SECONDS_HIGH)?)?;
        let nanoseconds = self.word(p, pointer.checked_add(NANOSECONDS)?)?;
        if SECOND <= nanoseconds {
            return None;
        }
        let seconds = (u64::from(high) << 32) | u64::from(low);
        Some(to_tick(seconds.cast_signed(), nanoseconds))
    }

    /// The number of the condition variable that a call of pthread_cond_signal or pthread_cond_broadcast names. The call
    /// itself may have set it up.
    pub(crate) fn condition_of(&mut self, p: PartId, call: &CallStep) -> Option<u32> {
        self.go_to(call.from);
        let pointer = self.register(p, call.thread, A0)?;
        let number = self.word(p, pointer)?;
        if number != UNUSED {
            return Some(number);
        }
        self.go_to(call.from.saturating_add(1));
        self.word(p, pointer)
    }
}
