//! The figures of a thread number.

ghost use Rattle.std.specs.Prelude.{◌<◌};
ghost use Rattle.ptk_statistics_figures.specs.declared.thread.TheConstants.{NUMBERS};

use crate::doing::{DOINGS, Doing};
use crate::moment::{Moment, Span};
use crate::response::Responses;
use crate::stack::StackUse;
use ptk_words::{Call, MutexNo, Tick};

/// How many numbers of calls are counted apart: those of all calls are below the last, which stands for all other
/// numbers.
const NUMBERS: usize = 64;

/// How often a call was made, and how often its reply was not 0.
#[derive(Clone, Copy, Default)]
pub struct CallCount {
    /// How often it was made.
    pub made: u64,
    /// How often its reply was an error.
    pub refused: u64,
}

impl CallCount {
    /// It was made once more.
    fn make(&mut self) {
        self.made = self.made.saturating_add(1);
    }

    /// Its reply was an error once more.
    fn refuse(&mut self) {
        self.refused = self.refused.saturating_add(1);
    }
}

/// What the threads of a number did.
#[derive(Clone, Copy)]
pub struct ThreadStatistics {
    doing: Doing,
    since: Moment,
    mutex: Option<MutexNo>,
    spans: [Span; DOINGS],
    responses: Responses,
    to_run: Span,
    steps: u64,
    preemptions: u64,
    calls: [CallCount; NUMBERS],
    // whether its last call has no reply yet
    is_awaiting: bool,
    stack: Option<StackUse>,
    // of the threads that had the number before
    deepest: Option<StackUse>,
}

impl ThreadStatistics {
    /// A number that no thread has had.
    pub fn new() -> ThreadStatistics {
        ThreadStatistics {
            doing: Doing::Free,
            since: Moment::default(),
            mutex: None,
            spans: [Span::default(); DOINGS],
            responses: Responses::default(),
            to_run: Span::default(),
            steps: 0,
            preemptions: 0,
            calls: [CallCount::default(); NUMBERS],
            is_awaiting: false,
            stack: None,
            deepest: None,
        }
    }

    /// It does this at the first tick that is counted, and waits for this mutex, if for one.
    pub fn begin(&mut self, doing: Doing, mutex: Option<MutexNo>, at: Moment) {
        self.doing = doing;
        self.mutex = mutex;
        self.since = at;
    }

    /// The number is that of a thread with this stack from now on.
    pub fn begin_stack(&mut self, stack: StackUse) {
        self.deepest = self.stack();
        self.stack = Some(stack);
    }

    /// It does this from a moment on, and waits for this mutex, if for one.
    pub fn turn_to(&mut self, doing: Doing, mutex: Option<MutexNo>, at: Moment) {
        let before = self.doing;
        if before == Doing::Ready && doing == Doing::Running {
            self.end_ready(at);
        }
        self.pass(at);
        self.doing = doing;
        self.mutex = mutex;
        self.since = at;
    }

    /// Its time from ready to running ends at a moment.
    fn end_ready(&mut self, at: Moment) {
        self.to_run = self.to_run.max(at.since(self.since));
    }

    /// Counts the time up to a moment.
    fn pass(&mut self, at: Moment) {
        let place = self.doing.place();
        self.spans[place] = self.spans[place].plus(at.since(self.since));
    }

    /// The run ends. A thread that is ready was so until then.
    pub fn finish(&mut self, at: Moment) {
        if self.doing == Doing::Ready {
            self.end_ready(at);
        }
        self.pass(at);
    }

    /// The mutex that it waits for.
    pub fn mutex(&self) -> Option<MutexNo> {
        self.mutex
    }

    /// The moment from which on it does what it does.
    pub fn since_moment(&self) -> Moment {
        self.since
    }

    /// Another thread runs, although it did not wait and gave no way.
    pub fn preempt(&mut self) {
        self.preemptions = self.preemptions.saturating_add(1);
    }

    /// It made this many steps.
    #[inline(always)]
    pub fn add_steps(&mut self, count: u64) {
        self.steps = self.steps.saturating_add(count);
    }

    /// It makes a call of this number, and may have no reply yet.
    pub fn call(&mut self, number: u32, is_awaiting: bool) {
        self.calls[place_of(number)].make();
        self.is_awaiting = is_awaiting;
    }

    /// Whether its last call has no reply yet.
    pub fn is_awaiting(&self) -> bool {
        self.is_awaiting
    }

    /// The reply to a call of this number is an error.
    pub fn refuse(&mut self, number: u32) {
        self.calls[place_of(number)].refuse();
    }

    /// A stack pointer of it was seen.
    #[inline(always)]
    pub fn see_stack(&mut self, pointer: u32) {
        if let Some(stack) = &mut self.stack {
            stack.see(pointer);
        }
    }

    /// Its threads have a deadline of this many ticks.
    pub fn set_deadline(&mut self, ticks: u64) {
        self.responses.set_deadline(ticks);
    }

    /// Its response times, to be counted on.
    pub fn responses_mut(&mut self) -> &mut Responses {
        &mut self.responses
    }

    /// What it does.
    pub fn doing(&self) -> Doing {
        self.doing
    }

    /// The tick from which on it does what it does, in the end.
    pub fn since(&self) -> Tick {
        Tick::new(self.since.tick)
    }

    /// For how long it did this in all.
    pub fn span(&self, doing: Doing) -> Span {
        self.spans[doing.place()]
    }

    /// How many steps it made.
    pub fn steps(&self) -> u64 {
        self.steps
    }

    /// How often it made a call.
    pub fn calls(&self, call: Call) -> CallCount {
        self.calls[place_of(call.number())]
    }

    /// How often it made an ECALL with a number that is no call.
    pub fn unknown_calls(&self) -> CallCount {
        self.calls[NUMBERS - 1]
    }

    /// Its response times.
    pub fn responses(&self) -> &Responses {
        &self.responses
    }

    /// The greatest time from ready to running, or to the run's end.
    pub fn to_run(&self) -> Span {
        self.to_run
    }

    /// How often another thread ran after it, although it neither waited nor had given way by sched_yield.
    pub fn preemptions(&self) -> u64 {
        self.preemptions
    }

    /// How much of its stack it used. Of several threads that had the number that of the one which used most of its
    /// own. None if no thread had the number.
    pub fn stack(&self) -> Option<StackUse> {
        match (self.stack, self.deepest) {
            (Some(stack), Some(deepest)) => Some(deepest.or_deeper(stack)),
            (Some(stack), None) => Some(stack),
            (None, deepest) => deepest,
        }
    }

    /// Whether a thread was late for a release, or missed its deadline.
    pub fn is_late(&self) -> bool {
        self.responses.late() != 0 || self.responses.missed() != 0
    }

    /// Whether a thread used more than its stack.
    pub fn has_overflow(&self) -> bool {
        match self.stack() {
            Some(stack) => stack.overflow() != 0,
            None => false,
        }
    }

    /// Whether a thread had the number at some time.
    pub fn is_used(&self) -> bool {
        self.stack.is_some() || self.doing != Doing::Free
    }
}

/// The place at which calls of a number are counted: that of a call is its number, and the last one is that of all
/// other numbers.
fn place_of(number: u32) -> usize
    ensures { result < NUMBERS }
{
    match Call::of_number(number) {
        Some(call) => call.number() as usize,
        None => NUMBERS - 1,
    }
}
