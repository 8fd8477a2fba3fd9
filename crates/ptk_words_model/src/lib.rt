#![tactic(auto)]

//! The machine of one partition as definitions: instructions, windows, state, priorities, places, mutexes, condition
//! variables, console, keys, unwinding, calls, decision, the partition alone, and the texts of reports and traces.
//!
//! - `no_word_agrees_twice`: no word agrees with two rows of the instruction table; the table by fields finds the same
//!   row for every word.
//! - `steps_join`, `entries_join`: plain steps in a row (no call, break or fault among them), and their trace entries,
//!   are those of a first part and then the rest.
//! - `accepted_is_plan`: stages of windows without a fault are a plan.
//! - For a plan `in_force_holds` (the windows of a frame are those of the stage of the greatest number not above the
//!   frame's), `next_is_first`, `next_is_near`, `end_is_of_window`, `window_is_whole`, `own_ticks_are_apart`, and the
//!   converses `next_is_one` and `end_is_one`.
//!
//! It has definitions that contracts cite, the few plain types that these use, and laws, which are the contracts of
//! functions without code; its only code is `LockMove::is_waiting`, `LockMove::reply_after` and `thread_counts_of`.
//! `specs/Instructions` has the instruction table as the RISC-V manual has it, `specs/Fields` the one that proofs about
//! code by opcode and funct3 use. Below is `ptk_words`; every pool, the gate, the kernel and the system cite these
//! definitions.

mod fault;
mod instruction_laws;
mod window;
mod window_laws;

ghost use Rattle.std.specs.Prelude.{◌≡◌, map, option_map, IfOk};
ghost use Rattle.ptk_words.specs.Faults.{errno_number};
ghost use Rattle.ptk_words_model.specs.Mutex.{is_waiting, move_reply};

pub use fault::WindowFault;
pub use instruction_laws::{entries_join, no_word_agrees_twice, rows_by_fields, steps_join};
use ptk_words::{Errno, Limits, Policy, Priority, Thread, ThreadNo, Tick};
use std::alloc::{AllocError, Global};
pub use window::Window;
pub use window_laws::{
    accepted_is_plan, end_is_of_window, end_is_one, in_force_holds, next_is_first, next_is_near,
    next_is_one, own_ticks_are_apart, window_is_whole,
};

/// The outcome of a call.
#[derive(Clone, Copy, PartialEq, Eq)]
pub enum Reply {
    /// It returned with this in a0: an error number, or 0.
    Done(u32),
    /// The caller blocks; the reply is written when it is woken.
    Blocked,
    /// The caller begins unwinding.
    Unwinding,
    /// The partition halts.
    Halted,
}

/// A call: the numbers of the partition's section, the tick at which the step begins, the calling thread and its
/// arguments.
#[derive(Clone, Copy)]
pub struct Invocation {
    /// The numbers of the partition's section.
    pub limits: Limits,
    /// The tick at which the step begins.
    pub tick: Tick,
    /// The calling thread.
    pub caller: ThreadNo,
    /// The words of a0 to a4.
    pub a0: u32,
    pub a1: u32,
    pub a2: u32,
    pub a3: u32,
    pub a4: u32,
}

/// Where the policy and the priority of a new thread come from (pthread_attr_setinheritsched).
#[derive(Clone, Copy)]
pub enum Scheduling {
    /// From its creator.
    Inherited,
    /// They are these.
    Explicit(Policy, Priority),
}

/// What the attributes of a new thread ask for (pthread_create).
#[derive(Clone, Copy)]
pub struct Creation {
    /// Its policy and priority.
    pub scheduling: Scheduling,
    /// Whether it is detached (pthread_attr_setdetachstate).
    pub is_detached: bool,
    /// The end of its stack; None for its number's own.
    pub stack_top: Option<u32>,
}

/// The thread that runs.
#[derive(Clone, Copy)]
pub struct Runner {
    /// Its number.
    pub number: ThreadNo,
    /// The thread.
    pub thread: Thread,
}

/// What the running thread's next step is.
#[derive(Clone, Copy, PartialEq, Eq)]
pub enum StepKind {
    /// The start of an unwinding.
    UnwindingStart,
    /// A step at the return gate.
    GateStep,
    /// The ECALL of this number.
    CallStep(u32),
    /// Another instruction, or a fault.
    InstructionStep,
}

/// What a thread keeps of cancellation (XSH 2.9.5).
#[derive(Clone, Copy, PartialEq, Eq)]
pub struct Cancellation {
    /// PTHREAD_CANCEL_ENABLE, and not DISABLE.
    pub is_enabled: bool,
    /// PTHREAD_CANCEL_ASYNCHRONOUS, and not DEFERRED.
    pub is_asynchronous: bool,
    /// Whether a request is pending.
    pub is_pending: bool,
    /// Whether the next step begins the thread's unwinding.
    pub is_marked: bool,
}

/// How far a thread's destructor calls are (pthread_key_create).
#[derive(Clone, Copy, PartialEq, Eq)]
pub struct Rounds {
    /// How many rounds have begun.
    pub round: u32,
    /// How many keys, from key 1 on, are passed in this round.
    pub passed: u32,
}

/// The outcome of a decision.
#[derive(Clone, Copy, PartialEq, Eq)]
pub enum Spent {
    /// A step of this many ticks.
    Step(u32),
    /// No thread was running.
    Idle,
    /// The step's cost did not fit: the rest of the window is lost.
    Lost,
}

/// The outcome of a call that locks a mutex (pthread_mutex_lock).
#[derive(Clone, Copy, PartialEq, Eq)]
pub enum LockMove {
    /// The caller owns the free mutex.
    Takes,
    /// The caller owns the free mutex, whose last owner ended, and gets EOWNERDEAD.
    Recovers,
    /// The caller's own recursive mutex counts up.
    Counts,
    /// The caller blocks as the last waiter.
    Waits,
    /// The call is refused.
    Refuses(Errno),
}

impl LockMove {
    /// Whether the caller begins a wait.
    pub fn is_waiting(self) -> bool
        ensures { result ≡ is_waiting self }
    {
        match self {
            LockMove::Waits => true,
            LockMove::Takes | LockMove::Recovers | LockMove::Counts | LockMove::Refuses(_) => false,
        }
    }

    /// What the move makes of this reply: itself, an error in its place, or none yet (pthread_mutex_lock, EOWNERDEAD,
    /// ENOTRECOVERABLE).
    #[inline(always)]
    pub fn reply_after(self, reply: Option<u32>) -> Option<u32>
        ensures { result ≡ move_reply self reply }
    {
        match self {
            LockMove::Takes | LockMove::Counts => reply,
            LockMove::Recovers => in_place_of(reply, Errno::EOWNERDEAD),
            LockMove::Waits => None,
            LockMove::Refuses(e) => in_place_of(reply, e),
        }
    }
}

/// The error number in place of the reply, if there is one.
fn in_place_of(reply: Option<u32>, e: Errno) -> Option<u32>
    ensures { result ≡ option_map (λ _. errno_number e) reply }
{
    match reply {
        Some(_) => Some(e.number()),
        None => None,
    }
}

/// The greatest number of threads of each section. An error where memory ran out.
pub fn thread_counts_of(alloc: Global, limits: &[Limits]) -> Result<Vec<u32>, AllocError>
    ensures { IfOk result (λ counts. counts.items ≡ map (λ l. l.threads) limits.now) }
{
    limits.iter().map(|l| l.threads).collect(alloc)
}
