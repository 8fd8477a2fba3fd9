#![tactic(auto)]

//! All calls but those on mutexes and condition variables, the next move of an unwinding thread (a handler, a
//! destructor or its end), the choice of the running thread, the input that arrives and the deadlines that expire,
//! composed of moves.
//!
//! - One equation over the pools each: calls 10, 12, 13 and 15 to 18 (`create`, `join`, `detach`, `yield_turn`,
//!   `setschedparam`, `getschedparam`, `setschedprio`), the step at the return gate with a thread's end, which gives up
//!   its mutexes first (`step_at_gate`), and the choice of the running thread (`choose`).
//! - Calls 1 and 2 (`put`, `get`), and the input that arrives by a tick (`arrive_due`).
//! - Calls 3 and 4 (`clock_gettime`, `clock_nanosleep`), and the deadlines that have come by a tick, in their order,
//!   each in the state that the one before left (`expire_due`).
//! - Calls 40 to 45 (`cancel`, `setcancelstate`, `setcanceltype`, `testcancel`, `cleanup_push`, `cleanup_pop`): a
//!   request that acts takes a thread out of its wait at a cancellation point with no reply, and a waiter of a
//!   condition variable locks its mutex again first.
//! - Calls 50 to 53 (`key_create`, `key_delete`, `setspecific`, `getspecific`).
//!
//! A call that takes several words decodes them first, into what it asks for or the error that refuses it, and one
//! function then carries that out. A byte that arrives goes to the first waiter, or into the ring, or is lost. A word
//! that is no key in use can be neither deleted nor set, and its value is 0. Below are the pools and their moves; above
//! are the gate's tables. Costly to prove are the compositions, each of which changes several components of a whole
//! state, `arrive_due` and `expire_due`, whose loops take one by one what the model takes at once, and `cancel`: a
//! thread that is taken out of its wait is in use and not in the line.

mod arrivals;
mod attributes;
mod choices;
mod cleanups;
mod clock_calls;
mod console_calls;
mod creates;
mod ends;
mod expiries;
mod joins;
mod keys;
mod places;
mod requests;
mod scheduling_calls;
mod states;
mod thread_calls;
mod unwinding;
mod values;
mod withdrawal;

pub use arrivals::arrive_due;
pub use choices::choose;
pub use cleanups::{cleanup_pop, cleanup_push};
pub use clock_calls::{clock_gettime, clock_nanosleep};
pub use console_calls::{get, put};
pub use creates::create;
pub use expiries::expire_due;
pub use joins::join;
pub use keys::{key_create, key_delete};
pub use places::yield_turn;
pub use ptk_gate_moves::{
    begin, count_interval, exit, halt, leave, own_number, refuse, start_unwinding,
};
pub use requests::cancel;
pub use scheduling_calls::{setschedparam, setschedprio};
pub use states::{setcancelstate, setcanceltype, testcancel};
pub use thread_calls::{detach, getschedparam};
pub use unwinding::step_at_gate;
pub use values::{getspecific, setspecific};
