#![tactic(auto)]

//! The configuration reader: from a TOML text the sections and the plan of windows that it states, or the first fault
//! in the order of the checks.
//!
//! - `read_config` returns the configuration that the text states (`configuration_in`), or the first fault in the order
//!   of checks, unless memory runs out. That fault is never that the numbers of plans do not rise (window fault 7).
//! - Fault 1 only for text that the crate `toml` refuses, integers beyond 64 bits too.
//! - `first_refusal` returns a place if and only if the text is refused, with the fault of `read_config`. It is the same
//!   walk; which place it is is tested.
//! - The sections and the plan of a `Config` are within their ranges (its invariant).
//!
//! Costly to prove is `read_config`, over the whole text; its clause `text` uses which faults a document can have
//! (`proofs/Faults`). Below are `ptk_words`, `ptk_words_model`, `ptk_window` and the crate `toml`; above is the
//! system.

mod config;
mod fault;
mod input;
mod place;
mod reading;
mod section;
mod stage;
mod window;
mod window_place;

pub use config::{Config, first_refusal, read_config};

/// The ranges of a document's numbers, its keys and the values at them, for the crate that says a refusal in words.
pub mod parts {
    pub use crate::config::{FRAME_FROM, FRAME_TO, PARTITIONS_TO};
    pub use crate::input::INPUT_TO;
    pub use crate::reading::{is_among, value_at};
    pub use crate::section::{
        CONDITIONS_TO, INTERVAL_TO, KEYS, KEYS_TO, MEMORY_FROM, MEMORY_TO, MUTEXES_TO, OUTPUT_TO,
        RING_TO, STACK_FROM, STACK_TO, THREADS_TO, TRACE_TO,
    };
    pub use crate::stage::{LAST_FROM, PLANS_TO};
    pub use crate::window::{LENGTH_TO, START_TO, WINDOWS_TO};
}

pub use fault::ConfigFault;
pub use place::{Key, Place, Refusal, TablePlace};
pub use section::Section;
pub use window::place_named;
