#![tactic(auto)]

//! Tests of the program: the bytes that its requests write, and what its command lines do with real files.
//!
//! - The bytes are those of the public calls of `ptk_main_answers`, `ptk_impact_answers` and `ptk_statistics`.
//! - Of a command line (`ptk_main_commands`) it is the status, the fault itself if several share a status, and the
//!   files that `asm` and `disasm` write.
//!
//! They use public names alone and are apart, so that those crates and the program are proved once and not a second
//! time with their tests. There is no other code here, and nothing is above.

#[cfg(test)]
mod answers;
#[cfg(test)]
mod commands;
#[cfg(test)]
mod impacts;
#[cfg(test)]
mod parts;
#[cfg(test)]
mod statistics;
