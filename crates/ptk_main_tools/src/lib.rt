#![tactic(auto)]

//! Why the program stops, with its lines and exit statuses; the reading and writing of its files; and what it does if
//! no run is asked for: `asm` and `disasm`.
//!
//! - `Fault::of_config`, `of_image` and `of_asm` return the fault that each refusal has; out of memory is one fault of
//!   its own. `Fault::status` and `ExitStatus::number` are the table of statuses.
//! - `tell` and `end` return the status of a fault and of an outcome, which is never that of a usage error.
//! - `put_bytes` fails only with `WriteFailed`.
//!
//! The texts of lines, and what is read and written, are tested. Clauses of callers compare faults by `told` of
//! `specs/`, which keeps of a name its text alone. Below are the command line (`ptk_main_line`), the configuration
//! (`ptk_config`), the assembler (`ptk_asm`), the disassembler and tables of symbols (`ptk_disasm`);
//! above are the answers to requests over a configuration and the program.

mod assembling;
mod disassembling;
mod fault;
mod files;
mod places;
mod reading;
mod status;
mod telling;

pub use assembling::asm;
pub use disassembling::{disasm, disasm_file};
pub use fault::{Fault, fault_line, put_bytes};
pub use places::put_place;
pub use ptk_image::Files;
pub use ptk_main_line::FailureKind;
pub use reading::{
    bytes_in, config_in, config_of, images_of, symbols_of, symbols_text_in, text_in,
};
pub use status::ExitStatus;
pub use telling::{end, end_flushed, flushed, put_reason, tell, tell_read, unread, usage};
