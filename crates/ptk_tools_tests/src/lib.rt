#![tactic(auto)]

//! Tests of what tools say of configurations, sources, images and runs: reasons and tables of configurations, the lines
//! of faults, the assembler, the disassembler, symbols, images, instructions, traces in words, explanations, dumps and
//! trace events.
//!
//! Worked images, words, tables and lines are compared byte for byte, and faults by number and place; each call that
//! may run out of memory is made once, with ample memory. They use public names alone and are apart, so that those
//! crates are proved once and not a second time with their tests. There is no other code here, and nothing is above.

#[cfg(test)]
mod asm;
#[cfg(test)]
mod asm_emission;
#[cfg(test)]
mod asm_forms;
#[cfg(test)]
mod code;
#[cfg(test)]
mod config_places;
#[cfg(test)]
mod config_table;
#[cfg(test)]
mod decoded;
#[cfg(test)]
mod disasm;
#[cfg(test)]
mod explanations;
#[cfg(test)]
mod formats;
#[cfg(test)]
mod image;
#[cfg(test)]
mod main_faults;
#[cfg(test)]
mod symbols;
