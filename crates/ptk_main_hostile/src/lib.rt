#![tactic(auto)]

//! Hostile use, as tests: images, configurations and sources that are cut and changed at each byte, guests that misuse
//! the machine and its calls, calls that are refused memory, and neighbours that storm.
//!
//! There is no other code here. Below are the assembler (`ptk_asm`), images (`ptk_image`), configurations
//! (`ptk_config`) and `ptk_main_guests`, which carries out the runs; nothing is above.

#[cfg(test)]
mod tests;
