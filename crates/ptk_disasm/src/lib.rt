#![tactic(auto)]

//! The disassembler, and the symbol tables from which its comments have names: `disassemble` returns the source of an
//! image, `disassemble_with` the same with names in its comments, `read_symbols` the table in a text that `nm` prints.
//!
//! - `disassemble`, and with the names of symbols in comments `disassemble_with`: `Ok` is the definition's text
//!   (`Disassembly`), which the assembler's definition `source` reads as the same image (`same`).
//! - An error is the first section that is too long, or out of memory.
//! - `assembled_again` assembles it: the same image.
//! - `images_read_back` is the law over all images that fit, whatever the comments call an address, `numbers_read_back`
//!   that of spelled numbers.
//! - `read_symbols` returns the table of the text (`Tables`), or the number of the first line that is not a symbol.
//!   `nearest` is the symbol that begins last at or below an address, the first of the text among equals, with the
//!   distance; `push_name` and `push_place` append its text; `text_in` is a name, if it is UTF-8.
//!
//! A table is put in order of addresses when it is read, so that a symbol is found by binary search.
//! The definition of the source is in `specs/Disassembly`. The weight of the proofs is in `images_read_back`: a
//! statement's text follows the slots that the assembler reads it by, so one induction over slots proves all forms.
//! Below are `ptk_image` and the assembler with its parts; above are the decoded trace, the tools and the program.

mod again;
mod disassembly;
mod fault;
mod instructions;
mod laws;
mod lines;
mod naming;
mod statements;
mod symbol_lines;
mod symbols;
mod table;
mod targets;

pub use again::assembled_again;
pub use disassembly::{disassemble, disassemble_with};
pub use fault::{DisasmFault, SymbolFault};
pub use instructions::{BRANCH_BITS, IMMEDIATE_BITS, JUMP_BITS, push_word_statement};
pub use laws::{images_read_back, numbers_read_back};
pub use lines::push_target;
pub use naming::register_name;
pub use symbol_lines::Symbol;
pub use symbols::{Located, Symbols, text_in};
pub use table::read_symbols;
pub use targets::{address_at, target_of};
