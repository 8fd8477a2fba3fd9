#![tactic(auto)]

//! The assembly language as definitions (lines, tokens, statements and their meaning, labels, faults in their order,
//! the image of a source), and the code that reads one line of it.
//!
//! - Definitions that the assembler's contracts cite: `source`, a grammar on the bytes of the text, and likewise the
//!   bytes at fault (`Places`).
//! - Ten worked sources that they compute: `hello_source`, `load_address`, `li_4095` and seven faults with their bytes.
//! - `split_line`, `without_ending`, `without_comment` and `tokens_of` are what the definitions say of the same bytes.
//! - `tokens_of` says which bytes of the line each token has (`spots`), or those of the first piece that is no token
//!   (`placed`), a character outside the language whole.
//! - `digit`, `is_number`, `magnitude`, `value_within` and `is_short` are one equation each with the grammar.
//! - `form_named`, `stands_in`, `slots_of`, `size_of` and `distances` are one equation each with the definitions.
//! - `operands_of` returns the operands that the tokens of a line give, or the first fault among them from left to
//!   right with its place.
//!
//! The definitions are computed by structural recursion. The code shares nothing with them but the plain types:
//! sections, forms, places of operands, tokens and faults; the functions without code in `rows` are the worked sources.
//! Below are `ptk_words` (images) and `ptk_rv32i_code` (instructions); `ptk_asm` and `ptk_disasm` are
//! above. Costly to prove are the pieces of a line (`Pieces`, `PlaceList`), which the definition joins from the back
//! and the code scans from the front; that a number is kept at 2^40 at most, above every bound (`Magnitudes`); and the
//! tables of names (`mnemonics`, `registers`), one match a table.

mod characters;
mod fault;
mod forms;
mod lines;
mod mnemonics;
mod numbers;
mod operands;
mod place;
mod registers;
mod rows;
mod scanner;
mod slots;
mod statement;
mod token;

pub use fault::{FaultKind, LineFault};
pub use forms::{distances, is_even, is_within, size_of, stands_in};
pub use lines::{split_line, without_comment, without_ending};
pub use mnemonics::form_named;
pub use numbers::{digit, is_number, is_short, magnitude, value_within};
pub use operands::{Operands, Value, operands_of};
pub use place::{Extent, Lengths, Place, Span};
pub use registers::register_named;
pub use rows::{
    doubled_label, hello_source, li_4095, load_address, lone_dash, misplaced_word, missing_operand,
    operand_out_of_range, unknown_label, unknown_label_after,
};
pub use scanner::tokens_of;
pub use slots::slots_of;
pub use statement::{Form, Section, Slot};
pub use token::{Spanned, Token};
