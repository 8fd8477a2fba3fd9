#![tactic(auto)]

//! The assembler's two passes: `assemble` returns the image of a source, or its first fault with its line and the bytes
//! at fault, and `label_table` the labels as a symbol table.
//!
//! - `assemble`: `Ok` is the definition's image (`image`), and the words of each statement of it that is not a
//!   directive decode to the instructions written (`words`).
//! - An error for another cause than memory is the source's first fault, with its line and its exact bytes (`fault`:
//!   `Tells`).
//! - `label_table`: `Ok` has a line for each label of the source and no other, by address and then by name (`table`:
//!   `IsLabelTable`); an error is the first fault of the first pass (`fault`).
//! - `instructions_of` and `push_statement` are one equation each with the definitions, for any registers and any
//!   number: `push_statement` appends exactly the bytes that a statement means (`bytes`), and the words of a statement
//!   that is not a directive decode to its instructions (`words`).
//! - Laws of every source: `texts_are_whole`, `lengths_are_counted`, `statements_stand` (each statement's bytes are at
//!   its offset).
//!
//! The first pass goes over the text line by line and keeps a `Layout`, which the contracts see as the state that the
//! definition reaches behind the same lines (`Shows`); the second pass resolves labels and writes the bytes. The weight
//! of the proofs is in the tie of a line's step to that state (`States`, `Texts`), to the token at fault (`Spots`), in
//! the fields of instructions (`fields`), and in two inductions over the lines before a line (`Whole`, `Lengths`).
//! Below are `ptk_asm_language` and `ptk_image`; above is the program.

mod assembling;
mod emission;
mod fault;
mod fields;
mod first_pass;
mod instructions;
mod labels;
mod laws;
mod layout;
mod placed;
mod references;
mod second_pass;
mod statements;
mod symbols;

pub use assembling::assemble;
pub use emission::push_statement;
pub use fault::AsmFault;
pub use instructions::{Instructions, instructions_of};
pub use laws::{lengths_are_counted, statements_stand, texts_are_whole};
pub use ptk_asm_language::FaultKind;
pub use symbols::label_table;
