//! Laws of the instruction table and of plain steps in a row.

ghost use Rattle.ptk_words_model.specs.RowLaws.{NoWordAgreesTwice, RowsByFields};
ghost use Rattle.ptk_words_model.specs.PlainLaws.{StepsJoin, EntriesJoin};

/// No word agrees with two rows of the instruction table (RISC-V 24).
pub fn no_word_agrees_twice()
    ensures { NoWordAgreesTwice }
{}

/// A word has the same row by its fields as by mask and match, or none in both (RISC-V 2.2, 24).
#[tactic(auto, using(crate::proofs::FieldRows::same_row))]
pub fn rows_by_fields()
    ensures { RowsByFields }
{}

/// Plain steps in a row are those of a first part, and then the rest.
#[tactic(auto, using(crate::proofs::PlainJoins::steps_joined))]
pub fn steps_join()
    ensures { StepsJoin }
{}

/// So are their trace entries.
#[tactic(auto, using(crate::proofs::PlainJoins::entries_joined))]
pub fn entries_join()
    ensures { EntriesJoin }
{}
