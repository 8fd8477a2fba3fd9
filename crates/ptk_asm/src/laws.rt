//! What holds of every source: laws of its definition.

ghost use Rattle.std.specs.Prelude.{ℕ, List};
ghost use Rattle.ptk_asm.specs.Laws.{TextsAreWhole, LengthsAreCounted, StatementsStand};

/// The text of a source without a fault is whole words, and its entry is the offset of one of them, or the text's end.
pub fn texts_are_whole()
    ensures { (text : List ℕ) → TextsAreWhole text }
{}

/// Each section of a source has as many bytes as the first pass counts.
pub fn lengths_are_counted()
    ensures { (text : List ℕ) → LengthsAreCounted text }
{}

/// The bytes of each statement stand at its offset in its section.
pub fn statements_stand()
    ensures { (text : List ℕ) → StatementsStand text }
{}
