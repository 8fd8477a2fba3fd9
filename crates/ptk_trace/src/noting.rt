//! Steps that are noted where a trace keeps them.

ghost use Rattle.std.specs.Prelude.{ℕ, ◌≤◌, List, length, take};
ghost use Rattle.ptk_words.specs.declared.sections.Entry.{Entry};

use ptk_words::Entry;

/// Steps that a trace is to keep, in order.
pub trait Noting {
    /// Which may be noted.
    ghost can_note: { Self → Type 0 };

    /// What they were before, how many were noted, their entries, and what they are then.
    ghost has_noted: { Self → ℕ → List Entry → Self → Type 0 };

    /// Writes the entries of steps into the first places of this room, which is of 64 at least; how many.
    fn note(&mut self, room: &mut [Entry]) -> usize
        requires ready { can_note self.old }
        requires room { 64 ≤ length room.old }
        ensures few { result ≤ length room.old }
        ensures noted { has_noted self.old result (take result room.new) self.new };
}
