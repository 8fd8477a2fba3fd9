//! Where the inputs of two partitions differ.

ghost use Rattle.std.specs.Prelude.{◌≡◌, MatchOption};
ghost use Rattle.ptk_impact.specs.Changes.{IsInputChange};

use crate::lists::first_other;
use ptk_words::Arrival;

/// The first place in the input at which the arrivals differ, with both, None past the last.
#[derive(Clone, Copy)]
pub struct InputChange {
    /// The place, from 0.
    pub place: usize,
    /// The old arrival.
    pub old: Option<Arrival>,
    /// The new arrival.
    pub new: Option<Arrival>,
}

impl InputChange {
    /// Where the arrivals first differ. None if they are the same.
    pub(crate) fn between(old: &[Arrival], new: &[Arrival]) -> Option<InputChange>
        ensures { MatchOption result (old.now ≡ new.now) (IsInputChange old.now new.now) }
    {
        let place = first_other(old, new)?;
        Some(InputChange {
            place,
            old: old.get(place).copied(),
            new: new.get(place).copied(),
        })
    }
}
