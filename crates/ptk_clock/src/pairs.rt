//! One pair against another, and the first of some slots' pairs.

ghost use Rattle.std.specs.Prelude.{◌≡◌};
ghost use Rattle.ptk_clock.specs.Pairs.{is_before, is_among, least_among};

use ptk_words::{SlotNo, Tick};

/// Whether a pair is before another, by deadline and then slot.
pub fn is_before(a: (Tick, SlotNo), b: (Tick, SlotNo)) -> bool
    ensures { result ≡ is_before a b }
{
    let deadline = a.0.ticks();
    let other = b.0.ticks();
    deadline < other || (deadline == other && a.1.index() < b.1.index())
}

/// Whether a pair is of a slot from the first to the last.
pub fn is_among(pair: (Tick, SlotNo), first: SlotNo, last: SlotNo) -> bool
    ensures { result ≡ is_among first last pair }
{
    first.index() <= pair.1.index() && pair.1.index() <= last.index()
}

/// The first pair of a slot from the first to the last, which is the least of pairs in order.
pub fn least_among(pairs: &[(Tick, SlotNo)], first: SlotNo, last: SlotNo) -> Option<(Tick, SlotNo)>
    ensures { result ≡ least_among first last pairs.now }
{
    pairs
        .iter()
        .copied()
        .find(|pair| is_among(*pair, first, last))
}
