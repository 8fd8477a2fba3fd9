//! The first place at which two lists differ.

ghost use Rattle.std.specs.Prelude.{◌≡◌, ◌↔◌, IsTrue, MatchOption};
ghost use Rattle.ptk_impact.specs.Changes.{IsFirstOther};

/// The first place at which the lists differ, one of which may end there. None if they are the same.
#[tactic(auto, using(crate::proofs::Exact::exact_rules))]
pub(crate) fn first_other<T: Copy + PartialEq>(old: &[T], new: &[T]) -> Option<usize>
    requires exact { (x y : T) → IsTrue (T.eq x y) ↔ (x ≡ y) }
    ensures { MatchOption result (old.now ≡ new.now) (IsFirstOther old.now new.now) }
{
    for place in 0..old.len().max(new.len()) {
        if old.get(place).copied() != new.get(place).copied() {
            return Some(place);
        }
    }
    None
}
