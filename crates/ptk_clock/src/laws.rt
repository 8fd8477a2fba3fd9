//! Deadlines by slot, and times as a guest's words.

ghost use Rattle.std.specs.Prelude.{◌≡◌, ℕ, ◌+◌, ◌-◌, ◌<◌, ◌≤◌, ◌^◌, ◌⊎◌, false, List, [], length, replicate, Some, None, option_map, slice_set};
ghost use Rattle.ptk_words.specs.Pools.{pool_get, is_in};
ghost use Rattle.ptk_words_sync_invariant.specs.Expiries.{next_expiry};
ghost use Rattle.ptk_clock.specs.Pairs.{Pair, slots_of, AreInOrder, with_pair, without_slot, least_due};
ghost use Rattle.ptk_clock.specs.BySlot.{deadlines_from, expiry_from};
ghost use Rattle.ptk_clock.specs.Ticks.{tick_of, seconds_of_words, tick_of_words};

/// A partition sees an entry for each of its slots: none has a deadline where there is no pair, and a slot whose entry
/// has none has no pair.
pub fn listed_by_slot()
    ensures count { (first n : ℕ) (pairs : List Pair) → length (deadlines_from first n pairs) ≡ n }
    ensures empty { (first n : ℕ) → deadlines_from first n [] ≡ replicate n None }
    ensures free { (first n slot : ℕ) (pairs : List Pair) → first ≤ slot → slot < first + n
        → pool_get (deadlines_from first n pairs) (slot - first + 1) ≡ None → is_in slot (slots_of pairs) ≡ false }
{}

/// One more pair sets its slot's deadline among those of its partition's slots, and changes no other partition's.
pub fn added_by_slot()
    ensures own { (first n deadline slot : ℕ) (pairs : List Pair) → is_in slot (slots_of pairs) ≡ false → first ≤ slot → slot < first + n
        → deadlines_from first n (with_pair (deadline, slot) pairs) ≡ slice_set (deadlines_from first n pairs) (slot - first) (Some deadline) }
    ensures others { (first n deadline slot : ℕ) (pairs : List Pair) → is_in slot (slots_of pairs) ≡ false → (slot < first) ⊎ (first + n ≤ slot)
        → deadlines_from first n (with_pair (deadline, slot) pairs) ≡ deadlines_from first n pairs }
{}

/// A pair that leaves takes its slot's deadline away among those of its partition's slots, and changes no other
/// partition's.
pub fn removed_by_slot()
    ensures own { (first n slot : ℕ) (pairs : List Pair) → first ≤ slot → slot < first + n
        → deadlines_from first n (without_slot slot pairs) ≡ slice_set (deadlines_from first n pairs) (slot - first) None }
    ensures others { (first n slot : ℕ) (pairs : List Pair) → (slot < first) ⊎ (first + n ≤ slot)
        → deadlines_from first n (without_slot slot pairs) ≡ deadlines_from first n pairs }
{}

/// Of pairs in order, the least due one of a partition's slots is the partition's next expiry by thread number.
pub fn due_by_slot()
    ensures { (first last n now : ℕ) (pairs : List Pair) → AreInOrder pairs → last + 1 ≡ first + n
        → option_map (expiry_from first) (least_due first last now pairs) ≡ next_expiry now (deadlines_from first n pairs) }
{}

/// The tick of a time whose seconds are two words, low and high, one signed number.
#[tactic(auto, using(crate::proofs::Signs::signs))]
pub fn words_are_signed()
    ensures { (low high nanoseconds : ℕ) → low < 2 ^ 32 → high < 2 ^ 32
        → tick_of (seconds_of_words low high) nanoseconds ≡ tick_of_words low high nanoseconds }
{}
