//! The trait of all forms.

ghost use Rattle.std.specs.Prelude.{◌≡◌, ℕ, ◌+◌, ◌<◌, false, List, IfSome, option_map};
ghost use Rattle.ptk_words.specs.Pools.{is_in};
ghost use Rattle.ptk_words_sync_invariant.specs.Expiries.{next_expiry};
ghost use Rattle.ptk_clock.specs.BySlot.{deadlines_from, expiry_from};
ghost use Rattle.ptk_clock.specs.Pairs.{Pair, slots_of, with_pair, without_slot, without_taken, is_due, is_among, least_due, least_among, IsLeast};

use ptk_words::{SlotNo, Tick};

/// Pairs of a deadline and a slot in order, by deadline and then slot; of each slot at most one.
pub trait Deadlines {
    /// The pairs, in order.
    ghost pairs: { Self → List Pair };

    /// For how many slots it was made.
    ghost slots: { Self → ℕ };

    /// A slot that it was made for and that has no pair gets one.
    fn add(&mut self, deadline: Tick, slot: SlotNo)
        requires made_for { slot < slots self.old }
        requires fresh { is_in slot (slots_of (pairs self.old)) ≡ false }
        ensures pairs { pairs self.new ≡ with_pair (deadline, slot) (pairs self.old) }
        ensures slots { slots self.new ≡ slots self.old };

    /// The pair of a slot leaves; nothing changes where it has none.
    fn remove(&mut self, slot: SlotNo)
        ensures pairs { pairs self.new ≡ without_slot slot (pairs self.old) }
        ensures slots { slots self.new ≡ slots self.old };

    /// The least pair among the slots from the first to the last whose deadline is at most now; None where none is due.
    /// Where the slots are those of a partition's n threads, it is their next expiry.
    fn due(&self, first: SlotNo, last: SlotNo, now: Tick) -> Option<(Tick, SlotNo)>
        ensures due { result ≡ least_due first last now (pairs self.now) }
        ensures least { IfSome result (IsLeast (is_due first last now) (pairs self.now)) }
        ensures next { (n : ℕ) → last + 1 ≡ first + n → option_map (expiry_from first) result ≡ next_expiry now (deadlines_from first n (pairs self.now)) };

    /// Takes out the least pair among the slots from the first to the last whose deadline is at most now, and returns
    /// it. `None` if none is due; then nothing changes. If the slots are those of a partition's n threads, it is their
    /// next expiry.
    fn take_due(&mut self, first: SlotNo, last: SlotNo, now: Tick) -> Option<(Tick, SlotNo)>
        ensures due { result ≡ least_due first last now (pairs self.old) }
        ensures pairs { pairs self.new ≡ without_taken result (pairs self.old) }
        ensures slots { slots self.new ≡ slots self.old }
        ensures least { IfSome result (IsLeast (is_due first last now) (pairs self.old)) }
        ensures next { (n : ℕ) → last + 1 ≡ first + n → option_map (expiry_from first) result ≡ next_expiry now (deadlines_from first n (pairs self.old)) };

    /// The least deadline among the slots from the first to the last, None where none of them has one.
    fn least(&self, first: SlotNo, last: SlotNo) -> Option<Tick>
        ensures value { result ≡ option_map (λ pair. pair.0) (least_among first last (pairs self.now)) }
        ensures least { IfSome (least_among first last (pairs self.now)) (IsLeast (is_among first last) (pairs self.now)) };
}
