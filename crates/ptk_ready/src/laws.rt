//! What holds of marks and queues, as contracts of functions without code.

ghost use Rattle.std.specs.Prelude.{◌≡◌, ◌↔◌, ℕ, ℤ, ◌≤◌, true, false, List, length, Some, None};
ghost use Rattle.ptk_words.specs.Pools.{is_in};
ghost use Rattle.ptk_threads.specs.declared.link.Ends.{Ends};
ghost use Rattle.ptk_threads.specs.declared.link.Link.{Link};
ghost use Rattle.ptk_threads.specs.Links.{mark_of, queue_at, queues, AreQueues};
ghost use Rattle.ptk_ready.specs.declared.stamps.StampRange.{StampRange};
ghost use Rattle.ptk_ready.specs.Entries.{entries, is_ready, IsSound};
ghost use Rattle.ptk_ready.specs.Lines.{line_of, IsFiled};

/// A thread is in a queue's list if and only if its slot is marked with that queue, in none if and only if its slot has
/// no mark, and in the line if and only if it is marked as ready.
pub fn marks_tell_queues()
    ensures queued { (links : List Link) (ends : List Ends) (k i : ℕ) → AreQueues links ends
        → ((is_in k (queue_at links ends i) ≡ true) ↔ (mark_of links k ≡ Some i)) }
    ensures free { (links : List Link) (ends : List Ends) (k : ℕ) → AreQueues links ends
        → (((i : ℕ) → is_in k (queue_at links ends i) ≡ false) ↔ (mark_of links k ≡ None)) }
    ensures ready { (links : List Link) (stamps : List ℤ) (k : ℕ) → is_in k (entries links stamps) ≡ is_ready links k }
{}

/// The queues' lists alone determine the line and its soundness: whatever links lead along the same lists, both
/// are the same.
pub fn lists_tell_line()
    ensures line { (links : List Link) (ends : List Ends) (stamps : List ℤ) → AreQueues links ends → length links ≤ 32
        → entries links stamps ≡ line_of (queues links ends) stamps }
    ensures sound { (limit : ℕ) (range : StampRange) (links : List Link) (ends : List Ends) (stored : List ℕ) (stamps : List ℤ) (bitmap : ℕ)
        → AreQueues links ends → length links ≤ 32
        → (IsSound limit range links ends stored stamps bitmap ↔ IsFiled limit range (queues links ends) stored stamps bitmap) }
{}
