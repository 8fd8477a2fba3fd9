#![tactic(auto)]

//! What holds of a partition's threads, line, waits, mutexes and condition variables between moves, and that the moves
//! keep it.
//!
//! - `mutex_moves_keep_syncs`, `owner_end_keeps_syncs`: lock, trylock, unlock and an owner's end leave a partition's
//!   threads, line, waits, mutexes and condition variables whole, and an ended owner owns no mutex.
//! - `waits_keep_syncs`, `wakings_keep_syncs`, `expiries_keep_syncs`: so do sleeps, timed locks, waits on condition
//!   variables, signals, broadcasts and deadlines.
//! - `expiries_one_at_a_time`: the expiries of a tick are the least due one and then those of the state after it.
//!
//! `specs/Locks` says it of the line and the mutexes, `specs/Conditions` of the other waits and of the condition
//! variables, and of all together (`AreSyncs`); `specs/Expiries` says which deadline is next. `proofs/` has the same
//! for each move of the mutexes and of the condition variables, those of the mutexes with whatever else holds of
//! threads and mutexes (`Rest` in `proofs/Held`); and what several crates above need of chains and of greatest ranks
//! (`ChainLaws`, `Greatest`). Below is `ptk_words_model`; above, `ptk_words_invariant` composes them to what holds of a
//! whole partition.

ghost use Rattle.std.specs.Prelude.{◌≡◌, ℕ, List, Option, Some};
ghost use Rattle.ptk_words_model.specs.State.{Syncs, Part};
ghost use Rattle.ptk_words_model.specs.Withdrawal.{Expiry, deadlines_of, after_expiries};
ghost use Rattle.ptk_words_sync_invariant.specs.LockLaws.{MutexMovesKeepSyncs, OwnerEndKeepsSyncs};
ghost use Rattle.ptk_words_sync_invariant.specs.SyncLaws.{WaitsKeepSyncs, WakingsKeepSyncs, ExpiriesKeepSyncs};
ghost use Rattle.ptk_words_sync_invariant.specs.Expiries.{next_expiry, IsNextExpiry, AreExpiriesInTurn, IsExpiryWhole, after_next_expiry};

/// A lock, a trylock and an unlock of the running thread keep threads, line, mutexes and condition variables whole;
/// where it waits, no thread runs.
pub fn mutex_moves_keep_syncs()
    ensures { (interval : ℕ) → (waiters : List ℕ) → (syncs : Syncs) → MutexMovesKeepSyncs interval waiters syncs }
{}

/// The end of a thread that waits for no mutex keeps threads, line, mutexes and condition variables whole, and leaves
/// it no mutex: a robust one goes to its heir, any other is nobody's.
pub fn owner_end_keeps_syncs()
    ensures { (interval : ℕ) → (waiters : List ℕ) → (syncs : Syncs) → OwnerEndKeepsSyncs interval waiters syncs }
{}

/// A sleep, a timed lock and a condition wait of the running thread keep threads, line, mutexes and condition variables
/// whole; where it waits, no thread runs.
pub fn waits_keep_syncs()
    ensures { (interval : ℕ) → (waiters : List ℕ) → (syncs : Syncs) → WaitsKeepSyncs interval waiters syncs }
{}

/// An unlock, a signal, a broadcast and the end of a thread that waits for no mutex keep threads, line, mutexes and
/// condition variables whole.
pub fn wakings_keep_syncs()
    ensures { (interval : ℕ) → (running : Option ℕ) → (waiters : List ℕ) → (syncs : Syncs) → WakingsKeepSyncs interval running waiters syncs }
{}

/// The expiries of a tick keep threads, line, mutexes and condition variables whole.
pub fn expiries_keep_syncs()
    ensures { (interval : ℕ) → (s : Part) → ExpiriesKeepSyncs interval s }
{}

/// The expiries of a tick, one at a time: the next one is the least due by (deadline, number), and after its thread's
/// timeout the others are due in the same order; so all expiries are this one's timeout and then the expiries that are
/// due, and nothing where none is due. Each timeout keeps threads, line, mutexes and condition variables whole.
pub fn expiries_one_at_a_time()
    ensures next { (tick : ℕ) → (deadlines : List (Option ℕ)) → IsNextExpiry tick deadlines (next_expiry tick deadlines) }
    ensures only { (tick : ℕ) → (deadlines : List (Option ℕ)) → (next : Option Expiry) → IsNextExpiry tick deadlines next → next ≡ next_expiry tick deadlines }
    ensures in_turn { (tick : ℕ) → (a : Expiry) → (s : Part) → next_expiry tick (deadlines_of s.locks) ≡ Some a → AreExpiriesInTurn tick a s }
    ensures whole { (interval : ℕ) → (a : Expiry) → (s : Part) → IsExpiryWhole interval a s }
    ensures step { (tick : ℕ) → (s : Part) → after_expiries tick s ≡ after_next_expiry tick (next_expiry tick (deadlines_of s.locks)) s }
{}
