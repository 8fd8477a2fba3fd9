#![tactic(auto)]

//! What holds of a partition's whole state between moves (`IsWell`), and that every call and every decision keeps it.
//!
//! - `start_is_well`, `calls_keep_well`, `decisions_keep_well`, `stays_well`: the running thread is ready and not in
//!   the line, the line has ready threads and none twice, waits agree with waiters, joiners, mutexes and condition
//!   variables, an owner of a mutex has not ended, at the start and after every decision, whatever deadlines come.
//!
//! `specs/Well` says it: besides the line, the waits and the owners, each thread has what its end is made of
//! (cancellation, handlers within their limit, a value for each key, its rounds), and all lists have their sizes.
//! `proofs/` has the same for each move of the model, over plain variables. Below are `ptk_words_model` and
//! `ptk_words_sync_invariant`, which has the laws of pools, lines, mutexes, condition variables and deadlines
//! (`proofs/Synced` takes a whole state apart for them, and puts it together again); above, the gate's tables have
//! `IsWell` as their invariant.

ghost use Rattle.std.specs.Prelude.{ℕ, List, Option};
ghost use Rattle.ptk_words.specs.declared.sections.Arrival.{Arrival};
ghost use Rattle.ptk_words.specs.declared.sections.Limits.{Limits};
ghost use Rattle.ptk_words_model.specs.Windows.{OwnTicks};
ghost use Rattle.ptk_words_model.specs.State.{Part};
ghost use Rattle.ptk_words_invariant.specs.WellLaws.{StartIsWell, CallsKeepWell, DecisionsKeepWell, StaysWell};

/// A partition starts whole, whatever its image and input.
pub fn start_is_well()
    ensures { (limits : Limits) → (image : Option (List ℕ)) → (input : List Arrival) → StartIsWell limits image input }
{}

/// A call of the running thread, of whatever number, leaves a whole state whole.
pub fn calls_keep_well()
    ensures { (part : Part) → CallsKeepWell part }
{}

/// A decision of a partition that has not halted leaves a whole state whole.
pub fn decisions_keep_well()
    ensures { (limits : Limits) → (part : Part) → DecisionsKeepWell limits part }
{}

/// A partition alone is whole after every number of ticks.
pub fn stays_well()
    ensures { (ticks : OwnTicks) → (limits : Limits) → (image : Option (List ℕ)) → (input : List Arrival) → StaysWell ticks limits image input }
{}
