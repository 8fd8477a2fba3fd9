//! Laws of quiet partitions: plain steps and quiet calls in a row, and ticks at which nothing is to do.

ghost use Rattle.std.specs.Prelude.{ℕ, List, Option};
ghost use Rattle.ptk_words.specs.declared.sections.Arrival.{Arrival};
ghost use Rattle.ptk_words.specs.declared.sections.Limits.{Limits};
ghost use Rattle.ptk_words.specs.declared.threads.Thread.{Thread};
ghost use Rattle.ptk_words_model.specs.Windows.{OwnTicks, WindowPlan};
ghost use Rattle.ptk_words_model.specs.State.{Console, Part, State};
ghost use Rattle.ptk_words.specs.Processor.{Processor};
ghost use Rattle.ptk_words_laws.specs.IdleLaws.{IdleIsDecided, IdleIsTicks};
ghost use Rattle.ptk_words_laws.specs.QuietLaws.{PlainIsDecided, RowStaysQuiet, RowKeepsPriorities, RowKeepsWell, RowIsTicks, NoneComesBefore, RowsJoin, OthersStay, AloneGoesOn, WindowIsOwn};
ghost use Rattle.ptk_words_laws.specs.Prepared.{PreparedGoesOn, QuietIsPrepared};
ghost use Rattle.ptk_words_laws.specs.Replies.{Outcome, ReplyIsDecided, ReplyStaysQuiet};

/// A plain step is the decision of a quiet state.
pub fn plain_is_decided()
    ensures { (ticks : OwnTicks) → (limits : Limits) → (tick stop room t : ℕ) → (thread : Thread) → (s : State) → PlainIsDecided ticks limits tick stop room t thread s }
{}

/// Plain steps leave a quiet state quiet.
pub fn row_stays_quiet()
    ensures { (limits : Limits) → (tick stop t n : ℕ) → (thread : Thread) → (s : Part) → RowStaysQuiet limits tick stop t n thread s }
{}

/// Plain steps change no effective priority.
pub fn row_keeps_priorities()
    ensures { (tick t n : ℕ) → (thread : Thread) → (s : Part) → RowKeepsPriorities tick t n thread s }
{}

/// Plain steps leave a whole state whole.
pub fn row_keeps_well()
    ensures { (limits : Limits) → (tick stop t n : ℕ) → (thread : Thread) → (s : Part) → RowKeepsWell limits tick stop t n thread s }
{}

/// Plain steps in a row are as many ticks.
pub fn row_is_ticks()
    ensures { (ticks : OwnTicks) → (limits : Limits) → (tick stop t n : ℕ) → (thread : Thread) → (s : State) → RowIsTicks ticks limits tick stop t n thread s }
{}

/// Where the first input still to come has a tick or a later one, none comes before.
pub fn none_comes_before()
    ensures { (stop : ℕ) → (console : Console) → NoneComesBefore stop console }
{}

/// Ticks in a row are those of a first part, and then the rest.
pub fn rows_join()
    ensures { (ticks : OwnTicks) → (limits : Limits) → (tick n m : ℕ) → (s : State) → RowsJoin ticks limits tick n m s }
{}

/// Ticks that are not a partition's own leave its state.
pub fn others_stay()
    ensures { (ticks : OwnTicks) → (limits : Limits) → (tick n : ℕ) → (s : State) → OthersStay ticks limits tick n s }
{}

/// A partition alone goes on by ticks in a row.
pub fn alone_goes_on()
    ensures { (ticks : OwnTicks) → (limits : Limits) → (image : Option (List ℕ)) → (input : List Arrival) → (m n : ℕ) → AloneGoesOn ticks limits image input m n }
{}

/// In a window of a partition each tick up to its end is the partition's own.
pub fn window_is_own()
    ensures { (plan : WindowPlan) → (p tick end : ℕ) → WindowIsOwn plan p tick end }
{}

/// The arrivals, the expiries and the choice of a tick change nothing of a quiet partition.
pub fn quiet_is_prepared()
    ensures { (limits : Limits) → (tick stop t : ℕ) → (thread : Thread) → (s : Part) → QuietIsPrepared limits tick stop t thread s }
{}

/// Ticks that begin with a decision are the same from the state that is prepared for it.
pub fn prepared_goes_on()
    ensures { (ticks : OwnTicks) → (limits : Limits) → (tick end n : ℕ) → (s : State) → PreparedGoesOn ticks limits tick end n s }
{}

/// The decision of an idle partition changes nothing.
pub fn idle_is_decided()
    ensures { (limits : Limits) → (tick stop room : ℕ) → (s : Part) → IdleIsDecided limits tick stop room s }
{}

/// Ticks in a row change nothing of an idle partition but the tick of its next decision.
pub fn idle_is_ticks()
    ensures { (plan : WindowPlan) → (p : ℕ) → (limits : Limits) → (tick stop n : ℕ) → (s : State) → IdleIsTicks plan p limits tick stop n s }
{}

/// A quiet call is the decision of a quiet partition.
pub fn reply_is_decided()
    ensures { (limits : Limits) → (tick stop room t ticks : ℕ) → (thread : Thread) → (after : Processor) → (o : Outcome) → (s : Part) → ReplyIsDecided limits tick stop room t ticks thread after o s }
{}

/// A quiet call leaves a quiet partition quiet.
pub fn reply_stays_quiet()
    ensures { (limits : Limits) → (tick stop t ticks : ℕ) → (thread : Thread) → (after : Processor) → (o : Outcome) → (s : Part) → ReplyStaysQuiet limits tick stop t ticks thread after o s }
{}
