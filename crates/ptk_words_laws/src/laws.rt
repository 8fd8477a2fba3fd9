//! What holds of every state.

ghost use Rattle.std.specs.Prelude.{ℕ, List, Option};
ghost use Rattle.ptk_words.specs.declared.threads.Thread.{Thread};
ghost use Rattle.ptk_words.specs.declared.sections.Arrival.{Arrival};
ghost use Rattle.ptk_words.specs.declared.sections.Limits.{Limits};
ghost use Rattle.ptk_words_model.specs.Windows.{OwnTicks};
ghost use Rattle.ptk_words_model.specs.State.{Mutex, Console, Part};
ghost use Rattle.ptk_words_model.specs.Withdrawal.{Expiry};
ghost use Rattle.ptk_words_laws.specs.Laws.{CostsAreSmall, CallsAreNumbered, ChainIsDecided, PriorityIsGreatest, ArrivalsAreDue, IsInOrder};
ghost use Rattle.ptk_words_laws.specs.Callers.{CallsKeepCallers, StepsKeepCallers, StepsRunNoOthers};
ghost use Rattle.ptk_words_laws.specs.Others.{CallsLeaveOthers, DecisionsLeaveOthers, StepsLeaveOthers};
ghost use Rattle.ptk_words_laws.specs.Sizes.{StartIsSized, CallsKeepSizes, DecisionsKeepSizes, SizesStay};

/// Every number costs 1 to 16 ticks, and the greatest cost is 16.
pub fn costs_are_small()
    ensures { CostsAreSmall }
{}

/// Every call stands in the list of calls, is the call of its own number and of no other, and is answered by its row.
pub fn calls_are_numbered()
    ensures { CallsAreNumbered }
{}

/// As many steps as there are numbers of threads decide whether a chain leads from one thread to another, on a cycle
/// too.
pub fn chain_is_decided()
    ensures { (threads : List (Option Thread)) → (mutexes : List (Option Mutex)) → ChainIsDecided threads mutexes }
{}

/// The effective priority, as the definitions compute it, is the maximum over all threads: the greatest held priority
/// of the threads in use whose chain leads to the thread, each chain followed over any number of steps.
pub fn priority_is_greatest()
    ensures { (threads : List (Option Thread)) → (mutexes : List (Option Mutex)) → PriorityIsGreatest threads mutexes }
{}

/// Where the ticks of the input never fall, the input due by a tick is what arrives by it, and the rest stays to come.
pub fn arrivals_are_due()
    ensures { (console : Console) → ArrivalsAreDue console }
{}

/// The expiries of a tick are taken in the order of their deadlines, then of the threads' numbers, each once.
pub fn expiries_are_in_order()
    ensures { (expiries : List Expiry) → IsInOrder expiries }
{}

/// A partition starts with the sizes of its section, whatever its image and input.
pub fn start_is_sized()
    ensures { (limits : Limits) → (image : Option (List ℕ)) → (input : List Arrival) → StartIsSized limits image input }
{}

/// Every call leaves each part of the state as long as it was, and the ring and the output within their limits.
pub fn calls_keep_sizes()
    ensures { (part : Part) → CallsKeepSizes part }
{}

/// Every decision leaves each part of the state as long as it was, and the ring and the output within their limits.
pub fn decisions_keep_sizes()
    ensures { (limits : Limits) → (part : Part) → DecisionsKeepSizes limits part }
{}

/// After every number of ticks each part of a partition has the size that its section gives it.
pub fn sizes_stay()
    ensures { (ticks : OwnTicks) → (limits : Limits) → (image : Option (List ℕ)) → (input : List Arrival) → SizesStay ticks limits image input }
{}

/// A call that does not act on others leaves each thread but its caller with the wait and the phase that it had.
pub fn calls_leave_others()
    ensures { (part : Part) → CallsLeaveOthers part }
{}

/// An instruction leaves each thread but the one that makes it with the wait and the phase that it had, unless it is
/// the ECALL of a call that acts on others.
pub fn steps_leave_others()
    ensures { (part : Part) → StepsLeaveOthers part }
{}

/// A decision at a tick by which no input arrives and no deadline expires leaves each thread but the one that runs then
/// with the wait and the phase that it had, unless that one's step acts on others.
pub fn decisions_leave_others()
    ensures { (part : Part) → DecisionsLeaveOthers part }
{}

/// A call leaves its caller what is in a7, unless its number is freed, and no other thread runs behind it.
pub fn calls_keep_callers()
    ensures { (part : Part) → CallsKeepCallers part }
{}

/// Behind the step that is an ECALL the number of that call is in a7 of the thread that made it, unless its own number
/// was freed, and no other thread runs.
pub fn steps_keep_callers()
    ensures { (part : Part) → StepsKeepCallers part }
{}

/// Behind a step of any kind no thread runs but the one that made it.
pub fn steps_run_no_others()
    ensures { (part : Part) → StepsRunNoOthers part }
{}
