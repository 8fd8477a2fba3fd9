//! The worked rows: what the definitions compute of small guests and of built states.

ghost use Rattle.ptk_words_laws.specs.Rows.Runs.{Hello, CutRun, LatePut, LockOverWindowEnd, BroadcastNeedsSixteen, ReturnToGate, SelfModifying, TwoHellos};
ghost use Rattle.ptk_words_laws.specs.Rows.Plans.{SwappedPlan, MovedWindow, WindowLostAndRegained};
ghost use Rattle.ptk_words_laws.specs.Rows.Images.{EmptyImage, LoadAtMemoryEnd, RefusedImage, CutImage};
ghost use Rattle.ptk_words_laws.specs.Rows.Traces.{ShortTrace, FullTrace};
ghost use Rattle.ptk_words_laws.specs.Rows.Threads.{CreateJoin, NumberOneReused, RoundRobinWindows, OwnPriorityFalls};
ghost use Rattle.ptk_words_laws.specs.Rows.Inputs.{InputRing};
ghost use Rattle.ptk_words_laws.specs.Rows.Times.{TickConversion};
ghost use Rattle.ptk_words_laws.specs.Rows.Words.{DecodedWords};
ghost use Rattle.ptk_words_laws.specs.Rows.Priorities.{InheritCycle, TwoStepChain, CeilingRefusal, NestedCeilings, RecursiveLimit, SelfDeadlock, InheritAfterHandover, InheritBasic, RaisedInPlace};
ghost use Rattle.ptk_words_laws.specs.Rows.Waits.{FirstLock, BadNanosecondsOrder, ExpiredTimedlock, ExpiredWaitReleases, CountedRecursiveWait, EqualWakeups, ZeroWordsWait, EdgePointers, CopiedWord};
ghost use Rattle.ptk_words_laws.specs.Rows.Robust.{OwnerDied, UnrecoverableMutex, ConsistentRefusals, RecoveredLock, PlainOwnerDied, DeadlineOfADeadOwnersWaiter, HeirsBeforeJoiner, WaitOnDeadOwner, WaitOnLostMutex, CancelledHeir};
ghost use Rattle.ptk_words_laws.specs.Rows.Cancellations.{AsyncCancelReady, CancelledWaiter, CancelledJoiner, DisableThenEnable, BadPointerWithRequest, SeventeenHandlers, DestructorLimit, DestructorRounds, ExitInDestructor};
ghost use Rattle.ptk_words_laws.specs.Rows.Refusals.{CreateRefused, ThreadRefused, SmallCalls};
ghost use Rattle.ptk_words_laws.specs.Rows.Conditions.{NewCondition, DestroyedCondition};

/// The run of nine steps that prints `hi`.
pub fn hello()
    ensures { Hello }
{}

/// The run that prints `hi`, after 3 and after 10 ticks.
pub fn cut_run()
    ensures { CutRun }
{}

/// A put that does not fit the rest of its window.
pub fn late_put()
    ensures { LatePut }
{}

/// A lock that does not fit the rest of its window.
pub fn lock_over_window_end()
    ensures { LockOverWindowEnd }
{}

/// Two halves of the frame that are swapped from a frame on.
pub fn swapped_plan()
    ensures { SwappedPlan }
{}

/// A window that is moved in the frame, and a lock that waits for it.
pub fn moved_window()
    ensures { MovedWindow }
{}

/// A partition without a window for two frames, and a lock that begins after them.
pub fn window_lost_and_regained()
    ensures { WindowLostAndRegained }
{}

/// The dearest call in the shortest window.
pub fn broadcast_needs_sixteen()
    ensures { BroadcastNeedsSixteen }
{}

/// A jump of main to the return gate.
pub fn return_to_gate()
    ensures { ReturnToGate }
{}

/// A store over the word that is fetched next.
pub fn self_modifying()
    ensures { SelfModifying }
{}

/// The same image in both halves of a frame.
pub fn two_hellos()
    ensures { TwoHellos }
{}

/// An image without text.
pub fn empty_image()
    ensures { EmptyImage }
{}

/// Loads at the end of memory.
pub fn load_at_memory_end()
    ensures { LoadAtMemoryEnd }
{}

/// An image without its last byte.
pub fn refused_image()
    ensures { RefusedImage }
{}

/// An image cut short, and one whose zeros do not fit.
pub fn cut_image()
    ensures { CutImage }
{}

/// A trace of two entries.
pub fn short_trace()
    ensures { ShortTrace }
{}

/// A trace that keeps every step.
pub fn full_trace()
    ensures { FullTrace }
{}

/// A thread that is created and joined.
pub fn create_join()
    ensures { CreateJoin }
{}

/// A later thread of number 1.
pub fn number_one_reused()
    ensures { NumberOneReused }
{}

/// Round-robin intervals over a window's end.
pub fn round_robin_windows()
    ensures { RoundRobinWindows }
{}

/// A thread that lowers its own priority.
pub fn own_priority_falls()
    ensures { OwnPriorityFalls }
{}

/// Input into a full ring, and to a waiter.
pub fn input_ring()
    ensures { InputRing }
{}

/// Ticks as timespecs and back.
pub fn tick_conversion()
    ensures { TickConversion }
{}

/// Words of the instruction table, and words outside it.
pub fn decoded_words()
    ensures { DecodedWords }
{}

/// Priorities on a cycle, while a third thread waits for it and afterwards.
pub fn inherit_cycle()
    ensures { InheritCycle }
{}

/// An owner that inherits, and its unlock.
pub fn inherit_basic()
    ensures { InheritBasic }
{}

/// Priorities along a chain of two mutexes.
pub fn two_step_chain()
    ensures { TwoStepChain }
{}

/// A ceiling below the caller's priority.
pub fn ceiling_refusal()
    ensures { CeilingRefusal }
{}

/// Two ceilings of one owner.
pub fn nested_ceilings()
    ensures { NestedCeilings }
{}

/// The greatest count of a recursive mutex.
pub fn recursive_limit()
    ensures { RecursiveLimit }
{}

/// A mutex of one's own locked again.
pub fn self_deadlock()
    ensures { SelfDeadlock }
{}

/// Priorities after a hand over.
pub fn inherit_after_handover()
    ensures { InheritAfterHandover }
{}

/// A ready thread that is raised.
pub fn raised_in_place()
    ensures { RaisedInPlace }
{}

/// A lock of a word 0.
pub fn first_lock()
    ensures { FirstLock }
{}

/// A bad time given to timedlock.
pub fn bad_nanoseconds_order()
    ensures { BadNanosecondsOrder }
{}

/// A timedlock whose deadline is already reached.
pub fn expired_timedlock()
    ensures { ExpiredTimedlock }
{}

/// A timed condition wait whose deadline is already reached.
pub fn expired_wait_releases()
    ensures { ExpiredWaitReleases }
{}

/// A condition wait with a mutex that was counted twice.
pub fn counted_recursive_wait()
    ensures { CountedRecursiveWait }
{}

/// Two sleepers of one deadline.
pub fn equal_wakeups()
    ensures { EqualWakeups }
{}

/// A condition waiter that is cancelled, a signal afterwards, and its handler.
pub fn cancelled_waiter()
    ensures { CancelledWaiter }
{}

/// A condition wait of words that are 0.
pub fn zero_words_wait()
    ensures { ZeroWordsWait }
{}

/// Pointers at the end of memory.
pub fn edge_pointers()
    ensures { EdgePointers }
{}

/// A mutex word that was copied.
pub fn copied_word()
    ensures { CopiedWord }
{}

/// An asynchronous thread that is cancelled.
pub fn async_cancel_ready()
    ensures { AsyncCancelReady }
{}

/// A joiner that is cancelled.
pub fn cancelled_joiner()
    ensures { CancelledJoiner }
{}

/// A request in DISABLE.
pub fn disable_then_enable()
    ensures { DisableThenEnable }
{}

/// A bad pointer given by a cancelled thread.
pub fn bad_pointer_with_request()
    ensures { BadPointerWithRequest }
{}

/// More handlers than there is room for.
pub fn seventeen_handlers()
    ensures { SeventeenHandlers }
{}

/// A destructor that sets its own key.
pub fn destructor_limit()
    ensures { DestructorLimit }
{}

/// A destructor that sets an earlier key.
pub fn destructor_rounds()
    ensures { DestructorRounds }
{}

/// A destructor that exits.
pub fn exit_in_destructor()
    ensures { ExitInDestructor }
{}

/// Creations that are refused, and the order of their checks.
pub fn create_refused()
    ensures { CreateRefused }
{}

/// Joins, detaches and scheduling calls that are refused, and the order of their checks.
pub fn thread_refused()
    ensures { ThreadRefused }
{}

/// What self and getschedparam return, and the replies to the numbers of calls and to other numbers.
pub fn small_calls()
    ensures { SmallCalls }
{}

/// An owner of a robust mutex that ends while another thread waits.
pub fn owner_died()
    ensures { OwnerDied }
{}

/// A dead owner's mutex that is unlocked as it is.
pub fn unrecoverable()
    ensures { UnrecoverableMutex }
{}

/// Mutexes that are not made consistent, and types that are none.
pub fn consistent_refusals()
    ensures { ConsistentRefusals }
{}

/// A mutex of a thread that ended with no other waiting for it, locked by another thread.
pub fn recovered_lock()
    ensures { RecoveredLock }
{}

/// A mutex that is not robust and whose owner ended.
pub fn plain_owner_died()
    ensures { PlainOwnerDied }
{}

/// The deadline of a timed lock that ended with the owner's death.
pub fn deadline_of_a_dead_owners_waiter()
    ensures { DeadlineOfADeadOwnersWaiter }
{}

/// Two mutexes of a thread that ends and is joined.
pub fn heirs_before_joiner()
    ensures { HeirsBeforeJoiner }
{}

/// A condition waiter that has a dead owner's mutex again.
pub fn wait_on_dead_owner()
    ensures { WaitOnDeadOwner }
{}

/// Condition waiters whose mutex is unrecoverable.
pub fn wait_on_lost_mutex()
    ensures { WaitOnLostMutex }
{}

/// A cancelled condition waiter that gets a dead owner's mutex.
pub fn cancelled_heir()
    ensures { CancelledHeir }
{}

/// New condition variables, whatever their words were, and creations that are refused.
pub fn new_condition()
    ensures { NewCondition }
{}

/// A condition variable that is destroyed, and destructions that are refused.
pub fn destroyed_condition()
    ensures { DestroyedCondition }
{}
