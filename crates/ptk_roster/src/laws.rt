//! What changes no effective priority.

ghost use Rattle.std.specs.Prelude.{List, Option};
ghost use Rattle.ptk_words.specs.declared.threads.Thread.{Thread};
ghost use Rattle.ptk_words_model.specs.State.{Mutex};
ghost use Rattle.ptk_roster.specs.Raising.{PlainRaisesNobody, PlainWaitRaisesNobody, SameOwnerRaisesAlike};

/// A mutex that is neither INHERIT nor PROTECT raises nobody: whatever becomes of its owner, its count, its state and
/// its waiters, every effective priority stays; so it does when a thread that waits for such a mutex is woken
/// (pthread_mutexattr_getprotocol).
pub fn plain_raises_nobody()
    ensures mutex { (threads : List (Option Thread)) → (mutexes : List (Option Mutex)) → PlainRaisesNobody threads mutexes }
    ensures waiter { (threads : List (Option Thread)) → (mutexes : List (Option Mutex)) → PlainWaitRaisesNobody threads mutexes }
{}

/// A mutex of any protocol whose protocol and owner stay raises whom it raised: whatever becomes of its count, its
/// state and its waiters, every effective priority stays (pthread_mutexattr_getprotocol).
pub fn same_owner_raises_alike()
    ensures { (threads : List (Option Thread)) → (mutexes : List (Option Mutex)) → SameOwnerRaisesAlike threads mutexes }
{}
