//! The attributes and owners of mutexes.

use crate::numbers::{Priority, ThreadNo};

/// PTHREAD_MUTEX_NORMAL (also DEFAULT), ERRORCHECK and RECURSIVE (pthread_mutexattr_gettype).
#[derive(Clone, Copy, PartialEq, Eq)]
pub enum MutexKind {
    Normal,
    ErrorCheck,
    Recursive,
}

/// The state of what a robust mutex guards (pthread_mutex_consistent, pthread_mutexattr_setrobust). A mutex that is not
/// robust is always consistent.
#[derive(Clone, Copy, PartialEq, Eq)]
pub enum Soundness {
    /// No owner ended since an owner last made it so.
    Consistent,
    /// An owner ended, and no owner has made it consistent since.
    Inconsistent,
    /// It was unlocked for the last time while inconsistent: nobody can lock it any more (ENOTRECOVERABLE).
    Unrecoverable,
}

/// PTHREAD_PRIO_NONE, INHERIT, and PROTECT with its ceiling (pthread_mutexattr_getprotocol).
#[derive(Clone, Copy, PartialEq, Eq)]
pub enum Protocol {
    NoProtocol,
    Inherit,
    Protect(Priority),
}

/// Who owns a mutex.
#[derive(Clone, Copy, PartialEq, Eq)]
pub enum Owner {
    /// It is not locked.
    Free,
    /// It is not robust and its owner ended: it stays locked, and nobody owns it (own choice).
    Abandoned,
    /// This thread.
    OwnedBy(ThreadNo),
}
