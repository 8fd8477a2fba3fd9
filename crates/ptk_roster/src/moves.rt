//! The move of a lock, by what the mutex is.

ghost use Rattle.std.specs.Prelude.{◌≡◌};
ghost use Rattle.ptk_words_model.specs.Mutex.{is_above_ceiling, free_move, own_lock_move, own_trylock_move, count_move, owner_move};

use ptk_words::{COUNT_LIMIT, Errno, MutexKind, Owner, Protocol, Soundness, ThreadNo};
use ptk_words_model::LockMove;

/// The moves of a lock by the owner: of a free mutex, of one's own, of another's or nobody's.
#[derive(Clone, Copy)]
pub(crate) struct OwnerMoves {
    pub of_free: LockMove,
    pub of_own: LockMove,
    pub of_another: LockMove,
}

/// The move by the owner.
pub(crate) fn owner_move(owner: Owner, t: ThreadNo, moves: OwnerMoves) -> LockMove
    ensures { result ≡ owner_move owner t (record { of_free = moves.of_free; of_own = moves.of_own; of_another = moves.of_another }) }
{
    match owner {
        Owner::Free => moves.of_free,
        Owner::Abandoned => moves.of_another,
        Owner::OwnedBy(u) => {
            if u.number() == t.number() {
                moves.of_own
            } else {
                moves.of_another
            }
        }
    }
}

/// Whether the mutex is PROTECT, with a ceiling below the priority, 0 of no thread.
pub(crate) fn is_above_ceiling(priority: u8, protocol: Protocol) -> bool
    ensures { result ≡ is_above_ceiling priority protocol }
{
    match protocol {
        Protocol::Protect(ceiling) => ceiling.level() < priority,
        Protocol::NoProtocol | Protocol::Inherit => false,
    }
}

/// A lock of a free mutex, by what it guards.
pub fn free_move(soundness: Soundness) -> LockMove
    ensures { result ≡ free_move soundness }
{
    match soundness {
        Soundness::Consistent => LockMove::Takes,
        Soundness::Inconsistent => LockMove::Recovers,
        Soundness::Unrecoverable => LockMove::Refuses(Errno::ENOTRECOVERABLE),
    }
}

/// A lock of one's own mutex, by its type.
pub(crate) fn own_lock_move(kind: MutexKind, count: u32) -> LockMove
    ensures { result ≡ own_lock_move kind count }
{
    match kind {
        MutexKind::Normal => LockMove::Waits,
        MutexKind::ErrorCheck => LockMove::Refuses(Errno::EDEADLK),
        MutexKind::Recursive => count_move(count),
    }
}

/// A trylock of one's own mutex, by its type.
pub(crate) fn own_trylock_move(kind: MutexKind, count: u32) -> LockMove
    ensures { result ≡ own_trylock_move kind count }
{
    match kind {
        MutexKind::Normal | MutexKind::ErrorCheck => LockMove::Refuses(Errno::EBUSY),
        MutexKind::Recursive => count_move(count),
    }
}

/// One's own recursive mutex counts up to the limit.
fn count_move(count: u32) -> LockMove
    ensures { result ≡ count_move count }
{
    if count < COUNT_LIMIT {
        LockMove::Counts
    } else {
        LockMove::Refuses(Errno::EAGAIN)
    }
}
