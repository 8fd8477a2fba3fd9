//! What call 20 asks for: the words of its attributes, decoded.

ghost use Rattle.std.specs.Prelude.{◌≡◌};
ghost use Rattle.ptk_words_model.specs.MutexCalls.{kind_numbered, is_robust_type, kind_of, protocol_of};

use ptk_gate_moves::named_priority;
use ptk_words::{MutexKind, Protocol};

/// The kind of a type's number, the robust types apart; None of another word (own choice of the numbers).
fn kind_numbered(number: u32) -> Option<MutexKind>
    ensures { result ≡ kind_numbered number }
{
    match number {
        0 => Some(MutexKind::Normal),
        1 => Some(MutexKind::ErrorCheck),
        2 => Some(MutexKind::Recursive),
        _ => None,
    }
}

/// Whether the word is of a robust type, if it is of any (pthread_mutexattr_setrobust; own choice).
pub(crate) fn is_robust_type(word: u32) -> bool
    ensures { result ≡ is_robust_type word }
{
    4 <= word
}

/// The kind of a type's word, robust or not; None of a word that is no type (pthread_mutexattr_settype).
pub(crate) fn kind_of(word: u32) -> Option<MutexKind>
    ensures { result ≡ kind_of word }
{
    if is_robust_type(word) {
        kind_numbered(word - 4)
    } else {
        kind_numbered(word)
    }
}

/// The protocol of a word, with its ceiling where it has one; None of a word that is no protocol, and of PROTECT with a
/// word that is no priority (pthread_mutexattr_setprotocol).
pub(crate) fn protocol_of(word: u32, ceiling: u32) -> Option<Protocol>
    ensures { result ≡ protocol_of word ceiling }
{
    match word {
        0 => Some(Protocol::NoProtocol),
        1 => Some(Protocol::Inherit),
        2 => Some(Protocol::Protect(named_priority(ceiling)?)),
        _ => None,
    }
}
