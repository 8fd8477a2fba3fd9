//! The cleanup handlers of one thread (pthread_cleanup_push).

ghost use Rattle.std.specs.Prelude.{◌≡◌, [], ◌∷◌, drop, length, nat_lt, slice_get, if◌then◌else◌};

use arrayvec::ArrayVec;
use ptk_words::{CLEANUP_LIMIT, Cleanup};
use std::marker::Model;

/// How many handlers a stack has room for.
const ROOM: usize = CLEANUP_LIMIT as usize;

/// A handler as a stack holds it.
#[derive(Clone, Copy)]
struct Handler {
    cleanup: Cleanup,
}

impl Model for Handler {
    ghost use Rattle.ptk_words.specs.declared.threads.Cleanup.{Cleanup};

    ghost Value = { Cleanup };

    ghost view = { λ a. a.cleanup };

    ghost inverse = { λ cleanup. record { cleanup = cleanup } };
}

/// What fills the places above the top.
impl Default for Handler {
    fn default() -> Handler {
        Handler {
            cleanup: Cleanup {
                routine: 0,
                argument: 0,
            },
        }
    }
}

/// At most 16 handlers, which lie in the value itself; a contract sees the last pushed first.
#[derive(Drop)]
pub(crate) struct Stack {
    handlers: ArrayVec<Handler, ROOM>,
}

impl Model for Stack {
    ghost use Rattle.std.specs.Prelude.{List, reverse};
    ghost use Rattle.ptk_words.specs.declared.threads.Cleanup.{Cleanup};

    ghost Value = { List Cleanup };

    ghost view = { λ a. reverse a.handlers.items };
}

impl Stack {
    /// No handler.
    pub(crate) fn new() -> Stack
        ensures { result ≡ [] }
    {
        Stack {
            handlers: ArrayVec::new(),
        }
    }

    /// Puts a handler on top; false, and nothing changes, where 16 are there.
    #[tactic(auto, using(crate::proofs::Tops::tops))]
    pub(crate) fn push(&mut self, cleanup: Cleanup) -> bool
        ensures told { result ≡ nat_lt (length self.old) CLEANUP_LIMIT }
        ensures moved { self.new ≡ (if result then cleanup ∷ self.old else self.old) }
    {
        if self.handlers.is_full() {
            return false;
        }
        self.handlers.push(Handler { cleanup });
        true
    }

    /// Takes the handler pushed last off, if there is one.
    #[tactic(auto, using(crate::proofs::Tops::tops))]
    pub(crate) fn pop(&mut self) -> Option<Cleanup>
        ensures told { result ≡ slice_get self.old 0 }
        ensures moved { self.new ≡ drop 1 self.old }
    {
        let handler = self.handlers.pop()?;
        Some(handler.cleanup)
    }

    /// Takes every handler off.
    pub(crate) fn clear(&mut self)
        ensures { self.new ≡ [] }
    {
        self.handlers.clear();
    }
}
