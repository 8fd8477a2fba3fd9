//! What the threads of all partitions keep of cancellation, with their cleanup handlers.

ghost use Rattle.std.specs.Prelude.{◌≡◌, ◌<◌, ◌≤◌, true, false, [], ◌∷◌, drop, length, map, nat_lt, option_map, replicate, slice_get, unwrap_or, if◌then◌else◌, IfOk};
ghost use Rattle.ptk_words.specs.Pools.{numbered};
ghost use Rattle.ptk_words.specs.Parts.{part_of};
ghost use Rattle.ptk_words_model.specs.State.{Part};
ghost use Rattle.ptk_words_model.specs.ThreadCreation.{new_cancellation};
ghost use Rattle.ptk_words_model.specs.Unwinding.{after_unwinding_move, cleanups_of};
ghost use Rattle.ptk_cancel.specs.KeptCancellations.{cancellation_at, cleanups_at, with_cancellation_at, with_cleanups_at, fresh_cancellations, is_acting, is_point_acting, disabled, after_next_unwind};

use crate::entries::{self, entry_in, fresh};
use crate::stack::Stack;
use crate::stacks::{self, empty_stacks};
use ptk_words::{CLEANUP_LIMIT, Cleanup, Limits, PartId, Parted, ThreadNo};
use ptk_words_model::{Cancellation, thread_counts_of};
use std::alloc::{AllocError, Global};
use std::marker::Model;

/// What each partition's threads keep of cancellation, and their cleanup handlers, by thread number (XSH 2.9.5).
#[derive(Drop)]
pub struct Cancellations {
    cancellations: Parted<Cancellation>,
    cleanups: Parted<Stack>,
}

impl Model for Cancellations {
    ghost use Rattle.ptk_cancel.specs.KeptCancellations.{KeptCancellations, AreKept};

    ghost Value = { KeptCancellations };

    ghost view = { λ a. record { cancellations = a.cancellations; cleanups = a.cleanups } };

    ghost invariant = { λ a. AreKept a.cancellations a.cleanups };
}

impl Cancellations {
    /// Every thread as a new one, for each of at most 8 sections as many threads as its numbers say, with room for 16
    /// handlers each. An error where memory ran out. No other call takes memory.
    #[tactic(auto, using(crate::proofs::Tables::built))]
    pub fn build(alloc: Global, limits: &[Limits]) -> Result<Cancellations, AllocError>
        requires { length limits.now ≤ 8 }
        ensures { IfOk result (λ table. table ≡ fresh_cancellations limits.now) }
    {
        let cancellations = cancellations_of(alloc, limits)?;
        let cleanups = cleanups_of(alloc, limits)?;
        Ok(Cancellations {
            cancellations,
            cleanups,
        })
    }

    /// How many partitions there are.
    pub fn parts(&self) -> usize
        ensures { result ≡ length self.now.cancellations }
    {
        self.cancellations.parts()
    }

    /// A thread begins: ENABLE and DEFERRED, nothing pending, not marked, no handler (pthread_setcancelstate).
    #[tactic(auto, using(crate::proofs::Tables::tables))]
    pub fn clear(&mut self, p: PartId, t: ThreadNo)
        requires { p < length self.old.cancellations }
        ensures { self.new ≡ with_cleanups_at p t (λ _. []) (with_cancellation_at p t (λ _. new_cancellation) self.old) }
    {
        entries::clear_in(self.cancellations.lend(p), t);
        stacks::clear_in(self.cleanups.lend(p), t);
    }

    /// Whether the thread's state is ENABLE, and not DISABLE (pthread_setcancelstate).
    pub fn is_enabled(&self, p: PartId, t: ThreadNo) -> bool
        requires { p < length self.now.cancellations }
        ensures { result ≡ (cancellation_at p t self.now).is_enabled }
    {
        match entry_in(self.cancellations.part(p), t) {
            Some(entry) => entry.is_enabled,
            None => true,
        }
    }

    /// Whether the thread's type is ASYNCHRONOUS, and not DEFERRED (pthread_setcanceltype).
    pub fn is_asynchronous(&self, p: PartId, t: ThreadNo) -> bool
        requires { p < length self.now.cancellations }
        ensures { result ≡ (cancellation_at p t self.now).is_asynchronous }
    {
        match entry_in(self.cancellations.part(p), t) {
            Some(entry) => entry.is_asynchronous,
            None => false,
        }
    }

    /// Whether a request is pending for the thread (pthread_cancel).
    pub fn is_pending(&self, p: PartId, t: ThreadNo) -> bool
        requires { p < length self.now.cancellations }
        ensures { result ≡ (cancellation_at p t self.now).is_pending }
    {
        match entry_in(self.cancellations.part(p), t) {
            Some(entry) => entry.is_pending,
            None => false,
        }
    }

    /// Whether the thread is marked: its next step begins its unwinding (XSH 2.9.5.2).
    pub fn is_marked(&self, p: PartId, t: ThreadNo) -> bool
        requires { p < length self.now.cancellations }
        ensures { result ≡ (cancellation_at p t self.now).is_marked }
    {
        match entry_in(self.cancellations.part(p), t) {
            Some(entry) => entry.is_marked,
            None => false,
        }
    }

    /// Whether the next step of the thread, if it is a normal one, begins its unwinding: it is marked, or a request is
    /// pending with ENABLE and ASYNCHRONOUS (XSH 2.9.5.1).
    pub fn is_acting(&self, p: PartId, t: ThreadNo) -> bool
        requires { p < length self.now.cancellations }
        ensures { result ≡ unwrap_or (option_map is_acting (numbered (part_of self.now.cancellations p) t)) false }
    {
        match entry_in(self.cancellations.part(p), t) {
            Some(entry) => {
                entry.is_marked || (entry.is_pending && entry.is_enabled && entry.is_asynchronous)
            }
            None => false,
        }
    }

    /// Whether the thread, if it is a normal one, begins its unwinding at a cancellation point, and whether a request
    /// takes it out of its wait there: one is pending with ENABLE (XSH 2.9.5.2).
    pub fn is_point_acting(&self, p: PartId, t: ThreadNo) -> bool
        requires { p < length self.now.cancellations }
        ensures { result ≡ unwrap_or (option_map is_point_acting (numbered (part_of self.now.cancellations p) t)) false }
    {
        match entry_in(self.cancellations.part(p), t) {
            Some(entry) => entry.is_enabled && entry.is_pending,
            None => false,
        }
    }

    /// Sets the thread's state, ENABLE or DISABLE (pthread_setcancelstate).
    #[tactic(auto, using(crate::proofs::Tables::tables))]
    pub fn set_state(&mut self, p: PartId, t: ThreadNo, is_enabled: bool)
        requires { p < length self.old.cancellations }
        ensures { self.new ≡ with_cancellation_at p t (λ c. record c { is_enabled = is_enabled }) self.old }
    {
        entries::set_state_in(self.cancellations.lend(p), t, is_enabled);
    }

    /// Sets the thread's type, ASYNCHRONOUS or DEFERRED (pthread_setcanceltype).
    #[tactic(auto, using(crate::proofs::Tables::tables))]
    pub fn set_type(&mut self, p: PartId, t: ThreadNo, is_asynchronous: bool)
        requires { p < length self.old.cancellations }
        ensures { self.new ≡ with_cancellation_at p t (λ c. record c { is_asynchronous = is_asynchronous }) self.old }
    {
        entries::set_type_in(self.cancellations.lend(p), t, is_asynchronous);
    }

    /// A request is pending for the thread, whatever its state and type (pthread_cancel).
    #[tactic(auto, using(crate::proofs::Tables::tables))]
    pub fn request(&mut self, p: PartId, t: ThreadNo)
        requires { p < length self.old.cancellations }
        ensures { self.new ≡ with_cancellation_at p t (λ c. record c { is_pending = true }) self.old }
    {
        entries::request_in(self.cancellations.lend(p), t);
    }

    /// The thread is marked: it was taken out of its wait, and its next step begins its unwinding (XSH 2.9.5.2).
    #[tactic(auto, using(crate::proofs::Tables::tables))]
    pub fn mark(&mut self, p: PartId, t: ThreadNo)
        requires { p < length self.old.cancellations }
        ensures { self.new ≡ with_cancellation_at p t (λ c. record c { is_marked = true }) self.old }
    {
        entries::mark_in(self.cancellations.lend(p), t);
    }

    /// The thread's unwinding begins: DISABLE and DEFERRED, and the mark is taken; a pending request stays
    /// (XSH 2.9.5.3).
    #[tactic(auto, using(crate::proofs::Tables::tables))]
    pub fn begin_unwinding(&mut self, p: PartId, t: ThreadNo)
        requires { p < length self.old.cancellations }
        ensures { self.new ≡ with_cancellation_at p t disabled self.old }
    {
        entries::disable_in(self.cancellations.lend(p), t);
    }

    /// Puts a handler on top of the thread's; false, and nothing changes, where 16 are there (pthread_cleanup_push).
    /// Past the last thread number nothing changes either, and it is true.
    #[tactic(auto, using(crate::proofs::Tables::tables))]
    pub fn push(&mut self, p: PartId, t: ThreadNo, cleanup: Cleanup) -> bool
        requires { p < length self.old.cancellations }
        ensures told { result ≡ nat_lt (length (cleanups_at p t self.old)) CLEANUP_LIMIT }
        ensures moved { self.new ≡ (if result then with_cleanups_at p t (λ cleanups. cleanup ∷ cleanups) self.old else self.old) }
    {
        stacks::push_in(self.cleanups.lend(p), t, cleanup)
    }

    /// Takes the thread's handler pushed last off; None, and nothing changes, where there is none
    /// (pthread_cleanup_pop).
    #[tactic(auto, using(crate::proofs::Tables::tables))]
    pub fn pop(&mut self, p: PartId, t: ThreadNo) -> Option<Cleanup>
        requires { p < length self.old.cancellations }
        ensures told { result ≡ slice_get (cleanups_at p t self.old) 0 }
        ensures moved { self.new ≡ with_cleanups_at p t (drop 1) self.old }
    {
        stacks::pop_in(self.cleanups.lend(p), t)
    }

    /// The handler that an unwinding thread calls next, which is taken off; None where there is none, and then its next
    /// destructor is called, or it ends (XSH 2.9.5.3).
    pub fn next_unwind(&mut self, p: PartId, t: ThreadNo) -> Option<Cleanup>
        requires { p < length self.old.cancellations }
        ensures told { result ≡ slice_get (cleanups_at p t self.old) 0 }
        ensures moved { self.new ≡ with_cleanups_at p t (drop 1) self.old }

        // Of a state of the partition with these handlers this is the next move of the thread, if it unwinds.
        ensures unwinds { (s : Part) → s.cleanups ≡ part_of self.old.cleanups p
            → after_unwinding_move t (cleanups_of s t) s ≡ after_next_unwind t result (part_of self.new.cleanups p) s }
    {
        self.pop(p, t)
    }
}

/// Every thread as a new one.
#[tactic(auto, using(crate::proofs::Tables::built))]
fn cancellations_of(alloc: Global, limits: &[Limits]) -> Result<Parted<Cancellation>, AllocError>
    requires { length limits.now ≤ 8 }
    ensures { IfOk result (λ parted. parted ≡ map (λ l. replicate l.threads new_cancellation) limits.now) }
{
    let counts = thread_counts_of(alloc, limits)?;
    Ok(Parted::build(alloc, &counts, fresh())?)
}

/// No handler.
#[tactic(auto, using(crate::proofs::Tables::built))]
fn cleanups_of(alloc: Global, limits: &[Limits]) -> Result<Parted<Stack>, AllocError>
    requires { length limits.now ≤ 8 }
    ensures { IfOk result (λ parted. parted ≡ map (λ l. replicate l.threads []) limits.now) }
{
    let mut cleanups = Parted::new(alloc);
    for l in limits {
        cleanups.add_part(empty_stacks(alloc, l.threads)?)?;
    }
    Ok(cleanups)
}
