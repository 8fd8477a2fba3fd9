//! The condition variables of each partition, with their waiters in order of arrival.

ghost use Rattle.std.specs.Prelude.{◌≡◌, ◌<◌, ◌≤◌, true, false, [], ◌∷◌, ◌++◌, not, ◌==◌, length, None, Some, slice_set, IsSome, position, slice_index_or};
ghost use Rattle.std.specs.Option.{is_some};
ghost use Rattle.ptk_words.specs.Pools.{pool_get, pool_set, least_free, without, is_in};
ghost use Rattle.ptk_words.specs.Parts.{part_of};
ghost use Rattle.ptk_words_model.specs.Condition.{waiters_on};
ghost use Rattle.ptk_words_sync_invariant.specs.Conditions.{IsNoWaiter};
ghost use Rattle.ptk_threads.specs.LinkChanges.{few_of};
ghost use Rattle.ptk_threads.specs.Table.{thread_in};
ghost use Rattle.ptk_roster.specs.Waiters.{condition_of};

use crate::roster::Roster;
use ptk_threads::{Members, QueueName, ThreadList};
use ptk_words::{ConditionNo, PartId, ThreadNo};

impl Roster {
    /// Whether the word, which is not 0, is the number of a condition variable (own choice).
    #[inline(always)]
    pub fn is_condition_word(&self, p: PartId, word: u32) -> bool
        requires partition { p < length self.now.table.threads }
        requires positive { 0 < word }
        ensures { result ≡ is_some (pool_get (part_of self.now.conditions p) word) }
    {
        is_used_at(self.conditions.part(p), word as usize - 1)
    }

    /// The least free number of a condition variable; None where no number is free (pthread_cond_init).
    pub fn free_condition(&self, p: PartId) -> Option<ConditionNo>
        requires { p < length self.now.table.threads }
        ensures { result ≡ least_free (part_of self.now.conditions p) }
    {
        let place = first_unused_place(self.conditions.part(p))?;
        Some(ConditionNo::new(place as u8 + 1))
    }

    /// How many numbers of condition variables a partition has, at most 32.
    pub fn condition_limit(&self, p: PartId) -> usize
        requires { p < length self.now.table.threads }
        ensures value { result ≡ length (part_of self.now.conditions p) }
        ensures few { result ≤ 32 }
    {
        self.conditions.part(p).len()
    }

    /// The waiters of a condition variable, in order of arrival; none of a free number (pthread_cond_wait).
    pub fn condition_waiters(&self, p: PartId, c: ConditionNo) -> ThreadList
        requires { p < length self.now.table.threads }
        ensures { result ≡ waiters_on (pool_get (part_of self.now.conditions p) c) }
    {
        let _number = c.number();
        self.threads.members(p, QueueName::ConditionWaiters(c))
    }

    /// The waiters of a condition variable, as far as a choice among them asks.
    #[inline(always)]
    pub fn few_condition_waiters(&self, p: PartId, c: ConditionNo) -> Members
        requires { p < length self.now.table.threads }
        ensures { result ≡ few_of (waiters_on (pool_get (part_of self.now.conditions p) c)) }
    {
        let _number = c.number();
        self.threads.few_members(p, QueueName::ConditionWaiters(c))
    }

    /// Whether any thread waits on a condition variable (pthread_cond_destroy, EBUSY).
    pub fn has_condition_waiters(&self, p: PartId, c: ConditionNo) -> bool
        requires { p < length self.now.table.threads }
        ensures { result ≡ not (length (waiters_on (pool_get (part_of self.now.conditions p) c)) == 0) }
    {
        let _number = c.number();
        self.threads.has_members(p, QueueName::ConditionWaiters(c))
    }

    /// A new condition variable, without waiters, at a free number (pthread_cond_init).
    pub fn open_condition(&mut self, p: PartId, c: ConditionNo)
        requires partition { p < length self.old.table.threads }
        requires free { pool_get (part_of self.old.conditions p) c ≡ None }
        ensures { self.new ≡ record self.old { conditions = slice_set self.old.conditions p (pool_set (part_of self.old.conditions p) c (Some (condition_of []))) } }
    {
        let _number = c.number();
        mark(self.conditions.lend(p), c, true);
    }

    /// The number of a condition variable without waiters is free (pthread_cond_destroy).
    pub fn close_condition(&mut self, p: PartId, c: ConditionNo)
        requires partition { p < length self.old.table.threads }
        requires unused { waiters_on (pool_get (part_of self.old.conditions p) c) ≡ [] }
        ensures { self.new ≡ record self.old { conditions = slice_set self.old.conditions p (pool_set (part_of self.old.conditions p) c None) } }
    {
        let _number = c.number();
        mark(self.conditions.lend(p), c, false);
    }

    /// A thread that is in use, not in the line and no waiter becomes the last waiter of a condition variable
    /// (pthread_cond_wait).
    #[inline(always)]
    pub fn await_condition(&mut self, p: PartId, c: ConditionNo, k: ThreadNo)
        requires partition { p < length self.old.table.threads }
        requires used { IsSome (pool_get (part_of self.old.conditions p) c) }
        requires in_use { IsSome (thread_in self.old.table p k) }
        requires fresh { is_in k (part_of self.old.lines p) ≡ false }
        requires free { IsNoWaiter k (part_of self.old.mutexes p) (part_of self.old.conditions p) }
        ensures { self.new ≡ record self.old { conditions = slice_set self.old.conditions p (pool_set (part_of self.old.conditions p) c (Some (condition_of (waiters_on (pool_get (part_of self.old.conditions p) c) ++ k ∷ [])))) } }
    {
        let _number = c.number();
        let _parts = self.threads.parts();
        self.threads.append(p, QueueName::ConditionWaiters(c), k);
    }

    /// A thread that is in use waits on a condition variable no more; nothing changes where it did not
    /// (pthread_cond_signal).
    #[inline(always)]
    pub fn leave_condition(&mut self, p: PartId, c: ConditionNo, k: ThreadNo)
        requires partition { p < length self.old.table.threads }
        requires used { IsSome (pool_get (part_of self.old.conditions p) c) }
        requires in_use { IsSome (thread_in self.old.table p k) }
        ensures roster { self.new ≡ record self.old { conditions = slice_set self.old.conditions p (pool_set (part_of self.old.conditions p) c (Some (condition_of (without k (waiters_on (pool_get (part_of self.old.conditions p) c)))))) } }
        ensures apart { is_in k (waiters_on (pool_get (part_of self.old.conditions p) c)) ≡ true → IsNoWaiter k (part_of self.new.mutexes p) (part_of self.new.conditions p) }
    {
        let _number = c.number();
        let _parts = self.threads.parts();
        self.threads.take_from(p, QueueName::ConditionWaiters(c), k);
    }
}

/// Whether the number at a place, from 0, is marked as in use.
fn is_used_at(marks: &[bool], i: usize) -> bool
    ensures { result ≡ slice_index_or marks.now i false }
{
    i < marks.len() && marks[i]
}

/// The place of the first number that is not in use, from 0.
fn first_unused_place(marks: &[bool]) -> Option<usize>
    ensures { result ≡ position (λ is_used. not is_used) marks.now }
{
    marks.iter().position(|is_used| !*is_used)
}

/// Marks a number as in use, or not.
fn mark(marks: &mut [bool], c: ConditionNo, is_used: bool)
    ensures { marks.new ≡ pool_set marks.old c is_used }
{
    let i = (c.number() - 1) as usize;
    if i < marks.len() {
        marks[i] = is_used;
    }
}
