//! The mutexes of each partition, with their waiters in order of arrival.

ghost use Rattle.std.specs.Prelude.{◌≡◌, ◌<◌, ◌≤◌, true, false, [], ◌∷◌, ◌++◌, not, ◌==◌, length, map, None, Some, slice_set, IsSome, position, is_none};
ghost use Rattle.ptk_words.specs.Pools.{pool_get, pool_set, pool_changed, least_free, without, is_in};
ghost use Rattle.ptk_words.specs.Parts.{part_of};
ghost use Rattle.ptk_words_model.specs.Mutex.{new_mutex, waiters_of};
ghost use Rattle.ptk_words_model.specs.Condition.{waiters_on};
ghost use Rattle.ptk_words_model.specs.Schedule.{woken_with};
ghost use Rattle.ptk_words_sync_invariant.specs.Conditions.{IsNoWaiter};
ghost use Rattle.ptk_threads.specs.LinkChanges.{few_of};
ghost use Rattle.ptk_threads.specs.Table.{thread_in, with_changed, with_wait};
ghost use Rattle.ptk_roster.specs.Slots.{bare};
ghost use Rattle.ptk_roster.specs.Changes.{mutex_changed, SlotMayChange};
ghost use Rattle.ptk_roster.specs.Waiters.{condition_of, waited_by, left_by};

use crate::roster::Roster;
use crate::{Change, MutexSlot, slot_in};
use ptk_threads::{Members, QueueName, ThreadField, ThreadList};
use ptk_words::{ConditionNo, MutexKind, MutexNo, PartId, Protocol, ThreadNo, Wait};

impl Roster {
    /// The places of a partition's mutexes, by number from 1, without their waiters.
    pub fn mutex_slots(&self, p: PartId) -> &[MutexSlot]
        requires { p < length self.now.table.threads }
        ensures mutexes { result.now ≡ map bare (part_of self.now.mutexes p) }
        ensures few { length result.now ≤ 64 }
    {
        self.mutexes.part(p)
    }

    /// The least free number of a mutex; None where no number is free (pthread_mutex_init).
    pub fn free_mutex(&self, p: PartId) -> Option<MutexNo>
        requires { p < length self.now.table.threads }
        ensures { result ≡ least_free (part_of self.now.mutexes p) }
    {
        let place = first_free_place(self.mutexes.part(p))?;
        Some(MutexNo::new(place as u8 + 1))
    }

    /// The waiters of a mutex, in order of arrival; none of a free number (pthread_mutex_lock).
    pub fn mutex_waiters(&self, p: PartId, m: MutexNo) -> ThreadList
        requires { p < length self.now.table.threads }
        ensures { result ≡ waiters_of (pool_get (part_of self.now.mutexes p) m) }
    {
        let _number = m.number();
        self.threads.members(p, QueueName::MutexWaiters(m))
    }

    /// The waiters of a mutex, as far as a choice among them asks.
    #[inline(always)]
    pub fn few_mutex_waiters(&self, p: PartId, m: MutexNo) -> Members
        requires { p < length self.now.table.threads }
        ensures { result ≡ few_of (waiters_of (pool_get (part_of self.now.mutexes p) m)) }
    {
        let _number = m.number();
        self.threads.few_members(p, QueueName::MutexWaiters(m))
    }

    /// Whether any thread waits for a mutex (pthread_mutex_destroy, EBUSY).
    pub fn has_mutex_waiters(&self, p: PartId, m: MutexNo) -> bool
        requires { p < length self.now.table.threads }
        ensures { result ≡ not (length (waiters_of (pool_get (part_of self.now.mutexes p) m)) == 0) }
    {
        let _number = m.number();
        self.threads.has_members(p, QueueName::MutexWaiters(m))
    }

    /// A new mutex, free and consistent, at a free number (pthread_mutex_init).
    pub fn open_mutex(
        &mut self,
        p: PartId,
        m: MutexNo,
        kind: MutexKind,
        protocol: Protocol,
        is_robust: bool,
    )
        requires partition { p < length self.old.table.threads }
        requires free { pool_get (part_of self.old.mutexes p) m ≡ None }
        ensures { self.new ≡ record self.old { mutexes = slice_set self.old.mutexes p (pool_set (part_of self.old.mutexes p) m (Some (new_mutex kind protocol is_robust))) } }
    {
        let _number = m.number();
        open_in(self.mutexes.lend(p), m, kind, protocol, is_robust);
    }

    /// The number of a mutex without waiters is free (pthread_mutex_destroy).
    pub fn close_mutex(&mut self, p: PartId, m: MutexNo)
        requires partition { p < length self.old.table.threads }
        requires unused { waiters_of (pool_get (part_of self.old.mutexes p) m) ≡ [] }
        ensures { self.new ≡ record self.old { mutexes = slice_set self.old.mutexes p (pool_set (part_of self.old.mutexes p) m None) } }
    {
        let _number = m.number();
        close_in(self.mutexes.lend(p), m);
    }

    /// Changes the mutex of a number, if there is one; its waiters stay.
    pub fn change_mutex(&mut self, p: PartId, m: MutexNo, change: Change)
        requires partition { p < length self.old.table.threads }
        requires possible { SlotMayChange change (pool_get (part_of self.old.mutexes p) m) }
        ensures { self.new ≡ record self.old { mutexes = slice_set self.old.mutexes p (pool_changed m (mutex_changed change) (part_of self.old.mutexes p)) } }
    {
        change_in(self.mutexes.lend(p), m, change);
    }

    /// A waiter on a condition variable waits on it no more, becomes the last waiter of a mutex, if there is one, and
    /// waits for this (pthread_cond_signal).
    #[inline(always)]
    pub fn pass_to_mutex(&mut self, p: PartId, c: ConditionNo, m: MutexNo, k: ThreadNo, wait: Wait)
        requires partition { p < length self.old.table.threads }
        requires used { IsSome (pool_get (part_of self.old.conditions p) c) }
        requires in_use { IsSome (thread_in self.old.table p k) }
        requires waits { is_in k (waiters_on (pool_get (part_of self.old.conditions p) c)) ≡ true }
        ensures { self.new ≡ record self.old {
          table = with_changed p k (with_wait (Some wait)) self.old.table;
          mutexes = slice_set self.old.mutexes p (pool_changed m (waited_by k) (part_of self.old.mutexes p));
          conditions = slice_set self.old.conditions p (pool_set (part_of self.old.conditions p) c (Some (condition_of (without k (waiters_on (pool_get (part_of self.old.conditions p) c))))));
        } }
    {
        let _condition = c.number();
        let _mutex = m.number();
        let _parts = self.threads.parts();
        let _part = self.threads.linked(p);
        let from = QueueName::ConditionWaiters(c);
        let change = ThreadField::Wait(Some(wait));
        if is_mutex(self.mutexes.part(p), m) {
            let to = QueueName::MutexWaiters(m);
            self.threads.pass_updated(p, from, to, k, &change);
        } else {
            self.threads.take_from(p, from, k);
            self.threads.update(p, k, &change);
        }
    }

    /// A thread that is in use, not in the line and no waiter becomes the last waiter of a mutex, if there is one, and
    /// waits for this (pthread_mutex_lock).
    #[inline(always)]
    pub fn wait_for_mutex(&mut self, p: PartId, m: MutexNo, k: ThreadNo, wait: Wait)
        requires partition { p < length self.old.table.threads }
        requires in_use { IsSome (thread_in self.old.table p k) }
        requires fresh { is_in k (part_of self.old.lines p) ≡ false }
        requires free { IsNoWaiter k (part_of self.old.mutexes p) (part_of self.old.conditions p) }
        ensures { self.new ≡ record self.old {
          table = with_changed p k (with_wait (Some wait)) self.old.table;
          mutexes = slice_set self.old.mutexes p (pool_changed m (waited_by k) (part_of self.old.mutexes p));
        } }
    {
        let _number = m.number();
        let _parts = self.threads.parts();
        let change = ThreadField::Wait(Some(wait));
        if is_mutex(self.mutexes.part(p), m) {
            self.threads
                .append_updated(p, QueueName::MutexWaiters(m), k, &change);
        } else {
            self.threads.update(p, k, &change);
        }
    }

    /// A waiter of a mutex leaves it and becomes the last of the line; it waits for nothing any more, has these values
    /// in a0 and so on, and has used no tick of its interval (XSH 2.8.4).
    #[inline(always)]
    pub fn rouse_from_mutex(&mut self, p: PartId, m: MutexNo, k: ThreadNo, values: &[u32])
        requires partition { p < length self.old.table.threads }
        requires in_use { IsSome (thread_in self.old.table p k) }
        requires fresh { is_in k (part_of self.old.lines p) ≡ false }
        requires waits { is_in k (waiters_of (pool_get (part_of self.old.mutexes p) m)) ≡ true }
        requires few { length values.now < 4 }
        ensures { self.new ≡ record self.old {
          table = with_changed p k (woken_with values.now) self.old.table;
          lines = slice_set self.old.lines p (part_of self.old.lines p ++ k ∷ []);
          mutexes = slice_set self.old.mutexes p (pool_changed m (left_by k) (part_of self.old.mutexes p));
        } }
    {
        let _number = m.number();
        let _parts = self.threads.parts();
        let _part = self.threads.linked(p);
        let from = Some(QueueName::MutexWaiters(m));
        self.line.rouse(&mut self.threads, p, from, k, values);
    }
}

/// Whether a mutex has the number.
#[tactic(auto, using(crate::proofs::Slots::numbers))]
fn is_mutex(slots: &[MutexSlot], m: MutexNo) -> bool
    ensures { result ≡ not (is_none (pool_get slots.now m)) }
{
    match slot_in(slots, m) {
        Some(slot) => !slot.is_free(),
        None => false,
    }
}

/// The place of the first free number, from 0.
fn first_free_place(slots: &[MutexSlot]) -> Option<usize>
    ensures { result ≡ position is_none slots.now }
{
    slots.iter().position(|slot| slot.is_free())
}

/// A new mutex at a free number.
#[tactic(auto, using(crate::proofs::Slots::numbers))]
fn open_in(
    slots: &mut [MutexSlot],
    m: MutexNo,
    kind: MutexKind,
    protocol: Protocol,
    is_robust: bool,
)
    requires { pool_get slots.old m ≡ None }
    ensures { slots.new ≡ pool_set slots.old m (Some (new_mutex kind protocol is_robust)) }
{
    let i = m.place();
    if i < slots.len() {
        let slot = &mut slots[i];
        slot.open(kind, protocol, is_robust);
    }
}

/// The number is free.
#[tactic(auto, using(crate::proofs::Slots::numbers))]
fn close_in(slots: &mut [MutexSlot], m: MutexNo)
    ensures { slots.new ≡ pool_set slots.old m None }
{
    let i = m.place();
    if i < slots.len() {
        let slot = &mut slots[i];
        slot.close();
    }
}

/// Changes the mutex of a number, if there is one.
#[tactic(auto, using(crate::proofs::Slots::changes))]
fn change_in(slots: &mut [MutexSlot], m: MutexNo, change: Change)
    requires { SlotMayChange change (pool_get slots.old m) }
    ensures { slots.new ≡ pool_changed m (mutex_changed change) slots.old }
{
    let i = m.place();
    if i < slots.len() {
        let slot = &mut slots[i];
        slot.change(change);
    }
}
