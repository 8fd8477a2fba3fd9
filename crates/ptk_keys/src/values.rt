//! The values of threads by key.

ghost use Rattle.std.specs.Prelude.{◌≡◌, [], length, map, replicate, unwrap_or, IfOk};
ghost use Rattle.ptk_words.specs.Pools.{numbered, pool_set, pool_update};
ghost use Rattle.ptk_words_model.specs.Keys.{no_values};

use crate::numbers::{KeyNo, set_value_at};
use ptk_words::ThreadNo;
use std::alloc::{AllocError, Global};
use std::marker::Model;

/// The values of one thread by key from 1.
#[derive(Drop)]
pub(crate) struct ThreadValues {
    values: Vec<u32>,
}

impl Model for ThreadValues {
    ghost use Rattle.std.specs.Prelude.{ℕ, List};

    ghost Value = { List ℕ };

    ghost view = { λ a. a.values.items };
}

impl ThreadValues {
    /// The value 0 for each of this many keys. An error where memory ran out.
    pub(crate) fn new(alloc: Global, keys: u32) -> Result<ThreadValues, AllocError>
        ensures { IfOk result (λ values. values ≡ no_values keys) }
    {
        let values = zeros(alloc, keys)?;
        Ok(ThreadValues { values })
    }

    /// The values by key from 1.
    pub(crate) fn values(&self) -> &[u32]
        ensures { result.now ≡ self.now }
    {
        self.values.as_slice()
    }

    /// Sets the value of a key.
    pub(crate) fn set(&mut self, key: KeyNo, value: u32)
        ensures { self.new ≡ pool_set self.old key value }
    {
        set_value_at(&mut self.values, key, value);
    }

    /// Every value is 0.
    pub(crate) fn clear(&mut self)
        ensures { self.new ≡ no_values (length self.old) }
    {
        self.values.fill(0);
    }
}

/// This many times 0. An error where memory ran out.
fn zeros(alloc: Global, n: u32) -> Result<Vec<u32>, AllocError>
    ensures { IfOk result (λ zeros. zeros.items ≡ no_values n) }
{
    let mut zeros = Vec::new(alloc);
    for i in 0..n {
        zeros.push(0)?;
    }
    Ok(zeros)
}

/// The value 0 for each of this many keys in each of this many threads. An error where memory ran out.
pub(crate) fn values_by_thread(
    alloc: Global,
    threads: u32,
    keys: u32,
) -> Result<Vec<ThreadValues>, AllocError>
    ensures { IfOk result (λ by_thread. by_thread.items ≡ replicate threads (no_values keys)) }
{
    let mut by_thread = Vec::new(alloc);
    for i in 0..threads {
        by_thread.push(ThreadValues::new(alloc, keys)?)?;
    }
    Ok(by_thread)
}

/// The values of a thread, none past the last thread.
#[tactic(auto, using(crate::proofs::Entries::numbers))]
pub(crate) fn values_in(by_thread: &[ThreadValues], t: ThreadNo) -> &[u32]
    ensures { result.now ≡ unwrap_or (numbered by_thread.now t) [] }
{
    match by_thread.get(t.place()) {
        Some(values) => values.values(),
        None => &[],
    }
}

/// Sets a thread's value of a key.
#[tactic(auto, using(crate::proofs::Entries::numbers))]
pub(crate) fn set_in(by_thread: &mut [ThreadValues], t: ThreadNo, key: KeyNo, value: u32)
    ensures { by_thread.new ≡ pool_update by_thread.old t (λ values. pool_set values key value) }
{
    let place = t.place();
    if place < by_thread.len() {
        let values = &mut by_thread[place];
        values.set(key, value);
    }
}

/// Every value of a thread is 0.
#[tactic(auto, using(crate::proofs::Entries::numbers))]
pub(crate) fn clear_in(by_thread: &mut [ThreadValues], t: ThreadNo)
    ensures { by_thread.new ≡ pool_update by_thread.old t (λ _. no_values (length (unwrap_or (numbered by_thread.old t) []))) }
{
    let place = t.place();
    if place < by_thread.len() {
        let values = &mut by_thread[place];
        values.clear();
    }
}

/// The value of a key is 0 in every thread.
#[tactic(auto, using(crate::proofs::Entries::by_thread))]
pub(crate) fn clear_key_in(by_thread: &mut [ThreadValues], key: KeyNo)
    ensures { by_thread.new ≡ map (λ values. pool_set values key 0) by_thread.old }
{
    for i in 0..by_thread.len() {
        let values = &mut by_thread[i];
        values.set(key, 0);
    }
}
