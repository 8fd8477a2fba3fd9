//! The keys of all partitions.

ghost use Rattle.std.specs.Prelude.{◌≡◌, ◌<◌, ◌≤◌, None, length, map, replicate, slice_set, All, IfOk};
ghost use Rattle.ptk_words.specs.Pools.{least_free, pool_set, pool_update};
ghost use Rattle.ptk_words.specs.Parts.{part_of};
ghost use Rattle.ptk_words_model.specs.Keys.{no_rounds, no_values, is_key, specific, destructor_of, next_destructor, values_of, with_values, with_rounds, with_key, with_first_round, after_destructor_call};
ghost use Rattle.ptk_keys.specs.KeptKeys.{keys_at, put_keys, fresh_keys, with_new_key, with_cleared};

use crate::destructors::{DestructorCall, next_call};
use crate::numbers::{KeyNo, destructor_at, first_free, set_destructor_at, value_at};
use crate::rounds::{begin_in, rounds_in, set_rounds_in};
use crate::values::{ThreadValues, clear_in, clear_key_in, set_in, values_by_thread, values_in};
use ptk_words::{Limits, PartId, Parted, Phase, ThreadNo};
use ptk_words_model::{Rounds, thread_counts_of};
use std::alloc::{AllocError, Global};
use std::marker::Model;

/// The keys of each partition by number from 1, and what its threads keep of them.
#[derive(Drop)]
pub struct KeyTable {
    destructors: Parted<Option<u32>>,
    values: Parted<ThreadValues>,
    rounds: Parted<Rounds>,
}

impl Model for KeyTable {
    ghost use Rattle.ptk_keys.specs.KeptKeys.{KeptKeys, AreKept};

    ghost Value = { KeptKeys };

    ghost view = { λ a. record { destructors = a.destructors; values = a.values; rounds = a.rounds } };

    ghost invariant = { λ a. AreKept a.destructors a.values a.rounds };
}

impl KeyTable {
    /// No key in use, for each of at most 8 sections as many keys and threads as its numbers say, with the room that
    /// all later calls fill. An error where memory ran out. No other call takes memory.
    #[tactic(auto, using(crate::proofs::Tables::built))]
    pub fn build(alloc: Global, limits: &[Limits]) -> Result<KeyTable, AllocError>
        requires sections { length limits.now ≤ 8 }
        requires keys { All (λ count. count ≤ 32) (map (λ l. l.keys) limits.now) }
        ensures { IfOk result (λ table. table ≡ fresh_keys limits.now) }
    {
        let destructors = destructors_of(alloc, limits)?;
        let values = values_of(alloc, limits)?;
        let rounds = rounds_of(alloc, limits)?;
        Ok(KeyTable {
            destructors,
            values,
            rounds,
        })
    }

    /// How many partitions there are.
    pub fn parts(&self) -> usize
        ensures { result ≡ length self.now.destructors }
    {
        self.destructors.parts()
    }

    /// A new key with this destructor, 0 for none, at the least free number, and 0 in every thread; None, and nothing
    /// changes, where no number is free (pthread_key_create).
    #[tactic(auto, using(crate::proofs::Tables::tables))]
    pub fn create(&mut self, p: PartId, destructor: u32) -> Option<KeyNo>
        requires { p < length self.old.destructors }
        ensures told { result ≡ least_free (keys_at p self.old).destructors }
        ensures moved { self.new ≡ put_keys p (with_new_key destructor (keys_at p self.old)) self.old }
    {
        let free = first_free(self.destructors.part(p));
        if let Some(key) = free {
            self.put(p, key, Some(destructor));
        }
        free
    }

    /// The number of the key is free, and 0 in every thread; no destructor is called (pthread_key_delete).
    #[tactic(auto, using(crate::proofs::Tables::tables))]
    pub fn delete(&mut self, p: PartId, key: KeyNo)
        requires { p < length self.old.destructors }
        ensures { self.new ≡ put_keys p (with_key key None (keys_at p self.old)) self.old }
    {
        self.put(p, key, None);
    }

    /// Whether a key in use has this number (pthread_key_create).
    pub fn is_key(&self, p: PartId, key: KeyNo) -> bool
        requires { p < length self.now.destructors }
        ensures { result ≡ is_key (keys_at p self.now) key }
    {
        destructor_at(self.destructors.part(p), key).is_some()
    }

    /// The destructor of a key, 0 for none and for an unknown key (pthread_key_create).
    pub fn destructor(&self, p: PartId, key: KeyNo) -> u32
        requires { p < length self.now.destructors }
        ensures { result ≡ destructor_of (keys_at p self.now) key }
    {
        destructor_at(self.destructors.part(p), key).unwrap_or(0)
    }

    /// The thread's value of a key, 0 of an unknown key (pthread_getspecific).
    #[tactic(auto, using(crate::proofs::Tables::tables))]
    pub fn get(&self, p: PartId, t: ThreadNo, key: KeyNo) -> u32
        requires { p < length self.now.destructors }
        ensures { result ≡ specific (keys_at p self.now) t key }
    {
        if self.is_key(p, key) {
            value_at(values_in(self.values.part(p), t), key)
        } else {
            0
        }
    }

    /// Sets the thread's value of a key (pthread_setspecific).
    #[tactic(auto, using(crate::proofs::Tables::tables))]
    pub fn set(&mut self, p: PartId, t: ThreadNo, key: KeyNo, value: u32)
        requires { p < length self.old.destructors }
        ensures { self.new ≡ put_keys p (with_values t (λ values. pool_set values key value) (keys_at p self.old)) self.old }
    {
        set_in(self.values.lend(p), t, key, value);
    }

    /// A new thread has 0 for every key, and no destructor called (pthread_key_create).
    #[tactic(auto, using(crate::proofs::Tables::tables))]
    pub fn clear(&mut self, p: PartId, t: ThreadNo)
        requires { p < length self.old.destructors }
        ensures { self.new ≡ put_keys p (with_cleared t (keys_at p self.old)) self.old }
    {
        self.clear_values(p, t);
        let none = Rounds {
            round: 0,
            passed: 0,
        };
        self.set_rounds(p, t, none);
    }

    /// The first round begins with the unwinding of a normal thread; another's stays (pthread_key_create).
    #[tactic(auto, using(crate::proofs::Tables::tables))]
    pub fn begin_rounds(&mut self, p: PartId, t: ThreadNo, phase: Phase)
        requires { p < length self.old.destructors }
        ensures { self.new ≡ put_keys p (with_rounds t (with_first_round phase) (keys_at p self.old)) self.old }
    {
        begin_in(self.rounds.lend(p), t, phase);
    }

    /// The call of the destructor that an unwinding thread calls next: the least key above the last one passed whose
    /// destructor is due, or else the least in the next of 4 rounds; None where none is due (pthread_key_create).
    #[tactic(auto, using(crate::proofs::Tables::tables))]
    pub fn next_destructor(&self, p: PartId, t: ThreadNo) -> Option<DestructorCall>
        requires { p < length self.now.destructors }
        ensures { result ≡ next_destructor (keys_at p self.now) t }
    {
        let rounds = rounds_in(self.rounds.part(p), t)?;
        let values = values_in(self.values.part(p), t);
        next_call(self.destructors.part(p), values, rounds)
    }

    /// The destructor's call is made: its value is 0, and its key is passed in its round (pthread_key_create).
    #[tactic(auto, using(crate::proofs::Tables::tables))]
    pub fn note_call(&mut self, p: PartId, t: ThreadNo, call: DestructorCall)
        requires { p < length self.old.destructors }
        ensures { self.new ≡ put_keys p (after_destructor_call t call (keys_at p self.old)) self.old }
    {
        let key = call.key();
        let rounds = Rounds {
            round: call.round(),
            passed: key.number(),
        };
        self.set(p, t, key, 0);
        self.set_rounds(p, t, rounds);
    }

    /// The key has this destructor, or is free, and is 0 in every thread.
    #[tactic(auto, using(crate::proofs::Tables::tables))]
    fn put(&mut self, p: PartId, key: KeyNo, destructor: Option<u32>)
        requires { p < length self.old.destructors }
        ensures { self.new ≡ put_keys p (with_key key destructor (keys_at p self.old)) self.old }
    {
        self.set_destructor(p, key, destructor);
        self.clear_key(p, key);
    }

    /// The key has this destructor, or is free.
    #[tactic(auto, using(crate::proofs::Tables::tables))]
    fn set_destructor(&mut self, p: PartId, key: KeyNo, destructor: Option<u32>)
        requires { p < length self.old.destructors }
        ensures { self.new ≡ record self.old { destructors = slice_set self.old.destructors p (pool_set (part_of self.old.destructors p) key destructor) } }
    {
        set_destructor_at(self.destructors.lend(p), key, destructor);
    }

    /// The key is 0 in every thread.
    #[tactic(auto, using(crate::proofs::Tables::tables))]
    fn clear_key(&mut self, p: PartId, key: KeyNo)
        requires { p < length self.old.destructors }
        ensures { self.new ≡ record self.old { values = slice_set self.old.values p (map (λ values. pool_set values key 0) (part_of self.old.values p)) } }
    {
        clear_key_in(self.values.lend(p), key);
    }

    /// Every value of the thread is 0.
    #[tactic(auto, using(crate::proofs::Tables::tables))]
    fn clear_values(&mut self, p: PartId, t: ThreadNo)
        requires { p < length self.old.destructors }
        ensures { self.new ≡ record self.old { values = slice_set self.old.values p (pool_update (part_of self.old.values p) t (λ _. no_values (length (values_of (keys_at p self.old) t)))) } }
    {
        clear_in(self.values.lend(p), t);
    }

    /// How far the thread's destructor calls are.
    #[tactic(auto, using(crate::proofs::Tables::tables))]
    fn set_rounds(&mut self, p: PartId, t: ThreadNo, rounds: Rounds)
        requires { p < length self.old.destructors }
        ensures { self.new ≡ record self.old { rounds = slice_set self.old.rounds p (pool_update (part_of self.old.rounds p) t (λ _. rounds)) } }
    {
        set_rounds_in(self.rounds.lend(p), t, rounds);
    }
}

/// Every key is free.
#[tactic(auto, using(crate::proofs::Tables::built))]
fn destructors_of(alloc: Global, limits: &[Limits]) -> Result<Parted<Option<u32>>, AllocError>
    requires { length limits.now ≤ 8 }
    ensures { IfOk result (λ parted. parted ≡ map (λ l. replicate l.keys None) limits.now) }
{
    let counts = keys_of(alloc, limits)?;
    Ok(Parted::build(alloc, &counts, None)?)
}

/// Every value is 0.
#[tactic(auto, using(crate::proofs::Tables::built))]
fn values_of(alloc: Global, limits: &[Limits]) -> Result<Parted<ThreadValues>, AllocError>
    requires { length limits.now ≤ 8 }
    ensures { IfOk result (λ parted. parted ≡ map (λ l. replicate l.threads (no_values l.keys)) limits.now) }
{
    let mut values = Parted::new(alloc);
    for l in limits {
        values.add_part(values_by_thread(alloc, l.threads, l.keys)?)?;
    }
    Ok(values)
}

/// No thread has called a destructor.
#[tactic(auto, using(crate::proofs::Tables::built))]
fn rounds_of(alloc: Global, limits: &[Limits]) -> Result<Parted<Rounds>, AllocError>
    requires { length limits.now ≤ 8 }
    ensures { IfOk result (λ parted. parted ≡ map (λ l. replicate l.threads no_rounds) limits.now) }
{
    let counts = thread_counts_of(alloc, limits)?;
    let none = Rounds {
        round: 0,
        passed: 0,
    };
    Ok(Parted::build(alloc, &counts, none)?)
}

/// The greatest number of keys of each section.
fn keys_of(alloc: Global, limits: &[Limits]) -> Result<Vec<u32>, AllocError>
    ensures { IfOk result (λ counts. counts.items ≡ map (λ l. l.keys) limits.now) }
{
    limits.iter().map(|l| l.keys).collect(alloc)
}
