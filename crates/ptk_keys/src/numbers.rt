//! A key's number, and what a list has at it.

ghost use Rattle.std.specs.Prelude.{◌≡◌, ◌≤◌, length, position, is_none};
ghost use Rattle.ptk_words.specs.Pools.{least_free, pool_get, pool_set};
ghost use Rattle.ptk_words_model.specs.Keys.{value_of};

use std::marker::Model;

/// A word that a program states as a key of its partition. Keys are numbered from 1: 0 is none, nor is a number past
/// the partition's keys.
#[derive(Clone, Copy, PartialEq, Eq)]
pub struct KeyNo {
    number: u32,
}

impl Model for KeyNo {
    ghost use Rattle.std.specs.Prelude.{ℕ};

    ghost Value = { ℕ };

    ghost view = { λ a. a.number };

    ghost inverse = { λ n. record { number = n } };
}

impl KeyNo {
    /// The key of this number.
    pub fn new(number: u32) -> KeyNo
        ensures { result ≡ number }
    {
        KeyNo { number }
    }

    /// Its number.
    pub fn number(self) -> u32
        ensures { result ≡ self }
    {
        self.number
    }
}

/// The destructor of a key in use, 0 for none; None of a number that is free.
#[tactic(auto, using(crate::proofs::Entries::numbers))]
pub(crate) fn destructor_at(destructors: &[Option<u32>], key: KeyNo) -> Option<u32>
    ensures { result ≡ pool_get destructors.now key }
{
    let number = key.number();
    if number == 0 {
        return None;
    }
    let place = (number - 1) as usize;
    if place < destructors.len() {
        destructors[place]
    } else {
        None
    }
}

/// Sets the destructor of a key, or frees its number.
#[tactic(auto, using(crate::proofs::Entries::numbers))]
pub(crate) fn set_destructor_at(
    destructors: &mut [Option<u32>],
    key: KeyNo,
    destructor: Option<u32>,
)
    ensures { destructors.new ≡ pool_set destructors.old key destructor }
{
    let number = key.number();
    if number > 0 {
        let place = (number - 1) as usize;
        if place < destructors.len() {
            destructors[place] = destructor;
        }
    }
}

/// The value of a key, 0 where there is none.
#[tactic(auto, using(crate::proofs::Entries::numbers))]
pub(crate) fn value_at(values: &[u32], key: KeyNo) -> u32
    ensures { result ≡ value_of values.now key }
{
    let number = key.number();
    if number == 0 {
        return 0;
    }
    let place = (number - 1) as usize;
    if place < values.len() {
        values[place]
    } else {
        0
    }
}

/// Sets the value of a key.
#[tactic(auto, using(crate::proofs::Entries::numbers))]
pub(crate) fn set_value_at(values: &mut [u32], key: KeyNo, value: u32)
    ensures { values.new ≡ pool_set values.old key value }
{
    let number = key.number();
    if number > 0 {
        let place = (number - 1) as usize;
        if place < values.len() {
            values[place] = value;
        }
    }
}

/// The least number that is free.
#[tactic(auto, using(crate::proofs::Entries::numbers))]
pub(crate) fn first_free(destructors: &[Option<u32>]) -> Option<KeyNo>
    requires { length destructors.now ≤ 32 }
    ensures { result ≡ least_free destructors.now }
{
    let place = first_free_place(destructors)?;
    Some(KeyNo::new(place as u32 + 1))
}

/// The place of the first free number, from 0.
fn first_free_place(destructors: &[Option<u32>]) -> Option<usize>
    ensures { result ≡ position is_none destructors.now }
{
    destructors
        .iter()
        .position(|destructor| destructor.is_none())
}
