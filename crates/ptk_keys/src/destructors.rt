//! The destructor that a thread calls next.

ghost use Rattle.std.specs.Prelude.{◌≡◌, ◌≤◌, ◌&&◌, length, find, nat_lt};
ghost use Rattle.std.specs.Option.{option_or};
ghost use Rattle.ptk_words_model.specs.Keys.{is_due, due_keys, destructor_call, due_in_round, due_in_next_round};
ghost use Rattle.ptk_keys.specs.KeptKeys.{keys_of};

use crate::numbers::{KeyNo, destructor_at, value_at};
use ptk_words::DESTRUCTOR_ROUNDS;
use ptk_words_model::Rounds;
use std::marker::Model;

/// A destructor's call: its round, its key and the argument (pthread_key_create).
#[derive(Clone, Copy, PartialEq, Eq)]
pub struct DestructorCall {
    round: u32,
    key: KeyNo,
    argument: u32,
}

impl Model for DestructorCall {
    ghost use Rattle.ptk_words_model.specs.Keys.{DestructorCall};

    ghost Value = { DestructorCall };

    ghost view = { λ a. record { round = a.round; key = a.key; argument = a.argument } };

    ghost inverse = { λ c. record { round = c.round; key = c.key; argument = c.argument } };
}

impl DestructorCall {
    /// The round.
    pub fn round(self) -> u32
        ensures { result ≡ self.round }
    {
        self.round
    }

    /// The key.
    pub fn key(self) -> KeyNo
        ensures { result ≡ self.key }
    {
        self.key
    }

    /// The argument: the thread's value of the key before the call.
    pub fn argument(self) -> u32
        ensures { result ≡ self.argument }
    {
        self.argument
    }
}

/// The next destructor of a thread with these values: in its round, or else in the next.
pub(crate) fn next_call(
    destructors: &[Option<u32>],
    values: &[u32],
    rounds: Rounds,
) -> Option<DestructorCall>
    requires { length destructors.now ≤ 32 }
    ensures { result ≡ option_or (due_in_round (keys_of destructors.now) values.now rounds) (due_in_next_round (keys_of destructors.now) values.now rounds) }
{
    match least_due(destructors, values, rounds.passed) {
        Some(key) => Some(call_of(values, rounds.round, key)),
        None => call_in_next_round(destructors, values, rounds),
    }
}

/// The least key whose destructor is due, in the next round, if there is one.
#[tactic(auto, using(crate::proofs::Due::due))]
fn call_in_next_round(
    destructors: &[Option<u32>],
    values: &[u32],
    rounds: Rounds,
) -> Option<DestructorCall>
    requires { length destructors.now ≤ 32 }
    ensures { result ≡ due_in_next_round (keys_of destructors.now) values.now rounds }
{
    if rounds.round >= DESTRUCTOR_ROUNDS {
        return None;
    }
    let key = least_due(destructors, values, 0)?;
    Some(call_of(values, rounds.round + 1, key))
}

/// The call of a key's destructor, in a round.
fn call_of(values: &[u32], round: u32, key: KeyNo) -> DestructorCall
    ensures { result ≡ destructor_call values.now round key }
{
    DestructorCall {
        round,
        key,
        argument: value_at(values, key),
    }
}

/// The least key above this one whose destructor is due.
#[tactic(auto, using(crate::proofs::Due::searched))]
fn least_due(destructors: &[Option<u32>], values: &[u32], passed: u32) -> Option<KeyNo>
    requires { length destructors.now ≤ 32 }
    ensures { result ≡ find (λ k. nat_lt passed k) (due_keys (keys_of destructors.now) values.now) }
{
    for i in 0..destructors.len() {
        let key = KeyNo::new(i as u32 + 1);
        if is_due_after(destructors, values, passed, key) {
            return Some(key);
        }
    }
    None
}

/// Whether the key is above the one passed and its destructor is due.
fn is_due_after(destructors: &[Option<u32>], values: &[u32], passed: u32, key: KeyNo) -> bool
    ensures { result ≡ (nat_lt passed key && is_due (keys_of destructors.now) values.now key) }
{
    passed < key.number() && is_due(destructors, values, key)
}

/// Whether the key has a destructor and its value is not 0.
fn is_due(destructors: &[Option<u32>], values: &[u32], key: KeyNo) -> bool
    ensures { result ≡ is_due (keys_of destructors.now) values.now key }
{
    let destructor = destructor_at(destructors, key).unwrap_or(0);
    destructor != 0 && value_at(values, key) != 0
}
