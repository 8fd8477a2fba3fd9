//! How far the destructor calls of threads are.

ghost use Rattle.std.specs.Prelude.{◌≡◌};
ghost use Rattle.ptk_words.specs.Pools.{numbered, pool_update};
ghost use Rattle.ptk_words_model.specs.Keys.{with_first_round};

use ptk_words::{Phase, ThreadNo};
use ptk_words_model::Rounds;

/// How far a thread's destructor calls are, None past the last thread.
#[tactic(auto, using(crate::proofs::Entries::numbers))]
pub(crate) fn rounds_in(rounds: &[Rounds], t: ThreadNo) -> Option<Rounds>
    ensures { result ≡ numbered rounds.now t }
{
    let place = t.place();
    if place < rounds.len() {
        Some(rounds[place])
    } else {
        None
    }
}

/// Sets how far a thread's destructor calls are.
#[tactic(auto, using(crate::proofs::Entries::numbers, crate::proofs::Entries::entries))]
pub(crate) fn set_rounds_in(rounds: &mut [Rounds], t: ThreadNo, far: Rounds)
    ensures { rounds.new ≡ pool_update rounds.old t (λ _. far) }
{
    let place = t.place();
    if place < rounds.len() {
        rounds[place] = far;
    }
}

/// The first round begins with the unwinding of a normal thread.
#[tactic(auto, using(crate::proofs::Entries::numbers))]
pub(crate) fn begin_in(rounds: &mut [Rounds], t: ThreadNo, phase: Phase)
    ensures { rounds.new ≡ pool_update rounds.old t (with_first_round phase) }
{
    let place = t.place();
    if place < rounds.len() {
        rounds[place] = first_round(phase, rounds[place]);
    }
}

/// The first round of a normal thread; another's stays.
fn first_round(phase: Phase, rounds: Rounds) -> Rounds
    ensures { result ≡ with_first_round phase rounds }
{
    match phase {
        Phase::Normal => Rounds {
            round: 1,
            passed: 0,
        },
        Phase::Unwinding | Phase::Ended => rounds,
    }
}
