//! What the threads of one partition keep of cancellation, by number (XSH 2.9.5).

ghost use Rattle.std.specs.Prelude.{◌≡◌, true, false};
ghost use Rattle.std.specs.Option.{option_copied};
ghost use Rattle.ptk_words.specs.Pools.{numbered, pool_update};
ghost use Rattle.ptk_words_model.specs.ThreadCreation.{new_cancellation};
ghost use Rattle.ptk_cancel.specs.KeptCancellations.{disabled};

use ptk_words::ThreadNo;
use ptk_words_model::Cancellation;

/// PTHREAD_CANCEL_ENABLE and PTHREAD_CANCEL_DEFERRED, nothing pending.
pub(crate) fn fresh() -> Cancellation
    ensures { result ≡ new_cancellation }
{
    Cancellation {
        is_enabled: true,
        is_asynchronous: false,
        is_pending: false,
        is_marked: false,
    }
}

/// What the thread keeps, None past the last number.
#[tactic(auto, using(crate::proofs::Numbered::numbers))]
pub(crate) fn entry_in(cancellations: &[Cancellation], t: ThreadNo) -> Option<&Cancellation>
    ensures { option_copied result ≡ numbered cancellations.now t }
{
    cancellations.get(t.place())
}

/// The thread begins.
#[tactic(auto, using(crate::proofs::Numbered::numbers, crate::proofs::Numbered::entries))]
pub(crate) fn clear_in(cancellations: &mut [Cancellation], t: ThreadNo)
    ensures { cancellations.new ≡ pool_update cancellations.old t (λ _. new_cancellation) }
{
    let place = t.place();
    if place < cancellations.len() {
        cancellations[place] = fresh();
    }
}

/// Sets the thread's state.
#[tactic(auto, using(crate::proofs::Numbered::numbers))]
pub(crate) fn set_state_in(cancellations: &mut [Cancellation], t: ThreadNo, is_enabled: bool)
    ensures { cancellations.new ≡ pool_update cancellations.old t (λ c. record c { is_enabled = is_enabled }) }
{
    let place = t.place();
    if place < cancellations.len() {
        cancellations[place].is_enabled = is_enabled;
    }
}

/// Sets the thread's type.
#[tactic(auto, using(crate::proofs::Numbered::numbers))]
pub(crate) fn set_type_in(cancellations: &mut [Cancellation], t: ThreadNo, is_asynchronous: bool)
    ensures { cancellations.new ≡ pool_update cancellations.old t (λ c. record c { is_asynchronous = is_asynchronous }) }
{
    let place = t.place();
    if place < cancellations.len() {
        cancellations[place].is_asynchronous = is_asynchronous;
    }
}

/// A request is pending.
#[tactic(auto, using(crate::proofs::Numbered::numbers))]
pub(crate) fn request_in(cancellations: &mut [Cancellation], t: ThreadNo)
    ensures { cancellations.new ≡ pool_update cancellations.old t (λ c. record c { is_pending = true }) }
{
    let place = t.place();
    if place < cancellations.len() {
        cancellations[place].is_pending = true;
    }
}

/// The thread is marked.
#[tactic(auto, using(crate::proofs::Numbered::numbers))]
pub(crate) fn mark_in(cancellations: &mut [Cancellation], t: ThreadNo)
    ensures { cancellations.new ≡ pool_update cancellations.old t (λ c. record c { is_marked = true }) }
{
    let place = t.place();
    if place < cancellations.len() {
        cancellations[place].is_marked = true;
    }
}

/// The thread's unwinding begins.
#[tactic(auto, using(crate::proofs::Numbered::numbers))]
pub(crate) fn disable_in(cancellations: &mut [Cancellation], t: ThreadNo)
    ensures { cancellations.new ≡ pool_update cancellations.old t disabled }
{
    let place = t.place();
    if place < cancellations.len() {
        let is_pending = cancellations[place].is_pending;
        cancellations[place] = Cancellation {
            is_enabled: false,
            is_asynchronous: false,
            is_pending,
            is_marked: false,
        };
    }
}
