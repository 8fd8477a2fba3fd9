//! Keys: their destructors, the values of threads, and how far a thread's destructor calls are (pthread_key_create).

ghost use Rattle.std.specs.Prelude.{◌≡◌, ◌<◌, ℕ, List, length, None, Some};
ghost use Rattle.ptk_words.specs.Pools.{least_free, numbered, pool_set};
ghost use Rattle.ptk_words_model.specs.State.{with_keys};
ghost use Rattle.ptk_words_model.specs.Keys.{with_key, with_values, with_rounds, with_first_round, with_new_specific, after_destructor_call};
ghost use Rattle.ptk_keys.specs.KeptKeys.{with_new_key};
ghost use Rattle.ptk_gate_pools.specs.Held.{limits_here, all_of};

use crate::pools::Pools;
use ptk_keys::{DestructorCall, KeyNo, KeyTable};
use ptk_words::{Phase, ThreadNo};

impl Pools {
    /// A thread that has a value for each key of the section begins: its values are 0, and it has called no destructor
    /// (pthread_key_create).
    #[tactic(auto, using(crate::proofs::Hands::handed))]
    pub fn clear_keys(&mut self, t: ThreadNo)
        requires sized { (values : List ℕ) → numbered self.old.here.keys.values t ≡ Some values → length values ≡ (limits_here self.old).keys }
        ensures { self.new ≡ record self.old { here = with_keys (with_new_specific (limits_here self.old).keys t) self.old.here } }
    {
        let p = self.hand;
        self.keys.clear(p, t);
    }

    /// The first round begins with the unwinding of a normal thread; another's stays.
    #[tactic(auto, using(crate::proofs::Hands::handed))]
    pub fn begin_rounds(&mut self, t: ThreadNo, phase: Phase)
        ensures { self.new ≡ record self.old { here = with_keys (with_rounds t (with_first_round phase)) self.old.here } }
    {
        let p = self.hand;
        self.keys.begin_rounds(p, t, phase);
    }

    /// A new key with this destructor, 0 for none, at the least free number, and 0 in every thread; None, and nothing
    /// changes, where no number is free (pthread_key_create).
    #[tactic(auto, using(crate::proofs::Hands::handed))]
    pub fn create_key(&mut self, destructor: u32) -> Option<KeyNo>
        ensures told { result ≡ least_free self.old.here.keys.destructors }
        ensures moved { self.new ≡ record self.old { here = with_keys (with_new_key destructor) self.old.here } }
    {
        let p = self.hand;
        self.keys.create(p, destructor)
    }

    /// The number of the key is free, and 0 in every thread; no destructor is called (pthread_key_delete).
    #[tactic(auto, using(crate::proofs::Hands::handed))]
    pub fn delete_key(&mut self, key: KeyNo)
        ensures { self.new ≡ record self.old { here = with_keys (with_key key None) self.old.here } }
    {
        let p = self.hand;
        self.keys.delete(p, key);
    }

    /// The thread has this value of the key; nothing changes where the number is past the section's keys
    /// (pthread_setspecific).
    #[tactic(auto, using(crate::proofs::Hands::handed))]
    pub fn set_value(&mut self, t: ThreadNo, key: KeyNo, value: u32)
        ensures { self.new ≡ record self.old { here = with_keys (with_values t (λ values. pool_set values key value)) self.old.here } }
    {
        let p = self.hand;
        self.keys.set(p, t, key, value);
    }

    /// The destructor's call is made: its value is 0, and its key is passed in its round (pthread_key_create).
    #[tactic(auto, using(crate::proofs::Hands::handed))]
    pub fn note_destructor_call(&mut self, t: ThreadNo, call: DestructorCall)
        ensures { self.new ≡ record self.old { here = with_keys (after_destructor_call t call) self.old.here } }
    {
        let p = self.hand;
        self.keys.note_call(p, t, call);
    }
}
