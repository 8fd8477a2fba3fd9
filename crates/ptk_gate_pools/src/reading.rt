//! What is read of the partition in hand.

ghost use Rattle.std.specs.Prelude.{◌≡◌, IsSome, Some, ◌≤◌, false, length, option_map, unwrap_or};
ghost use Rattle.std.specs.Option.{option_copied};
ghost use Rattle.ptk_words.specs.Pools.{numbered, least_free};
ghost use Rattle.ptk_words.specs.declared.threads.Thread.{Thread};
ghost use Rattle.ptk_words_model.specs.Keys.{is_key, specific, destructor_of, next_destructor};
ghost use Rattle.ptk_words_model.specs.CancellationCalls.{cancellation_of};
ghost use Rattle.ptk_words_model.specs.Priority.{thread_at};
ghost use Rattle.ptk_cancel.specs.KeptCancellations.{is_point_acting};
ghost use Rattle.ptk_threads.specs.Links.{threads_of};

use crate::pools::Pools;
use ptk_keys::{DestructorCall, KeyNo};
use ptk_threads::Slot;
use ptk_words::{Cpu, Entry, Thread, ThreadNo};

impl Pools {
    /// The thread of a number, where it lies, if it is in use.
    pub fn thread_ref(&self, t: ThreadNo) -> Option<&Thread>
        ensures { option_copied result ≡ thread_at self.now.here.locks t }
    {
        self.roster.threads().thread_ref(self.hand, t)
    }

    /// The thread of a number in use, where it lies.
    pub fn used_thread(&self, t: ThreadNo) -> &Thread
        requires in_use { IsSome (thread_at self.now.here.locks t) }
        ensures { Some result.now ≡ thread_at self.now.here.locks t }
    {
        self.roster.threads().used_thread(self.hand, t)
    }

    /// The thread of a number, if it is in use.
    pub fn thread(&self, t: ThreadNo) -> Option<Thread>
        ensures { result ≡ thread_at self.now.here.locks t }
    {
        self.roster.threads().thread(self.hand, t)
    }

    /// The registers of a thread, if it is in use.
    pub fn cpu(&self, t: ThreadNo) -> Option<Cpu>
        ensures { result ≡ option_map (λ (thread : Thread). thread.cpu) (thread_at self.now.here.locks t) }
    {
        self.roster.threads().cpu(self.hand, t)
    }

    /// The slots, at most 32.
    pub fn slots(&self) -> &[Slot]
        ensures slots { threads_of result.now ≡ self.now.here.threads }
        ensures few { length result.now ≤ 32 }
    {
        self.roster.threads().part(self.hand)
    }

    /// The memory.
    pub fn memory(&self) -> &[u8]
        ensures { result.now ≡ self.now.here.memory }
    {
        self.memories.regions().part(self.hand)
    }

    /// The last step, None before the first.
    pub fn last_step(&self) -> Option<Entry>
        ensures { result ≡ self.now.here.last }
    {
        self.lasts[self.hand.index()]
    }

    /// Whether a cancellation point acts on the thread's request (XSH 2.9.5.2).
    pub fn is_point_acting(&self, t: ThreadNo) -> bool
        ensures { result ≡ unwrap_or (option_map is_point_acting (numbered self.now.here.cancellations t)) false }
    {
        self.cancellations.is_point_acting(self.hand, t)
    }

    /// Whether a key in use has this number (pthread_key_create).
    pub fn is_key(&self, key: KeyNo) -> bool
        ensures { result ≡ is_key self.now.here.keys key }
    {
        self.keys.is_key(self.hand, key)
    }

    /// The thread's value of a key, 0 of an unknown key (pthread_getspecific).
    pub fn value(&self, t: ThreadNo, key: KeyNo) -> u32
        ensures { result ≡ specific self.now.here.keys t key }
    {
        self.keys.get(self.hand, t, key)
    }

    /// Whether the thread is ENABLE (pthread_setcancelstate).
    pub fn is_cancel_enabled(&self, t: ThreadNo) -> bool
        ensures { result ≡ (cancellation_of self.now.here t).is_enabled }
    {
        self.cancellations.is_enabled(self.hand, t)
    }

    /// Whether the thread is ASYNCHRONOUS (pthread_setcanceltype).
    pub fn is_cancel_asynchronous(&self, t: ThreadNo) -> bool
        ensures { result ≡ (cancellation_of self.now.here t).is_asynchronous }
    {
        self.cancellations.is_asynchronous(self.hand, t)
    }

    /// The next destructor call of an unwinding thread, if one is left (pthread_key_create).
    pub fn next_destructor(&self, t: ThreadNo) -> Option<DestructorCall>
        ensures { result ≡ next_destructor self.now.here.keys t }
    {
        self.keys.next_destructor(self.hand, t)
    }

    /// The destructor of a key, 0 of a key that has none (pthread_key_create).
    pub fn destructor(&self, key: KeyNo) -> u32
        ensures { result ≡ destructor_of self.now.here.keys key }
    {
        self.keys.destructor(self.hand, key)
    }

    /// The least number of no thread; None where all are in use (pthread_create).
    pub fn first_free_thread(&self) -> Option<ThreadNo>
        ensures { result ≡ least_free self.now.here.threads }
    {
        self.roster.threads().first_free(self.hand)
    }
}
