//! A list of threads, none twice, with room for all.

ghost use Rattle.std.specs.Prelude.{◌≡◌, false, [], ◌∷◌, ◌++◌, IfOk, vec_capacity};
ghost use Rattle.ptk_words.specs.Pools.{without, is_in};

use crate::{THREAD_LIMIT, ThreadNo};
use std::alloc::{AllocError, Global};
use std::marker::Model;

/// Threads of one partition in an order, none twice, with room for all of them.
#[derive(Drop)]
pub struct Queue {
    threads: Vec<ThreadNo>,
}

impl Model for Queue {
    ghost use Rattle.std.specs.Prelude.{ℕ, ◌≤◌, List, vec_capacity};
    ghost use Rattle.ptk_words.specs.Lists.{IsLine};

    ghost Value = { List ℕ };

    ghost view = { λ a. a.threads.items };

    ghost invariant = { λ a. IsLine a.threads.items × (32 ≤ vec_capacity a.threads) };
}

impl Queue {
    /// No thread. An error where memory ran out.
    #[tactic(auto, using(crate::proofs::QueueLists::lines))]
    pub fn new(alloc: Global) -> Result<Queue, AllocError>
        ensures { IfOk result (λ queue. queue ≡ []) }
    {
        let threads = Vec::with_capacity(alloc, THREAD_LIMIT as usize)?;
        Ok(Queue { threads })
    }

    /// The threads, in their order.
    pub fn threads(&self) -> &[ThreadNo]
        ensures { result.now ≡ self.now }
    {
        self.threads.as_slice()
    }

    /// A thread that is not there goes to the end.
    #[tactic(auto, using(crate::proofs::QueueLists::lines))]
    pub fn push_tail(&mut self, k: ThreadNo)
        requires { is_in k self.old ≡ false }
        ensures { self.new ≡ self.old ++ k ∷ [] }
    {
        let _number = k.number();
        self.threads.push_reserved(k);
    }

    /// A thread that is not there goes to the front.
    #[tactic(auto, using(crate::proofs::QueueLists::lines))]
    pub fn push_head(&mut self, k: ThreadNo)
        requires { is_in k self.old ≡ false }
        ensures { self.new ≡ k ∷ self.old }
    {
        let _number = k.number();
        // it has room, so this takes no memory
        let _ = self.threads.insert(0, k);
    }

    /// A thread leaves, if it is there.
    #[tactic(auto, using(crate::proofs::QueueLists::lines))]
    pub fn remove(&mut self, k: ThreadNo)
        ensures { self.new ≡ without k self.old }
    {
        take_out(&mut self.threads, k);
    }

    /// Whether a thread is there.
    pub fn contains(&self, k: ThreadNo) -> bool
        ensures { result ≡ is_in k self.now }
    {
        is_among(&self.threads, k)
    }
}

/// Whether a thread is among these.
fn is_among(threads: &[ThreadNo], k: ThreadNo) -> bool
    ensures { result ≡ is_in k threads.now }
{
    threads.iter().any(|j| k.number() == j.number())
}

/// The threads but one, in their order.
fn take_out(threads: &mut Vec<ThreadNo>, k: ThreadNo)
    ensures items { threads.new.items ≡ without k threads.old.items }
    ensures capacity { vec_capacity threads.new ≡ vec_capacity threads.old }
{
    threads.retain(|j| j.number() != k.number());
}
