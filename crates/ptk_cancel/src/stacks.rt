//! The stacks of cleanup handlers of one partition's threads, by number.

ghost use Rattle.std.specs.Prelude.{◌≡◌, [], ◌∷◌, drop, length, nat_lt, replicate, slice_get, unwrap_or, if◌then◌else◌, IfOk};
ghost use Rattle.ptk_words.specs.Pools.{numbered, pool_update};

use crate::stack::Stack;
use ptk_words::{CLEANUP_LIMIT, Cleanup, ThreadNo};
use std::alloc::{AllocError, Global};

/// An empty stack for each of this many threads. An error where memory ran out.
pub(crate) fn empty_stacks(alloc: Global, threads: u32) -> Result<Vec<Stack>, AllocError>
    ensures { IfOk result (λ stacks. stacks.items ≡ replicate threads []) }
{
    let mut stacks = Vec::new(alloc);
    for i in 0..threads {
        stacks.push(Stack::new())?;
    }
    Ok(stacks)
}

/// The thread begins without a handler.
#[tactic(auto, using(crate::proofs::Numbered::numbers, crate::proofs::Numbered::entries))]
pub(crate) fn clear_in(stacks: &mut [Stack], t: ThreadNo)
    ensures { stacks.new ≡ pool_update stacks.old t (λ _. []) }
{
    let place = t.place();
    if place < stacks.len() {
        let stack = &mut stacks[place];
        stack.clear();
    }
}

/// Puts a handler on top of the thread's; false, and nothing changes, where 16 are there.
#[tactic(auto, using(crate::proofs::Numbered::numbers))]
pub(crate) fn push_in(stacks: &mut [Stack], t: ThreadNo, cleanup: Cleanup) -> bool
    ensures told { result ≡ nat_lt (length (unwrap_or (numbered stacks.old t) [])) CLEANUP_LIMIT }
    ensures moved { stacks.new ≡ (if result then pool_update stacks.old t (λ cleanups. cleanup ∷ cleanups) else stacks.old) }
{
    let place = t.place();
    if place >= stacks.len() {
        return true;
    }
    let stack = &mut stacks[place];
    stack.push(cleanup)
}

/// Takes the thread's handler pushed last off, if there is one.
#[tactic(auto, using(crate::proofs::Numbered::numbers))]
pub(crate) fn pop_in(stacks: &mut [Stack], t: ThreadNo) -> Option<Cleanup>
    ensures told { result ≡ slice_get (unwrap_or (numbered stacks.old t) []) 0 }
    ensures moved { stacks.new ≡ pool_update stacks.old t (drop 1) }
{
    let place = t.place();
    if place >= stacks.len() {
        return None;
    }
    let stack = &mut stacks[place];
    stack.pop()
}
