//! What call 10 asks for: the words of its attributes object, decoded.

ghost use Rattle.std.specs.Prelude.{◌≡◌};
ghost use Rattle.ptk_words_model.specs.ThreadCreation.{policy_of, readable_attributes, asked_scheduling, given_stack_top, asked_creation, creation_at};

use ptk_gate_moves::{Pools, is_pointer, named_priority};
use ptk_words::{Errno, Policy, read_word};
use ptk_words_model::{Creation, Scheduling};
use std::marker::Model;

/// The attributes of a new thread as words of the guest (pthread_attr_init; own choice of their numbers).
#[derive(Clone, Copy)]
struct ThreadAttributes {
    detach: u32,
    inherit: u32,
    policy: u32,
    priority: u32,
    stack_top: u32,
}

impl Model for ThreadAttributes {
    ghost use Rattle.ptk_words_model.specs.ThreadCreation.{Attributes};

    ghost Value = { Attributes };

    ghost view = { λ a. record { detach = a.detach; inherit = a.inherit; policy = a.policy; priority = a.priority; stack_top = a.stack_top } };

    ghost inverse = { λ d. record { detach = d.detach; inherit = d.inherit; policy = d.policy; priority = d.priority; stack_top = d.stack_top } };
}

/// What the attributes object at the pointer asks for; pointer 0 stands for words that are all 0. EFAULT where the
/// object can't be read, and the faults of `decode`.
pub(crate) fn requested(pools: &Pools, pointer: u32) -> Result<Creation, Errno>
    ensures { result ≡ creation_at pools.now.here pointer }
{
    let attributes = read_attributes(pools, pointer)?;
    decode(&attributes, pools.memory().len())
}

/// The attributes object at the pointer, all 0 at pointer 0. EFAULT where it can't be read.
fn read_attributes(pools: &Pools, pointer: u32) -> Result<ThreadAttributes, Errno>
    ensures { result ≡ readable_attributes pools.now.here pointer }
{
    if pointer == 0 {
        return Ok(ThreadAttributes {
            detach: 0,
            inherit: 0,
            policy: 0,
            priority: 0,
            stack_top: 0,
        });
    }
    if !is_pointer(pools, pointer, 20) {
        return Err(Errno::EFAULT);
    }
    let memory = pools.memory();
    let at = pointer as usize;
    Ok(ThreadAttributes {
        detach: read_word(memory, at),
        inherit: read_word(memory, at + 4),
        policy: read_word(memory, at + 8),
        priority: read_word(memory, at + 12),
        stack_top: read_word(memory, at + 16),
    })
}

/// What these attributes ask for, in a memory of this many bytes. In this order (own choice): EINVAL where detach or
/// inherit is neither 0 nor 1, the faults of `decode_scheduling`, EINVAL where the stack top is no multiple of 16 or
/// lies past the memory.
fn decode(attributes: &ThreadAttributes, memory: usize) -> Result<Creation, Errno>
    ensures { result ≡ asked_creation attributes.now memory }
{
    if 1 < attributes.detach || 1 < attributes.inherit {
        return Err(Errno::EINVAL);
    }
    let scheduling = decode_scheduling(attributes)?;
    if attributes.stack_top % 16 != 0 || memory < attributes.stack_top as usize {
        return Err(Errno::EINVAL);
    }
    Ok(Creation {
        scheduling,
        is_detached: attributes.detach == 1,
        stack_top: given_stack_top(attributes.stack_top),
    })
}

/// The scheduling that these attributes ask for. If it is explicit: ENOTSUP of an unknown policy, then EINVAL of a word
/// that is no priority.
fn decode_scheduling(attributes: &ThreadAttributes) -> Result<Scheduling, Errno>
    ensures { result ≡ asked_scheduling attributes.now }
{
    if attributes.inherit != 1 {
        return Ok(Scheduling::Inherited);
    }
    let policy = named_policy(attributes.policy).ok_or(Errno::ENOTSUP)?;
    let priority = named_priority(attributes.priority).ok_or(Errno::EINVAL)?;
    Ok(Scheduling::Explicit(policy, priority))
}

/// The stack top that a word gives, None of 0 (own choice).
fn given_stack_top(word: u32) -> Option<u32>
    ensures { result ≡ given_stack_top word }
{
    if word == 0 { None } else { Some(word) }
}

/// The policy of a guest's number, None of another word (own choice).
pub(crate) fn named_policy(word: u32) -> Option<Policy>
    ensures { result ≡ policy_of word }
{
    match word {
        1 => Some(Policy::Fifo),
        2 => Some(Policy::RoundRobin),
        _ => None,
    }
}
