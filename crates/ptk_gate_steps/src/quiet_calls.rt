//! Which calls are quiet, and how each is made on its caller's registers: pthread_self, pthread_getschedparam, a
//! pthread_detach that is refused, a number that is no call, lock and unlock of a mutex that nobody else wants, signal
//! and broadcast of a condition variable that nobody waits on, console_put, pthread_setspecific and
//! pthread_getspecific.

ghost use Rattle.std.specs.Prelude.{◌≡◌, ℕ, ◌<◌, ◌≤◌, true, false, not, None, Some, IfSome, is_some, option_and_then, option_map, unwrap_or};
ghost use Rattle.ptk_words.specs.Calls.{call_of};
ghost use Rattle.ptk_words.specs.Faults.{errno_number};
ghost use Rattle.ptk_words.specs.Processor.{register, with_register};
ghost use Rattle.ptk_words.specs.Threads.{is_taken};
ghost use Rattle.ptk_words.specs.declared.TheConstants.{A0, A1, A7};
ghost use Rattle.ptk_words.specs.Words.{word_at};
ghost use Rattle.ptk_words.specs.declared.calls.Call.TheVariants.{ConsolePut, PthreadDetach, PthreadGetschedparam, PthreadGetspecific, PthreadSelf, PthreadSetspecific, MutexLock, MutexUnlock, CondSignal, CondBroadcast};
ghost use Rattle.ptk_words.specs.declared.threads.Thread.{Thread};
ghost use Rattle.ptk_words_model.specs.Calls.{is_pointer};
ghost use Rattle.ptk_words_model.specs.Mutex.{mutex_at};
ghost use Rattle.ptk_words_model.specs.Priority.{thread_at};
ghost use Rattle.ptk_roster.specs.Plain.{is_releasable, is_takeable};
ghost use Rattle.ptk_gate_steps.specs.QuietCalls.{has_request, is_quiet_with, is_unwaited_at, mutex_pointed};
ghost use Rattle.ptk_gate_steps.specs.Replies.{IsMade};

use ptk_gate_moves::{Pools, is_pointer, named_thread, policy_number};
use ptk_keys::KeyNo;
use ptk_words::{A0, A1, A2, Call, Cpu, Errno, MutexNo, ThreadNo, read_word};

/// The greatest number of a mutex (own choice).
const MUTEX_LIMIT: u32 = 64;

/// Whether the thread's call, or a number that is no call, is quiet with this word in a0.
#[inline(always)]
pub(crate) fn is_quiet(pools: &Pools, t: ThreadNo, known: Option<Call>, a0: u32) -> bool
    ensures { result ≡ is_quiet_with known t a0 pools.now.here }
{
    match known {
        None
        | Some(
            Call::PthreadSelf
            | Call::PthreadGetschedparam
            | Call::PthreadSetspecific
            | Call::PthreadGetspecific,
        ) => true,
        Some(Call::PthreadDetach) => is_undetachable(pools, a0),
        Some(Call::ConsolePut) => !pools.is_point_acting(t),
        Some(Call::MutexLock) => takeable(pools, a0).is_some(),
        Some(Call::MutexUnlock) => releasable(pools, t, a0).is_some(),
        Some(Call::CondSignal | Call::CondBroadcast) => is_unwaited(pools, a0),
        Some(
            Call::Exit
            | Call::ConsoleGet
            | Call::ClockGettime
            | Call::ClockNanosleep
            | Call::PthreadCreate
            | Call::PthreadExit
            | Call::PthreadJoin
            | Call::SchedYield
            | Call::PthreadSetschedparam
            | Call::PthreadSetschedprio
            | Call::MutexInit
            | Call::MutexDestroy
            | Call::MutexTrylock
            | Call::MutexTimedlock
            | Call::MutexConsistent
            | Call::CondInit
            | Call::CondDestroy
            | Call::CondWait
            | Call::CondTimedwait
            | Call::PthreadCancel
            | Call::PthreadSetcancelstate
            | Call::PthreadSetcanceltype
            | Call::PthreadTestcancel
            | Call::CleanupPush
            | Call::CleanupPop
            | Call::KeyCreate
            | Call::KeyDelete,
        ) => false,
    }
}

/// Makes the call that its caller's registers state, where it is quiet: the reply is in these registers, and the rest
/// of the partition is as the call leaves it. False, and nothing changes, of any other call. The caller's registers in
/// its slot, its used ticks and the last step stay, and what is made is the same whatever they are.
#[inline(always)]
pub(crate) fn put_reply(pools: &mut Pools, t: ThreadNo, known: Option<Call>, cpu: &mut Cpu) -> bool
    requires known { known ≡ call_of (register cpu.old A7) }
    ensures quiet { result ≡ is_quiet_with known t (register cpu.old A0) pools.old.here }
    ensures made { result ≡ true → IsMade t cpu.old cpu.new pools.old pools.new }
    ensures none { result ≡ false → (pools.new ≡ pools.old) × (cpu.new ≡ cpu.old) }
{
    match known {
        None => {
            refuse_unknown(pools, cpu);
            true
        }
        Some(Call::PthreadSelf) => {
            tell_self(pools, t, cpu);
            true
        }
        Some(Call::PthreadGetschedparam) => {
            tell_scheduling(pools, cpu);
            true
        }
        Some(Call::PthreadDetach) => refuse_detachment(pools, cpu),
        Some(Call::ConsolePut) => put_out(pools, t, cpu),
        Some(Call::MutexLock) => lock(pools, t, cpu),
        Some(Call::MutexUnlock) => unlock(pools, t, cpu),
        Some(Call::CondSignal | Call::CondBroadcast) => signal(pools, cpu),
        Some(Call::PthreadSetspecific) => {
            set_specific(pools, t, cpu);
            true
        }
        Some(Call::PthreadGetspecific) => {
            tell_specific(pools, t, cpu);
            true
        }
        // a call that is never quiet: `is_quiet` lists them
        Some(_) => false,
    }
}

/// The mutex of the word at a pointer, where a lock takes it and no priority changes. None of any other word.
#[inline(always)]
fn takeable(pools: &Pools, pointer: u32) -> Option<MutexNo>
    ensures some { IfSome result (λ m. (is_pointer pools.now.here pointer 4 ≡ true) × (word_at pools.now.here.memory pointer ≡ m) × (0 < m) × (is_takeable (mutex_at pools.now.here.locks m) ≡ true)) }
    ensures told { is_some result ≡ is_takeable (mutex_pointed pointer pools.now.here) }
{
    let m = mutex_numbered(pools, pointer)?;
    if pools.is_takeable(m) { Some(m) } else { None }
}

/// The mutex of the word at a pointer, where an unlock by the thread frees it, wakes nobody and changes no priority.
/// None of any other word.
#[inline(always)]
fn releasable(pools: &Pools, t: ThreadNo, pointer: u32) -> Option<MutexNo>
    ensures some { IfSome result (λ m. (is_pointer pools.now.here pointer 4 ≡ true) × (word_at pools.now.here.memory pointer ≡ m) × (0 < m) × (is_releasable t (mutex_at pools.now.here.locks m) ≡ true)) }
    ensures told { is_some result ≡ is_releasable t (mutex_pointed pointer pools.now.here) }
{
    let m = mutex_numbered(pools, pointer)?;
    if pools.is_releasable(t, m) {
        Some(m)
    } else {
        None
    }
}

/// The number of a mutex that the word at a pointer is, whether one has it or not; None of a pointer to no word, of 0
/// and of a word above 64.
#[inline(always)]
#[tactic(auto, using(ptk_gate_moves::proofs::Pointers::pointers, crate::proofs::QuietCalls::pointings))]
fn mutex_numbered(pools: &Pools, pointer: u32) -> Option<MutexNo>
    ensures named { IfSome result (λ m. (is_pointer pools.now.here pointer 4 ≡ true) × (word_at pools.now.here.memory pointer ≡ m) × (0 < m)) }
    ensures pointed { option_and_then (λ m. mutex_at pools.now.here.locks m) result ≡ mutex_pointed pointer pools.now.here }
{
    if !is_pointer(pools, pointer, 4) {
        return None;
    }
    let word = read_word(pools.memory(), pointer as usize);
    if word == 0 || MUTEX_LIMIT < word {
        return None;
    }
    Some(MutexNo::new(word as u8))
}

/// Whether the word at a pointer is the number of a condition variable that nobody waits on; false of a pointer to no
/// word, and of the word 0.
#[inline(always)]
#[tactic(auto, using(ptk_gate_moves::proofs::Pointers::pointers, crate::proofs::SignalsMade::unwaited))]
fn is_unwaited(pools: &Pools, pointer: u32) -> bool
    ensures { result ≡ is_unwaited_at pointer pools.now.here }
{
    if !is_pointer(pools, pointer, 4) {
        return false;
    }
    match pools.condition_numbered(read_word(pools.memory(), pointer as usize)) {
        Some(c) => !pools.has_condition_waiters(c),
        None => false,
    }
}

/// Whether no thread has the word as its number, or that thread is detached or has a joiner.
fn is_undetachable(pools: &Pools, word: u32) -> bool
    ensures { result ≡ unwrap_or (option_map (λ (thread : Thread). is_taken thread) (thread_at pools.now.here.locks word)) true }
{
    match named_thread(pools, word) {
        Some(target) => target.is_taken(),
        None => true,
    }
}

/// The lock of a mutex that its caller takes with no change of priority: 0 in a0, and the caller owns it, counted once.
/// False, and nothing changes, of any other.
#[inline(always)]
#[tactic(auto, using(crate::proofs::LocksMade::locks))]
fn lock(pools: &mut Pools, t: ThreadNo, cpu: &mut Cpu) -> bool
    ensures quiet { result ≡ is_takeable (mutex_pointed (register cpu.old A0) pools.old.here) }
    ensures made { call_of (register cpu.old A7) ≡ Some MutexLock → result ≡ true → IsMade t cpu.old cpu.new pools.old pools.new }
    ensures none { result ≡ false → (pools.new ≡ pools.old) × (cpu.new ≡ cpu.old) }
{
    let Some(m) = takeable(pools, cpu.register(A0)) else {
        return false;
    };
    cpu.set_register(A0, 0);
    pools.take_plain(t, m);
    true
}

/// The unlock of a mutex that its caller locked once, which wakes nobody and changes no priority: 0 in a0, and nobody
/// owns it. False, and nothing changes, of any other.
#[inline(always)]
#[tactic(auto, using(crate::proofs::LocksMade::locks))]
fn unlock(pools: &mut Pools, t: ThreadNo, cpu: &mut Cpu) -> bool
    ensures quiet { result ≡ is_releasable t (mutex_pointed (register cpu.old A0) pools.old.here) }
    ensures made { call_of (register cpu.old A7) ≡ Some MutexUnlock → result ≡ true → IsMade t cpu.old cpu.new pools.old pools.new }
    ensures none { result ≡ false → (pools.new ≡ pools.old) × (cpu.new ≡ cpu.old) }
{
    let Some(m) = releasable(pools, t, cpu.register(A0)) else {
        return false;
    };
    cpu.set_register(A0, 0);
    pools.release_plain(m);
    true
}

/// The signal or the broadcast of a condition variable that nobody waits on: 0 in a0. False, and the registers stay,
/// of any other.
#[inline(always)]
#[tactic(auto, using(crate::proofs::SignalsMade::signals))]
fn signal(pools: &Pools, cpu: &mut Cpu) -> bool
    ensures quiet { result ≡ is_unwaited_at (register cpu.old A0) pools.now.here }
    ensures signal { (t : ℕ) → call_of (register cpu.old A7) ≡ Some CondSignal → result ≡ true → IsMade t cpu.old cpu.new pools.now pools.now }
    ensures broadcast { (t : ℕ) → call_of (register cpu.old A7) ≡ Some CondBroadcast → result ≡ true → IsMade t cpu.old cpu.new pools.now pools.now }
    ensures none { result ≡ false → cpu.new ≡ cpu.old }
{
    if !is_unwaited(pools, cpu.register(A0)) {
        return false;
    }
    cpu.set_register(A0, 0);
    true
}

/// The console_put of a caller with no pending request: the low 8 bits of a0 at the end of the output and 0 in a0, or
/// EAGAIN where the output is full. False, and nothing changes, of one that may be cancelled.
#[inline(always)]
#[tactic(auto, using(crate::proofs::RepliesPut::outputs))]
fn put_out(pools: &mut Pools, t: ThreadNo, cpu: &mut Cpu) -> bool
    ensures quiet { result ≡ not (has_request t pools.old.here) }
    ensures made { call_of (register cpu.old A7) ≡ Some ConsolePut → result ≡ true → IsMade t cpu.old cpu.new pools.old pools.new }
    ensures none { result ≡ false → (pools.new ≡ pools.old) × (cpu.new ≡ cpu.old) }
{
    if pools.is_point_acting(t) {
        return false;
    }
    if pools.is_output_full() {
        refuse(cpu, Errno::EAGAIN);
        return true;
    }
    let byte = (cpu.register(A0) % 256) as u8;
    cpu.set_register(A0, 0);
    pools.put_byte(byte);
    true
}

/// pthread_setspecific: the caller's value of the key of a0 is the word of a1, and 0 in a0; EINVAL of an unknown key.
#[inline(always)]
#[tactic(auto, using(crate::proofs::RepliesPut::values))]
fn set_specific(pools: &mut Pools, t: ThreadNo, cpu: &mut Cpu)
    ensures { call_of (register cpu.old A7) ≡ Some PthreadSetspecific → IsMade t cpu.old cpu.new pools.old pools.new }
{
    let key = KeyNo::new(cpu.register(A0));
    if !pools.is_key(key) {
        refuse(cpu, Errno::EINVAL);
        return;
    }
    let value = cpu.register(A1);
    cpu.set_register(A0, 0);
    pools.set_value(t, key, value);
}

/// The reply of pthread_getspecific: the caller's value of the key of a0, 0 of an unknown key.
#[inline(always)]
#[tactic(auto, using(crate::proofs::RepliesPut::values))]
fn tell_specific(pools: &Pools, t: ThreadNo, cpu: &mut Cpu)
    ensures { call_of (register cpu.old A7) ≡ Some PthreadGetspecific → IsMade t cpu.old cpu.new pools.now pools.now }
{
    let value = pools.value(t, KeyNo::new(cpu.register(A0)));
    tell(cpu, value);
}

/// The reply to a number that is no call: ENOSYS.
#[inline(always)]
#[tactic(auto, using(crate::proofs::RepliesPut::replies))]
fn refuse_unknown(pools: &Pools, cpu: &mut Cpu)
    ensures { (t : ℕ) → call_of (register cpu.old A7) ≡ None → IsMade t cpu.old cpu.new pools.now pools.now }
{
    refuse(cpu, Errno::ENOSYS);
}

/// The reply of pthread_self: the caller's number.
#[inline(always)]
#[tactic(auto, using(crate::proofs::RepliesPut::replies))]
fn tell_self(pools: &Pools, t: ThreadNo, cpu: &mut Cpu)
    ensures { call_of (register cpu.old A7) ≡ Some PthreadSelf → IsMade t cpu.old cpu.new pools.now pools.now }
{
    tell(cpu, t.number() as u32);
}

/// The error number in a0.
fn refuse(cpu: &mut Cpu, errno: Errno)
    ensures { cpu.new ≡ with_register cpu.old A0 (errno_number errno) }
{
    let number = errno.number();
    cpu.set_register(A0, number);
}

/// 0 in a0, and a value in a1.
fn tell(cpu: &mut Cpu, value: u32)
    ensures { cpu.new ≡ with_register (with_register cpu.old A0 0) A1 value }
{
    cpu.set_register(A0, 0);
    cpu.set_register(A1, value);
}

/// The reply of pthread_getschedparam: the policy and the assigned priority of the thread of a0, or ESRCH.
#[tactic(auto, using(crate::proofs::RepliesPut::replies))]
fn tell_scheduling(pools: &Pools, cpu: &mut Cpu)
    ensures { (t : ℕ) → call_of (register cpu.old A7) ≡ Some PthreadGetschedparam → IsMade t cpu.old cpu.new pools.now pools.now }
{
    match named_thread(pools, cpu.register(A0)) {
        Some(target) => {
            let priority = target.priority;
            tell(cpu, policy_number(target.policy));
            cpu.set_register(A2, priority.level() as u32);
        }
        None => refuse(cpu, Errno::ESRCH),
    }
}

/// The reply of a pthread_detach that is refused: ESRCH of a number that is not in use, EINVAL of a thread that is
/// detached or has a joiner. False, and the registers stay, of one that detaches.
#[tactic(auto, using(crate::proofs::RepliesPut::replies))]
fn refuse_detachment(pools: &Pools, cpu: &mut Cpu) -> bool
    ensures quiet { result ≡ unwrap_or (option_map (λ (thread : Thread). is_taken thread) (thread_at pools.now.here.locks (register cpu.old A0))) true }
    ensures made { (t : ℕ) → call_of (register cpu.old A7) ≡ Some PthreadDetach → result ≡ true → IsMade t cpu.old cpu.new pools.now pools.now }
    ensures none { result ≡ false → cpu.new ≡ cpu.old }
{
    let Some(target) = named_thread(pools, cpu.register(A0)) else {
        refuse(cpu, Errno::ESRCH);
        return true;
    };
    if !target.is_taken() {
        return false;
    }
    refuse(cpu, Errno::EINVAL);
    true
}
