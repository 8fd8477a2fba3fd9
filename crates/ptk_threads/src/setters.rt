//! A setter for each field of a thread that changes. Each sets one field of one thread, and all else stays; a free number
//! stays free, and then nothing changes.

ghost use Rattle.std.specs.Prelude.{◌≡◌, ◌<◌, length};
ghost use Rattle.ptk_threads.specs.Table.{with_changed, with_cpu, with_policy, with_priority, with_used, with_phase, with_joiner, with_result, with_wait};

use crate::change::ThreadField;
use crate::threads::Threads;
use ptk_words::{Cpu, PartId, Phase, Policy, Priority, ThreadNo, Wait};

impl Threads {
    /// Sets its registers and pc.
    pub fn set_cpu(&mut self, p: PartId, k: ThreadNo, cpu: Cpu)
        requires { p < length self.old.threads }
        ensures { self.new ≡ with_changed p k (with_cpu cpu) self.old }
    {
        self.update_if_used(p, k, &ThreadField::Registers(cpu));
    }

    /// Sets its policy (XSH 2.8.4).
    pub fn set_policy(&mut self, p: PartId, k: ThreadNo, policy: Policy)
        requires { p < length self.old.threads }
        ensures { self.new ≡ with_changed p k (with_policy policy) self.old }
    {
        self.update_if_used(p, k, &ThreadField::Policy(policy));
    }

    /// Sets its assigned priority (XSH 2.8.4); the stored effective priority stays.
    pub fn set_assigned_priority(&mut self, p: PartId, k: ThreadNo, priority: Priority)
        requires { p < length self.old.threads }
        ensures { self.new ≡ with_changed p k (with_priority priority) self.old }
    {
        self.update_if_used(p, k, &ThreadField::AssignedPriority(priority));
    }

    /// Sets the ticks that it used of a round-robin interval (XSH 2.8.4, SCHED_RR).
    pub fn set_used(&mut self, p: PartId, k: ThreadNo, ticks: u32)
        requires { p < length self.old.threads }
        ensures { self.new ≡ with_changed p k (with_used ticks) self.old }
    {
        self.update_if_used(p, k, &ThreadField::Used(ticks));
    }

    /// Sets how far it is (pthread_exit).
    pub fn set_phase(&mut self, p: PartId, k: ThreadNo, phase: Phase)
        requires { p < length self.old.threads }
        ensures { self.new ≡ with_changed p k (with_phase phase) self.old }
    {
        self.update_if_used(p, k, &ThreadField::Phase(phase));
    }

    /// Sets the thread that waits for its end, or none (pthread_join).
    pub fn set_joiner(&mut self, p: PartId, k: ThreadNo, joiner: Option<ThreadNo>)
        requires { p < length self.old.threads }
        ensures { self.new ≡ with_changed p k (with_joiner joiner) self.old }
    {
        self.update_if_used(p, k, &ThreadField::Joiner(joiner));
    }

    /// Sets the result that a joiner gets (pthread_join).
    pub fn set_result(&mut self, p: PartId, k: ThreadNo, value: u32)
        requires { p < length self.old.threads }
        ensures { self.new ≡ with_changed p k (with_result value) self.old }
    {
        self.update_if_used(p, k, &ThreadField::Result(value));
    }

    /// Sets what it waits for, or nothing (XSH 2.8.4); the deadline that is kept for it follows.
    pub fn set_wait(&mut self, p: PartId, k: ThreadNo, wait: Option<Wait>)
        requires { p < length self.old.threads }
        ensures { self.new ≡ with_changed p k (with_wait wait) self.old }
    {
        self.update_if_used(p, k, &ThreadField::Wait(wait));
    }
}
