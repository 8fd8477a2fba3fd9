//! What changes of one thread where it lies in the table.

ghost use Rattle.std.specs.Prelude.{◌≡◌, ◌<◌, length};
ghost use Rattle.ptk_words.specs.declared.threads.Thread.{Thread};
ghost use Rattle.ptk_clock.specs.Schedule.{with_reply, with_registers};
ghost use Rattle.ptk_threads.specs.Timed.{TellsDeadline};

use ptk_words::{A0, Cpu, Phase, Policy, Priority, Thread, ThreadNo, Tick, Wait};

/// A change of one thread; the rest of the thread stays.
pub trait ThreadChange {
    /// Which of its values may be made.
    ghost can_make: { Self → Type 0 };

    /// The thread that it makes of one.
    ghost changed: { Self → Thread → Thread };

    /// Makes it.
    fn make(&self, thread: &mut Thread)
        requires { can_make self.now }
        ensures { thread.new ≡ changed self.now thread.old };

    /// What becomes of the deadline of the thread's wait.
    fn deadline(&self) -> DeadlineChange
        ensures { TellsDeadline result (changed self.now) };
}

/// What becomes of the deadline of a thread's wait.
#[derive(Clone, Copy)]
pub enum DeadlineChange {
    /// It stays, as the wait does.
    Stays,
    /// It is this one, or there is none.
    Becomes(Option<Tick>),
}

/// A field of a thread, with its new value.
#[derive(Clone, Copy)]
pub enum ThreadField {
    /// The address at which it goes on; its registers stay.
    Address(u32),
    /// Its registers, and the address at which it goes on.
    Registers(Cpu),
    /// Its policy (XSH 2.8.4).
    Policy(Policy),
    /// Its assigned priority (XSH 2.8.4).
    AssignedPriority(Priority),
    /// The ticks that it used of a round-robin interval (XSH 2.8.4, SCHED_RR).
    Used(u32),
    /// How far it is (pthread_exit).
    Phase(Phase),
    /// The thread that waits for its end, or none (pthread_join).
    Joiner(Option<ThreadNo>),
    /// The result that a joiner gets (pthread_join).
    Result(u32),
    /// What it waits for, or nothing (XSH 2.8.4).
    Wait(Option<Wait>),
}

/// At most 3 values, in a0, a1 and so on; the address at which the thread goes on stays.
#[derive(Clone, Copy)]
pub struct Values<'a> {
    /// The values, that of a0 first.
    pub values: &'a [u32],
}

/// At most 3 values, in a0, a1 and so on, and no tick used of the thread's interval (XSH 2.8.4, SCHED_RR).
#[derive(Clone, Copy)]
pub struct Renewed<'a> {
    /// The values, that of a0 first.
    pub values: &'a [u32],
}

/// The same, and the thread waits for nothing any more (XSH 2.8.4).
#[derive(Clone, Copy)]
pub struct Woken<'a> {
    /// The values, that of a0 first.
    pub values: &'a [u32],
}

impl ThreadChange for ThreadField {
    ghost use Rattle.std.specs.Prelude.{⊤};
    ghost use Rattle.ptk_threads.specs.Changes.{with_field};

    ghost can_make = { λ field. ⊤ };

    ghost changed = { λ field. with_field field };

    #[inline(always)]
    fn make(&self, thread: &mut Thread) {
        match self {
            ThreadField::Address(pc) => {
                let cpu = &mut thread.cpu;
                cpu.set_pc(*pc);
            }
            ThreadField::Registers(cpu) => thread.cpu = *cpu,
            ThreadField::Policy(policy) => thread.policy = *policy,
            ThreadField::AssignedPriority(priority) => thread.priority = *priority,
            ThreadField::Used(used) => thread.used = *used,
            ThreadField::Phase(phase) => thread.phase = *phase,
            ThreadField::Joiner(joiner) => thread.joiner = *joiner,
            ThreadField::Result(result) => thread.result = *result,
            ThreadField::Wait(wait) => thread.wait = *wait,
        }
    }

    #[inline(always)]
    fn deadline(&self) -> DeadlineChange {
        match self {
            ThreadField::Wait(wait) => DeadlineChange::Becomes(wait.and_then(Wait::deadline)),
            ThreadField::Address(_)
            | ThreadField::Registers(_)
            | ThreadField::Policy(_)
            | ThreadField::AssignedPriority(_)
            | ThreadField::Used(_)
            | ThreadField::Phase(_)
            | ThreadField::Joiner(_)
            | ThreadField::Result(_) => DeadlineChange::Stays,
        }
    }
}

impl ThreadChange for Values<'_> {
    ghost use Rattle.std.specs.Prelude.{◌<◌, length};
    ghost use Rattle.ptk_clock.specs.Schedule.{with_reply};

    ghost can_make = { λ change. length change.values.now < 4 };

    ghost changed = { λ change. with_reply change.values.now };

    #[inline(always)]
    fn make(&self, thread: &mut Thread) {
        put_values(thread, self.values);
    }

    #[inline(always)]
    fn deadline(&self) -> DeadlineChange {
        DeadlineChange::Stays
    }
}

impl ThreadChange for Renewed<'_> {
    ghost use Rattle.std.specs.Prelude.{◌<◌, length};
    ghost use Rattle.ptk_threads.specs.Changes.{renewed_with};

    ghost can_make = { λ change. length change.values.now < 4 };

    ghost changed = { λ change. renewed_with change.values.now };

    #[inline(always)]
    fn make(&self, thread: &mut Thread) {
        put_values(thread, self.values);
        thread.used = 0;
    }

    #[inline(always)]
    fn deadline(&self) -> DeadlineChange {
        DeadlineChange::Stays
    }
}

impl ThreadChange for Woken<'_> {
    ghost use Rattle.std.specs.Prelude.{◌<◌, length};
    ghost use Rattle.ptk_clock.specs.Schedule.{woken_with};

    ghost can_make = { λ change. length change.values.now < 4 };

    ghost changed = { λ change. woken_with change.values.now };

    #[inline(always)]
    fn make(&self, thread: &mut Thread) {
        put_values(thread, self.values);
        thread.wait = None;
        thread.used = 0;
    }

    #[inline(always)]
    fn deadline(&self) -> DeadlineChange {
        DeadlineChange::Becomes(None)
    }
}

/// Puts the values into a thread's registers from a0 on.
#[inline(always)]
fn put_values(thread: &mut Thread, values: &[u32])
    requires { length values.now < 4 }
    ensures { thread.new ≡ with_reply values.now thread.old }
{
    let cpu = &mut thread.cpu;
    write_values(cpu, values);
}

/// Puts the values into the registers from a0 on.
#[tactic(auto, using(crate::proofs::Registers::registers))]
fn write_values(cpu: &mut Cpu, values: &[u32])
    requires { length values.now < 4 }
    ensures { cpu.new ≡ with_registers cpu.old A0 values.now }
{
    for (i, value) in values.iter().enumerate() {
        cpu.set_register(A0 + i as u32, *value);
    }
}
