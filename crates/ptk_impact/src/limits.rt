//! The limits that differ.

ghost use Rattle.std.specs.Prelude.{◌≡◌};
ghost use Rattle.ptk_impact.specs.Changes.{AreLimitChanges, IsNumberChange};

use ptk_words::Limits;

/// A limit that differs.
#[derive(Clone, Copy)]
pub struct LimitChange {
    /// The old number.
    pub old: u32,
    /// The new number.
    pub new: u32,
}

impl LimitChange {
    /// The two numbers, None if they are the same.
    pub(crate) fn between(old: u32, new: u32) -> Option<LimitChange>
        ensures { IsNumberChange old new result }
    {
        if old == new {
            None
        } else {
            Some(LimitChange { old, new })
        }
    }
}

/// Of each limit the two numbers, None if they are the same.
#[derive(Clone, Copy)]
pub struct LimitChanges {
    /// Bytes of memory.
    pub memory: Option<LimitChange>,
    /// The greatest number of threads.
    pub threads: Option<LimitChange>,
    /// Bytes of a thread's default stack.
    pub stack: Option<LimitChange>,
    /// The greatest number of mutexes.
    pub mutexes: Option<LimitChange>,
    /// The greatest number of condition variables.
    pub conditions: Option<LimitChange>,
    /// The greatest number of keys.
    pub keys: Option<LimitChange>,
    /// Ticks of a round-robin interval.
    pub interval: Option<LimitChange>,
    /// Bytes of the input ring.
    pub ring: Option<LimitChange>,
    /// Bytes of output.
    pub output: Option<LimitChange>,
    /// Entries of the trace.
    pub trace: Option<LimitChange>,
}

impl LimitChanges {
    /// The limits that differ.
    pub(crate) fn between(old: Limits, new: Limits) -> LimitChanges
        ensures { AreLimitChanges old new result }
    {
        LimitChanges {
            memory: LimitChange::between(old.memory, new.memory),
            threads: LimitChange::between(old.threads, new.threads),
            stack: LimitChange::between(old.stack, new.stack),
            mutexes: LimitChange::between(old.mutexes, new.mutexes),
            conditions: LimitChange::between(old.conditions, new.conditions),
            keys: LimitChange::between(old.keys, new.keys),
            interval: LimitChange::between(old.interval, new.interval),
            ring: LimitChange::between(old.ring, new.ring),
            output: LimitChange::between(old.output, new.output),
            trace: LimitChange::between(old.trace, new.trace),
        }
    }

    /// Whether a limit differs.
    pub fn is_any(&self) -> bool {
        let is_of_memory = self.memory.is_some() || self.threads.is_some() || self.stack.is_some();
        let is_of_objects = self.mutexes.is_some()
            || self.conditions.is_some()
            || self.keys.is_some();
        let is_of_console = self.ring.is_some() || self.output.is_some() || self.trace.is_some();
        is_of_memory || is_of_objects || self.interval.is_some() || is_of_console
    }
}
