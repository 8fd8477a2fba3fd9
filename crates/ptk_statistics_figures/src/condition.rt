//! The figures of a condition variable.

/// How often calls were made that wake threads, and how often they woke nobody.
#[derive(Clone, Copy, Default)]
pub struct Wakes {
    /// How often such a call was made with success.
    pub made: u64,
    /// How many of these calls woke nobody.
    pub in_vain: u64,
}

impl Wakes {
    /// One more call was made, which has woken nobody so far.
    pub fn make(&mut self) {
        self.made = self.made.saturating_add(1);
        self.in_vain = self.in_vain.saturating_add(1);
    }

    /// The last call has woken a thread.
    pub fn wake(&mut self) {
        self.in_vain = self.in_vain.saturating_sub(1);
    }
}

/// The calls that wake threads from a condition variable.
#[derive(Clone, Copy, Default)]
pub struct ConditionStatistics {
    /// Those of pthread_cond_signal.
    pub signals: Wakes,
    /// Those of pthread_cond_broadcast.
    pub broadcasts: Wakes,
}

impl ConditionStatistics {
    /// Whether a call was made.
    pub fn is_used(&self) -> bool {
        self.signals.made != 0 || self.broadcasts.made != 0
    }

    /// The calls of a kind.
    pub fn wakes(&mut self, kind: WakeKind) -> &mut Wakes {
        match kind {
            WakeKind::Signal => &mut self.signals,
            WakeKind::Broadcast => &mut self.broadcasts,
        }
    }
}

/// The kinds of calls that wake threads from a condition variable.
#[derive(Clone, Copy, PartialEq, Eq)]
pub enum WakeKind {
    /// pthread_cond_signal.
    Signal,
    /// pthread_cond_broadcast.
    Broadcast,
}
