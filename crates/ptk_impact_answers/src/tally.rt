//! How many partitions have which impact.

use ptk_impact::Impact;
use std::fmt;

/// How many partitions have which impact.
#[derive(Clone, Copy)]
pub struct Tally {
    /// Those that are unchanged.
    pub unchanged: usize,
    /// Those that are unchanged but for the trace kept.
    pub but_for_trace: usize,
    /// Those that are changed.
    pub changed: usize,
    /// Those that only the new configuration has.
    pub added: usize,
    /// Those that only the old configuration has.
    pub removed: usize,
}

impl Tally {
    /// None yet.
    pub(crate) fn new() -> Tally {
        Tally {
            unchanged: 0,
            but_for_trace: 0,
            changed: 0,
            added: 0,
            removed: 0,
        }
    }

    /// Whether none is counted.
    pub(crate) fn is_empty(&self) -> bool {
        self.unchanged == 0 && self.but_for_trace == 0 && self.is_same_run()
    }

    /// Counts a partition that both configurations have.
    pub(crate) fn count(&mut self, impact: &Impact) {
        match impact {
            Impact::Unchanged => self.unchanged = self.unchanged.saturating_add(1),
            Impact::UnchangedButForTrace(_) => {
                self.but_for_trace = self.but_for_trace.saturating_add(1);
            }
            Impact::Changed(_) => self.changed = self.changed.saturating_add(1),
        }
    }

    /// Counts a partition that only the new configuration has.
    pub(crate) fn count_added(&mut self) {
        self.added = self.added.saturating_add(1);
    }

    /// Counts a partition that only the old configuration has.
    pub(crate) fn count_removed(&mut self) {
        self.removed = self.removed.saturating_add(1);
    }

    /// Whether every partition is the same run in both: none is changed, new or gone.
    pub fn is_same_run(&self) -> bool {
        self.changed == 0 && self.added == 0 && self.removed == 0
    }
}

impl fmt::Display for Tally {
    fn fmt<W: fmt::Write>(&self, f: &mut fmt::Formatter<W>) -> fmt::Result {
        let (unchanged, but_for_trace) = (self.unchanged, self.but_for_trace);
        write!(
            f,
            "{unchanged} unchanged, {but_for_trace} unchanged but for the trace kept"
        )?;
        let (changed, added, removed) = (self.changed, self.added, self.removed);
        write!(f, ", {changed} changed, {added} new, {removed} gone")
    }
}
