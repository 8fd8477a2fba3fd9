//! The figures of a mutex.

use crate::moment::{Moment, Span};
use ptk_words::{ThreadNo, Tick};

/// How long a mutex was owned and waited for.
#[derive(Clone, Copy, Default)]
pub struct MutexStatistics {
    owner: Option<ThreadNo>,
    since: Moment,
    held: Option<Longest>,
    waited: Option<Longest>,
}

impl MutexStatistics {
    /// From a moment on this thread owns it, None if nobody does.
    pub fn own_by(&mut self, owner: Option<ThreadNo>, at: Moment) {
        self.end_turn(at);
        self.owner = owner;
        self.since = at;
    }

    /// The run ends: its owner owned it until then.
    pub fn finish(&mut self, at: Moment) {
        self.end_turn(at);
        self.since = at;
    }

    /// Counts how long its owner, if it has one, owned it up to a moment.
    fn end_turn(&mut self, at: Moment) {
        if let Some(thread) = self.owner {
            self.held = Some(Longest::with(self.held, thread, self.since, at));
        }
    }

    /// A thread waited for it from a moment to another.
    pub fn wait(&mut self, thread: ThreadNo, from: Moment, to: Moment) {
        self.waited = Some(Longest::with(self.waited, thread, from, to));
    }

    /// The longest time that one thread owned it without a break, None if nobody owned it.
    pub fn held(&self) -> Option<Longest> {
        self.held
    }

    /// The longest time that a thread waited for it, also to have it again after a condition wait. None if nobody
    /// waited.
    pub fn waited(&self) -> Option<Longest> {
        self.waited
    }

    /// Whether a thread owned it or waited for it.
    pub fn is_used(&self) -> bool {
        self.held.is_some() || self.waited.is_some()
    }
}

/// The longest of the times that something took.
#[derive(Clone, Copy)]
pub struct Longest {
    /// The most ticks that one of them took, of all ticks and of own ones.
    pub span: Span,
    /// Whose the longest by all ticks was, the first of these at a draw.
    pub thread: ThreadNo,
    /// The tick at which that one began.
    pub from: Tick,
}

impl Longest {
    /// The longest so far, if there was one, and one more: that of a thread, from a moment to another.
    fn with(so_far: Option<Longest>, thread: ThreadNo, from: Moment, to: Moment) -> Longest {
        let next = Longest {
            span: to.since(from),
            thread,
            from: Tick::new(from.tick),
        };
        match so_far {
            Some(longest) => longest.or_longer(next),
            None => next,
        }
    }

    /// The longer of this one and the next, this one at a draw, with the most ticks that either took.
    fn or_longer(self, next: Longest) -> Longest {
        let span = self.span.max(next.span);
        if self.span.wall < next.span.wall {
            Longest { span, ..next }
        } else {
            Longest { span, ..self }
        }
    }
}
