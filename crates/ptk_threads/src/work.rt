//! Work that is done on one thread where it lies in the table.

ghost use Rattle.ptk_words.specs.declared.threads.Thread.{Thread};

use ptk_words::Thread;

/// A piece of work on one thread.
pub trait Work {
    /// What it returns.
    type Answer;

    /// Which threads it may be done on.
    ghost can_run: { Self → Thread → Type 0 };

    /// What it was before and what the thread was, what it returned, and what both are then.
    ghost has_run: { Self → Thread → Self.Answer → Self → Thread → Type 0 };

    /// Does it.
    fn run(&mut self, thread: &mut Thread) -> Self::Answer
        requires { can_run self.old thread.old }
        ensures { has_run self.old thread.old result self.new thread.new };
}
