//! How much of its stack a thread has used.

use ptk_words::{Limits, ThreadNo};

/// Where the default stacks of a partition's threads are.
#[derive(Clone, Copy)]
pub struct StackPlaces {
    memory: u32,
    size: u32,
}

impl StackPlaces {
    /// Those of a partition with these numbers.
    pub fn new(limits: &Limits) -> StackPlaces {
        StackPlaces {
            memory: limits.memory,
            size: limits.stack,
        }
    }

    /// Where the default stack of a thread begins: they lie below each other, that of thread 1 at the end of memory.
    fn top(&self, thread: ThreadNo) -> u32 {
        let above = u32::from(thread.number() - 1);
        self.memory.saturating_sub(above.saturating_mul(self.size))
    }

    /// The stack of a thread that begins with this stack pointer.
    pub fn begun(&self, thread: ThreadNo, pointer: u32) -> StackUse {
        let top = self.top(thread);
        StackUse {
            top: Some(pointer),
            bottom: (pointer == top).then_some(top.saturating_sub(self.size)),
            least: pointer,
        }
    }

    /// The stack of a thread that has begun before, and has this stack pointer now: the default one, if it points there.
    pub fn found(&self, thread: ThreadNo, pointer: u32) -> StackUse {
        let top = self.top(thread);
        let bottom = top.saturating_sub(self.size);
        if bottom <= pointer && pointer <= top {
            return StackUse {
                top: Some(top),
                bottom: Some(bottom),
                least: pointer,
            };
        }
        StackUse {
            top: None,
            bottom: None,
            least: pointer,
        }
    }
}

/// How much of its stack a thread has used.
#[derive(Clone, Copy)]
pub struct StackUse {
    top: Option<u32>,
    bottom: Option<u32>,
    least: u32,
}

impl StackUse {
    /// A stack pointer was seen.
    #[inline(always)]
    pub fn see(&mut self, pointer: u32) {
        self.least = self.least.min(pointer);
    }

    /// This one or another, whichever has more used.
    pub fn or_deeper(self, other: StackUse) -> StackUse {
        if self.used() < other.used() {
            other
        } else {
            self
        }
    }

    /// The lowest address that belongs to it. None if the guest itself has set the stack, so that its end is not known.
    pub fn bottom(&self) -> Option<u32> {
        self.bottom
    }

    /// The least stack pointer that was seen.
    pub fn least(&self) -> u32 {
        self.least
    }

    /// How many bytes were used. None if it is not known where the stack begins.
    pub fn used(&self) -> Option<u32> {
        Some(self.top?.saturating_sub(self.least))
    }

    /// How many bytes it has. None if the guest itself has set the stack.
    pub fn size(&self) -> Option<u32> {
        Some(self.top?.saturating_sub(self.bottom?))
    }

    /// How many bytes were used below its end.
    pub fn overflow(&self) -> u32 {
        match self.bottom {
            Some(bottom) => bottom.saturating_sub(self.least),
            None => 0,
        }
    }
}
