//! The kinds of what a run may fail on.

/// A kind of what a run may fail on.
#[derive(Clone, Copy, PartialEq, Eq)]
pub enum FailureKind {
    /// A partition was stopped by an instruction: a fault or a break.
    Fault,
    /// A partition's image was refused.
    Refused,
    /// A partition is not halted, and no thread of it is running or ready.
    Idle,
    /// A partition ended with another status than 0.
    Exit,
    /// A partition with an image has not ended.
    Running,
    /// Input of a partition was lost, since its ring was full.
    LostInput,
    /// A partition's output has no room left.
    FullOutput,
    /// Threads of a partition wait for one another in a cycle.
    Deadlock,
    /// A thread of a partition responded after its deadline.
    Late,
    /// A thread of a partition used more than its stack.
    Stack,
}

/// The kinds, in the order in which a partition is tried for them.
pub const FAILURE_KINDS: [FailureKind; 10] = [
    FailureKind::Fault,
    FailureKind::Refused,
    FailureKind::Idle,
    FailureKind::Exit,
    FailureKind::Running,
    FailureKind::LostInput,
    FailureKind::FullOutput,
    FailureKind::Deadlock,
    FailureKind::Late,
    FailureKind::Stack,
];

impl FailureKind {
    /// The word of the kind, as `--fail-on` takes it.
    pub fn word(self) -> &'static str {
        match self {
            FailureKind::Fault => "fault",
            FailureKind::Refused => "refused",
            FailureKind::Idle => "idle",
            FailureKind::Exit => "exit",
            FailureKind::Running => "running",
            FailureKind::LostInput => "lost-input",
            FailureKind::FullOutput => "full-output",
            FailureKind::Deadlock => "deadlock",
            FailureKind::Late => "late",
            FailureKind::Stack => "stack",
        }
    }

    /// The kind of a word, None if no kind has it.
    fn named(word: &str) -> Option<FailureKind> {
        FAILURE_KINDS
            .iter()
            .copied()
            .find(|kind| kind.word() == word)
    }

    /// The bit of the kind in a set.
    fn bit(self) -> u16 {
        match self {
            FailureKind::Fault => 1 << 0,
            FailureKind::Refused => 1 << 1,
            FailureKind::Idle => 1 << 2,
            FailureKind::Exit => 1 << 3,
            FailureKind::Running => 1 << 4,
            FailureKind::LostInput => 1 << 5,
            FailureKind::FullOutput => 1 << 6,
            FailureKind::Deadlock => 1 << 7,
            FailureKind::Late => 1 << 8,
            FailureKind::Stack => 1 << 9,
        }
    }
}

/// A set of kinds that a run fails on.
#[derive(Clone, Copy, PartialEq, Eq)]
pub struct FailOn {
    bits: u16,
}

impl FailOn {
    /// No kind.
    pub const NONE: FailOn = FailOn { bits: 0 };

    /// The words of the kinds.
    pub(crate) const WORDS: &'static str =
        "fault, refused, idle, exit, running, lost-input, full-output, deadlock, late, stack, \
        or several of these with commas between them";

    /// The set with this kind in it.
    pub fn with(self, kind: FailureKind) -> FailOn {
        FailOn {
            bits: self.bits | kind.bit(),
        }
    }

    /// Whether the kind is in the set.
    pub fn has(self, kind: FailureKind) -> bool {
        self.bits & kind.bit() != 0
    }

    /// The kinds that a value names, in any order, with commas between them. None if one of its words is no kind.
    pub(crate) fn named(value: &str) -> Option<FailOn> {
        let mut kinds = FailOn::NONE;
        for word in value.split(',') {
            kinds = kinds.with(FailureKind::named(word)?);
        }
        Some(kinds)
    }
}
