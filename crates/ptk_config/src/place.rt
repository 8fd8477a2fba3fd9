//! The places of a configuration.

use crate::fault::ConfigFault;

/// A key of the configuration.
#[derive(Clone, Copy, PartialEq, Eq)]
pub enum Key {
    /// How many ticks a frame has.
    Frame,
    /// At the top the sections; in a window the name of the section whose it is.
    Partition,
    /// At the top, and in a plan, its windows.
    Window,
    /// The plans.
    Plan,
    /// The name of a section.
    Name,
    /// The path of a section's image.
    Image,
    /// The memory of a section.
    Memory,
    /// How many threads a section can have at a time.
    Threads,
    /// The default stack of a thread.
    Stack,
    /// How many mutexes a section can have at a time.
    Mutexes,
    /// How many condition variables a section can have at a time.
    Conditions,
    /// How many keys a section can have at a time.
    Keys,
    /// A round-robin turn.
    Interval,
    /// The room of the input ring.
    Ring,
    /// The room of the output.
    Output,
    /// How many last steps are kept.
    Trace,
    /// A section's inputs.
    Input,
    /// When the bytes of an input arrive.
    At,
    /// The bytes of an input.
    Bytes,
    /// The first tick of a window.
    Start,
    /// How many ticks a window has.
    Length,
    /// The frame from which on a plan holds.
    From,
}

impl Key {
    /// The key as it is written.
    pub fn name(self) -> &'static str {
        match self {
            Key::Frame => "frame",
            Key::Partition => "partition",
            Key::Window => "window",
            Key::Plan => "plan",
            Key::Name => "name",
            Key::Image => "image",
            Key::Memory => "memory",
            Key::Threads => "threads",
            Key::Stack => "stack",
            Key::Mutexes => "mutexes",
            Key::Conditions => "conds",
            Key::Keys => "keys",
            Key::Interval => "interval",
            Key::Ring => "ring",
            Key::Output => "output",
            Key::Trace => "trace",
            Key::Input => "input",
            Key::At => "at",
            Key::Bytes => "bytes",
            Key::Start => "start",
            Key::Length => "length",
            Key::From => "from",
        }
    }
}

/// A table of the configuration. Numbers count from 1.
#[derive(Clone, Copy, PartialEq, Eq)]
pub enum TablePlace {
    /// The document's.
    Top,
    /// That of a section.
    Section(usize),
    /// That of an input, by the section's number and its own.
    Input(usize, usize),
    /// That of a plan.
    Plan(usize),
    /// That of a window, by its plan's number, None for the windows at the top, and its own.
    Window(Option<usize>, usize),
}

/// Where in the configuration a fault is. Numbers count from 1.
#[derive(Clone, Copy, PartialEq, Eq)]
pub enum Place {
    /// The text, which is no document.
    Text,
    /// A table as a whole: there is another value in its place, a key of it is unknown, or its window is refused.
    Table(TablePlace),
    /// What stands, or is missing, at a key of a table.
    Key(TablePlace, Key),
    /// An item of the array at a key of a table.
    Item(TablePlace, Key, usize),
}

/// The first fault of a configuration with its place.
#[derive(Clone, Copy, PartialEq, Eq)]
pub struct Refusal {
    /// Where it is.
    pub place: Place,
    /// What it is.
    pub fault: ConfigFault,
}
