//! A place and a reason in words.

use ptk_config::{Place, TablePlace};
use std::fmt;

/// A section in words: its number, and its name if it is shown.
#[derive(Clone, Copy)]
struct SectionWords<'a> {
    section: usize,
    name: Option<&'a str>,
}

impl fmt::Display for SectionWords<'_> {
    fn fmt<W: fmt::Write>(&self, f: &mut fmt::Formatter<W>) -> fmt::Result {
        let section = self.section;
        match self.name {
            Some(name) => write!(f, "section {section} \"{name}\""),
            None => write!(f, "section {section}"),
        }
    }
}

/// A table in words, in the section of this name.
#[derive(Clone, Copy)]
struct TableWords<'a> {
    table: TablePlace,
    name: Option<&'a str>,
}

impl fmt::Display for TableWords<'_> {
    fn fmt<W: fmt::Write>(&self, f: &mut fmt::Formatter<W>) -> fmt::Result {
        let name = self.name;
        match self.table {
            TablePlace::Top => f.write_str("the document"),
            TablePlace::Section(section) => {
                let words = SectionWords { section, name };
                write!(f, "{words}")
            }
            TablePlace::Input(section, input) => {
                let words = SectionWords { section, name };
                write!(f, "{words}, input {input}")
            }
            TablePlace::Plan(plan) => write!(f, "plan {plan}"),
            TablePlace::Window(None, window) => write!(f, "window {window}"),
            TablePlace::Window(Some(plan), window) => write!(f, "plan {plan}, window {window}"),
        }
    }
}

/// What stands before a key: its table, unless that is the document's own.
#[derive(Clone, Copy)]
struct WithinWords<'a> {
    table: TablePlace,
    name: Option<&'a str>,
}

impl fmt::Display for WithinWords<'_> {
    fn fmt<W: fmt::Write>(&self, f: &mut fmt::Formatter<W>) -> fmt::Result {
        let (table, name) = (self.table, self.name);
        match table {
            TablePlace::Top => Ok(()),
            TablePlace::Section(_)
            | TablePlace::Input(..)
            | TablePlace::Plan(_)
            | TablePlace::Window(..) => {
                let words = TableWords { table, name };
                write!(f, "{words}, ")
            }
        }
    }
}

/// A place in words, in the section of this name.
#[derive(Clone, Copy)]
pub(crate) struct Located<'a> {
    /// The place.
    pub(crate) place: Place,
    /// The name of the section that it is in, None if that is not shown.
    pub(crate) name: Option<&'a str>,
}

impl fmt::Display for Located<'_> {
    fn fmt<W: fmt::Write>(&self, f: &mut fmt::Formatter<W>) -> fmt::Result {
        let name = self.name;
        match self.place {
            Place::Text => f.write_str("the text"),
            Place::Table(table) => {
                let words = TableWords { table, name };
                write!(f, "{words}")
            }
            Place::Key(table, key) => {
                let (words, key) = (WithinWords { table, name }, key.name());
                write!(f, "{words}key {key}")
            }
            Place::Item(table, key, item) => {
                let (words, key) = (WithinWords { table, name }, key.name());
                write!(f, "{words}key {key}, item {item}")
            }
        }
    }
}

/// Why what stands at a place is refused.
#[derive(Clone, Copy)]
pub(crate) enum Reason<'a> {
    /// The key is missing.
    Missing,
    /// It is of one kind and not of the one that is wanted.
    OtherKind {
        found: &'static str,
        wanted: &'static str,
    },
    /// The number is not in its range.
    Outside {
        value: i64,
        low: u64,
        high: u64,
    },
    /// The number is no multiple of 16.
    NoMultiple(i64),
    /// So many threads with stacks of so many bytes do not fit into so many bytes of memory.
    Stacks {
        threads: u64,
        stack: u64,
        memory: u64,
    },
    /// The text is no name.
    NoName,
    /// The text is empty.
    NoText,
    /// The number of items is not in its range.
    Count {
        count: usize,
        low: u64,
        high: u64,
    },
    /// The table has a key that it may not have; None if the key can't be shown.
    Unknown(Option<&'a str>),
    /// The table has a key that it may not have, and one that it may have is near to it.
    UnknownNear {
        key: &'a str,
        nearest: &'static str,
    },
    /// The section of this number has the same name.
    SameName(usize),
    /// There is no window.
    NoWindow,
    /// The window has so few ticks.
    Short(u64),
    /// The window ends at a tick after the frame of so many.
    PastFrame {
        end: u64,
        frame: u64,
    },
    /// No section has the name; None if it can't be shown.
    NoSection(Option<&'a str>),
    /// The window of this number has a tick of it.
    Overlap(usize),
    /// No reason was found.
    None,
}

impl fmt::Display for Reason<'_> {
    fn fmt<W: fmt::Write>(&self, f: &mut fmt::Formatter<W>) -> fmt::Result {
        match *self {
            Reason::Missing => f.write_str("missing"),
            Reason::OtherKind { found, wanted } => write!(f, "{found}, not {wanted}"),
            Reason::Outside { value, low, high } => {
                write!(f, "{value} is not from {low} to {high}")
            }
            Reason::NoMultiple(value) => write!(f, "{value} is not a multiple of 16"),
            Reason::Stacks {
                threads,
                stack,
                memory,
            } => {
                write!(
                    f,
                    "{threads} stacks of {stack} bytes do not fit into {memory} bytes of memory"
                )
            }
            Reason::NoName => f.write_str("not 1 to 16 of a to z, 0 to 9, _ and -"),
            Reason::NoText => f.write_str("empty"),
            Reason::Count { count, low, high } => write!(f, "{count} items, not {low} to {high}"),
            Reason::Unknown(Some(key)) => write!(f, "key {key} is unknown"),
            Reason::Unknown(None) => f.write_str("a key is unknown"),
            Reason::UnknownNear { key, nearest } => {
                write!(f, "key {key} is unknown, the nearest is {nearest}")
            }
            Reason::SameName(section) => write!(f, "section {section} has the same name"),
            Reason::NoWindow => f.write_str("no window"),
            Reason::Short(length) => write!(f, "{length} ticks are fewer than 16"),
            Reason::PastFrame { end, frame } => {
                write!(f, "ends at tick {end}, after the frame of {frame} ticks")
            }
            Reason::NoSection(Some(name)) => write!(f, "no section has the name \"{name}\""),
            Reason::NoSection(None) => f.write_str("no section has its name"),
            Reason::Overlap(window) => write!(f, "has a tick in common with window {window}"),
            Reason::None => f.write_str("refused"),
        }
    }
}
