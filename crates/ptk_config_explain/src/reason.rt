//! Why what stands at a place is refused, found in the document.

use crate::lookup::{count_at, number_at, section_of, table_of, text_at, value_there};
use crate::nearest::nearest_known;
use crate::window_reason::windows_reason;
use crate::words::Reason;
use ptk_config::parts::{
    CONDITIONS_TO, FRAME_FROM, FRAME_TO, INPUT_TO, INTERVAL_TO, KEYS, KEYS_TO, LAST_FROM,
    LENGTH_TO, MEMORY_FROM, MEMORY_TO, MUTEXES_TO, OUTPUT_TO, PARTITIONS_TO, PLANS_TO, RING_TO,
    STACK_FROM, STACK_TO, START_TO, THREADS_TO, TRACE_TO, WINDOWS_TO, is_among,
};
use ptk_config::{ConfigFault, Key, Place, Refusal, TablePlace};
use ptk_words::LAST_TICK;
use std::alloc::{AllocError, Global};
use toml::{Table, Value};

/// The greatest number of bytes of a name that is shown.
const SHOWN_TO: usize = 32;

/// Why a document is refused. An error if memory was refused.
pub(crate) fn reason_of<'a>(
    alloc: Global,
    document: &'a Table,
    refusal: &Refusal,
) -> Result<Reason<'a>, AllocError> {
    let place = refusal.place;
    let reason = match refusal.fault {
        ConfigFault::MissingKey => Reason::Missing,
        ConfigFault::WrongType => other_kind(document, place),
        ConfigFault::OutOfRange => out_of_range(document, place),
        ConfigFault::UnknownKey => return unknown(alloc, document, place),
        ConfigFault::DoubledName => same_name(document, place),
        ConfigFault::Window(fault) => windows_reason(document, place, fault),
        ConfigFault::Text | ConfigFault::Memory => Reason::None,
    };
    Ok(reason)
}

/// The name of the section that a place is in, if it can be shown.
pub(crate) fn name_of(document: &Table, place: Place) -> Option<&str> {
    let section = section_of(place)?;
    shown(text_at(document, TablePlace::Section(section), Key::Name)?)
}

/// The text, if it can be shown as it is: 1 to 32 letters, digits, `_` and `-`.
pub(crate) fn shown(text: &str) -> Option<&str> {
    let bytes = text.as_bytes();
    let is_plain = bytes.iter().all(|byte| byte.is_ascii_alphanumeric()
        || *byte == b'_'
        || *byte == b'-');
    if is_plain && 0 < bytes.len() && bytes.len() <= SHOWN_TO {
        Some(text)
    } else {
        None
    }
}

/// The reason for a value of the wrong type.
fn other_kind(document: &Table, place: Place) -> Reason<'_> {
    match value_there(document, place) {
        Some(value) => Reason::OtherKind {
            found: kind(value),
            wanted: kind_at(place),
        },
        None => Reason::None,
    }
}

/// What kind of value it is.
fn kind(value: &Value) -> &'static str {
    match value {
        Value::String(_) => "a text",
        Value::Integer(_) => "an integer",
        Value::Float(_) => "a float",
        Value::Boolean(_) => "a truth value",
        Value::Datetime(_) => "a date",
        Value::Array(_) => "an array",
        Value::Table(_) => "a table",
    }
}

/// What kind of value a place wants.
fn kind_at(place: Place) -> &'static str {
    match place {
        Place::Text => "a document",
        Place::Table(_) => "a table",
        Place::Key(TablePlace::Window(..), Key::Partition) => "a text",
        Place::Key(_, key) => kind_wanted(key),
        Place::Item(..) => "an integer",
    }
}

/// What kind of value a key wants.
fn kind_wanted(key: Key) -> &'static str {
    match key {
        Key::Name | Key::Image => "a text",
        Key::Plan | Key::Input | Key::Bytes | Key::Window | Key::Partition => "an array",
        Key::Frame
        | Key::Memory
        | Key::Threads
        | Key::Stack
        | Key::Mutexes
        | Key::Conditions
        | Key::Keys
        | Key::Interval
        | Key::Ring
        | Key::Output
        | Key::Trace
        | Key::At
        | Key::Start
        | Key::Length
        | Key::From => "an integer",
    }
}

/// The reason for a value out of range.
fn out_of_range(document: &Table, place: Place) -> Reason<'_> {
    match (place, value_there(document, place)) {
        (Place::Key(table, key), Some(value)) => out_of_range_at(document, table, key, value),
        (Place::Item(..), Some(Value::Integer(value))) => Reason::Outside {
            value: *value,
            low: 0,
            high: u64::from(u8::MAX),
        },
        _ => Reason::None,
    }
}

/// The reason for a value out of range at a key of a table.
fn out_of_range_at<'a>(
    document: &'a Table,
    table: TablePlace,
    key: Key,
    value: &Value,
) -> Reason<'a> {
    let (low, high) = bounds(document, table, key);
    match value {
        Value::Integer(value) => match u64::try_from(*value) {
            Ok(number) if low <= number && number <= high && number % 16 == 0 => {
                stacks(document, table)
            }
            Ok(number) if low <= number && number <= high => Reason::NoMultiple(*value),
            _ => Reason::Outside {
                value: *value,
                low,
                high,
            },
        },
        Value::Array(items) => Reason::Count {
            count: items.len(),
            low,
            high,
        },
        Value::String(_) => match key {
            Key::Name => Reason::NoName,
            _ => Reason::NoText,
        },
        Value::Float(_) | Value::Boolean(_) | Value::Datetime(_) | Value::Table(_) => Reason::None,
    }
}

/// The least and the greatest number, or count, at a key.
fn bounds(document: &Table, table: TablePlace, key: Key) -> (u64, u64) {
    match key {
        Key::Frame => (FRAME_FROM, FRAME_TO),
        Key::Partition => (1, PARTITIONS_TO as u64),
        Key::Window => (0, WINDOWS_TO as u64),
        Key::Plan => (0, PLANS_TO as u64),
        Key::Memory => (MEMORY_FROM, MEMORY_TO),
        Key::Threads => (1, THREADS_TO),
        Key::Stack => (STACK_FROM, STACK_TO),
        Key::Mutexes => (0, MUTEXES_TO),
        Key::Conditions => (0, CONDITIONS_TO),
        Key::Keys => (0, KEYS_TO),
        Key::Interval => (1, INTERVAL_TO),
        Key::Length => (1, LENGTH_TO),
        Key::Ring => (1, RING_TO),
        Key::Output => (0, OUTPUT_TO),
        Key::Trace => (0, TRACE_TO),
        Key::Start => (0, START_TO),
        Key::At | Key::Bytes | Key::From => bounds_after(document, table, key),
        Key::Name | Key::Image | Key::Input => (0, 0),
    }
}

/// The least and the greatest number, or count, at a key that goes by the tables before its own.
fn bounds_after(document: &Table, table: TablePlace, key: Key) -> (u64, u64) {
    match (table, key) {
        (TablePlace::Input(section, input), Key::At) => {
            let before = TablePlace::Input(section, input.saturating_sub(1));
            let low = number_at(document, before, Key::At).unwrap_or(0);
            (low, LAST_TICK)
        }
        (TablePlace::Input(section, input), Key::Bytes) => {
            let before = bytes_in(document, section, input.saturating_sub(1));
            (0, (INPUT_TO as u64).saturating_sub(before))
        }
        (TablePlace::Plan(plan), Key::From) => {
            let before = TablePlace::Plan(plan.saturating_sub(1));
            let last = number_at(document, before, Key::From).unwrap_or(0);
            (last.saturating_add(1), LAST_FROM)
        }
        _ => (0, 0),
    }
}

/// How many bytes the first inputs of a section have, at most 2^64 - 1.
fn bytes_in(document: &Table, section: usize, inputs: usize) -> u64 {
    let mut sum: u64 = 0;
    for input in 0..inputs {
        let count = count_at(document, TablePlace::Input(section, input + 1), Key::Bytes);
        sum = sum.saturating_add(count.unwrap_or(0) as u64);
    }
    sum
}

/// The reason for stacks larger than the memory.
fn stacks(document: &Table, table: TablePlace) -> Reason<'_> {
    let threads = number_at(document, table, Key::Threads);
    let stack = number_at(document, table, Key::Stack);
    let memory = number_at(document, table, Key::Memory);
    match (threads, stack, memory) {
        (Some(threads), Some(stack), Some(memory)) => Reason::Stacks {
            threads,
            stack,
            memory,
        },
        _ => Reason::None,
    }
}

/// The reason for a key that a table may not have. An error if memory was refused.
fn unknown(alloc: Global, document: &Table, place: Place) -> Result<Reason<'_>, AllocError> {
    let Place::Table(table) = place else {
        return Ok(Reason::None);
    };
    let Some(key) = unknown_key(document, table) else {
        return Ok(Reason::None);
    };
    let Some(key) = shown(key) else {
        return Ok(Reason::Unknown(None));
    };
    match nearest_known(alloc, key, keys_of(table))? {
        Some(nearest) => Ok(Reason::UnknownNear { key, nearest }),
        None => Ok(Reason::Unknown(Some(key))),
    }
}

/// The first key of a table that it may not have.
pub(crate) fn unknown_key(document: &Table, table: TablePlace) -> Option<&str> {
    let values = table_of(document, table)?;
    let key = values
        .keys()
        .find(|key| !is_among(key.as_str(), keys_of(table)))?;
    Some(key.as_str())
}

/// The keys that a table may have.
pub(crate) fn keys_of(table: TablePlace) -> &'static [&'static str] {
    match table {
        TablePlace::Top => &["frame", "partition", "window", "plan"],
        TablePlace::Section(_) => &KEYS,
        TablePlace::Input(..) => &["at", "bytes"],
        TablePlace::Plan(_) => &["from", "window"],
        TablePlace::Window(..) => &["start", "length", "partition"],
    }
}

/// The reason for a section whose name a later one has.
fn same_name(document: &Table, place: Place) -> Reason<'_> {
    let Some(section) = section_of(place) else {
        return Reason::None;
    };
    let name = name_at(document, section);
    for other in section.saturating_add(1)..=PARTITIONS_TO {
        if name_at(document, other) == name {
            return Reason::SameName(other);
        }
    }
    Reason::None
}

/// The name of the section of this number.
fn name_at(document: &Table, section: usize) -> Option<&str> {
    text_at(document, TablePlace::Section(section), Key::Name)
}
