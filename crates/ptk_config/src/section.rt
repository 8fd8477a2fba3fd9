//! A partition's table.

ghost use Rattle.std.specs.Prelude.{◌≡◌, ◌%◌, ◌≤◌, ◌*◌, Ok, IfOk, option_map, codes, string_bytes};
ghost use Rattle.std.specs.List.{list_all};
ghost use Rattle.std.specs.Str.{bytes_eq};
ghost use Rattle.toml.specs.Data.{get_member};
ghost use Rattle.toml.specs.View.{view, table_view};
ghost use Rattle.ptk_config.specs.Reading.{seen, MemoryAside};
ghost use Rattle.ptk_words.specs.Ranges.{IsWithinLimits, IsInput};
ghost use Rattle.ptk_config.specs.Sections.{is_name, is_name_byte, name, image_of, sixteens, stack, limits, section, with_trace};

use crate::fault::ConfigFault;
use crate::input::read_arrivals;
use crate::place::{Key, Place, TablePlace};
use crate::reading::{are_known, members, number, required, text, value_at};
use ptk_words::{Arrival, Limits, THREAD_LIMIT};
use std::alloc::Global;
use std::marker::Model;
use toml::{Table, Value};

/// The least number of bytes of a partition's memory.
pub const MEMORY_FROM: u64 = 4096;

/// The greatest number of bytes of a partition's memory.
pub const MEMORY_TO: u64 = 1_048_576;

/// The greatest number of threads of a partition.
pub const THREADS_TO: u64 = THREAD_LIMIT as u64;

/// The least number of bytes of a default stack.
pub const STACK_FROM: u64 = 16;

/// The greatest number of bytes of a default stack.
pub const STACK_TO: u64 = 65536;

/// The greatest number of mutexes of a partition.
pub const MUTEXES_TO: u64 = 64;

/// The greatest number of condition variables of a partition.
pub const CONDITIONS_TO: u64 = 32;

/// The greatest number of keys of a partition, under which each thread has values of its own.
pub const KEYS_TO: u64 = 32;

/// The greatest number of ticks of a round-robin interval.
pub const INTERVAL_TO: u64 = 1_000_000;

/// The greatest number of bytes that the input ring keeps.
pub const RING_TO: u64 = 256;

/// The greatest number of bytes of output that are kept.
pub const OUTPUT_TO: u64 = 65536;

/// The greatest number of entries that the trace keeps.
pub const TRACE_TO: u64 = 1024;

/// What a partition is made from.
pub struct Section {
    name: String,
    image: Option<String>,
    limits: Limits,
    input: Vec<Arrival>,
}

// By hand: a function that drops a section calls this, and its proof does not spell out the drop of each part.
impl Drop for Section {
    fn drop(self) {
        let Section {
            name,
            image,
            limits,
            input,
        } = self;
    }
}

impl Model for Section {
    ghost use Rattle.std.specs.Prelude.{option_map, string_bytes};
    ghost use Rattle.ptk_config.specs.Sections as sections;
    ghost use Rattle.ptk_words.specs.Ranges.{IsWithinLimits, IsInput};

    ghost Value = { sections.Section };

    ghost view = { λ a. record {
      name = string_bytes a.name;
      image = option_map string_bytes a.image;
      limits = a.limits;
      input = a.input.items;
    } };

    ghost invariant = { λ a. IsWithinLimits a.limits × IsInput a.input.items };
}

impl Section {
    /// The name.
    pub fn name(&self) -> &str
        ensures { result.now ≡ self.now.name }
    {
        self.name.as_str()
    }

    /// The name of its image, None where it has no image.
    pub fn image(&self) -> Option<&str>
        ensures { option_map (λ s. s.now) result ≡ self.now.image }
    {
        self.image.as_deref()
    }

    /// Its numbers, all in their ranges.
    pub fn limits(&self) -> Limits
        ensures value { result ≡ self.now.limits }
        ensures ranges { IsWithinLimits result }
    {
        self.limits
    }

    /// Its input: each byte with its tick, bytes of one tick in the order written. The ticks never fall.
    pub fn input(&self) -> &[Arrival]
        ensures value { result.now ≡ self.now.input }
        ensures ranges { IsInput result.now }
    {
        &self.input
    }

    /// Makes its trace keep this many of the last entries, at most 1048576; all else stays.
    pub(crate) fn keep_trace(&mut self, entries: u32)
        requires { entries ≤ 1048576 }
        ensures { self.new ≡ with_trace entries self.old }
    {
        self.limits.trace = entries;
    }

    /// Whether this is the name.
    pub fn has_name(&self, name: &str) -> bool
        ensures { result ≡ bytes_eq self.now.name name.now }
    {
        self.name.as_str() == name
    }
}

/// Whether the byte may stand in a partition's name.
fn is_name_byte(byte: u8) -> bool
    ensures { result ≡ is_name_byte byte }
{
    matches!(byte, b'a'..=b'z' | b'0'..=b'9' | b'_' | b'-')
}

/// Whether each byte may stand in a partition's name.
fn are_name_bytes(bytes: &[u8]) -> bool
    ensures { result ≡ list_all is_name_byte bytes.now }
{
    bytes.iter().all(|byte| is_name_byte(*byte))
}

/// Whether the text is a partition's name.
fn is_name(text: &str) -> bool
    ensures { result ≡ is_name text.now }
{
    let bytes = text.as_bytes();
    1 <= bytes.len() && bytes.len() <= 16 && are_name_bytes(bytes)
}

/// The name of a partition.
pub fn read_name(table: &Table) -> Result<&str, ConfigFault>
    ensures { seen (λ s. s.now) result ≡ name (table_view table.now) }
{
    let value = required(table, "name")?;
    let text = text(value)?;
    if is_name(text) {
        Ok(text)
    } else {
        Err(ConfigFault::OutOfRange)
    }
}

/// The name of an image, if there is one.
pub fn read_image(table: &Table) -> Result<Option<&str>, ConfigFault>
    ensures { seen (option_map (λ s. s.now)) result ≡ image_of (get_member (codes "image") (table_view table.now)) }
{
    match value_at(table, "image") {
        Some(value) => {
            let text = text(value)?;
            if text.is_empty() {
                Err(ConfigFault::OutOfRange)
            } else {
                Ok(Some(text))
            }
        }
        None => Ok(None),
    }
}

/// A number at a key that is a multiple of 16.
pub fn sixteens(table: &Table, key: &str, low: u64, high: u64) -> Result<u64, ConfigFault>
    ensures value { result ≡ sixteens key.now low high (table_view table.now) }
    ensures range { IfOk result (λ n. (low ≤ n) × (n ≤ high) × (n % 16 ≡ 0)) }
{
    let size = number(table, key, low, high)?;
    if size % 16 == 0 {
        Ok(size)
    } else {
        Err(ConfigFault::OutOfRange)
    }
}

/// The stack of each of this many threads, which all lie in the memory.
pub fn stack(table: &Table, memory: u64, threads: u64) -> Result<u64, ConfigFault>
    requires { threads ≤ 32 }
    ensures value { result ≡ stack memory threads (table_view table.now) }
    ensures range { IfOk result (λ n. (16 ≤ n) × (n ≤ 65536) × (n % 16 ≡ 0) × (threads * n ≤ memory)) }
{
    let size = sixteens(table, "stack", STACK_FROM, STACK_TO)?;
    if threads * size <= memory {
        Ok(size)
    } else {
        Err(ConfigFault::OutOfRange)
    }
}

/// The numbers of a section. At a fault the place is that of the fault.
fn read_limits(table: &Table, here: TablePlace, place: &mut Place) -> Result<Limits, ConfigFault>
    ensures value { result ≡ limits (table_view table.now) }
    ensures ranges { IfOk result IsWithinLimits }
{
    *place = Place::Key(here, Key::Memory);
    let memory = sixteens(table, "memory", MEMORY_FROM, MEMORY_TO)?;
    *place = Place::Key(here, Key::Threads);
    let threads = number(table, "threads", 1, THREADS_TO)?;
    *place = Place::Key(here, Key::Stack);
    let stack = stack(table, memory, threads)?;
    *place = Place::Key(here, Key::Mutexes);
    let mutexes = number(table, "mutexes", 0, MUTEXES_TO)?;
    *place = Place::Key(here, Key::Conditions);
    let conditions = number(table, "conds", 0, CONDITIONS_TO)?;
    *place = Place::Key(here, Key::Keys);
    let keys = number(table, "keys", 0, KEYS_TO)?;
    *place = Place::Key(here, Key::Interval);
    let interval = number(table, "interval", 1, INTERVAL_TO)?;
    *place = Place::Key(here, Key::Ring);
    let ring = number(table, "ring", 1, RING_TO)?;
    *place = Place::Key(here, Key::Output);
    let output = number(table, "output", 0, OUTPUT_TO)?;
    *place = Place::Key(here, Key::Trace);
    let trace = number(table, "trace", 0, TRACE_TO)?;
    Ok(Limits {
        memory: memory as u32,
        threads: threads as u32,
        stack: stack as u32,
        mutexes: mutexes as u32,
        conditions: conditions as u32,
        keys: keys as u32,
        interval: interval as u32,
        ring: ring as u32,
        output: output as u32,
        trace: trace as u32,
    })
}

/// A copy of a text, if there is one.
fn copy_of(alloc: Global, text: Option<&str>) -> Result<Option<String>, ConfigFault>
    ensures { MemoryAside (option_map string_bytes) result (Ok (option_map (λ s. s.now) text.entry)) }
{
    match text {
        Some(text) => Ok(Some(String::from_str(alloc, text)?)),
        None => Ok(None),
    }
}

/// The keys of a partition's table.
pub const KEYS: [&str; 13] = [
    "name", "image", "memory", "threads", "stack", "mutexes", "conds", "keys", "interval", "ring",
    "output", "trace", "input",
];

/// The section of this number, from 1, that a value states. At a fault the place is that of the fault.
pub(crate) fn read_section(
    alloc: Global,
    number: usize,
    value: &Value,
    place: &mut Place,
) -> Result<Section, ConfigFault>
    ensures value { MemoryAside (λ s. s) result (section (view value.now)) }
    ensures limits { IfOk result (λ s. IsWithinLimits s.limits) }
    ensures input { IfOk result (λ s. IsInput s.input) }
{
    let here = TablePlace::Section(number);
    *place = Place::Table(here);
    let table = members(value)?;
    *place = Place::Key(here, Key::Name);
    let name = read_name(table)?;
    *place = Place::Key(here, Key::Image);
    let image = read_image(table)?;
    let limits = read_limits(table, here, place)?;
    let input = read_arrivals(alloc, number, table, place)?;
    *place = Place::Table(here);
    if !are_known(table, &KEYS) {
        return Err(ConfigFault::UnknownKey);
    }
    Ok(Section {
        name: String::from_str(alloc, name)?,
        image: copy_of(alloc, image)?,
        limits,
        input,
    })
}
