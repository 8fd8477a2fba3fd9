//! The input of a section.

ghost use Rattle.std.specs.Prelude.{◌≡◌, ◌≤◌, ◌++◌, [], IfOk, OnOk, length, codes, vec_len};
ghost use Rattle.toml.specs.Data.{get_member};
ghost use Rattle.toml.specs.View.{view, table_view, items_view};
ghost use Rattle.ptk_config.specs.Reading.{MemoryAside, each_after};
ghost use Rattle.ptk_words.specs.Ranges.{IsInput};
ghost use Rattle.ptk_words.specs.declared.TheConstants.{LAST_TICK};
ghost use Rattle.ptk_config.specs.Inputs.{bytes_in, input, input_in, inputs_of, input_of, arrivals_at, arrivals_of};

use crate::fault::ConfigFault;
use crate::place::{Key, Place, TablePlace};
use crate::reading::{are_known, array, integer, items, members, number, value_at};
use ptk_words::{Arrival, LAST_TICK, Tick};
use std::alloc::{AllocError, Global};
use std::marker::Model;
use toml::{Table, Value};

/// The greatest number of bytes of a section's inputs.
pub const INPUT_TO: usize = 65536;

/// The bytes that come in at a tick.
#[derive(Drop)]
pub(crate) struct Input {
    tick: u64,
    bytes: Vec<u8>,
}

impl Model for Input {
    ghost use Rattle.ptk_config.specs.Inputs as inputs;

    ghost Value = { inputs.Input };

    ghost view = { λ a. record { tick = a.tick; bytes = a.bytes.items } };
}

/// The bytes of the array in the table of an input. At a fault the place is that of the fault.
#[tactic(auto, using(crate::proofs::Walks::walks))]
fn read_bytes(
    alloc: Global,
    here: TablePlace,
    values: &[Value],
    place: &mut Place,
) -> Result<Vec<u8>, ConfigFault>
    ensures value { MemoryAside (λ v. v.items) result (bytes_in (items_view values.now)) }
    ensures count { IfOk result (λ v. vec_len v ≡ length values.now) }
{
    let mut bytes = Vec::new(alloc);
    for value in values {
        *place = Place::Item(here, Key::Bytes, bytes.len() + 1);
        let byte = integer(value, 0, 255)?;
        bytes.push(byte as u8)?;
    }
    Ok(bytes)
}

/// An input at this tick or later, of at most this many bytes. At a fault the place is that of the fault.
fn read_input(
    alloc: Global,
    here: TablePlace,
    value: &Value,
    low: u64,
    room: usize,
    place: &mut Place,
) -> Result<Input, ConfigFault>
    ensures value { MemoryAside (λ i. i) result (input low room (view value.now)) }
    ensures from { IfOk result (λ i. low ≤ i.tick) }
    ensures to { IfOk result (λ i. i.tick ≤ LAST_TICK) }
    ensures room { IfOk result (λ i. length i.bytes ≤ room) }
{
    *place = Place::Table(here);
    let table = members(value)?;
    *place = Place::Key(here, Key::At);
    let tick = number(table, "at", low, LAST_TICK)?;
    *place = Place::Key(here, Key::Bytes);
    let values = array(table, "bytes", 0, room)?;
    let bytes = read_bytes(alloc, here, values, place)?;
    *place = Place::Table(here);
    if are_known(table, &["at", "bytes"]) {
        Ok(Input { tick, bytes })
    } else {
        Err(ConfigFault::UnknownKey)
    }
}

/// The inputs of the section of this number that the values state. At a fault the place is that of the fault.
#[tactic(auto, using(crate::proofs::Inputs::inputs))]
fn read_inputs(
    alloc: Global,
    section: usize,
    values: &[Value],
    place: &mut Place,
) -> Result<Vec<Input>, ConfigFault>
    ensures value { MemoryAside (λ v. v.items) result (each_after input_in [] (items_view values.now)) }
    ensures ranges { IfOk result (λ v. IsInput (arrivals_of v.items)) }
{
    let mut inputs = Vec::new(alloc);
    let mut last = 0;
    let mut count = 0;
    for value in values {
        let here = TablePlace::Input(section, inputs.len() + 1);
        let input = read_input(alloc, here, value, last, INPUT_TO - count, place)?;
        last = input.tick;
        count += input.bytes.len();
        inputs.push(input)?;
    }
    Ok(inputs)
}

/// The inputs of the section of this number, none if the key is missing. At a fault the place is that of the fault.
fn inputs_of(
    alloc: Global,
    section: usize,
    table: &Table,
    place: &mut Place,
) -> Result<Vec<Input>, ConfigFault>
    ensures value { MemoryAside (λ v. v.items) result (inputs_of (get_member (codes "input") (table_view table.now))) }
    ensures ranges { IfOk result (λ v. IsInput (arrivals_of v.items)) }
{
    match value_at(table, "input") {
        Some(value) => {
            *place = Place::Key(TablePlace::Section(section), Key::Input);
            let values = items(value)?;
            read_inputs(alloc, section, values, place)
        }
        None => Ok(Vec::new(alloc)),
    }
}

/// Adds the bytes of an input, each with its tick.
#[tactic(auto, using(crate::proofs::Inputs::arrivals))]
fn push_input(arrivals: &mut Vec<Arrival>, input: &Input) -> Result<(), AllocError>
    ensures { OnOk result (arrivals.new.items ≡ arrivals.old.items ++ arrivals_at input.now) }
{
    let tick = Tick::new(input.tick);
    for byte in &input.bytes {
        arrivals.push(Arrival { tick, byte: *byte })?;
    }
    Ok(())
}

/// The bytes of all inputs, each with its tick.
#[tactic(auto, using(crate::proofs::Inputs::arrivals))]
fn arrivals_of(alloc: Global, inputs: &[Input]) -> Result<Vec<Arrival>, AllocError>
    ensures { IfOk result (λ v. v.items ≡ arrivals_of inputs.now) }
{
    let mut arrivals = Vec::new(alloc);
    for input in inputs {
        push_input(&mut arrivals, input)?;
    }
    Ok(arrivals)
}

/// The input of the section of this number. At a fault the place is that of the fault.
pub(crate) fn read_arrivals(
    alloc: Global,
    section: usize,
    table: &Table,
    place: &mut Place,
) -> Result<Vec<Arrival>, ConfigFault>
    ensures value { MemoryAside (λ v. v.items) result (input_of (get_member (codes "input") (table_view table.now))) }
    ensures ranges { IfOk result (λ v. IsInput v.items) }
{
    let inputs = inputs_of(alloc, section, table, place)?;
    Ok(arrivals_of(alloc, &inputs)?)
}
