//! A window's table.

ghost use Rattle.std.specs.Prelude.{◌≡◌, ◌≤◌, ◌<◌, IfSome, length, position};
ghost use Rattle.std.specs.Str.{bytes_eq};
ghost use Rattle.toml.specs.View.{view, items_view};
ghost use Rattle.ptk_config.specs.Reading.{MemoryAside};
ghost use Rattle.ptk_config.specs.Windows.{number_of, window, windows_in};

use crate::fault::ConfigFault;
use crate::place::{Key, Place, TablePlace};
use crate::reading::{are_known, members, number, required, text};
use crate::section::Section;
use ptk_words::PartId;
use ptk_words_model::Window;
use std::alloc::Global;
use toml::Value;

/// The greatest number of windows, of those at the top and of those of a plan.
pub const WINDOWS_TO: usize = 64;

/// The last tick of a frame at which a window may start.
pub const START_TO: u64 = 999_999;

/// The greatest number of ticks of a window.
pub const LENGTH_TO: u64 = 1_000_000;

/// The place of the first section of this name, None where no section has it.
pub fn place_named(sections: &[Section], name: &str) -> Option<usize>
    ensures place { result ≡ position (λ s. bytes_eq s.name name.now) sections.now }
    ensures within { IfSome result (λ i. i < length sections.now) }
{
    sections.iter().position(|section| section.has_name(name))
}

/// The number of the section of this name, or how many sections there are.
fn number_of(sections: &[Section], name: &str) -> PartId
    requires { length sections.now ≤ 8 }
    ensures { result ≡ number_of sections.now name.now }
{
    match place_named(sections, name) {
        Some(number) => PartId::new(number as u8),
        None => PartId::new(sections.len() as u8),
    }
}

/// The window that a value states. At a fault the place is that of the fault.
fn read_window(
    here: TablePlace,
    value: &Value,
    sections: &[Section],
    place: &mut Place,
) -> Result<Window, ConfigFault>
    requires { length sections.now ≤ 8 }
    ensures { result ≡ window sections.now (view value.now) }
{
    *place = Place::Table(here);
    let table = members(value)?;
    *place = Place::Key(here, Key::Start);
    let start = number(table, "start", 0, START_TO)?;
    *place = Place::Key(here, Key::Length);
    let length = number(table, "length", 1, LENGTH_TO)?;
    *place = Place::Key(here, Key::Partition);
    let name = required(table, "partition")?;
    let name = text(name)?;
    *place = Place::Table(here);
    if are_known(table, &["start", "length", "partition"]) {
        Ok(Window {
            start: start as u32,
            length: length as u32,
            partition: number_of(sections, name),
        })
    } else {
        Err(ConfigFault::UnknownKey)
    }
}

/// The windows of the plan of this number that the values state, or of the top if that is None. At a fault the place is
/// that of the fault.
#[tactic(auto, using(crate::proofs::Walks::walks), unfolding(crate::specs::Windows::windows_in))]
pub(crate) fn read_windows(
    alloc: Global,
    plan: Option<usize>,
    values: &[Value],
    sections: &[Section],
    place: &mut Place,
) -> Result<Vec<Window>, ConfigFault>
    requires { length sections.now ≤ 8 }
    ensures { MemoryAside (λ v. v.items) result (windows_in sections.now (items_view values.now)) }
{
    let mut windows = Vec::new(alloc);
    for value in values {
        let here = TablePlace::Window(plan, windows.len() + 1);
        windows.push(read_window(here, value, sections, place)?)?;
    }
    Ok(windows)
}
