//! A plan's table: windows that hold from a frame on.

ghost use Rattle.std.specs.Prelude.{◌≡◌, ◌≤◌, [], IfOk, codes, length, vec_len};
ghost use Rattle.toml.specs.Data.{get_member};
ghost use Rattle.toml.specs.View.{view, table_view, items_view};
ghost use Rattle.ptk_config.specs.Reading.{MemoryAside, each_after};
ghost use Rattle.ptk_config.specs.Windows.{AreLater, stage, stage_in, stages_of};

use crate::fault::ConfigFault;
use crate::place::{Key, Place, TablePlace};
use crate::reading::{are_known, array, counted, items, members, number, value_at};
use crate::section::Section;
use crate::window::{WINDOWS_TO, read_windows};
use ptk_words_model::Window;
use std::alloc::Global;
use std::marker::Model;
use toml::{Table, Value};

/// The number of the last frame from which a plan may hold.
pub const LAST_FROM: u64 = 68_719_476_736;

/// The greatest number of plans besides the windows at the top.
pub const PLANS_TO: usize = 15;

/// Windows that hold from the frame of this number on.
#[derive(Drop)]
pub(crate) struct Stage {
    from: u64,
    windows: Vec<Window>,
}

impl Model for Stage {
    ghost use Rattle.ptk_words_model.specs.Windows as tables;

    ghost Value = { tables.Stage };

    ghost view = { λ a. record { from = a.from; windows = a.windows.items } };
}

impl Stage {
    /// The number of the frame, and the windows.
    pub(crate) fn given(&self) -> (u64, &[Window])
        ensures from { result.0 ≡ self.now.from }
        ensures windows { result.1.now ≡ self.now.windows }
    {
        (self.from, &self.windows)
    }
}

/// The windows that the plan of this number states, and the number of the frame from which they hold, which is `low` or
/// later. At a fault the place is that of the fault.
fn read_stage(
    alloc: Global,
    plan: usize,
    value: &Value,
    sections: &[Section],
    low: u64,
    place: &mut Place,
) -> Result<Stage, ConfigFault>
    requires { length sections.now ≤ 8 }
    ensures value { MemoryAside (λ s. s) result (stage sections.now low (view value.now)) }
    ensures from { IfOk result (λ s. low ≤ s.from) }
    ensures to { IfOk result (λ s. s.from ≤ 68719476736) }
{
    let here = TablePlace::Plan(plan);
    *place = Place::Table(here);
    let table = members(value)?;
    *place = Place::Key(here, Key::From);
    let from = number(table, "from", low, LAST_FROM)?;
    *place = Place::Key(here, Key::Window);
    let values = array(table, "window", 0, WINDOWS_TO)?;
    let windows = read_windows(alloc, Some(plan), values, sections, place)?;
    *place = Place::Table(here);
    if are_known(table, &["from", "window"]) {
        Ok(Stage { from, windows })
    } else {
        Err(ConfigFault::UnknownKey)
    }
}

/// The stages that the values state, each from a later frame than the one before. At a fault the place is that of the
/// fault.
#[tactic(auto, using(crate::proofs::Stages::stages))]
fn read_stages(
    alloc: Global,
    values: &[Value],
    sections: &[Section],
    place: &mut Place,
) -> Result<Vec<Stage>, ConfigFault>
    requires { length sections.now ≤ 8 }
    ensures value { MemoryAside (λ v. v.items) result (each_after (stage_in sections.now) [] (items_view values.now)) }
    ensures count { IfOk result (λ v. vec_len v ≡ length values.now) }
    ensures order { IfOk result (λ v. AreLater v.items) }
{
    let mut stages = Vec::new(alloc);
    let mut last = 0;
    for value in values {
        let plan = stages.len() + 1;
        let stage = read_stage(alloc, plan, value, sections, last + 1, place)?;
        last = stage.from;
        stages.push(stage)?;
    }
    Ok(stages)
}

/// The stages after the first, none if the key is missing. At a fault the place is that of the fault.
#[tactic(auto, using(crate::proofs::Stages::stages), unfolding(crate::specs::Windows::stages_of))]
pub(crate) fn read_later_stages(
    alloc: Global,
    table: &Table,
    sections: &[Section],
    place: &mut Place,
) -> Result<Vec<Stage>, ConfigFault>
    requires { length sections.now ≤ 8 }
    ensures value { MemoryAside (λ v. v.items) result (stages_of sections.now (get_member (codes "plan") (table_view table.now))) }
    ensures count { IfOk result (λ v. vec_len v ≤ 15) }
    ensures order { IfOk result (λ v. AreLater v.items) }
{
    match value_at(table, "plan") {
        Some(value) => {
            *place = Place::Key(TablePlace::Top, Key::Plan);
            let values = items(value)?;
            let values = counted(values, 0, PLANS_TO)?;
            read_stages(alloc, values, sections, place)
        }
        None => Ok(Vec::new(alloc)),
    }
}
