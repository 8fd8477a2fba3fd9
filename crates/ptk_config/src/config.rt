//! A whole document.

use crate::fault::ConfigFault;
use crate::place::{Key, Place, Refusal, TablePlace};
use crate::reading::{are_known, array, number};
use crate::section::{Section, read_section};
use crate::stage::{Stage, read_later_stages};
use crate::window::{WINDOWS_TO, read_windows};
use crate::window_place::plan_place;
use ptk_window::WindowPlan;
use ptk_words::PartId;
use ptk_words_model::{Window, WindowFault};
use std::alloc::{AllocError, Global};
use std::marker::Model;
use toml::{Table, Value};

/// The least number of ticks of a frame.
pub const FRAME_FROM: u64 = 16;

/// The greatest number of ticks of a frame.
pub const FRAME_TO: u64 = 1_000_000;

/// The greatest number of partitions of a configuration.
pub const PARTITIONS_TO: usize = 8;

/// The sections, by number, and the plan of their windows.
pub struct Config {
    sections: Vec<Section>,
    plan: WindowPlan,
}

// By hand: a function that drops a configuration calls this, and its proof does not spell out the drop of each part.
impl Drop for Config {
    fn drop(self) {
        let Config { sections, plan } = self;
    }
}

impl Model for Config {
    ghost use Rattle.ptk_config.specs.Configuration.{Configuration, IsConfiguration};

    ghost Value = { Configuration };

    ghost view = { λ a. record { sections = a.sections.items; plan = a.plan } };

    ghost invariant = { λ a. IsConfiguration (record { sections = a.sections.items; plan = a.plan }) };
}

ghost use Rattle.std.specs.Prelude.{◌≡◌, ◌≤◌, ◌<◌, ◌≢◌, Ok, Err, None, IfOk, IfErr, IfSome, is_some, All, ◌∷◌, ◌^◌, length, map, option_map, vec_len};
ghost use Rattle.std.specs.List.{list_any};
ghost use Rattle.std.specs.Result.{result_err};
ghost use Rattle.std.specs.Str.{bytes_eq};
ghost use Rattle.toml.specs.Parse.{parse_document};
ghost use Rattle.toml.specs.View.{table_view, items_view};
ghost use Rattle.ptk_config.specs.Reading.{MemoryAside};
ghost use Rattle.ptk_config.specs.Sections.{AreInRange, sections_in, with_trace_at};
ghost use Rattle.ptk_config.specs.Windows.{AreLater};
ghost use Rattle.ptk_config.specs.Configuration.{IsConfiguration, any_doubled, configuration, configuration_in};

impl Config {
    /// The sections, by number: 1 to 8, each within its ranges, of distinct names.
    pub fn sections(&self) -> &[Section]
        ensures value { result.now ≡ self.now.sections }
        ensures some { 1 ≤ length result.now }
        ensures few { length result.now ≤ 8 }
        ensures whole { IsConfiguration self.now }
    {
        &self.sections
    }

    /// How many sections there are, 1 to 8.
    pub fn parts(&self) -> usize
        ensures value { result ≡ length self.now.sections }
        ensures some { 1 ≤ result }
        ensures few { result ≤ 8 }
    {
        self.sections.len()
    }

    /// How many ticks a frame has, 16 to 1000000.
    pub fn frame(&self) -> u32
        ensures value { result ≡ self.now.plan.frame }
        ensures from { 16 ≤ result }
        ensures to { result ≤ 1000000 }
    {
        self.plan.frame()
    }

    /// The plan: which section's each tick is. Its windows change at frames alone, at 15 of them at most, none of which
    /// has a number above 2^36.
    pub fn plan(&self) -> &WindowPlan
        ensures value { result.now ≡ self.now.plan }
        ensures whole { IsConfiguration self.now }
    {
        &self.plan
    }

    /// Makes the trace of a partition keep this many of its last entries, at most 1048576; the key `trace` of a
    /// document is 0 to 1024. All else stays: it is the same run, and its trace has the last entries of that run
    /// (`deeper_trace_is_same_run` of `ptk_impact`).
    pub fn keep_trace(&mut self, p: PartId, entries: u32)
        requires place { p < length self.old.sections }
        requires few { entries ≤ 1048576 }
        ensures { self.new ≡ record self.old { sections = with_trace_at entries p self.old.sections } }
    {
        self.sections[p.index()].keep_trace(entries);
    }
}

/// The sections that the values state. At a fault the place is that of the fault.
#[tactic(auto, using(crate::proofs::Sections::sections), unfolding(crate::specs::Sections::sections_in))]
fn read_sections(
    alloc: Global,
    values: &[Value],
    place: &mut Place,
) -> Result<Vec<Section>, ConfigFault>
    ensures value { MemoryAside (λ v. v.items) result (sections_in (items_view values.now)) }
    ensures count { IfOk result (λ v. vec_len v ≡ length values.now) }
    ensures ranges { IfOk result (λ v. AreInRange v.items) }
{
    let mut sections = Vec::new(alloc);
    for value in values {
        let number = sections.len() + 1;
        sections.push(read_section(alloc, number, value, place)?)?;
    }
    Ok(sections)
}

/// Whether one of these has the section's name.
pub(crate) fn shares_name(section: &Section, others: &[Section]) -> bool
    ensures { result ≡ list_any (λ u. bytes_eq section.now.name u.name) others.now }
{
    others.iter().any(|other| section.has_name(other.name()))
}

/// The place, from 0, of the first section whose name a later one has.
#[tactic(auto, using(ptk_window::proofs::Pairs::pairs), unfolding(crate::specs::Configuration::any_doubled))]
fn first_doubled(sections: &[Section]) -> Option<usize>
    ensures value { is_some result ≡ any_doubled sections.now }
    ensures within { IfSome result (λ index. index < length sections.now) }
{
    for (index, section) in sections.iter().enumerate() {
        if shares_name(section, &sections[index + 1..]) {
            return Some(index);
        }
    }
    None
}

/// The top windows from frame 0 on, and those of each later stage from its frame on.
#[tactic(auto, using(crate::proofs::Stages::given))]
fn stages_given<'a>(
    alloc: Global,
    windows: &'a [Window],
    later: &'a [Stage],
) -> Result<Vec<(u64, &'a [Window])>, AllocError>
    requires { AreLater later.now }
    ensures value { IfOk result
        (λ v. map (λ stage. record { from = stage.0; windows = stage.1.now }) v.items ≡ record { from = 0; windows = windows.now } ∷ later.now) }
    ensures numbers { IfOk result (λ v. All (λ stage. stage.0 ≤ 2 ^ 36) v.items) }
{
    let mut stages = Vec::new(alloc);
    stages.push((0, windows))?;
    for stage in later {
        stages.push(stage.given())?;
    }
    Ok(stages)
}

/// What a document's table states. At a fault the place is that of the fault.
fn read_table(alloc: Global, table: &Table, place: &mut Place) -> Result<Config, ConfigFault>
    ensures { MemoryAside (λ a. a) result (configuration (table_view table.now)) }
{
    let top = TablePlace::Top;
    *place = Place::Key(top, Key::Frame);
    let frame = number(table, "frame", FRAME_FROM, FRAME_TO)?;
    *place = Place::Key(top, Key::Partition);
    let values = array(table, "partition", 1, PARTITIONS_TO)?;
    let sections = read_sections(alloc, values, place)?;
    *place = Place::Key(top, Key::Window);
    let values = array(table, "window", 0, WINDOWS_TO)?;
    let windows = read_windows(alloc, None, values, &sections, place)?;
    let later = read_later_stages(alloc, table, &sections, place)?;
    *place = Place::Table(top);
    if !are_known(table, &["frame", "partition", "window", "plan"]) {
        return Err(ConfigFault::UnknownKey);
    }
    if let Some(index) = first_doubled(&sections) {
        *place = Place::Key(TablePlace::Section(index + 1), Key::Name);
        return Err(ConfigFault::DoubledName);
    }
    let stages = stages_given(alloc, &windows, &later)?;
    match WindowPlan::new(alloc, frame as u32, sections.len(), &stages) {
        Ok(plan) => Ok(Config { sections, plan }),
        Err(WindowFault::Memory) => Err(ConfigFault::Memory),
        Err(fault) => {
            *place = plan_place(frame as u32, sections.len(), &stages);
            Err(ConfigFault::Window(fault))
        }
    }
}

/// What a text states. At a fault the place is that of the fault.
fn read_text(alloc: Global, text: &str, place: &mut Place) -> Result<Config, ConfigFault>
    ensures values { IfOk result (λ config. configuration_in text.now ≡ Ok config) }
    ensures refused { IfErr result (λ fault. fault ≢ ConfigFault.Memory → configuration_in text.now ≡ Err fault) }
    ensures text { IfErr result (λ fault. fault ≡ ConfigFault.Text → parse_document text.now ≡ None) }
    ensures order { IfErr result (λ fault. fault ≢ ConfigFault.Window WindowFault.OutOfOrder) }
{
    match toml::table_from_str(alloc, text) {
        Ok(table) => read_table(alloc, &table, place),
        Err(error) if error.is_memory() => Err(ConfigFault::Memory),
        Err(_) => {
            *place = Place::Text;
            Err(ConfigFault::Text)
        }
    }
}

/// Reads a configuration, a TOML document. Returns the first fault in the order of the checks, from a text that is no
/// document to a fault of the windows; `ConfigFault::Memory` comes only if memory was refused.
pub fn read_config(alloc: Global, text: &str) -> Result<Config, ConfigFault>
    ensures values { IfOk result (λ config. configuration_in text.now ≡ Ok config) }
    ensures refused { IfErr result (λ fault. fault ≢ ConfigFault.Memory → configuration_in text.now ≡ Err fault) }
    ensures text { IfErr result (λ fault. fault ≡ ConfigFault.Text → parse_document text.now ≡ None) }
    ensures order { IfErr result (λ fault. fault ≢ ConfigFault.Window WindowFault.OutOfOrder) }
{
    let mut place = Place::Text;
    read_text(alloc, text, &mut place)
}

/// The first fault of a configuration with its place, None if the text is accepted. An error if memory was refused.
pub fn first_refusal(alloc: Global, text: &str) -> Result<Option<Refusal>, AllocError>
    ensures fault { IfOk result
        (λ found. option_map (λ r. r.fault) found ≡ result_err (configuration_in text.now)) }
{
    let mut place = Place::Text;
    match read_text(alloc, text, &mut place) {
        Ok(_config) => Ok(None),
        Err(ConfigFault::Memory) => Err(AllocError),
        Err(fault) => Ok(Some(Refusal { place, fault })),
    }
}
