//! The machine of a configuration before its first decision.

ghost use Rattle.std.specs.Prelude.{◌≡◌, ◌<◌, List, IfOk, IfErr, IfSome, IsOk, OnOk, length, map, option_map};
ghost use Rattle.std.specs.Option.{IsSomeAnd};
ghost use Rattle.ptk_image.specs.NamedFiles.{NamedFile};
ghost use Rattle.ptk_words.specs.Image.{image_of};
ghost use Rattle.ptk_words_model.specs.Run.{empty_part, with_image, with_image_bytes};
ghost use Rattle.ptk_system_machine.specs.Kept.{limits_at, part_at, put_part};
ghost use Rattle.ptk_system.specs.Loaded.{AreLoaded};
ghost use Rattle.ptk_system.specs.Missing.{first_missing, image_in, is_missing};
ghost use Rattle.ptk_system.specs.World.{IsRun};

use crate::fault::BootFault;
use ptk_config::{Config, Section};
use ptk_image::{Files, read_image};
use ptk_system_machine::{Machine, Tables};
use ptk_words::{Arrival, ImageFault, Limits, PartId};
use std::alloc::{AllocError, Global};

/// The first section, in their order, whose file is missing.
pub(crate) fn first_missing(config: &Config, files: &Files) -> Option<PartId>
    ensures { result ≡ first_missing files.now config.now.sections }
{
    let sections = config.sections();
    let place = place_of_missing(sections, files)?;
    Some(PartId::new(place as u8))
}

/// The place of the first section whose file is missing.
fn place_of_missing(sections: &[Section], files: &Files) -> Option<usize>
    ensures place { result ≡ first_missing files.now sections.now }
    ensures within { IfSome result (λ place. place < length sections.now) }
{
    sections
        .iter()
        .position(|section| is_missing(section, files))
}

/// Whether the section names an image and no file has the name.
fn is_missing(section: &Section, files: &Files) -> bool
    ensures { result ≡ is_missing files.now section.now }
{
    match section.image() {
        Some(name) => files.get(name).is_none(),
        None => false,
    }
}

/// The bytes of the section's image, None where it names none or no file has the name.
fn image_bytes<'a>(section: &Section, files: &'a Files) -> Option<&'a [u8]>
    ensures { option_map (λ bytes. bytes.now) result ≡ image_in files.now section.now.image }
{
    let name = section.image()?;
    files.get(name)
}

/// The machine before the first decision of any partition. Memory is its only fault.
#[tactic(auto, using(crate::proofs::Loading::starts))]
pub(crate) fn first_machine(
    alloc: Global,
    config: &Config,
    files: &Files,
) -> Result<Machine, BootFault>
    ensures made { IfOk result (λ machine. IsRun config.now files.now machine 0) }
    ensures refused { IfErr result (λ fault. fault ≡ BootFault.Memory) }
{
    let limits = limits_of(alloc, config)?;
    let tables = loaded_tables(alloc, config, files, &limits)?;
    let machine = Machine::start(alloc, tables, &limits, config.plan())?;
    Ok(machine)
}

/// The numbers of the sections, in their order.
fn limits_of(alloc: Global, config: &Config) -> Result<Vec<Limits>, AllocError>
    ensures { IfOk result (λ limits. limits.items ≡ map (λ section. section.limits) config.now.sections) }
{
    config
        .sections()
        .iter()
        .map(|section| section.limits())
        .collect(alloc)
}

/// The inputs of the sections, in their order.
fn inputs_of<'a>(alloc: Global, config: &'a Config) -> Result<Vec<&'a [Arrival]>, AllocError>
    ensures { IfOk result (λ inputs. map (λ input. input.now) inputs.items ≡ map (λ section. section.input) config.now.sections) }
{
    let mut inputs = Vec::new(alloc);
    for section in config.sections() {
        inputs.push(section.input())?;
    }
    Ok(inputs)
}

/// The tables of the sections with their images loaded. Memory is its only fault.
fn loaded_tables(
    alloc: Global,
    config: &Config,
    files: &Files,
    limits: &[Limits],
) -> Result<Tables, BootFault>
    requires { limits.now ≡ map (λ section. section.limits) config.now.sections }
    ensures loaded { IfOk result (λ tables. AreLoaded config.now files.now (length config.now.sections) tables) }
    ensures refused { IfErr result (λ fault. fault ≡ BootFault.Memory) }
{
    let sections = config.sections();
    let mut tables = blank_tables(alloc, config, limits)?;
    for i in 0..sections.len() {
        load_section(
            alloc,
            &mut tables,
            PartId::new(i as u8),
            &sections[i],
            files,
        )?;
    }
    Ok(tables)
}

/// The tables of the sections before any image is loaded.
#[tactic(auto, using(crate::proofs::Loading::blanks))]
fn blank_tables(alloc: Global, config: &Config, limits: &[Limits]) -> Result<Tables, AllocError>
    requires { limits.now ≡ map (λ section. section.limits) config.now.sections }
    ensures { IfOk result (λ tables. (files : List NamedFile) → AreLoaded config.now files 0 tables) }
{
    let _sections = config.sections();
    let inputs = inputs_of(alloc, config)?;
    Tables::new(alloc, limits, &inputs)
}

/// Loads the section's image, if it names one, into a partition that has none yet. Memory is its only fault, and never
/// the answer to an image that has one: that halts the partition as refused.
#[tactic(auto, using(ptk_system_machine::proofs::States::same_part))]
fn load_section(
    alloc: Global,
    tables: &mut Tables,
    p: PartId,
    section: &Section,
    files: &Files,
) -> Result<(), BootFault>
    requires partition { p < length tables.old.limits }
    requires blank { part_at p tables.old ≡ empty_part (limits_at p tables.old) (part_at p tables.old).console.coming }
    ensures loaded { OnOk result (tables.new ≡ put_part p
        (with_image_bytes (limits_at p tables.old) (image_in files.now section.now.image) (part_at p tables.old)) tables.old) }
    ensures refused { IfErr result (λ fault. fault ≡ BootFault.Memory) }
    ensures sound { IfErr result (λ _. IsSomeAnd (image_in files.now section.now.image) (λ bytes. IsOk (image_of bytes))) }
{
    match image_bytes(section, files) {
        Some(bytes) => load_image(alloc, tables, p, bytes),
        None => Ok(()),
    }
}

/// Loads these bytes as an image, or halts the partition as refused where they have a fault. Memory is its only fault,
/// and comes only of bytes that have none.
fn load_image(alloc: Global, tables: &mut Tables, p: PartId, bytes: &[u8]) -> Result<(), BootFault>
    requires partition { p < length tables.old.limits }
    requires blank { part_at p tables.old ≡ empty_part (limits_at p tables.old) (part_at p tables.old).console.coming }
    ensures loaded { OnOk result (tables.new ≡ put_part p
        (with_image (limits_at p tables.old) (image_of bytes.now) (part_at p tables.old)) tables.old) }
    ensures refused { IfErr result (λ fault. fault ≡ BootFault.Memory) }
    ensures sound { IfErr result (λ _. IsOk (image_of bytes.now)) }
{
    match read_image(alloc, bytes) {
        Ok(image) => {
            tables.load(p, image.entry(), image.text(), image.data(), image.bss());
            Ok(())
        }
        Err(ImageFault::Memory) => Err(BootFault::Memory),
        Err(fault) => {
            tables.refuse_image(p, fault);
            Ok(())
        }
    }
}
