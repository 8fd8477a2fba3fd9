//! A configuration with its files.

ghost use Rattle.std.specs.Prelude.{◌≡◌, ◌<◌, ◌≤◌, IfSome, length, option_map};
ghost use Rattle.ptk_config.specs.Configuration.{IsConfiguration};
ghost use Rattle.ptk_main_runs.specs.Missing.{first_missing, is_missing};
ghost use Rattle.ptk_impact_answers.specs.Refusals.{missing_image};

use ptk_config::{Config, Section};
use ptk_image::Files;
use ptk_impact::Subject;
use ptk_main_runs::part_named;
use ptk_words::PartId;

/// A configuration, and the files that have its images.
#[derive(Clone, Copy)]
pub struct Release<'a, 'f> {
    /// The configuration.
    pub config: &'a Config,
    /// The files that have its images.
    pub files: &'f Files,
}

impl<'a, 'f> Release<'a, 'f> {
    /// Its sections, in their order, 8 at most, of distinct names.
    pub(crate) fn sections(&self) -> &'a [Section]
        ensures value { result.now ≡ self.now.config.now.sections }
        ensures few { length result.now ≤ 8 }
        ensures whole { IsConfiguration self.now.config.now }
    {
        let config = self.config;
        config.sections()
    }

    /// The name of the section at this place.
    pub(crate) fn name_at(&self, place: usize) -> &'a str
        requires { place < length self.now.config.now.sections }
    {
        let sections = self.sections();
        sections[place].name()
    }

    /// The place of the section of this name, None if no section has it.
    pub(crate) fn place_of(&self, name: &str) -> Option<usize>
        ensures { IfSome result (λ place. place < length self.now.config.now.sections) }
    {
        let p = part_named(self.config, name)?;
        Some(p.index())
    }

    /// The partition at this place.
    pub(crate) fn subject(&self, place: usize) -> Subject<'_>
        requires { place < length self.now.config.now.sections }
        ensures { result ≡ record { config = self.now.config; files = self.now.files; partition = place } }
    {
        let _sections = self.sections();
        Subject {
            config: self.config,
            files: self.files,
            partition: PartId::new(place as u8),
        }
    }

    /// The name of the first image, in the order of the sections, that no file has, None if each has its file.
    pub(crate) fn missing_image(&self) -> Option<&'a str>
        ensures { option_map (λ name. name.now) result ≡ missing_image self.now }
    {
        let place = self.place_of_missing()?;
        self.sections()[place].image()
    }

    /// The place of the first section that names an image which no file has.
    fn place_of_missing(&self) -> Option<usize>
        ensures place { result ≡ first_missing self.now.files.now self.now.config.now.sections }
        ensures within { IfSome result (λ place. place < length self.now.config.now.sections) }
    {
        let files = self.files;
        self.sections()
            .iter()
            .position(|section| is_missing(section, files))
    }
}

/// Whether the section names an image and no file has the name.
fn is_missing(section: &Section, files: &Files) -> bool
    ensures { result ≡ is_missing files.now section.now }
{
    match section.image() {
        Some(name) => files.get(name).is_none(),
        None => false,
    }
}
