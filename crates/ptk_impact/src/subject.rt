//! A partition of a system.

ghost use Rattle.std.specs.Prelude.{◌≡◌, option_map};
ghost use Rattle.ptk_config.specs.Configuration.{IsConfiguration};
ghost use Rattle.ptk_system.specs.Missing.{image_in};
ghost use Rattle.ptk_impact.specs.Views.{IsPartition, section_of};

use ptk_config::{Config, Section};
use ptk_image::Files;
use ptk_words::PartId;

/// A partition of a configuration whose images are these files.
#[derive(Clone, Copy)]
pub struct Subject<'a> {
    /// The configuration.
    pub config: &'a Config,
    /// The files that have its images.
    pub files: &'a Files,
    /// The partition, by its place among the sections.
    pub partition: PartId,
}

impl<'a> Subject<'a> {
    /// Its section.
    pub fn section(&self) -> &'a Section
        requires { IsPartition self.now }
        ensures value { result.now ≡ section_of self.now }
        ensures whole { IsConfiguration self.now.config.now }
    {
        let config = self.config;
        let sections = config.sections();
        &sections[self.partition.index()]
    }

    /// The bytes of its image, None if its section names none or no file has the name.
    pub fn image(&self) -> Option<&'a [u8]>
        requires { IsPartition self.now }
        ensures { option_map (λ bytes. bytes.now) result ≡ image_in self.now.files.now (section_of self.now).image }
    {
        let files = self.files;
        files.get(self.section().image()?)
    }
}
