//! Images that serve both configurations.

use ptk_config::Config;
use std::io;
use std::io::Write;

/// A configuration, and what names the files that it and its images were read from.
#[derive(Clone, Copy)]
pub struct Source<'a> {
    /// The configuration.
    pub config: &'a Config,
    /// The path of its file.
    pub file: &'a str,
    /// The folder that its images were looked up in, None for the working folder.
    pub root: Option<&'a str>,
}

impl<'a> Source<'a> {
    /// The folder of the configuration's file, `.` for the working folder.
    fn folder(&self) -> &'a str {
        let path = match self.file.split_once("./") {
            Some((before, path)) if before.is_empty() => path,
            _ => self.file,
        };
        match path.rsplit_once('/') {
            Some((folder, _name)) => folder,
            None => ".",
        }
    }

    /// Whether a section names this image.
    fn has_image(&self, name: &str) -> bool {
        let config = self.config;
        config
            .sections()
            .iter()
            .any(|section| section.image() == Some(name))
    }
}

/// The name of the first image of the new configuration whose one file was read for both, although their files lie in
/// two folders. None if there is no such image: images are looked up in one folder and not beside the configuration.
pub fn image_for_both<'a>(old: &Source<'_>, new: &Source<'a>) -> Option<&'a str> {
    if old.root != new.root || old.folder() == new.folder() {
        return None;
    }
    let config = new.config;
    for section in config.sections() {
        if let Some(name) = section.image() {
            if old.has_image(name) {
                return Some(name);
            }
        }
    }
    None
}

/// Writes the line that one file was read for both configurations as the image of this name. An error is the writer's.
pub fn put_image_for_both<W: Write>(name: &str, out: &mut W) -> io::Result<()> {
    writeln!(
        out,
        "ptk: {name} is read once for both configurations, which lie in two folders; --old-root names another one"
    )
}
