//! All files.

ghost use Rattle.std.specs.Prelude.{◌≡◌, ◌<◌, ℕ, List, [], Some, OnOk, OnErr, IfSome, length, option_map, position, if◌then◌else◌};
ghost use Rattle.std.specs.Str.{bytes_eq};
ghost use Rattle.ptk_image.specs.NamedFiles.{content_of};

use crate::file::File;
use std::alloc::{AllocError, Global};
use std::marker::Model;

/// Files, each by its name, on one allocator.
#[derive(Drop)]
pub struct Files {
    alloc: Global,
    items: Vec<File>,
}

impl Model for Files {
    ghost use Rattle.std.specs.Prelude.{List};
    ghost use Rattle.ptk_image.specs.NamedFiles.{NamedFile};

    ghost Value = { List NamedFile };

    ghost view = { λ a. a.items.items };
}

impl Files {
    /// No files yet.
    pub fn new(alloc: Global) -> Files
        ensures { result ≡ [] }
    {
        Files {
            alloc,
            items: Vec::new(alloc),
        }
    }

    /// Adds a file with a copy of these bytes. A file that has the name is replaced; every other name has the bytes
    /// that it had. An error where memory ran out, and then nothing changes.
    #[tactic(auto, using(crate::proofs::Added::added))]
    pub fn add(&mut self, name: &str, content: &[u8]) -> Result<(), AllocError>
        ensures added { OnOk result ((other : List ℕ) → content_of self.new other ≡
            (if bytes_eq name.now other then Some content.now else content_of self.old other)) }
        ensures refused { OnErr result (self.new ≡ self.old) }
    {
        let file = File::copied(self.alloc, name, content)?;
        match self.place_of(name) {
            Some(place) => {
                self.items[place] = file;
                Ok(())
            }
            None => {
                self.items.push(file)?;
                Ok(())
            }
        }
    }

    /// The place of the file of a name.
    fn place_of(&self, name: &str) -> Option<usize>
        ensures place { result ≡ position (λ file. bytes_eq file.name name.now) self.now }
        ensures within { IfSome result (λ place. place < length self.now) }
    {
        self.items.iter().position(|file| file.has_name(name))
    }

    /// The bytes of the file of a name, None where no file has it.
    #[tactic(auto, using(crate::proofs::Added::found))]
    pub fn get(&self, name: &str) -> Option<&[u8]>
        ensures { option_map (λ content. content.now) result ≡ content_of self.now name.now }
    {
        let place = self.place_of(name)?;
        Some(self.items[place].content())
    }
}
