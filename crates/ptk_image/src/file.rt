//! One file.

ghost use Rattle.std.specs.Prelude.{◌≡◌, IfOk};
ghost use Rattle.std.specs.Str.{bytes_eq};

use std::alloc::{AllocError, Global};
use std::marker::Model;

/// A file: its name and its bytes.
#[derive(Drop)]
pub struct File {
    name: String,
    content: Vec<u8>,
}

impl Model for File {
    ghost use Rattle.std.specs.Prelude.{string_bytes};
    ghost use Rattle.ptk_image.specs.NamedFiles.{NamedFile};

    ghost Value = { NamedFile };

    ghost view = { λ a. record { name = string_bytes a.name; content = a.content.items } };
}

impl File {
    /// A file of this name with a copy of these bytes. An error where memory ran out.
    pub(crate) fn copied(alloc: Global, name: &str, content: &[u8]) -> Result<File, AllocError>
        ensures { IfOk result (λ file. file ≡ record { name = name.now; content = content.now }) }
    {
        Ok(File {
            name: String::from_str(alloc, name)?,
            content: Vec::from_slice(alloc, content)?,
        })
    }

    /// Whether this is its name.
    pub(crate) fn has_name(&self, name: &str) -> bool
        ensures { result ≡ bytes_eq self.now.name name.now }
    {
        self.name.as_str() == name
    }

    /// Its bytes.
    pub(crate) fn content(&self) -> &[u8]
        ensures { result.now ≡ self.now.content }
    {
        &self.content
    }
}
