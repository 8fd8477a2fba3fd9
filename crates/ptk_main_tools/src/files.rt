//! The files of the host, as they are compared and written.

use std::fs::{File, Metadata, OpenOptions};
use std::io::{ErrorKind, Write};
use std::os::unix::fs::MetadataExt;
use std::{fs, io, process};

/// Whether two paths are one file: their words are the same, or both lead to the same file of one device, by whatever
/// links.
pub(crate) fn is_one_file(rt: &HostRuntime, first: &str, second: &str) -> bool {
    if first == second {
        return true;
    }
    match (fs::metadata(rt, first), fs::metadata(rt, second)) {
        (Ok(first), Ok(second)) => first.dev() == second.dev() && first.ino() == second.ino(),
        _ => false,
    }
}

/// Makes the file of this path anew, with these bytes. A file that is there already stays as it is until the new bytes
/// are written beside it, and then is replaced; if no file can be made beside it, for another reason than a full
/// disk, it is written over. An error if the bytes can't be written.
pub(crate) fn write_file(rt: &HostRuntime, path: &str, bytes: &[u8]) -> io::Result<()> {
    match fs::metadata(rt, path) {
        Ok(old) if old.is_file() => replace_file(rt, path, &old, bytes),
        _ => fs::write(rt, path, bytes),
    }
}

// Replaces the file of this path by one with these bytes and its permissions. A link to it stays one.
fn replace_file(rt: &HostRuntime, path: &str, old: &Metadata, bytes: &[u8]) -> io::Result<()> {
    let target = fs::canonicalize(rt, path)?;
    let whole = target.as_path().to_string_lossy();
    let number = process::id(rt.process());
    let beside = format!(in rt.alloc(); "{whole}.{number}.new")?;
    match OpenOptions::new()
        .write(true)
        .create_new(true)
        .open(rt, beside.as_str())
    {
        Ok(file) => take_place(rt, file, beside.as_str(), whole, old, bytes),
        Err(error) => match error.kind() {
            ErrorKind::StorageFull | ErrorKind::QuotaExceeded => Err(error),
            _ => fs::write(rt, path, bytes),
        },
    }
}

// Writes these bytes into a new file, which takes the place of the old one. The new file is removed if it can't be
// written or can't take that place.
fn take_place(
    rt: &HostRuntime,
    file: File,
    beside: &str,
    whole: &str,
    old: &Metadata,
    bytes: &[u8],
) -> io::Result<()> {
    let outcome = fill(file, old, bytes).and_then(|()| fs::rename(rt, beside, whole));
    if outcome.is_err() {
        let _removed = fs::remove_file(rt, beside);
    }
    outcome
}

// Writes these bytes into a file, which gets the permissions of another.
fn fill(file: File, old: &Metadata, bytes: &[u8]) -> io::Result<()> {
    let mut file = file;
    file.write_all(bytes)?;
    file.set_permissions(old.permissions())
}
