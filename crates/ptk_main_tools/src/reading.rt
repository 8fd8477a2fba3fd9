//! The files that the program reads.

use crate::fault::Fault;
use ptk_config::{Config, Section, read_config};
use ptk_disasm::{SymbolFault, Symbols, read_symbols};
use ptk_image::Files;
use std::{fs, io};

/// The bytes of a file. A fault if it is not there, can't be read, or memory ran out. A path through a file is one
/// of a file that is not there (own choice).
pub fn bytes_in<'a>(rt: &HostRuntime, name: &'a str) -> Result<Vec<u8>, Fault<'a>> {
    match fs::read(rt, name) {
        Ok(bytes) => Ok(bytes),
        Err(error) => Err(read_fault(name, error.kind())),
    }
}

// The fault of a file of this name that the host does not read, by the kind of its error.
fn read_fault<'a>(name: &'a str, kind: io::ErrorKind) -> Fault<'a> {
    match kind {
        io::ErrorKind::NotFound | io::ErrorKind::NotADirectory => Fault::MissingFile(name),
        io::ErrorKind::OutOfMemory => Fault::NoMemory,
        _ => Fault::ReadFailed(name),
    }
}

/// The text of a file. A fault if the file can't be read, or is no text.
pub fn text_in<'a>(rt: &HostRuntime, name: &'a str) -> Result<String, Fault<'a>> {
    let bytes = bytes_in(rt, name)?;
    match String::from_utf8(bytes) {
        Ok(text) => Ok(text),
        Err(_) => Err(Fault::NotText(name)),
    }
}

/// The configuration in a file. A fault if the file can't be read, is no text, or states no configuration.
pub fn config_in<'a>(rt: &HostRuntime, name: &'a str) -> Result<Config, Fault<'a>> {
    let text = text_in(rt, name)?;
    config_of(rt, text.as_str())
}

/// The configuration that a text states. A fault if it states none.
pub fn config_of(rt: &HostRuntime, text: &str) -> Result<Config, Fault<'static>> {
    match read_config(rt.alloc(), text) {
        Ok(config) => Ok(config),
        Err(fault) => Err(Fault::of_config(fault)),
    }
}

/// The text of a file of symbols, the empty one if no file is named. A fault if the file can't be read, or is no
/// text.
pub fn symbols_text_in<'a>(rt: &HostRuntime, name: Option<&'a str>) -> Result<String, Fault<'a>> {
    match name {
        Some(name) => text_in(rt, name),
        None => Ok(String::new(rt.alloc())),
    }
}

/// The symbols in the text of the file of this name. A fault if a line is no symbol, or memory ran out.
pub fn symbols_of<'a, 't>(
    rt: &HostRuntime,
    name: Option<&'a str>,
    text: &'t str,
) -> Result<Symbols<'t>, Fault<'a>> {
    match read_symbols(rt.alloc(), text) {
        Ok(symbols) => Ok(symbols),
        Err(SymbolFault::Line(number)) => { Err(Fault::Symbols(name.unwrap_or(""), number as u64)) }
        Err(SymbolFault::Memory) => Err(Fault::NoMemory),
    }
}

/// The images that the sections name, in their order, each looked up by its name after the folder `root` and a slash,
/// if one is given, and from the working directory otherwise. One that is not there is left out; a fault if
/// another can't be read, or memory ran out.
pub fn images_of<'a>(
    rt: &HostRuntime,
    config: &'a Config,
    root: Option<&str>,
) -> Result<Files, Fault<'a>> {
    let mut files = Files::new(rt.alloc());
    let sections = config.sections();
    for section in sections {
        add_image_of(rt, &mut files, section, root)?;
    }
    Ok(files)
}

// Adds the image that a section names, if it names one and its file is there.
fn add_image_of<'a>(
    rt: &HostRuntime,
    files: &mut Files,
    section: &'a Section,
    root: Option<&str>,
) -> Result<(), Fault<'a>> {
    let Some(name) = section.image() else {
        return Ok(());
    };
    match image_bytes(rt, name, root)? {
        Some(bytes) => Ok(files.add(name, &bytes)?),
        None => Ok(()),
    }
}

// The bytes of the image of this name, None if it is not there.
fn image_bytes<'a>(
    rt: &HostRuntime,
    name: &'a str,
    root: Option<&str>,
) -> Result<Option<Vec<u8>>, Fault<'a>> {
    let Some(root) = root else {
        return bytes_at(rt, name, name);
    };
    let path = format!(in rt.alloc(); "{root}/{name}")?;
    bytes_at(rt, name, path.as_str())
}

// The bytes of the image of this name, whose file has this path, None if it is not there.
fn bytes_at<'a>(rt: &HostRuntime, name: &'a str, path: &str) -> Result<Option<Vec<u8>>, Fault<'a>> {
    match bytes_in(rt, path) {
        Ok(bytes) => Ok(Some(bytes)),
        Err(Fault::MissingFile(_)) => Ok(None),
        Err(Fault::NoMemory) => Err(Fault::NoMemory),
        Err(_) => Err(Fault::ReadFailed(name)),
    }
}
