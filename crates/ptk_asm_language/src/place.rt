//! Places in the source and in the image.

use crate::statement::Section;

/// A line: its number, counted from 1, and where it begins and ends in the source, without its line ending.
#[derive(Clone, Copy, PartialEq, Eq)]
pub struct Span {
    /// The number of the line, counted from 1.
    pub line: usize,
    /// Its first byte, counted from the beginning of the source.
    pub start: usize,
    /// The byte after its last one, without LF or CR LF.
    pub end: usize,
}

/// Bytes of a line.
#[derive(Clone, Copy, PartialEq, Eq)]
pub struct Extent {
    /// The first one, counted from the line's beginning.
    pub from: usize,
    /// The one after the last.
    pub to: usize,
}

/// A place in the image.
#[derive(Clone, Copy, PartialEq, Eq)]
pub struct Place {
    /// The section.
    pub section: Section,
    /// Bytes from the beginning of the section.
    pub offset: u32,
}

/// How many bytes the sections take.
#[derive(Clone, Copy, PartialEq, Eq)]
pub struct Lengths {
    /// Bytes of the text.
    pub text: u32,
    /// Bytes of the data.
    pub data: u32,
    /// Bytes of zeros behind the data.
    pub bss: u32,
}
