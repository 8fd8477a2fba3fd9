//! The faults of the program and their lines.

ghost use Rattle.std.specs.Prelude.{◌≡◌, ◌≢◌, IfErr};
ghost use Rattle.ptk_main_tools.specs.declared.fault.Fault.TheVariants.{NoMemory};
ghost use Rattle.ptk_main_tools.specs.declared.status.ExitStatus.TheVariants.{Usage};
ghost use Rattle.ptk_main_tools.specs.Numbers.{asm_fault, config_fault, image_fault};
ghost use Rattle.ptk_main_tools.specs.Statuses.{status_of};

use crate::status::ExitStatus;
use ptk_asm_language::Section;
use ptk_config::ConfigFault;
use ptk_main_line::FailureKind;
use ptk_words::ImageFault;
use ptk_words_model::WindowFault;
use std::alloc::AllocError;
use std::io::Write;
use std::{fmt, io};

/// Why the program stops: a case for each line that it writes on standard error.
#[derive(Clone, Copy, PartialEq, Eq)]
pub enum Fault<'a> {
    /// `ptk: config fault N`: the configuration is refused, for another cause than its windows.
    Config(u8),
    /// `ptk: config fault 7 window K`: its windows are refused.
    ConfigWindow(u8),
    /// `ptk: asm line L fault K`: a source is refused at this line, counted from 1.
    Asm(u64, u8),
    /// `ptk: image NAME fault N`: an image is refused.
    Image(&'a str, u8),
    /// `ptk: image NAME too long SECTION`: a section of an image is longer than a source may have it.
    TooLong(&'a str, Section),
    /// `ptk: missing file NAME`: there is no such file.
    MissingFile(&'a str),
    /// `ptk: not text NAME`: the file is not UTF-8.
    NotText(&'a str),
    /// `ptk: no partition NAME`: the configuration has no such partition.
    NoPartition(&'a str),
    /// `ptk: symbols NAME line L`: a file of symbols is refused at this line, counted from 1.
    Symbols(&'a str, u64),
    /// `ptk: nothing to show from tick M`: the run ends before this tick.
    NothingFrom(u64),
    /// `ptk: report differs at byte B line L: got X, expected Y`: the first byte of a report, counted from 0, that is
    /// not the expected one, its line, counted from 1, and both bytes as numbers, `end` if there is none.
    Differs(u64, u64, Option<u8>, Option<u8>),
    /// `ptk: partition NAME is KIND`: a partition is of a kind to fail on.
    FailedOn(&'a str, FailureKind),
    /// `ptk: read failed NAME`: the file is there and can't be read.
    ReadFailed(&'a str),
    /// `ptk: write failed`.
    WriteFailed,
    /// `ptk: no memory`: memory was refused, whatever asked for it.
    NoMemory,
}

/// A byte in a line, as a number; `end` if there is none.
#[derive(Drop)]
struct Shown(Option<u8>);

impl fmt::Display for Shown {
    fn fmt<W: fmt::Write>(&self, f: &mut fmt::Formatter<W>) -> fmt::Result {
        match self.0 {
            Some(byte) => write!(f, "{byte}"),
            None => f.write_str("end"),
        }
    }
}

/// The name of a section in a line.
fn section_name(section: Section) -> &'static str {
    match section {
        Section::Text => "text",
        Section::Data => "data",
        Section::Bss => "bss",
    }
}

impl fmt::Display for Fault<'_> {
    fn fmt<W: fmt::Write>(&self, f: &mut fmt::Formatter<W>) -> fmt::Result {
        match *self {
            Fault::Config(number) => write!(f, "ptk: config fault {number}"),
            Fault::ConfigWindow(number) => write!(f, "ptk: config fault 7 window {number}"),
            Fault::Asm(line, kind) => write!(f, "ptk: asm line {line} fault {kind}"),
            Fault::Image(name, number) => write!(f, "ptk: image {name} fault {number}"),
            Fault::TooLong(name, section) => {
                let section = section_name(section);
                write!(f, "ptk: image {name} too long {section}")
            }
            Fault::MissingFile(name) => write!(f, "ptk: missing file {name}"),
            Fault::NotText(name) => write!(f, "ptk: not text {name}"),
            Fault::NoPartition(name) => write!(f, "ptk: no partition {name}"),
            Fault::Symbols(name, line) => write!(f, "ptk: symbols {name} line {line}"),
            Fault::NothingFrom(tick) => write!(f, "ptk: nothing to show from tick {tick}"),
            Fault::Differs(offset, line, got, expected) => {
                let (got, expected) = (Shown(got), Shown(expected));
                write!(
                    f,
                    "ptk: report differs at byte {offset} line {line}: got {got}, expected {expected}"
                )
            }
            Fault::FailedOn(name, kind) => {
                let word = kind.word();
                write!(f, "ptk: partition {name} is {word}")
            }
            Fault::ReadFailed(name) => write!(f, "ptk: read failed {name}"),
            Fault::WriteFailed => f.write_str("ptk: write failed"),
            Fault::NoMemory => f.write_str("ptk: no memory"),
        }
    }
}

impl<'a> Fault<'a> {
    /// The fault of a refused configuration: its number, for the windows with the window fault's, and out of memory
    /// for refused memory.
    pub fn of_config(fault: ConfigFault) -> Fault<'a>
        ensures { result ≡ config_fault fault }
    {
        match fault {
            ConfigFault::Memory | ConfigFault::Window(WindowFault::Memory) => Fault::NoMemory,
            ConfigFault::Window(window) => Fault::ConfigWindow(window.number()),
            other => Fault::Config(other.number()),
        }
    }

    /// The fault of a refused image of this name: its number, and out of memory for refused memory.
    pub fn of_image(name: &'a str, fault: ImageFault) -> Fault<'a>
        ensures { result ≡ image_fault name.entry fault }
    {
        match fault {
            ImageFault::Memory => Fault::NoMemory,
            other => Fault::Image(name, other.number()),
        }
    }

    /// The fault of a source that is refused at this line for a fault of this kind, of which 7 is out of memory.
    pub fn of_asm(line: u64, kind: u8) -> Fault<'a>
        ensures { result ≡ asm_fault line kind }
    {
        if kind == 7 {
            Fault::NoMemory
        } else {
            Fault::Asm(line, kind)
        }
    }

    /// What the program ends with.
    pub fn status(&self) -> ExitStatus
        ensures status { result ≡ status_of self.now }
        ensures used { result ≢ Usage }
    {
        match *self {
            Fault::Config(_) | Fault::ConfigWindow(_) | Fault::Asm(..) | Fault::Image(..) => {
                ExitStatus::Refused
            }
            Fault::TooLong(..) | Fault::MissingFile(_) => ExitStatus::Refused,
            Fault::NotText(_) | Fault::NoPartition(_) => ExitStatus::Refused,
            Fault::Symbols(..) | Fault::NothingFrom(_) => ExitStatus::Refused,
            Fault::Differs(..) | Fault::FailedOn(..) => ExitStatus::Unexpected,
            Fault::ReadFailed(_) | Fault::WriteFailed | Fault::NoMemory => ExitStatus::HostFailure,
        }
    }
}

impl From<AllocError> for Fault<'_> {
    ghost from_gives = { λ _ fault. fault ≡ NoMemory };

    fn from(_error: AllocError) -> Self {
        Fault::NoMemory
    }
}

/// Writes the line of a fault, its newline with it, and gives the number of its status. It takes no memory. An error
/// if the writer fails; how much of the line went out then is not known.
pub fn fault_line<W: Write>(fault: &Fault<'_>, out: &mut W) -> io::Result<u8> {
    writeln!(out, "{fault}")?;
    Ok(fault.status().number())
}

/// Writes bytes. `Fault::WriteFailed` if the writer failed.
pub fn put_bytes<W: Write>(bytes: &[u8], out: &mut W) -> Result<(), Fault<'static>>
    ensures { IfErr result (λ fault. fault ≡ Fault.WriteFailed) }
{
    match out.write_all(bytes) {
        Ok(()) => Ok(()),
        Err(_) => Err(Fault::WriteFailed),
    }
}
