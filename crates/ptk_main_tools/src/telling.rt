//! What the program says of an outcome, and the number of the status that it ends with.

ghost use Rattle.std.specs.Prelude.{◌≡◌, ◌≢◌};
ghost use Rattle.ptk_main_tools.specs.Statuses.{status_number, status_of};
ghost use Rattle.ptk_main_tools.specs.declared.status.ExitStatus.TheVariants.{Usage};

use crate::fault::{Fault, fault_line};
use crate::status::ExitStatus;
use clap::error::ErrorKind;
use ptk_main_line::not_text;
use std::io::Write;
use std::{fs, io};

/// The status of an outcome. The line of a fault goes to standard error.
pub fn end(rt: &HostRuntime, outcome: Result<(), Fault<'_>>) -> u8
    ensures { result ≢ status_number Usage }
{
    match outcome {
        Ok(()) => ExitStatus::Done.number(),
        Err(fault) => tell(rt, &fault),
    }
}

/// The status of an outcome after the writer has passed on what it holds, as of `flushed`.
pub fn end_flushed<W: Write>(rt: &HostRuntime, outcome: Result<(), Fault<'_>>, out: &mut W) -> u8
    ensures { result ≢ status_number Usage }
{
    end(rt, flushed(outcome, out))
}

/// An outcome after the writer has passed on what it holds: `Fault::WriteFailed` in place of any other if it fails,
/// since what it holds was written before.
pub fn flushed<'a, T: Drop, W: Write>(
    outcome: Result<T, Fault<'a>>,
    out: &mut W,
) -> Result<T, Fault<'a>> {
    match out.flush() {
        Ok(()) => outcome,
        Err(_) => Err(Fault::WriteFailed),
    }
}

/// The status of a fault, whose line goes to standard error. If that can't be written, there is the status alone.
pub fn tell(rt: &HostRuntime, fault: &Fault<'_>) -> u8
    ensures status { result ≡ status_number (status_of fault.now) }
    ensures used { result ≢ status_number Usage }
{
    let _told = fault_line(fault, &mut rt.stderr());
    fault.status().number()
}

/// The status of a fault of files, whose line goes to standard error, and after it on request the path that was tried
/// and the system's reason. An image is below the folder `root`, if one is given.
pub fn tell_read(rt: &HostRuntime, fault: &Fault<'_>, root: Option<&str>, explain: bool) -> u8
    ensures { result ≢ status_number Usage }
{
    let status = tell(rt, fault);
    if explain {
        match *fault {
            Fault::MissingFile(name) | Fault::ReadFailed(name) => put_unread(rt, name, root),
            _ => {}
        }
    }
    status
}

// Says on standard error why a file can't be read, which is found by reading it once more. Nothing if it can, or
// if memory for its path runs out.
fn put_unread(rt: &HostRuntime, name: &str, root: Option<&str>) {
    let Some(root) = root else {
        return put_error_of(rt, name);
    };
    if let Ok(path) = format!(in rt.alloc(); "{root}/{name}") {
        put_error_of(rt, path.as_str());
    }
}

// Says on standard error why the file of this path can't be read, if it can't.
fn put_error_of(rt: &HostRuntime, path: &str) {
    if let Err(error) = fs::read(rt, path) {
        put_reason(rt, path, &error);
    }
}

/// Says on standard error the path that was tried and the system's reason.
pub fn put_reason(rt: &HostRuntime, path: &str, error: &io::Error) {
    let _told = writeln!(rt.stderr(), "{path}: {error}");
}

/// The status of words that `clap` does not take, with its text. If the text belongs on standard error and that
/// can't be written, there is the status alone. A request for help or the version is done, on standard output, if
/// that can be written.
pub fn usage(rt: &HostRuntime, error: &clap::Error) -> u8 {
    if let ErrorKind::OutOfMemory = error.kind() {
        return tell(rt, &Fault::NoMemory);
    }
    match error.print(rt) {
        _ if error.use_stderr() => ExitStatus::Usage.number(),
        Ok(()) => ExitStatus::Done.number(),
        Err(_) => tell(rt, &Fault::WriteFailed),
    }
}

/// The status of a command line that can't be read: memory ran out, or a word is not UTF-8.
pub fn unread(rt: &HostRuntime, kind: io::ErrorKind) -> u8 {
    if let io::ErrorKind::OutOfMemory = kind {
        return tell(rt, &Fault::NoMemory);
    }
    match not_text(rt.alloc()) {
        Ok(error) => usage(rt, &error),
        Err(_) => tell(rt, &Fault::NoMemory),
    }
}
