#![tactic(auto)]

//! The program `ptk`: the words of its command line, and its exit status.
//!
//! It is proved to run to its end without an error of its own. The words of the command line are passed on in their
//! order; if they can't be read, the status is that of a usage error or of a failed host.
//!
//! Below is `ptk_main_commands`, which does what the words ask for; nothing is above. What comes of the words is tested
//! in `ptk_main_tests`. Which stream a text goes to no test sees; the gate compares the standard output of the stored
//! run.

use ptk_main_commands::{answer_words, tell, unread};
use ptk_main_tools::Fault;
use std::alloc::AllocError;
use std::env;
use std::process::ExitCode;

fn main(rt: HostRuntime) -> ExitCode {
    ExitCode::from(status(&rt))
}

// The exit status of what the command line asks for.
fn status(rt: &HostRuntime) -> u8 {
    match env::args(rt) {
        Ok(words) => match words.collect::<Vec<String>>(rt.alloc()) {
            Ok(words) => answer(rt, words.as_slice()),
            Err(_) => tell(rt, &Fault::NoMemory),
        },
        Err(error) => unread(rt, error.kind()),
    }
}

// The exit status of what these words ask for.
fn answer(rt: &HostRuntime, owned: &[String]) -> u8 {
    match borrowed(rt, owned) {
        Ok(words) => answer_words(rt, words.as_slice()),
        Err(_) => tell(rt, &Fault::NoMemory),
    }
}

// The words as texts, in their order.
fn borrowed<'a>(rt: &HostRuntime, owned: &'a [String]) -> Result<Vec<&'a str>, AllocError> {
    let mut words = Vec::new(rt.alloc());
    for word in owned {
        words.push(word.as_str())?;
    }
    Ok(words)
}
