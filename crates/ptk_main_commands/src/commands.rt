//! What the words of the command line ask for.

ghost use Rattle.std.specs.Prelude.{◌≡◌};
ghost use Rattle.ptk_main_line.specs.Ranges.{IsInRange};
ghost use Rattle.ptk_main_tools.specs.Statuses.{status_number};
ghost use Rattle.ptk_main_tools.specs.declared.status.ExitStatus.TheVariants.{Usage};

use crate::checking::check;
use crate::comparing::impact;
use crate::counting::stats;
use crate::picture::timeline;
use crate::running::run;
use crate::standing::explain;
use crate::tracing::trace;
use ptk_main_line::{Request, read_line};
use ptk_main_tools::{Fault, asm, disasm, tell, usage};
use std::io::{BufWriter, Write};

/// Does what the words of a command line ask for, the program's name the first of them, over standard output, and gives
/// the number of the status. The text of words that ask for nothing goes to standard error, that of a request for help
/// to standard output.
pub fn answer_words(rt: &HostRuntime, words: &[&str]) -> u8 {
    match BufWriter::new(rt.alloc(), rt.stdout()) {
        Ok(mut out) => answer_to(rt, words, &mut out),
        Err(_) => tell(rt, &Fault::NoMemory),
    }
}

/// Does what the words of a command line ask for, and writes what is asked for on a writer: all but the text of a
/// request for help, and the files of `asm` and `disasm`. The writer has passed on all of it before a line goes to
/// standard error. Gives the number of the status. At a usage error nothing is written.
pub fn answer_to<W: Write>(rt: &HostRuntime, words: &[&str], out: &mut W) -> u8
    ensures silent { result ≡ status_number Usage → out.new ≡ out.old }
{
    match read_line(rt.alloc(), words) {
        Ok(request) => obey(rt, request, out),
        Err(error) => usage(rt, &error),
    }
}

/// Does what is asked for, writes it on a writer, and gives the number of its status. The line of a fault goes to
/// standard error. At a usage error nothing is written.
pub fn obey<W: Write>(rt: &HostRuntime, request: Request<'_>, out: &mut W) -> u8
    requires { IsInRange request }
    ensures silent { result ≡ status_number Usage → out.new ≡ out.old }
{
    match request {
        Request::Run(options) => run(rt, options, out),
        Request::Trace(options) => trace(rt, options, out),
        Request::Timeline(options) => timeline(rt, options, out),
        Request::Check(options) => check(rt, options, out),
        Request::Asm(options) => asm(rt, options),
        Request::Disasm(options) => disasm(rt, options, out),
        Request::Impact(options) => impact(rt, options, out),
        Request::Explain(options) => explain(rt, options, out),
        Request::Stats(options) => stats(rt, options, out),
    }
}
