//! The lines of steps in words.

ghost use Rattle.std.specs.Prelude.{◌<◌, length};

use crate::steps::push_step;
use ptk_disasm::Symbols;
use ptk_main_runs::System;
use ptk_trace::Word;
use ptk_words::{Entry, PartId};
use std::alloc::{AllocError, Global};
use std::fmt;
use std::fmt::Write;

/// The lines of these steps in words; the system goes on with them.
pub(crate) fn words_of(
    alloc: Global,
    system: &mut System<'_>,
    p: PartId,
    symbols: &Symbols<'_>,
    entries: &[Entry],
) -> Result<String, AllocError>
    requires { p < length system.old.config.sections }
{
    let mut words = String::new(alloc);
    for entry in entries {
        let line = Line(entry);
        write!(words, "{line}  #")?;
        push_step(&mut words, alloc, system, p, symbols, entry)?;
        words.push_str("\n")?;
    }
    Ok(words)
}

/// A step as the line of a trace has it: tick, thread, pc, word and a0.
#[derive(Clone, Copy)]
struct Line<'e>(&'e Entry);

impl fmt::Display for Line<'_> {
    fn fmt<W: fmt::Write>(&self, f: &mut fmt::Formatter<W>) -> fmt::Result {
        let step = self.0;
        let (tick, thread) = (step.tick.ticks(), step.thread.number());
        let (pc, word, a0) = (Word(step.pc), Word(step.word), Word(step.a0));
        write!(f, "{tick} {thread} {pc} {word} {a0}")
    }
}
