//! The command `ptk` and its subcommands, as `clap` builds them: each has a table of its arguments.

use crate::help;
use crate::line::{MOST_STEPS, MOST_THREADS, MOST_TICKS};
use clap::{Arg, ArgAction, Command, value_parser};
use std::alloc::{AllocError, Global};

/// What an argument takes.
#[derive(Clone, Copy)]
pub(crate) enum Takes {
    /// A word by itself, which has to be there.
    Word,
    /// A word by itself, which may be left out.
    FreeWord,
    /// The text after an option, which may be left out.
    Text,
    /// The text after an option, which has to be there.
    RequiredText,
    /// Nothing: it is a flag.
    Nothing,
    /// The number of ticks after an option, which may be left out.
    Ticks,
    /// The number of ticks after an option, which has to be there.
    RequiredTicks,
    /// The number of a thread after an option, which may be left out.
    Thread,
    /// The number of steps to keep after an option, which may be left out.
    Steps,
}

/// An argument of a subcommand.
#[derive(Clone, Copy)]
pub(crate) struct Argument {
    /// Its name; of an option or a flag the long one.
    name: &'static str,
    /// What help says of it.
    help: &'static str,
    /// What it takes.
    takes: Takes,
}

/// The folder of images, of every subcommand that reads a configuration.
const ROOT: Argument = Argument {
    name: "root",
    help: help::ROOT,
    takes: Takes::Text,
};

/// Whether a subcommand writes text or JSON.
const FORMAT: Argument = Argument {
    name: "format",
    help: help::FORMAT,
    takes: Takes::Text,
};

/// The symbols that name addresses.
const SYMBOLS: Argument = Argument {
    name: "symbols",
    help: help::SYMBOLS,
    takes: Takes::Text,
};

/// The deadlines of responses.
const DEADLINE: Argument = Argument {
    name: "deadline",
    help: help::DEADLINE,
    takes: Takes::Text,
};

/// The arguments of every subcommand that runs a configuration.
const RUNS: [Argument; 3] = [
    Argument {
        name: "FILE",
        help: help::CONFIGURATION,
        takes: Takes::Word,
    },
    Argument {
        name: "ticks",
        help: help::TICKS,
        takes: Takes::RequiredTicks,
    },
    ROOT,
];

/// Those of `run` after these.
const RUN: [Argument; 7] = [
    Argument {
        name: "expect",
        help: help::EXPECT,
        takes: Takes::Text,
    },
    Argument {
        name: "fail-on",
        help: help::FAIL_ON,
        takes: Takes::Text,
    },
    DEADLINE,
    Argument {
        name: "until-halted",
        help: help::UNTIL_HALTED,
        takes: Takes::Nothing,
    },
    Argument {
        name: "quiet",
        help: help::QUIET,
        takes: Takes::Nothing,
    },
    FORMAT,
    Argument {
        name: "explain",
        help: help::EXPLAIN_FAULT,
        takes: Takes::Nothing,
    },
];

/// Those of `trace` after the arguments of a run.
const TRACE: [Argument; 9] = [
    Argument {
        name: "partition",
        help: help::PARTITION,
        takes: Takes::RequiredText,
    },
    Argument {
        name: "decode",
        help: help::DECODE,
        takes: Takes::Nothing,
    },
    SYMBOLS,
    Argument {
        name: "thread",
        help: help::THREAD,
        takes: Takes::Thread,
    },
    Argument {
        name: "calls",
        help: help::CALLS,
        takes: Takes::Nothing,
    },
    Argument {
        name: "from",
        help: help::FROM_TICK,
        takes: Takes::Ticks,
    },
    Argument {
        name: "to",
        help: help::TO_TICK,
        takes: Takes::Ticks,
    },
    Argument {
        name: "last",
        help: help::LAST,
        takes: Takes::Steps,
    },
    Argument {
        name: "explain",
        help: help::EXPLAIN_FAULT,
        takes: Takes::Nothing,
    },
];

/// Those of `timeline` after the arguments of a run.
const TIMELINE: [Argument; 3] = [
    Argument {
        name: "from",
        help: help::FROM,
        takes: Takes::Ticks,
    },
    Argument {
        name: "format",
        help: help::PICTURE_FORMAT,
        takes: Takes::Text,
    },
    Argument {
        name: "symbols",
        help: help::START_SYMBOLS,
        takes: Takes::Text,
    },
];

/// Those of `explain` after the arguments of a run.
const EXPLAIN: [Argument; 3] = [
    Argument {
        name: "partition",
        help: help::PARTITION,
        takes: Takes::RequiredText,
    },
    SYMBOLS,
    FORMAT,
];

/// Those of `stats` after the arguments of a run.
const STATS: [Argument; 5] = [
    Argument {
        name: "partition",
        help: help::ONE_PARTITION,
        takes: Takes::Text,
    },
    Argument {
        name: "from",
        help: help::FROM_COUNTED,
        takes: Takes::Ticks,
    },
    DEADLINE,
    Argument {
        name: "stack",
        help: help::STACK,
        takes: Takes::Nothing,
    },
    FORMAT,
];

/// The arguments of `asm`.
const ASM: [Argument; 4] = [
    Argument {
        name: "IN",
        help: help::SOURCE,
        takes: Takes::Word,
    },
    Argument {
        name: "OUT",
        help: help::IMAGE,
        takes: Takes::Word,
    },
    Argument {
        name: "symbols",
        help: help::LABELS,
        takes: Takes::Text,
    },
    Argument {
        name: "explain",
        help: help::EXPLAIN_SOURCE,
        takes: Takes::Nothing,
    },
];

/// The arguments of `check`.
const CHECK: [Argument; 4] = [
    Argument {
        name: "FILE",
        help: help::CONFIGURATION,
        takes: Takes::Word,
    },
    Argument {
        name: "explain",
        help: help::EXPLAIN,
        takes: Takes::Nothing,
    },
    FORMAT,
    ROOT,
];

/// The arguments of `disasm`.
const DISASM: [Argument; 3] = [
    Argument {
        name: "IMAGE",
        help: help::IMAGE_READ,
        takes: Takes::Word,
    },
    Argument {
        name: "OUT",
        help: help::TEXT,
        takes: Takes::FreeWord,
    },
    SYMBOLS,
];

/// The arguments of `impact`.
const IMPACT: [Argument; 7] = [
    Argument {
        name: "OLD",
        help: help::OLD,
        takes: Takes::Word,
    },
    Argument {
        name: "NEW",
        help: help::NEW,
        takes: Takes::Word,
    },
    Argument {
        name: "partition",
        help: help::ONE_PARTITION,
        takes: Takes::Text,
    },
    Argument {
        name: "rename",
        help: help::RENAME,
        takes: Takes::Text,
    },
    FORMAT,
    ROOT,
    Argument {
        name: "old-root",
        help: help::OLD_ROOT,
        takes: Takes::Text,
    },
];

/// A subcommand, by its name.
#[derive(Clone, Copy)]
pub(crate) enum CommandName {
    Run,
    Trace,
    Timeline,
    Asm,
    Check,
    Disasm,
    Impact,
    Explain,
    Stats,
}

/// The subcommands, in the order in which help names them.
const COMMAND_NAMES: [CommandName; 9] = [
    CommandName::Run,
    CommandName::Trace,
    CommandName::Timeline,
    CommandName::Asm,
    CommandName::Check,
    CommandName::Disasm,
    CommandName::Impact,
    CommandName::Explain,
    CommandName::Stats,
];

/// The command with its nine subcommands, of which one has to be there, and its version.
pub(crate) fn ptk_command<'a>(alloc: Global) -> Result<Command<'a>, AllocError> {
    let command = Command::new(alloc, "ptk")
        .version(help::VERSION)
        .about(help::PTK)
        .after_help(help::PTK_AFTER)
        .subcommand_required(true);
    with_subcommands(alloc, command, &COMMAND_NAMES)
}

/// The command with these subcommands after those that it has.
fn with_subcommands<'a>(
    alloc: Global,
    command: Command<'a>,
    subcommands: &[CommandName],
) -> Result<Command<'a>, AllocError> {
    let mut all = command;
    for subcommand in subcommands {
        all = all.subcommand(subcommand.build(alloc)?)?;
    }
    Ok(all)
}

impl CommandName {
    /// The subcommand as `clap` has it, with its arguments.
    fn build<'a>(&self, alloc: Global) -> Result<Command<'a>, AllocError> {
        match self {
            CommandName::Run => run_subcommand(alloc, "run", help::RUN, help::RUN_AFTER, &RUN),
            CommandName::Trace => {
                run_subcommand(alloc, "trace", help::TRACE, help::TRACE_AFTER, &TRACE)
            }
            CommandName::Timeline => run_subcommand(
                alloc,
                "timeline",
                help::TIMELINE,
                help::TIMELINE_AFTER,
                &TIMELINE,
            ),
            CommandName::Asm => subcommand(alloc, "asm", help::ASM, help::ASM_AFTER, &ASM),
            CommandName::Check => subcommand(
                alloc,
                "check",
                help::CHECK,
                help::CHECK_AFTER,
                &CHECK,
            ),
            CommandName::Disasm => {
                subcommand(alloc, "disasm", help::DISASM, help::DISASM_AFTER, &DISASM)
            }
            CommandName::Impact => {
                subcommand(alloc, "impact", help::IMPACT, help::IMPACT_AFTER, &IMPACT)
            }
            CommandName::Explain => run_subcommand(
                alloc,
                "explain",
                help::EXPLAIN_RUN,
                help::EXPLAIN_RUN_AFTER,
                &EXPLAIN,
            ),
            CommandName::Stats => {
                run_subcommand(alloc, "stats", help::STATS, help::STATS_AFTER, &STATS)
            }
        }
    }
}

/// A subcommand that runs a configuration: the arguments of a run, and these after them.
fn run_subcommand<'a>(
    alloc: Global,
    name: &'a str,
    about: &'a str,
    after: &'a str,
    arguments: &[Argument],
) -> Result<Command<'a>, AllocError> {
    let command = subcommand(alloc, name, about, after, &RUNS)?;
    with_arguments(alloc, command, arguments)
}

/// A subcommand with these arguments, what it does, and what help says after them.
fn subcommand<'a>(
    alloc: Global,
    name: &'a str,
    about: &'a str,
    after: &'a str,
    arguments: &[Argument],
) -> Result<Command<'a>, AllocError> {
    let command = Command::new(alloc, name).about(about).after_help(after);
    with_arguments(alloc, command, arguments)
}

/// The command with these arguments after those that it has.
fn with_arguments<'a>(
    alloc: Global,
    command: Command<'a>,
    arguments: &[Argument],
) -> Result<Command<'a>, AllocError> {
    let mut all = command;
    for argument in arguments {
        all = all.arg(argument.build(alloc))?;
    }
    Ok(all)
}

impl Argument {
    /// The argument as `clap` has it.
    fn build<'a>(&self, alloc: Global) -> Arg<'a> {
        let arg = Arg::new(alloc, self.name).help(self.help);
        match self.takes {
            Takes::Word => arg.required(true),
            Takes::FreeWord => arg,
            Takes::Text => arg.long(self.name),
            Takes::RequiredText => arg.long(self.name).required(true),
            Takes::Nothing => arg.long(self.name).action(ArgAction::SetTrue),
            Takes::Ticks => ticks(arg, self.name),
            Takes::RequiredTicks => ticks(arg, self.name).required(true),
            Takes::Thread => arg
                .long(self.name)
                .value_parser(value_parser!(u64).range(1..=MOST_THREADS as i64)),
            Takes::Steps => arg
                .long(self.name)
                .value_parser(value_parser!(u64).range(1..=MOST_STEPS as i64)),
        }
    }
}

/// The argument as an option of this name whose value is a number of ticks.
fn ticks<'a>(arg: Arg<'a>, name: &'a str) -> Arg<'a> {
    arg.long(name)
        .value_parser(value_parser!(u64).range(0..=MOST_TICKS as i64))
}
