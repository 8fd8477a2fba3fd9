//! What a command line may ask for, a struct of options for each command. A file is named by its path from the working
//! directory. An option that was left out is `None`, or false if it is a flag.

use crate::kinds::FailOn;

/// What a command line asks for.
#[derive(Clone, Copy)]
pub enum Request<'a> {
    /// `run`: the report after a run.
    Run(RunOptions<'a>),
    /// `trace`: the last steps of one partition after a run.
    Trace(TraceOptions<'a>),
    /// `timeline`: the picture of a run.
    Timeline(TimelineOptions<'a>),
    /// `asm`: the image of an assembler text.
    Asm(AsmOptions<'a>),
    /// `disasm`: the assembler text of an image.
    Disasm(DisasmOptions<'a>),
    /// `check`: whether a configuration and the images that it names are in order.
    Check(CheckOptions<'a>),
    /// `impact`: what a new configuration can change.
    Impact(ImpactOptions<'a>),
    /// `explain`: how one partition stands after a run, in words.
    Explain(ExplainOptions<'a>),
    /// `stats`: the figures of a run.
    Stats(StatsOptions<'a>),
}

/// The run that a command looks at: `FILE --ticks N [--root DIR]`.
#[derive(Clone, Copy)]
pub struct RunTo<'a> {
    /// The configuration's file.
    pub file: &'a str,
    /// The number of ticks, at most `MOST_TICKS`.
    pub ticks: u64,
    /// The folder from which images are looked up; the working directory if it is not given.
    pub root: Option<&'a str>,
}

/// The options of `run`.
#[derive(Clone, Copy)]
pub struct RunOptions<'a> {
    /// The run.
    pub run: RunTo<'a>,
    /// The file that the report is compared with.
    pub expect: Option<&'a str>,
    /// The kinds of what the run fails on.
    pub fail_on: FailOn,
    /// The deadlines of responses, as they were written.
    pub deadline: Option<&'a str>,
    /// Whether the run ends once every partition has halted.
    pub until_halted: bool,
    /// Whether no progress is shown.
    pub quiet: bool,
    /// The form of the report.
    pub format: Format,
    /// Whether the place of a refused configuration is also printed.
    pub explain: bool,
}

/// The options of `trace`.
#[derive(Clone, Copy)]
pub struct TraceOptions<'a> {
    /// The run.
    pub run: RunTo<'a>,
    /// The partition's name.
    pub partition: &'a str,
    /// Whether each line also has the instruction in words.
    pub decode: bool,
    /// The file of the symbols.
    pub symbols: Option<&'a str>,
    /// The one thread that is shown, 1 to `MOST_THREADS`.
    pub thread: Option<u64>,
    /// Whether calls alone are shown.
    pub calls: bool,
    /// The first tick that is shown, at most `MOST_TICKS`.
    pub from: Option<u64>,
    /// The last tick that is shown, at most `MOST_TICKS`.
    pub to: Option<u64>,
    /// The number of steps that are kept in place of the configuration's, 1 to `MOST_STEPS`.
    pub last: Option<u64>,
    /// Whether the place of a refused configuration is also printed.
    pub explain: bool,
}

impl TraceOptions<'_> {
    /// Whether an option is there that goes with `--decode` alone.
    pub fn wants_words(&self) -> bool {
        self.symbols.is_some()
            || self.thread.is_some()
            || self.calls
            || self.from.is_some()
            || self.to.is_some()
    }
}

/// The options of `timeline`.
#[derive(Clone, Copy)]
pub struct TimelineOptions<'a> {
    /// The run.
    pub run: RunTo<'a>,
    /// The first tick that is shown, at most `MOST_TICKS`.
    pub from: Option<u64>,
    /// The form of the picture.
    pub format: PictureFormat,
    /// The file of the symbols.
    pub symbols: Option<&'a str>,
}

/// The options of `asm`.
#[derive(Clone, Copy)]
pub struct AsmOptions<'a> {
    /// The file of the source.
    pub source: &'a str,
    /// The file that the image is written to.
    pub image: &'a str,
    /// The file that the labels are written to.
    pub symbols: Option<&'a str>,
    /// Whether the place of a refused source is also printed.
    pub explain: bool,
}

/// The options of `disasm`.
#[derive(Clone, Copy)]
pub struct DisasmOptions<'a> {
    /// The file of the image.
    pub image: &'a str,
    /// The file that the text is written to; standard output if it is not given.
    pub target: Option<&'a str>,
    /// The file of the symbols.
    pub symbols: Option<&'a str>,
}

/// The options of `check`.
#[derive(Clone, Copy)]
pub struct CheckOptions<'a> {
    /// The configuration's file.
    pub file: &'a str,
    /// The folder from which images are looked up; the working directory if it is not given.
    pub root: Option<&'a str>,
    /// Whether what each partition has, or the place of a refusal, is also printed.
    pub explain: bool,
    /// The form of the answer.
    pub format: Format,
}

/// The options of `impact`.
#[derive(Clone, Copy)]
pub struct ImpactOptions<'a> {
    /// The old configuration's file.
    pub old: &'a str,
    /// The new configuration's file.
    pub new: &'a str,
    /// The name of the one partition that is asked for.
    pub partition: Option<&'a str>,
    /// The partitions that have another name, as they were written.
    pub rename: Option<&'a str>,
    /// The form of the answer.
    pub format: Format,
    /// The folder from which images are looked up; the working directory if it is not given.
    pub root: Option<&'a str>,
    /// The folder from which the old configuration's images are looked up; that of `root` if it is not given.
    pub old_root: Option<&'a str>,
}

/// The options of `explain`.
#[derive(Clone, Copy)]
pub struct ExplainOptions<'a> {
    /// The run.
    pub run: RunTo<'a>,
    /// The partition's name.
    pub partition: &'a str,
    /// The file of the symbols.
    pub symbols: Option<&'a str>,
    /// The form of the answer.
    pub format: Format,
}

/// The options of `stats`.
#[derive(Clone, Copy)]
pub struct StatsOptions<'a> {
    /// The run.
    pub run: RunTo<'a>,
    /// The name of the one partition that is asked for.
    pub partition: Option<&'a str>,
    /// The tick from which on what happens is counted, at most `MOST_TICKS`.
    pub from: Option<u64>,
    /// The deadlines of responses, as they were written.
    pub deadline: Option<&'a str>,
    /// Whether stack pointers are looked at after every step.
    pub stack: bool,
    /// The form of the answer.
    pub format: Format,
}

/// The form of an answer.
#[derive(Clone, Copy, PartialEq, Eq)]
pub enum Format {
    /// Lines of text.
    Text,
    /// One JSON object.
    Json,
}

/// The form of a picture.
#[derive(Clone, Copy, PartialEq, Eq)]
pub enum PictureFormat {
    /// Scalable Vector Graphics, for a browser.
    Svg,
    /// A Value Change Dump (IEEE 1364), for a waveform viewer.
    Vcd,
    /// The Trace Event Format, for Perfetto.
    Json,
}
