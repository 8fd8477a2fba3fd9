//! What help says of the command, of each subcommand and of each value: what it does, the value's unit and range, the
//! exit statuses, and an example line (own choice; clap's `about`, `help` and `after_help`).

/// The version of the program, `+` after the number of the last one while the next is made.
pub(crate) const VERSION: &str = "9+";

/// What the program is.
pub(crate) const PTK: &str =
    "Runs programs of different trust on one modelled RV32I processor, each partition in \
    windows of its own. What a partition does depends on nothing that the others do.";

/// The statuses of every subcommand, and a first line to try.
pub(crate) const PTK_AFTER: &str = "Exit status:
  0  done, or help was asked for
  1  what was given is refused; a line on standard error says what
  2  the words ask for nothing that the program does
  3  the host failed: ptk: read failed NAME, ptk: write failed, ptk: no memory
  4  a run is not as --expect or --fail-on wants it

Example:
  ptk run hello.toml --ticks 20

'ptk COMMAND --help' says more of a command.";

/// What `run` does.
pub(crate) const RUN: &str =
    "Runs a system and prints the report: each partition's end, steps, lost ticks and output";

/// The refusals of `run`, and an example.
pub(crate) const RUN_AFTER: &str =
    "Paths of images are taken from the working directory. A partition whose image is \
    refused is reported as
'refused image N'; the others run.

Exit status:
  0  the report is printed
  1  ptk: config fault N (see 'ptk check --help'), ptk: missing file NAME, ptk: not text NAME
  2  usage
  3  ptk: read failed NAME, ptk: write failed, ptk: no memory
  4  the report is not the one expected, or a partition is of a kind to fail on; it is printed all the same

Example:
  ptk run hello.toml --ticks 20
  ptk run hello.toml --ticks 20 --expect hello.report --fail-on fault,refused";

/// What `trace` does.
pub(crate) const TRACE: &str =
    "Runs a system and prints the last steps of one partition, oldest first";

/// What a line of a trace has, the refusals of `trace`, and an example.
pub(crate) const TRACE_AFTER: &str =
    "A line is TICK THREAD PC WORD A0: the tick at which the step began, its thread, \
    the address and the word of
its instruction, and a0 after it. There are at most as many lines as the section's key trace says,
or as --last says: the run is the same. --symbols, --thread, --calls, --from and --to are options of --decode.

Exit status:
  0  the trace is printed
  1  ptk: config fault N (see 'ptk check --help'), ptk: no partition NAME, ptk: missing file NAME,
     ptk: not text NAME, ptk: symbols NAME line L
  2  usage; one of those options without --decode
  3  ptk: read failed NAME, ptk: write failed, ptk: no memory

Example:
  ptk trace hello.toml --ticks 20 --partition p
  ptk trace hello.toml --ticks 20 --partition p --decode --symbols hello.sym --last 100000";

/// What `timeline` does.
pub(crate) const TIMELINE: &str =
    "Runs a system and prints a picture of what each thread was, for a browser or another viewer";

/// What the picture has, the refusals of `timeline`, and an example.
pub(crate) const TIMELINE_AFTER: &str =
    "A lane for each partition, its windows shaded, in it a row for each thread: running, ready, \
    blocked on what, ended. Up to
1000 ticks a column is a tick; of more, what held longest in the column, with a mark if there was something else. With
--format vcd a Value Change Dump, for GTKWave; with --format json trace events, for Perfetto. With --symbols a
thread has the name of the symbol at which it starts, but in a Value Change Dump.

Exit status:
  0  the picture is printed
  1  ptk: config fault N (see 'ptk check --help'), ptk: missing file NAME, ptk: not text NAME,
     ptk: nothing to show from tick M: M is at the run's end or after it, ptk: symbols NAME line L
  2  usage
  3  ptk: read failed NAME, ptk: write failed, ptk: no memory

Example:
  ptk timeline hello.toml --ticks 20 > hello.svg
  ptk timeline hello.toml --ticks 20 --format vcd > hello.vcd
  ptk timeline hello.toml --ticks 20 --symbols hello.sym > hello.svg";

/// What `asm` does.
pub(crate) const ASM: &str = "Makes an image of a source in assembly";

/// The kinds of an assembler's faults, and an example.
pub(crate) const ASM_AFTER: &str = "The kinds K of a source's faults:
  1  a wrong token: missing or extra punctuation or operand, no number in its place
  2  an unknown mnemonic, no name in its place, or a mnemonic of another section
  3  an unknown register
  4  a number, distance, offset or section out of range
  5  an unknown label
  6  a doubled label
  7  out of memory, which is printed as ptk: no memory

Exit status:
  0  the image is written, and the labels
  1  ptk: asm line L fault K: the source is refused at line L, counted from 1; nothing is written. ptk: missing
     file NAME, ptk: not text NAME
  2  usage; two of IN, OUT and the file of --symbols are one file
  3  ptk: read failed NAME, ptk: write failed, ptk: no memory

Example:
  ptk asm hello.s hello.img
  ptk asm hello.s hello.img --symbols hello.sym";

/// What `disasm` does.
pub(crate) const DISASM: &str = "Prints the assembly source of an image, a line for each word";

/// What a line of the source has, the refusals of `disasm`, and an example.
pub(crate) const DISASM_AFTER: &str =
    "'ptk asm' makes the same image of that source. The comment of a line has its address and its word, and after -> \
    the address
that a branch or a jump goes to. A word that is no instruction is written as .word. With
--symbols the names of both addresses stand in the comment too.

Exit status:
  0  the source is written
  1  ptk: image IMAGE fault N (see 'ptk check --help'), ptk: image IMAGE too long SECTION: its text, data or
     bss is longer than the 1048576 bytes that a source may have, ptk: missing file NAME, ptk: not text NAME,
     ptk: symbols NAME line L
  2  usage; OUT is one file with IMAGE or the file of --symbols
  3  ptk: read failed NAME, ptk: write failed, ptk: no memory

Example:
  ptk disasm hello.img
  ptk disasm hello.img --symbols hello.sym";

/// What `check` does.
pub(crate) const CHECK: &str =
    "Reads a configuration and its images, and prints ok if all of them are accepted";

/// The faults of a configuration and of an image in words, and an example.
pub(crate) const CHECK_AFTER: &str =
    "The first fault of the configuration is told, as ptk: config fault N:
  1  the text is no TOML document
  2  a key is missing
  3  a value has the wrong type
  4  a value is out of range
  5  a key is unknown
  6  two sections have one name
  7  the windows are refused, as window K: 1 there is none, 2 one has fewer than 16 ticks, 3 two have a common
     tick, 4 one ends after the frame, 5 no section has its name

Then the first fault of the images, in the order of sections, as ptk: image NAME fault N:
  1  fewer than 24 bytes
  2  the first four bytes are not PTKI
  3  another version than 1
  4  a text length that is no multiple of 4, or bytes that are not exactly text and data
  5  an entry that is no multiple of 4 or is above the length of the text
  7  text, data and bss are longer than the memory below all default stacks

Exit status:
  0  all is accepted
  1  a fault as above, ptk: missing file NAME, ptk: not text NAME
  2  usage
  3  ptk: read failed NAME, ptk: write failed, ptk: no memory

Example:
  ptk check hello.toml
  ptk check hello.toml --explain";

/// What `impact` does.
pub(crate) const IMPACT: &str =
    "Compares two configurations, and prints of each partition what may differ in its runs";

/// What the lines of `impact` say, and an example.
pub(crate) const IMPACT_AFTER: &str =
    "A line for each partition of NEW, by name, and then for each of OLD that is gone:
  control: unchanged                         the same run, whatever the others do
  control: unchanged but for the trace kept  the same run; the trace keeps another number of entries
  control: changed                           beneath it what differs, as OLD -> NEW
  plugin: new
  logger: gone
The last line counts. With --format json the same stands in one JSON object. Nothing is run.

Exit status:
  0  every partition is unchanged
  1  one is changed, new or gone; or ptk: config fault N (see 'ptk check --help'), ptk: no partition NAME,
     ptk: missing file NAME, ptk: not text NAME
  2  usage
  3  ptk: read failed NAME, ptk: write failed, ptk: no memory

Example:
  ptk impact old.toml new.toml
  ptk impact old.toml new.toml --partition control --rename pilot=control
  ptk impact 1/system.toml 2/system.toml --old-root 1 --root 2";

/// A configuration's file.
pub(crate) const CONFIGURATION: &str = "The configuration, a TOML document";

/// The end of a run.
pub(crate) const TICKS: &str = "How many ticks to run: 0 to 1099511627776, of 1000 ns each";

/// The first tick of a picture.
pub(crate) const FROM: &str =
    "The first tick that is shown: 0 to 1099511627776, 0 if it is left out";

/// Whether a check explains the configuration.
pub(crate) const EXPLAIN: &str =
    "Also prints what each partition has, or where and why the configuration or an image is refused";

/// The partition that is traced.
pub(crate) const PARTITION: &str = "The name of a section of the configuration";

/// The configuration that a new one is compared with.
pub(crate) const OLD: &str = "The configuration as it was, a TOML document";

/// The configuration that is compared.
pub(crate) const NEW: &str = "The configuration as it is to be, a TOML document";

/// The one partition that is asked about.
pub(crate) const ONE_PARTITION: &str =
    "The name of the one partition that is asked about; all are if it is left out";

/// The partitions that have another name.
pub(crate) const RENAME: &str =
    "OLD=NEW: the partition NEW is the one that was OLD; several with commas between them";

/// The form of an answer.
pub(crate) const FORMAT: &str = "text or json; text if it is left out";

/// A source's file.
pub(crate) const SOURCE: &str = "The source, assembly in UTF-8";

/// An image's file.
pub(crate) const IMAGE: &str = "The image, made anew or written over";

/// The file of an image that is read.
pub(crate) const IMAGE_READ: &str = "The image";

/// The file of a source that is written.
pub(crate) const TEXT: &str =
    "The source, made anew or written over; standard output if it is left out";

/// The file that a report is compared with.
pub(crate) const EXPECT: &str =
    "Compare the report with this file; if a byte differs, say where, show both lines, and end with status 4";

/// The kinds at which a run fails.
pub(crate) const FAIL_ON: &str =
    "End with status 4 if a partition is one of these, with commas between them: fault, refused, idle, exit (another status \
    than 0), running (not ended), lost-input, full-output, deadlock, late, stack";

/// The deadlines of responses.
pub(crate) const DEADLINE: &str =
    "NAME:THREAD=TICKS: the longest response that this thread of partition NAME may have; several with commas between them";

/// The tick from which on figures count.
pub(crate) const FROM_COUNTED: &str =
    "Count what happens from this tick on: 0 to 1099511627776, 0 if it is left out";

/// Whether stack pointers are looked at after every step.
pub(crate) const STACK: &str =
    "Look at the stack pointer after every step, so that the stack used is exact; it takes longer";

/// Whether a run ends early.
pub(crate) const UNTIL_HALTED: &str =
    "Stop at the first multiple of 1,024 ticks at which every partition has halted; one without an image counts as halted";

/// Whether progress is shown.
pub(crate) const QUIET: &str = "Show no progress";

/// Whether a refusal is explained.
pub(crate) const EXPLAIN_FAULT: &str = "Also print where and why the configuration is refused";

/// Whether a trace has the instructions in words.
pub(crate) const DECODE: &str =
    "After each step its instruction in words, and of a call its name, its arguments, its caller, whom it wakes and its reply";

/// The file of an image's symbols.
pub(crate) const SYMBOLS: &str = "The image's symbols, a line for each: ADDRESS LETTER NAME";

/// The file of the symbols by which threads are named.
pub(crate) const START_SYMBOLS: &str =
    "The symbols of the images, a line for each: ADDRESS LETTER NAME; each is looked up \
    for every partition";

/// The file that an image's symbols are written to.
pub(crate) const LABELS: &str =
    "Write the labels to this file, as --symbols of the other commands reads them";

/// The one thread of a trace.
pub(crate) const THREAD: &str = "Show the steps of this thread alone: 1 to 32";

/// Whether a trace has calls alone.
pub(crate) const CALLS: &str = "Show the steps that are calls alone";

/// The first tick of a trace.
pub(crate) const FROM_TICK: &str = "Show the steps that began at this tick or later";

/// The last tick of a trace.
pub(crate) const TO_TICK: &str = "Show the steps that began at this tick or before";

/// The length of a trace.
pub(crate) const LAST: &str =
    "Keep this number of steps in place of the configuration's: 1 to 1048576";

/// The form of a picture.
pub(crate) const PICTURE_FORMAT: &str = "svg, vcd or json; svg if it is left out";

/// Whether a source's refusal is explained.
pub(crate) const EXPLAIN_SOURCE: &str = "Also print where and why the source is refused, in words";

/// The folder of the images.
pub(crate) const ROOT: &str =
    "Look up images from this folder; from the working directory if it is left out";

/// The folder of the old configuration's images.
pub(crate) const OLD_ROOT: &str =
    "Look up the images of OLD from this folder; from that of --root if it is left out";

/// What `explain` does.
pub(crate) const EXPLAIN_RUN: &str =
    "Runs a system and says in words what one partition does then, and what its threads wait for";

/// The refusals of `explain`, and an example.
pub(crate) const EXPLAIN_RUN_AFTER: &str = "Exit status:
  0  it is printed
  1  ptk: config fault N (see 'ptk check --help'), ptk: no partition NAME, ptk: missing file NAME,
     ptk: not text NAME, ptk: symbols NAME line L
  2  usage
  3  ptk: read failed NAME, ptk: write failed, ptk: no memory

Example:
  ptk explain hello.toml --ticks 20 --partition p";

/// What `stats` does.
pub(crate) const STATS: &str =
    "Runs a system and prints its figures: ticks and steps, what each thread did and called, mutexes";

/// What the figures are, the refusals of `stats`, and an example.
pub(crate) const STATS_AFTER: &str =
    "Of each partition the ticks in its windows: used by steps, idle, lost at ends of windows, after its halt. Of each
thread its ticks by what it did, steps, preemptions, the longest way from ready to running, its responses
(from a release to the completion, for --deadline), its stack, and its calls with how many were refused. Of
each mutex the longest that it was held and waited for; of each condition variable its signals and
broadcasts, and those that woke nobody. 'own' counts ticks in the partition's windows
alone, 'all' every tick. With --format json one JSON object.

Exit status:
  0  they are printed
  1  ptk: config fault N (see 'ptk check --help'), ptk: no partition NAME, ptk: missing file NAME,
     ptk: not text NAME, ptk: nothing to show from tick M: M is after the run's end
  2  usage
  3  ptk: read failed NAME, ptk: write failed, ptk: no memory

Example:
  ptk stats hello.toml --ticks 20
  ptk stats hello.toml --ticks 20 --partition p --format json
  ptk stats hello.toml --ticks 20 --from 10 --deadline p:1=8 --stack";
