//! The progress of a long run, on a terminal.

use ptk_main_answers::Watch;
use ptk_main_line::RunOptions;
use ptk_words::Tick;
use std::io;
use std::io::{IsTerminal, Write};
use std::time::Instant;

/// The second from which a run is long.
const FIRST_SHOWN: u64 = 2;

/// What is shown of a run on its way, at most once a second: nothing if standard error is no terminal.
pub(crate) struct Progress<'r> {
    rt: &'r HostRuntime,
    start: Option<Instant>,
    next: u64,
}

impl<'r> Progress<'r> {
    /// Begins to watch a run; of one that is to be quiet nothing is shown.
    pub(crate) fn begin(rt: &'r HostRuntime, options: RunOptions<'_>) -> Progress<'r> {
        let start = if !options.quiet && rt.stderr().is_terminal() {
            Instant::now(rt).ok()
        } else {
            None
        };
        Progress {
            rt,
            start,
            next: FIRST_SHOWN,
        }
    }

    /// Ends the line that was shown last, if there is one.
    pub(crate) fn finish(self) {
        let Progress { rt, start: _, next } = self;
        if next > FIRST_SHOWN {
            let _shown = rt.stderr().write_all(b"\n");
        }
    }
}

impl Watch for Progress<'_> {
    fn is_absent(&self) -> bool {
        self.start.is_none()
    }

    fn reached(&mut self, tick: Tick, last: Tick) {
        let Some(start) = self.start else {
            return;
        };
        let seconds = match start.elapsed(self.rt) {
            Ok(time) => time.as_secs(),
            Err(_) => return,
        };
        if seconds >= self.next {
            self.next = seconds.saturating_add(1);
            let out = &mut self.rt.stderr();
            let _shown = put_progress(out, tick.ticks(), last.ticks(), seconds);
        }
    }
}

// Writes over the line that was shown before: the ticks, those a second, and how many seconds are left at that rate. An
// error if the writer fails.
fn put_progress<W: Write>(out: &mut W, tick: u64, last: u64, seconds: u64) -> io::Result<()> {
    let rate = tick.checked_div(seconds).unwrap_or(0);
    let left = last.saturating_sub(tick).checked_div(rate).unwrap_or(0);
    write!(
        out,
        "\rptk: tick {tick} of {last}, {rate} a second, {left} s left   "
    )
}
