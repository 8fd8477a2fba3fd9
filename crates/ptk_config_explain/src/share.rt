//! A partition's part of the frame in percent.

ghost use Rattle.std.specs.Prelude.{◌*◌, ◌<◌, ◌≤◌, length};

use ptk_words::PartId;
use ptk_words_model::Window;
use std::fmt;

/// A part of a frame in thousandths, shown in percent with one decimal.
#[derive(Clone, Copy)]
pub(crate) struct Share {
    thousandths: u128,
}

impl Share {
    /// This many ticks of a frame of that many, cut after the thousandth.
    pub(crate) fn new(ticks: u128, frame: u32) -> Share
        requires frame { 0 < frame }
        requires ticks { ticks ≤ 4294967295 * 18446744073709551615 }
    {
        Share {
            thousandths: ticks * 1000 / u128::from(frame),
        }
    }
}

impl fmt::Display for Share {
    fn fmt<W: fmt::Write>(&self, f: &mut fmt::Formatter<W>) -> fmt::Result {
        let (whole, tenth) = (self.thousandths / 10, self.thousandths % 10);
        write!(f, "{whole}.{tenth}")
    }
}

/// How many ticks of a frame these windows give a partition.
pub(crate) fn ticks_of(windows: &[Window], partition: PartId) -> u128
    ensures { result ≤ 4294967295 * length windows.now }
{
    let mut ticks: u128 = 0;
    for window in windows {
        if window.partition == partition {
            ticks += u128::from(window.length);
        }
    }
    ticks
}
