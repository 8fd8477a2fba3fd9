//! The deadlines of threads' responses.
ghost use Rattle.std.specs.Prelude.{◌<◌, ◌≤◌, IfSome};

use crate::line::{MOST_THREADS, MOST_TICKS};

/// The longest response that a thread may have, by the name of its partition.
#[derive(Clone, Copy)]
pub struct NamedDeadline<'a> {
    /// The partition's name.
    pub partition: &'a str,
    /// The thread's number, 1 to `MOST_THREADS`.
    pub thread: u8,
    /// The number of ticks, at most `MOST_TICKS`.
    pub ticks: u64,
}

impl<'a> NamedDeadline<'a> {
    /// The form of a deadline.
    pub(crate) const FORM: &'static str =
        "NAME:THREAD=TICKS, or several of these with commas between them";

    /// The deadline that a word names as `NAME:THREAD=TICKS`. None if it names none, or a number is out of its range.
    pub fn read(word: &'a str) -> Option<NamedDeadline<'a>>
        ensures least { IfSome result (λ deadline. 0 < deadline.thread) }
        ensures most { IfSome result (λ deadline. deadline.thread ≤ MOST_THREADS) }
    {
        let (place, ticks) = word.rsplit_once('=')?;
        let (partition, thread) = place.rsplit_once(':')?;
        let ticks = ticks.parse::<u64>().ok()?;
        let thread = thread.parse::<u8>().ok()?;
        let is_thread = thread > 0 && u64::from(thread) <= MOST_THREADS;
        if !is_thread || ticks > MOST_TICKS {
            return None;
        }
        Some(NamedDeadline {
            partition,
            thread,
            ticks,
        })
    }

    /// Whether each word of a value, with commas between them, names a deadline.
    pub(crate) fn are_named(value: &str) -> bool {
        value
            .split(',')
            .all(|word| NamedDeadline::read(word).is_some())
    }
}
