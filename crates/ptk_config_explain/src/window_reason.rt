//! Why windows are refused, found in the document.

use crate::lookup::{number_at, text_at};
use crate::reason::shown;
use crate::words::Reason;
use ptk_config::parts::WINDOWS_TO;
use ptk_config::{Key, Place, TablePlace};
use ptk_words_model::WindowFault;
use toml::Table;

/// The reason for windows that are refused.
pub(crate) fn windows_reason(document: &Table, place: Place, fault: WindowFault) -> Reason<'_> {
    match place {
        Place::Table(TablePlace::Window(plan, window)) => {
            window_reason(document, plan, window, fault)
        }
        Place::Key(..) => Reason::NoWindow,
        _ => Reason::None,
    }
}

/// The reason for a window that is refused.
fn window_reason(
    document: &Table,
    plan: Option<usize>,
    window: usize,
    fault: WindowFault,
) -> Reason<'_> {
    let found = match fault {
        WindowFault::Short => short(document, plan, window),
        WindowFault::PastFrame => past_frame(document, plan, window),
        WindowFault::UnknownPartition => no_section(document, plan, window),
        WindowFault::Overlap => overlap(document, plan, window),
        WindowFault::Empty => Some(Reason::NoWindow),
        WindowFault::Memory | WindowFault::OutOfOrder => None,
    };
    found.unwrap_or(Reason::None)
}

/// The reason for a window that has too few ticks.
fn short(document: &Table, plan: Option<usize>, window: usize) -> Option<Reason<'_>> {
    let length = number_at(document, TablePlace::Window(plan, window), Key::Length)?;
    Some(Reason::Short(length))
}

/// The reason for a window that ends after the frame.
fn past_frame(document: &Table, plan: Option<usize>, window: usize) -> Option<Reason<'_>> {
    let span = span_at(document, plan, window)?;
    let frame = number_at(document, TablePlace::Top, Key::Frame)?;
    Some(Reason::PastFrame {
        end: span.end,
        frame,
    })
}

/// The reason for a window whose section is not there.
fn no_section(document: &Table, plan: Option<usize>, window: usize) -> Option<Reason<'_>> {
    let table = TablePlace::Window(plan, window);
    let name = text_at(document, table, Key::Partition)?;
    Some(Reason::NoSection(shown(name)))
}

/// The reason for a window of which a later one has a tick.
fn overlap(document: &Table, plan: Option<usize>, window: usize) -> Option<Reason<'_>> {
    let here = span_at(document, plan, window)?;
    for other in window.saturating_add(1)..=WINDOWS_TO {
        let there = span_at(document, plan, other)?;
        if here.overlaps(&there) {
            return Some(Reason::Overlap(other));
        }
    }
    None
}

/// The ticks of a window: the first of them, and the first after it.
#[derive(Clone, Copy)]
struct Span {
    start: u64,
    end: u64,
}

impl Span {
    /// Whether the two have a tick in common.
    fn overlaps(&self, other: &Span) -> bool {
        self.start < other.end && other.start < self.end
    }
}

/// The ticks of a window, None if it lacks a number.
fn span_at(document: &Table, plan: Option<usize>, window: usize) -> Option<Span> {
    let table = TablePlace::Window(plan, window);
    let start = number_at(document, table, Key::Start)?;
    let length = number_at(document, table, Key::Length)?;
    Some(Span {
        start,
        end: start + length,
    })
}
