//! Where windows are refused.

ghost use Rattle.std.specs.Prelude.{◌<◌, IfSome, length};

use crate::place::{Key, Place, TablePlace};
use ptk_window::{Window, fault_of, overlaps_any, window_fault};

/// The place, from 0, of the first window that a later one overlaps.
fn first_overlapped(windows: &[Window]) -> Option<usize>
    ensures within { IfSome result (λ index. index < length windows.now) }
{
    for (index, window) in windows.iter().enumerate() {
        if overlaps_any(window, &windows[index + 1..]) {
            return Some(index);
        }
    }
    None
}

/// The place, from 0, of the first window that has a fault of its own.
fn first_faulty(frame: u32, parts: usize, windows: &[Window]) -> Option<usize>
    ensures within { IfSome result (λ index. index < length windows.now) }
{
    windows
        .iter()
        .position(|window| fault_of(frame, parts, window).is_some())
}

/// The place, from 0, of the first window that is refused: one that has a fault of its own comes before all that overlap.
fn first_refused(frame: u32, parts: usize, windows: &[Window]) -> Option<usize>
    ensures within { IfSome result (λ index. index < length windows.now) }
{
    match first_faulty(frame, parts, windows) {
        Some(index) => Some(index),
        None => first_overlapped(windows),
    }
}

/// The plan that is the stage of this number, from 0: None for the first stage, whose windows are at the top.
fn plan_of(stage: usize) -> Option<usize> {
    if stage == 0 { None } else { Some(stage) }
}

/// The table that has the windows of this plan, or of the top.
fn owner(plan: Option<usize>) -> TablePlace {
    match plan {
        None => TablePlace::Top,
        Some(plan) => TablePlace::Plan(plan),
    }
}

/// The place of the first fault of the windows of a plan, or of the top: the key of them all if there is no window.
fn windows_place(frame: u32, parts: usize, plan: Option<usize>, windows: &[Window]) -> Place {
    match first_refused(frame, parts, windows) {
        Some(index) => Place::Table(TablePlace::Window(plan, index + 1)),
        None => Place::Key(owner(plan), Key::Window),
    }
}

/// The place of the first fault of the stages' windows.
pub(crate) fn plan_place(frame: u32, parts: usize, stages: &[(u64, &[Window])]) -> Place {
    for (index, stage) in stages.iter().enumerate() {
        if window_fault(frame, parts, stage.1).is_some() {
            return windows_place(frame, parts, plan_of(index), stage.1);
        }
    }
    Place::Text
}
