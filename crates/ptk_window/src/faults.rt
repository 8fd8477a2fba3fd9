//! The first fault of windows, and of stages.

ghost use Rattle.std.specs.Prelude.{◌≡◌, map, nat_le};
ghost use Rattle.std.specs.List.{list_any};
ghost use Rattle.ptk_words_model.specs.WindowFaults.{some_pair, first_fault, fault_of, are_overlapping, window_fault, begins_with_zero, is_ordered, plan_fault};

use ptk_words_model::{Window, WindowFault};

/// The fault of one window.
pub fn fault_of(frame: u32, parts: usize, window: &Window) -> Option<WindowFault>
    ensures { result ≡ fault_of frame parts window.now }
{
    if window.length < 16 {
        Some(WindowFault::Short)
    } else if u64::from(frame) < window.end() {
        Some(WindowFault::PastFrame)
    } else if parts <= window.partition.index() {
        Some(WindowFault::UnknownPartition)
    } else {
        None
    }
}

/// Whether the two have a common tick.
fn are_overlapping(one: &Window, other: &Window) -> bool
    ensures { result ≡ are_overlapping one.now other.now }
{
    u64::from(one.start) < other.end() && u64::from(other.start) < one.end()
}

/// Whether one of these overlaps the window.
pub fn overlaps_any(window: &Window, others: &[Window]) -> bool
    ensures { result ≡ list_any (are_overlapping window.now) others.now }
{
    others.iter().any(|other| are_overlapping(window, other))
}

/// Whether two windows have a common tick.
#[tactic(auto, using(crate::proofs::Pairs::pairs))]
fn any_overlap(windows: &[Window]) -> bool
    ensures { result ≡ some_pair are_overlapping windows.now }
{
    for (index, window) in windows.iter().enumerate() {
        if overlaps_any(window, &windows[index + 1..]) {
            return true;
        }
    }
    false
}

/// The first fault of a window.
#[tactic(auto, using(crate::proofs::Pairs::pairs))]
fn first_fault(frame: u32, parts: usize, windows: &[Window]) -> Option<WindowFault>
    ensures { result ≡ first_fault (fault_of frame parts) windows.now }
{
    for window in windows {
        if let Some(fault) = fault_of(frame, parts, window) {
            return Some(fault);
        }
    }
    None
}

/// Why this many partitions can't have these windows in this frame.
#[tactic(auto, unfolding(ptk_words_model::specs::WindowFaults::window_fault))]
pub fn window_fault(frame: u32, parts: usize, windows: &[Window]) -> Option<WindowFault>
    ensures { result ≡ window_fault frame parts windows.now }
{
    if windows.is_empty() {
        return Some(WindowFault::Empty);
    }
    if let Some(fault) = first_fault(frame, parts, windows) {
        return Some(fault);
    }
    if any_overlap(windows) {
        Some(WindowFault::Overlap)
    } else {
        None
    }
}

/// Whether the numbers of the stages begin with 0 and strictly rise.
#[tactic(auto, using(crate::proofs::Pairs::mapped))]
fn are_ordered(stages: &[(u64, &[Window])]) -> bool
    ensures { result ≡ is_ordered (map (λ stage. record { from = stage.0; windows = stage.1.now }) stages.now) }
{
    begins_with_zero(stages) && !any_not_later(stages)
}

/// Whether there is a first stage and its number is 0.
fn begins_with_zero(stages: &[(u64, &[Window])]) -> bool
    ensures { result ≡ begins_with_zero (map (λ stage. record { from = stage.0; windows = stage.1.now }) stages.now) }
{
    !stages.is_empty() && stages[0].0 == 0
}

/// Whether one of these stages has no higher number than this one.
fn none_is_later(from: u64, others: &[(u64, &[Window])]) -> bool
    ensures { result ≡ list_any (λ other. nat_le other.0 from) others.now }
{
    others.iter().any(|other| other.0 <= from)
}

/// Whether a stage has no higher number than one before it.
#[tactic(auto, using(crate::proofs::Pairs::pairs))]
fn any_not_later(stages: &[(u64, &[Window])]) -> bool
    ensures { result ≡ some_pair (λ one other. nat_le other.0 one.0) stages.now }
{
    for (index, stage) in stages.iter().enumerate() {
        if none_is_later(stage.0, &stages[index + 1..]) {
            return true;
        }
    }
    false
}

/// The first fault of a stage's windows.
#[tactic(auto, using(crate::proofs::Pairs::pairs))]
fn first_table_fault(frame: u32, parts: usize, stages: &[(u64, &[Window])]) -> Option<WindowFault>
    ensures { result ≡ first_fault (λ stage. window_fault frame parts stage.1.now) stages.now }
{
    for stage in stages {
        if let Some(fault) = window_fault(frame, parts, stage.1) {
            return Some(fault);
        }
    }
    None
}

/// Why this many partitions can't have these stages of this frame.
#[tactic(auto, using(crate::proofs::Pairs::mapped), unfolding(ptk_words_model::specs::WindowFaults::plan_fault))]
pub fn plan_fault(frame: u32, parts: usize, stages: &[(u64, &[Window])]) -> Option<WindowFault>
    ensures { result ≡ plan_fault frame parts (map (λ stage. record { from = stage.0; windows = stage.1.now }) stages.now) }
{
    if !are_ordered(stages) {
        return Some(WindowFault::OutOfOrder);
    }
    first_table_fault(frame, parts, stages)
}
