//! The JSON objects of partitions. What does not differ is left out.

use crate::comparison::{Comparison, Pair, impact_words};
use ptk_impact::{
    Changes, Difference, ImageChange, Impact, InputChange, LimitChange, LimitChanges,
};
use ptk_words::{Arrival, ImageFault, Tick};
use serde::Serialize;
use serde_json::Error;
use std::alloc::Global;

/// A partition.
#[derive(Drop, Serialize)]
struct PartitionObject<'a> {
    name: &'a str,
    answer: &'static str,
    #[serde(skip_serializing_if = "Option::is_none")]
    old_name: Option<&'a str>,
    #[serde(skip_serializing_if = "Option::is_none")]
    place: Option<Pair<usize>>,
    #[serde(skip_serializing_if = "Option::is_none")]
    file: Option<Pair<&'a str>>,
    #[serde(skip_serializing_if = "Option::is_none")]
    differences: Option<DifferencesObject>,
}

/// What differs and plays a part in a run.
#[derive(Drop, Serialize)]
struct DifferencesObject {
    #[serde(skip_serializing_if = "Option::is_none")]
    windows: Option<WindowsObject>,
    #[serde(skip_serializing_if = "Option::is_none")]
    limits: Option<LimitsObject>,
    #[serde(skip_serializing_if = "Option::is_none")]
    image: Option<ImageObject>,
    #[serde(skip_serializing_if = "Option::is_none")]
    input: Option<InputObject>,
}

/// The first tick at which the windows differ, and the end of the window that holds it, null if the tick is not its
/// own.
#[derive(Drop, Serialize)]
struct WindowsObject {
    tick: u64,
    old_end: Option<u64>,
    new_end: Option<u64>,
}

/// The limits that differ, by their keys in the configuration.
#[derive(Drop, Serialize)]
struct LimitsObject {
    #[serde(skip_serializing_if = "Option::is_none")]
    memory: Option<Pair<u32>>,
    #[serde(skip_serializing_if = "Option::is_none")]
    threads: Option<Pair<u32>>,
    #[serde(skip_serializing_if = "Option::is_none")]
    stack: Option<Pair<u32>>,
    #[serde(skip_serializing_if = "Option::is_none")]
    mutexes: Option<Pair<u32>>,
    #[serde(skip_serializing_if = "Option::is_none")]
    conds: Option<Pair<u32>>,
    #[serde(skip_serializing_if = "Option::is_none")]
    keys: Option<Pair<u32>>,
    #[serde(skip_serializing_if = "Option::is_none")]
    interval: Option<Pair<u32>>,
    #[serde(skip_serializing_if = "Option::is_none")]
    ring: Option<Pair<u32>>,
    #[serde(skip_serializing_if = "Option::is_none")]
    output: Option<Pair<u32>>,
    #[serde(skip_serializing_if = "Option::is_none")]
    trace: Option<Pair<u32>>,
}

/// How the images differ: whether there is one, or the first offset at which the bytes differ; and the numbers of the
/// faults for which boot refuses them, null if it does not.
#[derive(Drop, Serialize)]
struct ImageObject {
    #[serde(skip_serializing_if = "Option::is_none")]
    old: Option<&'static str>,
    #[serde(skip_serializing_if = "Option::is_none")]
    new: Option<&'static str>,
    #[serde(skip_serializing_if = "Option::is_none")]
    offset: Option<usize>,
    #[serde(skip_serializing_if = "Option::is_none")]
    fault: Option<Pair<Option<u8>>>,
}

/// The first place in the input at which the arrivals differ, with both, null after the last.
#[derive(Drop, Serialize)]
struct InputObject {
    index: usize,
    old: Option<ArrivalObject>,
    new: Option<ArrivalObject>,
}

/// An arrival.
#[derive(Drop, Serialize)]
struct ArrivalObject {
    tick: u64,
    byte: u8,
}

/// The JSON text of a partition that both configurations have, with no newline. An error if memory ran out.
pub(crate) fn json_of(alloc: Global, comparison: &Comparison<'_>) -> Result<String, Error> {
    let object = PartitionObject {
        name: comparison.names.new,
        answer: impact_words(&comparison.impact),
        old_name: comparison.other_names().map(|names| names.old),
        place: comparison.other_places(),
        file: comparison.other_files(),
        differences: differences_of(comparison),
    };
    serde_json::to_string(alloc, &object)
}

/// The JSON text of a partition that one configuration has, with the word of its answer, in the same form. An error if
/// memory ran out.
pub(crate) fn json_of_alone(
    alloc: Global,
    name: &str,
    answer: &'static str,
) -> Result<String, Error> {
    let object = PartitionObject {
        name,
        answer,
        old_name: None,
        place: None,
        file: None,
        differences: None,
    };
    serde_json::to_string(alloc, &object)
}

/// What differs and plays a part in a run, None if nothing does.
fn differences_of(comparison: &Comparison<'_>) -> Option<DifferencesObject> {
    match &comparison.impact {
        Impact::Unchanged => None,
        Impact::UnchangedButForTrace(trace) => Some(DifferencesObject {
            windows: None,
            limits: Some(LimitsObject::of_trace(trace)),
            image: None,
            input: None,
        }),
        Impact::Changed(changes) => Some(DifferencesObject::of(changes, comparison)),
    }
}

/// The two numbers of a limit.
fn pair_of(change: Option<LimitChange>) -> Option<Pair<u32>> {
    match change {
        Some(change) => Some(Pair {
            old: change.old,
            new: change.new,
        }),
        None => None,
    }
}

/// A tick as a number.
fn number_of(tick: Option<Tick>) -> Option<u64> {
    tick.map(|tick| tick.ticks())
}

/// A fault as a number.
fn fault_number(fault: Option<ImageFault>) -> Option<u8> {
    fault.map(|fault| fault.number())
}

impl DifferencesObject {
    /// What differs of a changed partition.
    fn of(changes: &Changes, comparison: &Comparison<'_>) -> DifferencesObject {
        DifferencesObject {
            windows: WindowsObject::of(&changes.windows),
            limits: LimitsObject::of(&changes.limits),
            image: ImageObject::of(&changes.image, comparison),
            input: InputObject::of(&changes.input),
        }
    }
}

impl WindowsObject {
    /// Where the windows differ, None if they do not.
    fn of(windows: &Option<Difference>) -> Option<WindowsObject> {
        match windows {
            Some(difference) => Some(WindowsObject {
                tick: difference.tick.ticks(),
                old_end: number_of(difference.end),
                new_end: number_of(difference.other_end),
            }),
            None => None,
        }
    }
}

impl LimitsObject {
    /// No limit.
    fn new() -> LimitsObject {
        LimitsObject {
            memory: None,
            threads: None,
            stack: None,
            mutexes: None,
            conds: None,
            keys: None,
            interval: None,
            ring: None,
            output: None,
            trace: None,
        }
    }

    /// The length of the trace alone.
    fn of_trace(trace: &LimitChange) -> LimitsObject {
        let mut limits = LimitsObject::new();
        limits.trace = Some(Pair {
            old: trace.old,
            new: trace.new,
        });
        limits
    }

    /// The limits that differ, None if none does.
    fn of(limits: &LimitChanges) -> Option<LimitsObject> {
        if !limits.is_any() {
            return None;
        }
        Some(LimitsObject {
            memory: pair_of(limits.memory),
            threads: pair_of(limits.threads),
            stack: pair_of(limits.stack),
            mutexes: pair_of(limits.mutexes),
            conds: pair_of(limits.conditions),
            keys: pair_of(limits.keys),
            interval: pair_of(limits.interval),
            ring: pair_of(limits.ring),
            output: pair_of(limits.output),
            trace: pair_of(limits.trace),
        })
    }
}

impl ImageObject {
    /// How the images differ, None if they do not and none is refused.
    fn of(image: &Option<ImageChange>, comparison: &Comparison<'_>) -> Option<ImageObject> {
        if image.is_none() && !comparison.is_refused() {
            return None;
        }
        let (old, new, offset) = match image {
            Some(ImageChange::Added) => (Some("none"), Some("one"), None),
            Some(ImageChange::Removed) => (Some("one"), Some("none"), None),
            Some(ImageChange::Bytes(offset)) => (None, None, Some(*offset)),
            None => (None, None, None),
        };
        let fault = if comparison.is_refused() {
            Some(Pair {
                old: fault_number(comparison.refusals.old),
                new: fault_number(comparison.refusals.new),
            })
        } else {
            None
        };
        Some(ImageObject {
            old,
            new,
            offset,
            fault,
        })
    }
}

impl InputObject {
    /// Where the input differs, None if it does not.
    fn of(input: &Option<InputChange>) -> Option<InputObject> {
        match input {
            Some(change) => Some(InputObject {
                index: change.place,
                old: ArrivalObject::of(&change.old),
                new: ArrivalObject::of(&change.new),
            }),
            None => None,
        }
    }
}

impl ArrivalObject {
    /// An arrival, None after the last.
    fn of(arrival: &Option<Arrival>) -> Option<ArrivalObject> {
        match arrival {
            Some(arrival) => Some(ArrivalObject {
                tick: arrival.tick.ticks(),
                byte: arrival.byte,
            }),
            None => None,
        }
    }
}
