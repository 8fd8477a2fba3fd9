//! The comparison of the old partition and the new one.

use ptk_impact::{Impact, LimitChange, LimitChanges};
use ptk_words::ImageFault;
use serde::Serialize;

/// Two things of a partition, the old one and the new one.
#[derive(Clone, Copy, Serialize)]
pub(crate) struct Pair<T> {
    /// The old one.
    pub(crate) old: T,
    /// The new one.
    pub(crate) new: T,
}

/// The comparison of the old partition and the new one.
#[derive(Clone, Copy)]
pub(crate) struct Comparison<'a> {
    /// The names.
    pub(crate) names: Pair<&'a str>,
    /// The names of the images' files, None if there is no image.
    pub(crate) files: Pair<Option<&'a str>>,
    /// The places among the sections.
    pub(crate) places: Pair<usize>,
    /// What the new configuration can change.
    pub(crate) impact: Impact,
    /// Why boot refuses the images, None if it does not or the partition is not changed.
    pub(crate) refusals: Pair<Option<ImageFault>>,
}

impl<'a> Comparison<'a> {
    /// The names, None if they are the same.
    pub(crate) fn other_names(&self) -> Option<Pair<&'a str>> {
        let (old, new) = (self.names.old, self.names.new);
        if old == new {
            None
        } else {
            Some(Pair { old, new })
        }
    }

    /// The places, None if they are the same.
    pub(crate) fn other_places(&self) -> Option<Pair<usize>> {
        let (old, new) = (self.places.old, self.places.new);
        if old == new {
            None
        } else {
            Some(Pair { old, new })
        }
    }

    /// The names of the files of both images, None if one has no file or the names are the same.
    pub(crate) fn other_files(&self) -> Option<Pair<&'a str>> {
        match (self.files.old, self.files.new) {
            (Some(old), Some(new)) if old != new => Some(Pair { old, new }),
            (Some(_), Some(_)) | (Some(_), None) | (None, _) => None,
        }
    }

    /// Whether one of the images is refused.
    pub(crate) fn is_refused(&self) -> bool {
        self.refusals.old.is_some() || self.refusals.new.is_some()
    }
}

/// What is said of an impact.
pub(crate) fn impact_words(impact: &Impact) -> &'static str {
    match impact {
        Impact::Unchanged => "unchanged",
        Impact::UnchangedButForTrace(_) => "unchanged but for the trace kept",
        Impact::Changed(_) => "changed",
    }
}

/// What differs of each limit, by its key in the configuration and in the order of the keys there.
pub(crate) fn by_key(limits: &LimitChanges) -> [(&'static str, Option<LimitChange>); 10] {
    [
        ("memory", limits.memory),
        ("threads", limits.threads),
        ("stack", limits.stack),
        ("mutexes", limits.mutexes),
        ("conds", limits.conditions),
        ("keys", limits.keys),
        ("interval", limits.interval),
        ("ring", limits.ring),
        ("output", limits.output),
        ("trace", limits.trace),
    ]
}
