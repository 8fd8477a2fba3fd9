//! Keys that are near to each other: few edits lead from one to the other.

use crate::lookup::table_of;
use crate::reason::{keys_of, shown};
use ptk_config::parts::is_among;
use ptk_config::{Key, TablePlace};
use std::alloc::{AllocError, Global};
use strsim::levenshtein;
use toml::Table;

/// The greatest number of edits that lead from a key to one that is near.
const MOST_EDITS: usize = 2;

/// The first of the known keys to which the fewest edits lead from an unknown one, None if none is near. An error if
/// memory was refused.
pub(crate) fn nearest_known(
    alloc: Global,
    key: &str,
    known: &[&'static str],
) -> Result<Option<&'static str>, AllocError> {
    let mut least = MOST_EDITS + 1;
    let mut nearest = None;
    for other in known {
        let edits = levenshtein(alloc, key, other)?;
        if edits < least {
            least = edits;
            nearest = Some(*other);
        }
    }
    Ok(nearest)
}

/// The first of the unknown keys of a table to which the fewest edits lead from a missing one, None if none is near or
/// can be shown. An error if memory was refused.
pub(crate) fn nearest_unknown(
    alloc: Global,
    document: &Table,
    table: TablePlace,
    missing: Key,
) -> Result<Option<&str>, AllocError> {
    let Some(values) = table_of(document, table) else {
        return Ok(None);
    };
    let mut least = MOST_EDITS + 1;
    let mut nearest = None;
    for key in values.keys() {
        let Some(key) = unknown_shown(key.as_str(), table) else {
            continue;
        };
        let edits = levenshtein(alloc, missing.name(), key)?;
        if edits < least {
            least = edits;
            nearest = Some(key);
        }
    }
    Ok(nearest)
}

/// A key that a table may not have, if it can be shown.
fn unknown_shown(key: &str, table: TablePlace) -> Option<&str> {
    if is_among(key, keys_of(table)) {
        None
    } else {
        shown(key)
    }
}
