//! What a refusal's line has.

use crate::lookup::{table_of, value_there};
use crate::reason::unknown_key;
use ptk_config::{ConfigFault, Place, Refusal, TablePlace};
use toml::Table;

/// What the line of a refusal states.
#[derive(Clone, Copy)]
pub(crate) enum Target<'a> {
    /// What stands at a place.
    Value(Place),
    /// A key that a table may not have.
    UnknownKey(TablePlace, &'a str),
}

impl<'a> Target<'a> {
    /// What the line of a refusal of this document states: the value that is refused, the unknown key, or the table in
    /// which a key is missing. None if that is the document.
    pub(crate) fn of(document: &'a Table, refusal: &Refusal) -> Option<Target<'a>> {
        match (refusal.place, refusal.fault) {
            (Place::Table(table), ConfigFault::UnknownKey) => {
                Some(Target::UnknownKey(table, unknown_key(document, table)?))
            }
            (Place::Key(table, _), ConfigFault::MissingKey) => Target::of_table(table),
            (Place::Table(table), _) => Target::of_table(table),
            (Place::Text, _) => None,
            (place @ (Place::Key(..) | Place::Item(..)), _) => Some(Target::Value(place)),
        }
    }

    /// A table, None if it is the document's.
    fn of_table(table: TablePlace) -> Option<Target<'a>> {
        match table {
            TablePlace::Top => None,
            TablePlace::Section(_)
            | TablePlace::Input(..)
            | TablePlace::Plan(_)
            | TablePlace::Window(..) => Some(Target::Value(Place::Table(table))),
        }
    }

    /// Whether the beginning of a document states it.
    pub(crate) fn is_in(&self, beginning: &Table) -> bool {
        match *self {
            Target::Value(place) => value_there(beginning, place).is_some(),
            Target::UnknownKey(table, key) => match table_of(beginning, table) {
                Some(values) => values.contains_key(key),
                None => false,
            },
        }
    }
}
