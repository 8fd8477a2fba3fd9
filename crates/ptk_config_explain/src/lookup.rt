//! What stands at a place of a document.

ghost use Rattle.std.specs.Prelude.{◌<◌, ◌^◌, IfSome};

use ptk_config::parts::value_at as value_at_key;
use ptk_config::{Key, Place, TablePlace};
use toml::{Table, Value};

/// The item of this number, from 1, of the array at a key.
fn item_at<'a>(table: &'a Table, key: Key, number: usize) -> Option<&'a Value> {
    match value_at_key(table, key.name()) {
        Some(value) if number > 0 => value.get(number - 1),
        _ => None,
    }
}

/// The table that is an item of the array at a key.
fn table_in<'a>(table: &'a Table, key: Key, number: usize) -> Option<&'a Table> {
    item_at(table, key, number)?.as_table()
}

/// What stands where a table should, None for the document's own.
fn value_of(document: &Table, place: TablePlace) -> Option<&Value> {
    match place {
        TablePlace::Top => None,
        TablePlace::Section(section) => item_at(document, Key::Partition, section),
        TablePlace::Input(section, input) => {
            item_at(
                table_in(document, Key::Partition, section)?,
                Key::Input,
                input,
            )
        }
        TablePlace::Plan(plan) => item_at(document, Key::Plan, plan),
        TablePlace::Window(None, window) => item_at(document, Key::Window, window),
        TablePlace::Window(Some(plan), window) => {
            item_at(table_in(document, Key::Plan, plan)?, Key::Window, window)
        }
    }
}

/// The table at a place of a document, None if no table stands there.
pub(crate) fn table_of(document: &Table, place: TablePlace) -> Option<&Table> {
    match place {
        TablePlace::Top => Some(document),
        TablePlace::Section(_)
        | TablePlace::Input(..)
        | TablePlace::Plan(_)
        | TablePlace::Window(..) => value_of(document, place)?.as_table(),
    }
}

/// The value at a key of a table.
fn value_at(document: &Table, place: TablePlace, key: Key) -> Option<&Value> {
    value_at_key(table_of(document, place)?, key.name())
}

/// The number, if it is not negative.
fn natural(number: i64) -> Option<u64>
    ensures small { IfSome result (λ n. n < 2 ^ 63) }
{
    match u64::try_from(number) {
        Ok(number) => Some(number),
        Err(_) => None,
    }
}

/// The number at a key of a table of a document; None if there is no such table or key, or no number from 0 on.
pub(crate) fn number_at(document: &Table, place: TablePlace, key: Key) -> Option<u64>
    ensures small { IfSome result (λ n. n < 2 ^ 63) }
{
    natural(value_at(document, place, key)?.as_integer()?)
}

/// The text at a key of a table of a document; None if there is no such table or key, or no text.
pub(crate) fn text_at(document: &Table, place: TablePlace, key: Key) -> Option<&str> {
    value_at(document, place, key)?.as_str()
}

/// How many items the array at a key of a table of a document has; None if there is no such table or key, or no
/// array.
pub(crate) fn count_at(document: &Table, place: TablePlace, key: Key) -> Option<usize> {
    Some(value_at(document, place, key)?.as_array()?.len())
}

/// What stands at a place of a document; None if nothing does, and for the document itself and its text.
pub(crate) fn value_there(document: &Table, place: Place) -> Option<&Value> {
    match place {
        Place::Text => None,
        Place::Table(table) => value_of(document, table),
        Place::Key(table, key) => value_at(document, table, key),
        Place::Item(table, key, number) => item_at(table_of(document, table)?, key, number),
    }
}

/// The number, from 1, of the section that a place is in, None if it is in none.
pub(crate) fn section_of(place: Place) -> Option<usize> {
    match place {
        Place::Text => None,
        Place::Table(table) | Place::Key(table, _) | Place::Item(table, _, _) => match table {
            TablePlace::Section(section) | TablePlace::Input(section, _) => Some(section),
            TablePlace::Top | TablePlace::Plan(_) | TablePlace::Window(..) => None,
        },
    }
}
