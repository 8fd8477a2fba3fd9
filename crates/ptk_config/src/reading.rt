//! One key of a table, or one value: the value that it states, or the fault.

ghost use Rattle.std.specs.Prelude.{◌≡◌, ◌≤◌, IfOk, option_map, map, string_bytes, vec_len};
ghost use Rattle.std.specs.List.{list_any, list_all};
ghost use Rattle.std.specs.Str.{bytes_eq};
ghost use Rattle.std.specs.BTreeMap.{keys};
ghost use Rattle.toml.specs.Data.{get_member};
ghost use Rattle.toml.specs.View.{view, table_view, array_view};
ghost use Rattle.ptk_config.specs.Reading.{seen, integer, text, items, members, required, number, counted, array, are_known};

use crate::fault::ConfigFault;
use toml::value::Array;
use toml::{Table, Value};

/// The value at a key.
pub fn value_at<'a>(table: &'a Table, key: &str) -> Option<&'a Value>
    ensures { option_map (λ v. view v.now) result ≡ get_member key.now (table_view table.now) }
{
    table.get(key)
}

/// The value at a key that may not be missing.
pub fn required<'a>(table: &'a Table, key: &str) -> Result<&'a Value, ConfigFault>
    ensures { seen (λ v. view v.now) result ≡ required key.now (table_view table.now) }
{
    value_at(table, key).ok_or(ConfigFault::MissingKey)
}

/// The number that a value states, within these bounds.
pub fn integer(value: &Value, low: u64, high: u64) -> Result<u64, ConfigFault>
    ensures value { result ≡ integer low high (view value.now) }
    ensures range { IfOk result (λ n. (low ≤ n) × (n ≤ high)) }
{
    match value.as_integer() {
        Some(signed) => match u64::try_from(signed) {
            Ok(number) if low <= number && number <= high => Ok(number),
            _ => Err(ConfigFault::OutOfRange),
        },
        None => Err(ConfigFault::WrongType),
    }
}

/// The text that a value states.
pub fn text(value: &Value) -> Result<&str, ConfigFault>
    ensures { seen (λ s. s.now) result ≡ text (view value.now) }
{
    value.as_str().ok_or(ConfigFault::WrongType)
}

/// The array that a value states.
pub fn items(value: &Value) -> Result<&Array, ConfigFault>
    ensures { seen (λ v. array_view v.now) result ≡ items (view value.now) }
{
    value.as_array().ok_or(ConfigFault::WrongType)
}

/// The table that a value states.
pub fn members(value: &Value) -> Result<&Table, ConfigFault>
    ensures { seen (λ t. table_view t.now) result ≡ members (view value.now) }
{
    value.as_table().ok_or(ConfigFault::WrongType)
}

/// The number at a key, within these bounds.
pub fn number(table: &Table, key: &str, low: u64, high: u64) -> Result<u64, ConfigFault>
    ensures value { result ≡ number key.now low high (table_view table.now) }
    ensures range { IfOk result (λ n. (low ≤ n) × (n ≤ high)) }
{
    let value = required(table, key)?;
    integer(value, low, high)
}

/// The values, if there are this many.
#[tactic(auto, using(crate::proofs::Walks::counts))]
pub fn counted(values: &Array, low: usize, high: usize) -> Result<&Array, ConfigFault>
    ensures value { seen (λ v. array_view v.now) result ≡ counted low high (array_view values.now) }
    ensures low { IfOk result (λ v. low ≤ vec_len v.now) }
    ensures high { IfOk result (λ v. vec_len v.now ≤ high) }
{
    if low <= values.len() && values.len() <= high {
        Ok(values)
    } else {
        Err(ConfigFault::OutOfRange)
    }
}

/// The array at a key, of this many items.
pub fn array<'a>(
    table: &'a Table,
    key: &str,
    low: usize,
    high: usize,
) -> Result<&'a Array, ConfigFault>
    ensures value { seen (λ v. array_view v.now) result ≡ array key.now low high (table_view table.now) }
    ensures low { IfOk result (λ v. low ≤ vec_len v.now) }
    ensures high { IfOk result (λ v. vec_len v.now ≤ high) }
{
    let value = required(table, key)?;
    let values = items(value)?;
    counted(values, low, high)
}

/// Whether the key is one of these.
pub fn is_among(key: &str, keys: &[&str]) -> bool
    ensures { result ≡ list_any (λ k. bytes_eq key.now k.now) keys.now }
{
    keys.iter().any(|known| key == *known)
}

/// Whether each key of the table is one of these.
fn each_among(table: &Table, among: &[&str]) -> bool
    ensures { result ≡ list_all (λ k. list_any (λ l. bytes_eq (string_bytes k) l.now) among.now) (keys table.now) }
{
    table.keys().all(|key| is_among(key.as_str(), among))
}

/// Whether each key of the table is one of these.
#[tactic(auto, using(crate::proofs::Walks::known))]
pub fn are_known(table: &Table, among: &[&str]) -> bool
    ensures { result ≡ are_known (map (λ k. k.now) among.now) (table_view table.now) }
{
    each_among(table, among)
}
