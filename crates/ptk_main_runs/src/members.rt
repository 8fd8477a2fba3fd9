//! The members of JSON objects.

ghost use Rattle.std.specs.Prelude.{◌≡◌, OnOk};
ghost use Rattle.serde.specs.Event.{Logs};
ghost use Rattle.ptk_main_runs.specs.Members.{SendsAll, member_events, object_events, optional_value, value_event};

use serde::Serializer;

/// The value of a member.
#[derive(Clone, Copy)]
pub enum Value<'a> {
    /// A number.
    Number(u64),
    /// A word.
    Word(&'a str),
    /// Null.
    Null,
}

impl<'a> Value<'a> {
    /// A number, null where there is none.
    pub fn optional(number: Option<u64>) -> Value<'a>
        ensures { result ≡ optional_value number }
    {
        match number {
            Some(number) => Value::Number(number),
            None => Value::Null,
        }
    }
}

/// Puts members of an object, each a value under its key, in their order. An error where `out` gives one.
pub fn put_members<S: Serializer>(
    members: &[(&str, Value<'_>)],
    out: &mut S,
) -> Result<(), S::Error>
    ensures { OnOk result (SendsAll (member_events members.now) (S.written out.old) (S.written out.new)) }
{
    for (key, value) in members {
        out.key(key)?;
        put_value(*value, out)?;
    }
    Ok(())
}

/// Puts an object of these members under a key. An error where `out` gives one.
pub fn put_object<S: Serializer>(
    key: &str,
    members: &[(&str, Value<'_>)],
    out: &mut S,
) -> Result<(), S::Error>
    ensures { OnOk result (SendsAll (object_events key.now members.now) (S.written out.old) (S.written out.new)) }
{
    out.key(key)?;
    out.begin_map(None)?;
    put_members(members, out)?;
    out.end_map()
}

/// Puts a value. An error where `out` gives one.
fn put_value<S: Serializer>(value: Value<'_>, out: &mut S) -> Result<(), S::Error>
    ensures { OnOk result (Logs (S.written out.old) (S.written out.new) (value_event value.entry)) }
{
    match value {
        Value::Number(number) => out.u64(number),
        Value::Word(word) => out.str(word),
        Value::Null => out.unit(),
    }
}
