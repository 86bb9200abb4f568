// `Value`, an enum: what a member of a JSON object has; `put_object`: writes an object from a list of its members. The members are listed, and not
// derived field by field, since a proof of one loop is short.

use serde::{Serialize, Serializer};

/// The value of a member of an object; `T`: what its list has.
#[derive(Drop)]
pub enum Value<'a, T> {
    Number(usize),
    Text(&'a str),
    Objects(&'a Vec<T>),
    /// The member is left out if it is `false`.
    Flag(bool),
    /// The member is left out if there is none.
    MaybeNumber(Option<u32>),
    /// The member is left out if there is none.
    MaybeText(Option<&'a str>),
    /// The member is left out if the text is empty.
    Note(&'a str),
    /// Numbers of lines; the member is left out if there are none.
    Lines(&'a Vec<usize>),
}

/// A member of an object: its name, and its value.
pub type Member<'a, T> = (&'static str, Value<'a, T>);

impl<T> Value<'_, T> {
    /// Whether the member is written.
    fn is_written(&self) -> bool {
        match self {
            Value::Number(_) | Value::Text(_) | Value::Objects(_) => true,
            Value::Flag(is_set) => *is_set,
            Value::MaybeNumber(number) => number.is_some(),
            Value::MaybeText(text) => text.is_some(),
            Value::Note(text) => !text.is_empty(),
            Value::Lines(numbers) => !numbers.is_empty(),
        }
    }
}

/// Writes the value of a member.
fn put_value<S: Serializer, T: Serialize>(
    out: &mut S,
    value: &Value<'_, T>,
) -> Result<(), S::Error> {
    match value {
        Value::Number(number) => number.serialize(out),
        Value::Text(text) | Value::Note(text) => out.str(text),
        Value::Objects(objects) => objects.serialize(out),
        Value::Flag(is_set) => out.bool(*is_set),
        Value::MaybeNumber(number) => number.serialize(out),
        Value::MaybeText(text) => text.serialize(out),
        Value::Lines(numbers) => numbers.serialize(out),
    }
}

/// Writes an object of these members, but those that are left out.
pub fn put_object<S: Serializer, T: Serialize>(
    out: &mut S,
    members: &[Member<'_, T>],
) -> Result<(), S::Error> {
    out.begin_map(None)?;
    'members: for (name, value) in members {
        if value.is_written() {
            out.key(name)?;
            put_value(out, value)?;
        }
    }
    out.end_map()
}
