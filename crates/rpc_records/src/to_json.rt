//! Values of JSON for records, and objects put together member by member.

ghost use Rattle.std.specs.Prelude.{◌≡◌, IfOk, OnOk};
ghost use Rattle.serde_json.specs.Data.{Data, string, put as with_member};
ghost use Rattle.serde_json.specs.View.{view, members_view};
ghost use Rattle.rpc_records.specs.Spelling.{whole_json, list_json};

use serde_json::{Map, Value};
use std::alloc::Global;
use texts::{Listed, Memory, Text};

/// Something that has one value of JSON.
pub(crate) trait ToJson {
    /// That value.
    ghost json: { Self → Data };

    fn to_json(&self, alloc: Global) -> Result<Value, Memory>
        ensures { IfOk result (λ value. view value ≡ json self.now) };
}

impl ToJson for Text {
    ghost json = { string };

    fn to_json(&self, alloc: Global) -> Result<Value, Memory> {
        Value::try_from_str(alloc, self.as_str())
    }
}

impl<T: ToJson> ToJson for Listed<T> {
    ghost json = { list_json T.json };

    fn to_json(&self, alloc: Global) -> Result<Value, Memory> {
        list_value(alloc, self.as_slice())
    }
}

/// The array of the values of `items`.
pub(crate) fn list_value<T: ToJson>(alloc: Global, items: &[T]) -> Result<Value, Memory>
    ensures { IfOk result (λ value. view value ≡ list_json T.json items.now) }
{
    let mut values = Vec::new(alloc);
    for item in items {
        values.push(item.to_json(alloc)?)?;
    }
    Ok(Value::Array(values))
}

/// Puts a member of this name into an object.
pub(crate) fn put<T: ToJson>(
    members: &mut Map<String, Value>,
    alloc: Global,
    name: &str,
    value: &T,
) -> Result<(), Memory>
    ensures { OnOk result (members_view members.new.entries
        ≡ with_member name.now (T.json value.now) (members_view members.old.entries)) }
{
    serde_json::put(members, alloc, name, value.to_json(alloc)?)
}

/// Puts a whole number.
pub(crate) fn put_whole(
    members: &mut Map<String, Value>,
    alloc: Global,
    name: &str,
    number: u64,
) -> Result<(), Memory>
    ensures { OnOk result (members_view members.new.entries
        ≡ with_member name.now (whole_json number) (members_view members.old.entries)) }
{
    serde_json::put(members, alloc, name, Value::from(number))
}

/// Puts a text that is given in the source.
pub(crate) fn put_str(
    members: &mut Map<String, Value>,
    alloc: Global,
    name: &str,
    text: &str,
) -> Result<(), Memory>
    ensures { OnOk result (members_view members.new.entries
        ≡ with_member name.now (string text.now) (members_view members.old.entries)) }
{
    let value = Value::try_from_str(alloc, text)?;
    serde_json::put(members, alloc, name, value)
}
