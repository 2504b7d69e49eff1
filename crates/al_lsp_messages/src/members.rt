// Objects, member by member.
ghost use Rattle.std.specs.Prelude.{◌≡◌, OnOk, string_bytes};
ghost use Rattle.serde_json.specs.Data.{number, string, object, unsigned, put as with_member};
ghost use Rattle.serde_json.specs.Find.{of_integer};
ghost use Rattle.serde_json.specs.View.{view, members_view};

use serde_json::{Map, Value, put};
use std::alloc::{AllocError, Global};

/// The members of an object.
pub type Members = Map<String, Value>;

pub fn put_text(
    alloc: Global,
    members: &mut Members,
    key: &str,
    text: &str,
) -> Result<(), AllocError>
    ensures { OnOk result (members_view members.new.entries ≡ with_member key.now (string text.now) (members_view members.old.entries)) }
{
    let value = Value::try_from_str(alloc, text)?;
    put(members, alloc, key, value)
}

pub fn put_number(
    alloc: Global,
    members: &mut Members,
    key: &str,
    count: u64,
) -> Result<(), AllocError>
    ensures { OnOk result (members_view members.new.entries ≡ with_member key.now (number (unsigned count)) (members_view members.old.entries)) }
{
    put(members, alloc, key, Value::from(count))
}

pub fn put_integer(
    alloc: Global,
    members: &mut Members,
    key: &str,
    integer: i64,
) -> Result<(), AllocError>
    ensures { OnOk result (members_view members.new.entries ≡ with_member key.now (number (of_integer integer)) (members_view members.old.entries)) }
{
    put(members, alloc, key, Value::from(integer))
}

/// A copy of the value.
pub fn put_copy(
    alloc: Global,
    members: &mut Members,
    key: &str,
    value: &Value,
) -> Result<(), AllocError>
    ensures { OnOk result (members_view members.new.entries ≡ with_member key.now (view value.now) (members_view members.old.entries)) }
{
    let copy = value.clone()?;
    put(members, alloc, key, copy)
}

pub fn put_object(
    alloc: Global,
    members: &mut Members,
    key: &str,
    inner: Members,
) -> Result<(), AllocError>
    ensures { OnOk result (members_view members.new.entries ≡ with_member key.now (object (members_view inner.entries)) (members_view members.old.entries)) }
{
    put(members, alloc, key, Value::Object(inner))
}
