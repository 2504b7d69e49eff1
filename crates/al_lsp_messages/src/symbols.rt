// Values that tell of declarations.
ghost use Rattle.std.specs.Prelude.{◌≡◌, IfOk, OnOk, codes, map};
ghost use Rattle.serde_json.specs.Data.{array, put as with_member};
ghost use Rattle.serde_json.specs.View.{view, items_of, members_view};
ghost use Rattle.al_lsp_messages.specs.Symbols.{location_data, symbol_data, unit_data, with_location, with_symbol, with_unit};

use crate::members::{Members, put_number, put_object, put_text};
use crate::values::{put_bytes, put_range};
use al_lsp::Range;
use serde_json::{Map, Value, put};
use std::alloc::{AllocError, Global};

/// A declaration as a client lists it.
#[derive(Clone, Copy)]
pub struct ListedSymbol<'a> {
    pub name: &'a [u8],
    /// The protocol's number of what is declared.
    pub kind: u64,
    /// All of it, and of what is declared inside.
    pub whole: Range,
    /// The identifier that it declares.
    pub selection: Range,
}

// Takes values into an array.
fn put_array(
    alloc: Global,
    members: &mut Members,
    key: &str,
    values: Vec<Value>,
) -> Result<(), AllocError>
    ensures { OnOk result (members_view members.new.entries ≡ with_member key.now (array (items_of (map view values.items))) (members_view members.old.entries)) }
{
    put(members, alloc, key, Value::Array(values))
}

fn fill_symbol(
    alloc: Global,
    members: &mut Members,
    symbol: &ListedSymbol<'_>,
) -> Result<(), AllocError>
    ensures { OnOk result (members_view members.new.entries ≡ with_symbol symbol.now (members_view members.old.entries)) }
{
    put_bytes(alloc, members, "name", symbol.name)?;
    put_number(alloc, members, "kind", symbol.kind)?;
    put_range(alloc, members, "range", symbol.whole)?;
    put_range(alloc, members, "selectionRange", symbol.selection)
}

/// A declaration of a document, with those that are declared inside.
///
/// # Errors
///
/// Where memory was wanted and not given.
pub fn symbol_value(
    alloc: Global,
    symbol: &ListedSymbol<'_>,
    inside: Vec<Value>,
) -> Result<Value, AllocError>
    ensures { IfOk result (λ v. view v ≡ symbol_data symbol.now (map view inside.items)) }
{
    let mut members = Map::new(alloc);
    put_array(alloc, &mut members, "children", inside)?;
    fill_symbol(alloc, &mut members, symbol)?;
    Ok(Value::Object(members))
}

fn fill_location(
    alloc: Global,
    members: &mut Members,
    uri: &str,
    range: Range,
) -> Result<(), AllocError>
    ensures { OnOk result (members_view members.new.entries ≡ with_location uri.now range (members_view members.old.entries)) }
{
    put_text(alloc, members, "uri", uri)?;
    put_range(alloc, members, "range", range)
}

/// A range of a file.
///
/// # Errors
///
/// Where memory was wanted and not given.
pub fn location_value(alloc: Global, uri: &str, range: Range) -> Result<Value, AllocError>
    ensures { IfOk result (λ v. view v ≡ location_data uri.now range) }
{
    let mut members = Map::new(alloc);
    fill_location(alloc, &mut members, uri, range)?;
    Ok(Value::Object(members))
}

fn put_location(
    alloc: Global,
    members: &mut Members,
    uri: &str,
    range: Range,
) -> Result<(), AllocError>
    ensures { OnOk result (members_view members.new.entries ≡ with_member (codes "location") (location_data uri.now range) (members_view members.old.entries)) }
{
    let mut inner = Map::new(alloc);
    fill_location(alloc, &mut inner, uri, range)?;
    put_object(alloc, members, "location", inner)
}

fn fill_unit(
    alloc: Global,
    members: &mut Members,
    symbol: &ListedSymbol<'_>,
    uri: &str,
) -> Result<(), AllocError>
    ensures { OnOk result (members_view members.new.entries ≡ with_unit symbol.now uri.now (members_view members.old.entries)) }
{
    put_bytes(alloc, members, "name", symbol.name)?;
    put_number(alloc, members, "kind", symbol.kind)?;
    put_location(alloc, members, uri, symbol.selection)
}

/// A declaration of a file, at the identifier that it declares.
///
/// # Errors
///
/// Where memory was wanted and not given.
pub fn unit_value(alloc: Global, symbol: &ListedSymbol<'_>, uri: &str) -> Result<Value, AllocError>
    ensures { IfOk result (λ v. view v ≡ unit_data symbol.now uri.now) }
{
    let mut members = Map::new(alloc);
    fill_unit(alloc, &mut members, symbol, uri)?;
    Ok(Value::Object(members))
}
