// Values that tell of what names mean.
ghost use Rattle.std.specs.Prelude.{◌≡◌, IfOk, OnOk};
ghost use Rattle.serde_json.specs.View.{view, members_view};
ghost use Rattle.al_lsp_messages.specs.Places.{with_contents, with_hover, with_proposed, hover_data, proposed_data};

use crate::members::{Members, put_object, put_text};
use crate::values::put_bytes;
use serde_json::{Map, Value};
use std::alloc::{AllocError, Global};

fn fill_contents(alloc: Global, members: &mut Members, words: &[u8]) -> Result<(), AllocError>
    ensures { OnOk result (members_view members.new.entries ≡ with_contents words.now (members_view members.old.entries)) }
{
    put_text(alloc, members, "kind", "plaintext")?;
    put_bytes(alloc, members, "value", words)
}

fn fill_hover(alloc: Global, members: &mut Members, words: &[u8]) -> Result<(), AllocError>
    ensures { OnOk result (members_view members.new.entries ≡ with_hover words.now (members_view members.old.entries)) }
{
    let mut inner = Map::new(alloc);
    fill_contents(alloc, &mut inner, words)?;
    put_object(alloc, members, "contents", inner)
}

/// Plain words on what a name means: the answer to `textDocument/hover`.
///
/// # Errors
///
/// Where memory was wanted and not given.
pub fn hover_value(alloc: Global, words: &[u8]) -> Result<Value, AllocError>
    ensures { IfOk result (λ v. view v ≡ hover_data words.now) }
{
    let mut members = Map::new(alloc);
    fill_hover(alloc, &mut members, words)?;
    Ok(Value::Object(members))
}

fn fill_proposed(
    alloc: Global,
    members: &mut Members,
    name: &[u8],
    words: &[u8],
) -> Result<(), AllocError>
    ensures { OnOk result (members_view members.new.entries ≡ with_proposed name.now words.now (members_view members.old.entries)) }
{
    put_bytes(alloc, members, "label", name)?;
    put_bytes(alloc, members, "detail", words)
}

/// A name that may stand at a place, with its declaration in words.
///
/// # Errors
///
/// Where memory was wanted and not given.
pub fn proposed_value(alloc: Global, name: &[u8], words: &[u8]) -> Result<Value, AllocError>
    ensures { IfOk result (λ v. view v ≡ proposed_data name.now words.now) }
{
    let mut members = Map::new(alloc);
    fill_proposed(alloc, &mut members, name, words)?;
    Ok(Value::Object(members))
}
