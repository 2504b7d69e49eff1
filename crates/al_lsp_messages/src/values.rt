// Values of messages.
ghost use Rattle.std.specs.Prelude.{◌≡◌, Some, IfOk, OnOk, take, drop};
ghost use Rattle.std.specs.Str.Lossy.{utf8_lossy};
ghost use Rattle.serde_json.specs.Data.{string, object, put as with_member};
ghost use Rattle.serde_json.specs.Read.{read};
ghost use Rattle.serde_json.specs.View.{view, members_view};
ghost use Rattle.al_lsp_messages.specs.Values.{with_position, with_range, with_shown, with_publish, with_message, with_words, position_data, range_data, shown_data, publish_data, message_data, capabilities_text};

use crate::members::{Members, put_copy, put_integer, put_number, put_object, put_text};
use al_lsp::{Counting, Position, Range};
use serde_json::{Map, Value};
use std::alloc::{AllocError, Global};

/// A diagnostic as a client shows it.
#[derive(Clone, Copy)]
pub struct Shown<'a> {
    pub range: Range,
    /// 1 for an error, 2 for a warning, 3 for an information, 4 for a hint.
    pub severity: u64,
    /// The four bytes of its code, a space, and words.
    pub message: &'a [u8],
}

fn fill_position(alloc: Global, members: &mut Members, position: Position) -> Result<(), AllocError>
    ensures { OnOk result (members_view members.new.entries ≡ with_position position (members_view members.old.entries)) }
{
    put_number(alloc, members, "line", position.line)?;
    put_number(alloc, members, "character", position.column)
}

fn put_position(
    alloc: Global,
    members: &mut Members,
    key: &str,
    position: Position,
) -> Result<(), AllocError>
    ensures { OnOk result (members_view members.new.entries ≡ with_member key.now (position_data position) (members_view members.old.entries)) }
{
    let mut inner = Map::new(alloc);
    fill_position(alloc, &mut inner, position)?;
    put_object(alloc, members, key, inner)
}

fn fill_range(alloc: Global, members: &mut Members, range: Range) -> Result<(), AllocError>
    ensures { OnOk result (members_view members.new.entries ≡ with_range range (members_view members.old.entries)) }
{
    put_position(alloc, members, "start", range.start)?;
    put_position(alloc, members, "end", range.end)
}

pub(crate) fn put_range(
    alloc: Global,
    members: &mut Members,
    key: &str,
    range: Range,
) -> Result<(), AllocError>
    ensures { OnOk result (members_view members.new.entries ≡ with_member key.now (range_data range) (members_view members.old.entries)) }
{
    let mut inner = Map::new(alloc);
    fill_range(alloc, &mut inner, range)?;
    put_object(alloc, members, key, inner)
}

// A text of bytes.
pub(crate) fn put_bytes(
    alloc: Global,
    members: &mut Members,
    key: &str,
    bytes: &[u8],
) -> Result<(), AllocError>
    ensures { OnOk result (members_view members.new.entries ≡ with_member key.now (string (utf8_lossy bytes.now)) (members_view members.old.entries)) }
{
    let text = String::from_utf8_lossy(alloc, bytes)?;
    put_text(alloc, members, key, text.as_str())
}

fn front(bytes: &[u8], count: usize) -> &[u8]
    ensures { result.now ≡ take count bytes.now }
{
    &bytes[..count.min(bytes.len())]
}

fn behind(bytes: &[u8], count: usize) -> &[u8]
    ensures { result.now ≡ drop count bytes.now }
{
    &bytes[count.min(bytes.len())..]
}

fn fill_words(alloc: Global, members: &mut Members, message: &[u8]) -> Result<(), AllocError>
    ensures { OnOk result (members_view members.new.entries ≡ with_words message.now (members_view members.old.entries)) }
{
    put_bytes(alloc, members, "code", front(message, 4))?;
    put_bytes(alloc, members, "message", behind(message, 5))
}

fn fill_shown(alloc: Global, members: &mut Members, shown: &Shown<'_>) -> Result<(), AllocError>
    ensures { OnOk result (members_view members.new.entries ≡ with_shown shown.now (members_view members.old.entries)) }
{
    put_text(alloc, members, "source", "adals")?;
    put_number(alloc, members, "severity", shown.severity)?;
    put_range(alloc, members, "range", shown.range)?;
    fill_words(alloc, members, shown.message)
}

/// A diagnostic as JSON.
///
/// # Errors
///
/// Where memory was wanted and not given.
pub fn shown_value(alloc: Global, shown: &Shown<'_>) -> Result<Value, AllocError>
    ensures { IfOk result (λ v. view v ≡ shown_data shown.now) }
{
    let mut members = Map::new(alloc);
    fill_shown(alloc, &mut members, shown)?;
    Ok(Value::Object(members))
}

fn fill_publish(
    alloc: Global,
    members: &mut Members,
    uri: &str,
    version: Option<i64>,
    found: &Value,
) -> Result<(), AllocError>
    ensures { OnOk result (members_view members.new.entries ≡ with_publish uri.now version (view found.now) (members_view members.old.entries)) }
{
    if let Some(number) = version {
        put_integer(alloc, members, "version", number)?;
    }
    put_text(alloc, members, "uri", uri)?;
    put_copy(alloc, members, "diagnostics", found)
}

/// The parameters of `textDocument/publishDiagnostics`: what is wrong with a file, and the version of its text where a client has it open.
///
/// # Errors
///
/// Where memory was wanted and not given.
pub fn publish_params(
    alloc: Global,
    uri: &str,
    version: Option<i64>,
    found: &Value,
) -> Result<Value, AllocError>
    ensures { IfOk result (λ v. view v ≡ publish_data uri.now version (view found.now)) }
{
    let mut members = Map::new(alloc);
    fill_publish(alloc, &mut members, uri, version, found)?;
    Ok(Value::Object(members))
}

fn fill_message(
    alloc: Global,
    members: &mut Members,
    kind: u64,
    text: &str,
) -> Result<(), AllocError>
    ensures { OnOk result (members_view members.new.entries ≡ with_message kind text.now (members_view members.old.entries)) }
{
    put_number(alloc, members, "type", kind)?;
    put_text(alloc, members, "message", text)
}

/// The parameters of `window/showMessage`.
///
/// # Errors
///
/// Where memory was wanted and not given.
pub fn message_params(alloc: Global, kind: u64, text: &str) -> Result<Value, AllocError>
    ensures { IfOk result (λ v. view v ≡ message_data kind text.now) }
{
    let mut members = Map::new(alloc);
    fill_message(alloc, &mut members, kind, text)?;
    Ok(Value::Object(members))
}

// The value of a text that is JSON.
fn value_of(alloc: Global, text: &str) -> Result<Value, AllocError>
    ensures { IfOk result (λ v. read text.now ≡ Some (view v)) }
{
    match Value::from_str(alloc, text) {
        Ok(value) => Ok(value),
        Err(_) => Err(AllocError),
    }
}

#[tactic(auto, unfolding(crate::specs::Values::capabilities_text))]
fn capabilities_text(counting: Counting) -> &'static str
    ensures { result.now ≡ capabilities_text counting }
{
    match counting {
        Counting::Utf16 => {
            "{\"capabilities\":{\"completionProvider\":{\"triggerCharacters\":[\".\"]},\"definitionProvider\":true,\"documentSymbolProvider\":true,\"hoverProvider\":true,\"referencesProvider\":true,\"positionEncoding\":\"utf-16\",\"textDocumentSync\":{\"change\":2,\"openClose\":true,\"save\":true},\"workspaceSymbolProvider\":true},\"serverInfo\":{\"name\":\"adals\"}}"
        }
        Counting::Utf8 | Counting::Lexer => {
            "{\"capabilities\":{\"completionProvider\":{\"triggerCharacters\":[\".\"]},\"definitionProvider\":true,\"documentSymbolProvider\":true,\"hoverProvider\":true,\"referencesProvider\":true,\"positionEncoding\":\"utf-8\",\"textDocumentSync\":{\"change\":2,\"openClose\":true,\"save\":true},\"workspaceSymbolProvider\":true},\"serverInfo\":{\"name\":\"adals\"}}"
        }
    }
}

/// What the server can do: the answer to `initialize`.
///
/// # Errors
///
/// Where memory was wanted and not given.
pub fn capabilities(alloc: Global, counting: Counting) -> Result<Value, AllocError>
    ensures { IfOk result (λ v. read (capabilities_text counting) ≡ Some (view v)) }
{
    value_of(alloc, capabilities_text(counting))
}

const WATCH: &str =
    "{\"registrations\":[{\"id\":\"watch\",\"method\":\"workspace/didChangeWatchedFiles\",\"registerOptions\":{\"watchers\":[{\"globPattern\":\"**/*.ad[sb]\"}]}}]}";

/// The parameters of `client/registerCapability`, which ask a client to tell what changes in the files of sources.
///
/// # Errors
///
/// Where memory was wanted and not given.
pub fn watch_params(alloc: Global) -> Result<Value, AllocError>
    ensures { IfOk result (λ v. read WATCH.now ≡ Some (view v)) }
{
    value_of(alloc, WATCH)
}
