//! The parameters of messages.
ghost use Rattle.std.specs.Prelude.{◌≡◌, ◌↔◌, IsTrue, codes, option_map, option_and_then, unwrap_or, pos};
ghost use Rattle.serde_json.specs.Data.{Data};
ghost use Rattle.serde_json.specs.Find.{get, as_str, as_array};
ghost use Rattle.serde_json.specs.View.{view, items_view};
ghost use Rattle.al_lsp_messages.specs.Params.{within, text_in, number_in, uri_in, version_in, document_text, position_in, range_in, opened_in, opened_model, change_in, change_model};

use al_lsp::{Position, Range};
use serde_json::Value;

/// A document as a client opens it.
#[derive(Clone, Copy)]
pub struct Opened<'a> {
    pub uri: &'a str,
    pub version: i64,
    pub text: &'a str,
}

/// One change of a document: in the range, or of the whole text.
#[derive(Clone, Copy)]
pub struct Change<'a> {
    pub range: Option<Range>,
    pub text: &'a str,
}

/// The text of a member.
pub fn text_in<'a>(value: &'a Value, key: &str) -> Option<&'a str>
    ensures { option_map (λ s. s.now) result ≡ text_in key.now (view value.now) }
{
    match value.get(key) {
        Some(member) => member.as_str(),
        None => None,
    }
}

fn number_in(value: &Value, key: &str) -> Option<u64>
    ensures { result ≡ number_in key.now (view value.now) }
{
    match value.get(key) {
        Some(member) => member.as_u64(),
        None => None,
    }
}

/// The URI of the document that a message is about.
pub fn uri_in(params: &Value) -> Option<&str>
    ensures { option_map (λ s. s.now) result ≡ uri_in (view params.now) }
{
    match params.get("textDocument") {
        Some(document) => text_in(document, "uri"),
        None => None,
    }
}

fn document_text(params: &Value) -> Option<&str>
    ensures { option_map (λ s. s.now) result ≡ document_text (view params.now) }
{
    match params.get("textDocument") {
        Some(document) => text_in(document, "text"),
        None => None,
    }
}

/// The version of the document that a message is about; 0 where none is said.
pub fn version_in(params: &Value) -> i64
    ensures { result ≡ version_in (view params.now) }
{
    let Some(document) = params.get("textDocument") else {
        return 0;
    };
    let Some(version) = document.get("version") else {
        return 0;
    };
    match version.as_i64() {
        Some(version) => version,
        None => 0,
    }
}

/// A document that is opened; none where the parameters have another form.
pub fn opened_in(params: &Value) -> Option<Opened<'_>>
    ensures { option_map opened_model result ≡ opened_in (view params.now) }
{
    let uri = uri_in(params)?;
    let text = document_text(params)?;
    Some(Opened {
        uri,
        version: version_in(params),
        text,
    })
}

pub fn position_in(value: &Value) -> Option<Position>
    ensures { result ≡ position_in (view value.now) }
{
    let line = number_in(value, "line")?;
    let column = number_in(value, "character")?;
    Some(Position { line, column })
}

fn range_in(value: &Value) -> Option<Range>
    ensures { result ≡ range_in (view value.now) }
{
    let start = position_in(value.get("start")?)?;
    let end = position_in(value.get("end")?)?;
    Some(Range { start, end })
}

/// The changes of a document, each for [`change_in`]; none where the parameters have another form.
pub fn changes_in(params: &Value) -> Option<&Vec<Value>>
    ensures { option_map (λ v. items_view v.now.items) result ≡ option_and_then as_array (get (codes "contentChanges") (view params.now)) }
{
    match params.get("contentChanges") {
        Some(changes) => changes.as_array(),
        None => None,
    }
}

/// One change of a document; none where the value has another form.
pub fn change_in(value: &Value) -> Option<Change<'_>>
    ensures { option_map change_model result ≡ change_in (view value.now) }
{
    let text = text_in(value, "text")?;
    let Some(range) = value.get("range") else {
        return Some(Change { range: None, text });
    };
    let range = range_in(range)?;
    Some(Change {
        range: Some(range),
        text,
    })
}
