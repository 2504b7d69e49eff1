// What a server sends.
ghost use Rattle.std.specs.Prelude.{◌≡◌, IfOk, OnOk};
ghost use Rattle.serde_json.specs.Data.{object, no_members, put};
ghost use Rattle.serde_json.specs.View.{view, members_view};
ghost use Rattle.al_lsp_messages.specs.Outgoing.{code_of, words_of, with_response, with_error, with_refusal, with_notice, with_published, with_request, with_message, data_of, IsBody};

use crate::members::{Members, put_copy, put_integer, put_object, put_text};
use crate::values::publish_params;
use al_base::NoMemory;
use serde_json::{Map, Value};
use std::alloc::{AllocError, Global};

/// Why a request is refused.
#[derive(Clone, Copy, Debug, PartialEq, Eq)]
pub enum ErrorCode {
    /// The body is no JSON.
    ParseError,
    /// The JSON is no message, or a request that isn't taken now.
    InvalidRequest,
    MethodNotFound,
    InvalidParams,
    /// A request before `initialize`.
    NotInitialized,
}

impl ErrorCode {
    pub fn number(self) -> i64
        ensures { result ≡ code_of self }
    {
        match self {
            ErrorCode::ParseError => -32700,
            ErrorCode::InvalidRequest => -32600,
            ErrorCode::MethodNotFound => -32601,
            ErrorCode::InvalidParams => -32602,
            ErrorCode::NotInitialized => -32002,
        }
    }

    fn words(self) -> &'static str
        ensures { result.now ≡ words_of self }
    {
        match self {
            ErrorCode::ParseError => "no JSON",
            ErrorCode::InvalidRequest => "no request that is taken now",
            ErrorCode::MethodNotFound => "no such method",
            ErrorCode::InvalidParams => "parameters of another form",
            ErrorCode::NotInitialized => "not initialized",
        }
    }
}

/// What a client gets for a file: all that is wrong with it.
pub struct Published {
    /// The name of the file, which its URI ends in.
    pub file: Vec<u8>,
    pub uri: String,
    /// The version of the text that the client has open.
    pub version: Option<i64>,
    /// The diagnostics, as JSON.
    pub found: Value,
}

impl Drop for Published {
    fn drop(self) {
        let Published {
            file: _,
            uri: _,
            version: _,
            found: _,
        } = self;
    }
}

/// What a server sends.
pub enum Outgoing {
    /// The answer to the request of this id.
    Response(Value, Value),
    /// That the request of this id is refused; of id null where nobody knows the id.
    Refusal(Value, ErrorCode),
    /// A notice: its method, its parameters.
    Notice(&'static str, Value),
    /// The notice `textDocument/publishDiagnostics`.
    Publish(Published),
    /// A request to the client: its id, its method, its parameters.
    Request(&'static str, &'static str, Value),
}

impl Drop for Outgoing {
    fn drop(self) {
        match self {
            Outgoing::Response(_, _) => {}
            Outgoing::Refusal(_, _) => {}
            Outgoing::Notice(_, _) => {}
            Outgoing::Publish(_) => {}
            Outgoing::Request(_, _, _) => {}
        }
    }
}

fn fill_response(
    alloc: Global,
    members: &mut Members,
    id: &Value,
    given: &Value,
) -> Result<(), AllocError>
    ensures { OnOk result (members_view members.new.entries ≡ with_response (view id.now) (view given.now) (members_view members.old.entries)) }
{
    put_text(alloc, members, "jsonrpc", "2.0")?;
    put_copy(alloc, members, "id", id)?;
    put_copy(alloc, members, "result", given)
}

fn fill_error(alloc: Global, members: &mut Members, code: ErrorCode) -> Result<(), AllocError>
    ensures { OnOk result (members_view members.new.entries ≡ with_error code (members_view members.old.entries)) }
{
    put_integer(alloc, members, "code", code.number())?;
    put_text(alloc, members, "message", code.words())
}

fn put_error(
    alloc: Global,
    members: &mut Members,
    key: &str,
    code: ErrorCode,
) -> Result<(), AllocError>
    ensures { OnOk result (members_view members.new.entries ≡ put key.now (object (with_error code no_members)) (members_view members.old.entries)) }
{
    let mut inner = Map::new(alloc);
    fill_error(alloc, &mut inner, code)?;
    put_object(alloc, members, key, inner)
}

fn fill_refusal(
    alloc: Global,
    members: &mut Members,
    id: &Value,
    code: ErrorCode,
) -> Result<(), AllocError>
    ensures { OnOk result (members_view members.new.entries ≡ with_refusal (view id.now) code (members_view members.old.entries)) }
{
    put_text(alloc, members, "jsonrpc", "2.0")?;
    put_copy(alloc, members, "id", id)?;
    put_error(alloc, members, "error", code)
}

fn fill_notice(
    alloc: Global,
    members: &mut Members,
    method: &str,
    params: &Value,
) -> Result<(), AllocError>
    ensures { OnOk result (members_view members.new.entries ≡ with_notice method.now (view params.now) (members_view members.old.entries)) }
{
    put_text(alloc, members, "jsonrpc", "2.0")?;
    put_text(alloc, members, "method", method)?;
    put_copy(alloc, members, "params", params)
}

fn fill_request(
    alloc: Global,
    members: &mut Members,
    id: &str,
    method: &str,
    params: &Value,
) -> Result<(), AllocError>
    ensures { OnOk result (members_view members.new.entries ≡ with_request id.now method.now (view params.now) (members_view members.old.entries)) }
{
    fill_notice(alloc, members, method, params)?;
    put_text(alloc, members, "id", id)
}

fn fill_published(alloc: Global, members: &mut Members, told: &Published) -> Result<(), AllocError>
    ensures { OnOk result (members_view members.new.entries ≡ with_published told.now (members_view members.old.entries)) }
{
    let params = publish_params(alloc, told.uri.as_str(), told.version, &told.found)?;
    fill_notice(alloc, members, "textDocument/publishDiagnostics", &params)
}

fn fill(alloc: Global, members: &mut Members, message: &Outgoing) -> Result<(), AllocError>
    ensures { OnOk result (members_view members.new.entries ≡ with_message message.now (members_view members.old.entries)) }
{
    match message {
        Outgoing::Response(id, given) => fill_response(alloc, members, id, given),
        Outgoing::Refusal(id, code) => fill_refusal(alloc, members, id, *code),
        Outgoing::Notice(method, params) => fill_notice(alloc, members, *method, params),
        Outgoing::Publish(told) => fill_published(alloc, members, told),
        Outgoing::Request(id, method, params) => {
            fill_request(alloc, members, *id, *method, params)
        }
    }
}

fn value_of(alloc: Global, message: &Outgoing) -> Result<Value, AllocError>
    ensures { IfOk result (λ v. view v ≡ data_of message.now) }
{
    let mut members = Map::new(alloc);
    fill(alloc, &mut members, message)?;
    Ok(Value::Object(members))
}

/// The bytes of a message: its JSON without spaces.
///
/// # Errors
///
/// `NoMemory` where memory was wanted and not given.
pub fn body_of(alloc: Global, message: &Outgoing) -> Result<Vec<u8>, NoMemory>
    ensures { IfOk result (λ body. IsBody (data_of message.now) body.items) }
{
    let value = value_of(alloc, message)?;
    let body = value.to_vec(alloc)?;
    Ok(body)
}
