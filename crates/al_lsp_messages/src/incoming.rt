// What a JSON value is as a message (JSON-RPC 2.0).
ghost use Rattle.std.specs.Prelude.{◌≡◌, option_and_then, option_map, codes};
ghost use Rattle.serde_json.specs.Find.{get, as_str};
ghost use Rattle.serde_json.specs.View.{view};
ghost use Rattle.al_lsp_messages.specs.Incoming.{shape_in, shape_of, is_id, with_id, with_method};

use serde_json::Value;

/// What a client sent.
#[derive(Clone, Copy)]
pub enum Incoming<'a> {
    /// A request: its id, its method, its parameters. It wants one response with its id.
    Request(&'a Value, &'a str, Option<&'a Value>),
    /// A notice, which wants no response: its method, its parameters.
    Notice(&'a str, Option<&'a Value>),
    /// An answer to a request of the server's.
    Answer,
    /// JSON that is no message.
    Invalid,
}

// Whether a value is an id: a text or an integer.
fn is_id(value: &Value) -> bool
    ensures { result ≡ is_id (view value.now) }
{
    match value {
        Value::Number(number) => !number.is_f64(),
        Value::String(_) => true,
        _ => false,
    }
}

fn with_id<'a>(value: &'a Value, method: &'a str) -> Incoming<'a>
    ensures { shape_in result ≡ with_id (get (codes "id") (view value.now)) method.now (get (codes "params") (view value.now)) }
{
    let params = value.get("params");
    match value.get("id") {
        None => Incoming::Notice(method, params),
        Some(id) => {
            if is_id(id) {
                Incoming::Request(id, method, params)
            } else {
                Incoming::Invalid
            }
        }
    }
}

fn method_of(value: &Value) -> Option<&str>
    ensures { option_map (λ s. s.now) result ≡ option_and_then as_str (get (codes "method") (view value.now)) }
{
    match value.get("method") {
        Some(method) => method.as_str(),
        None => None,
    }
}

/// What a JSON value is.
pub fn incoming_of(value: &Value) -> Incoming<'_>
    ensures { shape_in result ≡ shape_of (view value.now) }
{
    match method_of(value) {
        Some(method) => with_id(value, method),
        None => {
            if value.get("result").is_some() || value.get("error").is_some() {
                Incoming::Answer
            } else {
                Incoming::Invalid
            }
        }
    }
}
