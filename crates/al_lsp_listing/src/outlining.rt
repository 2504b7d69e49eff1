// The outline of a text.
ghost use Rattle.std.specs.Prelude.{◌≡◌, ◌≤◌, ◌<◌, IfOk, length};
ghost use Rattle.serde_json.specs.Data.{array, no_items};
ghost use Rattle.serde_json.specs.View.{view};
ghost use Rattle.al_lsp_listing.specs.Outlines.{IsOutline};

use crate::listing::listed;
use al_base::NoMemory;
use al_lsp::Counting;
use al_lsp_outline::{MAX_SOURCE, outline};
use serde_json::Value;
use std::alloc::Global;

fn outlined(alloc: Global, counting: Counting, text: &[u8]) -> Result<Value, NoMemory>
    requires { length text.now ≤ 4294967294 }
    ensures { IfOk result (λ value. IsOutline counting text.now (view value)) }
{
    let symbols = outline(alloc, text)?;
    listed(alloc, counting, text, symbols.as_slice())
}

/// What a text declares, as a client that counts so lists it (`DocumentSymbol[]`), each declaration with what is declared inside; nothing where it is no
/// unit, or has more bytes than a source may.
///
/// # Errors
///
/// `NoMemory` where memory was wanted and not given.
pub fn outline_value(alloc: Global, counting: Counting, text: &[u8]) -> Result<Value, NoMemory>
    ensures outline { length text.now ≤ 4294967294 → IfOk result (λ value. IsOutline counting text.now (view value)) }
    ensures longer { 4294967294 < length text.now → IfOk result (λ value. view value ≡ array no_items) }
{
    if text.len() > MAX_SOURCE {
        return Ok(Value::Array(Vec::new(alloc)));
    }
    outlined(alloc, counting, text)
}
