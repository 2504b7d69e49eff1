// Documents that a client has open.
ghost use Rattle.std.specs.Prelude.{◌≡◌, IfOk};
ghost use Rattle.serde_json.specs.View.{view};
ghost use Rattle.al_lsp_served.specs.Documents.{after_change, after_changes};

use al_base::NoMemory;
use al_lsp::{Counting, edited};
use al_lsp_messages::params::{Opened, change_in};
use serde_json::Value;
use std::alloc::Global;
use std::collections::BTreeMap;

/// A document.
pub struct Document {
    /// As its client names it.
    pub uri: String,
    pub version: i64,
    /// The text that its client has.
    pub text: Vec<u8>,
    /// Whether the library has this text of its file; else it has the last one that it took.
    pub is_taken: bool,
}

/// The documents that are open, by the names of their files.
pub type Documents = BTreeMap<Vec<u8>, Document>;

impl Drop for Document {
    fn drop(self) {
        let Document {
            uri: _,
            version: _,
            text: _,
            is_taken: _,
        } = self;
    }
}

// The text after a change; as it was, where the change has another form.
fn after_change(
    alloc: Global,
    counting: Counting,
    text: &[u8],
    change: &Value,
) -> Result<Vec<u8>, NoMemory>
    ensures { IfOk result (λ new. new.items ≡ after_change counting text.now (view change.now)) }
{
    let Some(change) = change_in(change) else {
        return Ok(Vec::from_slice(alloc, text)?);
    };
    match change.range {
        Some(range) => edited(alloc, counting, text, range, change.text.as_bytes()),
        None => Ok(Vec::from_slice(alloc, change.text.as_bytes())?),
    }
}

/// The text after the changes, each made in what the one before it left.
///
/// # Errors
///
/// `NoMemory` where memory was wanted and not given.
pub fn after_changes(
    alloc: Global,
    counting: Counting,
    text: &[u8],
    changes: &[Value],
) -> Result<Vec<u8>, NoMemory>
    ensures { IfOk result (λ new. new.items ≡ after_changes counting text.now changes.now) }
{
    let mut so_far = Vec::from_slice(alloc, text)?;
    for change in changes {
        so_far = after_change(alloc, counting, so_far.as_slice(), change)?;
    }
    Ok(so_far)
}

/// The document after the changes.
///
/// # Errors
///
/// `NoMemory` where memory was wanted and not given.
pub fn changed(
    alloc: Global,
    counting: Counting,
    document: Document,
    changes: &[Value],
    version: i64,
) -> Result<Document, NoMemory>
    ensures { IfOk result (λ new. new.text.items ≡ after_changes counting document.text.items changes.now) }
{
    let mut document = document;
    document.text = after_changes(alloc, counting, document.text.as_slice(), changes)?;
    document.version = version;
    Ok(document)
}

/// A document as its client opens it, which no library has taken yet.
///
/// # Errors
///
/// `NoMemory` where memory was wanted and not given.
pub fn document_of(alloc: Global, opened: &Opened<'_>) -> Result<Document, NoMemory>
    ensures { IfOk result (λ document. document.text.items ≡ opened.now.text.now) }
{
    let uri = String::from_str(alloc, opened.uri)?;
    let text = Vec::from_slice(alloc, opened.text.as_bytes())?;
    Ok(Document {
        uri,
        version: opened.version,
        text,
        is_taken: false,
    })
}
