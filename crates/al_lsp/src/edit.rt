// Edits of texts.
ghost use Rattle.std.specs.Prelude.{◌≡◌, ◌≤◌, IfOk, length};
ghost use Rattle.al_lsp.specs.Edits.{replaced, edited};

use crate::offset::offset_of;
use crate::position::{Counting, Position};
use al_base::NoMemory;
use std::alloc::Global;

/// A range of a text: from its start to before its end.
#[derive(Clone, Copy, Debug, PartialEq, Eq)]
pub struct Range {
    pub start: Position,
    pub end: Position,
}

/// The text with other bytes in place of those between two offsets.
fn replaced(
    alloc: Global,
    text: &[u8],
    from: usize,
    to: usize,
    bytes: &[u8],
) -> Result<Vec<u8>, NoMemory>
    requires from { from ≤ length text.now }
    requires to { to ≤ length text.now }
    ensures { IfOk result (λ new. new.items ≡ replaced text.now from to bytes.now) }
{
    let mut new = Vec::from_slice(alloc, &text[..from])?;
    new.extend_from_slice(bytes)?;
    new.extend_from_slice(&text[to..])?;
    Ok(new)
}

/// The text after a change: other bytes in the range, and all else as it was. A range that ends before its start is empty.
///
/// # Errors
///
/// `NoMemory` where memory was wanted and not given.
pub fn edited(
    alloc: Global,
    counting: Counting,
    text: &[u8],
    range: Range,
    bytes: &[u8],
) -> Result<Vec<u8>, NoMemory>
    ensures { IfOk result (λ new. new.items ≡ edited counting text.now range bytes.now) }
{
    let from = offset_of(counting, text, range.start);
    let to = from.max(offset_of(counting, text, range.end));
    replaced(alloc, text, from, to, bytes)
}
