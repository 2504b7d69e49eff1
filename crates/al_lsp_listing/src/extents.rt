// Where declarations are in a text, as its client counts.
ghost use Rattle.std.specs.Prelude.{◌≡◌, ◌≤◌, ℕ, List, IfOk, fold};
ghost use Rattle.al_lsp.specs.Positions.{after_byte, position_at};
ghost use Rattle.al_lsp.specs.declared.position.Counting.{Counting};
ghost use Rattle.al_lsp_listing.specs.Extents.{bytes_of, range_of, AreMarks, IsMark};

use al_base::NoMemory;
use al_lsp::{Counting, Position, Range, Spot};
use al_lsp_outline::Extent;
use std::alloc::Global;

/// A mark is kept for each so many bytes.
const STRIDE: usize = 64;

/// How lines and columns are counted behind so many bytes of a text.
#[derive(Clone, Copy)]
pub(crate) struct Mark {
    pub offset: usize,
    pub spot: Spot,
}

/// The bytes of an extent, as far as the text has them.
pub(crate) fn bytes_of(text: &[u8], extent: Extent) -> &[u8]
    ensures { result.now ≡ bytes_of text.now extent }
{
    let to = extent.to.min(text.len());
    let from = extent.from.min(to);
    &text[from..to]
}

/// Marks all over a text.
pub(crate) fn marks_of(
    alloc: Global,
    counting: Counting,
    text: &[u8],
) -> Result<Vec<Mark>, NoMemory>
    ensures { IfOk result (λ marks. AreMarks counting text.now marks.items) }
{
    let mut marks = Vec::new(alloc);
    let mut spot = Spot::start();
    for i in 0..text.len() {
        if i % STRIDE == 0 {
            marks.push(Mark { offset: i, spot })?;
        }
        spot = spot.after_byte(counting, text[i]);
    }
    Ok(marks)
}

// A mark no later than so many bytes, and not long before them.
fn mark_before(marks: &[Mark], at: usize) -> Mark
    ensures before { result.offset ≤ at }
    ensures mark { (counting : Counting) → (text : List ℕ) → AreMarks counting text marks.now → IsMark counting text result }
{
    match marks.get(at / STRIDE) {
        Some(mark) if mark.offset <= at => *mark,
        _ => Mark {
            offset: 0,
            spot: Spot::start(),
        },
    }
}

fn spot_from(counting: Counting, spot: Spot, bytes: &[u8]) -> Spot
    ensures { result ≡ fold (after_byte counting) spot bytes.now }
{
    let mut spot = spot;
    for byte in bytes {
        spot = spot.after_byte(counting, *byte);
    }
    spot
}

fn position_at(counting: Counting, text: &[u8], marks: &[Mark], offset: usize) -> Position
    requires { AreMarks counting text.now marks.now }
    ensures { result ≡ position_at counting text.now offset }
{
    let at = offset.min(text.len());
    let mark = mark_before(marks, at);
    let between = &text[mark.offset..at];
    spot_from(counting, mark.spot, between).position()
}

/// The range of an extent.
pub(crate) fn range_of(counting: Counting, text: &[u8], marks: &[Mark], extent: Extent) -> Range
    requires { AreMarks counting text.now marks.now }
    ensures { result ≡ range_of counting text.now extent }
{
    Range {
        start: position_at(counting, text, marks, extent.from),
        end: position_at(counting, text, marks, extent.to),
    }
}
