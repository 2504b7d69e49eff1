// Ranges of places that diagnostics tell.
ghost use Rattle.std.specs.Prelude.{◌≡◌, ◌≤◌, length};
ghost use Rattle.std.specs.List.{prefix_len};
ghost use Rattle.al_base.specs.Identifiers.{is_word_byte};
ghost use Rattle.al_lsp.specs.Places.{mark_len, place_offset, word_len, range_from, range_at};

use crate::edit::Range;
use crate::offset::offset_of;
use crate::position::{Counting, Position, position_of};
use al_base::{Place, is_word_byte};

// How many bytes the mark EF BB BF at the head of a text has, if it is there.
fn mark_len(text: &[u8]) -> usize
    ensures value { result ≡ mark_len text.now }
    ensures within { result ≤ length text.now }
{
    match text {
        [0xEF, 0xBB, 0xBF, ..] => 3,
        _ => 0,
    }
}

// How many bytes are before a place.
fn place_offset(text: &[u8], place: Place) -> usize
    ensures value { result ≡ place_offset text.now place }
    ensures within { result ≤ length text.now }
{
    let mark = mark_len(text);
    let position = Position {
        line: u64::from(place.line.saturating_sub(1)),
        column: u64::from(place.col.saturating_sub(1)),
    };
    mark + offset_of(Counting::Lexer, &text[mark..], position)
}

// How many bytes the word in front has.
fn word_bytes(text: &[u8]) -> usize
    ensures { result ≡ prefix_len is_word_byte text.now }
{
    for (i, byte) in text.iter().enumerate() {
        if !is_word_byte(*byte) {
            return i;
        }
    }
    text.len()
}

fn range_from(counting: Counting, text: &[u8], from: usize) -> Range
    requires { from ≤ length text.now }
    ensures { result ≡ range_from counting text.now from }
{
    let len = word_bytes(&text[from..]).max(1);
    Range {
        start: position_of(counting, text, from),
        end: position_of(counting, text, from.saturating_add(len)),
    }
}

/// The range of the word at a place, or of one byte where there is no word.
pub fn range_at(counting: Counting, text: &[u8], place: Place) -> Range
    ensures { result ≡ range_at counting text.now place }
{
    range_from(counting, text, place_offset(text, place))
}
