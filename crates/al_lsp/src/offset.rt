// How many bytes are before a position.
ghost use Rattle.std.specs.Prelude.{◌≡◌, ◌≤◌, length};
ghost use Rattle.al_lsp.specs.Positions.{offset_at};

use crate::position::{Counting, Position, Spot};

/// How many bytes of the text are before a position. What is past the end of a line is that end, before the bytes that end it; what is past
/// the last line is the end of the text; what is inside a character of UTF-16 is its start.
pub fn offset_of(counting: Counting, text: &[u8], position: Position) -> usize
    ensures value { result ≡ offset_at counting text.now position }
    ensures within { result ≤ length text.now }
{
    let mut spot = Spot::start();
    let mut best = 0;
    for i in 0..text.len() {
        spot = spot.after_byte(counting, text[i]);
        if spot.position().is_within(position) {
            best = i + 1;
        }
    }
    best
}
