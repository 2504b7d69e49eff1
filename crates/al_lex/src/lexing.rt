// The tokens of a source.
ghost use Rattle.std.specs.Prelude.{◌≡◌, ◌≤◌, ◌<◌, ◌+◌, ◌^◌, ◌++◌, [], length, Ok, IfOk, IfErr, OnOk};
ghost use Rattle.al_lex.specs.Tokens.{FaultOf, after, end_place_of, lexed, mark_len, with_token};

use crate::pieces::front_piece;
use crate::token::{LexError, LexFault, Piece, Sort, Token};
use al_base::{Place, Span};
use std::alloc::{AllocError, Global};

/// The place at which a source begins.
const FIRST_PLACE: Place = Place { line: 1, col: 1 };

/// How many bytes the mark EF BB BF takes at the beginning.
fn mark_len(text: &[u8]) -> usize
    ensures exact { result ≡ mark_len text.now }
    ensures within { result ≤ length text.now }
{
    match text {
        [0xEF, 0xBB, 0xBF, ..] => 3,
        _ => 0,
    }
}

/// The place after a piece that is at `place`.
#[inline(always)]
fn after(place: Place, piece: Piece) -> Place
    requires line { place.line + 1 < 2 ^ 32 }
    requires column { place.col + piece.len < 2 ^ 32 }
    ensures { result ≡ after piece.sort piece.len place }
{
    match piece.sort {
        Sort::LineEnd => Place {
            line: place.line + 1,
            col: 1,
        },
        Sort::Gap | Sort::Lexeme(_) => Place {
            line: place.line,
            col: place.col + piece.len as u32,
        },
    }
}

/// Adds the token, if the piece is a lexeme, and gives the place after the piece.
#[inline(always)]
fn note(
    tokens: &mut Vec<Token>,
    piece: Piece,
    start: usize,
    place: Place,
) -> Result<Place, AllocError>
    requires token { start + piece.len < 2 ^ 32 }
    requires line { place.line + 1 < 2 ^ 32 }
    requires column { place.col + piece.len < 2 ^ 32 }
    ensures tokens { OnOk result (tokens.new.items ≡ tokens.old.items ++ with_token piece.sort start piece.len place []) }
    ensures place { IfOk result (λ p. p ≡ after piece.sort piece.len place) }
{
    let Sort::Lexeme(kind) = piece.sort else {
        return Ok(after(place, piece));
    };
    tokens.push(Token {
        kind,
        span: Span {
            start: start as u32,
            len: piece.len as u32,
            place,
        },
    })?;
    Ok(after(place, piece))
}

/// The lexemes of the source, or its first fault (ARM 2.1 to 2.9).
///
/// Each lexeme is the longest that begins where the one before and the separators after it end. The mark EF BB BF is skipped at the
/// beginning. Lines and columns count from 1, columns in bytes, the mark uncounted. So many bytes have places whose numbers are
/// below 2^32.
///
/// # Errors
///
/// `Fault` names the first lexeme that is malformed, or the first byte that begins none; `NoMemory` that there was no room for the
/// tokens.
pub fn lex(alloc: Global, text: &[u8]) -> Result<Vec<Token>, LexError>
    requires { length text.now ≤ 4294967294 }
    ensures tokens { IfOk result (λ tokens. lexed text.now ≡ Ok tokens.items) }
    ensures fault { IfErr result (λ e. FaultOf e text.now) }
{
    let mut tokens = Vec::new(alloc);
    let mut place = FIRST_PLACE;
    let mut start = mark_len(text);
    let (_, mut rest) = text.split_at(start);
    while !rest.is_empty() {
        let piece = match front_piece(rest) {
            Ok(piece) => piece,
            Err(code) => return Err(LexError::Fault(LexFault { place, code })),
        };
        place = note(&mut tokens, piece, start, place)?;
        start += piece.len;
        (_, rest) = rest.split_at(piece.len);
    }
    Ok(tokens)
}

/// The place after the last byte of a source, or of its first lexical fault.
pub fn end_place(text: &[u8]) -> Place
    requires { length text.now ≤ 4294967294 }
    ensures { result ≡ end_place_of text.now }
{
    let mut place = FIRST_PLACE;
    let (_, mut rest) = text.split_at(mark_len(text));
    while !rest.is_empty() {
        let Ok(piece) = front_piece(rest) else {
            return place;
        };
        place = after(place, piece);
        (_, rest) = rest.split_at(piece.len);
    }
    place
}
