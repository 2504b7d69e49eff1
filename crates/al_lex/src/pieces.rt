// The longest piece at the beginning of a source.
ghost use Rattle.std.specs.Prelude.{◌≡◌, ◌≤◌, ◌<◌, IfOk, length, slice_index};
ghost use Rattle.std.specs.List.{prefix_len};
ghost use Rattle.al_lex.specs.Bytes.{is_inside_line};
ghost use Rattle.al_lex.specs.Pieces.{delimiter, front_piece, lone};
ghost use Rattle.al_lex.specs.Delimiters.{single};

use crate::bytes::{is_blank, is_line_end};
use crate::delimiter::{double, single};
use crate::numbers::number;
use crate::strings::body_len;
use crate::token::{Kind, LexCode, Piece, Sort};
use crate::words::word;

fn comment_len(bytes: &[u8]) -> usize
    ensures exact { result ≡ prefix_len is_inside_line bytes.now }
    ensures within { result ≤ length bytes.now }
{
    bytes.iter().take_while(|b| !is_line_end(**b)).count()
}

/// The delimiter that a byte alone is.
#[inline(always)]
fn lone(byte: u8) -> Result<Piece, LexCode>
    ensures { result ≡ lone (single byte) }
{
    match single(byte) {
        Some(delimiter) => Ok(Piece {
            sort: Sort::Lexeme(Kind::Delimiter(delimiter)),
            len: 1,
        }),
        None => Err(LexCode::IllegalCharacter),
    }
}

/// The delimiter at the beginning of a source.
#[inline(always)]
fn delimiter(bytes: &[u8]) -> Result<Piece, LexCode>
    ensures exact { result ≡ delimiter bytes.now }
    ensures within { IfOk result (λ q. q.len ≤ length bytes.now) }
    ensures some { IfOk result (λ q. 0 < q.len) }
{
    match bytes {
        [] => Err(LexCode::IllegalCharacter),
        [b] => lone(*b),
        [b, c, ..] => match double(*b, *c) {
            Some(delimiter) => Ok(Piece {
                sort: Sort::Lexeme(Kind::Delimiter(delimiter)),
                len: 2,
            }),
            None => lone(*b),
        },
    }
}

/// The piece at the beginning of a source that isn't empty.
#[tactic(auto, unfolding(crate::specs::Pieces::front_piece))]
#[inline(always)]
pub(crate) fn front_piece(bytes: &[u8]) -> Result<Piece, LexCode>
    requires { 0 < length bytes.now }
    ensures exact { result ≡ front_piece bytes.now }
    ensures within { IfOk result (λ q. q.len ≤ length bytes.now) }
    ensures some { IfOk result (λ q. 0 < q.len) }
{
    match bytes {
        [b, ..] if is_blank(*b) => Ok(Piece {
            sort: Sort::Gap,
            len: 1,
        }),
        [13, 10, ..] => Ok(Piece {
            sort: Sort::LineEnd,
            len: 2,
        }),
        [b, ..] if is_line_end(*b) => Ok(Piece {
            sort: Sort::LineEnd,
            len: 1,
        }),
        [b'-', b'-', ..] => Ok(Piece {
            sort: Sort::Gap,
            len: comment_len(bytes),
        }),
        [b, ..] if b.is_ascii_alphabetic() => word(bytes),
        [b'"', after @ ..] => match body_len(after) {
            None => Err(LexCode::BadString),
            Some(len) => Ok(Piece {
                sort: Sort::Lexeme(Kind::Str),
                len: 1 + len,
            }),
        },
        [b, ..] if b.is_ascii_digit() => number(bytes),
        _ => delimiter(bytes),
    }
}
