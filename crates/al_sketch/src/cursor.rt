// Cutting a source into lexemes.
use crate::lexeme::{Lexeme, LexemeKind};
use al_base::{is_word_byte, reserved_word};

/// A place in a source.
#[derive(Clone, Copy)]
pub struct Cursor {
    pub at: usize,
    line: u32,
    /// Where the line begins.
    line_start: usize,
}

/// What begins at a place.
#[derive(Clone, Copy)]
enum Piece {
    /// A space, a tab or a comment, which ends there.
    Gap(usize),
    /// A line end, which ends there.
    LineEnd(usize),
    Lexeme(LexemeKind, usize),
}

impl Cursor {
    /// The beginning of a source; a byte order mark counts in no column.
    pub fn front(text: &[u8]) -> Cursor {
        let at = match text {
            [0xef, 0xbb, 0xbf, ..] => 3,
            _ => 0,
        };
        Cursor {
            at,
            line: 1,
            line_start: at,
        }
    }

    /// What begins here, if it is a lexeme, and the place behind it.
    pub fn step(self, text: &[u8]) -> (Option<Lexeme>, Cursor) {
        match piece_at(text, self.at) {
            Piece::Gap(end) => (None, Cursor { at: end, ..self }),
            Piece::LineEnd(end) => (
                None,
                Cursor {
                    at: end,
                    line: self.line.saturating_add(1),
                    line_start: end,
                },
            ),
            Piece::Lexeme(kind, end) => (Some(self.lexeme(kind, end)), Cursor { at: end, ..self }),
        }
    }

    // The lexeme from here to that end.
    fn lexeme(self, kind: LexemeKind, end: usize) -> Lexeme {
        let col = self.at.saturating_sub(self.line_start).saturating_add(1);
        Lexeme {
            kind,
            start: self.at,
            end,
            line: self.line,
            col: u32::try_from(col).unwrap_or(u32::MAX),
        }
    }
}

fn byte_at(text: &[u8], at: usize) -> u8 {
    text.get(at).copied().unwrap_or(0)
}

fn rest_from(text: &[u8], at: usize) -> &[u8] {
    text.get(at..).unwrap_or(&[])
}

fn piece_at(text: &[u8], at: usize) -> Piece {
    let next = at.saturating_add(1);
    let after = byte_at(text, next);
    match byte_at(text, at) {
        b' ' | b'\t' => Piece::Gap(next),
        b'-' if after == b'-' => Piece::Gap(line_end(text, at)),
        b'\r' if after == b'\n' => Piece::LineEnd(next.saturating_add(1)),
        b'\n' | b'\r' | 0x0b | 0x0c => Piece::LineEnd(next),
        b'"' => Piece::Lexeme(LexemeKind::Text, string_end(text, next)),
        b'0'..=b'9' => Piece::Lexeme(LexemeKind::Number, number_end(text, at)),
        b'a'..=b'z' | b'A'..=b'Z' => word_at(text, at),
        first => delimiter_at(at, first, after),
    }
}

fn is_line_end(byte: u8) -> bool {
    matches!(byte, b'\n' | b'\r' | 0x0b | 0x0c)
}

// Where the line ends in which a place is.
fn line_end(text: &[u8], at: usize) -> usize {
    let mut end = at;
    for byte in rest_from(text, at) {
        if is_line_end(*byte) {
            break;
        }
        end = end.saturating_add(1);
    }
    end
}

// Where a string ends whose opening quote is before this place: behind its quote, or at the end of its line.
fn string_end(text: &[u8], at: usize) -> usize {
    let mut end = at;
    let mut is_quote = false;
    for byte in rest_from(text, at) {
        if is_line_end(*byte) || (is_quote && *byte != b'"') {
            break;
        }
        is_quote = *byte == b'"' && !is_quote;
        end = end.saturating_add(1);
    }
    end
}

// Where a number ends, with its point and its exponent.
fn number_end(text: &[u8], at: usize) -> usize {
    let mut end = at;
    let mut before = 0u8;
    for byte in rest_from(text, at) {
        let is_exponent = matches!(before, b'e' | b'E');
        let goes_on = is_word_byte(*byte)
            || *byte == b'#'
            || (*byte == b'.' && byte_at(text, end.saturating_add(1)).is_ascii_hexdigit())
            || (matches!(*byte, b'+' | b'-') && is_exponent);
        if !goes_on {
            break;
        }
        before = *byte;
        end = end.saturating_add(1);
    }
    end
}

fn word_at(text: &[u8], at: usize) -> Piece {
    let mut end = at;
    for byte in rest_from(text, at) {
        if !is_word_byte(*byte) {
            break;
        }
        end = end.saturating_add(1);
    }
    let word = text.get(at..end).unwrap_or(&[]);
    let kind = match reserved_word(word) {
        Some(_) => LexemeKind::Reserved,
        None => LexemeKind::Identifier,
    };
    Piece::Lexeme(kind, end)
}

fn delimiter_at(at: usize, first: u8, second: u8) -> Piece {
    let is_double = matches!(
        (first, second),
        (b'=', b'>')
            | (b'.', b'.')
            | (b'*', b'*')
            | (b':', b'=')
            | (b'/', b'=')
            | (b'>', b'=')
            | (b'<', b'=')
            | (b'<', b'<')
            | (b'>', b'>')
            | (b'<', b'>')
    );
    if is_double {
        return Piece::Lexeme(LexemeKind::Delimiter, at.saturating_add(2));
    }
    let kind = match first {
        b'&'
        | b'\''
        | b'('
        | b')'
        | b'*'
        | b'+'
        | b','
        | b'-'
        | b'.'
        | b'/'
        | b':'
        | b';'
        | b'<'
        | b'='
        | b'>'
        | b'|' => LexemeKind::Delimiter,
        _ => LexemeKind::Strange,
    };
    Piece::Lexeme(kind, at.saturating_add(1))
}
