// Lines and columns of a client, both from 0.
ghost use Rattle.std.specs.Prelude.{◌≡◌, ◌<◌, length};
ghost use Rattle.al_lsp.specs.Positions.{columns, ends_line, start, after_byte, spot_after, position_in, position_at, is_within};

/// What columns count, and what ends a line.
#[derive(Clone, Copy, Debug, PartialEq, Eq)]
pub enum Counting {
    /// Bytes; lines end at LF, CR and CR LF.
    Utf8,
    /// Units of UTF-16; the same lines.
    Utf16,
    /// Bytes, as the lexer counts them; lines end at VT and FF too.
    Lexer,
}

/// A line and a column, both from 0.
#[derive(Clone, Copy, Debug, PartialEq, Eq)]
pub struct Position {
    pub line: u64,
    pub column: u64,
}

/// Where a byte is, and whether a CR is right before it.
#[derive(Clone, Copy)]
pub struct Spot {
    pub line: u64,
    pub column: u64,
    pub is_after_cr: bool,
}

fn columns(counting: Counting, byte: u8) -> u64
    ensures { result ≡ columns counting byte }
{
    match counting {
        Counting::Utf8 | Counting::Lexer => 1,
        Counting::Utf16 => match byte {
            0x80..=0xBF => 0,
            0xF0..=0xFF => 2,
            _ => 1,
        },
    }
}

fn ends_line(counting: Counting, byte: u8) -> bool
    ensures { result ≡ ends_line counting byte }
{
    match counting {
        Counting::Utf8 | Counting::Utf16 => byte == b'\n' || byte == b'\r',
        Counting::Lexer => 10 <= byte && byte <= 13,
    }
}

impl Spot {
    /// Before the first byte.
    pub fn start() -> Spot
        ensures { result ≡ start }
    {
        Spot {
            line: 0,
            column: 0,
            is_after_cr: false,
        }
    }

    /// After one more byte.
    pub fn after_byte(self, counting: Counting, byte: u8) -> Spot
        ensures { result ≡ after_byte counting self byte }
    {
        if self.is_after_cr && byte == b'\n' {
            return Spot {
                line: self.line,
                column: self.column,
                is_after_cr: false,
            };
        }
        if ends_line(counting, byte) {
            return Spot {
                line: self.line.saturating_add(1),
                column: 0,
                is_after_cr: byte == b'\r',
            };
        }
        Spot {
            line: self.line,
            column: self.column.saturating_add(columns(counting, byte)),
            is_after_cr: false,
        }
    }

    pub fn position(self) -> Position
        ensures { result ≡ position_in self }
    {
        Position {
            line: self.line,
            column: self.column,
        }
    }
}

impl Position {
    /// Whether it isn't after the other.
    pub fn is_within(self, other: Position) -> bool
        ensures { result ≡ is_within self other }
    {
        self.line < other.line || (self.line == other.line && self.column <= other.column)
    }
}

fn spot_after(counting: Counting, text: &[u8]) -> Spot
    ensures { result ≡ spot_after counting text.now }
{
    let mut spot = Spot::start();
    for byte in text {
        spot = spot.after_byte(counting, *byte);
    }
    spot
}

/// The position before which so many bytes of the text are; its end where there are fewer.
pub fn position_of(counting: Counting, text: &[u8], offset: usize) -> Position
    ensures { result ≡ position_at counting text.now offset }
{
    let before = &text[..offset.min(text.len())];
    spot_after(counting, before).position()
}
