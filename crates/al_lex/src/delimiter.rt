// The delimiters.
ghost use Rattle.std.specs.Prelude.{◌≡◌};
ghost use Rattle.al_lex.specs.Delimiters.{double, single};

/// A delimiter of one or two bytes (ARM 2.2(9), 2.2(14)).
#[derive(Clone, Copy)]
pub enum Delimiter {
    /// `&`
    Ampersand,
    /// `'`
    Apostrophe,
    /// `(`
    LeftParenthesis,
    /// `)`
    RightParenthesis,
    /// `*`
    Asterisk,
    /// `+`
    Plus,
    /// `,`
    Comma,
    /// `-`
    Minus,
    /// `.`
    Dot,
    /// `/`
    Slash,
    /// `:`
    Colon,
    /// `;`
    Semicolon,
    /// `<`
    Less,
    /// `=`
    Equal,
    /// `>`
    Greater,
    /// `|`
    VerticalLine,
    /// `=>`
    Arrow,
    /// `..`
    DoubleDot,
    /// `**`
    DoubleAsterisk,
    /// `:=`
    Assign,
    /// `/=`
    NotEqual,
    /// `>=`
    GreaterOrEqual,
    /// `<=`
    LessOrEqual,
    /// `<<`
    LeftLabelBracket,
    /// `>>`
    RightLabelBracket,
    /// `<>`
    Box,
}

/// The delimiter that these two bytes are.
#[tactic(auto, unfolding(crate::specs::Delimiters::double))]
#[inline(always)]
pub(crate) fn double(first: u8, second: u8) -> Option<Delimiter>
    ensures { result ≡ double first second }
{
    match (first, second) {
        (b'=', b'>') => Some(Delimiter::Arrow),
        (b'.', b'.') => Some(Delimiter::DoubleDot),
        (b'*', b'*') => Some(Delimiter::DoubleAsterisk),
        (b':', b'=') => Some(Delimiter::Assign),
        (b'/', b'=') => Some(Delimiter::NotEqual),
        (b'>', b'=') => Some(Delimiter::GreaterOrEqual),
        (b'<', b'=') => Some(Delimiter::LessOrEqual),
        (b'<', b'<') => Some(Delimiter::LeftLabelBracket),
        (b'>', b'>') => Some(Delimiter::RightLabelBracket),
        (b'<', b'>') => Some(Delimiter::Box),
        _ => None,
    }
}

/// The delimiter that this byte is.
#[tactic(auto, unfolding(crate::specs::Delimiters::single))]
#[inline(always)]
pub(crate) fn single(byte: u8) -> Option<Delimiter>
    ensures { result ≡ single byte }
{
    match byte {
        b'&' => Some(Delimiter::Ampersand),
        b'\'' => Some(Delimiter::Apostrophe),
        b'(' => Some(Delimiter::LeftParenthesis),
        b')' => Some(Delimiter::RightParenthesis),
        b'*' => Some(Delimiter::Asterisk),
        b'+' => Some(Delimiter::Plus),
        b',' => Some(Delimiter::Comma),
        b'-' => Some(Delimiter::Minus),
        b'.' => Some(Delimiter::Dot),
        b'/' => Some(Delimiter::Slash),
        b':' => Some(Delimiter::Colon),
        b';' => Some(Delimiter::Semicolon),
        b'<' => Some(Delimiter::Less),
        b'=' => Some(Delimiter::Equal),
        b'>' => Some(Delimiter::Greater),
        b'|' => Some(Delimiter::VerticalLine),
        _ => None,
    }
}
