// What a source is cut into.
ghost use Rattle.std.specs.Prelude.{◌≡◌};
ghost use Rattle.al_lex.specs.declared.token.LexError.TheVariants.{NoMemory};
ghost use Rattle.al_lex.specs.Codes.{number_of};

use crate::delimiter::Delimiter;
use al_base::{Place, ReservedWord, Span};
use std::alloc::{AllocError, AllocFailed};

/// What a lexeme is.
#[derive(Clone, Copy)]
pub enum Kind {
    /// An identifier (ARM 2.3).
    Identifier,
    /// A reserved word (ARM 2.9).
    Reserved(ReservedWord),
    /// A number; `number_value` gives its value.
    Number,
    /// A string with its quotes.
    Str,
    /// A delimiter (ARM 2.2).
    Delimiter(Delimiter),
}

/// A lexeme. Its spelling is the slice of the source that the span names.
#[derive(Clone, Copy)]
pub struct Token {
    /// What sort of lexeme it is.
    pub kind: Kind,
    /// Which bytes of the source it has.
    pub span: Span,
}

/// Which lexical rule is broken.
#[derive(Clone, Copy)]
pub enum LexCode {
    /// No lexeme begins with the byte.
    IllegalCharacter,
    /// Two underscores come together in a word, or one is at its end.
    BadIdentifier,
    /// A number isn't well formed.
    BadNumber,
    /// A number is above 2^63-1.
    NumberTooLarge,
    /// A string isn't ended on its line, or holds a byte that no string may hold.
    BadString,
    /// A word has more than 200 bytes, and no other fault.
    IdentifierTooLong,
}

impl LexCode {
    /// The number of the rule, from 1 to 6.
    pub fn number(self) -> u16
        ensures { result ≡ number_of self }
    {
        match self {
            LexCode::IllegalCharacter => 1,
            LexCode::BadIdentifier => 2,
            LexCode::BadNumber => 3,
            LexCode::NumberTooLarge => 4,
            LexCode::BadString => 5,
            LexCode::IdentifierTooLong => 6,
        }
    }
}

/// The first lexical fault of a source.
#[derive(Clone, Copy)]
pub struct LexFault {
    /// The place at which the faulty lexeme begins.
    pub place: Place,
    /// Which rule is broken.
    pub code: LexCode,
}

/// Why a source has no tokens.
#[derive(Drop)]
pub enum LexError {
    /// The source has this lexical fault.
    Fault(LexFault),
    /// The allocator refused memory.
    NoMemory,
}

impl From<AllocError> for LexError {
    ghost from_gives = { λ _ e. e ≡ NoMemory };

    fn from(_e: AllocError) -> LexError {
        LexError::NoMemory
    }
}

impl<T: Drop> From<AllocFailed<T>> for LexError {
    ghost from_gives = { λ _ e. e ≡ NoMemory };

    fn from(_e: AllocFailed<T>) -> LexError {
        LexError::NoMemory
    }
}

/// What a piece of a source is.
#[derive(Clone, Copy)]
pub(crate) enum Sort {
    /// A space, a tab or a comment.
    Gap,
    LineEnd,
    Lexeme(Kind),
}

/// The piece at the beginning of a source.
#[derive(Clone, Copy)]
pub(crate) struct Piece {
    pub(crate) sort: Sort,
    pub(crate) len: usize,
}
