// What a source is cut into.

/// What a lexeme is.
#[derive(Clone, Copy, PartialEq, Eq)]
pub enum LexemeKind {
    /// An identifier.
    Identifier,
    /// A word that Ada 2012 reserves (ARM 2.9).
    Reserved,
    /// What begins with a digit, with its point and its exponent.
    Number,
    /// A string, to its quote or to the end of its line.
    Text,
    Delimiter,
    /// A byte that begins no lexeme.
    Strange,
}

/// A lexeme, and its place.
#[derive(Clone, Copy)]
pub struct Lexeme {
    pub kind: LexemeKind,
    /// How many bytes of the source are before it.
    pub start: usize,
    /// How many are before what follows it.
    pub end: usize,
    /// From 1, as the lexer counts lines (ARM 2.2).
    pub line: u32,
    /// From 1, in bytes.
    pub col: u32,
}
