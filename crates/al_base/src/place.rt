// The places of things in a source.

/// A line and a column, both from 1. A column counts bytes (ARM 2.2 leaves the count of lines to the implementation).
#[derive(Clone, Copy, PartialEq, Eq, PartialOrd, Ord)]
pub struct Place {
    /// The line, from 1.
    pub line: u32,
    /// The column, from 1, in bytes.
    pub col: u32,
}

/// A piece of a source.
#[derive(Clone, Copy)]
pub struct Span {
    /// How many bytes of the source come before it.
    pub start: u32,
    /// How many bytes it has.
    pub len: u32,
    /// The place of its first byte.
    pub place: Place,
}
