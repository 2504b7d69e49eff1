// The extent of a body.
use al_base::Place;
use al_base_fault::Fault;

/// A body from its first token to its `end`: the line of that token, the place of `end`, and what is wrong with the name after it.
#[derive(Clone, Copy)]
pub struct BodyExtent {
    /// The line of its first token.
    pub line: usize,
    /// The place of its `end`.
    pub end: Place,
    /// The fault of the name after `end`.
    pub name_fault: Option<Fault>,
}
