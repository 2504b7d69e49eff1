// The places of stored answers.

/// The place of a stored answer: the key of an entry, and the answer's place in the entry's log.
#[derive(Clone, Copy, PartialEq, Eq, PartialOrd, Ord)]
pub struct Place {
    /// The key of the entry.
    pub entry: usize,
    /// The place in the entry's log, from 0.
    pub at: usize,
}
