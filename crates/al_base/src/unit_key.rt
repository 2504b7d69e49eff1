// Which unit of a library is meant.
use crate::name::Name;

/// Which part of a program unit a file holds (ARM 10.1.1, 10.1.3).
#[derive(Clone, Copy, PartialEq, Eq, PartialOrd, Ord, Hash)]
pub enum UnitKind {
    /// A library declaration.
    Decl,
    /// A library body.
    Body,
    /// A subunit.
    Sub,
}

/// A unit of a library: its full name in lower case, and which part it is. Units are ordered by name, then by part.
#[derive(Drop, PartialEq, Eq, PartialOrd, Ord, Hash)]
pub struct UnitKey {
    /// The full name in lower case, with dots between its identifiers.
    pub name: Name,
    /// Which part of the unit it is.
    pub kind: UnitKind,
}
