// What the linker places.
use crate::symbol::Symbol;

/// What of a declaration the linker places.
#[derive(Clone, Copy, PartialEq, Eq, PartialOrd, Ord, Hash)]
pub enum LinkKind {
    /// The beginning of the code of a subprogram's or a task's body.
    Code,
    /// The beginning of the gate of an entry, which is what its callers call (ARM 9.5.2, 9.5.3).
    Gate,
    /// The beginning of the code of an entry's body.
    EntryBody,
    /// The word that says whether the body of a subprogram or of a protected object is elaborated (ARM 3.11(10)).
    Flag,
    /// The first word of an object, of a protected one the first word of its components.
    Data,
    /// The number of a protected object.
    Protected,
}

/// A symbol for the linker: a subprogram has code and may have a flag too, and both have the one declaration's symbol.
#[derive(PartialEq, Eq, PartialOrd, Ord, Hash)]
pub struct LinkSymbol {
    /// The declaration that it is for.
    pub symbol: Symbol,
    /// Which of the places of the declaration it is for.
    pub kind: LinkKind,
}

impl Drop for LinkSymbol {
    fn drop(self) {
        let LinkSymbol { symbol: _, kind: _ } = self;
    }
}
