// The scopes round a declaration.

/// What a scope is of.
#[derive(Clone, Copy, PartialEq, Eq)]
pub enum ScopeKind {
    /// The source itself.
    Text,
    Package,
    PackageBody,
    Subprogram,
    Task,
    Protected,
    Entry,
    Record,
    /// A block, an `if`, a `case`, a `loop` or what else `end` closes.
    Block,
}

/// A scope of a source, from the lexeme that opens it to the one behind its `end`.
#[derive(Clone, Copy)]
pub struct Scope {
    pub kind: ScopeKind,
    /// The lexeme of its name; that which opens it where it has none.
    pub name: usize,
    /// The scope round it; its own number at the source's.
    pub parent: usize,
    pub start: usize,
    /// The lexeme after its end; past the last one where it isn't ended.
    pub end: usize,
    /// The `private` of a package's or a protected object's declaration.
    pub private: Option<usize>,
    /// Where its statements begin.
    pub begin: Option<usize>,
}
