// What a source declares.

/// What is declared.
#[derive(Clone, Copy, PartialEq, Eq)]
pub enum DeclaredKind {
    Object,
    Constant,
    Number,
    Component,
    Formal,
    LoopParameter,
    Type,
    Subtype,
    Literal,
    Procedure,
    Function,
    Entry,
    Package,
    Task,
    Protected,
    Exception,
}

/// A declaration, or what completes one. Lexemes are named by their numbers in the source, from 0.
#[derive(Clone, Copy)]
pub struct Declared {
    pub kind: DeclaredKind,
    /// The defining name; of a dotted one its last identifier.
    pub name: usize,
    /// The number of the scope round it.
    pub scope: usize,
    /// Whether it is the body of what it names.
    pub is_body: bool,
    /// The mark of its subtype, of a function its result's, of a literal its type: the first lexeme, and the one behind the last.
    pub mark: (usize, usize),
    /// Between its parentheses: the formals of a subprogram, the index of an array, the literals of an enumeration.
    pub formals: (usize, usize),
    /// The first lexeme behind the declaration.
    pub end: usize,
}
