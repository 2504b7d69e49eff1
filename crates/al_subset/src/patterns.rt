// By which lexemes round a syntax error a construct is known.
use std::alloc::AllocError;

/// What is round a syntax error.
#[derive(Clone, Copy, PartialEq, Eq)]
pub enum Inside {
    Anywhere,
    /// Behind the end of the source's unit.
    AfterUnit,
    Record,
    Protected,
    ProtectedBody,
    /// In the declaration of a package.
    Package,
    Statements,
    /// Among declarations, outside records and protected objects.
    Declarations,
    /// In the parentheses of a specification.
    Formals,
    /// In parentheses behind a name.
    Call,
    /// In other parentheses of an expression.
    Aggregate,
    /// In a pragma's parentheses.
    Pragma,
    /// In the parentheses behind `array`.
    Index,
}

/// Lexemes round an error, with one space between them: `ID`, `NUM` and `STR` are an identifier, a number and a string, whatever it is, `LONG`
/// is an identifier of several letters, and `BAR` is `|`.
#[derive(Clone, Copy)]
pub struct Pattern {
    pub inside: Inside,
    /// The lexemes right before the error.
    pub before: &'static str,
    /// The lexemes at the error, the wrong one first.
    pub at: &'static str,
    /// The key of a construct, or the note itself for a mistake.
    pub says: &'static str,
}

/// Constructs that the subset doesn't have, a line each: what is round the error, the lexemes before it, those there, the key, with `|`
/// between them. The first that fits counts.
pub const PATTERNS: &str = "AfterUnit||with|wide-units
AfterUnit||use|wide-units
AfterUnit||package|wide-units
AfterUnit||procedure|wide-units
AfterUnit||function|wide-units
AfterUnit||separate|wide-units
AfterUnit||private|wide-units
AfterUnit||pragma|wide-units
Anywhere||generic|generic-units
Anywhere|type ID is|new|derived-types
Anywhere|is|new|generic-instances
Anywhere||package ID is new ada . text_io|text-io-instances
Anywhere||package ID is new text_io|text-io-instances
Anywhere||package ID is new|generic-instances
Anywhere||package ID . ID is new|generic-instances
Anywhere||procedure ID is new|generic-instances
Anywhere||function ID is new|generic-instances
Anywhere||package ID renames|renaming
Anywhere|:|exception|exceptions
Anywhere||exception|exception-handlers
Statements||raise|raise
Anywhere||raise|raise-expressions
Anywhere|'|access|attribute-access
Anywhere||access|access-types
Anywhere||not null|access-types
Anywhere||not null access|access-types
Anywhere|is|tagged|tagged-types
Anywhere|is|interface|interfaces
Anywhere|is|synchronized|interfaces
Anywhere|is|limited interface|interfaces
Anywhere|is|limited|limited-types
Anywhere|is|abstract tagged|tagged-types
Anywhere||tagged|tagged-types
Anywhere|is|abstract|abstract
Anywhere|is|mod|modular-types
Anywhere|is|digits|floating-point
Anywhere|is|delta|fixed-point
Anywhere||digits|floating-point
Anywhere||delta|fixed-point
Record||:=|component-defaults
Formals||:=|parameter-defaults
Anywhere|entry ID|( ID )|entry-families
Anywhere|entry ID|( for|entry-families
Anywhere|entry ID|( ID ..|entry-families
Anywhere|entry ID|( NUM|entry-families
Anywhere|entry ID|(|entry-parameters
Pragma||=>|pragma-arguments
Call||=>|named-parameters
Aggregate||=>|named-aggregates
Aggregate|,|others|array-aggregates
Call|,|others|array-aggregates
Aggregate||others|array-aggregates
Call||..|slices
Call||range|slices
Aggregate||..|aggregate-ranges
Aggregate||BAR|aggregate-ranges
Call||BAR|membership-choices
Anywhere||renames|renaming
Anywhere|use|all|use-all-type
Anywhere|return ID|:|extended-return
Anywhere|.|all|dereference
Anywhere||new|allocators
Anywhere|for ID|of|for-of
Anywhere|for ID|:|for-of
Anywhere|type ID|(|discriminants
Record||case|variant-parts
Anywhere|type ID|;|incomplete-types
Anywhere|range ID range|<>|unconstrained-arrays
Index||<>|unconstrained-arrays
Anywhere||<>|unconstrained-arrays
Index||,|multi-dimensional
Anywhere|package body ID is|separate|package-stubs
Anywhere|task body ID is|separate|package-stubs
Anywhere|protected body ID is|separate|package-stubs
Anywhere|)|package|package-stubs
Anywhere|)|task|package-stubs
Anywhere|)|protected|package-stubs
Anywhere||overriding|overriding
Anywhere||not overriding|overriding
Anywhere||goto|goto
Anywhere||<<|goto
Anywhere||accept|rendezvous
Anywhere||select|select
Anywhere||abort|abort
Anywhere||requeue|requeue
Anywhere||terminate|terminate
Anywhere|task|type|task-types
Anywhere|protected|type|protected-types
Anywhere|task ID|is|task-entries
Aggregate||if|if-expressions
Call||if|if-expressions
Aggregate||case|case-expressions
Call||case|case-expressions
Aggregate||for|quantified
Call||for|quantified
Aggregate||declare|declare-expressions
Call||declare|declare-expressions
Anywhere|delay||relative-delays
Anywhere||aliased|aliased
Anywhere|function|STR|operator-functions
Anywhere|STR|(|operator-calls
Anywhere|pragma priority (||pragma-priority
Pragma|||pragma-arguments
Statements||pragma|pragmas-inside
Protected||pragma priority|pragma-priority
Protected||pragma attach_handler|interrupts
Protected||pragma interrupt_priority|interrupts
Protected||pragma interrupt_handler|interrupts
Protected||pragma|pragmas-inside
ProtectedBody||pragma|pragmas-inside
Record||pragma|pragmas-inside
Declarations||for ID use record|record-representation
Declarations||for|representation
Protected||for|representation
Record||at|record-representation
Anywhere|function ID return ID is|(|expression-functions
Anywhere|is|(|expression-functions
Anywhere|is|null|null-procedures
Anywhere||is (|expression-functions
Anywhere||is null|null-procedures
Anywhere||is abstract|abstract
Anywhere||limited with|limited-with
Anywhere|private|with|limited-with
Anywhere|with|procedure|formal-subprograms
Anywhere||with attach_handler|interrupts
Anywhere||with interrupt_handler|interrupts
Anywhere||with interrupt_priority|interrupts
Anywhere|with interrupt_priority|;|interrupts
Anywhere|subtype ID is ID|with|aspects
Anywhere||with|aspects
Anywhere|task ID with ID|;|aspects
Anywhere|with ID|;|aspects
Anywhere|with ID|is|aspects
Anywhere|with ID|is|aspects
Anywhere|in NUM|BAR|membership-choices
Statements||BAR|membership-choices
Anywhere|: string|(|string-types
Anywhere|: constant string|(|string-types
Anywhere|: ID|(|index-constraints
Anywhere|: constant ID|(|index-constraints
Anywhere|. ID|(|index-constraints
Anywhere|of ID|(|index-constraints
Anywhere|is ID|(|index-constraints
Anywhere|: in ID|(|index-constraints
Anywhere|range|(|attribute-dimensions
Anywhere||entry|entries-outside
ProtectedBody||ID :|nested-objects
ProtectedBody||ID ,|nested-objects
ProtectedBody||type|nested-objects
ProtectedBody||subtype|nested-objects
Declarations||package|nested-packages
Statements||package|nested-packages
Anywhere||' ID '|character-literals
Anywhere||' NUM '|character-literals
Anywhere||'|character-literals
Anywhere||null record|null-aggregates
Anywhere|:=|null|null-access
Anywhere|=|null|null-access
Anywhere|/=|null|null-access
Aggregate||null|null-access
Call||null|null-access
Anywhere|return|null|null-access
";

/// What isn't Ada, and is often written, in the same form, with the note itself at the end.
pub const MISTAKES: &str = "Protected||ID :|components come after private
Protected||ID ,|components come after private
Anywhere|of|array|an array's elements are of a type with a name: type Row is array ..
Anywhere|function ID|:|a function's result is written: function F return T
Anywhere|function ID|returns|a function's result is written: function F return T
Anywhere|)|: ID is|a function's result is written: function F (..) return T
Formals|(|)|a subprogram without parameters has no parentheses
Call|(|)|a call without arguments has no parentheses
Anywhere|begin|end|at least one statement is needed here: null;
Anywhere|then|end|at least one statement is needed here: null;
Anywhere|then|else|at least one statement is needed here: null;
Anywhere|then|elsif|at least one statement is needed here: null;
Anywhere|else|end|at least one statement is needed here: null;
Anywhere|loop|end|at least one statement is needed here: null;
Anywhere|=>|when|at least one statement is needed here: null;
Anywhere|=>|end|at least one statement is needed here: null;
Anywhere|: ID|=|an initial value is written :=
Anywhere|: constant ID|=|a value is written :=
Declarations||constant ID|a constant is declared by NAME : constant TYPE := VALUE;
Statements|ID|+ +|there is no ++: write X := X + 1
Anywhere||import|a with clause names a unit, before this one begins: with NAME;
Anywhere||include|a with clause names a unit, before this one begins: with NAME;
Anywhere||class|a record type holds the components, and a package its operations
Anywhere||struct|a record type is written: type T is record .. end record;
Anywhere||until|a loop is left by exit when CONDITION;
AfterUnit||begin|a body's specification ends with is, not with ;
Declarations|ID|:=|statements come after begin
Declarations|; ID|(|statements come after begin
Anywhere|for ID|=|a loop is written for I in 1 .. 3 loop
Anywhere||do|the word is loop
Statements|ID :|ID|declarations come before begin, or in a block: declare .. begin .. end;
Statements|ID :|constant|declarations come before begin, or in a block: declare .. begin .. end;
Statements|ID :|array|declarations come before begin, or in a block: declare .. begin .. end;
Statements|ID|STR|arguments are in parentheses
Anywhere|var||an object is declared by NAME : TYPE := VALUE;
Anywhere|let||an object is declared by NAME : TYPE := VALUE;
Anywhere|const||a constant is declared by NAME : constant TYPE := VALUE;
Statements|ID|= +|there is no =+: write X := X + ..
Statements|ID|= -|there is no =-: write X := X - ..
Statements|ID|=|an assignment is written :=
Statements|)|=|an assignment is written :=
Statements|ID|+ =|there is no +=: write X := X + ..
Statements|ID|- =|there is no -=: write X := X - ..
Anywhere|=|=|equality is written =
Statements||<>|not equal is written /=
Anywhere|type ID is|NUM|an integer type is written: type T is range 1 .. 10
Anywhere||/ /|a comment begins with --, and ends with its line
Anywhere||/ *|a comment begins with --, and ends with its line
Anywhere||' LONG|a string is in double quotes: \"..\"
Package||is begin|a package's declaration has no bodies: they are in its body, package body NAME is, in a file of their own
Package||is ID|a package's declaration has no bodies: they are in its body, package body NAME is, in a file of their own
Package||is procedure|a package's declaration has no bodies: they are in its body, package body NAME is, in a file of their own
Package||is function|a package's declaration has no bodies: they are in its body, package body NAME is, in a file of their own
Package||is type|a package's declaration has no bodies: they are in its body, package body NAME is, in a file of their own
Anywhere|&|&|a condition joins by and then
Anywhere|BAR|BAR|a condition joins by or else
Anywhere|elseif||the word is elsif
Anywhere|elif||the word is elsif
Anywhere|and|or|operators of two kinds need parentheses: (A and B) or C (ARM 4.4)
Anywhere|or|and|operators of two kinds need parentheses: (A or B) and C (ARM 4.4)
Anywhere||or|operators of two kinds need parentheses: (A and B) or C (ARM 4.4)
Anywhere||and|operators of two kinds need parentheses: A and (B or C) (ARM 4.4)
Anywhere||xor|operators of two kinds need parentheses (ARM 4.4)
Anywhere|**|-|a negative exponent isn't there for integers
";

/// Adds the patterns of a table.
///
/// # Errors
///
/// `AllocError` if memory runs out.
pub fn add_patterns(table: &'static str, patterns: &mut Vec<Pattern>) -> Result<(), AllocError> {
    for line in table.split('\n') {
        if let Some(pattern) = pattern_in(line) {
            patterns.push(pattern)?;
        }
    }
    Ok(())
}

// The pattern that a line tells.
fn pattern_in(line: &'static str) -> Option<Pattern> {
    let (inside, rest) = line.split_once('|')?;
    let (before, rest) = rest.split_once('|')?;
    let (at, says) = rest.split_once('|')?;
    Some(Pattern {
        inside: inside_named(inside),
        before,
        at,
        says,
    })
}

fn inside_named(word: &str) -> Inside {
    match word {
        "AfterUnit" => Inside::AfterUnit,
        "Record" => Inside::Record,
        "Protected" => Inside::Protected,
        "ProtectedBody" => Inside::ProtectedBody,
        "Package" => Inside::Package,
        "Statements" => Inside::Statements,
        "Declarations" => Inside::Declarations,
        "Formals" => Inside::Formals,
        "Call" => Inside::Call,
        "Aggregate" => Inside::Aggregate,
        "Pragma" => Inside::Pragma,
        "Index" => Inside::Index,
        _ => Inside::Anywhere,
    }
}
