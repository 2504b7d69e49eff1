// Units with their labels (ARM 10.1): what there is code for.
ghost use Rattle.std.specs.Prelude.{◌≡◌, nat_le, Some, None, map, option_map, if◌then◌else◌};
ghost use Rattle.al_view_typed.specs.DeclarationTrees.{declaration_model};
ghost use Rattle.al_view_typed.specs.StatementViews.{statement_model};
ghost use Rattle.al_view_typed.specs.UnitTrees.{body_model, elaboration_model, unit_model};

use crate::declaration::TypedDeclaration;
use crate::statement::TypedStatement;
use al_base::UnitKey;
use al_view::{Mode, ObjectPlace, Priority, Seq, Symbol};

/// A formal parameter: its mode (ARM 6.1(16)), and its words from this word of the frame on.
#[derive(Clone, Copy)]
pub struct FormalWords {
    /// The mode.
    pub mode: Mode,
    /// The first of its words in the frame.
    pub word: u32,
    /// How many words it has.
    pub words: u32,
}

/// The entry of a protected object (ARM 9.5.2): the entry, and the component that is its barrier.
pub struct EntryOf {
    /// The symbol of the entry.
    pub entry: Symbol,
    /// The component that is the barrier.
    pub barrier: ObjectPlace,
}

impl Drop for EntryOf {
    fn drop(self) {
        let EntryOf {
            entry: _,
            barrier: _,
        } = self;
    }
}

/// What has a body.
pub enum BodyKind {
    /// A procedure, with the number of words that it copies back: those of its formals of mode `out` and `in out` (ARM 6.3,
    /// 6.4.1(17)).
    Procedure {
        copied: u32,
    },
    /// A function, with the number of words of its result and the line of its `end` (ARM 6.3, 6.5(20)).
    Function {
        words: u32,
        end: usize,
    },
    /// ARM 9.1
    Task,
    /// A procedure of this protected object (ARM 9.5.1), with the object's entry, which it may open, and the number of words
    /// that it copies back.
    ProtectedProcedure {
        object: Symbol,
        entry: Option<EntryOf>,
        copied: u32,
    },
    /// A function of this protected object, with the number of words of its result and the line of its `end`.
    ProtectedFunction {
        object: Symbol,
        words: u32,
        end: usize,
    },
    /// The entry of this protected object (ARM 9.5.2) with its barrier.
    Entry {
        object: Symbol,
        barrier: ObjectPlace,
    },
}

impl Drop for BodyKind {
    fn drop(self) {
        match self {
            BodyKind::Procedure { copied: _ } => {}
            BodyKind::Function { words: _, end: _ } => {}
            BodyKind::Task => {}
            BodyKind::ProtectedProcedure {
                object: _,
                entry: _,
                copied: _,
            } => {}
            BodyKind::ProtectedFunction {
                object: _,
                words: _,
                end: _,
            } => {}
            BodyKind::Entry {
                object: _,
                barrier: _,
            } => {}
        }
    }
}

/// What is done when something is elaborated or called: declarations, then statements, with so many words in its frame beside
/// the parameters. A frame's words are numbered from 3 on, its parameters first.
pub struct Elaboration {
    /// The line of the first token.
    pub line: usize,
    /// How many words the frame has beside the parameters.
    pub frame: u32,
    /// The declarations that do something, in their order.
    pub declarations: Vec<TypedDeclaration>,
    /// The statements, in their order.
    pub statements: Vec<TypedStatement>,
}

impl Drop for Elaboration {
    fn drop(self) {
        let Elaboration {
            line: _,
            frame: _,
            declarations: _,
            statements: _,
        } = self;
    }
}

/// A body: of what, at which depth of nesting, with which parameters. The depth is in how many bodies it lies, itself counted, so 1
/// at library level. The elaboration of a unit has depth 1 too.
pub struct TypedBody {
    /// The symbol of what it is the body of.
    pub symbol: Symbol,
    /// What it is the body of.
    pub kind: BodyKind,
    /// In how many bodies it lies, itself counted.
    pub depth: u32,
    /// The words of its formal parameters.
    pub formals: Seq<FormalWords>,
    /// What is done when it is called.
    pub inside: Elaboration,
}

impl Drop for TypedBody {
    fn drop(self) {
        let TypedBody {
            symbol: _,
            kind: _,
            depth: _,
            formals: _,
            inside: _,
        } = self;
    }
}

/// A symbol, and from which of its unit's words on its object or flag lies.
pub struct DataPlace {
    /// The symbol.
    pub symbol: Symbol,
    /// The first word, counted in its unit.
    pub word: u32,
}

impl Drop for DataPlace {
    fn drop(self) {
        let DataPlace { symbol: _, word: _ } = self;
    }
}

/// The words of a protected object's components (ARM 9.4) in its unit, and its ceiling (ARM D.3), which is 0 to 30. Its flag
/// lies outside of them, so that it can be read without entering the object.
pub struct ProtectedWords {
    /// The symbol of the object.
    pub symbol: Symbol,
    /// The first of its words, counted in its unit.
    pub word: u32,
    /// How many words its components take.
    pub words: u32,
    /// The ceiling.
    pub ceiling: Priority,
}

impl Drop for ProtectedWords {
    fn drop(self) {
        let ProtectedWords {
            symbol: _,
            word: _,
            words: _,
            ceiling: _,
        } = self;
    }
}

/// A unit that is free of faults, as there is code for it.
pub struct TypedUnit {
    /// The unit.
    pub unit: UnitKey,
    /// What is done when it is elaborated (ARM 10.2(9)); none of a subunit.
    pub elaboration: Option<Elaboration>,
    /// Its bodies, in the order of their first tokens.
    pub bodies: Vec<TypedBody>,
    /// How many words its objects, flags and protected objects take.
    pub words: u32,
    /// Its objects, without those in protected objects.
    pub objects: Seq<DataPlace>,
    /// The flags of its subprograms and protected objects.
    pub flags: Seq<DataPlace>,
    /// Its protected objects.
    pub protected_objects: Seq<ProtectedWords>,
}

impl Drop for TypedUnit {
    fn drop(self) {
        let TypedUnit {
            unit: _,
            elaboration: _,
            bodies: _,
            words: _,
            objects: _,
            flags: _,
            protected_objects: _,
        } = self;
    }
}

impl ProtectedWords {
    /// The words of a protected object with this ceiling, if there is such a priority.
    pub fn new(symbol: Symbol, word: u32, words: u32, ceiling: u64) -> Option<ProtectedWords>
        ensures { result ≡ (if nat_le ceiling 30 then Some (record { symbol = symbol; word = word; words = words; ceiling = ceiling }) else None) }
    {
        let ceiling = Priority::new(ceiling)?;
        Some(ProtectedWords {
            symbol,
            word,
            words,
            ceiling,
        })
    }
}

impl Elaboration {
    /// Declarations, then statements.
    #[tactic(auto, unfolding(crate::specs::UnitTrees::elaboration_model))]
    pub fn new(
        line: usize,
        frame: u32,
        declarations: Vec<TypedDeclaration>,
        statements: Vec<TypedStatement>,
    ) -> Elaboration
        ensures { elaboration_model result ≡ record { line = line; frame = frame; declarations = map declaration_model declarations.items; statements = map statement_model statements.items } }
    {
        Elaboration {
            line,
            frame,
            declarations,
            statements,
        }
    }
}

impl TypedBody {
    /// A body.
    #[tactic(auto, unfolding(crate::specs::UnitTrees::body_model))]
    pub fn new(
        symbol: Symbol,
        kind: BodyKind,
        depth: u32,
        formals: Seq<FormalWords>,
        inside: Elaboration,
    ) -> TypedBody
        ensures { body_model result ≡ record { symbol = symbol; kind = kind; depth = depth; formals = formals; inside = elaboration_model inside } }
    {
        TypedBody {
            symbol,
            kind,
            depth,
            formals,
            inside,
        }
    }
}

impl TypedUnit {
    /// A unit with its elaboration and its bodies.
    #[tactic(auto, unfolding(crate::specs::UnitTrees::unit_model))]
    pub fn new(
        unit: UnitKey,
        elaboration: Option<Elaboration>,
        bodies: Vec<TypedBody>,
        words: u32,
        objects: Seq<DataPlace>,
        flags: Seq<DataPlace>,
        protected_objects: Seq<ProtectedWords>,
    ) -> TypedUnit
        ensures { unit_model result ≡ record { unit = unit; elaboration = option_map elaboration_model elaboration; bodies = map body_model bodies.items; words = words; objects = objects; flags = flags; protected_objects = protected_objects } }
    {
        TypedUnit {
            unit,
            elaboration,
            bodies,
            words,
            objects,
            flags,
            protected_objects,
        }
    }
}
