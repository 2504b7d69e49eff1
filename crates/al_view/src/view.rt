// Declarations as other units see them.
ghost use Rattle.std.specs.Prelude.{◌≡◌, IfOk};

use crate::priority::Priority;
use crate::row::Seq;
use crate::symbol::Symbol;
use crate::types::{Component, Names, StaticValue, Subtype, Types};
use al_base::{Name, NoMemory};
use std::alloc::{AllocError, Global};
use std::marker::Model;
use std::rc::Rc;

/// A declaration as other units see it. It has no name and no place: its name is the one that was looked up. It holds the
/// definitions of its types, through all components, each once and components first. Those of Standard, which every unit has, it
/// holds only if it is one of them itself.
pub enum ViewKind {
    /// A type (ARM 3.2.1).
    OfType(DeclaredType),
    /// A subtype (ARM 3.2.2).
    OfSubtype(SubtypeView),
    /// A constant or variable, a component of a protected object in its bodies and a formal parameter too (ARM 3.3.1).
    OfObject(ObjectView),
    /// A component of a record or of a protected object inside that one's own declaration: its name is visible there, and
    /// it has no value (ARM 3.8, 9.4). No part of a unit declares one.
    OfComponent,
    /// A named number (ARM 3.3.2).
    OfNumber(StaticValue),
    /// An enumeration literal (ARM 3.5.1(3)).
    OfLiteral(LiteralView),
    /// A subprogram, an operator or an entry (ARM 6.1, 9.5.2).
    OfSubprogram(SubprogramView),
    /// A single task (ARM 9.1).
    OfTask(TaskView),
    /// A single protected object (ARM 9.4).
    OfProtected(ProtectedView),
    /// A package of the library, which other units see only if they mention its name (ARM 10.1.2), by its symbol. No part of a unit
    /// declares one.
    OfPackage(Symbol),
}

impl Drop for ViewKind {
    fn drop(self) {
        match self {
            ViewKind::OfType(_) => {}
            ViewKind::OfSubtype(_) => {}
            ViewKind::OfObject(_) => {}
            ViewKind::OfComponent => {}
            ViewKind::OfNumber(_) => {}
            ViewKind::OfLiteral(_) => {}
            ViewKind::OfSubprogram(_) => {}
            ViewKind::OfTask(_) => {}
            ViewKind::OfProtected(_) => {}
            ViewKind::OfPackage(_) => {}
        }
    }
}

/// The declaration of a type. Other views don't have the names of its literals, so that n literals aren't compared n times.
pub struct DeclaredType {
    /// The types that it is of, itself last.
    pub types: Types,
    /// The names of its literals by position, in lower case, of an enumeration type.
    pub literals: Names,
}

impl Drop for DeclaredType {
    fn drop(self) {
        let DeclaredType {
            types: _,
            literals: _,
        } = self;
    }
}

/// A subtype with the types that it is of.
#[derive(Drop)]
pub struct SubtypeView {
    /// The subtype.
    pub subtype: Subtype,
    /// Its type, and the types of which that is made.
    pub types: Types,
    /// The names of its type's literals by position, in lower case, of an enumeration type.
    pub literals: Names,
}

/// The place of an object or a flag.
pub enum ObjectPlace {
    /// It is in the frame of the body at this depth of nesting, from this word on. The outermost body has depth 1.
    Frame { depth: u32, word: u32 },
    /// It is in the words of a unit that the symbol stands for, from this word of them on. A protected object's symbol stands for
    /// its components in the place of an object, and for its flag in the place of a flag.
    Static { symbol: Symbol, word: u32 },
}

impl Drop for ObjectPlace {
    fn drop(self) {
        match self {
            ObjectPlace::Frame { depth: _, word: _ } => {}
            ObjectPlace::Static { symbol: _, word: _ } => {}
        }
    }
}

impl ObjectPlace {
    /// A copy of the place.
    ///
    /// # Errors
    ///
    /// `NoMemory` if the allocator refuses memory.
    pub fn copy(&self, alloc: Global) -> Result<ObjectPlace, NoMemory>
        ensures { IfOk result (λ copy. copy ≡ self.now) }
    {
        match self {
            ObjectPlace::Frame { depth, word } => Ok(ObjectPlace::Frame {
                depth: *depth,
                word: *word,
            }),
            ObjectPlace::Static { symbol, word } => {
                let symbol = symbol.copy(alloc)?;
                Ok(ObjectPlace::Static {
                    symbol,
                    word: *word,
                })
            }
        }
    }
}

/// An object.
pub struct ObjectView {
    /// Its nominal subtype.
    pub subtype: Subtype,
    /// The type of the subtype, and the types of which that is made.
    pub types: Types,
    /// Whether it is a constant (ARM 3.3(13)).
    pub is_constant: bool,
    /// The value of a static constant (ARM 4.9(24)).
    pub value: Option<StaticValue>,
    /// The place of its words.
    pub place: ObjectPlace,
}

impl Drop for ObjectView {
    fn drop(self) {
        let ObjectView {
            subtype: _,
            types: _,
            is_constant: _,
            value: _,
            place: _,
        } = self;
    }
}

/// An enumeration literal: its type and its position.
pub struct LiteralView {
    /// The symbol of its type.
    pub base: Symbol,
    /// Its type.
    pub types: Types,
    /// Its position, from 0.
    pub position: u32,
}

impl Drop for LiteralView {
    fn drop(self) {
        let LiteralView {
            base: _,
            types: _,
            position: _,
        } = self;
    }
}

/// The mode of a formal parameter (ARM 6.1(16)).
#[derive(Clone, Copy)]
pub enum Mode {
    /// `in`, also if no mode is written.
    In,
    /// `in out`.
    InOut,
    /// `out`.
    Out,
}

/// A formal parameter (ARM 6.1(15)).
pub struct Parameter {
    /// The name in lower case.
    pub name: Name,
    /// The mode (ARM 6.2).
    pub mode: Mode,
    /// The nominal subtype.
    pub subtype: Subtype,
}

impl Drop for Parameter {
    fn drop(self) {
        let Parameter {
            name: _,
            mode: _,
            subtype: _,
        } = self;
    }
}

/// A profile (ARM 6.1(20)).
pub struct Profile {
    /// The formal parameters, in their order.
    pub parameters: Seq<Parameter>,
    /// The result of a function.
    pub result: Option<Subtype>,
}

impl Drop for Profile {
    fn drop(self) {
        let Profile {
            parameters: _,
            result: _,
        } = self;
    }
}

/// What is called, and how.
pub enum CallKind {
    /// A predefined operator (ARM 4.5), with the type that declares it (ARM 3.2.1(9), 3.2.3(6)).
    Operator { of_type: Symbol },
    /// A subprogram that the body at this depth of nesting declares. The outermost body has depth 1; library level is 0.
    Subprogram { depth: u32 },
    /// A subprogram of a predefined unit (ARM A).
    Predefined,
    /// A subprogram of a protected object (ARM 9.5.1).
    Protected,
    /// An entry of a protected object (ARM 9.5.2).
    Entry,
}

impl Drop for CallKind {
    fn drop(self) {
        match self {
            CallKind::Operator { of_type: _ } => {}
            CallKind::Subprogram { depth: _ } => {}
            CallKind::Predefined => {}
            CallKind::Protected => {}
            CallKind::Entry => {}
        }
    }
}

/// A subprogram, an operator or an entry.
pub struct SubprogramView {
    /// The symbol of its declaration.
    pub symbol: Symbol,
    /// Its profile.
    pub profile: Profile,
    /// The types of its profile.
    pub types: Types,
    /// How it is called.
    pub call: CallKind,
    /// The flag that says whether its body is elaborated (ARM 3.11(10)), if it has a declaration of its own.
    pub flag: Option<ObjectPlace>,
}

impl Drop for SubprogramView {
    fn drop(self) {
        let SubprogramView {
            symbol: _,
            profile: _,
            types: _,
            call: _,
            flag: _,
        } = self;
    }
}

/// A single task.
pub struct TaskView {
    /// The symbol of its declaration.
    pub symbol: Symbol,
    /// Its priority (ARM D.1).
    pub priority: Priority,
}

impl Drop for TaskView {
    fn drop(self) {
        let TaskView {
            symbol: _,
            priority: _,
        } = self;
    }
}

/// An operation of a protected object, by its name.
pub struct Operation {
    /// The name in lower case.
    pub name: Name,
    /// The subprogram or entry.
    pub subprogram: SubprogramView,
}

impl Drop for Operation {
    fn drop(self) {
        let Operation {
            name: _,
            subprogram: _,
        } = self;
    }
}

/// A single protected object.
pub struct ProtectedView {
    /// The symbol of its declaration.
    pub symbol: Symbol,
    /// Its operations, in their order.
    pub operations: Seq<Operation>,
    /// Its components, in their order.
    pub components: Seq<Component>,
    /// The types of the components.
    pub types: Types,
    /// Its ceiling (ARM D.3).
    pub ceiling: Priority,
}

impl Drop for ProtectedView {
    fn drop(self) {
        let ProtectedView {
            symbol: _,
            operations: _,
            components: _,
            types: _,
            ceiling: _,
        } = self;
    }
}

/// A view that is shared: a copy costs no more than a count.
pub struct View {
    kind: Rc<ViewKind>,
}

// It is written out so that a crate above drops a value by this one call and needn't prove again how each part is dropped.
impl Drop for View {
    fn drop(self) {
        let View { kind: _ } = self;
    }
}

impl Model for View {
    ghost use Rattle.al_view.specs.declared.view.ViewKind.{ViewKind};

    ghost Value = { ViewKind };

    ghost view = { λ v. v.kind.value };
}

impl View {
    /// A view that can be shared.
    ///
    /// # Errors
    ///
    /// `AllocError` if the allocator refuses memory.
    pub fn new(alloc: Global, kind: ViewKind) -> Result<Self, AllocError>
        ensures { IfOk result (λ view. view ≡ kind) }
    {
        let kind = Rc::new(alloc, kind)?;
        Ok(View { kind })
    }

    /// What is declared.
    pub fn kind(&self) -> &ViewKind
        ensures { result.now ≡ self.now }
    {
        &self.kind
    }

    /// A second holder of the same view. It isn't copied.
    ///
    /// # Errors
    ///
    /// `AllocError` if the allocator refuses memory.
    pub fn share(&self) -> Result<Self, AllocError>
        ensures { IfOk result (λ view. view ≡ self.now) }
    {
        let kind = self.kind.clone()?;
        Ok(View { kind })
    }
}
