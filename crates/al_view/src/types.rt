// Types and subtypes as other units see them.
ghost use Rattle.std.specs.Prelude.{◌≡◌, IfOk};
ghost use Rattle.std.specs.Option.{option_copied};
ghost use Rattle.al_view.specs.Types.{definition_bounds, layout_words, type_in};

use crate::row::Seq;
use crate::symbol::Symbol;
use al_base::{Name, NoMemory};
use std::alloc::{AllocError, Global};
use std::marker::Model;
use std::rc::Rc;

/// The value of a static expression (ARM 4.9): the word that stands for it. For an enumeration value it is the position.
#[derive(Clone, Copy)]
pub struct StaticValue {
    /// The word, of 64 bits.
    pub word: i64,
}

/// The bounds of a range (ARM 3.5(4)), as words.
#[derive(Clone, Copy)]
pub struct Bounds {
    /// The lower bound.
    pub low: i64,
    /// The upper bound. It is below the lower one in a null range.
    pub high: i64,
}

/// A subtype (ARM 3.2(8)): its type and, of a scalar one, its bounds.
#[derive(Drop)]
pub struct Subtype {
    /// The symbol of its type.
    pub base: Symbol,
    /// The bounds of its range; none if it isn't scalar.
    pub bounds: Option<Bounds>,
}

/// A component of a record or of a protected object (ARM 3.8(3), 9.4).
pub struct Component {
    /// The name in lower case.
    pub name: Name,
    /// The subtype of its values.
    pub subtype: Subtype,
}

impl Drop for Component {
    fn drop(self) {
        let Component {
            name: _,
            subtype: _,
        } = self;
    }
}

/// What a type is defined as.
pub enum TypeDefinition {
    /// An integer type with these bounds (ARM 3.5.4).
    Integer(Bounds),
    /// An enumeration type of so many literals (ARM 3.5.1). Their names are in the views of the type and of its subtypes.
    Enumeration { literals: u32 },
    /// A constrained array type of one dimension (ARM 3.6).
    Array { index: Subtype, component: Subtype },
    /// A record type (ARM 3.8).
    Record(Seq<Component>),
    /// A moment or a span of time (ARM D.8), one word that is never checked against a range.
    Time,
    /// A private type of which only the partial view is seen (ARM 7.3).
    Private,
}

impl Drop for TypeDefinition {
    fn drop(self) {
        match self {
            TypeDefinition::Integer(_) => {}
            TypeDefinition::Enumeration { literals: _ } => {}
            TypeDefinition::Array {
                index: _,
                component: _,
            } => {}
            TypeDefinition::Record(_) => {}
            TypeDefinition::Time => {}
            TypeDefinition::Private => {}
        }
    }
}

/// How the values of a type lie in memory, in words.
pub enum Layout {
    /// A scalar value: one word.
    Scalar,
    /// The components in order, each of so many words.
    Array { component: u32, words: u32 },
    /// The components in order, each from its offset on.
    Record { offsets: Seq<u32>, words: u32 },
    /// A value of so many words, of which no more is known (ARM 7.3).
    Words(u32),
}

impl Drop for Layout {
    fn drop(self) {
        match self {
            Layout::Scalar => {}
            Layout::Array {
                component: _,
                words: _,
            } => {}
            Layout::Record {
                offsets: _,
                words: _,
            } => {}
            Layout::Words(_) => {}
        }
    }
}

/// A type with what it is and how its values lie.
pub struct TypeView {
    /// The symbol of its declaration.
    pub symbol: Symbol,
    /// What kind of type it is.
    pub definition: TypeDefinition,
    /// How its values lie in words.
    pub layout: Layout,
}

impl Drop for TypeView {
    fn drop(self) {
        let TypeView {
            symbol: _,
            definition: _,
            layout: _,
        } = self;
    }
}

impl Subtype {
    /// A copy of the subtype.
    ///
    /// # Errors
    ///
    /// `NoMemory` if the allocator refuses memory.
    pub fn copy(&self, alloc: Global) -> Result<Subtype, NoMemory>
        ensures { IfOk result (λ copy. copy ≡ self.now) }
    {
        let base = self.base.copy(alloc)?;
        Ok(Subtype {
            base,
            bounds: self.bounds,
        })
    }
}

impl TypeDefinition {
    /// The bounds of a scalar type, which are positions if it is an enumeration; none for another type.
    pub fn bounds(&self) -> Option<Bounds>
        ensures { result ≡ definition_bounds self.now }
    {
        match self {
            TypeDefinition::Integer(bounds) => Some(*bounds),
            TypeDefinition::Enumeration { literals } => Some(Bounds {
                low: 0,
                high: i64::from(*literals) - 1,
            }),
            _ => None,
        }
    }
}

impl Layout {
    /// How many words a value takes.
    pub fn words(&self) -> u32
        ensures { result ≡ layout_words self.now }
    {
        match self {
            Layout::Scalar => 1,
            Layout::Array { words, .. } => *words,
            Layout::Record { words, .. } => *words,
            Layout::Words(words) => *words,
        }
    }
}

/// Names that are shared: a copy costs no more than a count.
pub struct Names {
    names: Rc<Seq<Name>>,
}

// It is written out so that a crate above drops a value by this one call and needn't prove again how each part is dropped.
impl Drop for Names {
    fn drop(self) {
        let Names { names: _ } = self;
    }
}

impl Model for Names {
    ghost use Rattle.std.specs.Prelude.{ℕ, List};

    ghost Value = { List (List ℕ) };

    ghost view = { λ n. n.names.value };
}

impl Names {
    /// Names that can be shared, in this order.
    ///
    /// # Errors
    ///
    /// `AllocError` if the allocator refuses memory.
    pub fn new(alloc: Global, names: Seq<Name>) -> Result<Self, AllocError>
        ensures { IfOk result (λ shared. shared ≡ names) }
    {
        let names = Rc::new(alloc, names)?;
        Ok(Names { names })
    }

    /// The names, in their order.
    pub fn as_slice(&self) -> &[Name]
        ensures { result.now ≡ self.now }
    {
        self.names.as_slice()
    }

    /// A second holder of the same names. They aren't copied.
    ///
    /// # Errors
    ///
    /// `AllocError` if the allocator refuses memory.
    pub fn share(&self) -> Result<Self, AllocError>
        ensures { IfOk result (λ names. names ≡ self.now) }
    {
        let names = self.names.clone()?;
        Ok(Names { names })
    }
}

/// Types that are shared: a copy costs no more than a count.
pub struct Types {
    types: Rc<Seq<TypeView>>,
}

// It is written out so that a crate above drops a value by this one call and needn't prove again how each part is dropped.
impl Drop for Types {
    fn drop(self) {
        let Types { types: _ } = self;
    }
}

impl Model for Types {
    ghost use Rattle.std.specs.Prelude.{List};
    ghost use Rattle.al_view.specs.declared.types.TypeView.{TypeView};

    ghost Value = { List TypeView };

    ghost view = { λ t. t.types.value };
}

impl Types {
    /// Types that can be shared, in this order.
    ///
    /// # Errors
    ///
    /// `AllocError` if the allocator refuses memory.
    pub fn new(alloc: Global, types: Seq<TypeView>) -> Result<Self, AllocError>
        ensures { IfOk result (λ shared. shared ≡ types) }
    {
        let types = Rc::new(alloc, types)?;
        Ok(Types { types })
    }

    /// The types, in their order.
    pub fn as_slice(&self) -> &[TypeView]
        ensures { result.now ≡ self.now }
    {
        self.types.as_slice()
    }

    /// The type with this symbol, if it is one of these.
    pub fn find(&self, symbol: &Symbol) -> Option<&TypeView>
        ensures { option_copied result ≡ type_in self.now symbol.now }
    {
        self.as_slice().iter().find(|of| of.symbol.is(symbol))
    }

    /// A second holder of the same types. They aren't copied.
    ///
    /// # Errors
    ///
    /// `AllocError` if the allocator refuses memory.
    pub fn share(&self) -> Result<Self, AllocError>
        ensures { IfOk result (λ types. types ≡ self.now) }
    {
        let types = self.types.clone()?;
        Ok(Types { types })
    }
}
