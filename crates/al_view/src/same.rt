// Whether two values are the same.
ghost use Rattle.std.specs.Prelude.{◌≡◌, ◌↔◌, IsTrue};

use crate::row::Seq;
use crate::symbol::Symbol;
use crate::types::{Bounds, Component, Layout, Names, Subtype, TypeDefinition, TypeView};
use crate::unit::is_unit;
use al_base::{Name, UnitKey};

/// Values that can be compared. Two of them are the same if their models are equal.
pub trait Same {
    /// Whether the two are equal.
    fn is_same(&self, other: &Self) -> bool
        ensures { IsTrue result ↔ (self.now ≡ other.now) };
}

impl Same for Name {
    fn is_same(&self, other: &Name) -> bool {
        self.as_slice() == other.as_slice()
    }
}

impl Same for UnitKey {
    fn is_same(&self, other: &UnitKey) -> bool {
        is_unit(self, other)
    }
}

impl Same for Symbol {
    fn is_same(&self, other: &Symbol) -> bool {
        self.is(other)
    }
}

impl Same for u32 {
    fn is_same(&self, other: &u32) -> bool {
        *self == *other
    }
}

impl Same for Bounds {
    fn is_same(&self, other: &Bounds) -> bool {
        self.low == other.low && self.high == other.high
    }
}

impl<T: Same> Same for Option<T> {
    fn is_same(&self, other: &Option<T>) -> bool {
        match (self, other) {
            (Some(value), Some(other)) => value.is_same(other),
            (None, None) => true,
            _ => false,
        }
    }
}

impl<T: Same + Drop> Same for Seq<T> {
    fn is_same(&self, other: &Seq<T>) -> bool {
        are_same(self.as_slice(), other.as_slice())
    }
}

/// Whether two lists have the same items.
pub fn are_same<T: Same>(items: &[T], others: &[T]) -> bool
    ensures { IsTrue result ↔ (items.now ≡ others.now) }
{
    if items.len() != others.len() {
        return false;
    }
    for i in 0..items.len() {
        if !items[i].is_same(&others[i]) {
            return false;
        }
    }
    true
}

impl Same for Subtype {
    fn is_same(&self, other: &Subtype) -> bool {
        self.base.is_same(&other.base) && self.bounds.is_same(&other.bounds)
    }
}

impl Same for Component {
    fn is_same(&self, other: &Component) -> bool {
        self.name.is_same(&other.name) && self.subtype.is_same(&other.subtype)
    }
}

impl Same for TypeDefinition {
    fn is_same(&self, other: &TypeDefinition) -> bool {
        match (self, other) {
            (TypeDefinition::Integer(bounds), TypeDefinition::Integer(others)) => {
                bounds.is_same(others)
            }
            (
                TypeDefinition::Enumeration { literals },
                TypeDefinition::Enumeration { literals: others },
            ) => *literals == *others,
            (
                TypeDefinition::Array { index, component },
                TypeDefinition::Array {
                    index: other,
                    component: others,
                },
            ) => index.is_same(other) && component.is_same(others),
            (TypeDefinition::Record(components), TypeDefinition::Record(others)) => {
                components.is_same(others)
            }
            (TypeDefinition::Time, TypeDefinition::Time) => true,
            (TypeDefinition::Private, TypeDefinition::Private) => true,
            _ => false,
        }
    }
}

impl Same for Layout {
    fn is_same(&self, other: &Layout) -> bool {
        match (self, other) {
            (Layout::Scalar, Layout::Scalar) => true,
            (
                Layout::Array { component, words },
                Layout::Array {
                    component: other,
                    words: others,
                },
            ) => *component == *other && *words == *others,
            (
                Layout::Record { offsets, words },
                Layout::Record {
                    offsets: other,
                    words: others,
                },
            ) => offsets.is_same(other) && *words == *others,
            (Layout::Words(words), Layout::Words(others)) => *words == *others,
            _ => false,
        }
    }
}

impl Same for Names {
    fn is_same(&self, other: &Names) -> bool {
        are_same(self.as_slice(), other.as_slice())
    }
}

impl Same for TypeView {
    fn is_same(&self, other: &TypeView) -> bool {
        self.symbol.is_same(&other.symbol)
            && self.definition.is_same(&other.definition)
            && self.layout.is_same(&other.layout)
    }
}
