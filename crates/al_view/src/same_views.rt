// Whether two views are the same.
ghost use Rattle.std.specs.Prelude.{◌≡◌, ◌↔◌, IsTrue, slice_get};

use crate::interface::Interface;
use crate::part::Part;
use crate::same::{Same, are_same};
use crate::types::{StaticValue, Types};
use crate::view::{
    CallKind, DeclaredType, LiteralView, Mode, ObjectPlace, ObjectView, Operation, Parameter,
    Profile, ProtectedView, SubprogramView, SubtypeView, TaskView, View, ViewKind,
};
use crate::views::Views;

impl Same for Part {
    fn is_same(&self, other: &Part) -> bool {
        self.is(other)
    }
}

impl Same for StaticValue {
    fn is_same(&self, other: &StaticValue) -> bool {
        self.word == other.word
    }
}

impl Same for Types {
    fn is_same(&self, other: &Types) -> bool {
        are_same(self.as_slice(), other.as_slice())
    }
}

impl Same for DeclaredType {
    fn is_same(&self, other: &DeclaredType) -> bool {
        self.types.is_same(&other.types) && self.literals.is_same(&other.literals)
    }
}

impl Same for SubtypeView {
    fn is_same(&self, other: &SubtypeView) -> bool {
        self.subtype.is_same(&other.subtype)
            && self.types.is_same(&other.types)
            && self.literals.is_same(&other.literals)
    }
}

impl Same for ObjectPlace {
    fn is_same(&self, other: &ObjectPlace) -> bool {
        match (self, other) {
            (
                ObjectPlace::Frame { depth, word },
                ObjectPlace::Frame {
                    depth: other,
                    word: others,
                },
            ) => *depth == *other && *word == *others,
            (
                ObjectPlace::Static { symbol, word },
                ObjectPlace::Static {
                    symbol: other,
                    word: others,
                },
            ) => symbol.is_same(other) && *word == *others,
            _ => false,
        }
    }
}

impl Same for ObjectView {
    fn is_same(&self, other: &ObjectView) -> bool {
        self.subtype.is_same(&other.subtype)
            && self.types.is_same(&other.types)
            && self.is_constant == other.is_constant
            && self.value.is_same(&other.value)
            && self.place.is_same(&other.place)
    }
}

impl Same for LiteralView {
    fn is_same(&self, other: &LiteralView) -> bool {
        self.base.is_same(&other.base)
            && self.types.is_same(&other.types)
            && self.position == other.position
    }
}

impl Same for Mode {
    fn is_same(&self, other: &Mode) -> bool {
        match (self, other) {
            (Mode::In, Mode::In) => true,
            (Mode::InOut, Mode::InOut) => true,
            (Mode::Out, Mode::Out) => true,
            _ => false,
        }
    }
}

impl Same for Parameter {
    fn is_same(&self, other: &Parameter) -> bool {
        self.name.is_same(&other.name)
            && self.mode.is_same(&other.mode)
            && self.subtype.is_same(&other.subtype)
    }
}

impl Same for Profile {
    fn is_same(&self, other: &Profile) -> bool {
        self.parameters.is_same(&other.parameters) && self.result.is_same(&other.result)
    }
}

impl Same for CallKind {
    fn is_same(&self, other: &CallKind) -> bool {
        match (self, other) {
            (CallKind::Operator { of_type }, CallKind::Operator { of_type: other }) => {
                of_type.is_same(other)
            }
            (CallKind::Subprogram { depth }, CallKind::Subprogram { depth: other }) => {
                *depth == *other
            }
            (CallKind::Predefined, CallKind::Predefined) => true,
            (CallKind::Protected, CallKind::Protected) => true,
            (CallKind::Entry, CallKind::Entry) => true,
            _ => false,
        }
    }
}

impl Same for SubprogramView {
    fn is_same(&self, other: &SubprogramView) -> bool {
        self.symbol.is_same(&other.symbol)
            && self.profile.is_same(&other.profile)
            && self.types.is_same(&other.types)
            && self.call.is_same(&other.call)
            && self.flag.is_same(&other.flag)
    }
}

impl Same for TaskView {
    fn is_same(&self, other: &TaskView) -> bool {
        self.symbol.is_same(&other.symbol) && self.priority.level() == other.priority.level()
    }
}

impl Same for Operation {
    fn is_same(&self, other: &Operation) -> bool {
        self.name.is_same(&other.name) && self.subprogram.is_same(&other.subprogram)
    }
}

impl Same for ProtectedView {
    fn is_same(&self, other: &ProtectedView) -> bool {
        self.symbol.is_same(&other.symbol)
            && self.operations.is_same(&other.operations)
            && self.components.is_same(&other.components)
            && self.types.is_same(&other.types)
            && self.ceiling.level() == other.ceiling.level()
    }
}

impl Same for ViewKind {
    fn is_same(&self, other: &ViewKind) -> bool {
        match (self, other) {
            (ViewKind::OfType(view), ViewKind::OfType(other)) => view.is_same(other),
            (ViewKind::OfSubtype(view), ViewKind::OfSubtype(other)) => view.is_same(other),
            (ViewKind::OfObject(view), ViewKind::OfObject(other)) => view.is_same(other),
            (ViewKind::OfComponent, ViewKind::OfComponent) => true,
            (ViewKind::OfNumber(view), ViewKind::OfNumber(other)) => view.is_same(other),
            (ViewKind::OfLiteral(view), ViewKind::OfLiteral(other)) => view.is_same(other),
            (ViewKind::OfSubprogram(view), ViewKind::OfSubprogram(other)) => view.is_same(other),
            (ViewKind::OfTask(view), ViewKind::OfTask(other)) => view.is_same(other),
            (ViewKind::OfProtected(view), ViewKind::OfProtected(other)) => view.is_same(other),
            (ViewKind::OfPackage(symbol), ViewKind::OfPackage(other)) => symbol.is_same(other),
            _ => false,
        }
    }
}

impl Same for View {
    fn is_same(&self, other: &View) -> bool {
        self.kind().is_same(other.kind())
    }
}

impl Same for Views {
    fn is_same(&self, other: &Views) -> bool {
        are_same(self.as_slice(), other.as_slice())
    }
}

/// Whether the i-th names of two interfaces are the same, with the same views.
fn is_same_at(interface: &Interface, other: &Interface, i: usize) -> bool
    ensures { IsTrue result ↔ (slice_get interface.now i ≡ slice_get other.now i) }
{
    match (interface.at(i), other.at(i)) {
        (Some((name, views)), Some((other_name, other_views))) => {
            name == other_name && are_same(views, other_views)
        }
        (None, None) => true,
        _ => false,
    }
}

impl Same for Interface {
    fn is_same(&self, other: &Interface) -> bool {
        if self.len() != other.len() {
            return false;
        }
        for i in 0..self.len() {
            if !is_same_at(self, other, i) {
                return false;
            }
        }
        true
    }
}
