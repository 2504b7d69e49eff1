// What a declaration does when it is elaborated (ARM 3.11).
ghost use Rattle.std.specs.Prelude.{◌≡◌, map, option_map};
ghost use Rattle.al_view_typed.specs.DeclarationTrees.{declaration_model, form_model, DeclarationFormTree as forms};
ghost use Rattle.al_view_typed.specs.ExpressionViews.{value_model};

use crate::expression::CheckedValue;
use al_view::{ObjectPlace, Priority, Seq, Symbol};

/// A declaration or body that does something when it is elaborated, with the line of its first token.
pub struct TypedDeclaration {
    /// The line of its first token, from 1.
    pub line: usize,
    /// What is declared.
    pub form: DeclarationForm,
}

impl Drop for TypedDeclaration {
    fn drop(self) {
        let TypedDeclaration { line: _, form: _ } = self;
    }
}

/// The value of components of a protected object that are declared together (ARM 9.4, 3.3.1(7)): each begins at one of these words
/// of the object and has so many words.
pub struct ComponentValue {
    /// The first word of each component, counted from the beginning of the object.
    pub places: Seq<u32>,
    /// How many words each component has.
    pub words: u32,
    /// The value that each is given.
    pub value: CheckedValue,
}

impl Drop for ComponentValue {
    fn drop(self) {
        let ComponentValue {
            places: _,
            words: _,
            value: _,
        } = self;
    }
}

/// What a declaration does.
pub enum DeclarationForm {
    /// Objects of so many words each, with their initial value (ARM 3.3.1); without one they begin with zeros.
    Objects {
        places: Seq<ObjectPlace>,
        words: u32,
        value: Option<CheckedValue>,
    },
    /// A subprogram's declaration: the flag that says whether its body is elaborated begins with no (ARM 3.11(10)). A flag among a
    /// unit's words does so by itself.
    Subprogram(ObjectPlace),
    /// A body or stub of what has a declaration of its own: its body is elaborated from here on (ARM 3.11(10), 10.1.3).
    Elaborated(ObjectPlace),
    /// A single task (ARM 9.1).
    Task {
        symbol: Symbol,
        priority: Priority,
    },
    /// A single protected object (ARM 9.4), with the components that have a value, in order.
    Protected {
        symbol: Symbol,
        values: Vec<ComponentValue>,
    },
}

impl Drop for DeclarationForm {
    fn drop(self) {
        match self {
            DeclarationForm::Objects {
                places: _,
                words: _,
                value: _,
            } => {}
            DeclarationForm::Subprogram(_) => {}
            DeclarationForm::Elaborated(_) => {}
            DeclarationForm::Task {
                symbol: _,
                priority: _,
            } => {}
            DeclarationForm::Protected {
                symbol: _,
                values: _,
            } => {}
        }
    }
}

impl TypedDeclaration {
    /// A declaration with the line of its first token.
    pub fn new(line: usize, form: DeclarationForm) -> TypedDeclaration
        ensures { declaration_model result ≡ record { line = line; form = form_model form } }
    {
        TypedDeclaration { line, form }
    }
}
