//! Labelled trees: a unit as its check leaves it for its code, with a declaration and a type for each name, operator and literal.
//!
//! A *label* of an expression is its type, its place, the words of its value, and its value if it is static. A value is *checked*
//! if it is held against a range. A *frame* is the words of a body that runs, numbered from 3 on, its parameters first.
//!
//! - `label`, `expression`: expressions, names and calls.
//! - `statement`, `declaration`: statements, and declarations that do something when they are elaborated.
//! - `unit`: bodies, and a unit with the words of its objects, flags and protected objects.
#![tactic(auto)]

mod declaration;
mod expression;
mod label;
mod statement;
mod unit;

pub use declaration::{ComponentValue, DeclarationForm, TypedDeclaration};
pub use expression::{Actual, Callee, CheckedValue, Form, Typed, TypedCall, TypedName};
pub use label::{BinaryOperator, Conversion, ExpressionType, Labels, ShortCircuit, UnaryOperator};
pub use statement::{Alternative, Branch, LoopScheme, Piece, StatementForm, TypedStatement};
pub use unit::{
    BodyKind, DataPlace, Elaboration, EntryOf, FormalWords, ProtectedWords, TypedBody, TypedUnit,
};
