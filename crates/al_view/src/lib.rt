//! Declarations as other units see them.
//!
//! A *view* (`View`) is a declaration without its name and place. A *symbol* is what types and code are known by: a unit, a name,
//! and a number among the declarations of that name in the unit. An *interface* is what a part of a unit declares: its names, each
//! with its views. A *part* is the visible part, the private part or the body of a unit, or what comes before a stub.
//!
//! - `view`, `views`, `types`: declarations, and the types and subtypes that they are of.
//! - `interface`, `part`, `homographs`, `operators`: the names of a part, and what may be declared together.
//! - `symbol`, `link`, `unit`: symbols, the symbols of the linker, and keys of units.
//! - `row`, `same`, `same_views`, `priority`: shared lists, equality, and priorities.
#![tactic(auto)]

mod homographs;
mod interface;
mod link;
mod operators;
mod part;
mod priority;
mod row;
mod same;
mod same_views;
mod symbol;
mod types;
mod unit;
mod view;
mod views;

pub use interface::Interface;
pub use link::{LinkKind, LinkSymbol};
pub use part::Part;
pub use priority::Priority;
pub use row::Seq;
pub use same::{Same, are_same};
pub use symbol::Symbol;
pub use types::{
    Bounds, Component, Layout, Names, StaticValue, Subtype, TypeDefinition, TypeView, Types,
};
pub use unit::{copied_unit, is_unit};
pub use view::{
    CallKind, DeclaredType, LiteralView, Mode, ObjectPlace, ObjectView, Operation, Parameter,
    Profile, ProtectedView, SubprogramView, SubtypeView, TaskView, View, ViewKind,
};
pub use views::Views;
