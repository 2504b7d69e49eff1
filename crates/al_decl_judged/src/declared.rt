// What a declaration declares.
use crate::Declaration;
use al_view::Seq;
use al_view_typed::TypedDeclaration;

/// What a declaration declares: its names with their views in source order, and what is done at its place.
#[derive(Drop)]
pub struct Declared {
    /// The names with their views, in source order.
    pub declarations: Seq<Declaration>,
    /// What is done at its place, if anything.
    pub effect: Option<TypedDeclaration>,
}
