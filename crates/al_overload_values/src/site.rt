// The places of expressions.
use al_base::UnitKey;
use al_overload_nodes::Labeller;
use al_scope::Scope;

/// The place of expressions: what is the same for all terms of a body, the regions round the place, and the packages that are mentioned in
/// the unit.
#[derive(Drop)]
pub struct Site<'a> {
    /// What labels the terms of the body.
    pub labeller: &'a Labeller,
    /// The regions round the place.
    pub scope: &'a Scope,
    /// The packages that are mentioned in the unit.
    pub packages: &'a [UnitKey],
}
