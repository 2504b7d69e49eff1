// What is the same for all terms of a body.
use al_overload::Predefined;
use al_view::Symbol;
use std::alloc::Global;

/// What labels terms: what every unit has, and the protected object in whose bodies the terms are, if any.
pub struct Labeller {
    /// The allocator that trees are made with.
    pub alloc: Global,
    /// What every unit has.
    pub predefined: Predefined,
    /// The symbol of the protected object in whose bodies the terms are, if any.
    pub own: Option<Symbol>,
}

impl Drop for Labeller {
    fn drop(self) {
        let Labeller {
            alloc: _,
            predefined: _,
            own: _,
        } = self;
    }
}
