// When a unit that knows another's declaration may ask of its body, for every library. A package and a client that ask each
// other's bodies whether they need one would else have two results that fit.
ghost use Rattle.al_query.specs.BodyLaws.{ActingBodiesAreKnown, BodiesAreHidden};

/// If a package's declaration is there, its body may not be asked by who knows the declaration alone.
pub fn bodies_are_hidden()
    ensures { BodiesAreHidden }
{}

/// If no declaration is there, the body may be asked, as it may act as one (ARM 10.1.4(4)).
pub fn acting_bodies_are_known()
    ensures { ActingBodiesAreKnown }
{}
