// A law of the symbols of objects, as the contract of a function without code.
ghost use Rattle.al_engine.specs.Symbols.{EachHasItsTreesSymbols};

/// An object uses only symbols that its labelled tree uses, and defines all that the tree defines.
#[tactic(auto, using(crate::proofs::RebuildObjects::objects_have_their_trees_symbols))]
pub fn objects_have_their_trees_symbols()
    ensures { EachHasItsTreesSymbols }
{}
