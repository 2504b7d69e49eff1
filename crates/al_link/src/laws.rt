// A law of linking, as the contract of a function without code.
ghost use Rattle.al_link.specs.LinkedParts.{LinksParts};

/// Filling in the operands of an object, wherever its code is in an image, gives the bytes of the same instructions, with operands that count from
/// the places of their symbols. Nothing else changes.
#[tactic(auto, using(crate::proofs::LinkedLemmas::links_parts))]
pub fn links_parts()
    ensures { LinksParts }
{}
