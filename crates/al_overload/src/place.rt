// The places where terms begin.
ghost use Rattle.std.specs.Prelude.{◌≡◌};
ghost use Rattle.al_overload.specs.Places.{first_place};
ghost use Rattle.al_overload.specs.TermViews.{term_model};

use crate::heads_term::Term;
use al_base::Place;

/// The first token of a term.
#[tactic(auto, using(crate::proofs::TermsMade::number_made, crate::proofs::TermsMade::text_made, crate::proofs::TermsMade::named_made, crate::proofs::TermsMade::selected_made, crate::proofs::TermsMade::applied_made, crate::proofs::TermsMade::bound_made, crate::proofs::TermsMade::length_made, crate::proofs::TermsMade::conversion_made, crate::proofs::TermsMade::qualified_made, crate::proofs::TermsMade::attribute_made, crate::proofs::TermsMade::image_made, crate::proofs::TermsMade::prefixed_made, crate::proofs::TermsMade::infix_made, crate::proofs::TermsMade::concatenation_made, crate::proofs::TermsMade::short_circuit_made, crate::proofs::TermsMade::member_made, crate::proofs::TermsMade::range_member_made, crate::proofs::TermsMade::group_made, crate::proofs::TermsMade::aggregate_made, crate::proofs::TermsMade::others_made, crate::proofs::TermsMade::nothing_made))]
pub fn first_place(term: &Term) -> Place
    ensures { result ≡ first_place (term_model term.now) }
{
    let mut rest = term;
    loop {
        rest = match rest {
            Term::Selected { prefix, .. } => prefix,
            Term::Applied { name, .. } => name,
            Term::Infix { left, .. } => left,
            Term::Concatenation { left, .. } => left,
            Term::ShortCircuit { left, .. } => left,
            Term::Member { value, .. } => value,
            Term::RangeMember { value, .. } => value,
            Term::Number { place, .. } => return *place,
            Term::Text { place, .. } => return *place,
            Term::Named { place, .. } => return *place,
            Term::Bound { place, .. } => return *place,
            Term::Length { place, .. } => return *place,
            Term::Conversion { place, .. } => return *place,
            Term::Qualified { place, .. } => return *place,
            Term::Attribute { place, .. } => return *place,
            Term::Image { place, .. } => return *place,
            Term::Prefixed { place, .. } => return *place,
            Term::Group { place, .. } => return *place,
            Term::Aggregate { place, .. } => return *place,
            Term::Others { place, .. } => return *place,
            Term::Nothing { place } => return *place,
        };
    }
}
