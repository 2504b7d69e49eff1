// The parts of a name after its object: `A (I).B` has an index and a component after `A`.
ghost use Rattle.std.specs.Prelude.{◌≡◌, ℕ, ◌++◌, IfOk};
ghost use Rattle.al_view.specs.declared.link.LinkKind.TheVariants.{Data};
ghost use Rattle.al_code.specs.Parts.{ArePartsBelow, parted_code};
ghost use Rattle.al_code.specs.ExprPieces.{place_code};
ghost use Rattle.al_code.specs.Templates.{address_of};
ghost use Rattle.al_view_typed.specs.ExpressionViews.{name_model};

use al_base::NoMemory;
use al_view::{Bounds, ObjectPlace};
use al_view_typed::{Typed, TypedName};
use std::alloc::Global;

/// A step from the address of an object, or of a part of one, to the address of a component.
#[derive(Drop)]
pub(crate) enum Part<'a> {
    /// To a selected component, which begins at this word of its record.
    Selected(u32),
    /// To an indexed component with so many words, of an array whose index has these bounds.
    Indexed(&'a Typed, &'a Bounds, u32),
}

/// A name: its object, and the steps from there to the component that it names. The last step of the source comes first.
#[derive(Drop)]
pub(crate) struct Parts<'a> {
    pub(crate) object: &'a ObjectPlace,
    pub(crate) parts: Vec<Part<'a>>,
}

/// The object and the steps of a name.
#[tactic(auto, using(al_view_typed::proofs::ExpressionsMade::object_made))]
pub(crate) fn parts_of(alloc: Global, name: &TypedName) -> Result<Parts<'_>, NoMemory>
    ensures code { IfOk result (λ p. (depth : ℕ) → place_code Data depth p.object.now ++ parted_code depth p.parts.items ≡ address_of depth (name_model name.now)) }
    ensures below { IfOk result (λ p. ArePartsBelow name.now p.parts.items) }
{
    let mut parts = Vec::new(alloc);
    let mut rest = name;
    loop {
        rest = match rest {
            TypedName::Object { place, .. } => {
                return Ok(Parts {
                    object: place,
                    parts,
                });
            }
            TypedName::Component { whole, offset } => {
                parts.push(Part::Selected(*offset))?;
                whole
            }
            TypedName::Indexed {
                array,
                index,
                bounds,
                words,
            } => {
                parts.push(Part::Indexed(index, bounds, *words))?;
                array
            }
        };
    }
}
