// The prefixes of attributes (ARM 4.1.4).
ghost use Rattle.std.specs.Prelude.{◌≡◌, IfOk, map, option_map};
ghost use Rattle.al_overload.specs.Parts.{nominal};
ghost use Rattle.al_overload.specs.TermViews.{term_model, terms_of};
ghost use Rattle.al_overload_readings.specs.Attributes.{array_of, index_view, is_indexed_by_one, is_one, mark_prefix, name_prefix, part_prefix, scalar_prefix, term_prefix};

use al_base::NoMemory;
use al_overload::{Term, how_indexed, is_scalar_type, part_of};
use al_view::{Bounds, Subtype, SubtypeView, Symbol, Types};
use al_view_predefined::{StandardTypes, no_names};
use std::alloc::Global;

/// What an attribute is applied to.
#[derive(Drop)]
pub enum Prefix {
    /// A scalar subtype.
    Scalar(SubtypeView),
    /// An array or an array subtype: the subtype of its index, and the bounds of that.
    Array(SubtypeView, Bounds),
    /// What has no attributes.
    Other,
}

/// The subtype of an array's index with its bounds.
fn index_view(
    alloc: Global,
    types: &Types,
    index: &Symbol,
    bounds: Bounds,
) -> Result<SubtypeView, NoMemory>
    ensures { IfOk result (λ view. view ≡ index_view types.now index.now bounds) }
{
    let base = index.copy(alloc)?;
    let types = types.share()?;
    let literals = no_names(alloc)?;
    Ok(SubtypeView {
        subtype: Subtype {
            base,
            bounds: Some(bounds),
        },
        types,
        literals,
    })
}

fn array_of(
    alloc: Global,
    standard: &StandardTypes,
    types: &Types,
    of: &Symbol,
) -> Result<Option<Prefix>, NoMemory>
    ensures { IfOk result (λ prefix. prefix ≡ array_of types.now of.now) }
{
    match how_indexed(standard, types, of) {
        Some(by) => {
            let index = index_view(alloc, types, by.index, by.bounds)?;
            Ok(Some(Prefix::Array(index, by.bounds)))
        }
        None => Ok(None),
    }
}

fn scalar_prefix(standard: &StandardTypes, mark: SubtypeView) -> Prefix
    ensures { result ≡ scalar_prefix mark }
{
    if is_scalar_type(standard, &mark.types, &mark.subtype.base) {
        Prefix::Scalar(mark)
    } else {
        Prefix::Other
    }
}

/// What a type or a subtype is as a prefix.
#[tactic(auto, unfolding(crate::specs::Attributes::mark_prefix))]
fn mark_prefix(
    alloc: Global,
    standard: &StandardTypes,
    mark: SubtypeView,
) -> Result<Prefix, NoMemory>
    ensures { IfOk result (λ prefix. prefix ≡ mark_prefix mark) }
{
    let array = array_of(alloc, standard, &mark.types, &mark.subtype.base)?;
    Ok(array.unwrap_or(scalar_prefix(standard, mark)))
}

/// What an object or a part of one is as a prefix, with its types.
#[tactic(auto, unfolding(crate::specs::Attributes::part_prefix))]
fn part_prefix(
    alloc: Global,
    standard: &StandardTypes,
    part: Option<(&Subtype, &Types)>,
) -> Result<Prefix, NoMemory>
    ensures { IfOk result (λ prefix. prefix ≡ part_prefix (option_map (λ part. nominal part.1.now part.0.now) part.entry)) }
{
    match part {
        Some((subtype, types)) => {
            let array = array_of(alloc, standard, types, &subtype.base)?;
            Ok(array.unwrap_or(Prefix::Other))
        }
        None => Ok(Prefix::Other),
    }
}

fn is_one(arguments: &[Term]) -> bool
    ensures { result ≡ is_one (terms_of (map term_model arguments.now)) }
{
    match arguments {
        [] => false,
        [_] => true,
        [_, _, ..] => false,
    }
}

/// Whether each index in a part's name is one value.
#[tactic(auto, using(al_overload::proofs::TermsSeen::terms_made), unfolding(crate::specs::Attributes::is_indexed_by_one))]
fn is_indexed_by_one(term: &Term) -> bool
    ensures { result ≡ is_indexed_by_one (term_model term.now) }
{
    let mut rest = term;
    loop {
        rest = match rest {
            Term::Applied { name, arguments } => {
                if !is_one(arguments) {
                    return false;
                }
                name
            }
            Term::Selected { prefix, name: _ } => prefix,
            Term::Named { .. } => return true,
            Term::Number { .. } => return true,
            Term::Text { .. } => return true,
            Term::Bound { .. } => return true,
            Term::Length { .. } => return true,
            Term::Conversion { .. } => return true,
            Term::Qualified { .. } => return true,
            Term::Attribute { .. } => return true,
            Term::Image { .. } => return true,
            Term::Prefixed { .. } => return true,
            Term::Infix { .. } => return true,
            Term::Concatenation { .. } => return true,
            Term::ShortCircuit { .. } => return true,
            Term::Member { .. } => return true,
            Term::RangeMember { .. } => return true,
            Term::Group { .. } => return true,
            Term::Aggregate { .. } => return true,
            Term::Others { .. } => return true,
            Term::Nothing { .. } => return true,
        };
    }
}

/// What a term is as a prefix: an object or a part of one, or what has no attributes.
/// # Errors
/// `NoMemory` if the allocator refuses memory.
#[tactic(auto, unfolding(crate::specs::Attributes::term_prefix))]
pub fn term_prefix(alloc: Global, standard: &StandardTypes, term: &Term) -> Result<Prefix, NoMemory>
    ensures { IfOk result (λ prefix. prefix ≡ term_prefix (term_model term.now)) }
{
    if !is_indexed_by_one(term) {
        return Ok(Prefix::Other);
    }
    part_prefix(alloc, standard, part_of(standard, term))
}

/// What a name is as a prefix, by the subtype that it is of, if it is of one.
/// # Errors
/// `NoMemory` if the allocator refuses memory.
#[tactic(auto, unfolding(crate::specs::Attributes::name_prefix))]
pub fn name_prefix(
    alloc: Global,
    standard: &StandardTypes,
    mark: Option<SubtypeView>,
    name: &Term,
) -> Result<Prefix, NoMemory>
    ensures { IfOk result (λ prefix. prefix ≡ name_prefix mark (term_model name.now)) }
{
    match mark {
        Some(mark) => mark_prefix(alloc, standard, mark),
        None => term_prefix(alloc, standard, name),
    }
}
