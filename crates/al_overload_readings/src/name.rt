// Names, part after part (ARM 4.1).
ghost use Rattle.std.specs.Prelude.{◌≡◌, IfOk, ◌∷◌, [], map};
ghost use Rattle.al_overload.specs.Terms.{TermTree as terms};
ghost use Rattle.al_base_fault.specs.Faults.{earlier};
ghost use Rattle.al_base_fault.specs.Judging.{fault_in, map_ok};
ghost use Rattle.al_overload_lookup.specs.Keys.{denoted};
ghost use Rattle.al_overload_readings.specs.ReadingViews.{reading_model};
ghost use Rattle.al_overload_readings.specs.TermLists.{all_model};
ghost use Rattle.al_overload.specs.TermViews.{term_model};
ghost use Rattle.al_overload_readings.specs.Noted.{all_linked, all_or_nothing, linked, noted_model, or_nothing, plain, settled, with_argument, with_arguments, qualifying};

use crate::{
    Reading, apply, apply_to, as_mark, attribute_of, called, qualify, range_attribute_of, select,
};
use al_base::{NoMemory, Place};
use al_base_fault::{CheckResult, Fault, earlier, unless};
use al_overload::Term;
use al_overload_lookup::Names;
use al_tree::{Expression, Identifier};
use al_view_predefined::StandardTypes;
use std::alloc::Global;

/// What a name with its parts may be so far.
#[derive(Drop)]
pub(crate) struct Noted {
    /// What the name may be, with what fits nothing in the place of a faulty argument.
    pub(crate) shape: CheckResult<Reading>,
    /// The first fault in its arguments.
    pub(crate) inside: Option<Fault>,
}

/// A part of a name, with its arguments as they were read.
#[derive(Drop)]
pub(crate) enum Link<'a> {
    Selector(&'a Identifier),
    Argument(Place, CheckResult<Term>),
    /// Two arguments or more.
    Arguments(Place, CheckResult<Vec<Term>>),
    Attribute(&'a Identifier),
    RangeAttribute,
    /// The operand of a qualified expression.
    Operand(Place, CheckResult<Term>),
}

/// A step down a name.
#[derive(Drop)]
pub(crate) enum Step<'a> {
    /// The last part, with what comes before it.
    Down(Link<'a>, &'a Expression),
    /// An expression that has no such part.
    Last(Noted),
}

/// The name of what has no arguments.
pub(crate) fn plain(shape: CheckResult<Reading>) -> Noted
    ensures { noted_model result ≡ plain (map_ok reading_model shape) }
{
    Noted {
        shape,
        inside: None,
    }
}

/// The first fault of all.
pub(crate) fn settled(noted: Noted) -> CheckResult<Reading>
    ensures { map_ok reading_model result ≡ settled (noted_model noted) }
{
    unless(noted.inside, noted.shape)
}

/// An argument, or what fits nothing if it has a fault; and the fault.
fn taken(place: Place, argument: CheckResult<Term>) -> (Term, Option<Fault>)
    ensures term { term_model result.0 ≡ or_nothing place (map_ok term_model argument) }
    ensures fault { result.1 ≡ fault_in (map_ok term_model argument) }
{
    match argument {
        Ok(term) => (term, None),
        Err(fault) => (Term::nothing(place), Some(fault)),
    }
}

fn nothing_twice(alloc: Global, place: Place) -> Result<Vec<Term>, NoMemory>
    ensures { IfOk result (λ nothing. map term_model nothing.items ≡ terms.NothingTerm place ∷ terms.NothingTerm place ∷ []) }
{
    let mut nothing = Vec::new(alloc);
    nothing.push(Term::nothing(place))?;
    nothing.push(Term::nothing(place))?;
    Ok(nothing)
}

/// Several arguments, or what fits nothing if one has a fault; and the first fault in them.
fn all_taken(
    alloc: Global,
    place: Place,
    arguments: CheckResult<Vec<Term>>,
) -> Result<(Vec<Term>, Option<Fault>), NoMemory>
    ensures terms { IfOk result (λ taken. map term_model taken.0.items ≡ all_or_nothing place (map_ok all_model arguments)) }
    ensures fault { IfOk result (λ taken. taken.1 ≡ fault_in (map_ok all_model arguments)) }
{
    match arguments {
        Ok(arguments) => Ok((arguments, None)),
        Err(fault) => {
            let nothing = nothing_twice(alloc, place)?;
            Ok((nothing, Some(fault)))
        }
    }
}

/// A name with one argument.
fn with_argument(
    alloc: Global,
    place: Place,
    argument: CheckResult<Term>,
    name: Noted,
) -> Result<Noted, NoMemory>
    ensures { IfOk result (λ noted. noted_model noted ≡ with_argument place (map_ok term_model argument) (noted_model name)) }
{
    let Noted { shape, inside } = name;
    let (argument, fault) = taken(place, argument);
    let shape = called(alloc, shape)?;
    let shape = apply(alloc, shape, Ok(argument))?;
    let inside = earlier(inside, fault);
    Ok(Noted { shape, inside })
}

/// A name with several arguments.
fn with_arguments(
    alloc: Global,
    place: Place,
    arguments: CheckResult<Vec<Term>>,
    name: Noted,
) -> Result<Noted, NoMemory>
    ensures { IfOk result (λ noted. noted_model noted ≡ with_arguments place (map_ok all_model arguments) (noted_model name)) }
{
    let Noted { shape, inside } = name;
    let (arguments, fault) = all_taken(alloc, place, arguments)?;
    let shape = called(alloc, shape)?;
    let shape = apply_to(alloc, shape, Ok(arguments))?;
    let inside = earlier(inside, fault);
    Ok(Noted { shape, inside })
}

/// A qualified expression.
fn qualifying(
    alloc: Global,
    place: Place,
    operand: CheckResult<Term>,
    mark: Noted,
) -> Result<Noted, NoMemory>
    ensures { IfOk result (λ noted. noted_model noted ≡ qualifying place (map_ok term_model operand) (noted_model mark)) }
{
    let Noted { shape, inside } = mark;
    let (operand, fault) = taken(place, operand);
    let mark = as_mark(alloc, shape)?;
    let shape = qualify(alloc, mark, Ok(operand))?;
    let inside = earlier(inside, fault);
    Ok(Noted { shape, inside })
}

/// A name with one more part.
fn linked(
    alloc: Global,
    standard: &StandardTypes,
    names: &Names,
    link: Link<'_>,
    name: Noted,
) -> Result<Noted, NoMemory>
    ensures { IfOk result (λ noted. noted_model noted ≡ linked (denoted names.now) link.entry (noted_model name)) }
{
    match link {
        Link::Selector(identifier) => {
            let shape = select(alloc, names, identifier, name.shape)?;
            Ok(Noted {
                shape,
                inside: name.inside,
            })
        }
        Link::Argument(place, argument) => with_argument(alloc, place, argument, name),
        Link::Arguments(place, arguments) => with_arguments(alloc, place, arguments, name),
        Link::Attribute(identifier) => {
            let shape = attribute_of(alloc, standard, identifier, name.shape)?;
            Ok(Noted {
                shape,
                inside: name.inside,
            })
        }
        Link::RangeAttribute => {
            let shape = range_attribute_of(alloc, standard, name.shape)?;
            Ok(Noted {
                shape,
                inside: name.inside,
            })
        }
        Link::Operand(place, operand) => qualifying(alloc, place, operand, name),
    }
}

/// A name with all its parts, from the first on. The last part in source order comes first.
#[tactic(auto, using(crate::proofs::ChainLemmas::first_linked))]
pub(crate) fn all_linked(
    alloc: Global,
    standard: &StandardTypes,
    names: &Names,
    links: Vec<Link<'_>>,
    first: Noted,
) -> Result<Noted, NoMemory>
    ensures { IfOk result (λ noted. noted_model noted ≡ all_linked (denoted names.now) links.entry.items (noted_model first)) }
{
    let mut links = links;
    let mut name = first;
    while let Some(link) = links.pop() {
        name = linked(alloc, standard, names, link, name)?;
    }
    Ok(name)
}
