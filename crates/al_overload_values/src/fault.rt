// What is wrong in one prefix.
ghost use Rattle.std.specs.Prelude.{◌≡◌, IfOk};
ghost use Rattle.al_base_fault.specs.Judging.{map_ok};
ghost use Rattle.al_overload_values.specs.Prefixes.{argument_place, is_at, moved, moved_of, part_fault, place_after, prefix_fault, reading_fault};
ghost use Rattle.al_overload_readings.specs.ReadingViews.{reading_model};
ghost use Rattle.al_overload.specs.TermViews.{term_model};
ghost use Rattle.al_view_typed.specs.ExpressionViews.{typed_model};

use al_base::{NoMemory, Place};
use al_base_fault::{CheckResult, Fault};
use al_overload::{Context, Term, first_place};
use al_overload_nodes::{Labeller, read_term};
use al_overload_readings::{Reading, mark_in};
use al_view::{Seq, Types};
use al_view_typed::Typed;
use std::alloc::Global;

fn is_at(place: Place, other: Place) -> bool
    ensures { result ≡ is_at place other }
{
    place.line == other.line && place.col == other.col
}

/// The fault of a prefix as a whole is reported at the first token of the context round it, which begins at `at`.
#[tactic(auto, unfolding(crate::specs::Prefixes::moved))]
fn moved(at: Place, first: Place, fault: Fault) -> Fault
    ensures { result ≡ moved at first fault }
{
    if is_at(fault.place, first) {
        Fault {
            place: at,
            rule: fault.rule,
        }
    } else {
        fault
    }
}

fn moved_of(at: Place, first: Place, checked: &CheckResult<Typed>) -> Option<Fault>
    ensures { result ≡ moved_of at first (map_ok typed_model checked.now) }
{
    match checked {
        Ok(_) => None,
        Err(fault) => Some(moved(at, first, *fault)),
    }
}

/// The fault of an object or a part of one, as a value of any type, in a context that begins at `at`. It isn't evaluated, so nothing in it
/// fails.
fn part_fault(labeller: &Labeller, at: Place, term: &Term) -> Result<Option<Fault>, NoMemory>
    ensures { IfOk result (λ fault. fault ≡ part_fault labeller.now.predefined labeller.now.own at (term_model term.now)) }
{
    let types = Types::new(labeller.alloc, Seq::empty(labeller.alloc))?;
    let reading = read_term(labeller, &Context::Target, &None, &types, term)?;
    Ok(moved_of(at, first_place(term), &reading.typed))
}

fn reading_fault(
    labeller: &Labeller,
    at: Place,
    reading: &Reading,
) -> Result<Option<Fault>, NoMemory>
    ensures { IfOk result (λ fault. fault ≡ reading_fault labeller.now.predefined labeller.now.own at (reading_model reading.now)) }
{
    match reading {
        Reading::Value(term) => part_fault(labeller, at, term),
        Reading::Name(_, _, _) => Ok(None),
        Reading::Function(_, _, _) => Ok(None),
        Reading::Image(_, _) => Ok(None),
        Reading::Range(_, _) => Ok(None),
    }
}

/// What is wrong with the prefix of an attribute in a context that begins at `at`: E402 and E403 of its indexes, and what is wrong in
/// contexts inside them.
pub(crate) fn prefix_fault(
    labeller: &Labeller,
    at: Place,
    prefix: &CheckResult<Reading>,
) -> Result<Option<Fault>, NoMemory>
    ensures { IfOk result (λ fault. fault ≡ prefix_fault labeller.now.predefined labeller.now.own at (map_ok reading_model prefix.now)) }
{
    match prefix {
        Ok(reading) => reading_fault(labeller, at, reading),
        Err(_) => Ok(None),
    }
}

fn argument_place(
    alloc: Global,
    at: Place,
    first: Place,
    reading: &Reading,
) -> Result<Place, NoMemory>
    ensures { IfOk result (λ place. place ≡ argument_place at first (reading_model reading.now)) }
{
    match reading {
        Reading::Name(_, _, views) => {
            let mark = mark_in(alloc, views.as_slice())?;
            Ok(if mark.is_some() { first } else { at })
        }
        Reading::Image(_, _) => Ok(first),
        Reading::Value(_) => Ok(at),
        Reading::Function(_, _, _) => Ok(at),
        Reading::Range(_, _) => Ok(at),
    }
}

/// The place where the context of an argument after this name begins. The name's first token is at `first`.
pub(crate) fn place_after(
    alloc: Global,
    at: Place,
    first: Place,
    name: &CheckResult<Reading>,
) -> Result<Place, NoMemory>
    ensures { IfOk result (λ place. place ≡ place_after at first (map_ok reading_model name.now)) }
{
    match name {
        Ok(reading) => argument_place(alloc, at, first, reading),
        Err(_) => Ok(at),
    }
}
