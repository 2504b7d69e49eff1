// What an expression may be until its context is known.
ghost use Rattle.std.specs.Prelude.{◌≡◌, ◌∷◌, [], IfOk, map};
ghost use Rattle.al_base_fault.specs.Judging.{map_ok};
ghost use Rattle.al_overload_lookup.specs.Keys.{denoted, not_visible};
ghost use Rattle.al_overload.specs.Terms.{TermTree as terms, TermsTree as more};
ghost use Rattle.al_overload.specs.TermViews.{term_model, terms_of};
ghost use Rattle.al_overload_readings.specs.Readings.{applied, applied_to, array_attribute, attributed, after, after_of, callable, marked_at, marking, mark_read, name_applied, named, prefix_of, range_read, ranged, ranging, read_place, scalar_attribute, selected, selected_from, value_in, valued, wrong_kind};
ghost use Rattle.al_overload_readings.specs.ReadingViews.{reading_model};
ghost use Rattle.al_tree.specs.Lexemes.{identifier_label};

use crate::attribute::Attribute;
use crate::mark::mark_in;
use crate::operation::{operation_of, protected_in};
use crate::pair::{boxed, together};
use crate::prefix::{Prefix, name_prefix, term_prefix};
use al_base::{Name, NoMemory, Place};
use al_base_fault::{CheckResult, CheckRule, Fault};
use al_overload::{Term, first_place, is_any_no_value};
use al_overload_lookup::{Names, dotted, is_none, not_visible};
use al_tree::Identifier;
use al_view::{Bounds, SubtypeView, View, Views};
use al_view_predefined::StandardTypes;
use al_view_typed::Conversion;
use std::alloc::Global;

/// What an expression may be.
#[derive(Drop)]
pub enum Reading {
    /// An identifier or an expanded name, with all that is visible under it.
    Name(Place, Vec<u8>, Views),
    /// A value or a call.
    Value(Term),
    /// `S'Pos`, `S'Val`, `S'Succ` or `S'Pred`.
    Function(Place, Conversion, SubtypeView),
    /// `S'Image`.
    Image(Place, SubtypeView),
    /// `S'Range`.
    Range(Place, SubtypeView),
}

/// E404 at this place.
pub fn wrong_kind(place: Place) -> Fault
    ensures { result ≡ wrong_kind place }
{
    Fault {
        place,
        rule: CheckRule::WrongKind,
    }
}

/// The place of the first token.
#[tactic(auto, unfolding(crate::specs::Readings::read_place))]
fn read_place(reading: &Reading) -> Place
    ensures { result ≡ read_place (reading_model reading.now) }
{
    match reading {
        Reading::Name(place, _, _) => *place,
        Reading::Value(term) => first_place(term),
        Reading::Function(place, _, _) => *place,
        Reading::Image(place, _) => *place,
        Reading::Range(place, _) => *place,
    }
}

fn value_in(place: Place, views: Views) -> CheckResult<Term>
    ensures { map_ok term_model result ≡ value_in place views }
{
    if is_any_no_value(views.as_slice()) {
        return Err(wrong_kind(place));
    }
    Ok(Term::named(place, views))
}

/// The term of a reading that must be a value or a call.
/// # Errors
/// E404 at the first token of a name that may be no value and no call.
#[tactic(auto, unfolding(crate::specs::Readings::valued))]
pub fn valued(reading: Reading) -> CheckResult<Term>
    ensures { map_ok term_model result ≡ valued (reading_model reading) }
{
    match reading {
        Reading::Name(place, _, views) => value_in(place, views),
        Reading::Value(term) => Ok(term),
        Reading::Function(place, _, _) => Ok(Term::nothing(place)),
        Reading::Image(place, _) => Ok(Term::nothing(place)),
        Reading::Range(place, _) => Ok(Term::nothing(place)),
    }
}

/// A name with all that is visible under it.
/// # Errors
/// `NoMemory` if the allocator refuses memory. The inner error is E401 at its last identifier if nothing is visible.
#[tactic(auto, unfolding(crate::specs::Readings::named))]
pub fn named(
    alloc: Global,
    place: Place,
    key: Vec<u8>,
    visible: &[View],
    identifier: &Identifier,
) -> Result<CheckResult<Reading>, NoMemory>
    ensures { IfOk result (λ checked. map_ok reading_model checked ≡ named place key.items visible.now (identifier_label identifier.now)) }
{
    if is_none(visible) {
        return Ok(Err(not_visible(identifier)));
    }
    let mut views = Views::new(alloc);
    views.append(visible)?;
    Ok(Ok(Reading::Name(place, key, views)))
}

/// A component of that name.
fn component(alloc: Global, prefix: Term, name: &[u8]) -> Result<Term, NoMemory>
    ensures { IfOk result (λ term. term_model term ≡ terms.SelectedTerm (term_model prefix) name.now) }
{
    let prefix = boxed(alloc, prefix);
    let (prefix, name) = together(prefix, Name::from_slice(alloc, name))?;
    Ok(Term::selected(prefix, name))
}

#[tactic(auto, unfolding(crate::specs::Readings::after))]
fn after(
    alloc: Global,
    place: Place,
    views: Views,
    name: &[u8],
) -> Result<CheckResult<Term>, NoMemory>
    ensures { IfOk result (λ checked. map_ok term_model checked ≡ after place views name.now) }
{
    if let Some(object) = protected_in(views.as_slice()) {
        let operation = operation_of(alloc, place, object, name)?;
        return Ok(Ok(operation));
    }
    match value_in(place, views) {
        Ok(prefix) => {
            let term = component(alloc, prefix, name)?;
            Ok(Ok(term))
        }
        Err(fault) => Ok(Err(fault)),
    }
}

#[tactic(auto, unfolding(crate::specs::Readings::selected_from))]
fn selected_from(
    alloc: Global,
    names: &Names,
    identifier: &Identifier,
    place: Place,
    key: Vec<u8>,
    views: Views,
) -> Result<CheckResult<Reading>, NoMemory>
    ensures { IfOk result (λ checked. map_ok reading_model checked ≡ selected_from (denoted names.now) (identifier_label identifier.now) place key.items views) }
{
    let name = identifier.name.as_slice();
    let whole = dotted(alloc, key.as_slice(), name)?;
    if is_none(names.prefixes.views(whole.as_slice())) {
        return match after(alloc, place, views, name)? {
            Ok(term) => Ok(Ok(Reading::Value(term))),
            Err(fault) => Ok(Err(fault)),
        };
    }
    let visible = names.visible.views(whole.as_slice());
    named(alloc, place, whole, visible, identifier)
}

/// The reading with a selector after it.
/// # Errors
/// `NoMemory` if the allocator refuses memory. The inner error is E401 or E404 of the selector after a name.
#[tactic(auto, unfolding(crate::specs::Readings::selected))]
pub fn selected(
    alloc: Global,
    names: &Names,
    identifier: &Identifier,
    reading: Reading,
) -> Result<CheckResult<Reading>, NoMemory>
    ensures { IfOk result (λ checked. map_ok reading_model checked ≡ selected (denoted names.now) (identifier_label identifier.now) (reading_model reading)) }
{
    match reading {
        Reading::Name(place, key, views) => {
            selected_from(alloc, names, identifier, place, key, views)
        }
        Reading::Value(term) => {
            let term = component(alloc, term, identifier.name.as_slice())?;
            Ok(Ok(Reading::Value(term)))
        }
        Reading::Function(place, _, _) => Ok(Ok(Reading::Value(Term::nothing(place)))),
        Reading::Image(place, _) => Ok(Ok(Reading::Value(Term::nothing(place)))),
        Reading::Range(place, _) => Ok(Ok(Reading::Value(Term::nothing(place)))),
    }
}

/// The reading that arguments follow: it must be a type, a value or a call.
/// # Errors
/// `NoMemory` if the allocator refuses memory. The inner error is E404 at the first token of a name that is none of these.
#[tactic(auto, unfolding(crate::specs::Readings::callable))]
pub fn callable(alloc: Global, reading: Reading) -> Result<CheckResult<Reading>, NoMemory>
    ensures { IfOk result (λ checked. map_ok reading_model checked ≡ callable (reading_model reading)) }
{
    match reading {
        Reading::Name(place, key, views) => {
            let mark = mark_in(alloc, views.as_slice())?;
            if mark.is_some() {
                return Ok(Ok(Reading::Name(place, key, views)));
            }
            if is_any_no_value(views.as_slice()) {
                return Ok(Err(wrong_kind(place)));
            }
            Ok(Ok(Reading::Name(place, key, views)))
        }
        Reading::Value(term) => Ok(Ok(Reading::Value(term))),
        Reading::Function(place, of, subtype) => Ok(Ok(Reading::Function(place, of, subtype))),
        Reading::Image(place, subtype) => Ok(Ok(Reading::Image(place, subtype))),
        Reading::Range(place, subtype) => Ok(Ok(Reading::Range(place, subtype))),
    }
}

/// A list of one argument.
/// # Errors
/// `NoMemory` if the allocator refuses memory.
pub fn one_argument(alloc: Global, argument: Term) -> Result<Vec<Term>, NoMemory>
    ensures { IfOk result (λ arguments. arguments.items ≡ argument ∷ []) }
{
    let mut arguments = Vec::new(alloc);
    arguments.push(argument)?;
    Ok(arguments)
}

/// A call of one argument, or a component by its index.
fn called(alloc: Global, name: Term, argument: Term) -> Result<Term, NoMemory>
    ensures { IfOk result (λ term. term_model term ≡ terms.AppliedTerm (term_model name) (more.MoreTerms (term_model argument) more.NoTerm)) }
{
    let argument = one_argument(alloc, argument);
    let (name, arguments) = together(boxed(alloc, name), argument)?;
    Ok(Term::applied(name, arguments))
}

/// A conversion, if the name denotes a type or a subtype; else a call of one argument or a component by its index.
#[tactic(auto, unfolding(crate::specs::Readings::name_applied))]
fn name_applied(
    alloc: Global,
    place: Place,
    views: Views,
    mark: Option<SubtypeView>,
    argument: Term,
) -> Result<Term, NoMemory>
    ensures { IfOk result (λ term. term_model term ≡ name_applied place views mark (term_model argument)) }
{
    match mark {
        Some(subtype) => {
            let argument = boxed(alloc, argument)?;
            Ok(Term::conversion(place, subtype, argument))
        }
        None => called(alloc, Term::named(place, views), argument),
    }
}

/// The reading with one argument after it.
/// # Errors
/// `NoMemory` if the allocator refuses memory.
#[tactic(auto, unfolding(crate::specs::Readings::applied))]
pub fn applied(alloc: Global, reading: Reading, argument: Term) -> Result<Term, NoMemory>
    ensures { IfOk result (λ term. term_model term ≡ applied (reading_model reading) (term_model argument)) }
{
    match reading {
        Reading::Name(place, _, views) => {
            let mark = mark_in(alloc, views.as_slice());
            let (mark, argument) = together(mark, Ok(argument))?;
            name_applied(alloc, place, views, mark, argument)
        }
        Reading::Value(term) => called(alloc, term, argument),
        Reading::Function(place, of, subtype) => {
            let argument = boxed(alloc, argument)?;
            Ok(Term::attribute(place, of, subtype, argument))
        }
        Reading::Image(place, subtype) => {
            let argument = boxed(alloc, argument)?;
            Ok(Term::image(place, subtype, argument))
        }
        Reading::Range(place, _) => Ok(Term::nothing(place)),
    }
}

/// A call of several arguments.
fn call(alloc: Global, name: Term, arguments: Vec<Term>) -> Result<Term, NoMemory>
    ensures { IfOk result (λ term. term_model term ≡ terms.AppliedTerm (term_model name) (terms_of (map term_model arguments.items))) }
{
    let (name, arguments) = together(boxed(alloc, name), Ok(arguments))?;
    Ok(Term::applied(name, arguments))
}

/// The reading with several arguments after it.
/// # Errors
/// `NoMemory` if the allocator refuses memory.
#[tactic(auto, unfolding(crate::specs::Readings::applied_to))]
pub fn applied_to(alloc: Global, reading: Reading, arguments: Vec<Term>) -> Result<Term, NoMemory>
    ensures { IfOk result (λ term. term_model term ≡ applied_to (reading_model reading) (map term_model arguments.items)) }
{
    match reading {
        Reading::Name(place, _, views) => {
            let mark = mark_in(alloc, views.as_slice());
            let (mark, arguments) = together(mark, Ok(arguments))?;
            if mark.is_some() {
                return Ok(Term::nothing(place));
            }
            call(alloc, Term::named(place, views), arguments)
        }
        Reading::Value(term) => call(alloc, term, arguments),
        Reading::Function(place, _, _) => Ok(Term::nothing(place)),
        Reading::Image(place, _) => Ok(Term::nothing(place)),
        Reading::Range(place, _) => Ok(Term::nothing(place)),
    }
}

/// What the reading is as the prefix of an attribute.
#[tactic(auto, unfolding(crate::specs::Readings::prefix_of))]
fn prefix_of(alloc: Global, standard: &StandardTypes, reading: Reading) -> Result<Prefix, NoMemory>
    ensures { IfOk result (λ prefix. prefix ≡ prefix_of (reading_model reading)) }
{
    match reading {
        Reading::Name(place, _, views) => {
            let mark = mark_in(alloc, views.as_slice())?;
            name_prefix(alloc, standard, mark, &Term::named(place, views))
        }
        Reading::Value(term) => term_prefix(alloc, standard, &term),
        Reading::Function(_, _, _) => Ok(Prefix::Other),
        Reading::Image(_, _) => Ok(Prefix::Other),
        Reading::Range(_, _) => Ok(Prefix::Other),
    }
}

#[tactic(auto, unfolding(crate::specs::Readings::scalar_attribute))]
fn scalar_attribute(
    place: Place,
    subtype: SubtypeView,
    attribute: Attribute,
) -> CheckResult<Reading>
    ensures { map_ok reading_model result ≡ scalar_attribute place subtype attribute }
{
    match attribute {
        Attribute::First => Ok(Reading::Value(Term::bound(place, subtype, false))),
        Attribute::Last => Ok(Reading::Value(Term::bound(place, subtype, true))),
        Attribute::Length => Err(wrong_kind(place)),
        Attribute::Pos => Ok(Reading::Function(place, Conversion::Pos, subtype)),
        Attribute::Val => Ok(Reading::Function(place, Conversion::Val, subtype)),
        Attribute::Succ => Ok(Reading::Function(place, Conversion::Succ, subtype)),
        Attribute::Pred => Ok(Reading::Function(place, Conversion::Pred, subtype)),
        Attribute::Image => Ok(Reading::Image(place, subtype)),
        Attribute::Unknown => Ok(Reading::Value(Term::nothing(place))),
    }
}

/// An attribute of an array whose index has this subtype, with these bounds.
#[tactic(auto, unfolding(crate::specs::Readings::array_attribute))]
fn array_attribute(
    place: Place,
    index: SubtypeView,
    bounds: Bounds,
    attribute: Attribute,
) -> CheckResult<Reading>
    ensures { map_ok reading_model result ≡ array_attribute place index bounds attribute }
{
    match attribute {
        Attribute::First => Ok(Reading::Value(Term::bound(place, index, false))),
        Attribute::Last => Ok(Reading::Value(Term::bound(place, index, true))),
        Attribute::Length => Ok(Reading::Value(Term::length(place, bounds))),
        Attribute::Pos => Err(wrong_kind(place)),
        Attribute::Val => Err(wrong_kind(place)),
        Attribute::Succ => Err(wrong_kind(place)),
        Attribute::Pred => Err(wrong_kind(place)),
        Attribute::Image => Err(wrong_kind(place)),
        Attribute::Unknown => Ok(Reading::Value(Term::nothing(place))),
    }
}

#[tactic(auto, unfolding(crate::specs::Readings::attributed))]
fn attributed(place: Place, prefix: Prefix, attribute: Attribute) -> CheckResult<Reading>
    ensures { map_ok reading_model result ≡ attributed place prefix attribute }
{
    match prefix {
        Prefix::Scalar(subtype) => scalar_attribute(place, subtype, attribute),
        Prefix::Array(index, bounds) => array_attribute(place, index, bounds, attribute),
        Prefix::Other => Err(wrong_kind(place)),
    }
}

/// The reading with an attribute after it.
/// # Errors
/// `NoMemory` if the allocator refuses memory. The inner error is E404 at its first token if it is neither scalar nor an
/// array, or if the attribute is one of the other of these two.
pub fn with_attribute(
    alloc: Global,
    standard: &StandardTypes,
    reading: Reading,
    attribute: Attribute,
) -> Result<CheckResult<Reading>, NoMemory>
    ensures { IfOk result (λ checked. map_ok reading_model checked ≡ attributed (read_place (reading_model reading)) (prefix_of (reading_model reading)) attribute) }
{
    let place = read_place(&reading);
    let prefix = prefix_of(alloc, standard, reading)?;
    Ok(attributed(place, prefix, attribute))
}

/// The reading with the Range attribute after it.
/// # Errors
/// `NoMemory` if the allocator refuses memory. The inner error is E404 at its first token if it is neither scalar nor an array.
#[tactic(auto, unfolding(crate::specs::Readings::ranged))]
pub fn with_range(
    alloc: Global,
    standard: &StandardTypes,
    reading: Reading,
) -> Result<CheckResult<Reading>, NoMemory>
    ensures { IfOk result (λ checked. map_ok reading_model checked ≡ ranged (read_place (reading_model reading)) (prefix_of (reading_model reading))) }
{
    let place = read_place(&reading);
    match prefix_of(alloc, standard, reading)? {
        Prefix::Scalar(subtype) => Ok(Ok(Reading::Range(place, subtype))),
        Prefix::Array(index, _) => Ok(Ok(Reading::Range(place, index))),
        Prefix::Other => Ok(Err(wrong_kind(place))),
    }
}

fn marked_at(place: Place, mark: Option<SubtypeView>) -> CheckResult<(Place, SubtypeView)>
    ensures { result ≡ marked_at place mark }
{
    match mark {
        Some(subtype) => Ok((place, subtype)),
        None => Err(wrong_kind(place)),
    }
}

#[tactic(auto, unfolding(crate::specs::Readings::mark_read))]
fn mark_read(alloc: Global, reading: Reading) -> Result<Option<SubtypeView>, NoMemory>
    ensures { IfOk result (λ mark. mark ≡ mark_read (reading_model reading)) }
{
    match reading {
        Reading::Name(_, _, views) => mark_in(alloc, views.as_slice()),
        Reading::Value(_) => Ok(None),
        Reading::Function(_, _, _) => Ok(None),
        Reading::Image(_, _) => Ok(None),
        Reading::Range(_, _) => Ok(None),
    }
}

/// The subtype that a reading names as a mark, with its place.
/// # Errors
/// `NoMemory` if the allocator refuses memory. The inner error is E404 at its first token if it is no mark.
#[tactic(auto, unfolding(crate::specs::Readings::marking))]
pub fn marking(
    alloc: Global,
    reading: Reading,
) -> Result<CheckResult<(Place, SubtypeView)>, NoMemory>
    ensures { IfOk result (λ checked. checked ≡ marking (reading_model reading)) }
{
    let place = read_place(&reading);
    let mark = mark_read(alloc, reading)?;
    Ok(marked_at(place, mark))
}

#[tactic(auto, unfolding(crate::specs::Readings::range_read))]
fn range_read(alloc: Global, reading: Reading) -> Result<Option<SubtypeView>, NoMemory>
    ensures { IfOk result (λ mark. mark ≡ range_read (reading_model reading)) }
{
    match reading {
        Reading::Name(_, _, views) => mark_in(alloc, views.as_slice()),
        Reading::Range(_, subtype) => Ok(Some(subtype)),
        Reading::Value(_) => Ok(None),
        Reading::Function(_, _, _) => Ok(None),
        Reading::Image(_, _) => Ok(None),
    }
}

/// The subtype of a reading that is a range of one part: a mark or a Range attribute.
/// # Errors
/// `NoMemory` if the allocator refuses memory. The inner error is E404 at its first token if it is neither.
#[tactic(auto, unfolding(crate::specs::Readings::ranging))]
pub fn ranging(alloc: Global, reading: Reading) -> Result<CheckResult<SubtypeView>, NoMemory>
    ensures { IfOk result (λ checked. checked ≡ ranging (reading_model reading)) }
{
    let place = read_place(&reading);
    let mark = range_read(alloc, reading)?;
    match marked_at(place, mark) {
        Ok((_, subtype)) => Ok(Ok(subtype)),
        Err(fault) => Ok(Err(fault)),
    }
}
