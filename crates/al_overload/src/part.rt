// Objects and parts of objects, with their nominal subtypes (ARM 3.3, 4.1).
ghost use Rattle.std.specs.Prelude.{◌≡◌, ◌<◌, ◌≤◌, IfSome, option_map};
ghost use Rattle.std.specs.Option.{option_and_then, option_copied};
ghost use Rattle.al_overload.specs.TermViews.{term_model};
ghost use Rattle.al_overload.specs.declared.heads_term.Term.{size-Term};
ghost use Rattle.al_overload.specs.PartChains.{before, built_up, link_of, linked_part};
ghost use Rattle.al_overload.specs.Parts.{component_in, component_named, component_of, declared_under, definition_of, element_in, element_of, nominal, object_in, part_of, sole_object};

use crate::Term;
use al_view::{Component, Subtype, TypeDefinition, Types, View, ViewKind};
use al_view_predefined::StandardTypes;

/// A nominal subtype, with the types that it is of.
#[derive(Drop)]
pub struct Nominal {
    /// The nominal subtype.
    pub subtype: Subtype,
    /// The types that it is of, itself among them.
    pub types: Types,
}

/// The definition of the type of a nominal subtype, if it is known.
pub(crate) fn definition_of<'a>(
    standard: &'a StandardTypes,
    types: &'a Types,
    subtype: &Subtype,
) -> Option<&'a TypeDefinition>
    ensures { option_copied result ≡ definition_of types.now subtype.now }
{
    match standard.type_of(types, &subtype.base) {
        Some(of) => Some(&of.definition),
        None => None,
    }
}

fn object_in(view: &View) -> Option<(&Subtype, &Types)>
    ensures { option_map (λ part. nominal part.1.now part.0.now) result ≡ object_in view.now }
{
    match view.kind() {
        ViewKind::OfObject(object) => Some((&object.subtype, &object.types)),
        ViewKind::OfNumber(_) => None,
        ViewKind::OfLiteral(_) => None,
        ViewKind::OfSubprogram(_) => None,
        ViewKind::OfComponent => None,
        ViewKind::OfType(_) => None,
        ViewKind::OfSubtype(_) => None,
        ViewKind::OfTask(_) => None,
        ViewKind::OfProtected(_) => None,
        ViewKind::OfPackage(_) => None,
    }
}

/// The object that is all that is visible, if it is one.
fn sole_object(visible: &[View]) -> Option<(&Subtype, &Types)>
    ensures { option_map (λ part. nominal part.1.now part.0.now) result ≡ sole_object visible.now }
{
    match visible {
        [] => None,
        [view] => object_in(view),
        [_, _, ..] => None,
    }
}

/// The component of that name among a record's components.
fn component_named<'a>(name: &[u8], components: &'a [Component]) -> Option<&'a Subtype>
    ensures { option_copied result ≡ component_named name.now components.now }
{
    match components
        .iter()
        .find(|component| name == component.name.as_slice())
    {
        Some(component) => Some(&component.subtype),
        None => None,
    }
}

fn component_in<'a>(name: &[u8], definition: &'a TypeDefinition) -> Option<&'a Subtype>
    ensures { option_copied result ≡ component_in name.now definition.now }
{
    match definition {
        TypeDefinition::Record(components) => component_named(name, components.as_slice()),
        TypeDefinition::Integer(_) => None,
        TypeDefinition::Enumeration { .. } => None,
        TypeDefinition::Array { .. } => None,
        TypeDefinition::Time => None,
        TypeDefinition::Private => None,
    }
}

fn element_in(definition: &TypeDefinition) -> Option<&Subtype>
    ensures { option_copied result ≡ element_in definition.now }
{
    match definition {
        TypeDefinition::Array {
            index: _,
            component,
        } => Some(component),
        TypeDefinition::Record(_) => None,
        TypeDefinition::Integer(_) => None,
        TypeDefinition::Enumeration { .. } => None,
        TypeDefinition::Time => None,
        TypeDefinition::Private => None,
    }
}

/// The component of that name of what has this nominal subtype (ARM 4.1.3).
pub(crate) fn component_of<'a>(
    standard: &'a StandardTypes,
    name: &[u8],
    types: &'a Types,
    subtype: &Subtype,
) -> Option<&'a Subtype>
    ensures { option_copied result ≡ option_and_then (component_in name.now) (definition_of types.now subtype.now) }
{
    match definition_of(standard, types, subtype) {
        Some(definition) => component_in(name, definition),
        None => None,
    }
}

/// The subtype of the components of what has this nominal subtype, if that is an array (ARM 4.1.1).
fn element_of<'a>(
    standard: &'a StandardTypes,
    types: &'a Types,
    subtype: &Subtype,
) -> Option<&'a Subtype>
    ensures { option_copied result ≡ option_and_then element_in (definition_of types.now subtype.now) }
{
    match definition_of(standard, types, subtype) {
        Some(definition) => element_in(definition),
        None => None,
    }
}

/// The part with that name of what has this nominal subtype.
pub(crate) fn selected_part<'a>(
    standard: &'a StandardTypes,
    name: &[u8],
    whole: Option<(&'a Subtype, &'a Types)>,
) -> Option<(&'a Subtype, &'a Types)>
    ensures { option_map (λ part. nominal part.1.now part.0.now) result ≡ option_and_then (component_of name.now) (option_map (λ part. nominal part.1.now part.0.now) whole.entry) }
{
    match whole {
        Some((subtype, types)) => match component_of(standard, name, types, subtype) {
            Some(component) => Some((component, types)),
            None => None,
        },
        None => None,
    }
}

/// A component of what has this nominal subtype, by its index.
pub(crate) fn indexed_part<'a>(
    standard: &'a StandardTypes,
    whole: Option<(&'a Subtype, &'a Types)>,
) -> Option<(&'a Subtype, &'a Types)>
    ensures { option_map (λ part. nominal part.1.now part.0.now) result ≡ option_and_then element_of (option_map (λ part. nominal part.1.now part.0.now) whole.entry) }
{
    match whole {
        Some((subtype, types)) => match element_of(standard, types, subtype) {
            Some(component) => Some((component, types)),
            None => None,
        },
        None => None,
    }
}

/// What comes before the last selector of a term, with the selector, or before the last indexes.
#[tactic(auto, using(crate::proofs::TermsSeen::terms_made))]
fn link_of(term: &Term) -> Option<(&Term, Option<&[u8]>)>
    ensures link { option_map (λ l. (term_model l.0.now, option_map (λ name. name.now) l.1)) result ≡ link_of (term_model term.now) }
    ensures below { IfSome result (λ l. size-Term l.0.now < size-Term term.now) }
{
    match term {
        Term::Selected { prefix, name } => Some((prefix, Some(name.as_slice()))),
        Term::Applied { name, arguments: _ } => Some((name, None)),
        Term::Named { .. } => None,
        Term::Number { .. } => None,
        Term::Text { .. } => None,
        Term::Bound { .. } => None,
        Term::Length { .. } => None,
        Term::Conversion { .. } => None,
        Term::Qualified { .. } => None,
        Term::Attribute { .. } => None,
        Term::Image { .. } => None,
        Term::Prefixed { .. } => None,
        Term::Infix { .. } => None,
        Term::Concatenation { .. } => None,
        Term::ShortCircuit { .. } => None,
        Term::Member { .. } => None,
        Term::RangeMember { .. } => None,
        Term::Group { .. } => None,
        Term::Aggregate { .. } => None,
        Term::Others { .. } => None,
        Term::Nothing { .. } => None,
    }
}

/// What comes before the last `count` selectors and indexes of a term, or before all if there are fewer; and how many these are.
fn before(term: &Term, most: usize) -> (&Term, usize)
    ensures most { term_model result.0.now ≡ before most (term_model term.now) }
    ensures count { term_model result.0.now ≡ before result.1 (term_model term.now) }
    ensures below { size-Term result.0.now ≤ size-Term term.now }
{
    let mut rest = term;
    for count in 0..most {
        let Some((prefix, _)) = link_of(rest) else {
            return (rest, count);
        };
        rest = prefix;
    }
    (rest, most)
}

/// The part that a selector or indexes make of what has this nominal subtype.
fn linked_part<'a>(
    standard: &'a StandardTypes,
    name: Option<&[u8]>,
    whole: Option<(&'a Subtype, &'a Types)>,
) -> Option<(&'a Subtype, &'a Types)>
    ensures { option_map (λ part. nominal part.1.now part.0.now) result ≡ linked_part (option_map (λ n. n.now) name.entry) (option_map (λ part. nominal part.1.now part.0.now) whole.entry) }
{
    match name {
        Some(name) => selected_part(standard, name, whole),
        None => indexed_part(standard, whole),
    }
}

/// The part that the last selectors and indexes of a term, this many, make of what has this nominal subtype. It halves the number and joins
/// both halves, so that it takes no memory, and as many frames of the stack as the number of links has digits.
fn built_up<'a>(
    standard: &'a StandardTypes,
    term: &'a Term,
    count: usize,
    part: Option<(&'a Subtype, &'a Types)>,
) -> Option<(&'a Subtype, &'a Types)>
    ensures { option_map (λ part. nominal part.1.now part.0.now) result ≡ built_up count (term_model term.now) (option_map (λ part. nominal part.1.now part.0.now) part.entry) }
{
    if count == 0 {
        return part;
    }
    if count == 1 {
        return last_part(standard, term, part);
    }
    let upper = count / 2;
    let (middle, _) = before(term, upper);
    let inner = built_up(standard, middle, count - upper, part);
    built_up(standard, term, upper, inner)
}

/// The part that the last selector or the last indexes of a term make of what has this nominal subtype.
fn last_part<'a>(
    standard: &'a StandardTypes,
    term: &'a Term,
    part: Option<(&'a Subtype, &'a Types)>,
) -> Option<(&'a Subtype, &'a Types)>
    ensures { option_map (λ part. nominal part.1.now part.0.now) result ≡ built_up 1 (term_model term.now) (option_map (λ part. nominal part.1.now part.0.now) part.entry) }
{
    match link_of(term) {
        Some((_, name)) => linked_part(standard, name, part),
        None => part,
    }
}

/// The nominal subtype of what comes before a selector or indexes, which may itself be a part of a part.
#[cycle(parts)]
fn inner_part<'a>(standard: &'a StandardTypes, term: &'a Term) -> Option<(&'a Subtype, &'a Types)>
    ensures { option_map (λ part. nominal part.1.now part.0.now) result ≡ part_of (term_model term.now) }
{
    let (first, count) = before(term, usize::MAX);
    let part = part_of(standard, first);
    built_up(standard, term, count, part)
}

/// The nominal subtype of a term that is an object or a part of one, without regard to indexes. What is selected or indexed in a call's
/// result, in a conversion or in a qualified expression has none.
#[cycle(parts)]
pub fn part_of<'a>(standard: &'a StandardTypes, term: &'a Term) -> Option<(&'a Subtype, &'a Types)>
    ensures { option_map (λ part. nominal part.1.now part.0.now) result ≡ part_of (term_model term.now) }
{
    match link_of(term) {
        Some((prefix, name)) => linked_part(standard, name, inner_part(standard, prefix)),
        None => match declared_under(term) {
            Some(visible) => sole_object(visible),
            None => None,
        },
    }
}

/// What is visible under a term that is a name.
#[tactic(auto, using(crate::proofs::TermsSeen::terms_made))]
pub fn declared_under(term: &Term) -> Option<&[View]>
    ensures { option_map (λ visible. visible.now) result ≡ declared_under (term_model term.now) }
{
    match term {
        Term::Named { place: _, views } => Some(views.as_slice()),
        Term::Selected { .. } => None,
        Term::Applied { .. } => None,
        Term::Number { .. } => None,
        Term::Text { .. } => None,
        Term::Bound { .. } => None,
        Term::Length { .. } => None,
        Term::Conversion { .. } => None,
        Term::Qualified { .. } => None,
        Term::Attribute { .. } => None,
        Term::Image { .. } => None,
        Term::Prefixed { .. } => None,
        Term::Infix { .. } => None,
        Term::Concatenation { .. } => None,
        Term::ShortCircuit { .. } => None,
        Term::Member { .. } => None,
        Term::RangeMember { .. } => None,
        Term::Group { .. } => None,
        Term::Aggregate { .. } => None,
        Term::Others { .. } => None,
        Term::Nothing { .. } => None,
    }
}
