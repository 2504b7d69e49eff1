// Names of objects and of their parts (ARM 4.1).
ghost use Rattle.std.specs.Prelude.{◌≡◌, IfOk, option_map};
ghost use Rattle.al_base_fault.specs.Judging.{both, next, map_ok};
ghost use Rattle.al_overload.specs.Parts.{nominal};
ghost use Rattle.al_overload.specs.TermViews.{term_model};
ghost use Rattle.al_view_typed.specs.ExpressionViews.{form_model, name_model, typed_model};
ghost use Rattle.al_overload_nodes.specs.Names.{as_name, component_form, component_node, element_form, element_node, is_sole_variable, is_variable, is_variable_view, name_in, name_of, no_variable, object_node, selected_in, selected_node};
ghost use Rattle.al_overload.specs.PickedTypes.{indexing_of};
ghost use Rattle.al_overload_nodes.specs.Views.{name_pair_model, reading_model};

use crate::labeller::Labeller;
use crate::node::{Reading, misfit};
use al_base::{NoMemory, Place};
use al_base_fault::{CheckResult, CheckRule, Fault, both, earlier};
use al_overload::{Indexing, Term, component_at, nothing_fits, range_in, words_in};
use al_static::Known;
use al_view::{Bounds, ObjectView, Subtype, Types, View, ViewKind};
use al_view_typed::{Form, Typed, TypedName};
use std::alloc::Global;

/// What an expression is that is to be the name of an object.
fn name_of(place: Place, form: Form) -> CheckResult<TypedName>
    ensures { map_ok name_model result ≡ name_of place (form_model form) }
{
    match form.into_name() {
        Some(name) => Ok(name),
        None => Err(nothing_fits(place)),
    }
}

fn name_in(typed: Typed) -> CheckResult<TypedName>
    ensures { map_ok name_model result ≡ name_in (typed_model typed) }
{
    let Typed { labels, form } = typed;
    name_of(labels.place, form)
}

fn as_name(typed: CheckResult<Typed>) -> CheckResult<TypedName>
    ensures { map_ok name_model result ≡ as_name (map_ok typed_model typed) }
{
    match typed {
        Ok(typed) => name_in(typed),
        Err(fault) => Err(fault),
    }
}

fn component_form(
    alloc: Global,
    offset: u32,
    whole: CheckResult<TypedName>,
) -> Result<CheckResult<Form>, NoMemory>
    ensures { IfOk result (λ form. map_ok form_model form ≡ map_ok (component_form offset) (map_ok name_model whole)) }
{
    match whole {
        Ok(whole) => {
            let name = TypedName::component(alloc, whole, offset)?;
            Ok(Ok(Form::named(name)))
        }
        Err(fault) => Ok(Err(fault)),
    }
}

fn element_form(
    alloc: Global,
    bounds: Bounds,
    words: u32,
    name: CheckResult<(TypedName, Typed)>,
) -> Result<CheckResult<Form>, NoMemory>
    ensures { IfOk result (λ form. map_ok form_model form ≡ map_ok (element_form bounds words) (map_ok name_pair_model name)) }
{
    match name {
        Ok((array, index)) => {
            let name = TypedName::indexed(alloc, array, index, bounds, words)?;
            Ok(Ok(Form::named(name)))
        }
        Err(fault) => Ok(Err(fault)),
    }
}

fn is_variable_view(view: &View) -> bool
    ensures { result ≡ is_variable_view view.now }
{
    match view.kind() {
        ViewKind::OfObject(object) => !object.is_constant,
        ViewKind::OfNumber(_) => false,
        ViewKind::OfLiteral(_) => false,
        ViewKind::OfSubprogram(_) => false,
        ViewKind::OfComponent => false,
        ViewKind::OfType(_) => false,
        ViewKind::OfSubtype(_) => false,
        ViewKind::OfTask(_) => false,
        ViewKind::OfProtected(_) => false,
        ViewKind::OfPackage(_) => false,
    }
}

fn is_sole_variable(visible: &[View]) -> bool
    ensures { result ≡ is_sole_variable visible.now }
{
    match visible {
        [] => false,
        [view] => is_variable_view(view),
        [_, _, ..] => false,
    }
}

/// Whether a term names a variable or a part of one (ARM 3.3(13)).
#[tactic(auto, using(crate::proofs::TermsSeen::terms_made))]
pub fn is_variable(term: &Term) -> bool
    ensures { result ≡ is_variable (term_model term.now) }
{
    let mut rest = term;
    loop {
        rest = match rest {
            Term::Named { place: _, views } => return is_sole_variable(views.as_slice()),
            Term::Selected { prefix, name: _ } => prefix,
            Term::Applied { name, arguments: _ } => name,
            Term::Number { .. } => return false,
            Term::Text { .. } => return false,
            Term::Bound { .. } => return false,
            Term::Length { .. } => return false,
            Term::Conversion { .. } => return false,
            Term::Qualified { .. } => return false,
            Term::Attribute { .. } => return false,
            Term::Image { .. } => return false,
            Term::Prefixed { .. } => return false,
            Term::Infix { .. } => return false,
            Term::Concatenation { .. } => return false,
            Term::ShortCircuit { .. } => return false,
            Term::Member { .. } => return false,
            Term::RangeMember { .. } => return false,
            Term::Group { .. } => return false,
            Term::Aggregate { .. } => return false,
            Term::Others { .. } => return false,
            Term::Nothing { .. } => return false,
        };
    }
}

/// E406 at this place: it is no variable.
pub fn no_variable(place: Place) -> Fault
    ensures { result ≡ no_variable place }
{
    Fault {
        place,
        rule: CheckRule::NotAVariable,
    }
}

impl Labeller {
    /// An object that is named alone.
    /// # Errors
    /// `NoMemory` if the allocator refuses memory.
    pub fn object(&self, place: Place, object: &ObjectView) -> Result<Reading, NoMemory>
        ensures { IfOk result (λ r. reading_model r ≡ object_node self.now.predefined.root place object.now) }
    {
        let (types, subtype) = (&object.types, &object.subtype);
        let range = range_in(&self.predefined.standard, types, subtype);
        let at = object.place.copy(self.alloc)?;
        let form = Ok(Form::named(TypedName::object(at, object.is_constant)));
        let known = Known::named(object.value, None);
        self.node(place, types, &subtype.base, range, known, form)
    }

    /// A component from this word of its record on.
    fn component(
        &self,
        place: Place,
        types: &Types,
        whole: Reading,
        component: &Subtype,
        offset: u32,
    ) -> Result<Reading, NoMemory>
        ensures { IfOk result (λ r. reading_model r ≡ component_node self.now.predefined.root place types.now (reading_model whole) (component.now, offset)) }
    {
        let range = range_in(&self.predefined.standard, types, component);
        let known = Known::Open(whole.known.failure());
        let form = component_form(self.alloc, offset, as_name(whole.typed))?;
        self.node(place, types, &component.base, range, known, form)
    }

    /// The component with that name of what has this nominal subtype.
    /// # Errors
    /// `NoMemory` if the allocator refuses memory.
    pub fn selected(
        &self,
        place: Place,
        name: &[u8],
        part: Option<(&Subtype, &Types)>,
        whole: Reading,
    ) -> Result<Reading, NoMemory>
        ensures { IfOk result (λ r. reading_model r ≡ selected_node self.now.predefined.root place name.now (option_map (λ p. nominal p.1.now p.0.now) part.entry) (reading_model whole)) }
    {
        let Some((subtype, types)) = part else {
            return Ok(misfit(place));
        };
        match component_at(&self.predefined.standard, name, types, &subtype.base) {
            Some((component, offset)) => self.component(place, types, whole, component, offset),
            None => Ok(misfit(place)),
        }
    }

    /// A component of an array, by an index.
    /// # Errors
    /// `NoMemory` if the allocator refuses memory.
    pub fn element(
        &self,
        place: Place,
        types: &Types,
        by: &Indexing<'_>,
        whole: Reading,
        index: Reading,
    ) -> Result<Reading, NoMemory>
        ensures { IfOk result (λ r. reading_model r ≡ element_node self.now.predefined.root place types.now (indexing_of by.now.index.now by.now.bounds by.now.component.now) (reading_model whole) (reading_model index)) }
    {
        let range = range_in(&self.predefined.standard, types, by.component);
        let words = words_in(&self.predefined.standard, types, &by.component.base);
        let known = Known::Open(earlier(whole.known.failure(), index.known.failure()));
        let name = both(as_name(whole.typed), index.typed);
        let form = element_form(self.alloc, by.bounds, words, name)?;
        self.node(place, types, &by.component.base, range, known, form)
    }
}
