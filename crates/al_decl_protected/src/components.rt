// Components of a protected object, at their declarations (ARM 9.4).
ghost use Rattle.std.specs.Prelude.{◌≡◌, ◌<◌, ◌++◌, length, map, option_map, IfOk, OnOk, Some};
ghost use Rattle.al_base_fault.specs.Judging.{both, map_ok, unless};
ghost use Rattle.al_decl.specs.Declaring.{begun};
ghost use Rattle.al_decl.specs.Inner.{made_visible};
ghost use Rattle.al_decl_protected.specs.Checks.{StaysInner, so_far};
ghost use Rattle.al_decl_protected.specs.Components.{after_component, component, component_checked, component_named, components_checked, initial_read, no_components, parts_read, places_from, private_model, value_at, with_components, with_value, word_after};
ghost use Rattle.al_decl_judged.specs.Types.{words_of};
ghost use Rattle.al_query.specs.Reads.{FromAnswers};
ghost use Rattle.al_tree.specs.DeclarationViews.{protected_component_model};
ghost use Rattle.al_tree.specs.ExpressionViews.{expression_model};
ghost use Rattle.al_view_typed.specs.DeclarationTrees.{component_value_model};
ghost use Rattle.al_view_typed.specs.ExpressionViews.{typed_model};

use al_base::{Name, NoMemory};
use al_base_fault::{CheckResult, Fault, both, unless};
use al_decl::{PartAnalyzer, begin, defining_names, make_visible, names_fault};
use al_decl_judged::{DefiningName, add_types, words_of};
use al_query::{Answers, Recorder};
use al_scope::Scope;
use al_tree::{Expression, ProtectedComponent};
use al_view::{Component, Seq, SubtypeView, TypeView};
use al_view_predefined::StandardTypes;
use al_view_typed::{CheckedValue, ComponentValue, Typed};
use std::alloc::Global;

/// The components of a protected object so far, in order.
#[derive(Drop)]
pub struct PrivateComponents {
    /// The components, in order.
    pub components: Seq<Component>,
    /// The types that they are made of.
    pub types: Seq<TypeView>,
    /// How many words they take.
    pub words: u32,
    /// The values of those that have one.
    pub values: Vec<ComponentValue>,
}

fn component(alloc: Global, of: &SubtypeView, name: &DefiningName) -> Result<Component, NoMemory>
    ensures { IfOk result (λ made. made ≡ component of.now name.now) }
{
    let subtype = of.subtype.copy(alloc)?;
    let name = Name::from_slice(alloc, name.name.as_slice())?;
    Ok(Component { name, subtype })
}

/// Adds a component for each of these names.
fn add_named(
    alloc: Global,
    components: &mut Seq<Component>,
    of: &SubtypeView,
    names: &[DefiningName],
) -> Result<(), NoMemory>
    ensures { OnOk result (components.new ≡ components.old ++ map (component of.now) names.now) }
{
    for name in names {
        components.push(component(alloc, of, name)?)?;
    }
    Ok(())
}

/// The first words of components of these names, each of this many words, from there on.
fn places_from(
    alloc: Global,
    words: u32,
    word: u32,
    names: &[DefiningName],
) -> Result<Seq<u32>, NoMemory>
    ensures { IfOk result (λ places. places ≡ places_from words word names.now) }
{
    let mut places = Seq::empty(alloc);
    let mut next = word;
    for _name in names {
        places.push(next)?;
        next = next.saturating_add(words);
    }
    Ok(places)
}

/// The word after components of these names.
fn word_after(words: u32, word: u32, names: &[DefiningName]) -> u32
    ensures { result ≡ word_after words word names.now }
{
    let mut next = word;
    for _name in names {
        next = next.saturating_add(words);
    }
    next
}

fn value_at(words: u32, of: &SubtypeView, places: Seq<u32>, value: Typed) -> ComponentValue
    requires { words ≡ words_of of.now }
    ensures { component_value_model result ≡ value_at of.now places (typed_model value) }
{
    let value = CheckedValue::new(value, of.subtype.bounds);
    ComponentValue {
        places,
        words,
        value,
    }
}

/// Adds the value of components at these places, if they have one.
fn add_value(
    values: &mut Vec<ComponentValue>,
    words: u32,
    of: &SubtypeView,
    places: Seq<u32>,
    value: Option<Typed>,
) -> Result<(), NoMemory>
    requires { words ≡ words_of of.now }
    ensures { OnOk result (map component_value_model values.new.items ≡ with_value (map component_value_model values.old.items) of.now places (option_map typed_model value)) }
{
    match value {
        Some(value) => {
            values.push(value_at(words, of, places, value))?;
            Ok(())
        }
        None => Ok(()),
    }
}

impl PrivateComponents {
    /// No components yet.
    pub(crate) fn new(alloc: Global) -> PrivateComponents
        ensures { private_model result ≡ no_components }
    {
        PrivateComponents {
            components: Seq::empty(alloc),
            types: Seq::empty(alloc),
            words: 0,
            values: Vec::new(alloc),
        }
    }

    /// Adds the words of components, and their value if they have one.
    fn add_words(
        &mut self,
        alloc: Global,
        words: u32,
        names: &[DefiningName],
        of: &SubtypeView,
        value: Option<Typed>,
    ) -> Result<(), NoMemory>
        requires { words ≡ words_of of.now }
        ensures words { OnOk result (self.new.words ≡ word_after words self.old.words names.now) }
        ensures values { OnOk result (map component_value_model self.new.values.items ≡ with_value (map component_value_model self.old.values.items) of.now (places_from words self.old.words names.now) (option_map typed_model value)) }
        ensures components { self.new.components ≡ self.old.components }
        ensures types { self.new.types ≡ self.old.types }
    {
        let places = places_from(alloc, words, self.words, names)?;
        self.words = word_after(words, self.words, names);
        add_value(&mut self.values, words, of, places, value)
    }

    /// Adds components of these names of a subtype, with their value if they have one.
    fn add(
        &mut self,
        alloc: Global,
        standard: &StandardTypes,
        names: &[DefiningName],
        of: &SubtypeView,
        value: Option<Typed>,
    ) -> Result<(), NoMemory>
        ensures { OnOk result (private_model self.new ≡ with_components (private_model self.old) names.now (of.now, option_map typed_model value)) }
    {
        add_named(alloc, &mut self.components, of, names)?;
        add_types(alloc, standard, &mut self.types, of.types.as_slice())?;
        self.add_words(alloc, words_of(standard, of), names, of, value)
    }
}

/// The value of components of a subtype that was checked.
fn initial_read<R: PartAnalyzer, A: Answers>(
    alloc: Global,
    analyzer: &R,
    scope: &Scope,
    of: &CheckResult<SubtypeView>,
    initial: &Option<Expression>,
    recorder: &mut Recorder<A>,
) -> Result<CheckResult<Option<Typed>>, NoMemory>
    ensures asked { recorder.new.asked ≡ recorder.old.asked }
    ensures answered { IfOk result (λ value. FromAnswers recorder.old.log recorder.new.log (λ t. map_ok (option_map typed_model) value ≡ initial_read (R.reading analyzer.now t) scope.now of.now (option_map expression_model initial.now))) }
{
    match (initial, of) {
        (None, _) => Ok(Ok(None)),
        (Some(_), Err(fault)) => Ok(Err(*fault)),
        (Some(value), Ok(of)) => value_read(alloc, analyzer, scope, of, value, recorder),
    }
}

/// The value of components of this subtype.
fn value_read<R: PartAnalyzer, A: Answers>(
    alloc: Global,
    analyzer: &R,
    scope: &Scope,
    of: &SubtypeView,
    value: &Expression,
    recorder: &mut Recorder<A>,
) -> Result<CheckResult<Option<Typed>>, NoMemory>
    ensures asked { recorder.new.asked ≡ recorder.old.asked }
    ensures answered { IfOk result (λ checked. FromAnswers recorder.old.log recorder.new.log (λ t. map_ok (option_map typed_model) checked ≡ map_ok Some ((R.reading analyzer.now t).value scope.now of.now (expression_model value.now)))) }
{
    let value = analyzer.value(alloc, scope, of, value, recorder)?;
    Ok(some_value(value))
}

fn some_value(value: CheckResult<Typed>) -> CheckResult<Option<Typed>>
    ensures { map_ok (option_map typed_model) result ≡ map_ok Some (map_ok typed_model value) }
{
    match value {
        Ok(value) => Ok(Some(value)),
        Err(fault) => Err(fault),
    }
}

/// The subtype and the value of components whose names are begun.
fn parts_read<R: PartAnalyzer, A: Answers>(
    alloc: Global,
    analyzer: &R,
    scope: &Scope,
    component: &ProtectedComponent,
    recorder: &mut Recorder<A>,
) -> Result<CheckResult<(SubtypeView, Option<Typed>)>, NoMemory>
    ensures asked { recorder.new.asked ≡ recorder.old.asked }
    ensures answered { IfOk result (λ parts. FromAnswers recorder.old.log recorder.new.log (λ t. map_ok (λ p. (p.0, option_map typed_model p.1)) parts ≡ parts_read (R.reading analyzer.now t) scope.now (protected_component_model component.now))) }
{
    let of = analyzer.indication(alloc, scope, &component.indication, recorder)?;
    match initial_read(alloc, analyzer, scope, &of, &component.initial, recorder) {
        Ok(value) => Ok(both(of, value)),
        Err(none) => {
            drop(of);
            Err(none)
        }
    }
}

/// Adds components of these names, with what may be wrong with the names.
fn add_parts(
    alloc: Global,
    standard: &StandardTypes,
    components: &mut PrivateComponents,
    names: &[DefiningName],
    fault: Option<Fault>,
    parts: CheckResult<(SubtypeView, Option<Typed>)>,
) -> Result<CheckResult<()>, NoMemory>
    ensures { IfOk result (λ checked. so_far (private_model components.new) checked ≡ map_ok (with_components (private_model components.old) names.now) (unless fault (map_ok (λ p. (p.0, option_map typed_model p.1)) parts))) }
{
    match unless(fault, parts) {
        Ok((of, value)) => {
            components.add(alloc, standard, names, &of, value)?;
            Ok(Ok(()))
        }
        Err(fault) => Ok(Err(fault)),
    }
}

/// Adds the components of these names: the names are begun, and then visible.
fn component_named<R: PartAnalyzer, A: Answers>(
    alloc: Global,
    standard: &StandardTypes,
    analyzer: &R,
    scope: &mut Scope,
    components: &mut PrivateComponents,
    component: &ProtectedComponent,
    names: &[DefiningName],
    recorder: &mut Recorder<A>,
) -> Result<CheckResult<()>, NoMemory>
    requires { 0 < length scope.old.regions }
    ensures asked { recorder.new.asked ≡ recorder.old.asked }
    ensures answered { IfOk result (λ checked. FromAnswers recorder.old.log recorder.new.log (λ t. so_far (private_model components.new) checked ≡ component_named (R.reading analyzer.now t) t scope.old (private_model components.old) (protected_component_model component.now) names.now)) }
    ensures scope { OnOk result (scope.new ≡ made_visible (begun scope.old names.now) names.now) }
    ensures depth { length scope.new.regions ≡ length scope.old.regions }
{
    let fault = names_fault(alloc, scope, names, recorder)?;
    begin(scope, names)?;
    let parts = parts_read(alloc, analyzer, scope, component, recorder)?;
    visible_after(alloc, standard, scope, components, names, fault, parts)
}

/// Makes the names of components that were read visible from there on.
fn visible_after(
    alloc: Global,
    standard: &StandardTypes,
    scope: &mut Scope,
    components: &mut PrivateComponents,
    names: &[DefiningName],
    fault: Option<Fault>,
    parts: CheckResult<(SubtypeView, Option<Typed>)>,
) -> Result<CheckResult<()>, NoMemory>
    requires { 0 < length scope.old.regions }
    ensures made { IfOk result (λ checked. so_far (private_model components.new) checked ≡ map_ok (with_components (private_model components.old) names.now) (unless fault (map_ok (λ p. (p.0, option_map typed_model p.1)) parts))) }
    ensures scope { OnOk result (scope.new ≡ made_visible scope.old names.now) }
    ensures depth { length scope.new.regions ≡ length scope.old.regions }
{
    let checked = add_parts(alloc, standard, components, names, fault, parts)?;
    make_visible(alloc, scope, names)?;
    Ok(checked)
}

fn check_component<R: PartAnalyzer, A: Answers>(
    alloc: Global,
    standard: &StandardTypes,
    analyzer: &R,
    scope: &mut Scope,
    components: &mut PrivateComponents,
    component: &ProtectedComponent,
    recorder: &mut Recorder<A>,
) -> Result<CheckResult<()>, NoMemory>
    requires { 0 < length scope.old.regions }
    ensures asked { recorder.new.asked ≡ recorder.old.asked }
    ensures answered { IfOk result (λ checked. FromAnswers recorder.old.log recorder.new.log (λ t. so_far (private_model components.new) checked ≡ component_checked (R.reading analyzer.now t) t scope.old (private_model components.old) (protected_component_model component.now))) }
    ensures scope { OnOk result (scope.new ≡ after_component scope.old (protected_component_model component.now)) }
    ensures depth { length scope.new.regions ≡ length scope.old.regions }
{
    let names = defining_names(alloc, &component.names)?;
    let names = names.as_slice();
    component_named(
        alloc, standard, analyzer, scope, components, component, names, recorder,
    )
}

/// Adds the components in source order; a faulty one ends the list.
pub(crate) fn check_components<R: PartAnalyzer, A: Answers>(
    alloc: Global,
    standard: &StandardTypes,
    analyzer: &R,
    scope: &mut Scope,
    components: &mut PrivateComponents,
    texts: &[ProtectedComponent],
    recorder: &mut Recorder<A>,
) -> Result<CheckResult<()>, NoMemory>
    requires { 0 < length scope.old.regions }
    ensures asked { recorder.new.asked ≡ recorder.old.asked }
    ensures answered { IfOk result (λ checked. FromAnswers recorder.old.log recorder.new.log (λ t. so_far (private_model components.new) checked ≡ components_checked (R.reading analyzer.now t) t scope.old (private_model components.old) (map protected_component_model texts.now))) }
    ensures outer { OnOk result (StaysInner scope.old scope.new) }
    ensures depth { length scope.new.regions ≡ length scope.old.regions }
{
    for text in texts {
        match check_component(alloc, standard, analyzer, scope, components, text, recorder)? {
            Ok(()) => {}
            Err(fault) => return Ok(Err(fault)),
        }
    }
    Ok(Ok(()))
}
