// Components of a record type at a place (ARM 3.8).
ghost use Rattle.std.specs.Prelude.{◌≡◌, ◌<◌, ◌++◌, [], length, map, IfOk, OnOk, Ok};
ghost use Rattle.al_decl.specs.Components.{after_component, after_components, component_parts, named_parts, names_fault, part, parts_after, parts_of_both};
ghost use Rattle.al_decl.specs.Founds.{found_model};
ghost use Rattle.al_decl.specs.Declaring.{begun};
ghost use Rattle.al_decl.specs.Inner.{made_visible};
ghost use Rattle.al_base_fault.specs.Judging.{map_ok, unless};
ghost use Rattle.al_query.specs.Reads.{FromAnswers};
ghost use Rattle.al_tree.specs.DeclarationViews.{component_model};

use crate::{PartAnalyzer, begin, defining_names, fixed_duplicates, make_visible};
use al_base::{Name, NoMemory};
use al_base_fault::{CheckResult, Fault, earlier, unless};
use al_decl_judged::{DefiningName, Part, copied_subtype, repeated};
use al_query::{Answers, Recorder};
use al_scope::Scope;
use al_tree::ComponentDeclaration;
use al_view::{Seq, SubtypeView};
use std::alloc::Global;

fn part(alloc: Global, of: &SubtypeView, name: &DefiningName) -> Result<Part, NoMemory>
    ensures { IfOk result (λ made. made ≡ part of.now name.now) }
{
    let of = copied_subtype(alloc, of)?;
    let name = Name::from_slice(alloc, name.name.as_slice())?;
    Ok(Part { name, of })
}

/// Adds a part for each of these names.
fn add_parts(
    alloc: Global,
    parts: &mut Seq<Part>,
    of: &SubtypeView,
    names: &[DefiningName],
) -> Result<(), NoMemory>
    ensures { OnOk result (parts.new ≡ parts.old ++ map (part of.now) names.now) }
{
    for name in names {
        parts.push(part(alloc, of, name)?)?;
    }
    Ok(())
}

/// The components so far, and the first rule that one of them breaks.
pub struct ComponentList {
    /// The components so far.
    pub parts: Seq<Part>,
    /// The first fault of one of them.
    pub fault: Option<Fault>,
}

impl Drop for ComponentList {
    fn drop(self) {
        let ComponentList { parts: _, fault: _ } = self;
    }
}

impl ComponentList {
    /// No components yet.
    pub(crate) fn new(alloc: Global) -> ComponentList
        ensures { found_model result ≡ Ok [] }
    {
        ComponentList {
            parts: Seq::empty(alloc),
            fault: None,
        }
    }

    /// Adds components of these names of a subtype that was checked, with what else may be wrong with them.
    fn add(
        &mut self,
        alloc: Global,
        fault: Option<Fault>,
        of: CheckResult<SubtypeView>,
        names: &[DefiningName],
    ) -> Result<(), NoMemory>
        ensures { OnOk result (found_model self.new ≡ parts_of_both (found_model self.old) (unless fault (map_ok (λ s. map (part s) names.now) of))) }
    {
        match unless(fault, of) {
            Ok(of) => add_parts(alloc, &mut self.parts, &of, names),
            Err(fault) => {
                self.fault = earlier(self.fault, Some(fault));
                Ok(())
            }
        }
    }

    /// The components, or the first fault.
    pub(crate) fn checked(self) -> CheckResult<Seq<Part>>
        ensures { result ≡ found_model self }
    {
        let ComponentList { parts, fault } = self;
        unless(fault, Ok(parts))
    }
}

/// E301 at the first of these names that a component of the record has already, or that is twice among them.
/// # Errors
/// `NoMemory` if the allocator refuses memory.
pub fn names_fault<A: Answers>(
    alloc: Global,
    scope: &Scope,
    names: &[DefiningName],
    recorder: &mut Recorder<A>,
) -> Result<Option<Fault>, NoMemory>
    requires { 0 < length scope.now.regions }
    ensures asked { recorder.new.asked ≡ recorder.old.asked }
    ensures answered { IfOk result (λ fault. FromAnswers recorder.old.log recorder.new.log (λ t. fault ≡ names_fault t scope.now names.now)) }
{
    let duplicate = fixed_duplicates(alloc, scope, names, recorder)?;
    let twice = repeated(alloc, names)?;
    Ok(earlier(duplicate, twice))
}

/// Adds the components of these names: the names are begun, and then visible.
fn named_parts<R: PartAnalyzer, A: Answers>(
    alloc: Global,
    analyzer: &R,
    scope: &mut Scope,
    found: &mut ComponentList,
    component: &ComponentDeclaration,
    names: &[DefiningName],
    recorder: &mut Recorder<A>,
) -> Result<(), NoMemory>
    requires { 0 < length scope.old.regions }
    ensures asked { recorder.new.asked ≡ recorder.old.asked }
    ensures answered { OnOk result (FromAnswers recorder.old.log recorder.new.log (λ t. found_model found.new ≡ parts_of_both (found_model found.old) (named_parts (R.reading analyzer.now t) t scope.old (component_model component.now) names.now))) }
    ensures scope { OnOk result (scope.new ≡ made_visible (begun scope.old names.now) names.now) }
    ensures depth { length scope.new.regions ≡ length scope.old.regions }
{
    let fault = names_fault(alloc, scope, names, recorder)?;
    begin(scope, names)?;
    let of = analyzer.indication(alloc, scope, &component.indication, recorder)?;
    found.add(alloc, fault, of, names)?;
    make_visible(alloc, scope, names)
}

/// Adds the components of one list of names.
pub(crate) fn check_component<R: PartAnalyzer, A: Answers>(
    alloc: Global,
    analyzer: &R,
    scope: &mut Scope,
    found: &mut ComponentList,
    component: &ComponentDeclaration,
    recorder: &mut Recorder<A>,
) -> Result<(), NoMemory>
    requires { 0 < length scope.old.regions }
    ensures asked { recorder.new.asked ≡ recorder.old.asked }
    ensures answered { OnOk result (FromAnswers recorder.old.log recorder.new.log (λ t. found_model found.new ≡ parts_of_both (found_model found.old) (component_parts (R.reading analyzer.now t) t scope.old (component_model component.now)))) }
    ensures scope { OnOk result (scope.new ≡ after_component scope.old (component_model component.now)) }
    ensures depth { length scope.new.regions ≡ length scope.old.regions }
{
    let names = defining_names(alloc, &component.names)?;
    let names = names.as_slice();
    named_parts(alloc, analyzer, scope, found, component, names, recorder)
}

/// Adds the components of all lists, in source order.
pub(crate) fn check_components<R: PartAnalyzer, A: Answers>(
    alloc: Global,
    analyzer: &R,
    scope: &mut Scope,
    found: &mut ComponentList,
    components: &[ComponentDeclaration],
    recorder: &mut Recorder<A>,
) -> Result<(), NoMemory>
    requires { 0 < length scope.old.regions }
    ensures asked { recorder.new.asked ≡ recorder.old.asked }
    ensures answered { OnOk result (FromAnswers recorder.old.log recorder.new.log (λ t. found_model found.new ≡ parts_after (R.reading analyzer.now t) t scope.old (found_model found.old) (map component_model components.now))) }
    ensures scope { OnOk result (scope.new ≡ after_components scope.old (map component_model components.now)) }
    ensures depth { length scope.new.regions ≡ length scope.old.regions }
{
    for component in components {
        check_component(alloc, analyzer, scope, found, component, recorder)?;
    }
    Ok(())
}
