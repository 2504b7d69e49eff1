// Homographs of what is declared (ARM 8.3(26)).
ghost use Rattle.std.specs.Prelude.{◌≡◌, ◌<◌, ◌∷◌, [], length, not, IfOk};
ghost use Rattle.std.specs.List.{list_any};
ghost use Rattle.al_decl_judged.specs.DefiningNames.{names_of};
ghost use Rattle.al_decl.specs.Declaring.{duplicate, duplicates, overloaded_duplicate, overloaded_duplicates};
ghost use Rattle.al_query.specs.Asked.{AsksOf, by_name};
ghost use Rattle.al_query.specs.Reads.{FromAnswers};
ghost use Rattle.al_scope.specs.Places.{inner_parts, part_units};
ghost use Rattle.al_view.specs.Homographs.{may_be_overloaded};
ghost use Rattle.al_view.specs.declared.view.ViewKind.TheVariants.{OfComponent};

use al_base::NoMemory;
use al_base_fault::{Fault, earlier};
use al_decl_judged::{DefiningName, duplicate_at};
use al_query::{Answers, Recorder};
use al_scope::Scope;
use al_view::{View, ViewKind};
use std::alloc::Global;

/// E301 at a name, if the innermost region has a homograph of that view under it.
/// # Errors
/// `NoMemory` if the allocator refuses memory.
pub fn duplicate<A: Answers>(
    scope: &Scope,
    view: &View,
    name: &DefiningName,
    recorder: &mut Recorder<A>,
) -> Result<Option<Fault>, NoMemory>
    requires { 0 < length scope.now.regions }
    ensures asked { recorder.new.asked ≡ recorder.old.asked }
    ensures answered { IfOk result (λ fault. FromAnswers recorder.old.log recorder.new.log (λ t. fault ≡ duplicate t scope.now view.now name.now)) }
    ensures asks { IfOk result (λ _. AsksOf (part_units (inner_parts scope.now.regions)) (by_name (name.now.name ∷ [])) recorder.old.log recorder.new.log) }
{
    if scope.has_homograph(name.name.as_slice(), view, recorder)? {
        return Ok(Some(duplicate_at(name)));
    }
    Ok(None)
}

/// E301 at the first of these names under which the innermost region has a homograph of that view.
/// # Errors
/// `NoMemory` if the allocator refuses memory.
pub fn duplicates<A: Answers>(
    scope: &Scope,
    view: &View,
    names: &[DefiningName],
    recorder: &mut Recorder<A>,
) -> Result<Option<Fault>, NoMemory>
    requires { 0 < length scope.now.regions }
    ensures asked { recorder.new.asked ≡ recorder.old.asked }
    ensures answered { IfOk result (λ fault. FromAnswers recorder.old.log recorder.new.log (λ t. fault ≡ duplicates t scope.now view.now names.now)) }
    ensures asks { IfOk result (λ _. AsksOf (part_units (inner_parts scope.now.regions)) (by_name (names_of names.now)) recorder.old.log recorder.new.log) }
{
    let mut found = None;
    for name in names {
        found = earlier(found, duplicate(scope, view, name, recorder)?);
    }
    Ok(found)
}

/// E301 at the first of these names, which may not be overloaded, of which the innermost region has any declaration.
/// # Errors
/// `NoMemory` if the allocator refuses memory.
pub fn fixed_duplicates<A: Answers>(
    alloc: Global,
    scope: &Scope,
    names: &[DefiningName],
    recorder: &mut Recorder<A>,
) -> Result<Option<Fault>, NoMemory>
    requires { 0 < length scope.now.regions }
    ensures asked { recorder.new.asked ≡ recorder.old.asked }
    ensures answered { IfOk result (λ fault. FromAnswers recorder.old.log recorder.new.log (λ t. fault ≡ duplicates t scope.now OfComponent names.now)) }
    ensures asks { IfOk result (λ _. AsksOf (part_units (inner_parts scope.now.regions)) (by_name (names_of names.now)) recorder.old.log recorder.new.log) }
{
    let view = View::new(alloc, ViewKind::OfComponent)?;
    duplicates(scope, &view, names, recorder)
}

/// E301 at a name, which may not be overloaded, if the innermost region has any declaration of it.
/// # Errors
/// `NoMemory` if the allocator refuses memory.
pub fn fixed_duplicate<A: Answers>(
    alloc: Global,
    scope: &Scope,
    name: &DefiningName,
    recorder: &mut Recorder<A>,
) -> Result<Option<Fault>, NoMemory>
    requires { 0 < length scope.now.regions }
    ensures asked { recorder.new.asked ≡ recorder.old.asked }
    ensures answered { IfOk result (λ fault. FromAnswers recorder.old.log recorder.new.log (λ t. fault ≡ duplicate t scope.now OfComponent name.now)) }
    ensures asks { IfOk result (λ _. AsksOf (part_units (inner_parts scope.now.regions)) (by_name (name.now.name ∷ [])) recorder.old.log recorder.new.log) }
{
    let view = View::new(alloc, ViewKind::OfComponent)?;
    duplicate(scope, &view, name, recorder)
}

fn has_fixed(views: &[View]) -> bool
    ensures { result ≡ list_any (λ v. not (may_be_overloaded v)) views.now }
{
    views.iter().any(|view| !view.may_be_overloaded())
}

/// E301 at a name that may be overloaded, if the innermost region has a declaration of it that may not be. It serves for a literal of a
/// type that is being declared, as nothing else there can be of its type (ARM 3.5.1(6), 8.3(8)), and for a subprogram whose types aren't
/// known.
/// # Errors
/// `NoMemory` if the allocator refuses memory.
pub fn overloaded_duplicate<A: Answers>(
    scope: &Scope,
    name: &DefiningName,
    recorder: &mut Recorder<A>,
) -> Result<Option<Fault>, NoMemory>
    requires { 0 < length scope.now.regions }
    ensures asked { recorder.new.asked ≡ recorder.old.asked }
    ensures answered { IfOk result (λ fault. FromAnswers recorder.old.log recorder.new.log (λ t. fault ≡ overloaded_duplicate t scope.now name.now)) }
    ensures asks { IfOk result (λ _. AsksOf (part_units (inner_parts scope.now.regions)) (by_name (name.now.name ∷ [])) recorder.old.log recorder.new.log) }
{
    let views = scope.declared_here(name.name.as_slice(), recorder)?;
    if has_fixed(views.as_slice()) {
        return Ok(Some(duplicate_at(name)));
    }
    Ok(None)
}

/// E301 at the first of several names that may be overloaded, as for one such name.
/// # Errors
/// `NoMemory` if the allocator refuses memory.
pub fn overloaded_duplicates<A: Answers>(
    scope: &Scope,
    names: &[DefiningName],
    recorder: &mut Recorder<A>,
) -> Result<Option<Fault>, NoMemory>
    requires { 0 < length scope.now.regions }
    ensures asked { recorder.new.asked ≡ recorder.old.asked }
    ensures answered { IfOk result (λ fault. FromAnswers recorder.old.log recorder.new.log (λ t. fault ≡ overloaded_duplicates t scope.now names.now)) }
    ensures asks { IfOk result (λ _. AsksOf (part_units (inner_parts scope.now.regions)) (by_name (names_of names.now)) recorder.old.log recorder.new.log) }
{
    let mut found = None;
    for name in names {
        found = earlier(found, overloaded_duplicate(scope, name, recorder)?);
    }
    Ok(found)
}
