// Library units that are mentioned at a place (ARM 10.1.2(6)).
ghost use Rattle.std.specs.Prelude.{◌≡◌, ◌∷◌, [], ◌++◌, fold, IfOk, OnOk, Some, if◌then◌else◌};
ghost use Rattle.std.specs.Option.{option_copied};
ghost use Rattle.al_base.specs.declared.unit_key.UnitKind.{UnitKind};
ghost use Rattle.al_query.specs.Answers.{declaration, own_view_of};
ghost use Rattle.al_query.specs.Known.{has_unit};
ghost use Rattle.al_query.specs.Reads.{FromAnswers};
ghost use Rattle.al_query.specs.declared.query.Property.TheVariants.{Kind};
ghost use Rattle.al_query.specs.declared.query.Query.TheVariants.{Of};
ghost use Rattle.al_scope.specs.UnitPlaces.{is_package_view};
ghost use Rattle.al_view.specs.Symbols.{same_unit};
ghost use Rattle.al_scope_context.specs.Contexts.{Mentioned, all_mentioned, is_nothing, library_view, mentioned, packaged, telling_half};

use al_base::{Name, NoMemory, UnitKey, UnitKind};
use al_query::{AnswerKind, Answers, Property, Query, Recorder};
use al_scope::Scope;
use al_view::{Seq, View, ViewKind, is_unit};
use std::alloc::Global;

/// The question what the unit of that name and kind is.
fn question(alloc: Global, name: &[u8], kind: UnitKind) -> Result<Query, NoMemory>
    ensures { IfOk result (λ query. query ≡ Of (record { name = name.now; kind = kind }) Kind) }
{
    let name = Name::from_slice(alloc, name)?;
    let unit = UnitKey { name, kind };
    let property = Property::Kind;
    Ok(Query::Of { unit, property })
}

/// The same view, shared, if there is one.
/// # Errors
/// `NoMemory` if the allocator refuses memory.
pub fn shared(view: Option<&View>) -> Result<Option<View>, NoMemory>
    ensures { IfOk result (λ copy. copy ≡ option_copied view.entry) }
{
    match view {
        Some(view) => Ok(Some(view.share()?)),
        None => Ok(None),
    }
}

/// The own view of the declaration or the body of that name.
/// # Errors
/// `NoMemory` if the allocator refuses memory.
pub fn view_of<A: Answers>(
    alloc: Global,
    name: &[u8],
    kind: UnitKind,
    recorder: &mut Recorder<A>,
) -> Result<Option<View>, NoMemory>
    ensures asked { recorder.new.asked ≡ recorder.old.asked }
    ensures answered { IfOk result (λ view. FromAnswers recorder.old.log recorder.new.log (λ t. view ≡ own_view_of (t (Of (record { name = name.now; kind = kind }) Kind)))) }
{
    let query = question(alloc, name, kind)?;
    let answer = recorder.ask(&query)?;
    let view = shared(answer.own_view())?;
    Ok(view)
}

/// Whether it is the answer of a unit that isn't there.
fn is_nothing(answer: &AnswerKind) -> bool
    ensures { result ≡ is_nothing answer.now }
{
    matches!(answer, AnswerKind::Nothing)
}

/// Which half of a library unit says what the unit is: its declaration, or if there is none the body that acts as one (ARM 10.1.4(4)).
fn telling_half<A: Answers>(
    alloc: Global,
    name: &[u8],
    recorder: &mut Recorder<A>,
) -> Result<UnitKind, NoMemory>
    ensures asked { recorder.new.asked ≡ recorder.old.asked }
    ensures answered { IfOk result (λ kind. FromAnswers recorder.old.log recorder.new.log (λ t. kind ≡ telling_half t name.now)) }
{
    let query = question(alloc, name, UnitKind::Decl)?;
    let answer = recorder.ask(&query)?;
    if is_nothing(answer.kind()) {
        return Ok(UnitKind::Body);
    }
    Ok(UnitKind::Decl)
}

/// The own view of a library unit: that of its declaration, or if there is none that of the body that acts as one (ARM 10.1.4(4)).
/// # Errors
/// `NoMemory` if the allocator refuses memory.
pub fn library_view<A: Answers>(
    alloc: Global,
    name: &[u8],
    recorder: &mut Recorder<A>,
) -> Result<Option<View>, NoMemory>
    ensures asked { recorder.new.asked ≡ recorder.old.asked }
    ensures answered { IfOk result (λ view. FromAnswers recorder.old.log recorder.new.log (λ t. view ≡ library_view t name.now)) }
{
    let kind = telling_half(alloc, name, recorder)?;
    let view = view_of(alloc, name, kind, recorder)?;
    Ok(view)
}

/// Whether it is the view of a package.
fn is_package(view: &View) -> bool
    ensures { result ≡ is_package_view (Some view.now) }
{
    matches!(view.kind(), ViewKind::OfPackage(_))
}

/// Whether the unit is among these.
pub fn has_unit(units: &[UnitKey], unit: &UnitKey) -> bool
    ensures { result ≡ has_unit units.now unit.now }
{
    units.iter().any(|other| is_unit(unit, other))
}

/// Adds a package, unless it is there.
fn add_package(alloc: Global, name: &[u8], packages: &mut Seq<UnitKey>) -> Result<(), NoMemory>
    ensures { OnOk result (packages.new ≡ (if has_unit packages.old (declaration name.now) then packages.old else packages.old ++ declaration name.now ∷ [])) }
{
    let name = Name::from_slice(alloc, name)?;
    let kind = UnitKind::Decl;
    let unit = UnitKey { name, kind };
    if has_unit(packages.as_slice(), &unit) {
        return Ok(());
    }
    packages.push(unit)?;
    Ok(())
}

/// Mentions a unit with this view, if there is one. If it is a package, it is added to the packages.
/// # Errors
/// `NoMemory` if the allocator refuses memory.
pub fn mention_view(
    alloc: Global,
    scope: &mut Scope,
    packages: &mut Seq<UnitKey>,
    name: &[u8],
    view: &Option<View>,
) -> Result<(), NoMemory>
    ensures scope { OnOk result (scope.new ≡ mentioned view.now name.now scope.old) }
    ensures packages { OnOk result (packages.new ≡ packaged view.now name.now packages.old) }
    ensures regions { scope.new.regions ≡ scope.old.regions }
{
    let Some(view) = view else {
        return Ok(());
    };
    scope.mention(name, view.share()?)?;
    if is_package(view) {
        add_package(alloc, name, packages)?;
        return Ok(());
    }
    Ok(())
}

/// Whether the unit is the declaration of that name.
fn is_declaration(unit: &UnitKey, name: &[u8]) -> bool
    ensures { result ≡ same_unit unit.now (declaration name.now) }
{
    matches!(unit.kind, UnitKind::Decl) && unit.name.as_slice() == name
}

/// Mentions the unit of that name, if it exists. The declaration `own` isn't asked what it is itself.
fn mention_one<A: Answers>(
    alloc: Global,
    own: &UnitKey,
    scope: &mut Scope,
    packages: &mut Seq<UnitKey>,
    name: &[u8],
    recorder: &mut Recorder<A>,
) -> Result<(), NoMemory>
    ensures asked { recorder.new.asked ≡ recorder.old.asked }
    ensures answered { OnOk result (FromAnswers recorder.old.log recorder.new.log (λ t. Mentioned t own.now name.now scope.old packages.old scope.new packages.new)) }
    ensures regions { scope.new.regions ≡ scope.old.regions }
{
    if is_declaration(own, name) {
        return Ok(());
    }
    let view = library_view(alloc, name, recorder)?;
    mention_view(alloc, scope, packages, name, &view)?;
    Ok(())
}

/// Mentions the units of these names at a place in the unit `own`, as far as they exist, and adds the packages among them to the packages. A
/// declaration isn't asked what it is itself.
/// # Errors
/// `NoMemory` if the allocator refuses memory.
pub fn mention_all<A: Answers>(
    alloc: Global,
    own: &UnitKey,
    scope: &mut Scope,
    packages: &mut Seq<UnitKey>,
    names: &[Name],
    recorder: &mut Recorder<A>,
) -> Result<(), NoMemory>
    ensures asked { recorder.new.asked ≡ recorder.old.asked }
    ensures answered { OnOk result (FromAnswers recorder.old.log recorder.new.log (λ t. (scope.new, packages.new) ≡ all_mentioned t own.now scope.old packages.old names.now)) }
    ensures regions { scope.new.regions ≡ scope.old.regions }
{
    for name in names {
        mention_one(alloc, own, scope, packages, name.as_slice(), recorder)?;
    }
    Ok(())
}
