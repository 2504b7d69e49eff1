// Names of several identifiers at their place, like the marks of declarations.
ghost use Rattle.std.specs.Prelude.{◌≡◌, IfOk, map};
ghost use Rattle.al_base_fault.specs.Judging.{map_ok};
ghost use Rattle.al_overload_lookup.specs.Keys.{denoted};
ghost use Rattle.al_overload_lookup.specs.Lookups.{asked_units, names_at};
ghost use Rattle.al_query.specs.Asked.{AsksOf, by_some_name};
ghost use Rattle.al_query.specs.Reads.{FromAnswers};
ghost use Rattle.al_overload_readings.specs.ReadingViews.{reading_model};
ghost use Rattle.al_overload_readings.specs.Texts.{mark_of_text, read};
ghost use Rattle.al_overload_values.specs.CompoundNames.{name_text};
ghost use Rattle.al_overload_values.specs.TermsAt.{mark_at};
ghost use Rattle.al_tree.specs.DeclarationViews.{compound_model};
ghost use Rattle.al_tree.specs.Lexemes.{identifier_label};

use al_base::{NoMemory, UnitKey};
use al_base_fault::CheckResult;
use al_overload_lookup::{Names, look_up_selected};
use al_overload_readings::{Reading, as_mark, read_identifier, select};
use al_query::{Answers, Recorder};
use al_scope::Scope;
use al_tree::{CompoundName, Identifier};
use al_view::SubtypeView;
use std::alloc::Global;

/// What a name of these identifiers may be.
#[tactic(auto, using(crate::proofs::Compounds::first_read))]
fn read_parts(
    alloc: Global,
    names: &Names,
    first: &Identifier,
    selectors: &[Identifier],
) -> Result<CheckResult<Reading>, NoMemory>
    ensures { IfOk result (λ checked. map_ok reading_model checked ≡ read (denoted names.now) (name_text (record { first = identifier_label first.now; selectors = map identifier_label selectors.now }))) }
{
    let mut checked = read_identifier(alloc, names, first)?;
    for selector in selectors {
        let longer = select(alloc, names, selector, checked)?;
        checked = longer;
    }
    Ok(checked)
}

/// What a name of several identifiers may be.
fn read_name(
    alloc: Global,
    names: &Names,
    name: &CompoundName,
) -> Result<CheckResult<Reading>, NoMemory>
    ensures { IfOk result (λ checked. map_ok reading_model checked ≡ read (denoted names.now) (name_text (compound_model name.now))) }
{
    let checked = read_parts(alloc, names, &name.first, &name.selectors)?;
    Ok(checked)
}

/// What the names in a name of several identifiers denote at a place.
fn names_of_name<A: Answers>(
    alloc: Global,
    scope: &Scope,
    packages: &[UnitKey],
    name: &CompoundName,
    recorder: &mut Recorder<A>,
) -> Result<Names, NoMemory>
    ensures asked { recorder.new.asked ≡ recorder.old.asked }
    ensures answered { IfOk result (λ names. FromAnswers recorder.old.log recorder.new.log (λ t. names ≡ names_at t scope.now packages.now (name_text (compound_model name.now)))) }
    ensures asks { IfOk result (λ _. AsksOf (asked_units scope.now packages.now) by_some_name recorder.old.log recorder.new.log) }
{
    let selectors = name.selectors.as_slice();
    let names = look_up_selected(alloc, scope, packages, &name.first, selectors, recorder)?;
    Ok(names)
}

#[tactic(auto, unfolding(al_overload_readings::specs::Texts::mark_of_text))]
fn mark_of_name(
    alloc: Global,
    names: &Names,
    name: &CompoundName,
) -> Result<CheckResult<SubtypeView>, NoMemory>
    ensures { IfOk result (λ mark. mark ≡ mark_of_text (denoted names.now) (name_text (compound_model name.now))) }
{
    let checked = read_name(alloc, names, name)?;
    match as_mark(alloc, checked)? {
        Ok((_, subtype)) => Ok(Ok(subtype)),
        Err(fault) => Ok(Err(fault)),
    }
}

/// The subtype that a mark of several identifiers names at a place (ARM 3.2.2).
/// # Errors
/// `NoMemory` if the allocator refuses memory. The inner error is E401 at an identifier that isn't visible; E404 at what is no mark.
pub fn name_mark_at<A: Answers>(
    alloc: Global,
    scope: &Scope,
    packages: &[UnitKey],
    name: &CompoundName,
    recorder: &mut Recorder<A>,
) -> Result<CheckResult<SubtypeView>, NoMemory>
    ensures asked { recorder.new.asked ≡ recorder.old.asked }
    ensures answered { IfOk result (λ mark. FromAnswers recorder.old.log recorder.new.log (λ t. mark ≡ mark_at t scope.now packages.now (name_text (compound_model name.now)))) }
    ensures asks { IfOk result (λ _. AsksOf (asked_units scope.now packages.now) by_some_name recorder.old.log recorder.new.log) }
{
    let names = names_of_name(alloc, scope, packages, name, recorder)?;
    let mark = mark_of_name(alloc, &names, name)?;
    Ok(mark)
}
