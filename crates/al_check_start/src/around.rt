// Whether the units that enclose a unit are there, and what their use clauses open is mentioned (ARM 8.4, 10.1.1, 10.1.2).
ghost use Rattle.std.specs.Prelude.{◌≡◌, ◌&&◌, ◌||◌, not, IfOk};
ghost use Rattle.al_base.specs.declared.unit_key.UnitKind.TheVariants.{Decl};
ghost use Rattle.al_view.specs.Symbols.{same_kind, same_unit};
ghost use Rattle.al_check_start.specs.Starts.{key};
ghost use Rattle.std.specs.List.{list_all};
ghost use Rattle.std.specs.Option.{option_copied};
ghost use Rattle.al_query.specs.Known.{has_unit};
ghost use Rattle.al_query.specs.Reads.{FromAnswers};
ghost use Rattle.al_scope.specs.UnitPlaces.{asked_units};
ghost use Rattle.al_tree.specs.UnitViews.{unit_model};
ghost use Rattle.al_unit_graph.specs.Headers.{kind_of};
ghost use Rattle.al_unit_graph.specs.Names.{is_without_file};
ghost use Rattle.al_unit_graph.specs.Views.{header_model};
ghost use Rattle.al_check_start.specs.Around.{all_open, around, is_in_body, is_own, is_surrounded, not_surrounded, opens_mentioned, opens_one_of};

use crate::item::item_name;
use crate::known::{units_round, with_halves};
use crate::named::own_mentions;
use al_base::{NoMemory, UnitKey, UnitKind};
use al_base_fault::{CheckRule, Fault};
use al_query::{Answers, ContextView, Property, Query, Recorder, UseClause, UseInPart};
use al_scope::{OwnText, UnitPart, asked_units};
use al_scope_context::{has_unit, is_without_file};
use al_tree::CompilationUnit;
use al_unit_graph::{Header, kind_of};
use al_view::{Symbol, copied_unit, is_unit};
use std::alloc::Global;

/// The units that enclose a unit, with their other halves.
fn around<A: Answers>(
    alloc: Global,
    unit: &UnitKey,
    header: &Header,
    recorder: &mut Recorder<A>,
) -> Result<Vec<UnitKey>, NoMemory>
    ensures asked { recorder.new.asked ≡ recorder.old.asked }
    ensures answered { IfOk result (λ units. FromAnswers recorder.old.log recorder.new.log (λ t. units.items ≡ around t unit.now (header_model header.now))) }
{
    let round = units_round(alloc, unit, header, recorder)?;
    let units = with_halves(alloc, unit, round, recorder)?;
    Ok(units)
}

/// Whether the header is the unit's.
fn is_headed(unit: &UnitKey, header: &Header) -> bool
    ensures { result ≡ same_unit unit.now (key (header_model header.now).name (kind_of (header_model header.now).form)) }
{
    unit.kind == kind_of(header.form) && unit.name.as_slice() == header.name.as_slice()
}

/// Whether a source with this header is the unit's own, and its with clauses don't mention the unit itself.
pub(crate) fn is_own(alloc: Global, unit: &UnitKey, header: &Header) -> Result<bool, NoMemory>
    ensures { IfOk result (λ is. is ≡ is_own unit.now (header_model header.now)) }
{
    let mentions = own_mentions(alloc, header)?;
    let is = is_headed(unit, header) && !has_unit(mentions.as_slice(), unit);
    Ok(is)
}

/// Whether the outermost unit that encloses a subunit is a library unit's body.
fn is_in_body(unit: &UnitKey, stubs: &[UnitPart]) -> bool
    ensures { result ≡ is_in_body unit.now stubs.now }
{
    match stubs {
        [stub, ..] => matches!(stub.unit.kind, UnitKind::Body),
        [] => !matches!(unit.kind, UnitKind::Sub),
    }
}

/// Whether all of the units are among these.
fn has_units(units: &[UnitKey], wanted: &[UnitKey]) -> bool
    ensures { result ≡ list_all (has_unit units.now) wanted.now }
{
    wanted.iter().all(|unit| has_unit(units, unit))
}

/// Whether a body declares the type, or one of these packages does, or a unit that is there without a file.
fn opens_type_of(packages: &[UnitKey], symbol: &Symbol) -> bool
    ensures { result ≡ (not (same_kind symbol.now.unit.kind Decl) || (has_unit packages.now symbol.now.unit || is_without_file symbol.now.unit.name)) }
{
    !matches!(symbol.unit.kind, UnitKind::Decl)
        || has_unit(packages, &symbol.unit)
        || is_without_file(symbol.unit.name.as_slice())
}

/// Whether a use clause opens one of these packages, or what is there without a file, or what a body declares.
fn opens_one_of(packages: &[UnitKey], clause: &UseClause) -> bool
    ensures { result ≡ opens_one_of packages.now clause.now }
{
    match clause {
        UseClause::Package(unit) => has_unit(packages, unit),
        UseClause::Type(symbol) => opens_type_of(packages, symbol),
        UseClause::Operators {
            of_type: _,
            types: _,
        } => true,
    }
}

/// Whether each of these use clauses does.
fn each_opens(packages: &[UnitKey], clauses: &[UseClause]) -> bool
    ensures { result ≡ list_all (opens_one_of packages.now) clauses.now }
{
    clauses.iter().all(|clause| opens_one_of(packages, clause))
}

/// Whether each of these use clauses in the parts of a unit does.
fn each_inside_opens(packages: &[UnitKey], uses: &[UseInPart]) -> bool
    ensures { result ≡ list_all (λ u. opens_one_of packages.now u.clause) uses.now }
{
    uses.iter().all(|used| opens_one_of(packages, &used.clause))
}

/// Whether all use clauses of a unit with this context do.
fn all_open(packages: &[UnitKey], context: Option<&ContextView>) -> bool
    ensures { result ≡ all_open packages.now (option_copied context.entry) }
{
    match context {
        Some(context) => {
            each_opens(packages, context.uses.as_slice())
                && each_inside_opens(packages, context.uses_inside.as_slice())
        }
        None => true,
    }
}

/// Whether all use clauses of this unit do.
fn opens_mentioned<A: Answers>(
    alloc: Global,
    packages: &[UnitKey],
    unit: &UnitKey,
    recorder: &mut Recorder<A>,
) -> Result<bool, NoMemory>
    ensures asked { recorder.new.asked ≡ recorder.old.asked }
    ensures answered { IfOk result (λ does. FromAnswers recorder.old.log recorder.new.log (λ t. does ≡ opens_mentioned t packages.now unit.now)) }
{
    let query = Query::Of {
        unit: copied_unit(alloc, unit)?,
        property: Property::Context,
    };
    let answer = recorder.ask(&query)?;
    let does = all_open(packages, answer.context());
    Ok(does)
}

/// Whether all use clauses of these units do. It asks up to the first that has one which doesn't.
fn all_open_mentioned<A: Answers>(
    alloc: Global,
    packages: &[UnitKey],
    units: &[UnitKey],
    recorder: &mut Recorder<A>,
) -> Result<bool, NoMemory>
    ensures asked { recorder.new.asked ≡ recorder.old.asked }
    ensures answered { IfOk result (λ do_. FromAnswers recorder.old.log recorder.new.log (λ t. do_ ≡ list_all (opens_mentioned t packages.now) units.now)) }
{
    for unit in units {
        let does = opens_mentioned(alloc, packages, unit, recorder)?;
        if !does {
            return Ok(false);
        }
    }
    Ok(true)
}

/// Whether three things hold.
fn all_three(one: bool, two: bool, three: bool) -> bool
    ensures { result ≡ (one && (two && three)) }
{
    one && two && three
}

/// Whether all that encloses a unit with this header is there, and what its use clauses open is among these packages.
pub(crate) fn is_surrounded<A: Answers>(
    alloc: Global,
    unit: &UnitKey,
    header: &Header,
    own: &OwnText,
    packages: &[UnitKey],
    recorder: &mut Recorder<A>,
) -> Result<bool, NoMemory>
    ensures asked { recorder.new.asked ≡ recorder.old.asked }
    ensures answered { IfOk result (λ is. FromAnswers recorder.old.log recorder.new.log (λ t. is ≡ is_surrounded t unit.now (header_model header.now) own.now packages.now)) }
{
    let there = around(alloc, unit, header, recorder)?;
    let asked = asked_units(alloc, own)?;
    let opens = all_open_mentioned(alloc, packages, asked.as_slice(), recorder)?;
    let whole = all_three(
        is_in_body(&own.unit, own.stubs.as_slice()),
        has_units(there.as_slice(), asked.as_slice()),
        opens,
    );
    Ok(whole)
}

/// E401 at the unit's name.
#[tactic(auto, unfolding(al_tree::specs::UnitViews::unit_model))]
pub(crate) fn not_surrounded(text: &CompilationUnit) -> Fault
    ensures { result ≡ not_surrounded (unit_model text.now) }
{
    Fault {
        place: item_name(&text.item).first.place,
        rule: CheckRule::NotVisible,
    }
}
