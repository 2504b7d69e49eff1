// Use clauses (ARM 8.4).
ghost use Rattle.std.specs.Prelude.{◌≡◌, ◌<◌, true, false, map, length, IfOk, OnOk};
ghost use Rattle.al_base_fault.specs.Judging.{fault_in, map_ok};
ghost use Rattle.al_query.specs.Reads.{FromAnswers};
ghost use Rattle.al_tree.specs.DeclarationViews.{compound_model, use_model};
ghost use Rattle.al_unit_graph.specs.Names.{is_without_file};
ghost use Rattle.al_scope_context.specs.UsesAt.{added, is_looked_for, opened_at, opened_from, package_opened, type_opened, used_in, uses_at};

use crate::mention::has_unit;
use crate::opened_package::package_at;
use al_base::{NoMemory, UnitKey};
use al_base_fault::{CheckResult, Fault};
use al_overload_values::name_mark_at;
use al_query::{Answers, Recorder, UseClause};
use al_scope::{Scope, use_each};
use al_tree::CompoundName;
use al_unit_graph::is_predefined;
use al_view::{Seq, SubtypeView, Symbol};
use std::alloc::Global;

/// Whether no file declares the unit of that name, whatever it holds.
pub fn is_without_file(name: &[u8]) -> bool
    ensures { result ≡ is_without_file name.now }
{
    name == b"standard".as_slice() || is_predefined(name)
}

/// Whether the operators of a type are looked up where the type is declared.
fn is_looked_for(scope: &Scope, packages: &[UnitKey], symbol: &Symbol) -> bool
    ensures { result ≡ is_looked_for scope.now packages.now symbol.now }
{
    has_unit(packages, &symbol.unit)
        || is_without_file(symbol.unit.name.as_slice())
        || scope.is_declared_round(symbol)
}

/// The operators of the type of a mark.
fn type_opened(
    alloc: Global,
    scope: &Scope,
    packages: &[UnitKey],
    mark: &SubtypeView,
) -> Result<UseClause, NoMemory>
    ensures { IfOk result (λ clause. clause ≡ type_opened scope.now packages.now mark.now) }
{
    let base = &mark.subtype.base;
    if is_looked_for(scope, packages, base) {
        return Ok(UseClause::Type(base.copy(alloc)?));
    }
    let of_type = base.copy(alloc)?;
    let types = mark.types.share()?;
    Ok(UseClause::Operators { of_type, types })
}

/// The operators of the type of a mark (ARM 8.4(4)).
fn of_type(
    alloc: Global,
    scope: &Scope,
    packages: &[UnitKey],
    mark: CheckResult<SubtypeView>,
) -> Result<CheckResult<UseClause>, NoMemory>
    ensures { IfOk result (λ clause. clause ≡ map_ok (type_opened scope.now packages.now) mark) }
{
    match mark {
        Ok(mark) => {
            let clause = type_opened(alloc, scope, packages, &mark)?;
            Ok(Ok(clause))
        }
        Err(fault) => Ok(Err(fault)),
    }
}

/// The visible part of a package (ARM 8.4(3)).
fn of_package(unit: CheckResult<UnitKey>) -> CheckResult<UseClause>
    ensures { result ≡ map_ok package_opened unit }
{
    match unit {
        Ok(unit) => Ok(UseClause::Package(unit)),
        Err(fault) => Err(fault),
    }
}

/// The operators of the type that a mark names.
fn opened_type<A: Answers>(
    alloc: Global,
    scope: &Scope,
    packages: &[UnitKey],
    name: &CompoundName,
    recorder: &mut Recorder<A>,
) -> Result<CheckResult<UseClause>, NoMemory>
    ensures asked { recorder.new.asked ≡ recorder.old.asked }
    ensures answered { IfOk result (λ clause. FromAnswers recorder.old.log recorder.new.log (λ t. clause ≡ opened_at t scope.now packages.now true (compound_model name.now))) }
{
    let mark = name_mark_at(alloc, scope, packages, name, recorder)?;
    let clause = of_type(alloc, scope, packages, mark)?;
    Ok(clause)
}

/// The visible part of the package that a name denotes.
fn opened_package<A: Answers>(
    alloc: Global,
    scope: &Scope,
    packages: &[UnitKey],
    name: &CompoundName,
    recorder: &mut Recorder<A>,
) -> Result<CheckResult<UseClause>, NoMemory>
    ensures asked { recorder.new.asked ≡ recorder.old.asked }
    ensures answered { IfOk result (λ clause. FromAnswers recorder.old.log recorder.new.log (λ t. clause ≡ opened_at t scope.now packages.now false (compound_model name.now))) }
{
    let unit = package_at(alloc, scope, packages, name, recorder)?;
    let clause = of_package(unit);
    Ok(clause)
}

/// What one name of a use clause opens.
fn opened_by<A: Answers>(
    alloc: Global,
    scope: &Scope,
    packages: &[UnitKey],
    of_type: bool,
    name: &CompoundName,
    recorder: &mut Recorder<A>,
) -> Result<CheckResult<UseClause>, NoMemory>
    ensures asked { recorder.new.asked ≡ recorder.old.asked }
    ensures answered { IfOk result (λ clause. FromAnswers recorder.old.log recorder.new.log (λ t. clause ≡ opened_at t scope.now packages.now of_type (compound_model name.now))) }
{
    if of_type {
        return opened_type(alloc, scope, packages, name, recorder);
    }
    opened_package(alloc, scope, packages, name, recorder)
}

/// Adds a clause, if it is right; else the result is its fault.
fn add_clause(
    clauses: &mut Seq<UseClause>,
    clause: CheckResult<UseClause>,
) -> Result<Option<Fault>, NoMemory>
    ensures fault { IfOk result (λ fault. fault ≡ fault_in clause) }
    ensures added { OnOk result (clauses.new ≡ added clauses.old clause) }
{
    match clause {
        Ok(clause) => {
            clauses.push(clause)?;
            Ok(None)
        }
        Err(fault) => Ok(Some(fault)),
    }
}

/// What these names open, after what others do; or the first fault.
fn opened_from<A: Answers>(
    alloc: Global,
    scope: &Scope,
    packages: &[UnitKey],
    of_type: bool,
    done: Seq<UseClause>,
    names: &[CompoundName],
    recorder: &mut Recorder<A>,
) -> Result<CheckResult<Seq<UseClause>>, NoMemory>
    ensures asked { recorder.new.asked ≡ recorder.old.asked }
    ensures answered { IfOk result (λ clauses. FromAnswers recorder.old.log recorder.new.log (λ t. clauses ≡ opened_from t scope.now packages.now of_type done (map compound_model names.now))) }
{
    let mut clauses = done;
    for name in names {
        let clause = opened_by(alloc, scope, packages, of_type, name, recorder)?;
        let fault = add_clause(&mut clauses, clause)?;
        if let Some(fault) = fault {
            return Ok(Err(fault));
        }
    }
    Ok(Ok(clauses))
}

/// What a use clause opens at a place, if these packages are mentioned (ARM 8.4(3, 4)).
/// # Errors
/// `NoMemory` if the allocator refuses memory. The inner error is E401 at a name that isn't visible, or E404 at what is no package, or in a
/// use type clause no subtype.
pub fn uses_at<A: Answers>(
    alloc: Global,
    scope: &Scope,
    packages: &[UnitKey],
    clause: &al_tree::UseClause,
    recorder: &mut Recorder<A>,
) -> Result<CheckResult<Seq<UseClause>>, NoMemory>
    ensures asked { recorder.new.asked ≡ recorder.old.asked }
    ensures answered { IfOk result (λ clauses. FromAnswers recorder.old.log recorder.new.log (λ t. clauses ≡ uses_at t scope.now packages.now (use_model clause.now))) }
{
    let of_type = clause.of_type;
    let name = &clause.names.first;
    let opened = opened_by(alloc, scope, packages, of_type, name, recorder)?;
    let mut first = Seq::empty(alloc);
    let fault = add_clause(&mut first, opened)?;
    if let Some(fault) = fault {
        return Ok(Err(fault));
    }
    let others = clause.names.others.as_slice();
    let all = opened_from(alloc, scope, packages, of_type, first, others, recorder)?;
    Ok(all)
}

/// Opens from here on, in the innermost region, what the judged clause opens.
fn use_judged(
    alloc: Global,
    scope: &mut Scope,
    clauses: &CheckResult<Seq<UseClause>>,
) -> Result<(), NoMemory>
    requires { 0 < length scope.old.regions }
    ensures regions { OnOk result (scope.new.regions ≡ used_in clauses.now scope.old.regions) }
    ensures depth { length scope.new.regions ≡ length scope.old.regions }
    ensures mentioned { scope.new.mentioned ≡ scope.old.mentioned }
{
    match clauses {
        Ok(clauses) => {
            use_each(alloc, scope, clauses.as_slice())?;
            Ok(())
        }
        Err(_) => Ok(()),
    }
}

/// Adds a use clause to the innermost region of a place where these packages are mentioned: what it opens is open from there on (ARM
/// 8.4(6)).
/// # Errors
/// `NoMemory` if the allocator refuses memory. The inner error is E401 at a name that isn't visible, or E404 at what is no package, or in a
/// use type clause no subtype; nothing is opened then.
pub fn use_at<A: Answers>(
    alloc: Global,
    scope: &mut Scope,
    packages: &[UnitKey],
    clause: &al_tree::UseClause,
    recorder: &mut Recorder<A>,
) -> Result<CheckResult<Seq<UseClause>>, NoMemory>
    requires { 0 < length scope.old.regions }
    ensures asked { recorder.new.asked ≡ recorder.old.asked }
    ensures answered { IfOk result (λ clauses. FromAnswers recorder.old.log recorder.new.log (λ t. clauses ≡ uses_at t scope.old packages.now (use_model clause.now))) }
    ensures regions { IfOk result (λ clauses. scope.new.regions ≡ used_in clauses scope.old.regions) }
    ensures depth { length scope.new.regions ≡ length scope.old.regions }
    ensures mentioned { scope.new.mentioned ≡ scope.old.mentioned }
{
    let clauses = uses_at(alloc, scope, packages, clause, recorder)?;
    use_judged(alloc, scope, &clauses)?;
    Ok(clauses)
}
