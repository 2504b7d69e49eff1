// Formal parameters at a place (ARM 6.1).
ghost use Rattle.std.specs.Prelude.{◌≡◌, ◌<◌, ◌++◌, length, map, IfOk, OnOk};
ghost use Rattle.al_decl.specs.Formals.{after_formal, after_formals, formal_part, formal_read, formals_read, mode_of, one_read};
ghost use Rattle.al_query.specs.Reads.{FromAnswers};
ghost use Rattle.al_tree.specs.DeclarationViews.{formal_model};

use crate::{PartAnalyzer, begin, defining_names, make_visible};
use al_base::{Name, NoMemory};
use al_base_fault::CheckResult;
use al_decl_judged::{DefiningName, FormalPart, copied_subtype};
use al_query::{Answers, Recorder};
use al_scope::Scope;
use al_tree::Formal;
use al_view::{Mode, Seq, SubtypeView};
use std::alloc::Global;

/// The mode of formals; without a word it is `in` (ARM 6.1(16)).
fn mode_of(is_in: bool, is_out: bool) -> Mode
    ensures { result ≡ mode_of is_in is_out }
{
    if is_out {
        return if is_in { Mode::InOut } else { Mode::Out };
    }
    Mode::In
}

fn copied_mark(
    alloc: Global,
    of: &CheckResult<SubtypeView>,
) -> Result<CheckResult<SubtypeView>, NoMemory>
    ensures { IfOk result (λ copy. copy ≡ of.now) }
{
    match of {
        Ok(of) => {
            let copy = copied_subtype(alloc, of)?;
            Ok(Ok(copy))
        }
        Err(fault) => Ok(Err(*fault)),
    }
}

fn formal_part(
    alloc: Global,
    mode: Mode,
    of: &CheckResult<SubtypeView>,
    name: &DefiningName,
) -> Result<FormalPart, NoMemory>
    ensures { IfOk result (λ part. part ≡ formal_part mode of.now name.now) }
{
    let of = copied_mark(alloc, of)?;
    let copy = Name::from_slice(alloc, name.name.as_slice())?;
    let name = DefiningName {
        name: copy,
        place: name.place,
    };
    Ok(FormalPart { name, mode, of })
}

/// Adds formals of these names.
fn add_formals(
    alloc: Global,
    formals: &mut Seq<FormalPart>,
    mode: Mode,
    of: &CheckResult<SubtypeView>,
    names: &[DefiningName],
) -> Result<(), NoMemory>
    ensures { OnOk result (formals.new ≡ formals.old ++ map (formal_part mode of.now) names.now) }
{
    for name in names {
        formals.push(formal_part(alloc, mode, of, name)?)?;
    }
    Ok(())
}

/// Adds the formals of a mark, which is read while their names are begun.
fn read_formal<R: PartAnalyzer, A: Answers>(
    alloc: Global,
    analyzer: &R,
    scope: &Scope,
    formals: &mut Seq<FormalPart>,
    formal: &Formal,
    names: &[DefiningName],
    recorder: &mut Recorder<A>,
) -> Result<(), NoMemory>
    ensures asked { recorder.new.asked ≡ recorder.old.asked }
    ensures answered { OnOk result (FromAnswers recorder.old.log recorder.new.log (λ t. formals.new ≡ formals.old ++ formal_read (R.reading analyzer.now t) scope.now (formal_model formal.now) names.now)) }
{
    let mode = mode_of(formal.is_in, formal.is_out);
    let of = analyzer.mark(alloc, scope, &formal.mark, recorder)?;
    add_formals(alloc, formals, mode, &of, names)
}

/// Adds the formals of one list of names.
pub(crate) fn check_formal<R: PartAnalyzer, A: Answers>(
    alloc: Global,
    analyzer: &R,
    scope: &mut Scope,
    formals: &mut Seq<FormalPart>,
    formal: &Formal,
    recorder: &mut Recorder<A>,
) -> Result<(), NoMemory>
    requires { 0 < length scope.old.regions }
    ensures asked { recorder.new.asked ≡ recorder.old.asked }
    ensures answered { OnOk result (FromAnswers recorder.old.log recorder.new.log (λ t. formals.new ≡ formals.old ++ one_read (R.reading analyzer.now t) scope.old (formal_model formal.now))) }
    ensures scope { OnOk result (scope.new ≡ after_formal scope.old (formal_model formal.now)) }
    ensures depth { length scope.new.regions ≡ length scope.old.regions }
{
    let names = defining_names(alloc, &formal.names)?;
    let names = names.as_slice();
    begin(scope, names)?;
    read_formal(alloc, analyzer, scope, formals, formal, names, recorder)?;
    make_visible(alloc, scope, names)
}

/// All formals, in source order.
pub(crate) fn check_formals<R: PartAnalyzer, A: Answers>(
    alloc: Global,
    analyzer: &R,
    scope: &mut Scope,
    formals: &mut Seq<FormalPart>,
    texts: &[Formal],
    recorder: &mut Recorder<A>,
) -> Result<(), NoMemory>
    requires { 0 < length scope.old.regions }
    ensures asked { recorder.new.asked ≡ recorder.old.asked }
    ensures answered { OnOk result (FromAnswers recorder.old.log recorder.new.log (λ t. formals.new ≡ formals.old ++ formals_read (R.reading analyzer.now t) scope.old (map formal_model texts.now))) }
    ensures scope { OnOk result (scope.new ≡ after_formals scope.old (map formal_model texts.now)) }
    ensures depth { length scope.new.regions ≡ length scope.old.regions }
{
    for text in texts {
        check_formal(alloc, analyzer, scope, formals, text, recorder)?;
    }
    Ok(())
}
