// Heads of subprograms at a place (ARM 6.1).
ghost use Rattle.std.specs.Prelude.{◌≡◌, ◌<◌, ◌++◌, length, option_map, IfOk, OnOk};
ghost use Rattle.al_decl.specs.Inner.{in_region};
ghost use Rattle.al_decl.specs.Formals.{after_formals, formal_list, formals_read};
ghost use Rattle.al_decl.specs.Heads.{bare, compound_defined, filled, formal_part_of, formals_of, heading_read, is_dotted, last_of, name_of, returned_read};
ghost use Rattle.al_query.specs.Reads.{FromAnswers};
ghost use Rattle.al_tree.specs.DeclarationViews.{compound_model, formal_part_model, specification_model};
ghost use Rattle.al_tree.specs.Lexemes.{identifier_label};

use crate::formals::{check_formal, check_formals};
use crate::{PartAnalyzer, enter_region, leave_region};
use al_base::{Name, NoMemory};
use al_decl_judged::{DefiningName, FormalPart, Heading, ReturnedPart};
use al_query::{Answers, Recorder};
use al_scope::Scope;
use al_tree::{CompoundName, FormalPart as FormalPartText, Identifier, Specification};
use al_view::Seq;
use std::alloc::Global;

/// The last identifier of a name.
fn last_identifier(name: &CompoundName) -> &Identifier
    ensures { identifier_label result.now ≡ last_of (compound_model name.now) }
{
    match name.selectors.last() {
        Some(identifier) => identifier,
        None => &name.first,
    }
}

/// The defining name of a subprogram: its last identifier, at its first token.
fn compound_defined(alloc: Global, name: &CompoundName) -> Result<DefiningName, NoMemory>
    ensures { IfOk result (λ defined. defined ≡ compound_defined (compound_model name.now)) }
{
    let last = Name::from_slice(alloc, last_identifier(name).name.as_slice())?;
    Ok(DefiningName {
        name: last,
        place: name.first.place,
    })
}

fn is_dotted(name: &CompoundName) -> bool
    ensures { result ≡ is_dotted (compound_model name.now) }
{
    match name.selectors.as_slice() {
        [] => false,
        [_, ..] => true,
    }
}

fn name_of(specification: &Specification) -> &CompoundName
    ensures { compound_model result.now ≡ name_of (specification_model specification.now) }
{
    match specification {
        Specification::Procedure(_, name, _) => name,
        Specification::Function(_, name, _, _, _) => name,
    }
}

fn formal_part_of(specification: &Specification) -> &Option<FormalPartText>
    ensures { option_map formal_part_model result.now ≡ formal_part_of (specification_model specification.now) }
{
    match specification {
        Specification::Procedure(_, _, part) => part,
        Specification::Function(_, _, part, _, _) => part,
    }
}

/// Adds the formals of a specification, if it has some.
fn formals_at<R: PartAnalyzer, A: Answers>(
    alloc: Global,
    analyzer: &R,
    scope: &mut Scope,
    formals: &mut Seq<FormalPart>,
    part: &Option<FormalPartText>,
    recorder: &mut Recorder<A>,
) -> Result<(), NoMemory>
    requires { 0 < length scope.old.regions }
    ensures asked { recorder.new.asked ≡ recorder.old.asked }
    ensures answered { OnOk result (FromAnswers recorder.old.log recorder.new.log (λ t. formals.new ≡ formals.old ++ formals_read (R.reading analyzer.now t) scope.old (formal_list (option_map formal_part_model part.now)))) }
    ensures scope { OnOk result (scope.new ≡ after_formals scope.old (formal_list (option_map formal_part_model part.now))) }
    ensures depth { length scope.new.regions ≡ length scope.old.regions }
{
    match part {
        Some(part) => {
            check_formal(alloc, analyzer, scope, formals, &part.first, recorder)?;
            let others = part.others.as_slice();
            check_formals(alloc, analyzer, scope, formals, others, recorder)
        }
        None => Ok(()),
    }
}

/// What a specification returns.
fn returned_at<R: PartAnalyzer, A: Answers>(
    alloc: Global,
    analyzer: &R,
    scope: &Scope,
    specification: &Specification,
    recorder: &mut Recorder<A>,
) -> Result<ReturnedPart, NoMemory>
    ensures asked { recorder.new.asked ≡ recorder.old.asked }
    ensures answered { IfOk result (λ returned. FromAnswers recorder.old.log recorder.new.log (λ t. returned ≡ returned_read (R.reading analyzer.now t) scope.now (specification_model specification.now))) }
{
    match specification {
        Specification::Procedure(_, _, _) => Ok(ReturnedPart::NoValue),
        Specification::Function(_, _, _, _, mark) => {
            let of = analyzer.mark(alloc, scope, mark, recorder)?;
            Ok(ReturnedPart::Value(of))
        }
    }
}

/// A head without formals and result.
fn bare(alloc: Global, specification: &Specification) -> Result<Heading, NoMemory>
    ensures { IfOk result (λ heading. heading ≡ bare (specification_model specification.now)) }
{
    let name = name_of(specification);
    let is_dotted = is_dotted(name);
    let name = compound_defined(alloc, name)?;
    Ok(Heading {
        name,
        is_dotted,
        formals: Seq::empty(alloc),
        returned: ReturnedPart::NoValue,
    })
}

/// Reads the formals and the result, in the region of the formals.
fn fill<R: PartAnalyzer, A: Answers>(
    alloc: Global,
    analyzer: &R,
    scope: &mut Scope,
    heading: &mut Heading,
    specification: &Specification,
    recorder: &mut Recorder<A>,
) -> Result<(), NoMemory>
    requires { 0 < length scope.old.regions }
    ensures asked { recorder.new.asked ≡ recorder.old.asked }
    ensures answered { OnOk result (FromAnswers recorder.old.log recorder.new.log (λ t. heading.new ≡ filled (R.reading analyzer.now t) scope.old (specification_model specification.now) heading.old)) }
    ensures scope { OnOk result (scope.new ≡ after_formals scope.old (formals_of (specification_model specification.now))) }
    ensures depth { length scope.new.regions ≡ length scope.old.regions }
{
    let part = formal_part_of(specification);
    formals_at(alloc, analyzer, scope, &mut heading.formals, part, recorder)?;
    heading.returned = returned_at(alloc, analyzer, scope, specification, recorder)?;
    Ok(())
}

/// Reads the formals and the result in a region of their own, which is left again.
fn fill_inside<R: PartAnalyzer, A: Answers>(
    alloc: Global,
    analyzer: &R,
    scope: &mut Scope,
    heading: &mut Heading,
    specification: &Specification,
    recorder: &mut Recorder<A>,
) -> Result<(), NoMemory>
    ensures asked { recorder.new.asked ≡ recorder.old.asked }
    ensures answered { OnOk result (FromAnswers recorder.old.log recorder.new.log (λ t. heading.new ≡ filled (R.reading analyzer.now t) (in_region scope.old) (specification_model specification.now) heading.old)) }
    ensures scope { OnOk result (scope.new ≡ scope.old) }
{
    enter_region(alloc, scope)?;
    fill(alloc, analyzer, scope, heading, specification, recorder)?;
    leave_region(scope);
    Ok(())
}

/// The head of a subprogram: its name, its formals and its result. Each mark is read where the formals before it are visible and those of
/// its own list are begun (ARM 8.3(16)). The place is unchanged afterwards.
/// # Errors
/// `NoMemory` if the allocator refuses memory.
pub fn heading_at<R: PartAnalyzer, A: Answers>(
    alloc: Global,
    analyzer: &R,
    scope: &mut Scope,
    specification: &Specification,
    recorder: &mut Recorder<A>,
) -> Result<Heading, NoMemory>
    ensures asked { recorder.new.asked ≡ recorder.old.asked }
    ensures answered { IfOk result (λ heading. FromAnswers recorder.old.log recorder.new.log (λ t. heading ≡ heading_read (R.reading analyzer.now t) scope.old (specification_model specification.now))) }
    ensures scope { OnOk result (scope.new ≡ scope.old) }
{
    let mut heading = bare(alloc, specification)?;
    match fill_inside(
        alloc,
        analyzer,
        scope,
        &mut heading,
        specification,
        recorder,
    ) {
        Ok(()) => Ok(heading),
        Err(none) => Err(none),
    }
}
