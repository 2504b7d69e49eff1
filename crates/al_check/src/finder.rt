// The finder of Ada units.
ghost use Rattle.std.specs.Prelude.{◌≡◌, ◌∷◌, [], IfOk, if◌then◌else◌, not};
ghost use Rattle.al_tree.specs.UnitViews.{unit_model};
ghost use Rattle.al_query.specs.Reads.{Agrees, FromAnswers};
ghost use Rattle.al_check_bounded.specs.Verdicts.{verdict_of};
ghost use Rattle.al_check_bounded.specs.Verdicts.Verdict.{Wrong};
ghost use Rattle.al_check_start.specs.UnitsAt as starts;
ghost use Rattle.al_check_bounded.specs.Made.{fault_in};
ghost use Rattle.al_check.specs.Ada.{private_part_at, private_part_of, verdict_from, verdict_with};
ghost use Rattle.al_check_here.specs.Stacks.{is_bare};
ghost use Rattle.al_unit_header.specs.PrivateTypes.{private_types};

use crate::walk::{private_part_found, walk_from};
use al_base::{Name, NoMemory, UnitKey};
use al_base_fault::{CheckResult, Fault};
use al_check_bounded::{BoundedCheck, UnitFinder, UnitResult, UnitVerdict, diagnostic};
use al_check_start::{UnitStart, names_known, unit_at, units_known};
use al_query::{Answers, Recorder};
use al_tree::CompilationUnit;
use al_unit_graph::Header;
use al_unit_header::private_types;
use al_view::{Interface, Seq};
use std::alloc::Global;

/// The verdict over a unit whose start has this error.
fn one_fault(alloc: Global, unit: &UnitKey, fault: &Fault) -> Result<UnitVerdict, NoMemory>
    ensures { IfOk result (λ finding. verdict_of finding ≡ Wrong (fault_in unit.now fault.now ∷ [])) }
{
    let diagnostic = diagnostic(alloc, unit, fault)?;
    let mut faults = Seq::empty(alloc);
    faults.push(diagnostic)?;
    Ok(UnitVerdict::Faulty(faults))
}

/// The verdict over a unit whose start has an error, with what was asked.
fn faulty<A: Answers + Drop>(
    alloc: Global,
    unit: &UnitKey,
    fault: &Fault,
    recorder: Recorder<A>,
) -> Result<UnitResult, NoMemory>
    ensures agrees { IfOk result (λ found. Agrees (A.table recorder.asked) found.log) }
    ensures log { IfOk result (λ found. found.log ≡ recorder.log) }
    ensures finding { IfOk result (λ found. verdict_of found.finding ≡ Wrong (fault_in unit.now fault.now ∷ [])) }
{
    match one_fault(alloc, unit, fault) {
        Ok(finding) => Ok(UnitResult {
            finding,
            log: recorder.into_log(),
        }),
        Err(error) => {
            drop(recorder);
            Err(error)
        }
    }
}

/// The verdict over a unit with this start, or with this error in its start. `private_part` is what its private part declares.
fn find_from<A: Answers + Drop>(
    alloc: Global,
    unit: &UnitKey,
    tree: &CompilationUnit,
    start: CheckResult<UnitStart>,
    private_part: Interface,
    recorder: Recorder<A>,
) -> Result<UnitResult, NoMemory>
    ensures agrees { IfOk result (λ found. Agrees (A.table recorder.asked) found.log) }
    ensures answered { IfOk result (λ found. FromAnswers recorder.log found.log (λ t. verdict_of found.finding ≡ verdict_with t private_part unit.now (unit_model tree.now) start)) }
{
    match start {
        Ok(start) => walk_from(alloc, tree, start, private_part, recorder),
        Err(fault) => {
            drop(private_part);
            faulty(alloc, unit, &fault, recorder)
        }
    }
}

/// Whether the visible part of a unit declares private types.
#[tactic(auto, unfolding(al_tree::specs::UnitViews::unit_model))]
fn has_private_types(alloc: Global, tree: &CompilationUnit) -> Result<bool, NoMemory>
    ensures { IfOk result (λ has. has ≡ not (is_bare (private_types (unit_model tree.now).item))) }
{
    let types = private_types(alloc, &tree.item)?;
    let has = !types.is_empty();
    drop(types);
    Ok(has)
}

/// What the private part of a unit with this start declares, if the start has no error.
fn private_part_after<A: Answers + Drop>(
    alloc: Global,
    tree: &CompilationUnit,
    start: CheckResult<UnitStart>,
    recorder: Recorder<A>,
) -> Result<(Interface, Recorder<A>), NoMemory>
    ensures asked { IfOk result (λ found. found.1.asked ≡ recorder.asked) }
    ensures answered { IfOk result (λ found. FromAnswers recorder.log found.1.log (λ t. found.0 ≡ private_part_at t (unit_model tree.now) start)) }
{
    match start {
        Ok(start) => private_part_found(alloc, tree, start, recorder),
        Err(_) => Ok((Interface::new(alloc), recorder)),
    }
}

/// What the private part of a unit declares, if the unit's start has no error.
fn private_part_at<A: Answers + Drop>(
    alloc: Global,
    unit: &UnitKey,
    tree: &CompilationUnit,
    recorder: Recorder<A>,
) -> Result<(Interface, Recorder<A>), NoMemory>
    ensures asked { IfOk result (λ found. found.1.asked ≡ recorder.asked) }
    ensures answered { IfOk result (λ found. FromAnswers recorder.log found.1.log (λ t. found.0 ≡ private_part_at t (unit_model tree.now) (starts.unit_at t unit.now (unit_model tree.now)))) }
{
    let mut recorder = recorder;
    match unit_at(alloc, unit, tree, &mut recorder) {
        Ok(start) => private_part_after(alloc, tree, start, recorder),
        Err(error) => {
            drop(recorder);
            Err(error)
        }
    }
}

/// What the private part of a unit declares, if that is wanted; else nothing.
fn private_part_where<A: Answers + Drop>(
    alloc: Global,
    unit: &UnitKey,
    tree: &CompilationUnit,
    wanted: bool,
    recorder: Recorder<A>,
) -> Result<(Interface, Recorder<A>), NoMemory>
    ensures asked { IfOk result (λ found. found.1.asked ≡ recorder.asked) }
    ensures answered { IfOk result (λ found. FromAnswers recorder.log found.1.log (λ t. found.0 ≡ (if wanted then private_part_at t (unit_model tree.now) (starts.unit_at t unit.now (unit_model tree.now)) else []))) }
{
    if wanted {
        return private_part_at(alloc, unit, tree, recorder);
    }
    Ok((Interface::new(alloc), recorder))
}

/// What the private part of a unit declares, if its visible part has private types; else nothing. The full declarations of these types say how many
/// words a value has, and come after declarations that use the types.
fn private_part_if<A: Answers + Drop>(
    alloc: Global,
    unit: &UnitKey,
    tree: &CompilationUnit,
    recorder: Recorder<A>,
) -> Result<(Interface, Recorder<A>), NoMemory>
    ensures asked { IfOk result (λ found. found.1.asked ≡ recorder.asked) }
    ensures answered { IfOk result (λ found. FromAnswers recorder.log found.1.log (λ t. found.0 ≡ private_part_of t (unit_model tree.now) (starts.unit_at t unit.now (unit_model tree.now)))) }
{
    match has_private_types(alloc, tree) {
        Ok(wanted) => private_part_where(alloc, unit, tree, wanted, recorder),
        Err(error) => {
            drop(recorder);
            Err(error)
        }
    }
}

/// The verdict over a unit whose private part declares this.
fn find_with<A: Answers + Drop>(
    alloc: Global,
    unit: &UnitKey,
    tree: &CompilationUnit,
    private_part: Interface,
    recorder: Recorder<A>,
) -> Result<UnitResult, NoMemory>
    ensures agrees { IfOk result (λ found. Agrees (A.table recorder.asked) found.log) }
    ensures answered { IfOk result (λ found. FromAnswers recorder.log found.log (λ t. verdict_of found.finding ≡ verdict_with t private_part unit.now (unit_model tree.now) (starts.unit_at t unit.now (unit_model tree.now)))) }
{
    let mut recorder = recorder;
    match unit_at(alloc, unit, tree, &mut recorder) {
        Ok(start) => find_from(alloc, unit, tree, start, private_part, recorder),
        Err(error) => {
            drop(private_part);
            drop(recorder);
            Err(error)
        }
    }
}

/// The verdict over a unit.
fn find_in<A: Answers + Drop>(
    alloc: Global,
    unit: &UnitKey,
    tree: &CompilationUnit,
    recorder: Recorder<A>,
) -> Result<UnitResult, NoMemory>
    ensures agrees { IfOk result (λ found. Agrees (A.table recorder.asked) found.log) }
    ensures answered { IfOk result (λ found. FromAnswers recorder.log found.log (λ t. verdict_of found.finding ≡ verdict_from t unit.now (unit_model tree.now) (starts.unit_at t unit.now (unit_model tree.now)))) }
{
    match private_part_if(alloc, unit, tree, recorder) {
        Ok((private_part, recorder)) => find_with(alloc, unit, tree, private_part, recorder),
        Err(error) => Err(error),
    }
}

/// The finder of Ada units. It keeps nothing between checks.
pub struct AdaFinder;

impl Drop for AdaFinder {
    fn drop(self) {
        let AdaFinder = self;
    }
}

impl UnitFinder for AdaFinder {
    ghost use Rattle.al_check.specs.Ada.{ada_names, ada_units, ada_verdict};

    ghost units = { ada_units };

    ghost names = { ada_names };

    ghost verdict = { ada_verdict };

    fn units_known<A: Answers>(
        &self,
        alloc: Global,
        unit: &UnitKey,
        header: &Header,
        recorder: &mut Recorder<A>,
    ) -> Result<Vec<UnitKey>, NoMemory> {
        units_known(alloc, unit, header, recorder)
    }

    fn names_known<A: Answers>(
        &self,
        alloc: Global,
        unit: &UnitKey,
        header: &Header,
        recorder: &mut Recorder<A>,
    ) -> Result<Vec<Name>, NoMemory> {
        names_known(alloc, unit, header, recorder)
    }

    fn find<A: Answers + Drop>(
        &self,
        alloc: Global,
        unit: &UnitKey,
        _text: &[u8],
        tree: &CompilationUnit,
        recorder: Recorder<A>,
    ) -> Result<UnitResult, NoMemory> {
        find_in(alloc, unit, tree, recorder)
    }
}

/// The checker of Ada units.
pub type AdaCheck = BoundedCheck<AdaFinder>;

/// A checker of Ada units that has made no check.
pub fn ada_check() -> AdaCheck {
    BoundedCheck::new(AdaFinder)
}
