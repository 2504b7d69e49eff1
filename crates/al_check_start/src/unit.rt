// How the check of a unit begins.
ghost use Rattle.std.specs.Prelude.{◌≡◌, Err, IfOk, Ok, if◌then◌else◌};
ghost use Rattle.al_base_fault.specs.Judging.{unless};
ghost use Rattle.al_unit_graph.specs.Views.{header_model};
ghost use Rattle.al_check_start.specs.Around.{is_surrounded, not_surrounded};
ghost use Rattle.al_query.specs.Reads.{FromAnswers};
ghost use Rattle.al_tree.specs.UnitViews.{library_item_model, unit_model};
ghost use Rattle.al_scope.specs.Seen.{completions_seen_at};
ghost use Rattle.al_check_start.specs.UnitsAt.{headed_at, hidden_at, start_after, start_with, unit_at, waiting};

use crate::around::{is_own, is_surrounded, not_surrounded};
use crate::child::name_fault;
use crate::completed::{Completed, completed_at};
use crate::hidden::hidden_at;
use crate::place::{own_text, own_view, place_at};
use crate::waiting::{progress_at, visible_waiting};
use al_base::{NoMemory, UnitKey};
use al_base_fault::{CheckResult, Fault, unless};
use al_decl_judged::{Progress, Uncompleted};
use al_query::{Answers, Recorder};
use al_scope::{OwnText, PrivateName, Scope};
use al_scope_context::{Context, context_at};
use al_tree::{CompilationUnit, LibraryItem};
use al_unit_graph::Header;
use al_unit_header::header_of;
use al_view::{Seq, View};
use std::alloc::Global;

/// The start of the check of a unit.
pub struct UnitStart {
    /// The unit's own header: what its source says of its place.
    pub own: OwnText,
    /// The regions that enclose its start, and the units that are mentioned there.
    pub scope: Scope,
    /// The packages among the units that are mentioned.
    pub packages: Seq<UnitKey>,
    /// The words, objects and flags that are taken before its start.
    pub progress: Progress,
    /// What waits for completion: for a package body what its declaration leaves to it, for another body what it completes itself.
    pub uncompleted: Uncompleted,
    /// The declaration of a library unit's parent, or the parent body of a subunit.
    pub parent: Option<UnitKey>,
    /// The own view of the declaration that a library body completes, or the subprogram whose body a subunit's stub replaces.
    pub view: Option<View>,
    /// The private types that its visible part hides.
    pub hidden: Seq<PrivateName>,
}

impl Drop for UnitStart {
    fn drop(self) {
        let UnitStart {
            own: _,
            scope: _,
            packages: _,
            progress: _,
            uncompleted: _,
            parent: _,
            view: _,
            hidden: _,
        } = self;
    }
}

impl UnitStart {
    /// The fields in three groups: the header, the packages and the hidden private types; the state at the start; the parent and the view that the
    /// unit completes. It takes no memory.
    pub fn into_parts(
        self,
    ) -> (
        (OwnText, Seq<UnitKey>, Seq<PrivateName>),
        (Scope, Progress, Uncompleted),
        (Option<UnitKey>, Option<View>),
    )
        ensures text { result.0 ≡ (self.own, self.packages, self.hidden) }
        ensures place { result.1 ≡ (self.scope, self.progress, self.uncompleted) }
        ensures parent_view { result.2 ≡ (self.parent, self.view) }
    {
        let UnitStart {
            own,
            scope,
            packages,
            progress,
            uncompleted,
            parent,
            view,
            hidden,
        } = self;
        (
            (own, packages, hidden),
            (scope, progress, uncompleted),
            (parent, view),
        )
    }
}

/// What waits for completion at the start of a unit, and the private types that its visible part hides.
fn waiting_after<A: Answers>(
    alloc: Global,
    unit: &UnitKey,
    item: &LibraryItem,
    view: &Option<View>,
    own: &OwnText,
    scope: &Scope,
    recorder: &mut Recorder<A>,
) -> Result<(Uncompleted, Seq<PrivateName>), NoMemory>
    ensures asked { recorder.new.asked ≡ recorder.old.asked }
    ensures answered { IfOk result (λ found. FromAnswers recorder.old.log recorder.new.log (λ t. (found.0 ≡ completions_seen_at t scope.now (waiting t unit.now (library_item_model item.now) view.now)) × (found.1 ≡ hidden_at t own.now))) }
{
    let hidden = hidden_at(alloc, own, recorder)?;
    match visible_waiting(alloc, unit, item, view, scope, recorder) {
        Ok(uncompleted) => Ok((uncompleted, hidden)),
        Err(error) => {
            drop(hidden);
            Err(error)
        }
    }
}

/// The start of the check of a unit that completes `completed`, after this context clause.
fn start_with<A: Answers>(
    alloc: Global,
    unit: &UnitKey,
    item: &LibraryItem,
    context: Context,
    completed: Completed,
    recorder: &mut Recorder<A>,
) -> Result<UnitStart, NoMemory>
    ensures asked { recorder.new.asked ≡ recorder.old.asked }
    ensures answered { IfOk result (λ start. FromAnswers recorder.old.log recorder.new.log (λ t. start ≡ start_with t unit.now (library_item_model item.now) context completed)) }
{
    let Completed {
        view,
        parent,
        stubs,
    } = completed;
    let own = own_text(alloc, unit, item, context, &view, stubs)?;
    let seen = own_view(alloc, unit, item)?;
    let mut packages = Seq::empty(alloc);
    let scope = place_at(alloc, &own, &seen, &mut packages, recorder)?;
    let progress = progress_at(alloc, unit, item, &view)?;
    let (uncompleted, hidden) = waiting_after(alloc, unit, item, &view, &own, &scope, recorder)?;
    Ok(UnitStart {
        own,
        scope,
        packages,
        progress,
        uncompleted,
        parent,
        view,
        hidden,
    })
}

/// This start of the check of a unit, unless its name has this error; or E401 at the name, if not all that encloses the unit is there.
fn if_whole(
    whole: bool,
    text: &CompilationUnit,
    fault: Option<Fault>,
    start: UnitStart,
) -> CheckResult<UnitStart>
    ensures { result ≡ (if whole then unless fault (Ok start) else Err (not_surrounded (unit_model text.now))) }
{
    if whole {
        return unless(fault, Ok(start));
    }
    drop(start);
    Err(not_surrounded(text))
}

/// The same, by the answers of other units.
fn judged<A: Answers>(
    alloc: Global,
    unit: &UnitKey,
    header: &Header,
    text: &CompilationUnit,
    fault: Option<Fault>,
    start: UnitStart,
    recorder: &mut Recorder<A>,
) -> Result<CheckResult<UnitStart>, NoMemory>
    ensures asked { recorder.new.asked ≡ recorder.old.asked }
    ensures answered { IfOk result (λ checked. FromAnswers recorder.old.log recorder.new.log (λ t. checked ≡ (if is_surrounded t unit.now (header_model header.now) start.own start.packages then unless fault (Ok start) else Err (not_surrounded (unit_model text.now))))) }
{
    let packages = start.packages.as_slice();
    match is_surrounded(alloc, unit, header, &start.own, packages, recorder) {
        Ok(whole) => Ok(if_whole(whole, text, fault, start)),
        Err(error) => {
            drop(start);
            Err(error)
        }
    }
}

/// The start of the check of a unit after this context clause; or E401 at its name, if not all is there that encloses the unit, or E301 if the
/// name is taken.
fn start_after<A: Answers>(
    alloc: Global,
    unit: &UnitKey,
    header: &Header,
    text: &CompilationUnit,
    context: Context,
    recorder: &mut Recorder<A>,
) -> Result<CheckResult<UnitStart>, NoMemory>
    ensures asked { recorder.new.asked ≡ recorder.old.asked }
    ensures answered { IfOk result (λ start. FromAnswers recorder.old.log recorder.new.log (λ t. start ≡ start_after t unit.now (header_model header.now) (unit_model text.now) context)) }
{
    let item = &text.item;
    let completed = completed_at(alloc, unit, item, recorder)?;
    let fault = name_fault(alloc, unit, item, &completed.view, recorder)?;
    let start = start_with(alloc, unit, item, context, completed, recorder)?;
    judged(alloc, unit, header, text, fault, start, recorder)
}

/// The start of the check of a unit with this header.
fn headed_at<A: Answers>(
    alloc: Global,
    unit: &UnitKey,
    header: &Header,
    text: &CompilationUnit,
    recorder: &mut Recorder<A>,
) -> Result<CheckResult<UnitStart>, NoMemory>
    ensures asked { recorder.new.asked ≡ recorder.old.asked }
    ensures answered { IfOk result (λ start. FromAnswers recorder.old.log recorder.new.log (λ t. start ≡ headed_at t unit.now (header_model header.now) (unit_model text.now))) }
{
    if !is_own(alloc, unit, header)? {
        return Ok(Err(not_surrounded(text)));
    }
    let context = context_at(alloc, text.context.as_slice(), recorder)?;
    match context {
        Ok(context) => start_after(alloc, unit, header, text, context, recorder),
        Err(fault) => Ok(Err(fault)),
    }
}

/// The start of the check of a unit: its context clause is judged, then its place is made, and what waits for completion there. Else E401 at the
/// name of a unit whose source isn't its own; or the first error of the context clause; or E401 at the name of a unit if not all is there that
/// encloses it; or E301 at a name that the parent declares too (ARM 8.3(26), 10.1.1, 10.1.2).
///
/// # Errors
/// `NoMemory` if the allocator refuses memory.
#[tactic(auto, unfolding(crate::specs::UnitsAt::unit_at))]
pub fn unit_at<A: Answers>(
    alloc: Global,
    unit: &UnitKey,
    text: &CompilationUnit,
    recorder: &mut Recorder<A>,
) -> Result<CheckResult<UnitStart>, NoMemory>
    ensures asked { recorder.new.asked ≡ recorder.old.asked }
    ensures answered { IfOk result (λ start. FromAnswers recorder.old.log recorder.new.log (λ t. start ≡ unit_at t unit.now (unit_model text.now))) }
{
    let header = header_of(alloc, text)?;
    let start = headed_at(alloc, unit, &header, text, recorder)?;
    Ok(start)
}
