// Context clauses (ARM 10.1.2).
ghost use Rattle.std.specs.Prelude.{◌≡◌, ◌<◌, ◌∷◌, [], ◌++◌, fold, length, map, IfOk, OnOk};
ghost use Rattle.al_base_fault.specs.Judging.{fault_in, map_ok, unless};
ghost use Rattle.al_query.specs.Reads.{FromAnswers};
ghost use Rattle.al_tree.specs.DeclarationViews.{compound_model, compounds_model, use_model};
ghost use Rattle.al_tree.specs.UnitViews.{context_model};
ghost use Rattle.al_unit_graph.specs.Names.{lineage};
ghost use Rattle.al_scope_context.specs.Contexts.{context_at, context_start, declared_if, is_new_root, more_uses, rooted, unit_mentioned, with_item, with_named, with_uses, withed};
ghost use Rattle.al_scope_context.specs.UsesAt.{all_names, uses_at};

use crate::mention::{library_view, mention_view};
use crate::pragma::{context_pragma_fault, full_name};
use crate::uses_at;
use al_base::{Name, NoMemory, UnitKey, UnitKind};
use al_base_fault::{CheckResult, Fault};
use al_overload_lookup::is_none;
use al_query::{Answers, Recorder, UseClause};
use al_scope::Scope;
use al_tree::{CompoundName, CompoundNames, ContextItem};
use al_unit_graph::{lineage, parent_of};
use al_view::{Seq, View};
use std::alloc::Global;

/// What a context clause says so far, in a place of its own (ARM 10.1.6).
#[derive(Drop)]
pub struct Context {
    /// One region that continues nothing, in which the root units that were mentioned are declared.
    pub scope: Scope,
    /// The packages that were mentioned.
    pub packages: Seq<UnitKey>,
    /// The units that the with clauses name, in order.
    pub withs: Seq<UnitKey>,
    /// What the use clauses open, in order.
    pub uses: Seq<UseClause>,
}

/// Whether it is a root unit under whose name nothing is declared here.
fn is_new_root(name: &[u8], views: &[View]) -> bool
    ensures { result ≡ is_new_root name.now views.now }
{
    parent_of(name).is_none() && is_none(views)
}

/// Declares a unit with this view, if there is one, in the innermost region, if that is wanted.
fn declare_if(
    scope: &mut Scope,
    new: bool,
    view: &Option<View>,
    name: &[u8],
) -> Result<(), NoMemory>
    requires { 0 < length scope.old.regions }
    ensures declared { OnOk result (scope.new ≡ declared_if new view.now name.now scope.old) }
    ensures depth { length scope.new.regions ≡ length scope.old.regions }
{
    let Some(view) = view else {
        return Ok(());
    };
    if !new {
        return Ok(());
    }
    scope.add(name, view.share()?)?;
    Ok(())
}

/// Declares a root unit in the region of the clause, once.
fn add_root<A: Answers>(
    scope: &mut Scope,
    name: &[u8],
    view: &Option<View>,
    recorder: &mut Recorder<A>,
) -> Result<(), NoMemory>
    requires { 0 < length scope.old.regions }
    ensures asked { recorder.new.asked ≡ recorder.old.asked }
    ensures answered { OnOk result (FromAnswers recorder.old.log recorder.new.log (λ t. scope.new ≡ rooted t view.now name.now scope.old)) }
    ensures depth { length scope.new.regions ≡ length scope.old.regions }
{
    let views = scope.declared_here(name, recorder)?;
    let new = is_new_root(name, views.as_slice());
    declare_if(scope, new, view, name)?;
    Ok(())
}

/// Mentions one unit.
fn mention_unit<A: Answers>(
    alloc: Global,
    context: &mut Context,
    name: &[u8],
    recorder: &mut Recorder<A>,
) -> Result<(), NoMemory>
    requires { 0 < length context.old.scope.regions }
    ensures asked { recorder.new.asked ≡ recorder.old.asked }
    ensures answered { OnOk result (FromAnswers recorder.old.log recorder.new.log (λ t. context.new ≡ unit_mentioned t context.old name.now)) }
    ensures depth { length context.new.scope.regions ≡ length context.old.scope.regions }
{
    let view = library_view(alloc, name, recorder)?;
    let packages = &mut context.packages;
    mention_view(alloc, &mut context.scope, packages, name, &view)?;
    add_root(&mut context.scope, name, &view, recorder)?;
    Ok(())
}

/// Mentions units, in their order.
fn mention_units<A: Answers>(
    alloc: Global,
    context: &mut Context,
    names: &[Name],
    recorder: &mut Recorder<A>,
) -> Result<(), NoMemory>
    requires { 0 < length context.old.scope.regions }
    ensures asked { recorder.new.asked ≡ recorder.old.asked }
    ensures answered { OnOk result (FromAnswers recorder.old.log recorder.new.log (λ t. context.new ≡ fold (unit_mentioned t) context.old names.now)) }
    ensures depth { length context.new.scope.regions ≡ length context.old.scope.regions }
{
    for name in names {
        mention_unit(alloc, context, name.as_slice(), recorder)?;
    }
    Ok(())
}

/// Adds a name.
fn add_name(alloc: Global, name: &[u8], names: &mut Vec<Name>) -> Result<(), NoMemory>
    ensures { OnOk result (names.new.items ≡ names.old.items ++ name.now ∷ []) }
{
    let name = Name::from_slice(alloc, name)?;
    names.push(name)?;
    Ok(())
}

/// The names of a unit's ancestors and its own.
fn lineage_of(alloc: Global, name: &[u8]) -> Result<Vec<Name>, NoMemory>
    ensures { IfOk result (λ names. names.items ≡ lineage name.now) }
{
    let mut names = Vec::new(alloc);
    let slices = lineage(alloc, name)?;
    for slice in slices.as_slice() {
        add_name(alloc, slice, &mut names)?;
    }
    Ok(names)
}

/// Adds a unit that a with clause names.
fn add_named(alloc: Global, context: &mut Context, name: &[u8]) -> Result<(), NoMemory>
    ensures named { OnOk result (context.new ≡ with_named context.old name.now) }
    ensures depth { length context.new.scope.regions ≡ length context.old.scope.regions }
{
    let name = Name::from_slice(alloc, name)?;
    let kind = UnitKind::Decl;
    context.withs.push(UnitKey { name, kind })?;
    Ok(())
}

/// Adds one name of a with clause.
fn add_with<A: Answers>(
    alloc: Global,
    context: &mut Context,
    name: &CompoundName,
    recorder: &mut Recorder<A>,
) -> Result<(), NoMemory>
    requires { 0 < length context.old.scope.regions }
    ensures asked { recorder.new.asked ≡ recorder.old.asked }
    ensures answered { OnOk result (FromAnswers recorder.old.log recorder.new.log (λ t. context.new ≡ withed t context.old (compound_model name.now))) }
    ensures depth { length context.new.scope.regions ≡ length context.old.scope.regions }
{
    let full = full_name(alloc, name)?;
    let names = lineage_of(alloc, full.as_slice())?;
    mention_units(alloc, context, names.as_slice(), recorder)?;
    add_named(alloc, context, full.as_slice())?;
    Ok(())
}

/// Adds further names of a with clause.
fn add_each_with<A: Answers>(
    alloc: Global,
    context: &mut Context,
    names: &[CompoundName],
    recorder: &mut Recorder<A>,
) -> Result<(), NoMemory>
    requires { 0 < length context.old.scope.regions }
    ensures asked { recorder.new.asked ≡ recorder.old.asked }
    ensures answered { OnOk result (FromAnswers recorder.old.log recorder.new.log (λ t. context.new ≡ fold (withed t) context.old (map compound_model names.now))) }
    ensures depth { length context.new.scope.regions ≡ length context.old.scope.regions }
{
    for name in names {
        add_with(alloc, context, name, recorder)?;
    }
    Ok(())
}

/// Adds a with clause.
fn add_withs<A: Answers>(
    alloc: Global,
    context: &mut Context,
    names: &CompoundNames,
    recorder: &mut Recorder<A>,
) -> Result<Option<Fault>, NoMemory>
    requires { 0 < length context.old.scope.regions }
    ensures asked { recorder.new.asked ≡ recorder.old.asked }
    ensures answered { IfOk result (λ fault. FromAnswers recorder.old.log recorder.new.log (λ t. unless fault (Ok context.new) ≡ Ok (fold (withed t) context.old (all_names (compounds_model names.now))))) }
    ensures depth { length context.new.scope.regions ≡ length context.old.scope.regions }
{
    add_with(alloc, context, &names.first, recorder)?;
    add_each_with(alloc, context, names.others.as_slice(), recorder)?;
    Ok(None)
}

/// Appends what further use clauses open.
fn append_uses(alloc: Global, uses: &mut Seq<UseClause>, more: &[UseClause]) -> Result<(), NoMemory>
    ensures { OnOk result (uses.new ≡ uses.old ++ more.now) }
{
    for clause in more {
        let copy = clause.copy(alloc)?;
        uses.push(copy)?;
    }
    Ok(())
}

/// Appends what further use clauses open, if these are right; else the result is their fault.
fn add_uses(
    alloc: Global,
    uses: &mut Seq<UseClause>,
    more: CheckResult<Seq<UseClause>>,
) -> Result<Option<Fault>, NoMemory>
    ensures fault { IfOk result (λ fault. fault ≡ fault_in more) }
    ensures uses { OnOk result (uses.new ≡ more_uses uses.old more) }
{
    match more {
        Ok(more) => {
            append_uses(alloc, uses, more.as_slice())?;
            Ok(None)
        }
        Err(fault) => Ok(Some(fault)),
    }
}

/// Adds a use clause. What it opens is opened in the unit, and nowhere in the context clause (ARM 8.4(6)).
fn add_use<A: Answers>(
    alloc: Global,
    context: &mut Context,
    clause: &al_tree::UseClause,
    recorder: &mut Recorder<A>,
) -> Result<Option<Fault>, NoMemory>
    requires { 0 < length context.old.scope.regions }
    ensures asked { recorder.new.asked ≡ recorder.old.asked }
    ensures answered { IfOk result (λ fault. FromAnswers recorder.old.log recorder.new.log (λ t. unless fault (Ok context.new) ≡ map_ok (with_uses context.old) (uses_at t context.old.scope context.old.packages (use_model clause.now)))) }
    ensures depth { length context.new.scope.regions ≡ length context.old.scope.regions }
{
    let packages = context.packages.as_slice();
    let clauses = uses_at(alloc, &context.scope, packages, clause, recorder)?;
    let fault = add_uses(alloc, &mut context.uses, clauses)?;
    Ok(fault)
}

/// Adds one item of a context clause. The result is its fault, which ends the clause.
fn add_item<A: Answers>(
    alloc: Global,
    context: &mut Context,
    item: &ContextItem,
    recorder: &mut Recorder<A>,
) -> Result<Option<Fault>, NoMemory>
    requires { 0 < length context.old.scope.regions }
    ensures asked { recorder.new.asked ≡ recorder.old.asked }
    ensures answered { IfOk result (λ fault. FromAnswers recorder.old.log recorder.new.log (λ t. unless fault (Ok context.new) ≡ with_item t context.old (context_model item.now))) }
    ensures depth { length context.new.scope.regions ≡ length context.old.scope.regions }
{
    match item {
        ContextItem::With(names) => add_withs(alloc, context, names, recorder),
        ContextItem::Use(clause) => add_use(alloc, context, clause, recorder),
        ContextItem::Pragma(pragma) => {
            context_pragma_fault(alloc, context.withs.as_slice(), pragma)
        }
    }
}

/// The state at the start of a context clause.
fn context_start(alloc: Global) -> Result<Context, NoMemory>
    ensures { IfOk result (λ context. context ≡ context_start) }
{
    let mut scope = Scope::new(alloc);
    scope.enter(Seq::empty(alloc))?;
    Ok(Context {
        scope,
        packages: Seq::empty(alloc),
        withs: Seq::empty(alloc),
        uses: Seq::empty(alloc),
    })
}

/// What a context clause says: which units its with clauses name, and what its use clauses open. Each use clause and pragma sees only what
/// the with clauses before it mention, and what is selected in that (ARM 8.4(6), 10.1.6, 10.2.1).
/// # Errors
/// `NoMemory` if the allocator refuses memory. The inner error is the fault of the first item that is faulty, which ends the clause.
pub fn context_at<A: Answers>(
    alloc: Global,
    items: &[ContextItem],
    recorder: &mut Recorder<A>,
) -> Result<CheckResult<Context>, NoMemory>
    ensures asked { recorder.new.asked ≡ recorder.old.asked }
    ensures answered { IfOk result (λ judged. FromAnswers recorder.old.log recorder.new.log (λ t. judged ≡ context_at t (map context_model items.now))) }
{
    let mut context = context_start(alloc)?;
    for item in items {
        let fault = add_item(alloc, &mut context, item, recorder)?;
        if let Some(fault) = fault {
            return Ok(Err(fault));
        }
    }
    Ok(Ok(context))
}
