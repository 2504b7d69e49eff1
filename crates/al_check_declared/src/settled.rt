// What follows a judgement: if what was judged is right, the place goes on with it; else the list of errors ends there.
ghost use Rattle.std.specs.Prelude.{◌≡◌, Ok, map, option_map, IfOk, OnOk};
ghost use Rattle.al_check_here.specs.Faulty.{effect_list};
ghost use Rattle.al_decl.specs.Checking.{at_place};
ghost use Rattle.al_decl.specs.Bodies.{placed_model};
ghost use Rattle.al_decl_judged.specs.Declaring.{declared_model};
ghost use Rattle.al_base_fault.specs.Judging.{map_ok};
ghost use Rattle.al_decl_judged.specs.Bodies.{new_body_model};
ghost use Rattle.al_decl_judged.specs.Subprograms.{joined_waiting};
ghost use Rattle.al_view_typed.specs.DeclarationTrees.{declaration_model};
ghost use Rattle.al_stmts.specs.Views.{effects_model};
ghost use Rattle.al_check_declared.specs.DeclarationsHere.{faulty_here, no_place, pragma_settled, uses_settled};
ghost use Rattle.al_check_declared.specs.HeadsHere.{head_settled, stub_kept, stub_settled, with_head};
ghost use Rattle.al_check_declared.specs.ObjectsHere.{named_settled, object_settled, operation_settled, view_symbol};
ghost use Rattle.al_decl_protected.specs.Bodies.{named_model};
ghost use Rattle.al_tree.specs.StatementViews.{operation_bodies_of, operation_body_model};
ghost use Rattle.al_check_declared.specs.WholeHere.{own_mentioned, own_settled, whole_kept, whole_settled, with_own};

use crate::nowhere::not_yet_fault;
use crate::open_object;
use al_base::{Name, NoMemory};
use al_base_fault::{CheckResult, Fault};
use al_check_here::{
    AnalyzedHeading, BodyRole, CheckState, add_stub, add_uses, effect_list, end_list,
};
use al_decl::PlacedBody;
use al_decl_judged::{Declaration, Declared, DefiningName, Heading, NewBody};
use al_decl_protected::{NamedBody, bare_head};
use al_query::UseClause;
use al_scope::Scope;
use al_tree::OperationBody;
use al_view::{Seq, Symbol, View, ViewKind};
use al_view_typed::TypedDeclaration;
use std::alloc::Global;

/// What declarations do at run time, or the first error in them.
pub type Effects = CheckResult<Vec<TypedDeclaration>>;

/// Ends the list of errors with this error: nothing of the place is looked at any more.
fn faulty(alloc: Global, state: &mut CheckState, fault: Fault) -> Result<Effects, NoMemory>
    ensures { IfOk result (λ checked. (state.new, map_ok effects_model checked) ≡ faulty_here state.old fault) }
{
    end_list(alloc, state)?;
    Ok(Err(fault))
}

/// The error outside of all regions, where nothing can be declared.
///
/// # Errors
/// `NoMemory` if the allocator refuses memory.
pub fn no_place(state: &mut CheckState) -> Result<Effects, NoMemory>
    ensures { IfOk result (λ checked. (state.new, map_ok effects_model checked) ≡ no_place state.old) }
{
    faulty(state.unit.labeller.alloc, state, not_yet_fault())
}

/// Takes the result of judging use clauses.
pub(crate) fn settle_uses(
    state: &mut CheckState,
    checked: CheckResult<Seq<UseClause>>,
) -> Result<Effects, NoMemory>
    ensures { IfOk result (λ effects. (state.new, map_ok effects_model effects) ≡ uses_settled state.old checked) }
{
    let alloc = state.unit.labeller.alloc;
    match checked {
        Ok(clauses) => {
            add_uses(alloc, state, clauses.as_slice())?;
            Ok(Ok(Vec::new(alloc)))
        }
        Err(fault) => faulty(alloc, state, fault),
    }
}

/// Takes the result of judging a pragma.
pub(crate) fn settle_pragma(
    state: &mut CheckState,
    wrong: Option<Fault>,
) -> Result<Effects, NoMemory>
    ensures { IfOk result (λ effects. (state.new, map_ok effects_model effects) ≡ pragma_settled state.old wrong) }
{
    let alloc = state.unit.labeller.alloc;
    match wrong {
        None => Ok(Ok(Vec::new(alloc))),
        Some(fault) => faulty(alloc, state, fault),
    }
}

/// What a declaration that is right does at run time.
fn right(alloc: Global, effect: Option<TypedDeclaration>) -> Result<Effects, NoMemory>
    ensures { IfOk result (λ effects. map_ok effects_model effects ≡ Ok (effect_list (option_map declaration_model effect))) }
{
    match effect_list(alloc, effect) {
        Ok(effects) => Ok(Ok(effects)),
        Err(none) => Err(none),
    }
}

/// Adds a stub that is right.
fn keep_stub(
    state: &mut CheckState,
    heading: &Heading,
    body: PlacedBody,
) -> Result<Effects, NoMemory>
    ensures { IfOk result (λ effects. (state.new, map_ok effects_model effects) ≡ stub_kept state.old heading.now (placed_model body)) }
{
    let alloc = state.unit.labeller.alloc;
    let PlacedBody { effect, symbol } = body;
    let effects = right(alloc, effect)?;
    add_stub(alloc, state, heading, &symbol)?;
    Ok(effects)
}

/// Takes the result of judging a stub with this head.
pub(crate) fn settle_stub(
    state: &mut CheckState,
    heading: &Heading,
    checked: CheckResult<PlacedBody>,
) -> Result<Effects, NoMemory>
    ensures { IfOk result (λ effects. (state.new, map_ok effects_model effects) ≡ stub_settled state.old heading.now (at_place state.old.env (map_ok placed_model checked))) }
{
    match checked {
        Ok(body) => keep_stub(state, heading, body),
        Err(fault) => faulty(state.unit.labeller.alloc, state, fault),
    }
}

/// Keeps a head until its body is entered.
pub(crate) fn keep_head(state: &mut CheckState, role: BodyRole, heading: Heading, symbol: Symbol)
    ensures { state.new ≡ with_head state.old state.old.env role heading symbol }
{
    state.pending = Some(AnalyzedHeading {
        role,
        heading,
        symbol,
    });
}

/// Takes the result of judging the head of a body inside the unit.
pub(crate) fn settle_head(
    state: &mut CheckState,
    heading: Heading,
    checked: CheckResult<PlacedBody>,
) -> Result<Effects, NoMemory>
    ensures { IfOk result (λ effects. (state.new, map_ok effects_model effects) ≡ head_settled state.old heading (at_place state.old.env (map_ok placed_model checked))) }
{
    let alloc = state.unit.labeller.alloc;
    match checked {
        Ok(body) => {
            let PlacedBody { effect, symbol } = body;
            keep_head(state, BodyRole::Subprogram, heading, symbol);
            right(alloc, effect)
        }
        Err(fault) => faulty(alloc, state, fault),
    }
}

/// Takes the result of judging the head of an operation's body. Only the protected object as a whole is elaborated.
pub(crate) fn settle_operation(
    state: &mut CheckState,
    heading: Heading,
    checked: CheckResult<PlacedBody>,
) -> Result<Effects, NoMemory>
    ensures { IfOk result (λ effects. (state.new, map_ok effects_model effects) ≡ operation_settled state.old heading (at_place state.old.env (map_ok placed_model checked))) }
{
    let alloc = state.unit.labeller.alloc;
    match checked {
        Ok(body) => {
            let PlacedBody { effect: _, symbol } = body;
            keep_head(state, BodyRole::Operation, heading, symbol);
            Ok(Ok(Vec::new(alloc)))
        }
        Err(fault) => faulty(alloc, state, fault),
    }
}

/// The symbol of the body that completes a declaration with this view.
fn view_symbol(alloc: Global, state: &CheckState, view: &View) -> Result<Symbol, NoMemory>
    ensures { IfOk result (λ symbol. symbol ≡ view_symbol state.now view.now) }
{
    match view.kind() {
        ViewKind::OfSubprogram(subprogram) => subprogram.symbol.copy(alloc),
        ViewKind::OfTask(task) => task.symbol.copy(alloc),
        ViewKind::OfProtected(object) => object.symbol.copy(alloc),
        ViewKind::OfType(_) => state.unit.own.symbol.copy(alloc),
        ViewKind::OfSubtype(_) => state.unit.own.symbol.copy(alloc),
        ViewKind::OfObject(_) => state.unit.own.symbol.copy(alloc),
        ViewKind::OfComponent => state.unit.own.symbol.copy(alloc),
        ViewKind::OfNumber(_) => state.unit.own.symbol.copy(alloc),
        ViewKind::OfLiteral(_) => state.unit.own.symbol.copy(alloc),
        ViewKind::OfPackage(_) => state.unit.own.symbol.copy(alloc),
    }
}

/// Takes the result of judging the head of a body that has only a name.
pub(crate) fn settle_named(
    state: &mut CheckState,
    role: BodyRole,
    name: DefiningName,
    checked: CheckResult<NamedBody>,
) -> Result<Effects, NoMemory>
    ensures { IfOk result (λ effects. (state.new, map_ok effects_model effects) ≡ named_settled state.old role name (at_place state.old.env (map_ok named_model checked))) }
{
    let alloc = state.unit.labeller.alloc;
    match checked {
        Ok(body) => {
            let symbol = view_symbol(alloc, state, &body.view)?;
            keep_head(state, role, bare_head(alloc, name), symbol);
            Ok(Ok(Vec::new(alloc)))
        }
        Err(fault) => faulty(alloc, state, fault),
    }
}

/// Takes the result of judging what precedes the operations of a protected body.
pub(crate) fn settle_object(
    state: &mut CheckState,
    operations: &[OperationBody],
    checked: CheckResult<NamedBody>,
) -> Result<Effects, NoMemory>
    ensures { IfOk result (λ effects. (state.new, map_ok effects_model effects) ≡ object_settled state.old (operation_bodies_of (map operation_body_model operations.now)) (at_place state.old.env (map_ok named_model checked))) }
{
    let alloc = state.unit.labeller.alloc;
    match checked {
        Ok(body) => {
            open_object(alloc, state, &body.view, operations)?;
            let NamedBody { effect, view: _ } = body;
            right(alloc, effect)
        }
        Err(fault) => faulty(alloc, state, fault),
    }
}

/// Takes the result of judging the declaration of a unit that is one subprogram.
pub(crate) fn settle_own(
    state: &mut CheckState,
    checked: CheckResult<Declared>,
) -> Result<Effects, NoMemory>
    ensures { IfOk result (λ effects. (state.new, map_ok effects_model effects) ≡ own_settled state.old (joined_waiting state.old.env.progress state.old.env.uncompleted (map_ok declared_model checked))) }
{
    let alloc = state.unit.labeller.alloc;
    match checked {
        Ok(declared) => {
            let Declared {
                declarations,
                effect,
            } = declared;
            state.own = declarations;
            right(alloc, effect)
        }
        Err(fault) => faulty(alloc, state, fault),
    }
}

fn mention_own(scope: &mut Scope, unit_name: &Name, own: &Declaration) -> Result<(), NoMemory>
    ensures { OnOk result (scope.new ≡ own_mentioned unit_name.now scope.old own.now) }
{
    let view = own.view.share()?;
    scope.mention(unit_name.as_slice(), view)?;
    Ok(())
}

/// Makes the unit visible under its name, with its own views.
fn mention_all(scope: &mut Scope, unit_name: &Name, own: &[Declaration]) -> Result<(), NoMemory>
    ensures { OnOk result (scope.new ≡ with_own unit_name.now scope.old own.now) }
{
    for declaration in own {
        mention_own(scope, unit_name, declaration)?;
    }
    Ok(())
}

/// Keeps the head of the body of a unit that is one subprogram, which is right.
fn keep_whole(
    state: &mut CheckState,
    heading: Heading,
    declared: Declared,
    symbol: Symbol,
) -> Result<Effects, NoMemory>
    ensures { IfOk result (λ effects. (state.new, map_ok effects_model effects) ≡ whole_kept state.old heading (declared_model declared, symbol)) }
{
    let Declared {
        declarations,
        effect,
    } = declared;
    keep_head(state, BodyRole::Subprogram, heading, symbol);
    let name = &state.unit.own.unit.name;
    mention_all(&mut state.env.scope, name, declarations.as_slice())?;
    state.own = declarations;
    right(state.unit.labeller.alloc, effect)
}

/// Takes the result of judging the head of the body of a unit that is one subprogram.
pub(crate) fn settle_whole(
    state: &mut CheckState,
    heading: Heading,
    checked: CheckResult<NewBody>,
) -> Result<Effects, NoMemory>
    ensures { IfOk result (λ effects. (state.new, map_ok effects_model effects) ≡ whole_settled state.old heading (joined_waiting state.old.env.progress state.old.env.uncompleted (map_ok new_body_model checked))) }
{
    match checked {
        Ok(body) => {
            let NewBody { declared, symbol } = body;
            keep_whole(state, heading, declared, symbol)
        }
        Err(fault) => faulty(state.unit.labeller.alloc, state, fault),
    }
}
