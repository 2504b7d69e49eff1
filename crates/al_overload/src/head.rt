// The heads of expressions with all that they may mean (ARM 8.6).
ghost use Rattle.std.specs.Prelude.{◌≡◌, [], ◌∷◌, IfOk, OnOk};
ghost use Rattle.std.specs.List.{list_any};
ghost use Rattle.al_overload.specs.Counts.{plain, plain_all};
ghost use Rattle.al_overload.specs.Labelling.{Node};
ghost use Rattle.al_base_fault.specs.Judging.{map_ok};
ghost use Rattle.al_overload.specs.Candidates.{is_no_value, with_all};
ghost use Rattle.al_overload.specs.Heads.{all_candidates, named, operated};

use crate::candidate::{add_candidates, is_no_value};
use crate::{Candidate, Expression, Operands};
use al_base::{NoMemory, Place};
use al_base_fault::{CheckResult, CheckRule, Fault};
use al_view::{Symbol, View};
use al_view_predefined::StandardTypes;
use std::alloc::Global;

/// Adds all that these declarations may be, in their order.
#[tactic(auto, using(std::proofs::lemmas::List::Sums::fold_more))]
fn add_all(
    alloc: Global,
    standard: &StandardTypes,
    root: &Symbol,
    head: &mut Expression,
    views: &[View],
) -> Result<(), NoMemory>
    ensures { OnOk result (plain head.new ≡ with_all root.now (plain head.old) views.now) }
{
    for view in views {
        add_candidates(alloc, standard, root, head, view)?;
    }
    Ok(())
}

/// Whether one of these declarations is no value and no call.
pub fn is_any_no_value(views: &[View]) -> bool
    ensures { result ≡ list_any is_no_value views.now }
{
    views.iter().any(|view| is_no_value(view))
}

/// A head with all that these declarations may be.
/// # Errors
/// `NoMemory` if the allocator refuses memory.
#[tactic(auto, using(crate::proofs::Added::all_added))]
pub fn all_of(
    alloc: Global,
    standard: &StandardTypes,
    root: &Symbol,
    visible: &[View],
    operands: Operands,
) -> Result<Expression, NoMemory>
    ensures { IfOk result (λ head. plain head ≡ all_candidates root.now visible.now (plain_all operands)) }
{
    let mut head = Expression::new(alloc, operands);
    add_all(alloc, standard, root, &mut head, visible)?;
    Ok(head)
}

/// A name that must be a value or a call, with the actual parameters or the index after it, by what is visible under it.
/// # Errors
/// `NoMemory` if the allocator refuses memory. The inner error is E401 if nothing is visible, and E404 if something that is visible is no
/// value and no call.
pub fn name(
    alloc: Global,
    standard: &StandardTypes,
    root: &Symbol,
    place: Place,
    visible: &[View],
    operands: Operands,
) -> Result<CheckResult<Expression>, NoMemory>
    ensures { IfOk result (λ checked. map_ok plain checked ≡ named root.now place visible.now (plain_all operands)) }
{
    if visible.is_empty() {
        let rule = CheckRule::NotVisible;
        return Ok(Err(Fault { place, rule }));
    }
    if is_any_no_value(visible) {
        let rule = CheckRule::WrongKind;
        return Ok(Err(Fault { place, rule }));
    }
    let head = all_of(alloc, standard, root, visible, operands)?;
    Ok(Ok(head))
}

/// An operator with its operands. Its candidates are the operators that are visible, and those of the root type.
/// # Errors
/// `NoMemory` if the allocator refuses memory.
#[tactic(auto, using(crate::proofs::Added::both_added))]
pub fn operator(
    alloc: Global,
    standard: &StandardTypes,
    root: &Symbol,
    visible: &[View],
    roots: &[View],
    operands: Operands,
) -> Result<Expression, NoMemory>
    ensures { IfOk result (λ head. plain head ≡ operated root.now visible.now roots.now (plain_all operands)) }
{
    let mut head = Expression::new(alloc, operands);
    add_all(alloc, standard, root, &mut head, visible)?;
    add_all(alloc, standard, root, &mut head, roots)?;
    Ok(head)
}

/// A head that may be one thing alone: a number, text, an attribute, a conversion, a qualified expression, a universal expression.
/// # Errors
/// `NoMemory` if the allocator refuses memory.
pub fn sole(alloc: Global, candidate: Candidate, operands: Operands) -> Result<Expression, NoMemory>
    ensures { IfOk result (λ head. plain head ≡ Node (candidate ∷ []) (plain_all operands)) }
{
    let mut head = Expression::new(alloc, operands);
    head.add(candidate)?;
    Ok(head)
}
