// Subtypes by a mark and a constraint (ARM 3.2.2, 3.5).
ghost use Rattle.std.specs.Prelude.{◌≡◌, IfOk};
ghost use Rattle.al_decl_judged.specs.TypeSubtypes.{fitted, is_null, is_within, scalar_bounds, subtype_bounds, subtype_of, with_bounds};

use crate::type_list::other_types;
use al_base::{NoMemory, Place};
use al_base_fault::{CheckResult, CheckRule, Fault};
use al_view::{Bounds, Subtype, SubtypeView};
use al_view_predefined::StandardTypes;
use std::alloc::Global;

/// A range with static bounds.
#[derive(Clone, Copy)]
pub struct StaticRange {
    /// The bounds.
    pub bounds: Bounds,
    /// The place of the low bound.
    pub low: Place,
    /// The place of the high bound.
    pub high: Place,
}

/// Whether a range has no values (ARM 3.5(4)).
pub(crate) fn is_null(range: Bounds) -> bool
    ensures { result ≡ is_null range }
{
    range.high < range.low
}

pub(crate) fn is_within(value: i64, bounds: Bounds) -> bool
    ensures { result ≡ is_within value bounds }
{
    bounds.low <= value && value <= bounds.high
}

/// The bounds of a subtype, its own or those of its type; none if it isn't scalar.
pub(crate) fn bounds_of(standard: &StandardTypes, of: &SubtypeView) -> Option<Bounds>
    ensures { result ≡ subtype_bounds of.now.types of.now.subtype }
{
    match of.subtype.bounds {
        Some(bounds) => Some(bounds),
        None => standard.bounds_of(&of.types, &of.subtype.base),
    }
}

/// The bounds of the mark at that place, which is constrained (ARM 3.2.2(11)).
/// # Errors
/// E404 at the mark if it isn't scalar.
pub fn scalar_bounds(
    standard: &StandardTypes,
    mark: &SubtypeView,
    place: Place,
) -> CheckResult<Bounds>
    ensures { result ≡ scalar_bounds place (subtype_bounds mark.now.types mark.now.subtype) }
{
    match bounds_of(standard, mark) {
        Some(bounds) => Ok(bounds),
        None => Err(Fault {
            place,
            rule: CheckRule::WrongKind,
        }),
    }
}

/// The bounds of a range that is null or lies in these (ARM 3.5(6)); else E305 at its first bound that lies outside.
fn fitted(range: StaticRange, within: Bounds) -> CheckResult<Bounds>
    ensures { result ≡ fitted range within }
{
    if is_null(range.bounds) {
        return Ok(range.bounds);
    }
    if !is_within(range.bounds.low, within) {
        return Err(Fault {
            place: range.low,
            rule: CheckRule::OutOfLimits,
        });
    }
    if !is_within(range.bounds.high, within) {
        return Err(Fault {
            place: range.high,
            rule: CheckRule::OutOfLimits,
        });
    }
    Ok(range.bounds)
}

/// The mark's type with these bounds.
fn with_bounds(
    alloc: Global,
    standard: &StandardTypes,
    mark: &SubtypeView,
    bounds: Option<Bounds>,
) -> Result<SubtypeView, NoMemory>
    ensures { IfOk result (λ subtype. subtype ≡ with_bounds mark.now bounds) }
{
    let base = mark.subtype.base.copy(alloc)?;
    let types = other_types(alloc, standard, &mark.types)?;
    let literals = mark.literals.share()?;
    Ok(SubtypeView {
        subtype: Subtype { base, bounds },
        types,
        literals,
    })
}

/// The subtype that the mark at that place denotes, with a constraint or without (ARM 3.2.2).
/// # Errors
/// `NoMemory` if the allocator refuses memory. The inner error is E404 at a mark that is constrained and not scalar; else E305 at the first
/// bound that lies outside the mark's, if the range has values.
pub fn subtype_of(
    alloc: Global,
    standard: &StandardTypes,
    mark: &SubtypeView,
    place: Place,
    constraint: Option<StaticRange>,
) -> Result<CheckResult<SubtypeView>, NoMemory>
    ensures { IfOk result (λ checked. checked ≡ subtype_of mark.now place constraint) }
{
    let Some(range) = constraint else {
        let whole = with_bounds(alloc, standard, mark, bounds_of(standard, mark))?;
        return Ok(Ok(whole));
    };
    let within = match scalar_bounds(standard, mark, place) {
        Ok(within) => within,
        Err(fault) => return Ok(Err(fault)),
    };
    let bounds = match fitted(range, within) {
        Ok(bounds) => bounds,
        Err(fault) => return Ok(Err(fault)),
    };
    let subtype = with_bounds(alloc, standard, mark, Some(bounds))?;
    Ok(Ok(subtype))
}
