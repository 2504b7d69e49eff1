// Subtype indications and index subtypes (ARM 3.2.2, 3.6).
ghost use Rattle.std.specs.Prelude.{◌≡◌, IfOk};
ghost use Rattle.al_decl_judged.specs.Indications.{index_of_bounds, index_of_mark, indication};
ghost use Rattle.al_decl_judged.specs.Rules.{optional};

use crate::{StaticRange, scalar_bounds, subtype_of};
use al_base::{NoMemory, Place};
use al_base_fault::{CheckResult, both};
use al_view::{Subtype, SubtypeView, Symbol, Types};
use al_view_predefined::{StandardTypes, no_names};
use std::alloc::Global;

/// A range that may be left out, checked if it is there.
fn optional_range(range: Option<CheckResult<StaticRange>>) -> CheckResult<Option<StaticRange>>
    ensures { result ≡ optional range }
{
    match range {
        None => Ok(None),
        Some(Ok(range)) => Ok(Some(range)),
        Some(Err(fault)) => Err(fault),
    }
}

/// The index subtype of a mark at that place, with a constraint or without.
/// # Errors
/// `NoMemory` if the allocator refuses memory. The inner error is the fault of the mark; else the earlier of E404 at a mark that isn't
/// scalar (ARM 3.6(5)) and the fault of the constraint; else E305 at the first bound of the constraint that lies outside the mark's.
pub fn index_of_mark(
    alloc: Global,
    standard: &StandardTypes,
    place: Place,
    mark: &CheckResult<SubtypeView>,
    constraint: Option<CheckResult<StaticRange>>,
) -> Result<CheckResult<SubtypeView>, NoMemory>
    ensures { IfOk result (λ checked. checked ≡ index_of_mark place mark.now constraint) }
{
    let mark = match mark {
        Ok(mark) => mark,
        Err(fault) => return Ok(Err(*fault)),
    };
    match both(
        scalar_bounds(standard, mark, place),
        optional_range(constraint),
    ) {
        Ok((_, range)) => subtype_of(alloc, standard, mark, place, range),
        Err(fault) => Ok(Err(fault)),
    }
}

/// The subtype of a mark at that place, with a constraint or without (ARM 3.2.2).
/// # Errors
/// `NoMemory` if the allocator refuses memory. The inner error is the fault of the mark; with a constraint, that of `index_of_mark`.
pub fn indication(
    alloc: Global,
    standard: &StandardTypes,
    place: Place,
    mark: &CheckResult<SubtypeView>,
    constraint: Option<CheckResult<StaticRange>>,
) -> Result<CheckResult<SubtypeView>, NoMemory>
    ensures { IfOk result (λ checked. checked ≡ indication place mark.now constraint) }
{
    match (mark, constraint) {
        (Err(fault), _) => Ok(Err(*fault)),
        (Ok(mark), None) => subtype_of(alloc, standard, mark, place, None),
        (Ok(_), Some(range)) => index_of_mark(alloc, standard, place, mark, Some(range)),
    }
}

/// The index subtype of two bounds of a type, which are checked against no range (ARM 3.6.1).
/// # Errors
/// `NoMemory` if the allocator refuses memory. The inner error is the fault of the bounds.
pub fn index_of_bounds(
    alloc: Global,
    of: Symbol,
    types: Types,
    range: CheckResult<StaticRange>,
) -> Result<CheckResult<SubtypeView>, NoMemory>
    ensures { IfOk result (λ checked. checked ≡ index_of_bounds of types range) }
{
    match range {
        Ok(range) => Ok(Ok(SubtypeView {
            subtype: Subtype {
                base: of,
                bounds: Some(range.bounds),
            },
            types,
            literals: no_names(alloc)?,
        })),
        Err(fault) => Ok(Err(fault)),
    }
}
