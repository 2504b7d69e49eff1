// Ranges (ARM 3.5, 3.6.1).
ghost use Rattle.std.specs.Prelude.{◌≡◌, IfOk};
ghost use Rattle.al_base_fault.specs.Judging.{map_ok};
ghost use Rattle.al_overload_lookup.specs.Keys.{denoted};
ghost use Rattle.al_overload_readings.specs.RangeTerms.{between, bounds_of, marked, range_of, range_model};
ghost use Rattle.al_overload_readings.specs.TermLists.{pair_model};
ghost use Rattle.al_tree.specs.DeclarationViews.{discrete_range_model, range_model as written};

use crate::text::{mark_of_text, one_range, term_of};
use crate::{bounds, together};
use al_base::NoMemory;
use al_base_fault::{CheckResult, both};
use al_overload::Term;
use al_overload_lookup::Names;
use al_tree::{DiscreteRange, Range};
use al_view::SubtypeView;
use al_view_predefined::StandardTypes;
use std::alloc::Global;

/// A range with the terms of its bounds.
pub enum RangeTerm {
    /// A mark or a Range attribute.
    Whole(SubtypeView),
    /// `low .. high`.
    Bounds(Term, Term),
    /// `mark range low .. high`.
    Marked(SubtypeView, Term, Term),
}

impl Drop for RangeTerm {
    fn drop(self) {
        match self {
            RangeTerm::Whole(_) => {}
            RangeTerm::Bounds(_, _) => {}
            RangeTerm::Marked(_, _, _) => {}
        }
    }
}

/// The terms of both bounds.
/// # Errors
/// `NoMemory` if the allocator refuses memory. The inner error is the earlier fault of the two terms: E401 or E404 of a name in it.
pub fn bounds_of(
    alloc: Global,
    standard: &StandardTypes,
    names: &Names,
    range: &Range,
) -> Result<CheckResult<(Term, Term)>, NoMemory>
    ensures { IfOk result (λ checked. map_ok pair_model checked ≡ bounds_of (denoted names.now) (written range.now)) }
{
    let low = term_of(alloc, standard, names, &range.low);
    let high = term_of(alloc, standard, names, &range.high);
    let (low, high) = together(low, high)?;
    Ok(bounds(low, high))
}

#[tactic(auto, unfolding(crate::specs::RangeTerms::between))]
fn between(checked: CheckResult<(Term, Term)>) -> CheckResult<RangeTerm>
    ensures { map_ok range_model result ≡ between (map_ok pair_model checked) }
{
    match checked {
        Ok((low, high)) => Ok(RangeTerm::Bounds(low, high)),
        Err(fault) => Err(fault),
    }
}

#[tactic(auto, unfolding(crate::specs::RangeTerms::marked))]
fn marked(
    mark: CheckResult<SubtypeView>,
    bounds: CheckResult<(Term, Term)>,
) -> CheckResult<RangeTerm>
    ensures { map_ok range_model result ≡ marked mark (map_ok pair_model bounds) }
{
    match both(mark, bounds) {
        Ok((mark, (low, high))) => Ok(RangeTerm::Marked(mark, low, high)),
        Err(fault) => Err(fault),
    }
}

/// A discrete range with the terms of its bounds.
/// # Errors
/// `NoMemory` if the allocator refuses memory. The inner error is E401 or E404 at the first of its names that isn't visible or isn't of the
/// right kind.
pub fn range_of(
    alloc: Global,
    standard: &StandardTypes,
    names: &Names,
    range: &DiscreteRange,
) -> Result<CheckResult<RangeTerm>, NoMemory>
    ensures { IfOk result (λ checked. map_ok range_model checked ≡ range_of (denoted names.now) (discrete_range_model range.now)) }
{
    match range {
        DiscreteRange::Mark(expression) => {
            match one_range(alloc, standard, names, expression)? {
                Ok(subtype) => Ok(Ok(RangeTerm::Whole(subtype))),
                Err(fault) => Ok(Err(fault)),
            }
        }
        DiscreteRange::Bounds(range) => {
            let bounds = bounds_of(alloc, standard, names, range)?;
            Ok(between(bounds))
        }
        DiscreteRange::MarkRange(mark, range) => {
            let mark = mark_of_text(alloc, standard, names, mark);
            let bounds = bounds_of(alloc, standard, names, range);
            let (mark, bounds) = together(mark, bounds)?;
            Ok(marked(mark, bounds))
        }
    }
}
