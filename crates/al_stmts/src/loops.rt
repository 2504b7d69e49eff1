// Loops.
ghost use Rattle.std.specs.Prelude.{◌≡◌, IfOk, map};
ghost use Rattle.al_base_fault.specs.Judging.{map_ok};
ghost use Rattle.al_view_typed.specs.ExpressionViews.{typed_model};
ghost use Rattle.al_view_typed.specs.StatementViews.{scheme_model, statement_model};
ghost use Rattle.al_stmts.specs.Checking.{all_checked, one_checked};
ghost use Rattle.al_stmts.specs.LoopForms.{bound_of, for_scheme, looped, looped_over, parameter_bounds, range_of_mark, range_model, value_in, while_scheme};

use crate::checked::{CheckedStatement, CheckedStatements};
use al_base::{NoMemory, Place};
use al_base_fault::{CheckResult, Fault, unless};
use al_view::{Bounds, StaticValue, Symbol};
use al_view_typed::{
    ExpressionType, Form, Labels, LoopScheme, StatementForm, Typed, TypedStatement,
};
use std::alloc::Global;

/// The values of a loop's parameter (ARM 5.5(4)): both bounds, and the range of the mark before `range`.
#[derive(Drop)]
pub struct LoopRange {
    /// The low bound.
    pub low: Typed,
    /// The high bound.
    pub high: Typed,
    /// The range of the mark, if there is one.
    pub mark: Option<Bounds>,
}

/// The words of the frame for a loop's parameter and for the last value that it is to have.
#[derive(Clone, Copy)]
pub struct LoopWords {
    /// The word of the parameter.
    pub parameter: u32,
    /// The word of its last value.
    pub last: u32,
}

/// A static bound of a mark, as an expression of its type.
fn bound(place: Place, of: Symbol, value: StaticValue) -> Typed
    ensures { typed_model result ≡ bound_of place of value }
{
    let labels = Labels {
        place,
        of: ExpressionType::Declared(of),
        bounds: None,
        words: 1,
        value: Some(value),
    };
    Typed::new(labels, Form::literal(value))
}

/// The range of a mark alone, of this type and with these bounds, at its place (ARM 3.6.1(4)).
/// # Errors
/// `NoMemory` if the allocator refuses memory.
pub fn mark_range(
    alloc: Global,
    place: Place,
    of: &Symbol,
    bounds: Bounds,
) -> Result<LoopRange, NoMemory>
    ensures { IfOk result (λ range. range_model range ≡ range_of_mark place of.now bounds) }
{
    let low_type = of.copy(alloc)?;
    let high_type = of.copy(alloc)?;
    let low = StaticValue { word: bounds.low };
    let high = StaticValue { word: bounds.high };
    Ok(LoopRange {
        low: bound(place, low_type, low),
        high: bound(place, high_type, high),
        mark: None,
    })
}

/// The value of an expression, if it is static.
#[tactic(auto, using(crate::proofs::Layers::typed_value))]
fn value_in(typed: &Typed) -> Option<StaticValue>
    ensures { result ≡ value_in (typed_model typed.now) }
{
    typed.labels.value
}

/// The range of the parameter's subtype, which is static if both bounds are (ARM 4.9(26)).
pub fn parameter_bounds(range: &LoopRange) -> Option<Bounds>
    ensures { result ≡ parameter_bounds (range_model range.now) }
{
    match (value_in(&range.low), value_in(&range.high)) {
        (Some(low), Some(high)) => Some(Bounds {
            low: low.word,
            high: high.word,
        }),
        (Some(_), None) => None,
        (None, _) => None,
    }
}

/// `for parameter in [reverse] range`, with the words that the parameter's identifier takes.
pub fn for_scheme(is_reverse: bool, range: LoopRange, words: LoopWords) -> LoopScheme
    ensures { scheme_model result ≡ for_scheme is_reverse (range_model range) words }
{
    LoopScheme::For {
        is_reverse,
        low: range.low,
        high: range.high,
        mark: range.mark,
        parameter: words.parameter,
        last: words.last,
    }
}

/// `while condition`.
/// # Errors
/// The fault of the condition.
pub fn while_scheme(condition: CheckResult<Typed>) -> CheckResult<LoopScheme>
    ensures { map_ok scheme_model result ≡ while_scheme (map_ok typed_model condition) }
{
    match condition {
        Ok(condition) => Ok(LoopScheme::While(condition)),
        Err(fault) => Err(fault),
    }
}

/// A loop over statements.
fn over(
    line: usize,
    scheme: CheckResult<LoopScheme>,
    statements: Vec<TypedStatement>,
) -> CheckResult<TypedStatement>
    ensures { map_ok statement_model result ≡ looped_over line (map_ok scheme_model scheme) (map statement_model statements.items) }
{
    match scheme {
        Ok(scheme) => {
            let form = StatementForm::looping(scheme, statements);
            Ok(TypedStatement::new(line, form))
        }
        Err(fault) => Err(fault),
    }
}

/// A loop by its scheme (how often it goes round), the fault of the name at its end, and its statements (ARM 5.5). The range of a for loop
/// is a declaration: if it is faulty, the list of faults ends there, and there is no loop.
/// # Errors
/// `NoMemory` if the allocator refuses memory.
#[tactic(auto, using(crate::proofs::Seen::seen_unless))]
pub fn loop_statement(
    alloc: Global,
    line: usize,
    scheme: CheckResult<LoopScheme>,
    end: Option<Fault>,
    inner: CheckedStatements,
) -> Result<CheckedStatement, NoMemory>
    ensures { IfOk result (λ one. one_checked one ≡ looped line (map_ok scheme_model scheme) end (all_checked inner)) }
{
    let CheckedStatements { faults, statements } = inner;
    let judged = unless(end, over(line, scheme, statements));
    CheckedStatement::compound(alloc, judged, faults)
}
