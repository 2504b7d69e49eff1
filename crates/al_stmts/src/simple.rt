// Statements without statements inside them.
ghost use Rattle.std.specs.Prelude.{◌≡◌, map, option_map};
ghost use Rattle.al_base_fault.specs.Judging.{map_ok};
ghost use Rattle.al_view_typed.specs.ExpressionViews.{call_model, typed_model};
ghost use Rattle.al_view_typed.specs.StatementTrees.{StatementFormTree as forms, StatementTree as trees};
ghost use Rattle.al_view_typed.specs.StatementViews.{piece_model, statement_model};
ghost use Rattle.al_stmts.specs.Simple.{assigned, called, delayed, exited, maybe_checked, put, returned, target_model, value_returned};

use crate::target::Target;
use crate::{EnclosingBody, Loops, return_fault};
use al_base::Place;
use al_base_fault::{CheckResult, both, unless};
use al_view::Bounds;
use al_view_typed::{CheckedValue, Piece, StatementForm, Typed, TypedCall, TypedStatement};

/// The body that a return statement is in, and for a function the words of its result, with the range of its subtype if that is scalar; 0
/// and none for other bodies.
#[derive(Clone, Copy)]
pub struct ReturnContext {
    /// The innermost body.
    pub body: EnclosingBody,
    /// How many words the result has.
    pub words: u32,
    /// The range of the result's subtype, if it is scalar.
    pub bounds: Option<Bounds>,
}

/// `null;`, with the line of its first token, as all statements have it here (ARM 5.1(6)).
pub fn null(line: usize) -> TypedStatement
    ensures { statement_model result ≡ trees.Numbered line forms.NullStatement }
{
    TypedStatement::new(line, StatementForm::null())
}

/// `target := value;`, by the value, which has the target's type (ARM 5.2).
/// # Errors
/// The fault of the value.
pub fn assignment(
    line: usize,
    target: Target,
    value: CheckResult<Typed>,
) -> CheckResult<TypedStatement>
    ensures { map_ok statement_model result ≡ assigned line (target_model target) (map_ok typed_model value) }
{
    match value {
        Ok(value) => {
            let value = CheckedValue::new(value, target.bounds);
            let form = StatementForm::assignment(target.name, target.words, value);
            Ok(TypedStatement::new(line, form))
        }
        Err(fault) => Err(fault),
    }
}

/// A call of a procedure or an entry (ARM 6.4, 9.5.3).
/// # Errors
/// The fault of the call.
pub fn call(line: usize, call: CheckResult<TypedCall>) -> CheckResult<TypedStatement>
    ensures { map_ok statement_model result ≡ called line (map_ok call_model call) }
{
    match call {
        Ok(call) => Ok(TypedStatement::new(line, StatementForm::call(call))),
        Err(fault) => Err(fault),
    }
}

/// `Put` or `Put_Line` of these pieces (ARM A.10.7).
/// # Errors
/// The fault of the pieces.
pub fn put(
    line: usize,
    pieces: CheckResult<Vec<Piece>>,
    ends_line: bool,
) -> CheckResult<TypedStatement>
    ensures { map_ok statement_model result ≡ put line (map_ok (λ ps. map piece_model ps.items) pieces) ends_line }
{
    match pieces {
        Ok(pieces) => Ok(TypedStatement::new(line, StatementForm::put(pieces, ends_line))),
        Err(fault) => Err(fault),
    }
}

/// `delay until moment;` (ARM 9.6).
/// # Errors
/// The fault of the moment.
pub fn delay(line: usize, moment: CheckResult<Typed>) -> CheckResult<TypedStatement>
    ensures { map_ok statement_model result ≡ delayed line (map_ok typed_model moment) }
{
    match moment {
        Ok(moment) => Ok(TypedStatement::new(line, StatementForm::delay(moment))),
        Err(fault) => Err(fault),
    }
}

/// A return statement with a value.
fn value_returned(
    line: usize,
    context: ReturnContext,
    value: CheckResult<Typed>,
) -> CheckResult<TypedStatement>
    ensures { map_ok statement_model result ≡ value_returned line context (map_ok typed_model value) }
{
    match value {
        Ok(value) => {
            let value = CheckedValue::new(value, context.bounds);
            let form = StatementForm::returning(Some(value), context.words);
            Ok(TypedStatement::new(line, form))
        }
        Err(fault) => Err(fault),
    }
}

/// A return statement, at the place of its first word, with its value if it has one (ARM 6.5).
/// # Errors
/// The first of E501 at that word if a value is missing or not wanted or no return statement is allowed, and the fault of the value.
#[tactic(auto, using(crate::proofs::Seen::seen_unless))]
pub fn return_statement(
    place: Place,
    context: ReturnContext,
    value: Option<CheckResult<Typed>>,
) -> CheckResult<TypedStatement>
    ensures { map_ok statement_model result ≡ returned place context (option_map (map_ok typed_model) value) }
{
    let line = place.line as usize;
    match value {
        None => {
            let statement = TypedStatement::new(line, StatementForm::returning(None, 0));
            unless(return_fault(place, context.body, false), Ok(statement))
        }
        Some(value) => {
            let fault = return_fault(place, context.body, true);
            unless(fault, value_returned(line, context, value))
        }
    }
}

/// A part that may be left out.
fn maybe(judged: Option<CheckResult<Typed>>) -> CheckResult<Option<Typed>>
    ensures { map_ok (option_map typed_model) result ≡ maybe_checked (option_map (map_ok typed_model) judged) }
{
    match judged {
        None => Ok(None),
        Some(Ok(typed)) => Ok(Some(typed)),
        Some(Err(fault)) => Err(fault),
    }
}

/// An exit statement, at the place of its first word, among the loops round it: with the name of one, in lower case, or without; and with
/// its condition if it has one (ARM 5.7).
/// # Errors
/// The first of E502 at that word if no such loop is round it, and the fault of the condition.
#[tactic(auto, using(crate::proofs::Seen::seen_both))]
pub fn exit_statement(
    place: Place,
    loops: &Loops,
    name: Option<&[u8]>,
    condition: Option<CheckResult<Typed>>,
) -> CheckResult<TypedStatement>
    ensures { map_ok statement_model result ≡ exited place loops.now (option_map (λ n. n.now) name.entry) (option_map (map_ok typed_model) condition) }
{
    match both(loops.checked_exit(place, name), maybe(condition)) {
        Ok((loops, condition)) => {
            let form = StatementForm::exit(loops, condition);
            Ok(TypedStatement::new(place.line as usize, form))
        }
        Err(fault) => Err(fault),
    }
}
