// Which of the declarations that are visible under a name the check chose for it.
ghost use Rattle.std.specs.Prelude.{IfSome};
ghost use Rattle.al_points.specs.Depths.{IsBelow};

use al_base::Place;
use al_view::{Symbol, View, ViewKind};
use al_view_typed::{
    Actual, Callee, CheckedValue, ExpressionType, Form, Typed, TypedCall, TypedName,
};

/// The number of the subprogram among declarations that has a symbol.
pub(crate) fn subprogram_in(symbol: &Symbol, views: &[View]) -> Option<usize> {
    for (i, view) in views.iter().enumerate() {
        if let ViewKind::OfSubprogram(of) = view.kind() {
            if of.symbol.is(symbol) {
                return Some(i);
            }
        }
    }
    None
}

// The number of the literal among declarations that is of the type with a symbol.
fn literal_in(symbol: &Symbol, views: &[View]) -> Option<usize> {
    for (i, view) in views.iter().enumerate() {
        if let ViewKind::OfLiteral(of) = view.kind() {
            if of.base.is(symbol) {
                return Some(i);
            }
        }
    }
    None
}

fn callee_in(callee: &Callee, views: &[View]) -> Option<usize> {
    match callee {
        Callee::Subprogram { symbol, depth: _ } => subprogram_in(symbol, views),
        Callee::Protected(symbol) => subprogram_in(symbol, views),
        Callee::Entry(symbol) => subprogram_in(symbol, views),
    }
}

// .. of what an expression that begins with the name is.
fn own_choice(typed: &Typed, views: &[View]) -> Option<usize> {
    match &typed.form {
        Form::Call(call) => callee_in(&call.callee, views),
        Form::Literal(_) => match &typed.labels.of {
            ExpressionType::Declared(symbol) => literal_in(symbol, views),
            ExpressionType::RootInteger => None,
        },
        _ => None,
    }
}

// .. if the expression begins at this place.
fn own_choice_at(typed: &Typed, place: Place, views: &[View]) -> Option<usize> {
    if typed.labels.place == place {
        own_choice(typed, views)
    } else {
        None
    }
}

/// The operands of an operator that has two.
#[derive(Drop)]
struct Operands<'a> {
    left: &'a Typed,
    right: &'a Typed,
}

// The operands of an operator, if it has two.
fn operands_of(typed: &Typed) -> Option<Operands<'_>>
    ensures { IfSome result (λ o. IsBelow typed.now o.left.now × IsBelow typed.now o.right.now) }
{
    match &typed.form {
        Form::Binary(_, left, right) => Some(Operands { left, right }),
        Form::ShortCircuit(_, left, right) => Some(Operands { left, right }),
        _ => None,
    }
}

fn either(first: Option<usize>, second: Option<usize>) -> Option<usize> {
    match first {
        Some(i) => Some(i),
        None => second,
    }
}

#[cycle(choosing)]
fn in_value(value: &CheckedValue, place: Place, views: &[View]) -> Option<usize> {
    chosen_in(&value.value, place, views)
}

#[cycle(choosing)]
fn in_values(values: &[CheckedValue], place: Place, views: &[View]) -> Option<usize> {
    for value in values {
        let found = in_value(value, place, views);
        if found.is_some() {
            return found;
        }
    }
    None
}

#[cycle(choosing)]
fn in_name(name: &TypedName, place: Place, views: &[View]) -> Option<usize> {
    let mut rest = name;
    loop {
        rest = match rest {
            TypedName::Object {
                place: _,
                is_constant: _,
            } => return None,
            TypedName::Component { whole, offset: _ } => whole,
            TypedName::Indexed {
                array,
                index,
                bounds: _,
                words: _,
            } => {
                let found = chosen_in(index, place, views);
                if found.is_some() {
                    return found;
                }
                array
            }
        };
    }
}

#[cycle(choosing)]
fn in_actual(actual: &Actual, place: Place, views: &[View]) -> Option<usize> {
    match actual {
        Actual::In(value) => in_value(value, place, views),
        Actual::Variable { name, .. } => in_name(name, place, views),
    }
}

/// .. in the actuals of a call.
#[cycle(choosing)]
fn in_actuals(actuals: &[Actual], place: Place, views: &[View]) -> Option<usize> {
    for actual in actuals {
        let found = in_actual(actual, place, views);
        if found.is_some() {
            return found;
        }
    }
    None
}

#[cycle(choosing)]
fn in_call(call: &TypedCall, place: Place, views: &[View]) -> Option<usize> {
    in_actuals(call.actuals.as_slice(), place, views)
}

#[cycle(choosing)]
fn in_form(form: &Form, place: Place, views: &[View]) -> Option<usize> {
    match form {
        Form::Literal(_) => None,
        Form::Named(name) => in_name(name, place, views),
        Form::Unary(_, operand) => chosen_in(operand, place, views),
        Form::Binary(_, left, right) => {
            either(
                chosen_in(left, place, views),
                chosen_in(right, place, views),
            )
        }
        Form::ShortCircuit(_, left, right) => {
            either(
                chosen_in(left, place, views),
                chosen_in(right, place, views),
            )
        }
        Form::Membership {
            value,
            is_negated: _,
            low,
            high,
            slot: _,
        } => either(
            chosen_in(value, place, views),
            either(chosen_in(low, place, views), chosen_in(high, place, views)),
        ),
        Form::Converted(_, value) => in_value(value, place, views),
        Form::Aggregate(values) => in_values(values.as_slice(), place, views),
        Form::Others(_, value) => in_value(value, place, views),
        Form::Call(call) => in_call(call, place, views),
        Form::Clock => None,
    }
}

/// The number of the declaration among these that an expression means by the name which begins at a place, if the name is called there or is a
/// literal. A loop goes down the left operands, so a chain of operators takes no stack for each of them.
#[cycle(choosing)]
pub(crate) fn chosen_in(typed: &Typed, place: Place, views: &[View]) -> Option<usize> {
    let mut rest = typed;
    while let Some(operands) = operands_of(rest) {
        let found = chosen_in(operands.right, place, views);
        if found.is_some() {
            return found;
        }
        rest = operands.left;
    }
    let own = own_choice_at(rest, place, views);
    if own.is_some() {
        return own;
    }
    in_form(&rest.form, place, views)
}

/// .. that a call statement means, whose name begins at this place.
pub(crate) fn called_in(
    call: &TypedCall,
    begins: Place,
    place: Place,
    views: &[View],
) -> Option<usize> {
    if begins == place {
        return callee_in(&call.callee, views);
    }
    in_call(call, place, views)
}
