// Calls with their actual parameters (ARM 6.4).
ghost use Rattle.std.specs.Prelude.{◌≡◌, IfOk, OnOk, map};
ghost use Rattle.al_base_fault.specs.Judging.{next, map_ok, unless};
ghost use Rattle.al_view_typed.specs.ExpressionTrees.{FormTree as form_trees};
ghost use Rattle.al_view_typed.specs.ExpressionViews.{actual_model, call_model, form_model, typed_model};
ghost use Rattle.al_overload_nodes.specs.Calls.{actual_for, actual_words, call_made, call_node, call_node_of, callee_of, function_form, in_actual, is_flag_of, is_of_object, is_own_of, more_words, own_fault, predefined_form, sole, span_form, span_of, span_unless, unless_variable, variable_actual, variable_of, with_actual};
ghost use Rattle.al_overload_nodes.specs.Views.{actuals_model, reading_model};

use crate::gather::Actuals;
use crate::labeller::Labeller;
use crate::name::no_variable;
use crate::node::{Reading, misfit};
use al_base::{NoMemory, Place};
use al_base_fault::{CheckResult, CheckRule, Fault, unless};
use al_overload::{nothing_fits, range_in, words_in};
use al_static::Known;
use al_view::{
    Bounds, CallKind, Mode, ObjectPlace, Parameter, SubprogramView, Subtype, Symbol, Types,
};
use al_view_predefined::StandardTypes;
use al_view_typed::{Actual, Callee, CheckedValue, Conversion, Form, Labels, Typed, TypedCall};
use std::alloc::Global;

fn callee_of(alloc: Global, call: &CallKind, symbol: &Symbol) -> Result<Option<Callee>, NoMemory>
    ensures { IfOk result (λ callee. callee ≡ callee_of call.now symbol.now) }
{
    match call {
        CallKind::Subprogram { depth } => {
            let symbol = symbol.copy(alloc)?;
            Ok(Some(Callee::Subprogram {
                symbol,
                depth: *depth,
            }))
        }
        CallKind::Protected => {
            let symbol = symbol.copy(alloc)?;
            Ok(Some(Callee::Protected(symbol)))
        }
        CallKind::Entry => {
            let symbol = symbol.copy(alloc)?;
            Ok(Some(Callee::Entry(symbol)))
        }
        CallKind::Predefined => Ok(None),
        CallKind::Operator { .. } => Ok(None),
    }
}

/// The words of all actual parameters together.
#[tactic(auto, using(std::proofs::lemmas::List::Sums::fold_more))]
fn actual_words(standard: &StandardTypes, subprogram: &SubprogramView) -> u32
    ensures { result ≡ actual_words subprogram.now }
{
    let mut words = 0u32;
    for parameter in subprogram.profile.parameters.as_slice() {
        words = words.saturating_add(words_in(
            standard,
            &subprogram.types,
            &parameter.subtype.base,
        ));
    }
    words
}

/// Whether a flag is that of the object with this symbol.
fn is_flag_of(object: &Symbol, flag: &ObjectPlace) -> bool
    ensures { result ≡ is_flag_of object.now flag.now }
{
    match flag {
        ObjectPlace::Static { symbol, .. } => symbol.is(object),
        ObjectPlace::Frame { .. } => false,
    }
}

/// Whether it is an operation of the protected object with this symbol, by the flag, which is the object's.
fn is_of_object(object: &Symbol, call: &CallKind, flag: &Option<ObjectPlace>) -> bool
    ensures { result ≡ is_of_object object.now call.now flag.now }
{
    match call {
        CallKind::Protected => match flag {
            Some(flag) => is_flag_of(object, flag),
            None => false,
        },
        CallKind::Entry => match flag {
            Some(flag) => is_flag_of(object, flag),
            None => false,
        },
        CallKind::Predefined => false,
        CallKind::Subprogram { .. } => false,
        CallKind::Operator { .. } => false,
    }
}

/// The fault of calling an operation of the protected object in whose bodies the call is.
fn own_fault(own: &Option<Symbol>, place: Place, subprogram: &SubprogramView) -> Option<Fault>
    ensures { result ≡ own_fault own.now place subprogram.now }
{
    let is_own = match own {
        Some(object) => is_of_object(object, &subprogram.call, &subprogram.flag),
        None => false,
    };
    if is_own {
        return Some(Fault {
            place,
            rule: CheckRule::OwnOperation,
        });
    }
    None
}

fn copied_flag(alloc: Global, flag: &Option<ObjectPlace>) -> Result<Option<ObjectPlace>, NoMemory>
    ensures { IfOk result (λ copy. copy ≡ flag.now) }
{
    match flag {
        Some(flag) => {
            let copy = flag.copy(alloc)?;
            Ok(Some(copy))
        }
        None => Ok(None),
    }
}

/// The only actual parameter.
#[tactic(auto, using(crate::proofs::Seen::sole_popped, crate::proofs::Seen::sole_none))]
fn sole(actuals: Vec<Actual>) -> Option<Actual>
    ensures { result ≡ sole actuals.items }
{
    let mut actuals = actuals;
    if actuals.len() == 1 {
        return actuals.pop();
    }
    None
}

/// A span of time of this many thousandths of a second.
#[tactic(auto, using(crate::proofs::Seen::actuals_made))]
fn span_of(alloc: Global, place: Place, actual: Actual) -> Result<CheckResult<Form>, NoMemory>
    ensures { IfOk result (λ form. map_ok form_model form ≡ span_of place (actual_model actual)) }
{
    match actual {
        Actual::In(value) => {
            let form = Form::converted(alloc, Conversion::Milliseconds, value)?;
            Ok(Ok(form))
        }
        Actual::Variable { .. } => Ok(Err(nothing_fits(place))),
    }
}

#[tactic(auto, using(crate::proofs::Seen::sole_model))]
fn span_form(
    alloc: Global,
    place: Place,
    actuals: Vec<Actual>,
) -> Result<CheckResult<Form>, NoMemory>
    ensures { IfOk result (λ form. map_ok form_model form ≡ span_form place (map actual_model actuals.items)) }
{
    match sole(actuals) {
        Some(actual) => span_of(alloc, place, actual),
        None => Ok(Err(nothing_fits(place))),
    }
}

/// A span of time, if the actual parameter has no fault; else that fault, at its own place.
fn span_unless(
    alloc: Global,
    fault: Option<Fault>,
    place: Place,
    actuals: Vec<Actual>,
) -> Result<CheckResult<Form>, NoMemory>
    ensures { IfOk result (λ form. map_ok form_model form ≡ span_unless fault place (map actual_model actuals.items)) }
{
    match fault {
        Some(fault) => Ok(Err(fault)),
        None => span_form(alloc, place, actuals),
    }
}

/// The forms of Clock and Milliseconds of Ada.Real_Time.
fn predefined_form(
    alloc: Global,
    place: Place,
    subprogram: &SubprogramView,
    actuals: Actuals,
) -> Result<CheckResult<Form>, NoMemory>
    ensures { IfOk result (λ form. map_ok form_model form ≡ predefined_form place subprogram.now (actuals_model actuals)) }
{
    let name = subprogram.symbol.name.as_slice();
    if name == b"clock".as_slice() {
        return Ok(Ok(Form::clock()));
    }
    if name == b"milliseconds".as_slice() {
        return span_unless(alloc, actuals.fault, place, actuals.items);
    }
    Ok(Err(nothing_fits(place)))
}

fn call_form(call: CheckResult<TypedCall>) -> CheckResult<Form>
    ensures { map_ok form_model result ≡ map_ok form_trees.CallForm (map_ok call_model call) }
{
    match call {
        Ok(call) => Ok(Form::call(call)),
        Err(fault) => Err(fault),
    }
}

fn in_actual(range: Option<Bounds>, value: CheckResult<Typed>) -> CheckResult<Actual>
    ensures { map_ok actual_model result ≡ map_ok (in_actual range) (map_ok typed_model value) }
{
    match value {
        Ok(value) => Ok(Actual::passed(CheckedValue::new(value, range))),
        Err(fault) => Err(fault),
    }
}

fn variable_of(mode: Mode, range: Option<Bounds>, labels: Labels, form: Form) -> CheckResult<Actual>
    ensures { map_ok actual_model result ≡ variable_of mode range labels (form_model form) }
{
    match form.into_name() {
        Some(name) => Ok(Actual::variable(name, labels.words, mode, range, labels.bounds, 0)),
        None => Err(nothing_fits(labels.place)),
    }
}

fn variable_actual(mode: Mode, range: Option<Bounds>, typed: Typed) -> CheckResult<Actual>
    ensures { map_ok actual_model result ≡ variable_actual mode range (typed_model typed) }
{
    let Typed { labels, form } = typed;
    variable_of(mode, range, labels, form)
}

/// E406 at this place, unless it is a variable.
pub fn unless_variable(is_variable: bool, place: Place) -> Option<Fault>
    ensures { result ≡ unless_variable is_variable place }
{
    if is_variable {
        None
    } else {
        Some(no_variable(place))
    }
}

/// An actual parameter of a formal of mode `out` or `in out`.
fn out_actual(
    mode: Mode,
    range: Option<Bounds>,
    place: Place,
    is_variable: bool,
    value: CheckResult<Typed>,
) -> CheckResult<Actual>
    ensures { map_ok actual_model result ≡ next (unless (unless_variable is_variable place) (map_ok typed_model value)) (variable_actual mode range) }
{
    match unless(unless_variable(is_variable, place), value) {
        Ok(value) => variable_actual(mode, range, value),
        Err(fault) => Err(fault),
    }
}

/// An actual parameter that begins here, for a formal of this mode and range. The flag says whether it names a variable.
fn actual_for(
    mode: Mode,
    range: Option<Bounds>,
    place: Place,
    is_variable: bool,
    value: CheckResult<Typed>,
) -> CheckResult<Actual>
    ensures { map_ok actual_model result ≡ actual_for mode range place is_variable (map_ok typed_model value) }
{
    match mode {
        Mode::In => in_actual(range, value),
        Mode::InOut => out_actual(Mode::InOut, range, place, is_variable, value),
        Mode::Out => out_actual(Mode::Out, range, place, is_variable, value),
    }
}

impl Labeller {
    /// A call, whose name begins at `place`.
    /// # Errors
    /// `NoMemory` if the allocator refuses memory. The inner error is the first of: E604 at `place` for an operation of the protected
    /// object in whose bodies the call is; the first fault of the actual parameters; E402 at `place` for what can't be called.
    pub fn call_made(
        &self,
        place: Place,
        subprogram: &SubprogramView,
        actuals: Actuals,
    ) -> Result<CheckResult<TypedCall>, NoMemory>
        ensures { IfOk result (λ call. map_ok call_model call ≡ call_made self.now.own place subprogram.now (actuals_model actuals)) }
    {
        let own = own_fault(&self.own, place, subprogram);
        let Some(callee) = callee_of(self.alloc, &subprogram.call, &subprogram.symbol)? else {
            return Ok(unless(own, unless(actuals.fault, Err(nothing_fits(place)))));
        };
        let flag = copied_flag(self.alloc, &subprogram.flag)?;
        let words = actual_words(&self.predefined.standard, subprogram);
        let call = TypedCall::new(callee, flag, words, actuals.items);
        Ok(unless(own, unless(actuals.fault, Ok(call))))
    }

    fn function_form(
        &self,
        place: Place,
        subprogram: &SubprogramView,
        actuals: Actuals,
    ) -> Result<CheckResult<Form>, NoMemory>
        ensures { IfOk result (λ form. map_ok form_model form ≡ function_form self.now.own place subprogram.now (actuals_model actuals) subprogram.now.call) }
    {
        match &subprogram.call {
            CallKind::Predefined => predefined_form(self.alloc, place, subprogram, actuals),
            CallKind::Subprogram { .. } => {
                let call = self.call_made(place, subprogram, actuals)?;
                Ok(call_form(call))
            }
            CallKind::Protected => {
                let call = self.call_made(place, subprogram, actuals)?;
                Ok(call_form(call))
            }
            CallKind::Entry => {
                let call = self.call_made(place, subprogram, actuals)?;
                Ok(call_form(call))
            }
            CallKind::Operator { .. } => Ok(Err(nothing_fits(place))),
        }
    }

    /// A call of a function. What has no result is no value.
    /// # Errors
    /// `NoMemory` if the allocator refuses memory.
    pub fn call(
        &self,
        place: Place,
        subprogram: &SubprogramView,
        actuals: Actuals,
    ) -> Result<Reading, NoMemory>
        ensures { IfOk result (λ r. reading_model r ≡ call_node self.now.predefined.root self.now.own place subprogram.now (actuals_model actuals)) }
    {
        let Some(of) = &subprogram.profile.result else {
            return Ok(misfit(place));
        };
        let types = &subprogram.types;
        let range = range_in(&self.predefined.standard, types, of);
        let known = Known::Open(actuals.failure);
        let form = self.function_form(place, subprogram, actuals)?;
        self.node(place, types, &of.base, range, known, form)
    }
}

/// Adds an actual parameter.
/// # Errors
/// `NoMemory` if the allocator refuses memory.
pub fn add_actual(
    actuals: &mut Actuals,
    mode: Mode,
    range: Option<Bounds>,
    place: Place,
    is_variable: bool,
    value: Reading,
) -> Result<(), NoMemory>
    ensures { OnOk result (actuals_model actuals.new ≡ with_actual (actuals_model actuals.old) mode range place is_variable (reading_model value)) }
{
    let failure = value.known.failure();
    let actual = actual_for(mode, range, place, is_variable, value.typed);
    actuals.add(failure, actual)
}
