// Expressions with their labels (ARM 4, 8.6).
ghost use Rattle.std.specs.Prelude.{◌≡◌, IfOk, map, option_map};
ghost use Rattle.al_view_typed.specs.ExpressionTrees.{TypedTree as typed_trees, FormTree as form_trees, NameTree as name_trees, ValueTree as value_trees, ActualTree as actual_trees, CallTree as call_trees};
ghost use Rattle.al_view_typed.specs.ExpressionViews.{actual_model, actuals_of, call_model, form_model, name_model, typed_model, value_model, values_of};
ghost use Rattle.al_view_typed.specs.FormNames.{name_in};

use crate::label::{BinaryOperator, Conversion, Labels, ShortCircuit, UnaryOperator};
use al_base::NoMemory;
use al_view::{Bounds, Mode, ObjectPlace, StaticValue, Symbol};
use std::alloc::Global;

/// An expression with its labels.
#[derive(Drop)]
#[cycle(expression)]
pub struct Typed {
    /// Its labels.
    pub labels: Labels,
    /// What it is.
    pub form: Form,
}

/// What an expression is.
#[cycle(expression)]
pub enum Form {
    /// A literal, a named number, or an attribute that is one number (ARM 2.4, 3.3.2, 3.5(12, 13), 3.6.2).
    Literal(StaticValue),
    /// An object or a part of one (ARM 3.3).
    Named(TypedName),
    /// An operator before its operand.
    Unary(UnaryOperator, Box<Typed>),
    /// An operator between its operands.
    Binary(BinaryOperator, Box<Typed>, Box<Typed>),
    /// A short-circuit control form (ARM 4.5.1(1)).
    ShortCircuit(ShortCircuit, Box<Typed>, Box<Typed>),
    /// A membership test (ARM 4.5.2(3)): the value, whether it has a `not`, both bounds, and the word of the frame that keeps the
    /// value meanwhile, which is 0 if the test is static.
    Membership {
        value: Box<Typed>,
        is_negated: bool,
        low: Box<Typed>,
        high: Box<Typed>,
        slot: u32,
    },
    /// A conversion, a qualified expression, or an attribute or function that is like one: its operand, and the range that
    /// what comes of it is checked against.
    Converted(Conversion, Box<CheckedValue>),
    /// A positional aggregate (ARM 4.3.3).
    Aggregate(Vec<CheckedValue>),
    /// `(others => value)`, of so many components (ARM 4.3.3).
    Others(u32, Box<CheckedValue>),
    /// A call of a function (ARM 6.4).
    Call(TypedCall),
    /// `Ada.Real_Time.Clock` (ARM D.8(6))
    Clock,
}

/// A name of an object or of a part of one: what has an address.
#[cycle(expression)]
pub enum TypedName {
    /// An object, and whether it is a constant (ARM 3.3(13)).
    Object {
        place: ObjectPlace,
        is_constant: bool,
    },
    /// A selected component (ARM 4.1.3), from this word of its record on.
    Component {
        whole: Box<TypedName>,
        offset: u32,
    },
    /// An indexed component (ARM 4.1.1), of so many words, of an array whose index has these bounds.
    Indexed {
        array: Box<TypedName>,
        index: Box<Typed>,
        bounds: Bounds,
        words: u32,
    },
}

// The loop drops what comes before a component, so that no name takes more of the stack than its nesting.
impl Drop for TypedName {
    #[cycle(drop)]
    fn drop(mut self) {
        loop {
            match self {
                TypedName::Object {
                    place: _,
                    is_constant: _,
                } => return,
                TypedName::Component { whole, offset: _ } => self = Box::into_inner(whole),
                TypedName::Indexed {
                    array,
                    index: _,
                    bounds: _,
                    words: _,
                } => self = Box::into_inner(array),
            }
        }
    }
}

/// A value with the range that it is checked against when it is stored, passed, returned, converted or qualified (ARM 3.2.2(11),
/// 4.6, 4.7). A value that isn't scalar has none.
#[cycle(expression)]
pub struct CheckedValue {
    /// The expression.
    pub value: Typed,
    /// The range; none if the value is not checked.
    pub bounds: Option<Bounds>,
}

impl Drop for CheckedValue {
    #[cycle(drop)]
    fn drop(self) {
        let CheckedValue {
            value: _,
            bounds: _,
        } = self;
    }
}

/// An actual parameter (ARM 6.4.1).
#[derive(Drop)]
#[cycle(expression)]
pub enum Actual {
    /// The actual of a formal of mode `in`.
    In(CheckedValue),
    /// The actual of a formal of mode `out` or `in out`, which is copied back: the variable, its number of words, the mode, the
    /// ranges of the formal and of the variable, and the word of the frame that keeps its address meanwhile.
    Variable {
        name: TypedName,
        words: u32,
        mode: Mode,
        formal: Option<Bounds>,
        actual: Option<Bounds>,
        slot: u32,
    },
}

/// What is called. Operators and the subprograms of predefined packages are forms of their own.
pub enum Callee {
    /// A subprogram that the body at this depth of nesting declares (ARM 6.4). The outermost body has depth 1; library level is 0.
    Subprogram { symbol: Symbol, depth: u32 },
    /// A subprogram of a protected object (ARM 9.5.1).
    Protected(Symbol),
    /// The entry of a protected object (ARM 9.5.3).
    Entry(Symbol),
}

impl Drop for Callee {
    fn drop(self) {
        match self {
            Callee::Subprogram {
                symbol: _,
                depth: _,
            } => {}
            Callee::Protected(_) => {}
            Callee::Entry(_) => {}
        }
    }
}

/// A call (ARM 6.4, 9.5.3).
#[cycle(expression)]
pub struct TypedCall {
    /// What is called.
    pub callee: Callee,
    /// The flag that says whether its body is elaborated (ARM 3.11(10)); none if no check is needed.
    pub flag: Option<ObjectPlace>,
    /// How many words the actuals take together.
    pub words: u32,
    /// The actuals, in the order of the formals.
    pub actuals: Vec<Actual>,
}

impl Drop for TypedCall {
    #[cycle(drop)]
    fn drop(self) {
        let TypedCall {
            callee: _,
            flag: _,
            words: _,
            actuals: _,
        } = self;
    }
}

impl Typed {
    /// An expression of this form.
    #[tactic(auto, using(crate::proofs::ExpressionsMade::typed_made))]
    pub fn new(labels: Labels, form: Form) -> Typed
        ensures { typed_model result ≡ typed_trees.Labelled labels (form_model form) }
    {
        Typed { labels, form }
    }
}

impl Form {
    /// A literal, a named number, or an attribute that is one number.
    #[tactic(auto, using(crate::proofs::ExpressionsMade::literal_made))]
    pub fn literal(value: StaticValue) -> Form
        ensures { form_model result ≡ form_trees.LiteralForm value }
    {
        Form::Literal(value)
    }

    /// An object or a part of one.
    #[tactic(auto, using(crate::proofs::ExpressionsMade::named_made))]
    pub fn named(name: TypedName) -> Form
        ensures { form_model result ≡ form_trees.NamedForm (name_model name) }
    {
        Form::Named(name)
    }

    /// `operator operand`
    ///
    /// # Errors
    ///
    /// `NoMemory` if the allocator refuses memory.
    #[tactic(auto, using(crate::proofs::ExpressionsMade::unary_made))]
    pub fn unary(alloc: Global, operator: UnaryOperator, operand: Typed) -> Result<Form, NoMemory>
        ensures { IfOk result (λ form. form_model form ≡ form_trees.UnaryForm operator (typed_model operand)) }
    {
        let operand = Box::new(alloc, operand)?;
        Ok(Form::Unary(operator, operand))
    }

    /// `left operator right`
    ///
    /// # Errors
    ///
    /// `NoMemory` if the allocator refuses memory.
    #[tactic(auto, using(crate::proofs::ExpressionsMade::binary_made))]
    pub fn binary(
        alloc: Global,
        operator: BinaryOperator,
        left: Typed,
        right: Typed,
    ) -> Result<Form, NoMemory>
        ensures { IfOk result (λ form. form_model form ≡ form_trees.BinaryForm operator (typed_model left) (typed_model right)) }
    {
        let (left, right) = both_boxed(alloc, left, right)?;
        Ok(Form::Binary(operator, left, right))
    }

    /// `left and then right` or `left or else right`
    ///
    /// # Errors
    ///
    /// `NoMemory` if the allocator refuses memory.
    #[tactic(auto, using(crate::proofs::ExpressionsMade::short_circuit_made))]
    pub fn short_circuit(
        alloc: Global,
        form: ShortCircuit,
        left: Typed,
        right: Typed,
    ) -> Result<Form, NoMemory>
        ensures { IfOk result (λ made. form_model made ≡ form_trees.ShortCircuitForm form (typed_model left) (typed_model right)) }
    {
        let (left, right) = both_boxed(alloc, left, right)?;
        Ok(Form::ShortCircuit(form, left, right))
    }

    /// `value [not] in low .. high`
    ///
    /// # Errors
    ///
    /// `NoMemory` if the allocator refuses memory.
    #[tactic(auto, using(crate::proofs::ExpressionsMade::membership_made))]
    pub fn membership(
        alloc: Global,
        value: Typed,
        is_negated: bool,
        low: Typed,
        high: Typed,
        slot: u32,
    ) -> Result<Form, NoMemory>
        ensures { IfOk result (λ form. form_model form ≡ form_trees.MembershipForm (typed_model value) is_negated (typed_model low) (typed_model high) slot) }
    {
        let (value, low, high) = all_boxed(alloc, value, low, high)?;
        Ok(Form::Membership {
            value,
            is_negated,
            low,
            high,
            slot,
        })
    }

    /// A conversion, a qualified expression, or an attribute or function that is like one.
    ///
    /// # Errors
    ///
    /// `NoMemory` if the allocator refuses memory.
    #[tactic(auto, using(crate::proofs::ExpressionsMade::converted_made))]
    pub fn converted(
        alloc: Global,
        conversion: Conversion,
        operand: CheckedValue,
    ) -> Result<Form, NoMemory>
        ensures { IfOk result (λ form. form_model form ≡ form_trees.ConvertedForm conversion (value_model operand)) }
    {
        let operand = Box::new(alloc, operand)?;
        Ok(Form::Converted(conversion, operand))
    }

    /// `(component {, component})`
    #[tactic(auto, using(crate::proofs::ExpressionsMade::aggregate_made))]
    pub fn aggregate(components: Vec<CheckedValue>) -> Form
        ensures { form_model result ≡ form_trees.AggregateForm (values_of (map value_model components.items)) }
    {
        Form::Aggregate(components)
    }

    /// `(others => component)`
    ///
    /// # Errors
    ///
    /// `NoMemory` if the allocator refuses memory.
    #[tactic(auto, using(crate::proofs::ExpressionsMade::others_made))]
    pub fn others(alloc: Global, count: u32, component: CheckedValue) -> Result<Form, NoMemory>
        ensures { IfOk result (λ form. form_model form ≡ form_trees.OthersForm count (value_model component)) }
    {
        let component = Box::new(alloc, component)?;
        Ok(Form::Others(count, component))
    }

    /// A call of a function.
    #[tactic(auto, using(crate::proofs::ExpressionsMade::call_form_made))]
    pub fn call(call: TypedCall) -> Form
        ensures { form_model result ≡ form_trees.CallForm (call_model call) }
    {
        Form::Call(call)
    }

    /// The clock.
    #[tactic(auto, using(crate::proofs::ExpressionsMade::clock_made))]
    pub fn clock() -> Form
        ensures { form_model result ≡ form_trees.ClockForm }
    {
        Form::Clock
    }

    /// The name that it is, if it is one.
    #[tactic(auto, using(crate::proofs::ExpressionsMade::literal_made, crate::proofs::ExpressionsMade::named_made, crate::proofs::ExpressionsMade::unary_made, crate::proofs::ExpressionsMade::binary_made, crate::proofs::ExpressionsMade::converted_made, crate::proofs::ExpressionsMade::clock_made, crate::proofs::ExpressionsMade::short_circuit_made, crate::proofs::ExpressionsMade::membership_made, crate::proofs::ExpressionsMade::others_made, crate::proofs::ExpressionsMade::aggregate_made, crate::proofs::ExpressionsMade::call_form_made))]
    pub fn into_name(self) -> Option<TypedName>
        ensures { option_map name_model result ≡ name_in (form_model self) }
    {
        match self {
            Form::Named(name) => Some(name),
            Form::Literal(_) => None,
            Form::Unary(_, _) => None,
            Form::Binary(_, _, _) => None,
            Form::ShortCircuit(_, _, _) => None,
            Form::Membership {
                value: _,
                is_negated: _,
                low: _,
                high: _,
                slot: _,
            } => None,
            Form::Converted(_, _) => None,
            Form::Aggregate(_) => None,
            Form::Others(_, _) => None,
            Form::Call(_) => None,
            Form::Clock => None,
        }
    }
}

// A chain of operators leans to the left: the loop drops what is at the left, and a call drops all else of a form, so that no chain
// takes more of the stack than its nesting.
impl Drop for Form {
    #[cycle(drop)]
    fn drop(mut self) {
        loop {
            match self {
                Form::Binary(_, left, _) => {
                    let Typed { labels: _, form } = Box::into_inner(left);
                    self = form;
                }
                Form::ShortCircuit(_, left, _) => {
                    let Typed { labels: _, form } = Box::into_inner(left);
                    self = form;
                }
                Form::Membership {
                    value,
                    is_negated: _,
                    low: _,
                    high: _,
                    slot: _,
                } => {
                    let Typed { labels: _, form } = Box::into_inner(value);
                    self = form;
                }
                Form::Literal(_) => return,
                Form::Named(_) => return,
                Form::Unary(_, _) => return,
                Form::Converted(_, _) => return,
                Form::Aggregate(_) => return,
                Form::Others(_, _) => return,
                Form::Call(_) => return,
                Form::Clock => return,
            }
        }
    }
}

impl TypedName {
    /// An object, and whether it is a constant.
    #[tactic(auto, using(crate::proofs::ExpressionsMade::object_made))]
    pub fn object(place: ObjectPlace, is_constant: bool) -> TypedName
        ensures { name_model result ≡ name_trees.ObjectName place is_constant }
    {
        TypedName::Object { place, is_constant }
    }

    /// The component of a record from this word of it on.
    ///
    /// # Errors
    ///
    /// `NoMemory` if the allocator refuses memory.
    #[tactic(auto, using(crate::proofs::ExpressionsMade::component_made))]
    pub fn component(alloc: Global, whole: TypedName, offset: u32) -> Result<TypedName, NoMemory>
        ensures { IfOk result (λ name. name_model name ≡ name_trees.ComponentName (name_model whole) offset) }
    {
        let whole = Box::new(alloc, whole)?;
        Ok(TypedName::Component { whole, offset })
    }

    /// The component, of so many words, of an array whose index has these bounds.
    ///
    /// # Errors
    ///
    /// `NoMemory` if the allocator refuses memory.
    #[tactic(auto, using(crate::proofs::ExpressionsMade::indexed_made))]
    pub fn indexed(
        alloc: Global,
        array: TypedName,
        index: Typed,
        bounds: Bounds,
        words: u32,
    ) -> Result<TypedName, NoMemory>
        ensures { IfOk result (λ name. name_model name ≡ name_trees.IndexedName (name_model array) (typed_model index) bounds words) }
    {
        let (array, index) = both_boxed(alloc, array, index)?;
        Ok(TypedName::Indexed {
            array,
            index,
            bounds,
            words,
        })
    }
}

impl CheckedValue {
    /// A value with the range that it is checked against, if there is one.
    #[tactic(auto, using(crate::proofs::ExpressionsMade::value_made))]
    pub fn new(value: Typed, bounds: Option<Bounds>) -> CheckedValue
        ensures { value_model result ≡ value_trees.Checked (typed_model value) bounds }
    {
        CheckedValue { value, bounds }
    }
}

impl Actual {
    /// The actual of a formal of mode `in`.
    #[tactic(auto, using(crate::proofs::ExpressionsMade::in_made))]
    pub fn passed(value: CheckedValue) -> Actual
        ensures { actual_model result ≡ actual_trees.InActual (value_model value) }
    {
        Actual::In(value)
    }

    /// The actual of a formal of mode `out` or `in out`.
    #[tactic(auto, using(crate::proofs::ExpressionsMade::variable_made))]
    pub fn variable(
        name: TypedName,
        words: u32,
        mode: Mode,
        formal: Option<Bounds>,
        actual: Option<Bounds>,
        slot: u32,
    ) -> Actual
        ensures { actual_model result ≡ actual_trees.VariableActual (name_model name) words mode formal actual slot }
    {
        Actual::Variable {
            name,
            words,
            mode,
            formal,
            actual,
            slot,
        }
    }
}

impl TypedCall {
    /// A call with its actuals in the order of the formals.
    #[tactic(auto, using(crate::proofs::ExpressionsMade::call_made))]
    pub fn new(
        callee: Callee,
        flag: Option<ObjectPlace>,
        words: u32,
        actuals: Vec<Actual>,
    ) -> TypedCall
        ensures { call_model result ≡ call_trees.Called callee flag words (actuals_of (map actual_model actuals.items)) }
    {
        TypedCall {
            callee,
            flag,
            words,
            actuals,
        }
    }
}

/// Both in places of their own. Of what type they are isn't known here, so that letting go of either is one call.
fn both_boxed<T: Drop, U: Drop>(
    alloc: Global,
    left: T,
    right: U,
) -> Result<(Box<T>, Box<U>), NoMemory>
    ensures left { IfOk result (λ boxes. boxes.0.value ≡ left) }
    ensures right { IfOk result (λ boxes. boxes.1.value ≡ right) }
{
    let left = Box::new(alloc, left)?;
    let right = Box::new(alloc, right)?;
    Ok((left, right))
}

/// A box for each of three expressions.
fn all_boxed<T: Drop>(
    alloc: Global,
    value: T,
    low: T,
    high: T,
) -> Result<(Box<T>, Box<T>, Box<T>), NoMemory>
    ensures value { IfOk result (λ boxes. boxes.0.value ≡ value) }
    ensures low { IfOk result (λ boxes. boxes.1.value ≡ low) }
    ensures high { IfOk result (λ boxes. boxes.2.value ≡ high) }
{
    let (value, low) = both_boxed(alloc, value, low)?;
    let high = Box::new(alloc, high)?;
    Ok((value, low, high))
}
