// What each kind of complete context wants of its expression (ARM 8.6).
ghost use Rattle.std.specs.Prelude.{◌≡◌, IfOk};
ghost use Rattle.al_overload.specs.declared.types.Expected.TheVariants as w;
ghost use Rattle.al_overload.specs.Contexts.{converted_to, wanted_in};

use crate::{Expected, ValueType};
use al_base::NoMemory;
use std::alloc::Global;

/// The predefined types that contexts want (ARM A.1, D.8).
pub struct PredefinedTypes {
    /// Standard.Boolean.
    pub boolean: ValueType,
    /// Standard.Integer.
    pub integer: ValueType,
    /// Ada.Real_Time.Time.
    pub time: ValueType,
}

impl Drop for PredefinedTypes {
    fn drop(self) {
        let PredefinedTypes {
            boolean: _,
            integer: _,
            time: _,
        } = self;
    }
}

/// A complete context, with the type that it has from what is round it (ARM 8.6(4 to 9)).
#[derive(Drop)]
pub enum Context {
    /// The initial value of an object or component of this type (ARM 3.3.1(4)).
    InitialValue(ValueType),
    /// The value of a named number (ARM 3.3.2(3)).
    NumberValue,
    /// Both bounds of an index, of a loop or of a subtype's constraint, as one head with two operands (ARM 3.6(18), 5.5(6)).
    PairOfBounds,
    /// One of the bounds of an integer type, which may be of different types (ARM 3.5.4(4)).
    IntegerBound,
    /// Both bounds after a mark of this type, as one head (ARM 3.5(5)).
    BoundOf(ValueType),
    /// A condition (ARM 5.3(4), 5.5(5), 5.7(4)).
    Condition,
    /// The selector of a case statement (ARM 5.4(4)).
    Selector,
    /// A choice of a case statement whose selector has this type: a value, or both bounds of a range (ARM 5.4(4)).
    ChoiceOf(ValueType),
    /// What a `delay until` waits for (ARM 9.6(5)).
    Moment,
    /// The value of aspect Priority (ARM D.1(17)).
    PriorityValue,
    /// The target of an assignment (ARM 5.2(4)).
    Target,
    /// What is assigned to a target of this type (ARM 5.2(4)).
    Source(ValueType),
    /// A call of a procedure or an entry, with its arguments (ARM 6.4(6)).
    ProcedureCall,
    /// What a function of this type returns (ARM 6.5(3)).
    ReturnValue(ValueType),
    /// What Put or Put_Line puts out (ARM A.10.7).
    PutArgument,
    /// The argument of `S'Image`, S of this type (ARM 3.5(35)).
    ImageArgument(ValueType),
    /// The operand of a conversion to this type (ARM 4.6).
    ConversionOperand(ValueType),
    /// The operand of a qualified expression of this type (ARM 4.7(3)).
    QualifiedOperand(ValueType),
}

fn value(alloc: Global, of: &ValueType) -> Result<Expected, NoMemory>
    ensures { IfOk result (λ expected. expected ≡ w.Value of.now) }
{
    let of = of.copy(alloc)?;
    Ok(Expected::Value(of))
}

/// The context of the operand of a conversion: if the target is an integer type, it may be of any integer type.
/// # Errors
/// `NoMemory` if the allocator refuses memory.
pub fn converted_to(alloc: Global, target: &ValueType) -> Result<Expected, NoMemory>
    ensures { IfOk result (λ expected. expected ≡ converted_to target.now) }
{
    if target.class.is_integer() {
        return Ok(Expected::AnyInteger);
    }
    value(alloc, target)
}

/// What a context wants of its expression.
/// # Errors
/// `NoMemory` if the allocator refuses memory.
pub fn wanted_in(
    alloc: Global,
    types: &PredefinedTypes,
    context: &Context,
) -> Result<Expected, NoMemory>
    ensures { IfOk result (λ expected. expected ≡ wanted_in types.now context.now) }
{
    match context {
        Context::InitialValue(of) => value(alloc, of),
        Context::NumberValue => Ok(Expected::AnyInteger),
        Context::PairOfBounds => Ok(Expected::AnyDiscrete),
        Context::IntegerBound => Ok(Expected::AnyInteger),
        Context::BoundOf(of) => value(alloc, of),
        Context::Condition => value(alloc, &types.boolean),
        Context::Selector => Ok(Expected::AnyDiscrete),
        Context::ChoiceOf(of) => value(alloc, of),
        Context::Moment => value(alloc, &types.time),
        Context::PriorityValue => value(alloc, &types.integer),
        Context::Target => Ok(Expected::AnyValue),
        Context::Source(of) => value(alloc, of),
        Context::ProcedureCall => Ok(Expected::Nothing),
        Context::ReturnValue(of) => value(alloc, of),
        Context::PutArgument => Ok(Expected::Text),
        Context::ImageArgument(of) => value(alloc, of),
        Context::ConversionOperand(target) => converted_to(alloc, target),
        Context::QualifiedOperand(of) => value(alloc, of),
    }
}
