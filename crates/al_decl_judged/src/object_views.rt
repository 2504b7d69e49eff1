// What declarations of objects declare (ARM 3.3.1, 3.3.2, 6.1).
ghost use Rattle.std.specs.Prelude.{◌≡◌, IfOk};
ghost use Rattle.al_decl_judged.specs.TypeObjects.{constant_value, formal_view, is_input, missing_value, number_view, object_view, subtype_view};

use crate::subtype_views::is_within;
use al_base::{NoMemory, Place};
use al_base_fault::{CheckRule, Fault};
use al_view::{Bounds, Mode, ObjectPlace, ObjectView, StaticValue, SubtypeView, View, ViewKind};
use std::alloc::Global;

/// E309 at the name of a constant without a value (ARM 3.3.1(6)).
pub fn missing_value(is_constant: bool, has_value: bool, name: Place) -> Option<Fault>
    ensures { result ≡ missing_value is_constant has_value name }
{
    if is_constant && !has_value {
        Some(Fault {
            place: name,
            rule: CheckRule::NoValue,
        })
    } else {
        None
    }
}

/// The value of a static constant (ARM 4.9(24)): a scalar one whose initial value is static and lies in its subtype.
fn constant_value(
    is_constant: bool,
    bounds: Option<Bounds>,
    value: Option<StaticValue>,
) -> Option<StaticValue>
    ensures { result ≡ constant_value is_constant bounds value }
{
    match (is_constant, bounds, value) {
        (true, Some(bounds), Some(value)) => {
            if is_within(value.word, bounds) {
                Some(value)
            } else {
                None
            }
        }
        _ => None,
    }
}

/// An object of a subtype, with its static initial value, if it has one.
/// # Errors
/// `NoMemory` if the allocator refuses memory.
pub fn object_view(
    alloc: Global,
    of: &SubtypeView,
    is_constant: bool,
    value: Option<StaticValue>,
    place: ObjectPlace,
) -> Result<View, NoMemory>
    ensures { IfOk result (λ view. view ≡ object_view of.now is_constant value place) }
{
    let value = constant_value(is_constant, of.subtype.bounds, value);
    let object = ObjectView {
        subtype: of.subtype.copy(alloc)?,
        types: of.types.share()?,
        is_constant,
        value,
        place,
    };
    let view = View::new(alloc, ViewKind::OfObject(object))?;
    Ok(view)
}

fn is_input(mode: Mode) -> bool
    ensures { result ≡ is_input mode }
{
    match mode {
        Mode::In => true,
        Mode::InOut => false,
        Mode::Out => false,
    }
}

/// A formal parameter inside its body: a constant if its mode is `in` (ARM 3.3(17)).
/// # Errors
/// `NoMemory` if the allocator refuses memory.
pub fn formal_view(
    alloc: Global,
    of: &SubtypeView,
    mode: Mode,
    place: ObjectPlace,
) -> Result<View, NoMemory>
    ensures { IfOk result (λ view. view ≡ formal_view of.now mode place) }
{
    object_view(alloc, of, is_input(mode), None, place)
}

/// A named number (ARM 3.3.2).
/// # Errors
/// `NoMemory` if the allocator refuses memory.
pub fn number_view(alloc: Global, value: StaticValue) -> Result<View, NoMemory>
    ensures { IfOk result (λ view. view ≡ number_view value) }
{
    let view = View::new(alloc, ViewKind::OfNumber(value))?;
    Ok(view)
}

/// A subtype that is declared (ARM 3.2.2).
/// # Errors
/// `NoMemory` if the allocator refuses memory.
pub fn subtype_view(alloc: Global, subtype: SubtypeView) -> Result<View, NoMemory>
    ensures { IfOk result (λ view. view ≡ subtype_view subtype) }
{
    let view = View::new(alloc, ViewKind::OfSubtype(subtype))?;
    Ok(view)
}
