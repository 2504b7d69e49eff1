// Types as interpretation sees them (ARM 3.2).
ghost use Rattle.std.specs.Prelude.{◌≡◌, IfOk};
ghost use Rattle.al_overload.specs.Types.{class_of, value_type};

use crate::{Class, ValueType};
use al_base::NoMemory;
use al_view::{Symbol, TypeDefinition, Types};
use al_view_predefined::StandardTypes;
use std::alloc::Global;

fn class_of(definition: &TypeDefinition) -> Class
    ensures { result ≡ class_of definition.now }
{
    match definition {
        TypeDefinition::Integer(_) => Class::Integer,
        TypeDefinition::Enumeration { .. } => Class::Enumeration,
        TypeDefinition::Array { .. } => Class::Other,
        TypeDefinition::Record(_) => Class::Other,
        TypeDefinition::Time => Class::Other,
        TypeDefinition::Private => Class::Other,
    }
}

/// The type with this symbol, if it is one of these or one that every unit has; if it is neither, nothing is known of it.
/// # Errors
/// `NoMemory` if the allocator refuses memory.
pub fn value_type(
    alloc: Global,
    standard: &StandardTypes,
    types: &Types,
    symbol: &Symbol,
) -> Result<ValueType, NoMemory>
    ensures { IfOk result (λ of. of ≡ value_type types.now symbol.now) }
{
    let class = match standard.type_of(types, symbol) {
        Some(of) => class_of(&of.definition),
        None => Class::Other,
    };
    let symbol = symbol.copy(alloc)?;
    Ok(ValueType { symbol, class })
}
