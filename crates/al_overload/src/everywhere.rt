// What every unit has.
ghost use Rattle.std.specs.Prelude.{◌≡◌, IfOk};
ghost use Rattle.al_view_predefined.specs.Operators.{predefined_symbol, standard_symbol};
ghost use Rattle.al_view_predefined.specs.StandardTypes.{root_integer, root_operators};
ghost use Rattle.al_overload.specs.Everywhere.{boolean_type, integer_type, time_type};

use crate::{Class, PredefinedTypes, ValueType};
use al_base::NoMemory;
use al_view::{Interface, Symbol};
use al_view_predefined::{
    StandardTypes, predefined_symbol, root_integer, root_operators, standard_symbol,
};
use std::alloc::Global;

/// What every unit has: types, and the operators of the root type of all integer types, which are visible everywhere
/// (ARM 3.4.1(8), 8.6(29), A.1).
#[derive(Drop)]
pub struct Predefined {
    /// The types of package Standard.
    pub standard: StandardTypes,
    /// The root type of all integer types.
    pub root: Symbol,
    /// The operators of the root type, by their signs.
    pub operators: Interface,
    /// The predefined types that contexts want.
    pub types: PredefinedTypes,
}

fn boolean_type(alloc: Global) -> Result<ValueType, NoMemory>
    ensures { IfOk result (λ of. of ≡ boolean_type) }
{
    let symbol = standard_symbol(alloc, b"boolean")?;
    Ok(ValueType {
        symbol,
        class: Class::Enumeration,
    })
}

fn integer_type(alloc: Global) -> Result<ValueType, NoMemory>
    ensures { IfOk result (λ of. of ≡ integer_type) }
{
    let symbol = standard_symbol(alloc, b"integer")?;
    Ok(ValueType {
        symbol,
        class: Class::Integer,
    })
}

fn time_type(alloc: Global) -> Result<ValueType, NoMemory>
    ensures { IfOk result (λ of. of ≡ time_type) }
{
    let symbol = predefined_symbol(alloc, b"ada.real_time", b"time")?;
    Ok(ValueType {
        symbol,
        class: Class::Other,
    })
}

fn predefined_types(alloc: Global) -> Result<PredefinedTypes, NoMemory>
    ensures boolean { IfOk result (λ types. types.boolean ≡ boolean_type) }
    ensures integer { IfOk result (λ types. types.integer ≡ integer_type) }
    ensures time { IfOk result (λ types. types.time ≡ time_type) }
{
    let boolean = boolean_type(alloc)?;
    let integer = integer_type(alloc)?;
    let time = time_type(alloc)?;
    Ok(PredefinedTypes {
        boolean,
        integer,
        time,
    })
}

impl Predefined {
    /// Makes it anew. It takes memory, so callers keep it.
    /// # Errors
    /// `NoMemory` if the allocator refuses memory.
    pub fn new(alloc: Global) -> Result<Predefined, NoMemory>
        ensures root { IfOk result (λ p. p.root ≡ root_integer) }
        ensures operators { IfOk result (λ p. p.operators ≡ root_operators) }
        ensures boolean { IfOk result (λ p. p.types.boolean ≡ boolean_type) }
        ensures integer { IfOk result (λ p. p.types.integer ≡ integer_type) }
        ensures time { IfOk result (λ p. p.types.time ≡ time_type) }
    {
        let standard = StandardTypes::new(alloc)?;
        let root = root_integer(alloc)?;
        let operators = root_operators(alloc)?;
        let types = predefined_types(alloc)?;
        Ok(Predefined {
            standard,
            root,
            operators,
            types,
        })
    }
}
