// What the predefined package Standard declares.
ghost use Rattle.std.specs.Prelude.{◌≡◌, [], codes, IfOk, OnOk, Some, pos};
ghost use Rattle.al_view.specs.Interfaces.{with_view};
ghost use Rattle.al_view_predefined.specs.Operators.{logical, operators_of, with_operators};
ghost use Rattle.al_view_predefined.specs.Standard.{boolean_definition, boolean_literals, integer, integer_definition, integers_from, literal, of_type, private_type, scalar, standard, with_boolean, with_integer, with_subtypes};

use crate::operators::{
    declare_first_operators, declare_integer_operators, declare_logical, standard_symbol,
};
use al_base::{Name, NoMemory};
use al_view::{
    Bounds, DeclaredType, Interface, Layout, LiteralView, Names, Seq, Subtype, SubtypeView, Symbol,
    TypeDefinition, TypeView, Types, View, ViewKind,
};
use std::alloc::Global;

/// The bounds of Integer (ARM 3.5.4(11)).
pub const INTEGER_BOUNDS: Bounds = Bounds {
    low: -2147483648,
    high: 2147483647,
};

/// What Standard declares (ARM A.1): Boolean with its literals, Integer, their operators, Natural and Positive.
///
/// # Errors
///
/// `NoMemory` if the allocator refuses memory.
pub fn standard_package(alloc: Global) -> Result<Interface, NoMemory>
    ensures { IfOk result (λ interface. interface ≡ standard) }
{
    let mut interface = Interface::new(alloc);
    declare_boolean(alloc, &mut interface)?;
    declare_integer(alloc, &mut interface)?;
    declare_subtypes(alloc, &mut interface)?;
    Ok(interface)
}

/// A scalar type alone.
///
/// # Errors
///
/// `NoMemory` if the allocator refuses memory.
pub fn scalar(alloc: Global, symbol: &Symbol, definition: TypeDefinition) -> Result<Types, NoMemory>
    ensures { IfOk result (λ types. types ≡ scalar symbol.now definition) }
{
    let symbol = symbol.copy(alloc)?;
    let mut types = Seq::empty(alloc);
    types.push(TypeView {
        symbol,
        definition,
        layout: Layout::Scalar,
    })?;
    let types = Types::new(alloc, types)?;
    Ok(types)
}

/// The partial view of a private type whose values take so many words (ARM 7.3).
///
/// # Errors
///
/// `NoMemory` if the allocator refuses memory.
pub fn private_type(alloc: Global, symbol: &Symbol, words: u32) -> Result<Types, NoMemory>
    ensures { IfOk result (λ types. types ≡ private_type symbol.now words) }
{
    let symbol = symbol.copy(alloc)?;
    let mut types = Seq::empty(alloc);
    types.push(TypeView {
        symbol,
        definition: TypeDefinition::Private,
        layout: Layout::Words(words),
    })?;
    let types = Types::new(alloc, types)?;
    Ok(types)
}

fn boolean_literals(alloc: Global) -> Result<Names, NoMemory>
    ensures { IfOk result (λ names. names ≡ boolean_literals) }
{
    let no = Name::from_slice(alloc, b"false")?;
    let yes = Name::from_slice(alloc, b"true")?;
    let mut names = Seq::empty(alloc);
    names.push(no)?;
    names.push(yes)?;
    let names = Names::new(alloc, names)?;
    Ok(names)
}

/// The types of what has none of its own.
pub(crate) fn no_types(alloc: Global) -> Result<Types, NoMemory>
    ensures { IfOk result (λ types. types ≡ []) }
{
    let types = Types::new(alloc, Seq::empty(alloc))?;
    Ok(types)
}

/// The literals of what has none.
///
/// # Errors
///
/// `NoMemory` if the allocator refuses memory.
pub fn no_names(alloc: Global) -> Result<Names, NoMemory>
    ensures { IfOk result (λ names. names ≡ []) }
{
    let names = Names::new(alloc, Seq::empty(alloc))?;
    Ok(names)
}

fn literal(alloc: Global, symbol: &Symbol, types: &Types, position: u32) -> Result<View, NoMemory>
    ensures { IfOk result (λ view. view ≡ literal symbol.now types.now position) }
{
    let base = symbol.copy(alloc)?;
    let types = types.share()?;
    let literal = LiteralView {
        base,
        types,
        position,
    };
    let view = View::new(alloc, ViewKind::OfLiteral(literal))?;
    Ok(view)
}

/// A type of these types, the last of them, with the names of its literals.
///
/// # Errors
///
/// `NoMemory` if the allocator refuses memory.
pub fn of_type(alloc: Global, types: &Types, literals: Names) -> Result<View, NoMemory>
    ensures { IfOk result (λ view. view ≡ of_type types.now literals) }
{
    let types = types.share()?;
    let declared = DeclaredType { types, literals };
    let view = View::new(alloc, ViewKind::OfType(declared))?;
    Ok(view)
}

/// A type of these types, the last of them, under its name.
pub(crate) fn declare_type(
    alloc: Global,
    interface: &mut Interface,
    types: &Types,
    literals: Names,
    name: &[u8],
) -> Result<(), NoMemory>
    ensures { OnOk result (interface.new ≡ with_view interface.old name.now (of_type types.now literals)) }
{
    let view = of_type(alloc, types, literals)?;
    interface.declare(name, view)?;
    Ok(())
}

fn declare_literal(
    alloc: Global,
    interface: &mut Interface,
    symbol: &Symbol,
    types: &Types,
    position: u32,
    name: &[u8],
) -> Result<(), NoMemory>
    ensures { OnOk result (interface.new ≡ with_view interface.old name.now (literal symbol.now types.now position)) }
{
    let view = literal(alloc, symbol, types, position)?;
    interface.declare(name, view)?;
    Ok(())
}

/// Boolean and its literals.
fn declare_truths(
    alloc: Global,
    interface: &mut Interface,
    symbol: &Symbol,
    types: &Types,
) -> Result<(), NoMemory>
    ensures { OnOk result (interface.new ≡ with_view (with_view (with_view interface.old (codes "boolean") (of_type types.now boolean_literals)) (codes "false") (literal symbol.now types.now 0)) (codes "true") (literal symbol.now types.now 1)) }
{
    let names = boolean_literals(alloc)?;
    declare_type(alloc, interface, types, names, b"boolean")?;
    declare_literal(alloc, interface, symbol, types, 0, b"false")?;
    declare_literal(alloc, interface, symbol, types, 1, b"true")?;
    Ok(())
}

fn declare_truth_relations(
    alloc: Global,
    interface: &mut Interface,
    symbol: &Symbol,
    types: &Types,
) -> Result<(), NoMemory>
    ensures { OnOk result (interface.new ≡ with_operators symbol.now types.now [] interface.old (operators_of boolean_definition)) }
{
    let definition = TypeDefinition::Enumeration { literals: 2 };
    let declared = declare_first_operators(alloc, interface, symbol, types, &definition);
    drop(definition);
    declared
}

fn declare_first_logical(
    alloc: Global,
    interface: &mut Interface,
    symbol: &Symbol,
    types: &Types,
) -> Result<(), NoMemory>
    ensures { OnOk result (interface.new ≡ with_operators symbol.now types.now [] interface.old logical) }
{
    let elsewhere = Interface::new(alloc);
    let declared = declare_logical(alloc, &elsewhere, interface, symbol, types);
    drop(elsewhere);
    declared
}

fn declare_truth_operators(
    alloc: Global,
    interface: &mut Interface,
    symbol: &Symbol,
    types: &Types,
) -> Result<(), NoMemory>
    ensures { OnOk result (interface.new ≡ with_operators symbol.now types.now [] (with_operators symbol.now types.now [] interface.old (operators_of boolean_definition)) logical) }
{
    declare_truth_relations(alloc, interface, symbol, types)?;
    declare_first_logical(alloc, interface, symbol, types)?;
    Ok(())
}

fn declare_boolean(alloc: Global, interface: &mut Interface) -> Result<(), NoMemory>
    ensures { OnOk result (interface.new ≡ with_boolean interface.old) }
{
    let symbol = standard_symbol(alloc, b"boolean")?;
    let definition = TypeDefinition::Enumeration { literals: 2 };
    let types = scalar(alloc, &symbol, definition)?;
    declare_truths(alloc, interface, &symbol, &types)?;
    declare_truth_operators(alloc, interface, &symbol, &types)?;
    Ok(())
}

/// Integer and its operators, of this symbol and these types.
fn declare_integer_type(
    alloc: Global,
    interface: &mut Interface,
    symbol: &Symbol,
    types: &Types,
) -> Result<(), NoMemory>
    ensures { OnOk result (interface.new ≡ with_operators symbol.now types.now [] (with_view interface.old (codes "integer") (of_type types.now [])) (operators_of integer_definition)) }
{
    declare_type(alloc, interface, types, no_names(alloc)?, b"integer")?;
    declare_integer_operators(alloc, interface, symbol, types, INTEGER_BOUNDS)?;
    Ok(())
}

fn declare_integer(alloc: Global, interface: &mut Interface) -> Result<(), NoMemory>
    ensures { OnOk result (interface.new ≡ with_integer interface.old) }
{
    let symbol = standard_symbol(alloc, b"integer")?;
    let types = scalar(alloc, &symbol, TypeDefinition::Integer(INTEGER_BOUNDS))?;
    declare_integer_type(alloc, interface, &symbol, &types)?;
    Ok(())
}

/// The values of Integer from this bound on.
fn range_from(alloc: Global, low: u32) -> Result<Subtype, NoMemory>
    ensures { IfOk result (λ subtype. subtype ≡ record { base = integer; bounds = Some (record { low = pos low; high = pos 2147483647 }) }) }
{
    let base = standard_symbol(alloc, b"integer")?;
    let bounds = Bounds {
        low: i64::from(low),
        high: 2147483647,
    };
    Ok(Subtype {
        base,
        bounds: Some(bounds),
    })
}

/// A subtype of Integer from this bound on.
fn integers_from(alloc: Global, low: u32) -> Result<View, NoMemory>
    ensures { IfOk result (λ view. view ≡ integers_from low) }
{
    let subtype = SubtypeView {
        subtype: range_from(alloc, low)?,
        types: no_types(alloc)?,
        literals: no_names(alloc)?,
    };
    let view = View::new(alloc, ViewKind::OfSubtype(subtype))?;
    Ok(view)
}

fn declare_integers(
    alloc: Global,
    interface: &mut Interface,
    low: u32,
    name: &[u8],
) -> Result<(), NoMemory>
    ensures { OnOk result (interface.new ≡ with_view interface.old name.now (integers_from low)) }
{
    let view = integers_from(alloc, low)?;
    interface.declare(name, view)?;
    Ok(())
}

fn declare_subtypes(alloc: Global, interface: &mut Interface) -> Result<(), NoMemory>
    ensures { OnOk result (interface.new ≡ with_subtypes interface.old) }
{
    declare_integers(alloc, interface, 0, b"natural")?;
    declare_integers(alloc, interface, 1, b"positive")?;
    Ok(())
}
