// Lists of types in views: each type once, those of Standard left out.
ghost use Rattle.std.specs.Prelude.{◌≡◌, [], ◌∷◌, ◌++◌, IfOk, OnOk, length};
ghost use Rattle.std.specs.List.{list_any};
ghost use Rattle.al_decl_judged.specs.TypeLists.{AreSymbolsOf, is_known, joined, other_types, with_type};
ghost use Rattle.al_decl_judged.specs.Types.{enumeration_type, integer_type, words_of};

use crate::symbol_set::SymbolSet;
use al_base::NoMemory;
use al_view::{Bounds, Names, Seq, SubtypeView, Symbol, TypeDefinition, TypeView, Types};
use al_view_predefined::{StandardTypes, copied_type, scalar};
use std::alloc::Global;

/// An integer type with these bounds (ARM 3.5.4).
/// # Errors
/// `NoMemory` if the allocator refuses memory.
pub fn integer_type(alloc: Global, symbol: &Symbol, bounds: Bounds) -> Result<Types, NoMemory>
    ensures { IfOk result (λ types. types ≡ integer_type symbol.now bounds) }
{
    scalar(alloc, symbol, TypeDefinition::Integer(bounds))
}

/// An enumeration type with these literals (ARM 3.5.1). For more than 2 ** 32 - 1 of them it is out of memory.
/// # Errors
/// `NoMemory` if the allocator refuses memory.
pub fn enumeration_type(alloc: Global, symbol: &Symbol, literals: &Names) -> Result<Types, NoMemory>
    ensures { IfOk result (λ types. types ≡ enumeration_type symbol.now (length literals.now)) }
{
    let Ok(literals) = u32::try_from(literals.as_slice().len()) else {
        return Err(NoMemory);
    };
    scalar(alloc, symbol, TypeDefinition::Enumeration { literals })
}

/// How many words a value of a subtype takes.
pub fn words_of(standard: &StandardTypes, of: &SubtypeView) -> u32
    ensures { result ≡ words_of of.now }
{
    standard.words_of(&of.types, &of.subtype.base).unwrap_or(0)
}

/// Whether a type is one of Standard's, which no list holds.
fn is_standard(standard: &StandardTypes, none: &Types, symbol: &Symbol) -> bool
    requires { none.now ≡ [] }
    ensures { result ≡ is_known [] symbol.now }
{
    standard.type_of(none, symbol).is_some()
}

/// The symbols of types.
fn symbols_of(alloc: Global, types: &[TypeView]) -> Result<SymbolSet, NoMemory>
    ensures { IfOk result (AreSymbolsOf types.now) }
{
    let mut symbols = SymbolSet::new(alloc);
    for of in types {
        symbols.insert(&of.symbol)?;
    }
    Ok(symbols)
}

/// Whether a type is known if these are, which have these symbols: it is one of them, or one of Standard's.
fn is_known(
    standard: &StandardTypes,
    none: &Types,
    types: &[TypeView],
    symbols: &SymbolSet,
    symbol: &Symbol,
) -> bool
    requires none { none.now ≡ [] }
    requires symbols { AreSymbolsOf types.now symbols.now }
    ensures { result ≡ is_known types.now symbol.now }
{
    let _types = types;
    symbols.contains(symbol) || is_standard(standard, none, symbol)
}

/// Whether one of Standard's types is among these.
fn has_standard(standard: &StandardTypes, none: &Types, types: &[TypeView]) -> bool
    requires { none.now ≡ [] }
    ensures { result ≡ list_any (λ of. is_known [] of.symbol) types.now }
{
    types
        .iter()
        .any(|of| is_standard(standard, none, &of.symbol))
}

/// The types that aren't Standard's.
pub(crate) fn other_types(
    alloc: Global,
    standard: &StandardTypes,
    types: &Types,
) -> Result<Types, NoMemory>
    ensures { IfOk result (λ others. others ≡ other_types types.now) }
{
    let none = Types::new(alloc, Seq::empty(alloc))?;
    if !has_standard(standard, &none, types.as_slice()) {
        return Ok(types.share()?);
    }
    let others = copied_others(alloc, standard, &none, types.as_slice())?;
    let others = Types::new(alloc, others)?;
    Ok(others)
}

fn copied_others(
    alloc: Global,
    standard: &StandardTypes,
    none: &Types,
    types: &[TypeView],
) -> Result<Seq<TypeView>, NoMemory>
    requires { none.now ≡ [] }
    ensures { IfOk result (λ others. others ≡ other_types types.now) }
{
    let mut others = Seq::empty(alloc);
    for of in types {
        if !is_standard(standard, none, &of.symbol) {
            others.push(copied_type(alloc, of)?)?;
        }
    }
    Ok(others)
}

/// Appends a copy of a type.
fn push_copy(alloc: Global, types: &mut Seq<TypeView>, of: &TypeView) -> Result<(), NoMemory>
    ensures { OnOk result (types.new ≡ types.old ++ of.now ∷ []) }
{
    let copy = copied_type(alloc, of)?;
    types.push(copy)?;
    Ok(())
}

/// Appends a type, and its symbol.
fn push_type(
    alloc: Global,
    types: &mut Seq<TypeView>,
    symbols: &mut SymbolSet,
    of: &TypeView,
) -> Result<(), NoMemory>
    requires { AreSymbolsOf types.old symbols.old }
    ensures types { OnOk result (types.new ≡ types.old ++ of.now ∷ []) }
    ensures symbols { OnOk result (AreSymbolsOf types.new symbols.new) }
{
    push_copy(alloc, types, of)?;
    symbols.insert(&of.symbol)?;
    Ok(())
}

/// Adds a type, unless it is known there.
fn add_type(
    alloc: Global,
    standard: &StandardTypes,
    none: &Types,
    types: &mut Seq<TypeView>,
    symbols: &mut SymbolSet,
    of: &TypeView,
) -> Result<(), NoMemory>
    requires none { none.now ≡ [] }
    requires symbols { AreSymbolsOf types.old symbols.old }
    ensures types { OnOk result (types.new ≡ with_type types.old of.now) }
    ensures symbols { OnOk result (AreSymbolsOf types.new symbols.new) }
{
    if is_known(standard, none, types.as_slice(), symbols, &of.symbol) {
        return Ok(());
    }
    push_type(alloc, types, symbols, of)?;
    Ok(())
}

/// Adds those of the other types that aren't known yet: neither among these, nor Standard's, which every unit has. A type among these is
/// found without a walk.
/// # Errors
/// `NoMemory` if the allocator refuses memory.
pub fn add_types(
    alloc: Global,
    standard: &StandardTypes,
    types: &mut Seq<TypeView>,
    others: &[TypeView],
) -> Result<(), NoMemory>
    ensures { OnOk result (types.new ≡ joined types.old others.now) }
{
    let none = Types::new(alloc, Seq::empty(alloc))?;
    let mut symbols = symbols_of(alloc, types.as_slice())?;
    for of in others {
        add_type(alloc, standard, &none, types, &mut symbols, of)?;
    }
    Ok(())
}
