// The types that every unit has, and what types are like.
ghost use Rattle.std.specs.Prelude.{◌≡◌, [], ◌∷◌, ◌++◌, IfOk, OnOk, option_map};
ghost use Rattle.std.specs.Option.{option_and_then, option_copied};
ghost use Rattle.al_view.specs.Types.{definition_bounds, layout_words};
ghost use Rattle.al_view_predefined.specs.Operators.{operators_of, with_operators};
ghost use Rattle.al_view_predefined.specs.Standard.{boolean_types, integer_types};
ghost use Rattle.al_view_predefined.specs.StandardTypes.{root_definition, root_integer, root_operators, root_types, standard_types, type_of};

use crate::operators::{declare_integer_operators, standard_symbol};
use crate::standard::{INTEGER_BOUNDS, scalar};
use al_base::NoMemory;
use al_view::{Bounds, Interface, Layout, Seq, Symbol, TypeDefinition, TypeView, Types};
use std::alloc::Global;
use std::marker::Model;

/// The bounds of the root type of all integer types: those of all words.
pub const ROOT_BOUNDS: Bounds = Bounds {
    low: -9223372036854775808,
    high: 9223372036854775807,
};

/// Boolean and Integer of Standard, and the root type of all integer types (ARM A.1, 3.4.1(8)): views don't hold them, as
/// every unit has them.
pub struct StandardTypes {
    types: Types,
}

impl Drop for StandardTypes {
    fn drop(self) {
        let StandardTypes { types: _ } = self;
    }
}

impl Model for StandardTypes {
    ghost use Rattle.std.specs.Prelude.{◌≡◌, List};
    ghost use Rattle.al_view.specs.declared.types.TypeView.{TypeView};
    ghost use Rattle.al_view_predefined.specs.StandardTypes.{standard_types};

    ghost Value = { List TypeView };

    ghost view = { λ s. s.types };

    ghost invariant = { λ s. s.types ≡ standard_types };
}

impl StandardTypes {
    /// The types of Standard. Each unit has them.
    ///
    /// # Errors
    ///
    /// `NoMemory` if the allocator refuses memory.
    pub fn new(alloc: Global) -> Result<Self, NoMemory>
        ensures { IfOk result (λ standard. standard ≡ standard_types) }
    {
        let types = standard_types(alloc)?;
        Ok(StandardTypes { types })
    }

    /// The type with this symbol, among the types of a view or those that every unit has.
    pub fn type_of<'a>(&'a self, types: &'a Types, symbol: &Symbol) -> Option<&'a TypeView>
        ensures { option_copied result ≡ type_of types.now symbol.now }
    {
        match types.find(symbol) {
            Some(of) => Some(of),
            None => self.types.find(symbol),
        }
    }

    /// The bounds of the type with this symbol, if it is scalar. They are positions if it is an enumeration.
    pub fn bounds_of(&self, types: &Types, symbol: &Symbol) -> Option<Bounds>
        ensures { result ≡ option_and_then (λ of. definition_bounds of.definition) (type_of types.now symbol.now) }
    {
        match self.type_of(types, symbol) {
            Some(of) => of.definition.bounds(),
            None => None,
        }
    }

    /// How many words the values of the type with this symbol take.
    pub fn words_of(&self, types: &Types, symbol: &Symbol) -> Option<u32>
        ensures { result ≡ option_map (λ of. layout_words of.layout) (type_of types.now symbol.now) }
    {
        match self.type_of(types, symbol) {
            Some(of) => Some(of.layout.words()),
            None => None,
        }
    }
}

fn standard_types(alloc: Global) -> Result<Types, NoMemory>
    ensures { IfOk result (λ types. types ≡ standard_types) }
{
    let mut types = Seq::empty(alloc);
    add_boolean(alloc, &mut types)?;
    add_integer(alloc, &mut types)?;
    add_root(alloc, &mut types)?;
    let shared = Types::new(alloc, types)?;
    Ok(shared)
}

fn add_boolean(alloc: Global, types: &mut Seq<TypeView>) -> Result<(), NoMemory>
    ensures { OnOk result (types.new ≡ types.old ++ boolean_types) }
{
    let symbol = standard_symbol(alloc, b"boolean")?;
    types.push(one(symbol, TypeDefinition::Enumeration { literals: 2 }))?;
    Ok(())
}

fn add_integer(alloc: Global, types: &mut Seq<TypeView>) -> Result<(), NoMemory>
    ensures { OnOk result (types.new ≡ types.old ++ integer_types) }
{
    let symbol = standard_symbol(alloc, b"integer")?;
    types.push(one(symbol, TypeDefinition::Integer(INTEGER_BOUNDS)))?;
    Ok(())
}

fn add_root(alloc: Global, types: &mut Seq<TypeView>) -> Result<(), NoMemory>
    ensures { OnOk result (types.new ≡ types.old ++ root_types) }
{
    let symbol = root_integer(alloc)?;
    types.push(one(symbol, TypeDefinition::Integer(ROOT_BOUNDS)))?;
    Ok(())
}

fn one(symbol: Symbol, definition: TypeDefinition) -> TypeView
    ensures { result ≡ record { symbol = symbol; definition = definition; layout = Layout.Scalar } }
{
    TypeView {
        symbol,
        definition,
        layout: Layout::Scalar,
    }
}

/// The symbol of the root type of all integer types (ARM 3.4.1(8)). No source can name it.
///
/// # Errors
///
/// `NoMemory` if the allocator refuses memory.
pub fn root_integer(alloc: Global) -> Result<Symbol, NoMemory>
    ensures { IfOk result (λ symbol. symbol ≡ root_integer) }
{
    standard_symbol(alloc, b"root_integer")
}

/// The operators of the root type (ARM 4.5.3 to 4.5.6, 8.6(29)). They are visible everywhere, and no part of a unit declares
/// them.
///
/// # Errors
///
/// `NoMemory` if the allocator refuses memory.
pub fn root_operators(alloc: Global) -> Result<Interface, NoMemory>
    ensures { IfOk result (λ interface. interface ≡ root_operators) }
{
    let mut interface = Interface::new(alloc);
    declare_root_operators(alloc, &mut interface)?;
    Ok(interface)
}

fn declare_root_operators(alloc: Global, interface: &mut Interface) -> Result<(), NoMemory>
    ensures { OnOk result (interface.new ≡ with_operators root_integer root_types [] interface.old (operators_of root_definition)) }
{
    let symbol = root_integer(alloc)?;
    let types = scalar(alloc, &symbol, TypeDefinition::Integer(ROOT_BOUNDS))?;
    declare_integer_operators(alloc, interface, &symbol, &types, ROOT_BOUNDS)?;
    Ok(())
}
