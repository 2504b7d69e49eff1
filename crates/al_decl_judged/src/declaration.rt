// What the declaration of a type declares, in order (ARM 3.2.1(9), 3.5.1(3), 3.2.3(6)).
ghost use Rattle.std.specs.Prelude.{◌≡◌, ◌-◌, ◌++◌, [], ◌∷◌, IfOk, OnOk, length, slice_get};
ghost use Rattle.std.specs.Option.{option_copied};
ghost use Rattle.al_view_predefined.specs.Operators.{operator_view, spelling};
ghost use Rattle.al_view_predefined.specs.Standard.{literal, of_type};
ghost use Rattle.al_decl_judged.specs.Homonyms.{count_of, with_name};
ghost use Rattle.al_decl_judged.specs.TypeDeclarations.{declared_as, declared_by, declared_with, full_declared_by, later_signs, literals_from, next_symbol, operators_from, signs_of, spellings, with_names};

use crate::homonyms::Homonyms;
use crate::signs::{Sign, later_signs, signs_of};
use al_base::{Name, NoMemory, UnitKey};
use al_view::{LiteralView, Names, Seq, Symbol, TypeView, Types, View, ViewKind, copied_unit};
use al_view_predefined::{of_type, operator_view};
use std::alloc::Global;

/// A declaration: its name in lower case, or the sign of an operator, and its view.
pub struct Declaration {
    /// The name in lower case, or the sign.
    pub name: Name,
    /// What is declared.
    pub view: View,
}

impl Drop for Declaration {
    fn drop(self) {
        let Declaration { name: _, view: _ } = self;
    }
}

/// The symbol of the next declaration of a name in a unit.
/// # Errors
/// `NoMemory` if the allocator refuses memory.
pub fn next_symbol(
    alloc: Global,
    unit: &UnitKey,
    homonyms: &mut Homonyms,
    name: &[u8],
) -> Result<Symbol, NoMemory>
    ensures symbol { IfOk result (λ symbol. symbol ≡ next_symbol unit.now homonyms.old name.now) }
    ensures counted { OnOk result (homonyms.new ≡ with_name homonyms.old name.now) }
{
    let number = homonyms.number(name)?;
    let unit = copied_unit(alloc, unit)?;
    let name = Name::from_slice(alloc, name)?;
    Ok(Symbol { unit, name, number })
}

/// The last of these types: it is the declared one, as the others are of its components.
pub fn own_type(types: &Types) -> Option<&TypeView>
    ensures { option_copied result ≡ slice_get types.now (length types.now - 1) }
{
    types.as_slice().last()
}

fn declared_as(alloc: Global, name: &[u8], view: View) -> Result<Declaration, NoMemory>
    ensures { IfOk result (λ declared. declared ≡ declared_as name.now view) }
{
    let name = Name::from_slice(alloc, name)?;
    Ok(Declaration { name, view })
}

fn literal(alloc: Global, symbol: &Symbol, types: &Types, position: u32) -> Result<View, NoMemory>
    ensures { IfOk result (λ view. view ≡ literal symbol.now types.now position) }
{
    let base = symbol.copy(alloc)?;
    let types = types.share()?;
    let literal = LiteralView {
        base,
        types,
        position,
    };
    let view = View::new(alloc, ViewKind::OfLiteral(literal))?;
    Ok(view)
}

/// The literals of an enumeration type, with their positions (ARM 3.5.1(7)).
fn declare_literals(
    alloc: Global,
    homonyms: &mut Homonyms,
    declared: &mut Seq<Declaration>,
    symbol: &Symbol,
    types: &Types,
    literals: &[Name],
) -> Result<(), NoMemory>
    ensures counted { OnOk result (homonyms.new ≡ with_names homonyms.old literals.now) }
    ensures declared { OnOk result (declared.new ≡ declared.old ++ literals_from symbol.now types.now 0 literals.now) }
{
    for (i, name) in literals.iter().enumerate() {
        let Ok(position) = u32::try_from(i) else {
            return Err(NoMemory);
        };
        homonyms.number(name.as_slice())?;
        let view = literal(alloc, symbol, types, position)?;
        declared.push(declared_as(alloc, name.as_slice(), view)?)?;
    }
    Ok(())
}

/// Declares an operator of the type, with its number among the declarations of its sign.
fn declare_sign(
    alloc: Global,
    homonyms: &mut Homonyms,
    declared: &mut Seq<Declaration>,
    symbol: &Symbol,
    types: &Types,
    sign: Sign,
) -> Result<(), NoMemory>
    ensures counted { OnOk result (homonyms.new ≡ with_name homonyms.old (spelling sign.1)) }
    ensures declared { OnOk result (declared.new ≡ declared.old ++ declared_as (spelling sign.1) (operator_view symbol.now types.now sign.0 sign.1 (count_of homonyms.old (spelling sign.1))) ∷ []) }
{
    let spelling = sign.1.spelling();
    let number = homonyms.number(spelling)?;
    let view = operator_view(alloc, symbol, types, sign.0, sign.1, number)?;
    declared.push(declared_as(alloc, spelling, view)?)?;
    Ok(())
}

fn declare_signs(
    alloc: Global,
    homonyms: &mut Homonyms,
    declared: &mut Seq<Declaration>,
    symbol: &Symbol,
    types: &Types,
    signs: &[Sign],
) -> Result<(), NoMemory>
    ensures counted { OnOk result (homonyms.new ≡ with_names homonyms.old (spellings signs.now)) }
    ensures declared { OnOk result (declared.new ≡ declared.old ++ operators_from symbol.now types.now homonyms.old signs.now) }
{
    for sign in signs {
        declare_sign(alloc, homonyms, declared, symbol, types, *sign)?;
    }
    Ok(())
}

/// Declares the type itself, with its literals.
fn declare_type(
    alloc: Global,
    declared: &mut Seq<Declaration>,
    types: &Types,
    of: &TypeView,
    literals: &Names,
) -> Result<(), NoMemory>
    ensures { OnOk result (declared.new ≡ declared.old ++ declared_as of.now.symbol.name (of_type types.now literals.now) ∷ []) }
{
    let view = of_type(alloc, types, literals.share()?)?;
    declared.push(declared_as(alloc, of.symbol.name.as_slice(), view)?)?;
    Ok(())
}

/// What the declaration of a type with these operators declares.
fn declared_with(
    alloc: Global,
    homonyms: &mut Homonyms,
    types: &Types,
    of: &TypeView,
    literals: &Names,
    signs: &[Sign],
) -> Result<Seq<Declaration>, NoMemory>
    ensures declared { IfOk result (λ declared. declared ≡ declared_with signs.now of.now types.now literals.now homonyms.old) }
    ensures counted { OnOk result (homonyms.new ≡ with_names (with_names homonyms.old literals.now) (spellings signs.now)) }
{
    let mut declared = Seq::empty(alloc);
    declare_type(alloc, &mut declared, types, of, literals)?;
    let symbol = &of.symbol;
    declare_literals(
        alloc,
        homonyms,
        &mut declared,
        symbol,
        types,
        literals.as_slice(),
    )?;
    declare_signs(alloc, homonyms, &mut declared, symbol, types, signs)?;
    Ok(declared)
}

/// What the declaration of a type declares, in order: the type with all types that it is made of, itself last, its literals and its
/// operators. The type's own name was counted when its symbol was made; its literals and operators are counted here.
/// # Errors
/// `NoMemory` if the allocator refuses memory.
pub fn declared_by(
    alloc: Global,
    homonyms: &mut Homonyms,
    types: &Types,
    of: &TypeView,
    literals: &Names,
) -> Result<Seq<Declaration>, NoMemory>
    ensures declared { IfOk result (λ declared. declared ≡ declared_by of.now types.now literals.now homonyms.old) }
    ensures counted { OnOk result (homonyms.new ≡ with_names (with_names homonyms.old literals.now) (spellings (signs_of of.now.definition))) }
{
    let signs = signs_of(&of.definition);
    declared_with(alloc, homonyms, types, of, literals, signs)
}

/// What the full declaration of a private type declares: all that the declaration of a type does, except `=` and `/=`, which its partial
/// view declared (ARM 7.3.1(3)).
/// # Errors
/// `NoMemory` if the allocator refuses memory.
pub fn full_declared_by(
    alloc: Global,
    homonyms: &mut Homonyms,
    types: &Types,
    of: &TypeView,
    literals: &Names,
) -> Result<Seq<Declaration>, NoMemory>
    ensures declared { IfOk result (λ declared. declared ≡ full_declared_by of.now types.now literals.now homonyms.old) }
    ensures counted { OnOk result (homonyms.new ≡ with_names (with_names homonyms.old literals.now) (spellings (later_signs of.now.definition))) }
{
    let signs = later_signs(&of.definition);
    declared_with(alloc, homonyms, types, of, literals, signs)
}
