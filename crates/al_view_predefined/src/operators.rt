// The predefined operators of types.
ghost use Rattle.std.specs.Prelude.{◌≡◌, [], ◌∷◌, codes, IfOk, OnOk, Some, None};
ghost use Rattle.al_view.specs.declared.types.TypeDefinition.TheVariants.{Integer};
ghost use Rattle.al_view.specs.declared.view.CallKind.TheVariants as call;
ghost use Rattle.al_view.specs.declared.view.ViewKind.TheVariants as kinds;
ghost use Rattle.al_view_predefined.specs.Operators.{gives, natural, operand, operands, operators_of, operator_view, predefined_symbol, spelling, standard_symbol, time_span, whole_type, with_group, with_operator, with_operators, arithmetic, logical};

use al_base::{Name, NoMemory, UnitKey, UnitKind};
use al_view::{
    Bounds, CallKind, Interface, Mode, Parameter, Profile, Seq, SubprogramView, Subtype, Symbol,
    TypeDefinition, Types, View, ViewKind, copied_unit,
};
use std::alloc::Global;

/// A predefined operator (ARM 4.5), by its sign.
#[derive(Clone, Copy)]
pub enum OperatorSymbol {
    And,
    Or,
    Xor,
    Not,
    Equal,
    NotEqual,
    Less,
    LessOrEqual,
    Greater,
    GreaterOrEqual,
    Plus,
    Minus,
    Times,
    Divide,
    Mod,
    Rem,
    Power,
    Abs,
}

/// What an operator of a type takes and gives.
#[derive(Clone, Copy)]
pub enum OperatorProfile {
    /// A value of the type, to one of the type.
    Unary,
    /// Two values of the type, to one of the type.
    Binary,
    /// A value of the type and a natural number, to one of the type (ARM 4.5.6(7)).
    Power,
    /// A moment and a span of time, to a moment (ARM D.8).
    Later,
    /// Two values of the type, to a Boolean.
    Relation,
}

impl OperatorSymbol {
    /// How it is written.
    pub fn spelling(self) -> &'static [u8]
        ensures { result.now ≡ spelling self }
    {
        match self {
            OperatorSymbol::And => b"and",
            OperatorSymbol::Or => b"or",
            OperatorSymbol::Xor => b"xor",
            OperatorSymbol::Not => b"not",
            OperatorSymbol::Equal => b"=",
            OperatorSymbol::NotEqual => b"/=",
            OperatorSymbol::Less => b"<",
            OperatorSymbol::LessOrEqual => b"<=",
            OperatorSymbol::Greater => b">",
            OperatorSymbol::GreaterOrEqual => b">=",
            OperatorSymbol::Plus => b"+",
            OperatorSymbol::Minus => b"-",
            OperatorSymbol::Times => b"*",
            OperatorSymbol::Divide => b"/",
            OperatorSymbol::Mod => b"mod",
            OperatorSymbol::Rem => b"rem",
            OperatorSymbol::Power => b"**",
            OperatorSymbol::Abs => b"abs",
        }
    }
}

const RELATIONS: [OperatorSymbol; 6] = [
    OperatorSymbol::Equal,
    OperatorSymbol::NotEqual,
    OperatorSymbol::Less,
    OperatorSymbol::LessOrEqual,
    OperatorSymbol::Greater,
    OperatorSymbol::GreaterOrEqual,
];

const EQUALITY: [OperatorSymbol; 2] = [OperatorSymbol::Equal, OperatorSymbol::NotEqual];

const LOGICAL: [OperatorSymbol; 3] = [OperatorSymbol::And, OperatorSymbol::Or, OperatorSymbol::Xor];

const SIGNS: [OperatorSymbol; 3] = [
    OperatorSymbol::Plus,
    OperatorSymbol::Minus,
    OperatorSymbol::Abs,
];

const ARITHMETIC: [OperatorSymbol; 6] = [
    OperatorSymbol::Plus,
    OperatorSymbol::Minus,
    OperatorSymbol::Times,
    OperatorSymbol::Divide,
    OperatorSymbol::Rem,
    OperatorSymbol::Mod,
];

/// The first declaration of the name in a predefined package.
///
/// # Errors
///
/// `NoMemory` if the allocator refuses memory.
pub fn predefined_symbol(alloc: Global, unit: &[u8], name: &[u8]) -> Result<Symbol, NoMemory>
    ensures { IfOk result (λ symbol. symbol ≡ predefined_symbol unit.now name.now) }
{
    let unit = Name::from_slice(alloc, unit)?;
    let name = Name::from_slice(alloc, name)?;
    Ok(Symbol {
        unit: UnitKey {
            name: unit,
            kind: UnitKind::Decl,
        },
        name,
        number: 0,
    })
}

/// A symbol of Standard.
///
/// # Errors
///
/// `NoMemory` if the allocator refuses memory.
pub fn standard_symbol(alloc: Global, name: &[u8]) -> Result<Symbol, NoMemory>
    ensures { IfOk result (λ symbol. symbol ≡ standard_symbol name.now) }
{
    predefined_symbol(alloc, b"standard", name)
}

/// All values of a type.
///
/// # Errors
///
/// `NoMemory` if the allocator refuses memory.
pub fn whole_type(alloc: Global, symbol: &Symbol) -> Result<Subtype, NoMemory>
    ensures { IfOk result (λ subtype. subtype ≡ whole_type symbol.now) }
{
    let base = symbol.copy(alloc)?;
    Ok(Subtype { base, bounds: None })
}

/// All values of a type of Standard.
pub(crate) fn whole_standard(alloc: Global, name: &[u8]) -> Result<Subtype, NoMemory>
    ensures { IfOk result (λ subtype. subtype ≡ whole_type (standard_symbol name.now)) }
{
    let base = standard_symbol(alloc, name)?;
    Ok(Subtype { base, bounds: None })
}

fn natural(alloc: Global) -> Result<Subtype, NoMemory>
    ensures { IfOk result (λ subtype. subtype ≡ natural) }
{
    let base = standard_symbol(alloc, b"integer")?;
    Ok(Subtype {
        base,
        bounds: Some(Bounds {
            low: 0,
            high: 2147483647,
        }),
    })
}

/// A parameter of mode `in`.
///
/// # Errors
///
/// `NoMemory` if the allocator refuses memory.
pub fn operand(alloc: Global, name: &[u8], subtype: Subtype) -> Result<Parameter, NoMemory>
    ensures { IfOk result (λ parameter. parameter ≡ operand name.now subtype) }
{
    let name = Name::from_slice(alloc, name)?;
    Ok(Parameter {
        name,
        mode: Mode::In,
        subtype,
    })
}

/// All values of a span of time (ARM D.8).
fn whole_span(alloc: Global) -> Result<Subtype, NoMemory>
    ensures { IfOk result (λ subtype. subtype ≡ whole_type time_span) }
{
    let base = predefined_symbol(alloc, b"ada.real_time", b"time_span")?;
    Ok(Subtype { base, bounds: None })
}

/// A list of one parameter of mode `in`.
pub(crate) fn one_operand(
    alloc: Global,
    name: &[u8],
    subtype: Subtype,
) -> Result<Seq<Parameter>, NoMemory>
    ensures { IfOk result (λ parameters. parameters ≡ operand name.now subtype ∷ []) }
{
    let parameter = operand(alloc, name, subtype)?;
    let mut parameters = Seq::empty(alloc);
    parameters.push(parameter)?;
    Ok(parameters)
}

/// A parameter of the type, and one of the subtype after it.
fn two_operands(
    alloc: Global,
    symbol: &Symbol,
    subtype: Subtype,
) -> Result<Seq<Parameter>, NoMemory>
    ensures { IfOk result (λ parameters. parameters ≡ operand (codes "left") (whole_type symbol.now) ∷ operand (codes "right") subtype ∷ []) }
{
    let right = operand(alloc, b"right", subtype)?;
    let left = whole_type(alloc, symbol)?;
    let mut parameters = one_operand(alloc, b"left", left)?;
    parameters.push(right)?;
    Ok(parameters)
}

fn operands(
    alloc: Global,
    symbol: &Symbol,
    profile: OperatorProfile,
) -> Result<Seq<Parameter>, NoMemory>
    ensures { IfOk result (λ parameters. parameters ≡ operands symbol.now profile) }
{
    match profile {
        OperatorProfile::Unary => {
            let subtype = whole_type(alloc, symbol)?;
            let parameters = one_operand(alloc, b"right", subtype)?;
            Ok(parameters)
        }
        OperatorProfile::Power => {
            let parameters = two_operands(alloc, symbol, natural(alloc)?)?;
            Ok(parameters)
        }
        OperatorProfile::Later => {
            let parameters = two_operands(alloc, symbol, whole_span(alloc)?)?;
            Ok(parameters)
        }
        _ => {
            let subtype = whole_type(alloc, symbol)?;
            let parameters = two_operands(alloc, symbol, subtype)?;
            Ok(parameters)
        }
    }
}

fn gives(alloc: Global, symbol: &Symbol, profile: OperatorProfile) -> Result<Subtype, NoMemory>
    ensures { IfOk result (λ subtype. subtype ≡ gives symbol.now profile) }
{
    match profile {
        OperatorProfile::Relation => {
            let subtype = whole_standard(alloc, b"boolean")?;
            Ok(subtype)
        }
        _ => {
            let subtype = whole_type(alloc, symbol)?;
            Ok(subtype)
        }
    }
}

/// An operator of the type's unit, with its number among its homonyms there.
fn operator_symbol(
    alloc: Global,
    of_type: &Symbol,
    operator: OperatorSymbol,
    number: usize,
) -> Result<Symbol, NoMemory>
    ensures { IfOk result (λ symbol. symbol ≡ record { unit = of_type.now.unit; name = spelling operator; number = number }) }
{
    let unit = copied_unit(alloc, &of_type.unit)?;
    let name = Name::from_slice(alloc, operator.spelling())?;
    Ok(Symbol { unit, name, number })
}

fn operator_profile(
    alloc: Global,
    of_type: &Symbol,
    profile: OperatorProfile,
) -> Result<Profile, NoMemory>
    ensures { IfOk result (λ made. made ≡ record { parameters = operands of_type.now profile; result = Some (gives of_type.now profile) }) }
{
    let parameters = operands(alloc, of_type, profile)?;
    let subtype = gives(alloc, of_type, profile)?;
    Ok(Profile {
        parameters,
        result: Some(subtype),
    })
}

fn operator_with(
    alloc: Global,
    of_type: &Symbol,
    types: &Types,
    symbol: Symbol,
    profile: Profile,
) -> Result<View, NoMemory>
    ensures { IfOk result (λ view. view ≡ kinds.OfSubprogram (record { symbol = symbol; profile = profile; types = types.now; call = call.Operator of_type.now; flag = None })) }
{
    let of_type = of_type.copy(alloc)?;
    let subprogram = SubprogramView {
        symbol,
        profile,
        types: types.share()?,
        call: CallKind::Operator { of_type },
        flag: None,
    };
    let view = View::new(alloc, ViewKind::OfSubprogram(subprogram))?;
    Ok(view)
}

/// An operator of the type with this symbol and these types, with its number among its homonyms in its unit.
///
/// # Errors
///
/// `NoMemory` if the allocator refuses memory.
pub fn operator_view(
    alloc: Global,
    of_type: &Symbol,
    types: &Types,
    profile: OperatorProfile,
    operator: OperatorSymbol,
    number: usize,
) -> Result<View, NoMemory>
    ensures { IfOk result (λ view. view ≡ operator_view of_type.now types.now profile operator number) }
{
    let symbol = operator_symbol(alloc, of_type, operator, number)?;
    let profile = operator_profile(alloc, of_type, profile)?;
    let view = operator_with(alloc, of_type, types, symbol, profile)?;
    Ok(view)
}

/// Declares one more operator of the type. Its number counts its homonyms in the interface and in what its unit declares elsewhere.
///
/// # Errors
///
/// `NoMemory` if the allocator refuses memory. What the interface then has isn't specified.
pub fn declare_operator(
    alloc: Global,
    elsewhere: &Interface,
    interface: &mut Interface,
    of_type: &Symbol,
    types: &Types,
    profile: OperatorProfile,
    operator: OperatorSymbol,
) -> Result<(), NoMemory>
    ensures { OnOk result (interface.new ≡ with_operator of_type.now types.now profile elsewhere.now interface.old operator) }
{
    let spelling = operator.spelling();
    let number = elsewhere.views(spelling).len() + interface.views(spelling).len();
    let view = operator_view(alloc, of_type, types, profile, operator, number)?;
    interface.declare(spelling, view)?;
    Ok(())
}

fn declare_group(
    alloc: Global,
    elsewhere: &Interface,
    interface: &mut Interface,
    of_type: &Symbol,
    types: &Types,
    profile: OperatorProfile,
    operators: &[OperatorSymbol],
) -> Result<(), NoMemory>
    ensures { OnOk result (interface.new ≡ with_group of_type.now types.now elsewhere.now interface.old (profile, operators.now)) }
{
    for operator in operators {
        declare_operator(
            alloc, elsewhere, interface, of_type, types, profile, *operator,
        )?;
    }
    Ok(())
}

fn declare_arithmetic(
    alloc: Global,
    elsewhere: &Interface,
    interface: &mut Interface,
    of_type: &Symbol,
    types: &Types,
) -> Result<(), NoMemory>
    ensures { OnOk result (interface.new ≡ with_operators of_type.now types.now elsewhere.now interface.old arithmetic) }
{
    declare_group(
        alloc,
        elsewhere,
        interface,
        of_type,
        types,
        OperatorProfile::Unary,
        &SIGNS,
    )?;
    declare_group(
        alloc,
        elsewhere,
        interface,
        of_type,
        types,
        OperatorProfile::Binary,
        &ARITHMETIC,
    )?;
    let power = [OperatorSymbol::Power];
    declare_group(
        alloc,
        elsewhere,
        interface,
        of_type,
        types,
        OperatorProfile::Power,
        &power,
    )?;
    Ok(())
}

/// The logical operators of Boolean, after what is declared (ARM 4.5.1(2), 4.5.6(3)).
///
/// # Errors
///
/// `NoMemory` if the allocator refuses memory. What the interface then has isn't specified.
pub fn declare_logical(
    alloc: Global,
    elsewhere: &Interface,
    interface: &mut Interface,
    of_type: &Symbol,
    types: &Types,
) -> Result<(), NoMemory>
    ensures { OnOk result (interface.new ≡ with_operators of_type.now types.now elsewhere.now interface.old logical) }
{
    declare_group(
        alloc,
        elsewhere,
        interface,
        of_type,
        types,
        OperatorProfile::Binary,
        &LOGICAL,
    )?;
    let not = [OperatorSymbol::Not];
    declare_group(
        alloc,
        elsewhere,
        interface,
        of_type,
        types,
        OperatorProfile::Unary,
        &not,
    )?;
    Ok(())
}

/// The operators that the declaration of a type declares, after what is declared (ARM 3.2.3(6)); of Boolean but the
/// logical ones, of a private type those of its partial view (ARM 7.3(15)). Their numbers count their homonyms there and in what the unit declares elsewhere.
///
/// # Errors
///
/// `NoMemory` if the allocator refuses memory. What the interface then has isn't specified.
pub fn declare_operators(
    alloc: Global,
    elsewhere: &Interface,
    interface: &mut Interface,
    of_type: &Symbol,
    types: &Types,
    definition: &TypeDefinition,
) -> Result<(), NoMemory>
    ensures { OnOk result (interface.new ≡ with_operators of_type.now types.now elsewhere.now interface.old (operators_of definition.now)) }
{
    let relation = OperatorProfile::Relation;
    match definition {
        TypeDefinition::Integer(_) => {
            declare_group(
                alloc, elsewhere, interface, of_type, types, relation, &RELATIONS,
            )?;
            declare_arithmetic(alloc, elsewhere, interface, of_type, types)?;
        }
        TypeDefinition::Enumeration { .. } => {
            declare_group(
                alloc, elsewhere, interface, of_type, types, relation, &RELATIONS,
            )?;
        }
        TypeDefinition::Array { .. } | TypeDefinition::Record(_) | TypeDefinition::Private => {
            declare_group(
                alloc, elsewhere, interface, of_type, types, relation, &EQUALITY,
            )?;
        }
        TypeDefinition::Time => {}
    }
    Ok(())
}

/// Declares the operators of a type, if the unit declares nothing elsewhere.
pub(crate) fn declare_first_operators(
    alloc: Global,
    interface: &mut Interface,
    of_type: &Symbol,
    types: &Types,
    definition: &TypeDefinition,
) -> Result<(), NoMemory>
    ensures { OnOk result (interface.new ≡ with_operators of_type.now types.now [] interface.old (operators_of definition.now)) }
{
    let elsewhere = Interface::new(alloc);
    let declared = declare_operators(alloc, &elsewhere, interface, of_type, types, definition);
    drop(elsewhere);
    declared
}

/// Declares the operators of an integer type, if the unit declares nothing elsewhere.
pub(crate) fn declare_integer_operators(
    alloc: Global,
    interface: &mut Interface,
    of_type: &Symbol,
    types: &Types,
    bounds: Bounds,
) -> Result<(), NoMemory>
    ensures { OnOk result (interface.new ≡ with_operators of_type.now types.now [] interface.old (operators_of (Integer bounds))) }
{
    let definition = TypeDefinition::Integer(bounds);
    let declared = declare_first_operators(alloc, interface, of_type, types, &definition);
    drop(definition);
    declared
}
