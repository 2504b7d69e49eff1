// The operators of types, by their signs (ARM 3.2.3(6), 4.5).
ghost use Rattle.std.specs.Prelude.{◌≡◌};
ghost use Rattle.al_decl_judged.specs.TypeDeclarations.{later_signs, signs_of};

use al_view::TypeDefinition;
use al_view_predefined::OperatorProfile::{Binary, Power, Relation, Unary};
use al_view_predefined::{OperatorProfile, OperatorSymbol};

/// An operator by its profile and its sign.
pub type Sign = (OperatorProfile, OperatorSymbol);

const OF_INTEGERS: [Sign; 16] = [
    (Relation, OperatorSymbol::Equal),
    (Relation, OperatorSymbol::NotEqual),
    (Relation, OperatorSymbol::Less),
    (Relation, OperatorSymbol::LessOrEqual),
    (Relation, OperatorSymbol::Greater),
    (Relation, OperatorSymbol::GreaterOrEqual),
    (Unary, OperatorSymbol::Plus),
    (Unary, OperatorSymbol::Minus),
    (Unary, OperatorSymbol::Abs),
    (Binary, OperatorSymbol::Plus),
    (Binary, OperatorSymbol::Minus),
    (Binary, OperatorSymbol::Times),
    (Binary, OperatorSymbol::Divide),
    (Binary, OperatorSymbol::Rem),
    (Binary, OperatorSymbol::Mod),
    (Power, OperatorSymbol::Power),
];

const OF_ENUMERATIONS: [Sign; 6] = [
    (Relation, OperatorSymbol::Equal),
    (Relation, OperatorSymbol::NotEqual),
    (Relation, OperatorSymbol::Less),
    (Relation, OperatorSymbol::LessOrEqual),
    (Relation, OperatorSymbol::Greater),
    (Relation, OperatorSymbol::GreaterOrEqual),
];

const EQUALITY: [Sign; 2] = [
    (Relation, OperatorSymbol::Equal),
    (Relation, OperatorSymbol::NotEqual),
];

/// The operators that the declaration of a type declares.
pub(crate) fn signs_of(definition: &TypeDefinition) -> &'static [Sign]
    ensures { result.now ≡ signs_of definition.now }
{
    match definition {
        TypeDefinition::Integer(_) => &OF_INTEGERS,
        TypeDefinition::Enumeration { .. } => &OF_ENUMERATIONS,
        TypeDefinition::Array { .. } => &EQUALITY,
        TypeDefinition::Record(_) => &EQUALITY,
        TypeDefinition::Time => &[],
        TypeDefinition::Private => &EQUALITY,
    }
}

/// The operators that the full declaration of a private type declares: all except `=` and `/=`, which come first.
pub(crate) fn later_signs(definition: &TypeDefinition) -> &'static [Sign]
    ensures { result.now ≡ later_signs definition.now }
{
    let signs = signs_of(definition);
    if 2 < signs.len() {
        return &signs[2..];
    }
    &[]
}
