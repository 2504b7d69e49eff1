// What an expression is labelled with.
use al_base::Place;
use al_view::{Bounds, StaticValue, Symbol};

/// The type of an expression.
pub enum ExpressionType {
    /// The type that has this symbol (ARM 3.2(1)).
    Declared(Symbol),
    /// The root type of all integer types (ARM 3.4.1(8)).
    RootInteger,
}

impl Drop for ExpressionType {
    fn drop(self) {
        match self {
            ExpressionType::Declared(_) => {}
            ExpressionType::RootInteger => {}
        }
    }
}

/// What an expression is labelled with.
#[derive(Drop)]
pub struct Labels {
    /// The place of its first token.
    pub place: Place,
    /// The type of the expression (ARM 8.6).
    pub of: ExpressionType,
    /// The range of its nominal subtype, if it is a scalar name of an object or of a part of one, a call, a conversion or a
    /// qualified expression whose subtype is static (ARM 3.3(23), 4.9(26), 5.4(7)).
    pub bounds: Option<Bounds>,
    /// How many words its value takes.
    pub words: u32,
    /// The value of the expression, if it is static (ARM 4.9). The code of such an expression is its value, whatever its form is.
    pub value: Option<StaticValue>,
}

/// An operator before its operand (ARM 4.5.4, 4.5.6).
#[derive(Clone, Copy)]
pub enum UnaryOperator {
    Plus,
    Minus,
    Abs,
    Not,
}

/// An operator between its operands (ARM 4.5.1 to 4.5.6).
#[derive(Clone, Copy)]
pub enum BinaryOperator {
    And,
    Or,
    Xor,
    Equal,
    NotEqual,
    Less,
    LessOrEqual,
    Greater,
    GreaterOrEqual,
    Plus,
    Minus,
    Times,
    Divide,
    Mod,
    Rem,
    Power,
    /// Equality of what isn't seen to be scalar: word by word (ARM 4.5.2(14 to 24)).
    SameWords,
    /// Inequality of the same.
    OtherWords,
}

/// A short-circuit control form (ARM 4.5.1(1)).
#[derive(Clone, Copy)]
pub enum ShortCircuit {
    /// `and then`.
    AndThen,
    /// `or else`.
    OrElse,
}

/// What makes a value of one type of a value of another, or of the same.
#[derive(Clone, Copy)]
pub enum Conversion {
    /// A type conversion (ARM 4.6).
    ToType,
    /// A qualified expression (ARM 4.7).
    Qualification,
    /// `S'Pos (X)` (ARM 3.5.5(2))
    Pos,
    /// `S'Val (X)` (ARM 3.5.5(5))
    Val,
    /// `S'Succ (X)` (ARM 3.5(22))
    Succ,
    /// `S'Pred (X)` (ARM 3.5(25))
    Pred,
    /// `Ada.Real_Time.Milliseconds (X)` (ARM D.8(14))
    Milliseconds,
}
