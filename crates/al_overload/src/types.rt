// Types as interpretation sees them (ARM 8.6).
ghost use Rattle.std.specs.Prelude.{◌≡◌};
ghost use Rattle.al_overload.specs.Fitting.{fits, is_discrete, is_integer};
ghost use Rattle.al_overload.specs.declared.types.Expected.TheVariants as w;

use al_view::Symbol;

/// What the values of a type are.
#[derive(Clone, Copy)]
pub enum Class {
    /// Values of an integer type (ARM 3.5.4).
    Integer,
    /// Values of an enumeration type (ARM 3.5.1).
    Enumeration,
    /// Values of a composite or private type.
    Other,
}

/// A type, by its symbol, with what its values are.
pub struct ValueType {
    /// The type's symbol.
    pub symbol: Symbol,
    /// What its values are.
    pub class: Class,
}

impl Drop for ValueType {
    fn drop(self) {
        let ValueType {
            symbol: _,
            class: _,
        } = self;
    }
}

/// What a declaration gives if it is used in an expression.
pub enum Given {
    /// No value: a procedure or an entry.
    Nothing,
    /// A value of this type.
    Value(ValueType),
    /// A value of any integer type: numbers alone (ARM 3.4.1(7)).
    Universal,
    /// Text that is put out.
    Text,
}

impl Drop for Given {
    fn drop(self) {
        match self {
            Given::Nothing => {}
            Given::Value(_) => {}
            Given::Universal => {}
            Given::Text => {}
        }
    }
}

/// What an expression is expected to be at its place (ARM 8.6(20)).
pub enum Expected {
    /// A call without a value.
    Nothing,
    /// A value of this type.
    Value(ValueType),
    /// A value of any integer type.
    AnyInteger,
    /// A value of any integer or enumeration type.
    AnyDiscrete,
    /// A value of any type.
    AnyValue,
    /// Text that is put out.
    Text,
}

impl Drop for Expected {
    fn drop(self) {
        match self {
            Expected::Nothing => {}
            Expected::Value(_) => {}
            Expected::AnyInteger => {}
            Expected::AnyDiscrete => {}
            Expected::AnyValue => {}
            Expected::Text => {}
        }
    }
}

impl Class {
    /// Whether the values are whole numbers.
    pub fn is_integer(self) -> bool
        ensures { result ≡ is_integer self }
    {
        match self {
            Class::Integer => true,
            Class::Enumeration => false,
            Class::Other => false,
        }
    }

    /// Whether the values are discrete: each has one before it and one after it, except at the ends.
    pub fn is_discrete(self) -> bool
        ensures { result ≡ is_discrete self }
    {
        match self {
            Class::Integer => true,
            Class::Enumeration => true,
            Class::Other => false,
        }
    }
}

impl Given {
    /// Whether this is what is expected.
    pub fn fits(&self, expected: &Expected) -> bool
        ensures { result ≡ fits self.now expected.now }
    {
        match expected {
            Expected::Nothing => self.is_nothing(),
            Expected::Value(expected) => self.is_of(expected),
            Expected::AnyInteger => self.is_integer(),
            Expected::AnyDiscrete => self.is_discrete(),
            Expected::AnyValue => self.is_value(),
            Expected::Text => self.is_text(),
        }
    }

    fn is_nothing(&self) -> bool
        ensures { result ≡ fits self.now w.Nothing }
    {
        match self {
            Given::Nothing => true,
            Given::Value(_) => false,
            Given::Universal => false,
            Given::Text => false,
        }
    }

    fn is_of(&self, expected: &ValueType) -> bool
        ensures { result ≡ fits self.now (w.Value expected.now) }
    {
        match self {
            Given::Nothing => false,
            Given::Value(own) => own.symbol.is(&expected.symbol),
            Given::Universal => expected.class.is_integer(),
            Given::Text => false,
        }
    }

    fn is_integer(&self) -> bool
        ensures { result ≡ fits self.now w.AnyInteger }
    {
        match self {
            Given::Nothing => false,
            Given::Value(own) => own.class.is_integer(),
            Given::Universal => true,
            Given::Text => false,
        }
    }

    fn is_discrete(&self) -> bool
        ensures { result ≡ fits self.now w.AnyDiscrete }
    {
        match self {
            Given::Nothing => false,
            Given::Value(own) => own.class.is_discrete(),
            Given::Universal => true,
            Given::Text => false,
        }
    }

    fn is_value(&self) -> bool
        ensures { result ≡ fits self.now w.AnyValue }
    {
        match self {
            Given::Nothing => false,
            Given::Value(_) => true,
            Given::Universal => true,
            Given::Text => false,
        }
    }

    fn is_text(&self) -> bool
        ensures { result ≡ fits self.now w.Text }
    {
        match self {
            Given::Nothing => false,
            Given::Value(_) => false,
            Given::Universal => false,
            Given::Text => true,
        }
    }
}
