// The numbers of the instructions without operands, and of those with one number.
ghost use Rattle.std.specs.Prelude.{◌≡◌};
ghost use Rattle.al_instr.specs.Numbers.{plain_number, sized_number, protected_number, plain_of, sized_of, protected_of};

/// What has no operand.
#[derive(Clone, Copy)]
pub enum Plain {
    Add = 0x10,
    Subtract = 0x11,
    Multiply = 0x12,
    Divide = 0x13,
    Modulo = 0x14,
    Remainder = 0x15,
    Power = 0x16,
    Negate = 0x17,
    Absolute = 0x18,
    Not = 0x19,
    And = 0x1a,
    Or = 0x1b,
    Xor = 0x1c,
    Equal = 0x1d,
    NotEqual = 0x1e,
    Less = 0x1f,
    AtMost = 0x20,
    Greater = 0x21,
    AtLeast = 0x22,
    Root = 0x31,
    Access = 0x35,
    NewLine = 0x43,
    Go = 0x51,
    Begun = 0x52,
    Done = 0x53,
    Now = 0x54,
    Sleep = 0x55,
    Leave = 0x58,
}

const PLAIN_ONES: [Plain; 28] = [
    Plain::Add,
    Plain::Subtract,
    Plain::Multiply,
    Plain::Divide,
    Plain::Modulo,
    Plain::Remainder,
    Plain::Power,
    Plain::Negate,
    Plain::Absolute,
    Plain::Not,
    Plain::And,
    Plain::Or,
    Plain::Xor,
    Plain::Equal,
    Plain::NotEqual,
    Plain::Less,
    Plain::AtMost,
    Plain::Greater,
    Plain::AtLeast,
    Plain::Root,
    Plain::Access,
    Plain::NewLine,
    Plain::Go,
    Plain::Begun,
    Plain::Done,
    Plain::Now,
    Plain::Sleep,
    Plain::Leave,
];

impl Plain {
    /// The number of the instruction.
    pub(crate) fn number(self) -> u8
        ensures { result ≡ plain_number self }
    {
        self as u8
    }

    /// The one of this number.
    pub(crate) fn of(number: u8) -> Option<Plain>
        ensures { result ≡ plain_of number }
    {
        PLAIN_ONES
            .iter()
            .copied()
            .find(|one| one.number() == number)
    }
}

/// What has a number of words, an offset or a code as its operand.
#[derive(Clone, Copy)]
pub enum Sized {
    Load = 0x03,
    Store = 0x04,
    Zero = 0x05,
    Same = 0x06,
    Drop = 0x07,
    Field = 0x0a,
    Mark = 0x30,
    Enter = 0x33,
    Return = 0x34,
    Raise = 0x36,
    PutInteger = 0x41,
}

const SIZED_ONES: [Sized; 11] = [
    Sized::Load,
    Sized::Store,
    Sized::Zero,
    Sized::Same,
    Sized::Drop,
    Sized::Field,
    Sized::Mark,
    Sized::Enter,
    Sized::Return,
    Sized::Raise,
    Sized::PutInteger,
];

impl Sized {
    /// The number of the instruction.
    pub(crate) fn number(self) -> u8
        ensures { result ≡ sized_number self }
    {
        self as u8
    }

    /// The one of this number.
    pub(crate) fn of(number: u8) -> Option<Sized>
        ensures { result ≡ sized_of number }
    {
        SIZED_ONES
            .iter()
            .copied()
            .find(|one| one.number() == number)
    }
}

/// What is done to a protected object.
#[derive(Clone, Copy)]
pub enum Protected {
    Enter = 0x56,
    EnterEntry = 0x57,
    Waiting = 0x59,
    Wake = 0x5a,
    Block = 0x5b,
}

const PROTECTED_ONES: [Protected; 5] = [
    Protected::Enter,
    Protected::EnterEntry,
    Protected::Waiting,
    Protected::Wake,
    Protected::Block,
];

impl Protected {
    /// The number of the instruction.
    pub(crate) fn number(self) -> u8
        ensures { result ≡ protected_number self }
    {
        self as u8
    }

    /// The one of this number.
    pub(crate) fn of(number: u8) -> Option<Protected>
        ensures { result ≡ protected_of number }
    {
        PROTECTED_ONES
            .iter()
            .copied()
            .find(|one| one.number() == number)
    }
}
