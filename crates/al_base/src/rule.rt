// The rules that a diagnostic can say are broken.
ghost use Rattle.std.specs.Prelude.{◌≡◌};
ghost use Rattle.al_base.specs.Rules.{number_of};

/// The rules that a diagnostic can say are broken, by their numbers.
#[derive(Clone, Copy)]
pub enum Rule {
    /// No lexeme begins at that byte.
    IllegalCharacter,
    /// Two underscores together, or one at the end.
    BadIdentifier,
    /// A malformed number.
    BadNumber,
    /// A number above 2**63 - 1.
    NumberTooLarge,
    /// A string that isn't ended on its line, or has a byte that isn't printable.
    BadString,
    /// An identifier of more than 200 bytes.
    IdentifierTooLong,
    /// The source is no compilation unit.
    Syntax,
    /// The unit belongs in another file.
    FileName,
    /// A unit that is named, a parent body or a declaration that a package body completes is not there.
    MissingUnit,
    /// The unit depends on itself (ARM 10.1.1(26)).
    DependenceCycle,
    /// A private child is mentioned in a place that doesn't allow it (ARM 10.1.2(8)).
    PrivateChild,
    /// The parent has no declaration, or is no package (ARM 10.1.1(10)).
    MissingParent,
    /// The parent body has no stub for the subunit (ARM 10.1.3(8)).
    NoStub,
    /// The unit's name is the implementation's (ARM A.2(4)).
    ReservedUnit,
    /// The unit depends on one that isn't sound or has a diagnostic.
    DependsOnFaults,
    /// The declaration needs no body, or is of another kind (ARM 7.2(4)).
    BodyDoesNotFit,
    /// A homograph in the same region (ARM 8.3(26)).
    Duplicate,
    /// A declaration is not completed (ARM 3.11.1(6)).
    MissingCompletion,
    /// A completion does not conform (ARM 6.3.1).
    NotConformant,
    /// A static expression is wanted (ARM 4.9).
    NotStatic,
    /// A priority, a bound or a size is beyond its limits.
    OutOfLimits,
    /// A stub, a dotted name or a mode is in a place that doesn't allow it.
    NotAllowedHere,
    /// A pragma that is unknown, misplaced or has a wrong argument.
    BadPragma,
    /// A name at an end differs from the name that it ends.
    EndName,
    /// A constant without a value.
    NoValue,
    /// A private type is used before its full declaration in a place that needs a complete type (ARM 3.11.1(8), 7.3(5), 13.14).
    NotComplete,
    /// No declaration of an identifier is visible (ARM 8.3).
    NotVisible,
    /// No interpretation is acceptable (ARM 8.6).
    NoInterpretation,
    /// More than one interpretation is acceptable (ARM 8.6(30)).
    Ambiguous,
    /// The name denotes another kind of thing than is wanted.
    WrongKind,
    /// A static expression has no value (ARM 4.9(34)).
    StaticFailure,
    /// The name is no variable (ARM 5.2, 6.4.1(5)).
    NotAVariable,
    /// A return statement with a value missing or not wanted, or outside a body (ARM 6.5).
    BadReturn,
    /// An exit statement with no such loop around it (ARM 5.7).
    BadExit,
    /// The choices of a case statement do not fit (ARM 5.4).
    BadChoices,
    /// A function without a return statement (ARM 6.5(4)).
    NoReturn,
    /// A task or a protected object below library level.
    NotLibraryLevel,
    /// A protected object with two entries.
    SecondEntry,
    /// A barrier that is no Boolean component.
    BadBarrier,
    /// An operation that is called from its own object's bodies.
    OwnOperation,
    /// A unit that isn't compiled yet.
    NotYet,
}

/// The numbers of the rules, in the order of `Rule`.
const NUMBERS: [u16; 41] = [
    1, 2, 3, 4, 5, 6, 101, 201, 202, 203, 204, 205, 206, 207, 208, 209, 301, 302, 303, 304, 305,
    306, 307, 308, 309, 310, 401, 402, 403, 404, 405, 406, 501, 502, 503, 504, 601, 602, 603, 604,
    700,
];

impl Rule {
    /// The number of the rule in diagnostics: 401 is printed as E401.
    #[tactic(auto, unfolding(crate::specs::Rules::number_of))]
    pub fn number(self) -> u16
        ensures { result ≡ number_of self }
    {
        NUMBERS[self as usize]
    }
}
