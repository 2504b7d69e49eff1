// The rules that the check of a unit can find broken.
ghost use Rattle.std.specs.Prelude.{◌≡◌};
ghost use Rattle.al_base_fault.specs.CheckRules.{as_rule, ranks_before, rule_number};

use al_base::Rule;

/// The rules that the check of a unit can find broken, by their numbers; those of lexical and syntax faults and of the graph of units
/// aren't among them.
#[derive(Clone, Copy)]
pub enum CheckRule {
    /// A homograph in the same region (ARM 8.3(26)).
    Duplicate,
    /// A declaration is not completed (ARM 3.11.1(6)).
    MissingCompletion,
    /// A completion does not conform (ARM 6.3.1).
    NotConformant,
    /// A static expression is wanted (ARM 4.9).
    NotStatic,
    /// A priority, a bound or a size is beyond its limits.
    OutOfLimits,
    /// A stub, a dotted name or a mode is in a place that doesn't allow it.
    NotAllowedHere,
    /// A pragma that is unknown, misplaced or has a wrong argument.
    BadPragma,
    /// A name at an end differs from the name that it ends.
    EndName,
    /// A constant without a value.
    NoValue,
    /// A private type is used before its full declaration in a place that needs a complete type (ARM 3.11.1(8), 7.3(5), 13.14).
    NotComplete,
    /// No declaration of an identifier is visible (ARM 8.3).
    NotVisible,
    /// No interpretation is acceptable (ARM 8.6).
    NoInterpretation,
    /// More than one interpretation is acceptable (ARM 8.6(30)).
    Ambiguous,
    /// The name denotes another kind of thing than is wanted.
    WrongKind,
    /// A static expression has no value (ARM 4.9(34)).
    StaticFailure,
    /// The name is no variable (ARM 5.2, 6.4.1(5)).
    NotAVariable,
    /// A return statement with a value missing or not wanted, or outside a body (ARM 6.5).
    BadReturn,
    /// An exit statement with no such loop around it (ARM 5.7).
    BadExit,
    /// The choices of a case statement do not fit (ARM 5.4).
    BadChoices,
    /// A function without a return statement (ARM 6.5(4)).
    NoReturn,
    /// A task or a protected object below library level.
    NotLibraryLevel,
    /// A protected object with two entries.
    SecondEntry,
    /// A barrier that is no Boolean component.
    BadBarrier,
    /// An operation that is called from its own object's bodies.
    OwnOperation,
    /// A unit that isn't compiled yet.
    NotYet,
}

impl CheckRule {
    /// This rule among all rules.
    fn rule(self) -> Rule
        ensures { result ≡ as_rule self }
    {
        match self {
            CheckRule::Duplicate => Rule::Duplicate,
            CheckRule::MissingCompletion => Rule::MissingCompletion,
            CheckRule::NotConformant => Rule::NotConformant,
            CheckRule::NotStatic => Rule::NotStatic,
            CheckRule::OutOfLimits => Rule::OutOfLimits,
            CheckRule::NotAllowedHere => Rule::NotAllowedHere,
            CheckRule::BadPragma => Rule::BadPragma,
            CheckRule::EndName => Rule::EndName,
            CheckRule::NoValue => Rule::NoValue,
            CheckRule::NotComplete => Rule::NotComplete,
            CheckRule::NotVisible => Rule::NotVisible,
            CheckRule::NoInterpretation => Rule::NoInterpretation,
            CheckRule::Ambiguous => Rule::Ambiguous,
            CheckRule::WrongKind => Rule::WrongKind,
            CheckRule::StaticFailure => Rule::StaticFailure,
            CheckRule::NotAVariable => Rule::NotAVariable,
            CheckRule::BadReturn => Rule::BadReturn,
            CheckRule::BadExit => Rule::BadExit,
            CheckRule::BadChoices => Rule::BadChoices,
            CheckRule::NoReturn => Rule::NoReturn,
            CheckRule::NotLibraryLevel => Rule::NotLibraryLevel,
            CheckRule::SecondEntry => Rule::SecondEntry,
            CheckRule::BadBarrier => Rule::BadBarrier,
            CheckRule::OwnOperation => Rule::OwnOperation,
            CheckRule::NotYet => Rule::NotYet,
        }
    }

    /// The number of the rule: 401 is printed as E401.
    pub fn number(self) -> u16
        ensures { result ≡ rule_number self }
    {
        self.rule().number()
    }

    /// Whether the number of this rule is less than that of the other.
    #[tactic(auto, unfolding(crate::specs::CheckRules::ranks_before))]
    pub(crate) fn ranks_before(self, other: CheckRule) -> bool
        ensures { result ≡ ranks_before self other }
    {
        self.number() < other.number()
    }
}
