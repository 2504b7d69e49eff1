// What diagnostics print for rules.
ghost use Rattle.std.specs.Prelude.{◌≡◌, ◌≢◌, IfNone, IfSome};
ghost use Rattle.al_base.specs.Rules.{number_of};
ghost use Rattle.al_base.specs.declared.rule.Rule.{Rule};
ghost use Rattle.al_base_words.specs.Messages.{message_of, rule_of, words_of};

use al_base::Rule;

/// The rules, by their numbers.
const RULES: [Rule; 41] = [
    Rule::IllegalCharacter,
    Rule::BadIdentifier,
    Rule::BadNumber,
    Rule::NumberTooLarge,
    Rule::BadString,
    Rule::IdentifierTooLong,
    Rule::Syntax,
    Rule::FileName,
    Rule::MissingUnit,
    Rule::DependenceCycle,
    Rule::PrivateChild,
    Rule::MissingParent,
    Rule::NoStub,
    Rule::ReservedUnit,
    Rule::DependsOnFaults,
    Rule::BodyDoesNotFit,
    Rule::Duplicate,
    Rule::MissingCompletion,
    Rule::NotConformant,
    Rule::NotStatic,
    Rule::OutOfLimits,
    Rule::NotAllowedHere,
    Rule::BadPragma,
    Rule::EndName,
    Rule::NoValue,
    Rule::NotComplete,
    Rule::NotVisible,
    Rule::NoInterpretation,
    Rule::Ambiguous,
    Rule::WrongKind,
    Rule::StaticFailure,
    Rule::NotAVariable,
    Rule::BadReturn,
    Rule::BadExit,
    Rule::BadChoices,
    Rule::NoReturn,
    Rule::NotLibraryLevel,
    Rule::SecondEntry,
    Rule::BadBarrier,
    Rule::OwnOperation,
    Rule::NotYet,
];

/// What is printed for each rule, in the order of `RULES`.
const MESSAGES: [&[u8]; 41] = [
    b"E001 illegal character",
    b"E002 bad identifier",
    b"E003 bad number",
    b"E004 number too large",
    b"E005 bad string",
    b"E006 identifier too long",
    b"E101 syntax",
    b"E201 file name",
    b"E202 missing unit",
    b"E203 dependence cycle",
    b"E204 private child",
    b"E205 missing parent",
    b"E206 no stub",
    b"E207 reserved unit",
    b"E208 depends on faults",
    b"E209 body does not fit",
    b"E301 duplicate",
    b"E302 missing completion",
    b"E303 not conformant",
    b"E304 not static",
    b"E305 out of limits",
    b"E306 not allowed here",
    b"E307 bad pragma",
    b"E308 end name",
    b"E309 no value",
    b"E310 not complete",
    b"E401 not visible",
    b"E402 no interpretation",
    b"E403 ambiguous",
    b"E404 wrong kind",
    b"E405 static failure",
    b"E406 not a variable",
    b"E501 bad return",
    b"E502 bad exit",
    b"E503 bad choices",
    b"E504 no return",
    b"E601 not library level",
    b"E602 second entry",
    b"E603 bad barrier",
    b"E604 own operation",
    b"E700 not yet",
];

/// The letter E, the number in three digits, and what is wrong in a few words.
#[tactic(auto, unfolding(crate::specs::Messages::words_of))]
fn words_of(rule: Rule) -> &'static [u8]
    ensures { result.now ≡ words_of rule }
{
    MESSAGES[rule as usize]
}

/// The rule of a number.
pub fn rule_of(number: u16) -> Option<Rule>
    ensures value { result ≡ rule_of number }
    ensures found { IfSome result (λ rule. number_of rule ≡ number) }
    ensures none { IfNone result ((rule : Rule) → number_of rule ≢ number) }
{
    found(number)
}

/// The first rule of this number.
#[tactic(auto, unfolding(crate::specs::Messages::all_rules, crate::specs::Messages::rule_of))]
fn found(number: u16) -> Option<Rule>
    ensures value { result ≡ rule_of number }
    ensures found { IfSome result (λ rule. number_of rule ≡ number) }
{
    RULES.iter().copied().find(|rule| rule.number() == number)
}

/// What a diagnostic prints for the rule of a number: the letter E, the number in three digits, and what is wrong in a few words.
/// If no rule has the number, it is the message of E700.
pub fn message_of(number: u16) -> &'static [u8]
    ensures { result.now ≡ message_of number }
{
    match rule_of(number) {
        Some(rule) => words_of(rule),
        None => words_of(Rule::NotYet),
    }
}
