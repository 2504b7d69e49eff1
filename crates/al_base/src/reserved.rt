// The words that are no identifiers.
ghost use Rattle.std.specs.Prelude.{◌≡◌, ◌≢◌, ◌<◌, Some, length, map, slice_index, IfSome, IfNone};
ghost use Rattle.std.specs.Char.{to_ascii_lowercase};
ghost use Rattle.al_base.specs.ReservedPlaces.{place_of};
ghost use Rattle.al_base.specs.ReservedWords.{spelling, reserved_words, reserved_at};
ghost use Rattle.al_base.specs.declared.reserved.ReservedWord.{ReservedWord};

/// The reserved words (ARM 2.9) in alphabetical order.
#[derive(Clone, Copy)]
pub enum ReservedWord {
    Abort,
    Abs,
    Abstract,
    Accept,
    Access,
    Aliased,
    All,
    And,
    Array,
    At,
    Begin,
    Body,
    Case,
    Constant,
    Declare,
    Delay,
    Delta,
    Digits,
    Do,
    Else,
    Elsif,
    End,
    Entry,
    Exception,
    Exit,
    For,
    Function,
    Generic,
    Goto,
    If,
    In,
    Interface,
    Is,
    Limited,
    Loop,
    Mod,
    New,
    Not,
    Null,
    Of,
    Or,
    Others,
    Out,
    Overriding,
    Package,
    Pragma,
    Private,
    Procedure,
    Protected,
    Raise,
    Range,
    Record,
    Rem,
    Renames,
    Requeue,
    Return,
    Reverse,
    Select,
    Separate,
    Some,
    Subtype,
    Synchronized,
    Tagged,
    Task,
    Terminate,
    Then,
    Type,
    Until,
    Use,
    When,
    While,
    With,
    Xor,
}

const RESERVED_WORDS: [ReservedWord; 73] = [
    ReservedWord::Abort,
    ReservedWord::Abs,
    ReservedWord::Abstract,
    ReservedWord::Accept,
    ReservedWord::Access,
    ReservedWord::Aliased,
    ReservedWord::All,
    ReservedWord::And,
    ReservedWord::Array,
    ReservedWord::At,
    ReservedWord::Begin,
    ReservedWord::Body,
    ReservedWord::Case,
    ReservedWord::Constant,
    ReservedWord::Declare,
    ReservedWord::Delay,
    ReservedWord::Delta,
    ReservedWord::Digits,
    ReservedWord::Do,
    ReservedWord::Else,
    ReservedWord::Elsif,
    ReservedWord::End,
    ReservedWord::Entry,
    ReservedWord::Exception,
    ReservedWord::Exit,
    ReservedWord::For,
    ReservedWord::Function,
    ReservedWord::Generic,
    ReservedWord::Goto,
    ReservedWord::If,
    ReservedWord::In,
    ReservedWord::Interface,
    ReservedWord::Is,
    ReservedWord::Limited,
    ReservedWord::Loop,
    ReservedWord::Mod,
    ReservedWord::New,
    ReservedWord::Not,
    ReservedWord::Null,
    ReservedWord::Of,
    ReservedWord::Or,
    ReservedWord::Others,
    ReservedWord::Out,
    ReservedWord::Overriding,
    ReservedWord::Package,
    ReservedWord::Pragma,
    ReservedWord::Private,
    ReservedWord::Procedure,
    ReservedWord::Protected,
    ReservedWord::Raise,
    ReservedWord::Range,
    ReservedWord::Record,
    ReservedWord::Rem,
    ReservedWord::Renames,
    ReservedWord::Requeue,
    ReservedWord::Return,
    ReservedWord::Reverse,
    ReservedWord::Select,
    ReservedWord::Separate,
    ReservedWord::Some,
    ReservedWord::Subtype,
    ReservedWord::Synchronized,
    ReservedWord::Tagged,
    ReservedWord::Task,
    ReservedWord::Terminate,
    ReservedWord::Then,
    ReservedWord::Type,
    ReservedWord::Until,
    ReservedWord::Use,
    ReservedWord::When,
    ReservedWord::While,
    ReservedWord::With,
    ReservedWord::Xor,
];

/// The words in lower case, in alphabetical order.
const SPELLINGS: [&[u8]; 73] = [
    b"abort",
    b"abs",
    b"abstract",
    b"accept",
    b"access",
    b"aliased",
    b"all",
    b"and",
    b"array",
    b"at",
    b"begin",
    b"body",
    b"case",
    b"constant",
    b"declare",
    b"delay",
    b"delta",
    b"digits",
    b"do",
    b"else",
    b"elsif",
    b"end",
    b"entry",
    b"exception",
    b"exit",
    b"for",
    b"function",
    b"generic",
    b"goto",
    b"if",
    b"in",
    b"interface",
    b"is",
    b"limited",
    b"loop",
    b"mod",
    b"new",
    b"not",
    b"null",
    b"of",
    b"or",
    b"others",
    b"out",
    b"overriding",
    b"package",
    b"pragma",
    b"private",
    b"procedure",
    b"protected",
    b"raise",
    b"range",
    b"record",
    b"rem",
    b"renames",
    b"requeue",
    b"return",
    b"reverse",
    b"select",
    b"separate",
    b"some",
    b"subtype",
    b"synchronized",
    b"tagged",
    b"task",
    b"terminate",
    b"then",
    b"type",
    b"until",
    b"use",
    b"when",
    b"while",
    b"with",
    b"xor",
];

/// For each place of a spelling, the number of the word in alphabetical order; 73 if no word has that place.
const NUMBERS: [u8; 256] = [
    73, 73, 18, 73, 73, 73, 73, 68, 73, 73, 73, 22, 73, 73, 73, 32, 73, 2, 73, 73, 73, 73, 73, 73,
    73, 24, 45, 73, 73, 20, 73, 73, 53, 60, 44, 73, 36, 27, 73, 73, 73, 73, 15, 1, 73, 67, 73, 73,
    34, 73, 14, 73, 73, 43, 73, 73, 73, 6, 73, 73, 54, 73, 73, 73, 73, 7, 73, 73, 73, 21, 38, 73,
    11, 9, 73, 13, 73, 73, 73, 73, 73, 73, 73, 73, 48, 73, 46, 73, 73, 73, 73, 73, 73, 59, 73, 73,
    73, 73, 73, 73, 73, 73, 73, 73, 73, 35, 26, 73, 73, 73, 51, 61, 73, 73, 73, 42, 73, 73, 25, 73,
    50, 73, 47, 73, 56, 73, 73, 4, 73, 73, 73, 73, 73, 73, 73, 73, 72, 73, 73, 73, 73, 41, 73, 73,
    62, 28, 55, 73, 73, 73, 73, 71, 73, 73, 16, 73, 73, 73, 73, 73, 73, 73, 73, 73, 73, 3, 73, 73,
    73, 73, 73, 73, 52, 73, 73, 73, 73, 73, 66, 73, 73, 29, 73, 57, 73, 73, 73, 39, 73, 0, 73, 73,
    33, 73, 73, 73, 73, 30, 73, 73, 73, 73, 37, 73, 73, 73, 73, 8, 73, 73, 73, 40, 65, 5, 73, 69,
    73, 73, 73, 73, 73, 73, 73, 31, 73, 73, 73, 73, 73, 73, 73, 73, 73, 58, 63, 73, 49, 73, 64, 73,
    73, 70, 17, 73, 73, 12, 73, 19, 73, 23, 10, 73, 73, 73, 73, 73,
];

impl ReservedWord {
    #[tactic(auto, unfolding(crate::specs::ReservedWords::spelling))]
    /// The word in lower case.
    pub fn spelling(self) -> &'static [u8]
        ensures { result.now ≡ spelling self }
    {
        SPELLINGS[self as usize]
    }
}

#[tactic(auto, unfolding(crate::specs::ReservedWords::reserved_words))]
/// The reserved words in alphabetical order.
pub fn reserved_words() -> &'static [ReservedWord]
    ensures { result.now ≡ reserved_words }
{
    &RESERVED_WORDS
}

/// The reserved word that this is, without regard to case.
pub fn reserved_word(word: &[u8]) -> Option<ReservedWord>
    ensures value { result ≡ reserved_at (map to_ascii_lowercase word.now) }
    ensures found { IfSome result (λ w. spelling w ≡ map to_ascii_lowercase word.now) }
    ensures none { IfNone result ((w : ReservedWord) → spelling w ≢ map to_ascii_lowercase word.now) }
{
    let Some(candidate) = candidate(word) else {
        return None;
    };
    if candidate.spelling().eq_ignore_ascii_case(word) {
        Some(candidate)
    } else {
        None
    }
}

/// The one word that may be spelled so.
fn candidate(word: &[u8]) -> Option<ReservedWord>
    ensures { (w : ReservedWord) → spelling w ≡ map to_ascii_lowercase word.now → result ≡ Some w }
{
    if word.is_empty() {
        return None;
    }
    word_at(place_of(word))
}

/// The place of the spelling of the word: no two reserved words agree in the first, the middle and the last byte.
fn place_of(word: &[u8]) -> usize
    requires { 0 < length word.now }
    ensures exact { result ≡ place_of (map to_ascii_lowercase word.now) }
    ensures within { result < 256 }
{
    let first = lowercase_at(word, 0);
    let middle = lowercase_at(word, word.len() / 2);
    let last = lowercase_at(word, word.len() - 1);
    (first + 28 * middle + 38 * last) % 256
}

fn lowercase_at(word: &[u8], i: usize) -> usize
    requires { i < length word.now }
    ensures exact { result ≡ slice_index (map to_ascii_lowercase word.now) i }
    ensures within { result < 256 }
{
    usize::from(word[i].to_ascii_lowercase())
}

/// The word whose spelling has that place.
fn word_at(place: usize) -> Option<ReservedWord>
    requires { place < 256 }
    ensures { (w : ReservedWord) → place_of (spelling w) ≡ place → result ≡ Some w }
{
    let number = usize::from(NUMBERS[place]);
    if number < RESERVED_WORDS.len() {
        Some(RESERVED_WORDS[number])
    } else {
        None
    }
}
