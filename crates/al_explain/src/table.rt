// The pages of the codes.
use crate::declarations::DECLARATIONS;
use crate::lexemes::LEXEMES;
use crate::names::NAMES;
use crate::statements::STATEMENTS;
use crate::units::UNITS;

/// What a code means.
#[derive(Clone, Copy)]
pub struct Page {
    /// The number of the rule: 401 is shown as E401.
    pub code: u16,
    /// Where the Reference Manual has it.
    pub clauses: &'static str,
    /// What the rule is.
    pub rule: &'static str,
    /// Files that break it, each after a line `-- FILE`.
    pub wrong: &'static str,
    /// The same files as they are right.
    pub right: &'static str,
}

/// The pages by their codes, subject by subject: of each page the code, where the Manual has it and the rule, with `|` between them; then the
/// files that break it, and those that are right. `%` is before each of the three.
pub const PAGES: [&str; 5] = [LEXEMES, UNITS, DECLARATIONS, NAMES, STATEMENTS];
