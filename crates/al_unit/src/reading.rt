// What the source in a file is.
ghost use Rattle.std.specs.Prelude.{◌≡◌, ◌≤◌, IfOk, length, option_map};
ghost use Rattle.al_lex.specs.Tokens.{lexed};
ghost use Rattle.al_tree.specs.UnitViews.{unit_model};
ghost use Rattle.al_unit.specs.Readings.{reading_of, token_place, unit_read};
ghost use Rattle.al_unit.specs.ReadingSeen.{reading_model};

use al_base::{NoMemory, Place};
use al_lex::{LexError, Token, end_place, lex};
use al_parse::{ParseError, parse};
use al_tree::CompilationUnit;
use al_tree_syntax::{faults_are_found, sentences_are_trees, trees_are_found, trees_are_unique};
use std::alloc::Global;

/// What the source in a file is read as.
pub enum Reading {
    /// A compilation unit.
    Sentence(CompilationUnit),
    /// The place and the number of the first lexical fault, or else of the syntax fault.
    Fails(Place, u16),
}

// It is written out so that a crate above drops a reading by this one call and needn't prove again how each kind of tree is
// dropped.
impl Drop for Reading {
    fn drop(self) {
        match self {
            Reading::Sentence(unit) => drop(unit),
            Reading::Fails(_, _) => {}
        }
    }
}

impl Reading {
    /// The compilation unit, if it is one. It takes no memory.
    pub fn into_unit(self) -> Option<CompilationUnit>
        ensures { option_map (λ unit. unit_model unit) result ≡ unit_read (reading_model self) }
    {
        match self {
            Reading::Sentence(unit) => Some(unit),
            Reading::Fails(_, _) => None,
        }
    }
}

/// Reads a source.
///
/// # Errors
///
/// `NoMemory` if the allocator refuses memory. A source that is no compilation unit is no error.
#[tactic(auto, using(crate::proofs::Faults::fault_has_no_unit, crate::proofs::Faults::tree_is_found), unfolding(crate::specs::Readings::reading_of))]
pub fn read(alloc: Global, text: &[u8]) -> Result<Reading, NoMemory>
    requires { length text.now ≤ 4294967294 }
    ensures { IfOk result (λ reading. reading_model reading ≡ reading_of text.now) }
{
    trees_are_found();
    trees_are_unique();
    sentences_are_trees();
    faults_are_found();
    let tokens = match lex(alloc, text) {
        Ok(tokens) => tokens,
        Err(LexError::Fault(fault)) => {
            return Ok(Reading::Fails(fault.place, fault.code.number()));
        }
        Err(LexError::NoMemory) => return Err(NoMemory),
    };
    match parse(alloc, text, tokens.as_slice()) {
        Ok(unit) => Ok(Reading::Sentence(unit)),
        Err(ParseError::Syntax(fault)) => {
            let place = token_place(text, tokens.as_slice(), fault.at);
            Ok(Reading::Fails(place, 101))
        }
        Err(ParseError::NoMemory) => Err(NoMemory),
    }
}

// The place of a token; after the last one, the end of the source.
fn token_place(text: &[u8], tokens: &[Token], at: usize) -> Place
    requires { length text.now ≤ 4294967294 }
    ensures { result ≡ token_place text.now tokens.now at }
{
    match tokens.get(at) {
        Some(token) => token.span.place,
        None => end_place(text),
    }
}
