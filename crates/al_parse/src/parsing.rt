// Whole sources.
ghost use Rattle.std.specs.Prelude.{IfErr, IfOk};
ghost use Rattle.al_tree.specs.Lexemes.{lexemes};
ghost use Rattle.al_tree.specs.UnitViews.{unit_model};
ghost use Rattle.al_parse.specs.Faults.{FaultOf, IsTreeOf, Refuses};

use crate::{Stop, compilation_unit};
use al_lex::Token;
use al_tree::CompilationUnit;
use std::alloc::Global;

/// Constructs that may be open at once: a pair of parentheses, or what `end` closes, a body from its `is`.
const MOST_OPEN: u32 = 64;

/// The place of a syntax fault.
#[derive(Clone, Copy)]
pub struct SyntaxFault {
    /// How many tokens are before the first that can't be there; all of them, if the source ends too soon.
    pub at: usize,
}

/// Why tokens have no tree.
#[derive(Drop)]
pub enum ParseError {
    /// The tokens are no compilation unit.
    Syntax(SyntaxFault),
    /// The allocator refused memory.
    NoMemory,
}

fn whole(alloc: Global, source: &[u8], tokens: &[Token]) -> Result<CompilationUnit, Stop>
    ensures found { IfOk result (λ u. IsTreeOf (unit_model u) (lexemes source.now tokens.now)) }
    ensures fault { IfErr result (λ e. Refuses e (lexemes source.now tokens.now)) }
{
    let (unit, rest) = compilation_unit(alloc, source, MOST_OPEN, tokens)?;
    if !rest.is_empty() {
        return Err(Stop::Fault(rest.len()));
    }
    Ok(unit)
}

/// The tree of the tokens of a source, or the place at which they stop being the prefix of a compilation unit.
///
/// # Errors
/// `Syntax` if the tokens are no compilation unit; `NoMemory` if the allocator refuses memory.
pub fn parse(alloc: Global, source: &[u8], tokens: &[Token]) -> Result<CompilationUnit, ParseError>
    ensures found { IfOk result (λ u. IsTreeOf (unit_model u) (lexemes source.now tokens.now)) }
    ensures fault { IfErr result (λ e. FaultOf e (lexemes source.now tokens.now)) }
{
    match whole(alloc, source, tokens) {
        Ok(unit) => Ok(unit),
        Err(Stop::Memory) => Err(ParseError::NoMemory),
        Err(Stop::Fault(left)) => Err(ParseError::Syntax(SyntaxFault {
            at: tokens.len() - left,
        })),
    }
}
