// Which words of a text a declaration has.
ghost use Rattle.std.specs.Prelude.{◌≡◌, IfOk, map};
ghost use Rattle.std.specs.List.{All};
ghost use Rattle.al_lsp_outline.specs.Nested.{HasName};

use crate::declared::{Declared, DeclaredKind};
use crate::range::{Extent, Symbol, hull};
use al_base::{NoMemory, Place, ReservedWord};
use al_lex::{Delimiter, Kind, Token};
use std::alloc::Global;

fn is_before(a: Place, b: Place) -> bool {
    a.line < b.line || (a.line == b.line && a.col < b.col)
}

// The number of the first token from this one on that isn't before a place.
fn token_from(tokens: &[Token], from: usize, place: Place) -> usize {
    for i in from..tokens.len() {
        if !is_before(tokens[i].span.place, place) {
            return i;
        }
    }
    tokens.len()
}

// The number of the first semicolon from this token on.
fn semicolon_from(tokens: &[Token], from: usize) -> usize {
    for i in from..tokens.len() {
        if let Kind::Delimiter(Delimiter::Semicolon) = tokens[i].kind {
            return i;
        }
    }
    tokens.len()
}

// Whether the word stands before the name that a declaration declares.
fn opens(token: &Token) -> bool {
    match token.kind {
        Kind::Reserved(word) => match word {
            ReservedWord::Body
            | ReservedWord::Entry
            | ReservedWord::Function
            | ReservedWord::Package
            | ReservedWord::Procedure
            | ReservedWord::Protected
            | ReservedWord::Subtype
            | ReservedWord::Task
            | ReservedWord::Type => true,
            _ => false,
        },
        _ => false,
    }
}

// The number of the first of the words before this token that open a declaration; its own where there is none.
fn opening(tokens: &[Token], at: usize) -> usize {
    let mut first = at;
    for back in 1..3usize {
        if back > at {
            break;
        }
        match tokens.get(at - back) {
            Some(token) if opens(token) => first = at - back,
            _ => break,
        }
    }
    first
}

// The bytes of a token; none of the text where there is no such token.
fn extent_at(tokens: &[Token], at: usize) -> Extent {
    match tokens.get(at) {
        Some(token) => {
            let from = token.span.start as usize;
            Extent {
                from,
                to: from + token.span.len as usize,
            }
        }
        None => Extent { from: 0, to: 0 },
    }
}

// A declaration whose name begins with this token.
fn symbol_at(tokens: &[Token], first: usize, declared: Declared) -> Symbol
    ensures declared { result.declared ≡ declared }
    ensures name { HasName result }
{
    let at = token_from(tokens, first, declared.name);
    let name = extent_at(tokens, at);
    let shown = hull(extent_at(tokens, first), name);
    if declared.kind == DeclaredKind::Literal {
        return Symbol {
            declared,
            shown,
            name,
            whole: name,
        };
    }
    let last = token_from(tokens, at, declared.last);
    let end = extent_at(tokens, semicolon_from(tokens, last));
    let words = hull(extent_at(tokens, opening(tokens, first)), end);
    Symbol {
        declared,
        shown,
        name,
        whole: hull(name, words),
    }
}

/// Declarations with their words, whose names are in the order of the tokens.
///
/// # Errors
///
/// `NoMemory` if the allocator refuses memory.
pub(crate) fn symbols_in(
    alloc: Global,
    tokens: &[Token],
    declared: &[Declared],
) -> Result<Vec<Symbol>, NoMemory>
    ensures declared { IfOk result (λ symbols. map (λ s. s.declared) symbols.items ≡ declared.now) }
    ensures names { IfOk result (λ symbols. All HasName symbols.items) }
{
    let mut symbols = Vec::new(alloc);
    let mut first = 0;
    for one in declared {
        first = token_from(tokens, first, one.first);
        symbols.push(symbol_at(tokens, first, *one))?;
    }
    Ok(symbols)
}
