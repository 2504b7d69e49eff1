// Steps.
ghost use Rattle.std.specs.Prelude.{map, ◌≡◌, false};
ghost use Rattle.al_tree_grammar.specs.Grammar.Rule.{Opt};
ghost use Rattle.al_tree_grammar.specs.Reading.{begins};
ghost use Rattle.al_tree_syntax.specs.DeclarationTrees.{flag_tokens};
ghost use Rattle.al_tree_syntax.specs.Notation.{the};
ghost use Rattle.al_tree_syntax.specs.Symbols.{is_labelled, number};
ghost use Rattle.al_tree.specs.Lexemes.{lexemes};
ghost use Rattle.al_tree.specs.Symbols.{symbol_model};
ghost use Rattle.al_parse.specs.Parses.{Took, reading};

use crate::{is_next, skip};
use al_lex::Token;
use al_tree::Symbol;

/// Whether this word is the next token, and what is after it; all the tokens, if it isn't.
pub(crate) fn flag<'a>(source: &[u8], tokens: &'a [Token], symbol: Symbol) -> (bool, &'a [Token])
    requires { is_labelled (symbol_model symbol) ≡ false }
    ensures { Took (flag_tokens (symbol_model symbol) result.0) (lexemes source.now result.1.now) (lexemes source.now tokens.now) (reading 0 (Opt (the (symbol_model symbol))) (lexemes source.now tokens.now)) }
{
    match skip(source, tokens, symbol) {
        None => (false, tokens),
        Some(rest) => (true, rest),
    }
}

/// The next token is of one of these symbols.
#[inline(always)]
pub(crate) fn is_any_next(source: &[u8], tokens: &[Token], symbols: &[Symbol]) -> bool
    ensures { result ≡ begins (map (λ s. number (symbol_model s)) symbols.now) (lexemes source.now tokens.now) }
{
    for symbol in symbols {
        if is_next(source, tokens, *symbol) {
            return true;
        }
    }
    false
}
