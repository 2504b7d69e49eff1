// Reading one token.
ghost use Rattle.std.specs.Prelude.{◌≡◌, ◌∷◌, [], ◌<◌, IfSome, IfNone, true, false};
ghost use Rattle.al_tree_grammar.specs.Grammar.Lexeme.{Fixed, Named};
ghost use Rattle.al_tree_grammar.specs.Reading.{any, begins, one};
ghost use Rattle.al_tree_syntax.specs.Symbols.{is_labelled, number};
ghost use Rattle.al_tree.specs.Lexemes.{has_text, identifier_label, lexemes, number_label, place_label, string_label};
ghost use Rattle.al_tree.specs.Symbols.{symbol_model};
ghost use Rattle.al_parse.specs.Parses.{Enters, EntersAt, Gives, IsFirst, IsOther};

use crate::stop::Stop;
use al_base::Place;
use al_lex::Token;
use al_tree::{Identifier, NumericLiteral, StringLiteral, Symbol, is_symbol};
use std::alloc::Global;

/// The next token, if it is of this symbol, and what is after it.
fn token_of(tokens: &[Token], symbol: Symbol) -> Option<(&Token, &[Token])>
    ensures found { IfSome result (λ x. IsFirst (symbol_model symbol) tokens.now x.0.now x.1.now) }
    ensures other { IfNone result (IsOther (symbol_model symbol) tokens.now) }
{
    match tokens.split_first() {
        Some((first, rest)) if is_symbol(first, symbol) => Some((first, rest)),
        _ => None,
    }
}

/// The next token is of this symbol.
pub fn is_next(source: &[u8], tokens: &[Token], symbol: Symbol) -> bool
    ensures { result ≡ begins (number (symbol_model symbol) ∷ []) (lexemes source.now tokens.now) }
{
    match tokens.split_first() {
        Some((first, _)) => is_symbol(first, symbol),
        None => false,
    }
}

/// What is after this delimiter or reserved word, if it is the next token.
pub fn skip<'a>(source: &[u8], tokens: &'a [Token], symbol: Symbol) -> Option<&'a [Token]>
    requires { is_labelled (symbol_model symbol) ≡ false }
    ensures found { IfSome result (λ rest. lexemes source.now tokens.now ≡ Fixed (number (symbol_model symbol)) ∷ lexemes source.now rest.now) }
    ensures other { IfNone result (begins (number (symbol_model symbol) ∷ []) (lexemes source.now tokens.now) ≡ false) }
{
    let (_, rest) = token_of(tokens, symbol)?;
    Some(rest)
}

/// The tokens after this delimiter or reserved word, which must come first.
///
/// # Errors
///
/// `Fault` with the number of all tokens, if the first one is another.
pub fn expect<'a>(source: &[u8], tokens: &'a [Token], symbol: Symbol) -> Result<&'a [Token], Stop>
    requires { is_labelled (symbol_model symbol) ≡ false }
    ensures { Gives (λ _. Fixed (number (symbol_model symbol)) ∷ []) (λ rest. lexemes source.now rest.now) result (lexemes source.now tokens.now) (one (number (symbol_model symbol)) (lexemes source.now tokens.now)) }
{
    skip(source, tokens, symbol).ok_or(Stop::Fault(tokens.len()))
}

/// Reads the first word of a construct: how many more constructs may be open in it, and the tokens after the word.
///
/// # Errors
///
/// `Fault` with the number of all tokens, if the first one is another or no more construct may be open.
pub fn enter<'a>(
    source: &[u8],
    depth: u32,
    tokens: &'a [Token],
    symbol: Symbol,
) -> Result<(u32, &'a [Token]), Stop>
    requires { is_labelled (symbol_model symbol) ≡ false }
    ensures { Enters (λ x. x.0) (λ x. lexemes source.now x.1.now) result depth (number (symbol_model symbol)) (lexemes source.now tokens.now) }
{
    if depth == 0 {
        return Err(Stop::Fault(tokens.len()));
    }
    let rest = expect(source, tokens, symbol)?;
    Ok((depth - 1, rest))
}

/// The place of this delimiter or reserved word, if it is the next token, and what is after it.
pub fn skip_at<'a>(
    source: &[u8],
    tokens: &'a [Token],
    symbol: Symbol,
) -> Option<(Place, &'a [Token])>
    requires labelled { is_labelled (symbol_model symbol) ≡ true }
    requires word { has_text (symbol_model symbol) ≡ false }
    ensures found { IfSome result (λ x. lexemes source.now tokens.now ≡ Named (number (symbol_model symbol)) (place_label x.0) ∷ lexemes source.now x.1.now) }
    ensures other { IfNone result (begins (number (symbol_model symbol) ∷ []) (lexemes source.now tokens.now) ≡ false) }
{
    let (token, rest) = token_of(tokens, symbol)?;
    Some((token.span.place, rest))
}

/// The place of this delimiter or reserved word, which must come first, and the tokens after it.
///
/// # Errors
///
/// `Fault` with the number of all tokens, if the first one is another.
pub fn word_at<'a>(
    source: &[u8],
    tokens: &'a [Token],
    symbol: Symbol,
) -> Result<(Place, &'a [Token]), Stop>
    requires labelled { is_labelled (symbol_model symbol) ≡ true }
    requires word { has_text (symbol_model symbol) ≡ false }
    ensures { Gives (λ x. Named (number (symbol_model symbol)) (place_label x.0) ∷ []) (λ x. lexemes source.now x.1.now) result (lexemes source.now tokens.now) (any (number (symbol_model symbol)) (lexemes source.now tokens.now)) }
{
    skip_at(source, tokens, symbol).ok_or(Stop::Fault(tokens.len()))
}

/// Reads the first word of a construct: how many more constructs may be open in it, the place of the word, and the tokens after it.
///
/// # Errors
///
/// `Fault` with the number of all tokens, if the first one is another or no more construct may be open.
pub fn enter_at<'a>(
    source: &[u8],
    depth: u32,
    tokens: &'a [Token],
    symbol: Symbol,
) -> Result<(u32, Place, &'a [Token]), Stop>
    requires labelled { is_labelled (symbol_model symbol) ≡ true }
    requires word { has_text (symbol_model symbol) ≡ false }
    ensures { EntersAt (λ x. x.0) (λ x. place_label x.1) (λ x. lexemes source.now x.2.now) result depth (number (symbol_model symbol)) (lexemes source.now tokens.now) }
{
    if depth == 0 {
        return Err(Stop::Fault(tokens.len()));
    }
    let (place, rest) = word_at(source, tokens, symbol)?;
    Ok((depth - 1, place, rest))
}

/// The identifier that must come first, and the tokens after it.
///
/// # Errors
///
/// `Fault` with the number of all tokens, if the first one is another. `Memory` if the allocator refuses memory.
pub fn identifier<'a>(
    alloc: Global,
    source: &[u8],
    tokens: &'a [Token],
) -> Result<(Identifier, &'a [Token]), Stop>
    ensures { Gives (λ x. Named 0 (identifier_label x.0) ∷ []) (λ x. lexemes source.now x.1.now) result (lexemes source.now tokens.now) (any 0 (lexemes source.now tokens.now)) }
{
    let Some((token, rest)) = token_of(tokens, Symbol::Identifier) else {
        return Err(Stop::Fault(tokens.len()));
    };
    let identifier = Identifier::of_token(alloc, source, token)?;
    Ok((identifier, rest))
}

/// A numeric literal, if it is the next token, and what is after it.
pub fn number<'a>(source: &[u8], tokens: &'a [Token]) -> Option<(NumericLiteral, &'a [Token])>
    ensures found { IfSome result (λ x. lexemes source.now tokens.now ≡ Named 1 (number_label x.0) ∷ lexemes source.now x.1.now) }
    ensures other { IfNone result (begins (1 ∷ []) (lexemes source.now tokens.now) ≡ false) }
{
    let (token, rest) = token_of(tokens, Symbol::Number)?;
    Some((NumericLiteral::of_token(source, token), rest))
}

/// The string literal that must come first, and the tokens after it.
///
/// # Errors
///
/// `Fault` with the number of all tokens, if the first one is another. `Memory` if the allocator refuses memory.
pub fn string<'a>(
    alloc: Global,
    source: &[u8],
    tokens: &'a [Token],
) -> Result<(StringLiteral, &'a [Token]), Stop>
    ensures { Gives (λ x. Named 2 (string_label x.0) ∷ []) (λ x. lexemes source.now x.1.now) result (lexemes source.now tokens.now) (any 2 (lexemes source.now tokens.now)) }
{
    let Some((token, rest)) = token_of(tokens, Symbol::StringLiteral) else {
        return Err(Stop::Fault(tokens.len()));
    };
    let literal = StringLiteral::of_token(alloc, source, token)?;
    Ok((literal, rest))
}
