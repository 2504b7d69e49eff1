// The words of a unit's source.
ghost use Rattle.std.specs.Prelude.{◌≡◌, ◌≤◌, [], length, map, IfOk, OnOk};
ghost use Rattle.std.specs.Str.{bytes_eq};
ghost use Rattle.std.specs.Char.{to_ascii_lowercase};
ghost use Rattle.indexmap.specs.IndexSet.{insert_all, insert_key};
ghost use Rattle.al_query_outcome.specs.Words.{word_of, words_of};

use crate::NameSet;
use al_base::{Name, NoMemory};
use al_lex::{LexError, Token, lex};
use al_tree::text_of;
use std::alloc::Global;

/// The source of a token, in lower case.
fn word_of(alloc: Global, text: &[u8], token: &Token) -> Result<Name, NoMemory>
    ensures { IfOk result (λ word. word ≡ word_of text.now token.now) }
{
    let word = text_of(text, &token.span).to_ascii_lowercase(alloc)?;
    Ok(Name::new(word))
}

fn words_in(alloc: Global, text: &[u8], tokens: &[Token]) -> Result<NameSet, NoMemory>
    ensures { IfOk result (λ words. words ≡ insert_all bytes_eq [] (map (word_of text.now) tokens.now)) }
{
    let mut words = NameSet::new(alloc);
    for token in tokens {
        let word = word_of(alloc, text, token)?;
        words.insert(word)?;
    }
    Ok(words)
}

/// The words of a unit's source in lower case, each once. A source with a lexical error has none.
#[tactic(auto, unfolding(al_query_outcome::specs::Words::words_of))]
pub(crate) fn words_of(alloc: Global, text: &[u8]) -> Result<NameSet, NoMemory>
    requires { length text.now ≤ 4294967294 }
    ensures { IfOk result (λ words. words ≡ words_of text.now) }
{
    match lex(alloc, text) {
        Ok(tokens) => words_in(alloc, text, tokens.as_slice()),
        Err(LexError::Fault(_)) => Ok(NameSet::new(alloc)),
        Err(LexError::NoMemory) => Err(NoMemory),
    }
}

/// These words, then the names that aren't among them.
#[tactic(auto, using(crate::proofs::WordLemmas::names_more))]
pub(crate) fn with_names(alloc: Global, words: NameSet, more: &[Name]) -> Result<NameSet, NoMemory>
    ensures { IfOk result (λ names. names ≡ insert_all bytes_eq words more.now) }
{
    let mut names = words;
    for name in more {
        let name = Name::from_slice(alloc, name.as_slice())?;
        names.insert(name)?;
    }
    Ok(names)
}
