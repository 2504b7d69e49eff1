// Which lexemes are possible, in words.
use crate::grammar::Grammar;
use crate::reading::Wanted;
use std::alloc::{AllocError, Global};

/// How many words there are at most.
const MOST: usize = 5;

// What lexemes of these have one word for them all, where both of the first two are among them.
#[derive(Clone, Copy)]
struct Group {
    word: &'static str,
    both: (&'static str, &'static str),
    members: &'static str,
}

static GROUPS: [Group; 5] = [
    Group {
        word: "a statement",
        both: ("exit", "delay"),
        members: "ID null return exit delay if case loop while for declare begin",
    },
    Group {
        word: "a declaration",
        both: ("subtype", "pragma"),
        members: "ID type subtype use pragma procedure function task protected",
    },
    Group {
        word: "an expression",
        both: ("NUM", "STR"),
        members: "ID NUM STR ( + - abs not",
    },
    Group {
        word: "an operator",
        both: ("*", "/"),
        members: "* / mod rem ** + - & = /= < <= > >= in not and or xor",
    },
    Group {
        word: "a library unit",
        both: ("package", "separate"),
        members: "package separate private procedure function",
    },
];

// The order of words; the others come after these.
const FIRST: &str = "; ) , := => .. : is then loop of in until return when begin end";

// How a name goes on, which is added only if nothing else is.
const LAST: &str = ". ( '";

/// The possible lexemes, as `; or :=`; at most five words, in an order that a reader looks for.
///
/// # Errors
///
/// If out of memory.
pub fn phrase(alloc: Global, grammar: &Grammar, wanted: &Wanted) -> Result<String, AllocError> {
    let words = words_of(alloc, grammar, wanted)?;
    let shown = words.len().min(MOST);
    let mut text = String::new(alloc);
    for (number, word) in words.iter().enumerate() {
        if number >= shown {
            break;
        }
        if number > 0 {
            let is_last = number.saturating_add(1) == shown;
            text.push_str(if is_last { " or " } else { ", " })?;
        }
        text.push_str(plain(word))?;
    }
    Ok(text)
}

// The possible lexemes, a word for each group.
fn words_of(
    alloc: Global,
    grammar: &Grammar,
    wanted: &Wanted,
) -> Result<Vec<&'static str>, AllocError> {
    let mut left = wanted.lexemes.clone()?;
    let mut words: Vec<&'static str> = Vec::new(alloc);
    let mut groups: Vec<&'static str> = Vec::new(alloc);
    for group in &GROUPS {
        if has(grammar, &left, group.both.0) && has(grammar, &left, group.both.1) {
            clear(grammar, &mut left, group.members);
            groups.push(group.word)?;
        }
    }
    add_named(grammar, &mut left, FIRST, &mut words)?;
    for group in groups.iter() {
        words.push(*group)?;
    }
    let is_bare = words.is_empty();
    add_others(grammar, &left, is_bare, &mut words)?;
    Ok(words)
}

fn has(grammar: &Grammar, lexemes: &Vec<bool>, word: &str) -> bool {
    match grammar.lexeme_of(word.as_bytes()) {
        Some(number) => lexemes.get(number).copied().unwrap_or(false),
        None => false,
    }
}

fn clear(grammar: &Grammar, lexemes: &mut Vec<bool>, members: &str) {
    for word in members.split_whitespace() {
        if let Some(number) = grammar.lexeme_of(word.as_bytes()) {
            if let Some(wanted) = lexemes.get_mut(number) {
                *wanted = false;
            }
        }
    }
}

// Adds those of these words that are possible.
fn add_named(
    grammar: &Grammar,
    left: &mut Vec<bool>,
    named: &'static str,
    words: &mut Vec<&'static str>,
) -> Result<(), AllocError> {
    for word in named.split_whitespace() {
        if has(grammar, left, word) {
            clear(grammar, left, word);
            words.push(word)?;
        }
    }
    Ok(())
}

// Adds what is left; how a name goes on only if nothing else is there.
fn add_others(
    grammar: &Grammar,
    left: &Vec<bool>,
    is_bare: bool,
    words: &mut Vec<&'static str>,
) -> Result<(), AllocError> {
    for (number, word) in grammar.lexemes().iter().enumerate() {
        let is_wanted = left.get(number).copied().unwrap_or(false);
        if is_wanted && (is_bare || !is_last(word)) {
            words.push(*word)?;
        }
    }
    Ok(())
}

// Whether a lexeme is how a name goes on.
fn is_last(word: &str) -> bool {
    for last in LAST.split_whitespace() {
        if last == word {
            return true;
        }
    }
    false
}

fn plain(word: &'static str) -> &'static str {
    match word {
        "ID" => "an identifier",
        "NUM" => "a number",
        "STR" => "a string",
        "BAR" => "|",
        "," => "a comma",
        _ => word,
    }
}
