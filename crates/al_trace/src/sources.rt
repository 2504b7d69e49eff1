// Names of tasks and protected objects, as their sources have them: an image has numbers alone.
use al_base::NoMemory;
use al_lex::{Kind, LexError, Token, lex};
use std::alloc::Global;

/// The lexemes of a source.
#[derive(Drop)]
pub struct Lexemes<'a> {
    text: &'a [u8],
    tokens: Vec<Token>,
}

impl<'a> Lexemes<'a> {
    /// The lexemes of a source; none if it has a lexical error.
    ///
    /// # Errors
    ///
    /// `NoMemory` if memory runs out.
    pub fn of(alloc: Global, text: &'a [u8]) -> Result<Lexemes<'a>, NoMemory> {
        let tokens = tokens_of(alloc, text)?;
        Ok(Lexemes { text, tokens })
    }

    /// The number of the lexeme that is the name of the last body of a task that begins on this line or before it.
    pub fn task_before(&self, line: u32) -> Option<usize> {
        self.body_before("task", line)
    }

    /// The number of the lexeme that is the name of the last body of a protected object that begins on this line or before it.
    pub fn object_before(&self, line: u32) -> Option<usize> {
        self.body_before("protected", line)
    }

    // The number of the name of the last body that begins with this word, on this line or before it.
    fn body_before(&self, word: &str, line: u32) -> Option<usize> {
        let mut found = None;
        for at in 2..self.tokens.len() {
            let begins = self.tokens[at - 2].span.place.line <= line;
            if begins && self.is_word(at - 2, word) && self.is_word(at - 1, "body") {
                found = Some(at);
            }
        }
        found
    }

    /// The numbers of the first lexeme of the barrier of the first entry body after a lexeme, and of the lexeme behind that barrier.
    pub fn barrier_after(&self, from: usize) -> Option<(usize, usize)> {
        let entry = self.word_after(from, "entry")?;
        let when = self.word_after(entry, "when")?;
        let end = self.word_after(when, "is")?;
        Some((when.saturating_add(1), end))
    }

    /// The number of the name of the first entry body after a lexeme.
    pub fn entry_after(&self, from: usize) -> Option<usize> {
        let entry = self.word_after(from, "entry")?;
        Some(entry.saturating_add(1))
    }

    // The number of the first lexeme that is this reserved word, from one lexeme on.
    fn word_after(&self, from: usize, word: &str) -> Option<usize> {
        for at in from..self.tokens.len() {
            if self.is_word(at, word) {
                return Some(at);
            }
        }
        None
    }

    // Whether a lexeme is this reserved word.
    fn is_word(&self, at: usize, word: &str) -> bool {
        let Some(token) = self.tokens.get(at) else {
            return false;
        };
        match token.kind {
            Kind::Reserved(_) => self.spelling(at).eq_ignore_ascii_case(word),
            _ => false,
        }
    }

    /// How a lexeme is written.
    pub fn spelling(&self, at: usize) -> &'a str {
        let Some(token) = self.tokens.get(at) else {
            return "-";
        };
        let start = token.span.start as usize;
        match self.text.get(start..start + token.span.len as usize) {
            Some(bytes) => text_of(bytes),
            None => "-",
        }
    }
}

// Bytes as text.
fn text_of(bytes: &[u8]) -> &str {
    match std::str::from_utf8(bytes) {
        Ok(text) => text,
        Err(_) => "-",
    }
}

// The lexemes of a source; none if it has a lexical error.
fn tokens_of(alloc: Global, text: &[u8]) -> Result<Vec<Token>, NoMemory> {
    if text.len() > 4294967294 {
        return Ok(Vec::new(alloc));
    }
    match lex(alloc, text) {
        Ok(tokens) => Ok(tokens),
        Err(LexError::NoMemory) => Err(NoMemory),
        Err(LexError::Fault(_)) => Ok(Vec::new(alloc)),
    }
}
