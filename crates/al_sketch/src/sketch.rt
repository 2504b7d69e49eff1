// A source, cut and read.
use crate::cursor::Cursor;
use crate::declared::Declared;
use crate::lexeme::{Lexeme, LexemeKind};
use crate::scanning::Scan;
use crate::scope::Scope;
use std::alloc::{AllocError, Global};

/// A source with its lexemes and its declarations.
pub struct Sketch {
    text: Vec<u8>,
    lexemes: Vec<Lexeme>,
    scopes: Vec<Scope>,
    declared: Vec<Declared>,
}

impl Drop for Sketch {
    fn drop(self) {
        let Sketch {
            text: _,
            lexemes: _,
            scopes: _,
            declared: _,
        } = self;
    }
}

fn lexemes_of(alloc: Global, text: &[u8]) -> Result<Vec<Lexeme>, AllocError> {
    let mut lexemes = Vec::new(alloc);
    let mut cursor = Cursor::front(text);
    for _piece in 0..text.len() {
        if cursor.at >= text.len() {
            break;
        }
        let (lexeme, next) = cursor.step(text);
        if let Some(lexeme) = lexeme {
            lexemes.push(lexeme)?;
        }
        cursor = next;
    }
    Ok(lexemes)
}

impl Sketch {
    /// The sketch of a source.
    ///
    /// # Errors
    ///
    /// If out of memory.
    pub fn of(alloc: Global, text: &[u8]) -> Result<Sketch, AllocError> {
        let lexemes = lexemes_of(alloc, text)?;
        let text = Vec::from_slice(alloc, text)?;
        let mut sketch = Sketch {
            text,
            lexemes,
            scopes: Vec::new(alloc),
            declared: Vec::new(alloc),
        };
        let (scopes, declared) = Scan::over(alloc, &sketch)?;
        sketch.scopes = scopes;
        sketch.declared = declared;
        Ok(sketch)
    }

    /// How many lexemes there are.
    pub fn len(&self) -> usize {
        self.lexemes.len()
    }

    /// Whether the source has no lexeme.
    pub fn is_empty(&self) -> bool {
        self.lexemes.is_empty()
    }

    /// The lexeme of a number, from 0.
    pub fn lexeme(&self, index: usize) -> Option<Lexeme> {
        self.lexemes.get(index).copied()
    }

    /// The bytes of a lexeme, as they are written; none past the last one.
    pub fn word(&self, index: usize) -> &[u8] {
        match self.lexemes.get(index) {
            Some(lexeme) => self.text.get(lexeme.start..lexeme.end).unwrap_or(&[]),
            None => &[],
        }
    }

    /// Whether a lexeme is this word or delimiter, in any case of letters.
    pub fn is(&self, index: usize, word: &[u8]) -> bool {
        self.word(index).eq_ignore_ascii_case(word)
    }

    /// Whether a lexeme is an identifier.
    pub fn is_identifier(&self, index: usize) -> bool {
        self.kind(index) == Some(LexemeKind::Identifier)
    }

    /// What a lexeme is.
    pub fn kind(&self, index: usize) -> Option<LexemeKind> {
        Some(self.lexemes.get(index)?.kind)
    }

    /// The line of a lexeme; 0 past the last one.
    pub fn line(&self, index: usize) -> u32 {
        match self.lexemes.get(index) {
            Some(lexeme) => lexeme.line,
            None => 0,
        }
    }

    /// The bytes from a lexeme to the one before that, as they are written.
    pub fn words(&self, from: usize, to: usize) -> &[u8] {
        let Some(first) = self.lexemes.get(from) else {
            return &[];
        };
        let Some(last) = self.lexemes.get(to.saturating_sub(1)) else {
            return &[];
        };
        self.text.get(first.start..last.end).unwrap_or(&[])
    }

    /// The source.
    pub fn text(&self) -> &[u8] {
        self.text.as_slice()
    }

    /// Its scopes, the source's first.
    pub fn scopes(&self) -> &[Scope] {
        self.scopes.as_slice()
    }

    /// What it declares, in the order of the source.
    pub fn declared(&self) -> &[Declared] {
        self.declared.as_slice()
    }
}
