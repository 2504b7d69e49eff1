// The lexemes of a project file, one after the other.
use crate::project::{ProjectError, ProjectFault};
use al_base::{Place, ReservedWord};
use al_lex::{Delimiter, Kind, Token};
use std::alloc::Global;

/// The lexemes of a text, and how many of them are read.
pub struct Parts<'a> {
    pub alloc: Global,
    pub text: &'a [u8],
    pub tokens: &'a [Token],
    pub next: usize,
    /// Where the text ends.
    pub end: Place,
}

impl Drop for Parts<'_> {
    fn drop(self) {
        let Parts {
            alloc: _,
            text: _,
            tokens: _,
            next: _,
            end: _,
        } = self;
    }
}

impl<'a> Parts<'a> {
    /// The next lexeme.
    pub fn peek(&self) -> Option<Token> {
        self.tokens.get(self.next).copied()
    }

    /// The next lexeme, which is read then.
    pub fn take(&mut self) -> Option<Token> {
        let token = self.peek()?;
        self.next = self.next.saturating_add(1);
        Some(token)
    }

    /// The place of the next lexeme.
    pub fn place(&self) -> Place {
        match self.peek() {
            Some(token) => token.span.place,
            None => self.end,
        }
    }

    /// An error at the place of the next lexeme.
    ///
    /// # Errors
    ///
    /// Always: a `Fault` with this message.
    pub fn fault<T>(&self, message: &'static str) -> Result<T, ProjectError> {
        Err(ProjectError::Fault(ProjectFault {
            place: self.place(),
            message,
        }))
    }

    /// The bytes of a lexeme.
    pub fn spelling(&self, token: Token) -> &'a [u8] {
        let start = token.span.start as usize;
        match self
            .text
            .get(start..start.saturating_add(token.span.len as usize))
        {
            Some(bytes) => bytes,
            None => &[],
        }
    }

    /// Whether the next lexeme is this delimiter, which is read then.
    pub fn has(&mut self, wanted: Delimiter) -> bool {
        match self.peek() {
            Some(token) => match token.kind {
                Kind::Delimiter(found) if found as u8 == wanted as u8 => {
                    self.next = self.next.saturating_add(1);
                    true
                }
                _ => false,
            },
            None => false,
        }
    }

    /// Whether the next lexeme is this word, which is read then.
    pub fn has_word(&mut self, wanted: ReservedWord) -> bool {
        match self.peek() {
            Some(token) => match token.kind {
                Kind::Reserved(found) if found as u8 == wanted as u8 => {
                    self.next = self.next.saturating_add(1);
                    true
                }
                _ => false,
            },
            None => false,
        }
    }

    /// The next lexeme, which is a name.
    ///
    /// # Errors
    ///
    /// A `Fault` with this message, if the next lexeme is no name.
    pub fn name(&mut self, message: &'static str) -> Result<&'a [u8], ProjectError> {
        match self.peek() {
            Some(token) if matches!(token.kind, Kind::Identifier) => {
                self.next = self.next.saturating_add(1);
                Ok(self.spelling(token))
            }
            _ => self.fault(message),
        }
    }
}
