//! Cuts a source into tokens.
//!
//! `lexed` (`specs/Tokens.antt`) is what a source means: its tokens, or its first fault; `lex` computes it, and `end_place`
//! the place after the source. `specs/Shapes.antt` says what words, numbers, strings, delimiters, comments and line ends
//! are as whole lists of bytes. The functions of `laws` have no code: their contracts say that a source is cut in one way
//! into pieces, each the longest of any sort that begins where the one before ended.
//!
//! A *piece* is a lexeme or what separates lexemes; a *token* is a lexeme with its kind and its span.
//!
//! - `lexing`, `pieces`: tokens, and the piece at the beginning of a source.
//! - `words`, `numbers`, `strings`, `delimiter`, `bytes`: pieces by their sort.
#![tactic(auto)]

mod bytes;
mod delimiter;
mod laws;
mod lexing;
mod numbers;
mod pieces;
mod strings;
mod token;
mod words;

pub use delimiter::Delimiter;
pub use laws::{pieces_are_longest, places_rise, texts_are_cut, tokens_lie_in_text};
pub use lexing::{end_place, lex};
pub use numbers::number_value;
pub use token::{Kind, LexCode, LexError, LexFault, Token};
