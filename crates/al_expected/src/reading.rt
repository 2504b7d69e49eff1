// Reading a source along the rules.
use crate::grammar::{Grammar, Part};
use al_sketch::{LexemeKind, Sketch};
use std::alloc::{AllocError, Global};

/// The lexeme at which a source leaves the rules, and which lexemes are possible there.
pub struct Wanted {
    /// The lexeme; how many there are, if the source ends too soon.
    pub fault: usize,
    /// Which lexemes are possible there, by the numbers of the grammar.
    pub lexemes: Vec<bool>,
}

impl Drop for Wanted {
    fn drop(self) {
        let Wanted {
            fault: _,
            lexemes: _,
        } = self;
    }
}

/// At which lexeme a source leaves the rules, and which lexemes are possible there; none if it doesn't.
///
/// # Errors
///
/// If out of memory.
pub fn wanted_at(
    alloc: Global,
    grammar: &Grammar,
    sketch: &Sketch,
) -> Result<Option<Wanted>, AllocError> {
    let mut open = Vec::new(alloc);
    open.push(Part::Rule(0))?;
    for index in 0..sketch.len() {
        let lexeme = lexeme_at(grammar, sketch, index);
        if !can_take(grammar, open.as_slice(), lexeme) {
            return Ok(Some(found_wanted(alloc, grammar, open.as_slice(), index)?));
        }
        take(grammar, &mut open, lexeme)?;
    }
    if can_end(grammar, open.as_slice()) {
        return Ok(None);
    }
    Ok(Some(found_wanted(alloc, grammar, open.as_slice(), sketch.len())?))
}

// The number of a lexeme; past all of them where the rules don't have it.
fn lexeme_at(grammar: &Grammar, sketch: &Sketch, index: usize) -> usize {
    let word: &[u8] = match sketch.kind(index) {
        Some(LexemeKind::Identifier) => b"ID",
        Some(LexemeKind::Number) => b"NUM",
        Some(LexemeKind::Text) => b"STR",
        _ if sketch.is(index, b"|") => b"BAR",
        _ => sketch.word(index),
    };
    grammar.lexeme_of(word).unwrap_or(usize::MAX)
}

// Whether what is open, the innermost last, goes on with a lexeme.
fn can_take(grammar: &Grammar, open: &[Part], lexeme: usize) -> bool {
    for part in open.iter().rev() {
        if grammar.begins(*part, lexeme) {
            return true;
        }
        if !grammar.is_empty(*part) {
            return false;
        }
    }
    false
}

// Whether the source may end there.
fn can_end(grammar: &Grammar, open: &[Part]) -> bool {
    for part in open {
        if !grammar.is_empty(*part) {
            return false;
        }
    }
    true
}

// Goes past a lexeme that is possible there. Rules nest no deeper than there are rules before a lexeme of theirs.
fn take(grammar: &Grammar, open: &mut Vec<Part>, lexeme: usize) -> Result<(), AllocError> {
    for _step in 0..10_000 {
        let Some(part) = open.pop() else {
            return Ok(());
        };
        let rule = match part {
            Part::Lexeme(_number) => return Ok(()),
            Part::Rule(rule) => rule,
        };
        if let Some(alternative) = grammar.alternative_for(rule, lexeme) {
            for part in grammar.parts(rule, alternative).iter().rev() {
                open.push(*part)?;
            }
        }
    }
    Ok(())
}

fn found_wanted(
    alloc: Global,
    grammar: &Grammar,
    open: &[Part],
    fault: usize,
) -> Result<Wanted, AllocError> {
    let mut lexemes = Vec::new(alloc);
    for lexeme in 0..grammar.lexemes().len() {
        lexemes.push(can_take(grammar, open, lexeme))?;
    }
    Ok(Wanted { fault, lexemes })
}
