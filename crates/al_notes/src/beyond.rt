// E101: what isn't in the subset, and what is possible there.
use crate::lexical::tell_construct;
use crate::near::Nearest;
use crate::said::Said;
use crate::view::View;
use crate::visible::Meaning;
use crate::{add, note};
use al_base::reserved_word;
use al_expected::{Grammar, Wanted, phrase, wanted_at};
use al_sketch::{ScopeKind, Sketch};
use std::alloc::AllocError;

/// What the syntax error is, as far as its lexemes tell, and what is possible there.
pub fn syntax(view: &View<'_>, said: &mut Said) {
    if let Some(mistake) = view.subset.mistake_at(view.sketch, view.at) {
        note!(said; mistake.as_bytes());
    } else if let Some(construct) = view.subset.construct_at(view.sketch, view.at) {
        tell_construct(&construct, said);
    }
    if let Some(grammar) = view.grammar {
        expected(view, grammar, said);
    }
}

fn expected(view: &View<'_>, grammar: &Grammar, said: &mut Said) {
    let Some(wanted) = said.made(wanted_at(view.alloc, grammar, view.sketch)) else {
        return;
    };
    match &wanted {
        Some(wanted) if wanted.fault == view.at => tell_wanted(view, grammar, wanted, said),
        // The rules go on there: so it is the nesting that has no room.
        _ =>
            note!(said; b"64 parentheses and constructs that end closes are open here, and no more may be"),
    }
}

fn tell_wanted(view: &View<'_>, grammar: &Grammar, wanted: &Wanted, said: &mut Said) {
    if said.is_empty() {
        tell_assignment(view, grammar, wanted, said);
        tell_near(view, grammar, wanted, said);
    }
    if let Some(word) = word_before(grammar, view.sketch, wanted) {
        say_before(view, word, said);
    }
    tell_open(view, said);
    let Some(words) = said.made(phrase(view.alloc, grammar, wanted)) else {
        return;
    };
    if words.is_empty() {
        note!(said; b"expected the end of the source")
    } else {
        note!(said; b"expected ", words.as_bytes())
    }
}

// Says that a condition has no assignment.
fn tell_assignment(view: &View<'_>, grammar: &Grammar, wanted: &Wanted, said: &mut Said) {
    let is_condition = is_possible(grammar, wanted, "then") || is_possible(grammar, wanted, "loop");
    if is_condition && view.sketch.is(view.at, b":=") {
        note!(said; b"equality is written =, and := assigns")
    }
}

// Says which reserved word is nearly the one at the error, or else the one before it.
fn tell_near(view: &View<'_>, grammar: &Grammar, wanted: &Wanted, said: &mut Said) {
    if !tell_near_at(view, grammar, view.at, Some(wanted), said) {
        let _is_near = tell_near_at(view, grammar, view.at.saturating_sub(1), None, said);
    }
}

fn tell_near_at(
    view: &View<'_>,
    grammar: &Grammar,
    at: usize,
    wanted: Option<&Wanted>,
    said: &mut Said,
) -> bool {
    let Some(word) = said.made_some(near_word(view, grammar, at, wanted)) else {
        return false;
    };
    note!(said; b"did you mean ", word.as_slice(), b", for ", view.sketch.word(at), b"?");
    true
}

// The reserved word that is nearly an identifier without a declaration: one that is possible at the error, or any.
fn near_word(
    view: &View<'_>,
    grammar: &Grammar,
    at: usize,
    wanted: Option<&Wanted>,
) -> Result<Option<Vec<u8>>, AllocError> {
    let word = view.sketch.word(at);
    if !view.sketch.is_identifier(at) || Meaning::of(view, word).first(view).is_some() {
        return Ok(None);
    }
    let mut nearest = Nearest::to(view.alloc, word)?;
    for (number, lexeme) in grammar.lexemes().iter().enumerate() {
        let is_one = match wanted {
            Some(wanted) => wanted.lexemes.get(number).copied().unwrap_or(false),
            None => true,
        };
        if is_one && reserved_word(lexeme.as_bytes()).is_some() {
            nearest.see(lexeme.as_bytes());
        }
    }
    nearest.into_name()
}

// Says which construct is still open, if `end` is before the error.
fn tell_open(view: &View<'_>, said: &mut Said) {
    let end = view.at.saturating_sub(1);
    if view.at == 0 || !view.sketch.is(end, b"end") {
        return;
    }
    let number = view.sketch.scope_at(end);
    let Some(scope) = view.sketch.scopes().get(number) else {
        return;
    };
    if !matches!(scope.kind, ScopeKind::Block | ScopeKind::Record) {
        return;
    }
    add!(said; b"this ends the ", view.sketch.word(scope.start), b" of line ");
    said.add_number(view.sketch.line(scope.start) as usize);
    note!(said; b", which is still open here");
    if has_else_if(view.sketch, scope.start, end) {
        note!(said; b"else if opens an if of its own, with an end if of its own: the word is elsif")
    }
}

// Whether `else if` is among some lexemes.
fn has_else_if(sketch: &Sketch, from: usize, to: usize) -> bool {
    for index in from..to {
        if sketch.is(index, b"if") && sketch.is(index.saturating_sub(1), b"else") {
            return true;
        }
    }
    false
}

// The word that is missing at the end of the line before, if the error begins a line.
fn word_before(grammar: &Grammar, sketch: &Sketch, wanted: &Wanted) -> Option<&'static str> {
    let before = wanted.fault.checked_sub(1)?;
    if sketch.line(before) == sketch.line(wanted.fault) {
        return None;
    }
    if sketch.is(wanted.fault, b"begin") && is_possible(grammar, wanted, "is") {
        return Some("is");
    }
    if is_possible(grammar, wanted, ";") {
        return Some(";");
    }
    if is_possible(grammar, wanted, "then") {
        return Some("then");
    }
    // A statement may begin with this word too.
    if is_possible(grammar, wanted, "loop") && !is_possible(grammar, wanted, "exit") {
        return Some("loop");
    }
    None
}

// Whether a lexeme is possible at the error.
fn is_possible(grammar: &Grammar, wanted: &Wanted, word: &str) -> bool {
    match grammar.lexeme_of(word.as_bytes()) {
        Some(lexeme) => wanted.lexemes.get(lexeme).copied().unwrap_or(false),
        None => false,
    }
}

fn say_before(view: &View<'_>, word: &str, said: &mut Said) {
    add!(said; word.as_bytes(), b" is wanted at the end of line ");
    said.add_number(view.sketch.line(view.at.saturating_sub(1)) as usize);
    said.end()
}
