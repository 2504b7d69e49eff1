// Which construct is at a syntax error.
use crate::patterns::{Inside, Pattern};
use al_sketch::{LexemeKind, ScopeKind, Sketch};

/// What the first pattern tells that fits at the lexeme of a syntax error.
pub fn told_by(patterns: &[Pattern], sketch: &Sketch, fault: usize) -> Option<&'static str> {
    if fault >= sketch.len() {
        return None;
    }
    let parenthesis = parenthesis_at(sketch, fault);
    for pattern in patterns {
        let fits = fits(pattern, sketch, fault);
        if fits && is_inside(pattern.inside, parenthesis, sketch, fault) {
            return Some(pattern.says);
        }
    }
    None
}

// Whether the lexemes round the error are those.
fn fits(pattern: &Pattern, sketch: &Sketch, fault: usize) -> bool {
    if !may_begin(pattern.at, sketch.word(fault)) || !are_words(sketch, fault, pattern.at) {
        return false;
    }
    match fault.checked_sub(pattern.before.split_whitespace().count()) {
        Some(first) => are_words(sketch, first, pattern.before),
        None => false,
    }
}

// Whether a lexeme may be the first of these words, by its first letter; the words for kinds of lexemes are in capitals.
fn may_begin(words: &str, lexeme: &[u8]) -> bool {
    match (words.as_bytes().first(), lexeme.first()) {
        (Some(one), Some(other)) => {
            one.is_ascii_uppercase() || *one == other.to_ascii_lowercase()
        }
        _ => words.is_empty(),
    }
}

// Whether the lexemes from one on are these words.
fn are_words(sketch: &Sketch, first: usize, words: &str) -> bool {
    let mut at = first;
    for word in words.split_whitespace() {
        if !is_word(sketch, at, word) {
            return false;
        }
        at = at.saturating_add(1);
    }
    true
}

fn is_word(sketch: &Sketch, index: usize, word: &str) -> bool {
    match word {
        "ID" => sketch.is_identifier(index),
        "LONG" => sketch.is_identifier(index) && sketch.word(index).len() > 1,
        "NUM" => sketch.kind(index) == Some(LexemeKind::Number),
        "STR" => sketch.kind(index) == Some(LexemeKind::Text),
        "BAR" => sketch.is(index, b"|"),
        _ => sketch.is(index, word.as_bytes()),
    }
}

// What the innermost parenthesis is that is open before a lexeme.
fn parenthesis_at(sketch: &Sketch, index: usize) -> Option<Inside> {
    let open = sketch.open_parenthesis(index)?;
    let before = open.checked_sub(1)?;
    if sketch.is(before, b"array") {
        return Some(Inside::Index);
    }
    if sketch.is(before, b")") {
        return Some(Inside::Call);
    }
    if !sketch.is_identifier(before) && sketch.kind(before) != Some(LexemeKind::Text) {
        return Some(Inside::Aggregate);
    }
    let first = sketch.name_start(before);
    let word = sketch.word(first.saturating_sub(1));
    if word.eq_ignore_ascii_case(b"pragma") {
        return Some(Inside::Pragma);
    }
    let is_specification = word.eq_ignore_ascii_case(b"procedure")
        || word.eq_ignore_ascii_case(b"function")
        || word.eq_ignore_ascii_case(b"entry");
    if is_specification {
        Some(Inside::Formals)
    } else {
        Some(Inside::Call)
    }
}

fn is_inside(inside: Inside, parenthesis: Option<Inside>, sketch: &Sketch, fault: usize) -> bool {
    let number = sketch.scope_at(fault);
    let kind = match sketch.scope(number) {
        Some(scope) => scope.kind,
        None => ScopeKind::Text,
    };
    match inside {
        Inside::Anywhere => true,
        Inside::AfterUnit => kind == ScopeKind::Text && is_behind_unit(sketch, fault),
        Inside::Record => kind == ScopeKind::Record && parenthesis.is_none(),
        Inside::Protected => kind == ScopeKind::Protected && parenthesis.is_none(),
        Inside::ProtectedBody => is_protected_body(sketch, number) && parenthesis.is_none(),
        Inside::Package => is_in_package(sketch, number),
        Inside::Statements => sketch.is_among_statements(fault),
        Inside::Declarations => {
            parenthesis.is_none()
                && !sketch.is_among_statements(fault)
                && !matches!(kind, ScopeKind::Record | ScopeKind::Protected)
        }
        Inside::Formals | Inside::Call | Inside::Aggregate | Inside::Pragma | Inside::Index => {
            parenthesis == Some(inside)
        }
    }
}

// Whether a scope is right in the declaration of a package.
fn is_in_package(sketch: &Sketch, number: usize) -> bool {
    match sketch.scope(number) {
        Some(scope) => match sketch.scope(scope.parent) {
            Some(parent) => parent.kind == ScopeKind::Package,
            None => false,
        },
        None => false,
    }
}

fn is_protected_body(sketch: &Sketch, number: usize) -> bool {
    match sketch.scope(number) {
        Some(scope) => {
            scope.kind == ScopeKind::PackageBody && sketch.is(scope.start, b"protected")
        }
        None => false,
    }
}

// Whether the source's unit ends before a lexeme.
fn is_behind_unit(sketch: &Sketch, fault: usize) -> bool {
    match sketch.scopes().get(1) {
        Some(unit) => unit.end <= fault,
        None => false,
    }
}
