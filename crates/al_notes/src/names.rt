// Of which type a name is.
use crate::types::{Kind, kind_of_type, mark_type, type_of_mark};
use crate::view::{Found, View};
use crate::visible::Meaning;
use crate::words::{is_one_of, is_same};
use al_sketch::{DeclaredKind, LexemeKind, ScopeKind};

/// A type of Standard.
pub fn standard<'a>(view: &View<'a>, name: &[u8]) -> Kind<'a> {
    kind_of_type(Meaning::Member(b"standard", name).first(view))
}

/// What the name means that begins at a lexeme, as far as its unit's name goes, and the lexeme behind.
pub fn head_of<'a>(view: &View<'a>, first: usize) -> (Meaning<'a>, usize) {
    let end = view.sketch.name_end(first);
    for dot in first..end {
        if view.sketch.is(dot, b".") {
            let member = dot.saturating_add(1);
            let unit = view.sketch.words(first, dot);
            let meaning = Meaning::Member(unit, view.sketch.word(member));
            if meaning.first(view).is_some() {
                return (meaning, member.saturating_add(1));
            }
        }
    }
    let meaning = Meaning::of(view, view.sketch.word(first));
    (meaning, first.saturating_add(1))
}

/// Of which type the name is that begins at a lexeme, and the lexeme behind it.
pub fn kind_of_name<'a>(view: &View<'a>, first: usize) -> (Kind<'a>, usize) {
    let (mut kind, mut at) = start_of_name(view, first);
    for _part in 0..32 {
        let (next, end) = part_of(view, kind, at);
        if end == at {
            break;
        }
        kind = next;
        at = end;
    }
    (kind, at)
}

// Of which type the name is that begins at a lexeme, before its components and indexes, and the lexeme behind.
fn start_of_name<'a>(view: &View<'a>, first: usize) -> (Kind<'a>, usize) {
    let (meaning, behind) = head_of(view, first);
    let kind = kind_of_all(view, &meaning);
    match meaning.first(view) {
        Some(found) if takes_parentheses(found) && view.sketch.is(behind, b"(") => {
            (kind, view.sketch.closing(behind).saturating_add(1))
        }
        _ => (kind, behind),
    }
}

/// The record, and the lexeme of the component that it hasn't got, in the name that begins at a lexeme, if there is one.
pub fn missing_component<'a>(view: &View<'a>, first: usize) -> Option<(&'a Found<'a>, usize)> {
    let (mut kind, mut at) = start_of_name(view, first);
    for _part in 0..32 {
        let name = at.saturating_add(1);
        if let Kind::Of(record) = kind {
            let is_selected = view.sketch.is(at, b".") && record.begins_with(b"record");
            if is_selected && component_of(view, record, view.sketch.word(name)).is_none() {
                return Some((record, name));
            }
        }
        let (next, end) = part_of(view, kind, at);
        if end == at {
            break;
        }
        kind = next;
        at = end;
    }
    None
}

fn takes_parentheses(found: &Found<'_>) -> bool {
    match found.declared.kind {
        DeclaredKind::Function => found.declared.formals.1 > 0,
        DeclaredKind::Type | DeclaredKind::Subtype => true,
        _ => false,
    }
}

// The type that all of these declarations have; unknown if they differ.
fn kind_of_all<'a>(view: &View<'a>, meaning: &Meaning<'_>) -> Kind<'a> {
    let mut all = None;
    for found in view.declared {
        if meaning.has(view, found) {
            let kind = kind_of_one(view, found);
            match all {
                None => all = Some(kind),
                Some(first) if kind.differs(&first) => return Kind::Unknown,
                Some(_first) => {}
            }
        }
    }
    all.unwrap_or(Kind::Unknown)
}

/// Of which type what a declaration declares is.
pub fn kind_of_one<'a>(view: &View<'a>, found: &'a Found<'a>) -> Kind<'a> {
    match found.declared.kind {
        DeclaredKind::Number => Kind::Universal,
        DeclaredKind::Type => Kind::Of(found),
        DeclaredKind::LoopParameter => kind_of_loop(view, found),
        DeclaredKind::Object | DeclaredKind::Constant if found.declared.formals.1 > 0 => {
            Kind::Array(found)
        }
        _ => mark_type(view, found),
    }
}

// The type of a loop parameter: its mark's, or Integer between two numbers.
fn kind_of_loop<'a>(view: &View<'a>, found: &Found<'a>) -> Kind<'a> {
    let start = found.declared.name.saturating_add(2);
    let first = if found.sketch.is(start, b"reverse") {
        start.saturating_add(1)
    } else {
        start
    };
    if found.sketch.kind(first) == Some(LexemeKind::Number) {
        return standard(view, b"Integer");
    }
    let end = found.sketch.name_end(first);
    let is_mark = found.sketch.is(end, b"loop") || found.sketch.is(end, b"range");
    if found.sketch.is_identifier(first) && is_mark {
        let named = type_of_mark(view, found.file, found.sketch, (first, end));
        return kind_of_type(named);
    }
    Kind::Unknown
}

// What a part after a name gives: an index, a component or an attribute; the same lexeme if there is none.
fn part_of<'a>(view: &View<'a>, kind: Kind<'a>, at: usize) -> (Kind<'a>, usize) {
    let next = at.saturating_add(1);
    if view.sketch.is(at, b"(") {
        let end = view.sketch.closing(at).saturating_add(1);
        return (element(view, kind), end);
    }
    if view.sketch.is(at, b".") {
        let name = view.sketch.word(next);
        return (component(view, kind, name), next.saturating_add(1));
    }
    if view.sketch.is(at, b"'") {
        return attribute(view, kind, next);
    }
    (kind, at)
}

// The type of an array's elements.
fn element<'a>(view: &View<'a>, kind: Kind<'a>) -> Kind<'a> {
    match kind {
        Kind::Array(found) => mark_type(view, found),
        Kind::Of(found) => {
            if found.begins_with(b"array") {
                mark_type(view, found)
            } else {
                Kind::Unknown
            }
        }
        _ => Kind::Unknown,
    }
}

// The type of a record's component.
fn component<'a>(view: &View<'a>, kind: Kind<'a>, name: &[u8]) -> Kind<'a> {
    let Kind::Of(record) = kind else {
        return Kind::Unknown;
    };
    match component_of(view, record, name) {
        Some(found) => mark_type(view, found),
        None => Kind::Unknown,
    }
}

// A record's component.
fn component_of<'a>(view: &View<'a>, record: &Found<'_>, name: &[u8]) -> Option<&'a Found<'a>> {
    for found in view.declared {
        if found.is_named(name) && is_component_of(record, found) {
            return Some(found);
        }
    }
    None
}

/// Whether a declaration is a component of a record.
pub fn is_component_of(record: &Found<'_>, found: &Found<'_>) -> bool {
    match found.sketch.scopes().get(found.declared.scope) {
        Some(scope) => {
            scope.kind == ScopeKind::Record
                && scope.name == record.declared.name
                && is_same(found.file, record.file)
        }
        None => false,
    }
}

// What an attribute or a qualified expression gives, whose designator or parenthesis is at a lexeme.
fn attribute<'a>(view: &View<'a>, kind: Kind<'a>, at: usize) -> (Kind<'a>, usize) {
    if view.sketch.is(at, b"(") {
        return (kind, view.sketch.closing(at).saturating_add(1));
    }
    let word = view.sketch.word(at);
    let behind = at.saturating_add(1);
    let end = if view.sketch.is(behind, b"(") {
        view.sketch.closing(behind).saturating_add(1)
    } else {
        behind
    };
    if word.eq_ignore_ascii_case(b"image") {
        return (Kind::Text, end);
    }
    if is_one_of(word, "pos length") {
        return (Kind::Universal, end);
    }
    if is_one_of(word, "val succ pred") || is_scalar(&kind) {
        return (kind, end);
    }
    (Kind::Unknown, end)
}

// Whether First and Last of a type are of the type itself.
fn is_scalar(kind: &Kind<'_>) -> bool {
    match kind {
        Kind::Of(found) => !found.begins_with(b"array"),
        _ => false,
    }
}
