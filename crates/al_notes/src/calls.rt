// Calls: the candidates, and which parameter doesn't fit.
use crate::names::head_of;
use crate::said::Said;
use crate::types::{Kind, depth_behind, mark_type, type_of_expression};
use crate::view::{Found, View};
use crate::words::is_same;
use crate::{add, note};
use al_sketch::{DeclaredKind, Sketch};

/// Says of the calls from a lexeme to the one before that why they don't fit.
pub fn check_calls(view: &View<'_>, from: usize, to: usize, said: &mut Said) {
    for index in from..to {
        let is_selector = view.sketch.is(index.saturating_sub(1), b".");
        let is_attribute = view.sketch.is(index.saturating_sub(1), b"'");
        if view.sketch.is_identifier(index) && !is_selector && !is_attribute {
            check_call(view, index, said);
        }
        if said.count() >= 3 {
            break;
        }
    }
}

fn check_call(view: &View<'_>, index: usize, said: &mut Said) {
    let (meaning, behind) = head_of(view, index);
    for found in view.declared {
        let is_subprogram = matches!(
            found.declared.kind,
            DeclaredKind::Procedure | DeclaredKind::Function | DeclaredKind::Entry
        );
        if is_subprogram && said.count() < 3 && meaning.has(view, found) {
            tell_candidate(view, found, behind, said);
        }
    }
}

// The argument of a number, from 0, in the parentheses that open at a lexeme, if there is one: its first lexeme, and the one behind its last.
fn argument_at(sketch: &Sketch, open: usize, number: usize) -> Option<(usize, usize)> {
    if !sketch.is(open, b"(") {
        return None;
    }
    let end = sketch.closing(open);
    let mut start = open.saturating_add(1);
    let mut passed = 0usize;
    let mut depth = 0usize;
    for index in start..end {
        depth = depth_behind(sketch.word(index), depth);
        if depth == 0 && sketch.is(index, b",") {
            if passed == number {
                return Some((start, index));
            }
            passed = passed.saturating_add(1);
            start = index.saturating_add(1);
        }
    }
    if passed == number {
        Some((start, end))
    } else {
        None
    }
}

/// How many arguments there are in the parentheses that open at a lexeme.
pub fn argument_count(sketch: &Sketch, open: usize) -> usize {
    let mut count = 0;
    for number in 0..sketch.len() {
        if argument_at(sketch, open, number).is_none() {
            break;
        }
        count = number.saturating_add(1);
    }
    count
}

// Whether a declaration is a formal of a subprogram.
fn is_formal_of(formal: &Found<'_>, found: &Found<'_>) -> bool {
    let (from, to) = found.declared.formals;
    let name = formal.declared.name;
    formal.declared.kind == DeclaredKind::Formal
        && is_same(formal.file, found.file)
        && from <= name
        && name < to
}

// The type of a formal and that of its argument, if these differ.
fn misfit<'a>(
    view: &View<'a>,
    formal: &'a Found<'a>,
    argument: Option<(usize, usize)>,
) -> Option<(&'a Found<'a>, Kind<'a>, Kind<'a>)> {
    let (from, to) = argument?;
    let wanted = formal_kind(view, formal);
    let given = type_of_expression(view, from, to);
    if given.differs(&wanted) {
        Some((formal, wanted, given))
    } else {
        None
    }
}

// Says why a candidate doesn't fit the arguments in the parentheses that open at a lexeme, if that is known.
fn tell_candidate<'a>(view: &View<'a>, found: &Found<'a>, open: usize, said: &mut Said) {
    let mut number = 0usize;
    let mut unfit = None;
    for formal in view.declared {
        if !is_formal_of(formal, found) {
            continue;
        }
        if unfit.is_none() {
            unfit = misfit(view, formal, argument_at(view.sketch, open, number));
        }
        number = number.saturating_add(1);
    }
    let given = argument_count(view.sketch, open);
    if given != number {
        return tell_count(found, number, given, said);
    }
    if let Some((formal, wanted, given)) = unfit {
        tell_formal(found, formal, wanted, given, said);
    }
}

fn formal_kind<'a>(view: &View<'a>, formal: &Found<'a>) -> Kind<'a> {
    if formal.mark().eq_ignore_ascii_case(b"string") {
        return Kind::Text;
    }
    mark_type(view, formal)
}

fn tell_count(found: &Found<'_>, wanted: usize, given: usize, said: &mut Said) {
    add!(said; found.name(), b" (");
    found.add_spot(said);
    said.add(b"): parameters wanted: ");
    said.add_number(wanted);
    said.add(b", found: ");
    said.add_number(given);
    said.end()
}

fn tell_formal<'a>(
    found: &Found<'a>,
    formal: &Found<'a>,
    wanted: Kind<'a>,
    given: Kind<'a>,
    said: &mut Said,
) {
    let name = found.name();
    add!(said; b"parameter ", formal.name(), b" of ", name, b" (");
    found.add_spot(said);
    note!(said; b"): wanted ", wanted.name(), b", found ", given.name());
    if let (Kind::Text, Kind::Of(of)) = (wanted, given) {
        return note!(said; b"a value is put out by its image: ", name, b" (", of.name(), b"'Image (..))");
    }
}

/// E403: the candidates, with their places.
pub fn ambiguous(view: &View<'_>, said: &mut Said) {
    let end = view.sketch.declaration_end(view.at);
    for index in view.at..end {
        let is_selector = view.sketch.is(index.saturating_sub(1), b".");
        if said.is_empty() && view.sketch.is_identifier(index) && !is_selector {
            tell_candidates(view, index, said);
        }
    }
    note!(said; b"a qualified expression chooses one: T'(..)")
}

// Says what the name that begins at a lexeme may mean, if that is more than one declaration.
fn tell_candidates(view: &View<'_>, index: usize, said: &mut Said) {
    let (meaning, _behind) = head_of(view, index);
    let mut first = None;
    for found in view.declared {
        if !meaning.has(view, found) {
            continue;
        }
        match first {
            None => first = Some(found),
            Some(one) => {
                if said.is_empty() {
                    tell_place(one, said);
                }
                tell_place(found, said);
            }
        }
    }
}

fn tell_place(found: &Found<'_>, said: &mut Said) {
    if said.count() >= 4 {
        return;
    }
    add!(said; b"candidate ", specification(found.sketch, found));
    if found.declared.kind == DeclaredKind::Literal {
        add!(said; b" of ", found.mark());
    }
    said.add(b" (");
    found.add_spot(said);
    note!(said; b")")
}

// A declaration's words up to its end, if they are on one line.
fn specification<'a>(sketch: &'a Sketch, found: &Found<'_>) -> &'a [u8] {
    let name = found.declared.name;
    if found.declared.kind == DeclaredKind::Literal {
        return sketch.word(name);
    }
    let end = match found.declared.mark {
        (_from, 0) => match found.declared.formals {
            (_first, 0) => name.saturating_add(1),
            (_first, close) => close.saturating_add(1),
        },
        (_from, to) => to,
    };
    let text = sketch.words(name.saturating_sub(1), end);
    if text.contains(&b'\n') {
        sketch.word(name)
    } else {
        text
    }
}
