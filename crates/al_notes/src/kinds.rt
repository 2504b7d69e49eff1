// E306, E308 to E310, E404 to E406: names of another kind than the one that is needed.
use crate::completions::{named_scope, what_is};
use crate::operands::check_attributes;
use crate::said::Said;
use crate::view::{Found, View};
use crate::visible::first_meant;
use crate::{add, note};
use al_sketch::{DeclaredKind, LexemeKind};

/// What is allowed there.
pub fn not_allowed(view: &View<'_>, code: u16, said: &mut Said) {
    match code {
        306 => not_here(view, said),
        308 => end_name(view, said),
        309 =>
            note!(said; b"a constant has its value where it is declared: ", view.word(), b" : constant T := ..;"),
        310 =>
            note!(said; b"a private type is complete from its full declaration in the private part on: no object of it before, and no constant"),
        _ => {}
    }
}

fn not_here(view: &View<'_>, said: &mut Said) {
    if view.sketch.is(view.at.saturating_add(1), b".") {
        return note!(said; b"a name with dots is a library unit's: inside a unit a declaration has one identifier");
    }
    for declared in view.sketch.declared() {
        if declared.name == view.at && declared.kind == DeclaredKind::Formal {
            return note!(said; b"a function's parameters are of mode in: a procedure has out parameters");
        }
    }
    note!(said; b"a stub (is separate) belongs among the declarations of a library unit's body or of a subunit, not deeper")
}

fn end_name(view: &View<'_>, said: &mut Said) {
    let Some(name) = named_scope(view) else {
        return;
    };
    add!(said; b"this ends ", view.sketch.word(name), b", which begins on line ");
    said.add_number(view.sketch.line(name) as usize);
    said.end()
}

/// What the name denotes.
pub fn wrong_kind(view: &View<'_>, said: &mut Said) {
    let last = view.sketch.name_end(view.at).saturating_sub(1);
    tell_attribute(view, last, said);
    if !said.is_empty() {
        return;
    }
    let mut has_told = tell_kind(view, last, said);
    if !has_told && last != view.at {
        has_told = tell_kind(view, view.at, said);
    }
    if !has_told {
        tell_wanted(view, said);
    }
}

// Says of an attribute behind the name that there isn't, or that it is of types.
fn tell_attribute(view: &View<'_>, last: usize, said: &mut Said) {
    let mark = last.saturating_add(1);
    let designator = mark.saturating_add(1);
    check_attributes(view, mark, designator, said);
    let is_image = view.sketch.is(mark, b"'") && view.sketch.is(designator, b"image");
    if said.is_empty() && is_image {
        if let Some(found) = first_meant(view, view.sketch.word(last)) {
            return note!(said; b"Image is an attribute of types here: ", found.mark(), b"'Image (", found.name(), b")");
        }
    }
}

fn tell_wanted(view: &View<'_>, said: &mut Said) {
    if view.sketch.kind(view.at) == Some(LexemeKind::Number) {
        return note!(said; b"an index is a range or the name of a type: array (1 .. ", view.word(), b")");
    }
    if view.sketch.is(view.at.saturating_sub(1), b":") {
        return note!(said; view.word(), b" is no type or subtype");
    }
}

fn tell_kind(view: &View<'_>, at: usize, said: &mut Said) -> bool {
    let Some(found) = first_meant(view, view.sketch.word(at)) else {
        return false;
    };
    say_is(found, what_is(found.declared.kind), said);
    true
}

// Says what a declaration is, and where.
fn say_is(found: &Found<'_>, what: &[u8], said: &mut Said) {
    add!(said; found.name(), b" is ", what, b", declared ");
    found.add_place(said);
    said.end()
}

/// Why a static expression has no value.
pub fn static_failure(said: &mut Said) {
    note!(said; b"it divides by zero, or its value lies outside its type or outside -2 ** 63 .. 2 ** 63 - 1; it is computed when the program is compiled (ARM 4.9)")
}

/// What the name is that is no variable.
pub fn not_a_variable(view: &View<'_>, said: &mut Said) {
    let Some(found) = first_meant(view, view.word()) else {
        return note!(said; b"an expression is no variable: assign it to one first");
    };
    let what: &[u8] = match found.declared.kind {
        DeclaredKind::Formal => b"a parameter of mode in",
        DeclaredKind::Component => b"a component, which a protected function may only read",
        other => what_is(other),
    };
    say_is(found, what, said);
    if found.declared.kind == DeclaredKind::Formal {
        return note!(said; b"for a value that goes out: ", found.name(), b" : in out ", found.mark());
    }
}
