// E304 and E305: static expressions and bounds.
use crate::said::Said;
use crate::types::named_by_mark;
use crate::view::{Found, View};
use crate::visible::first_meant;
use crate::{add, note};
use al_sketch::DeclaredKind;

/// What a static expression may have, and what the name there is.
pub fn not_static(view: &View<'_>, said: &mut Said) {
    if let Some(found) = first_meant(view, view.word()) {
        let what: &[u8] = match found.declared.kind {
            DeclaredKind::Function => b" is a function, declared ",
            DeclaredKind::Constant => b" is a constant whose value isn't static, declared ",
            DeclaredKind::Object | DeclaredKind::Formal => b" is a variable, declared ",
            _ => b" is declared ",
        };
        add!(said; found.name(), what);
        found.add_place(said);
        said.end();
    }
    note!(said; b"static are literals, named numbers, constants with a static value, attributes of static subtypes, and predefined operators of them (ARM 4.9)")
}

/// The bounds that are to be kept.
pub fn out_of_limits(view: &View<'_>, said: &mut Said) {
    let arrow = view.at.saturating_sub(1);
    if view.at > 1 && view.sketch.is(arrow, b"=>") {
        return note!(said; b"priorities are 0 to 30 (System.Priority); interrupt priorities aren't in this subset of Ada");
    }
    for declared in view.sketch.declared() {
        if declared.name == view.at && declared.kind == DeclaredKind::Type {
            return note!(said; b"a value of a type has at most 4096 words, 8 bytes each, all components together");
        }
    }
    if let Some(parent) = parent_of_range(view) {
        return tell_bounds(parent, said);
    }
    note!(said; b"a value of an object has at most 4096 words, 8 bytes each; bounds of integer types go from -2 ** 63 to 2 ** 63 - 1")
}

// The subtype with bounds whose range is constrained at the place: the one before `range`, or one that it is of.
fn parent_of_range<'a>(view: &View<'a>) -> Option<&'a Found<'a>> {
    let Some(range) = range_before(view) else {
        return None;
    };
    let first = view.sketch.name_start(range.saturating_sub(1));
    let mut found = named_by_mark(view, view.file, view.sketch, (first, range));
    for _subtype in 0..16 {
        let Some(named) = found else {
            break;
        };
        if range_in(named).is_some() {
            return Some(named);
        }
        if named.declared.mark.1 == 0 {
            break;
        }
        found = named_by_mark(view, named.file, named.sketch, named.declared.mark);
    }
    None
}

// The `range` before the place, in its declaration.
fn range_before(view: &View<'_>) -> Option<usize> {
    for index in (0..view.at).rev() {
        if view.sketch.is(index, b"range") {
            return Some(index);
        }
        if view.sketch.is(index, b";") {
            break;
        }
    }
    None
}

// The `range` of a declaration.
fn range_in(found: &Found<'_>) -> Option<usize> {
    for index in found.declared.name..found.declared.end {
        if found.sketch.is(index, b"range") {
            return Some(index);
        }
    }
    None
}

fn tell_bounds(parent: &Found<'_>, said: &mut Said) {
    let Some(range) = range_in(parent) else {
        return;
    };
    let bounds = parent
        .sketch
        .words(range.saturating_add(1), parent.declared.end);
    add!(said; parent.name(), b" (");
    parent.add_spot(said);
    note!(said; b") has the bounds ", bounds)
}
