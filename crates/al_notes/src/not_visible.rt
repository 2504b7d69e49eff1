// E401: why no declaration is visible, and which one may be meant.
use crate::file_names::{declaration_file, is_file_of};
use crate::near::Nearest;
use crate::said::{Said, say_outside};
use crate::view::{Found, View};
use crate::visible::{Meaning, Way, way_of};
use crate::words::{entry_for, is_same};
use crate::{add, note};
use al_sketch::DeclaredKind;
use std::alloc::AllocError;

/// Why no declaration of a name is visible, and which one may be meant.
pub fn not_visible(view: &View<'_>, said: &mut Said) {
    let before = view.at.saturating_sub(1);
    if view.at > 1 && view.sketch.is(before, b".") {
        return not_in_prefix(view, said);
    }
    say_declared(view, said);
    if said.is_empty() {
        say_known(view, said);
    }
    if said.is_empty() {
        tell_nearest(view, view.word(), said);
    }
    if said.is_empty() {
        say_nowhere(view, said);
    }
}

// Says where the first declaration of the name is that isn't visible.
fn say_declared(view: &View<'_>, said: &mut Said) {
    for found in view.declared {
        if found.is_named(view.word()) && tell_way(view, found, said) {
            break;
        }
    }
}

// Says what a name is that Ada has, or that a unit of the folders has.
fn say_known(view: &View<'_>, said: &mut Said) {
    let name = view.word();
    if name.eq_ignore_ascii_case(b"ada") {
        return say_unit_of_ada(view, said);
    }
    if let Some(unknown) = view.subset.name(name) {
        return tell_unknown(name, unknown.instead, said);
    }
    if tell_unit(view, name, said) {
        return;
    }
    tell_predefined_unit(name, said)
}

// Says that a with clause is missing, by the name that begins with Ada.
fn say_unit_of_ada(view: &View<'_>, said: &mut Said) {
    let unit = view.sketch.words(view.at, view.at.saturating_add(3));
    note!(said; b"a with clause names the unit, before this one begins: with ", unit, b";")
}

// Says that no declaration is there.
fn say_nowhere(view: &View<'_>, said: &mut Said) {
    let name = view.word();
    note!(said; name, b" is declared in none of the units that can be seen here");
    if view.sketch.is(view.at.saturating_add(1), b".") {
        return note!(said; b"if it is a unit, a with clause names it: with ", name, b";");
    }
}

/// Says that a name of Ada's isn't there.
pub fn tell_unknown(name: &[u8], instead: &str, said: &mut Said) {
    say_outside(name, said);
    note!(said; b"instead: ", instead.as_bytes())
}

// Says why a declaration isn't visible; whether there was something to say.
fn tell_way(view: &View<'_>, found: &Found<'_>, said: &mut Said) -> bool {
    let has_reason = say_way(view, found, way_of(view, found), said);
    if has_reason {
        said.end();
    }
    has_reason
}

// Goes on with why a declaration isn't visible; whether there is something to say.
fn say_way(view: &View<'_>, found: &Found<'_>, way: Way, said: &mut Said) -> bool {
    match way {
        Way::Selected => say_selected(found, said),
        Way::Private => {
            say_place(found, said);
            said.add(b", in a private part");
        }
        Way::Later => say_later(found, said),
        Way::Inner => return say_inner(view, found, said),
        _ => return false,
    }
    true
}

// Goes on with a declaration's name and its place.
fn say_place(found: &Found<'_>, said: &mut Said) {
    add!(said; found.name(), b" is declared ");
    found.add_place(said);
}

// Goes on with how to name what is visible by its unit's name.
fn say_selected(found: &Found<'_>, said: &mut Said) {
    let of = found.unit();
    say_place(found, said);
    add!(said; b": write ", of, b".", found.name(), b", or use ", of, b";");
}

fn say_later(found: &Found<'_>, said: &mut Said) {
    add!(said; found.name(), b" is declared later, ");
    found.add_place(said);
}

// Goes on with how a component is named, or with what a declaration is inside of; whether there is something to say.
fn say_inner(view: &View<'_>, found: &Found<'_>, said: &mut Said) -> bool {
    if found.declared.kind == DeclaredKind::Component {
        add!(said; found.name(), b" is a component, declared ");
        found.add_place(said);
        add!(said; b": write OBJECT.", found.name());
        return true;
    }
    if view.has(found) {
        say_place(found, said);
        said.add(b", inside what ends before this place");
        return true;
    }
    false
}

// Says that a unit of the name is there and isn't named by a with clause; whether one is.
fn tell_unit(view: &View<'_>, name: &[u8], said: &mut Said) -> bool {
    let Some(file) = said.made(declaration_file(view.alloc, name)) else {
        return false;
    };
    let is_there = view.texts.get(file.as_slice()).is_some();
    if is_there {
        note!(said; b"there is ", file.as_slice(), b": with ", name, b";");
    }
    is_there
}

// Says which predefined unit declares a name, or what is written for a name of other languages.
fn tell_predefined_unit(name: &[u8], said: &mut Said) {
    if let Some(told) = entry_for(KNOWN, name) {
        if told.starts_with(' ') {
            said.add(name);
        }
        note!(said; told.as_bytes())
    }
}

/// What is said of names that are declared elsewhere, or that other languages have; behind the name where it begins with a blank.
const KNOWN: &str =
    "put put_line new_line| is declared in Ada.Text_IO: with Ada.Text_IO; use Ada.Text_IO;
clock milliseconds time time_span| is declared in Ada.Real_Time: with Ada.Real_Time; use Ada.Real_Time;
print println printf puts write writeln echo|a line is printed by Ada.Text_IO.Put_Line (\"..\");
int|the predefined integer type is Integer
bool|the predefined Boolean type is Boolean
break continue|a loop is left by exit; or exit when CONDITION;
";

// Says which visible name is nearly this one.
fn tell_nearest(view: &View<'_>, name: &[u8], said: &mut Said) {
    let Some(other) = said.made_some(nearest_in(view, None, name)) else {
        return;
    };
    let other = other.as_slice();
    if view.subset.name(other).is_some() && Meaning::of(view, other).first(view).is_none() {
        return note!(said; b"did you mean ", other, b"? It isn't in this subset of Ada (docs/language.md#what-there-isnt)");
    }
    note!(said; b"did you mean ", other, b"?")
}

// Says what the unit before the dot declares that is nearly the name.
fn not_in_prefix(view: &View<'_>, said: &mut Said) {
    let last = view.at.saturating_sub(1);
    let first = view.sketch.name_start(last.saturating_sub(1));
    let unit = view.sketch.words(first, last);
    let name = view.word();
    if tell_private(view, unit, said) {
        return;
    }
    if let Some(unknown) = view.subset.name(name) {
        return tell_unknown(name, unknown.instead, said);
    }
    match said.made_some(nearest_in(view, Some(unit), name)) {
        Some(other) =>
            note!(said; unit, b" declares no ", name, b": did you mean ", other.as_slice(), b"?"),
        _ => say_list(view, unit, said),
    }
}

// Says that the private part of a unit declares the name; whether it does.
fn tell_private(view: &View<'_>, unit: &[u8], said: &mut Said) -> bool {
    for found in view.declared {
        let is_one = found.is_named(view.word()) && found.is_in_unit(unit);
        if is_one && found.sketch.is_private(&found.declared) {
            say_place(found, said);
            note!(said; b", in the private part");
            return true;
        }
    }
    false
}

// Says which names a unit declares, five at most.
fn say_list(view: &View<'_>, unit: &[u8], said: &mut Said) {
    note!(said; unit, b" declares no ", view.word(), b" in its visible part");
    let mut count = 0usize;
    let mut last: &[u8] = &[];
    for found in view.declared {
        if count < 5 && is_in_view(found, unit) && !is_same(found.name(), last) {
            said.add(if count == 0 { b"it declares " } else { b", " });
            last = found.name();
            said.add(last);
            count = count.saturating_add(1);
        }
    }
    if count > 0 {
        said.end()
    }
}

// Whether a declaration is one of the visible part of a unit.
fn is_in_view(found: &Found<'_>, unit: &[u8]) -> bool {
    found.declared.scope == 1
        && !matches!(
            found.declared.kind,
            DeclaredKind::Formal | DeclaredKind::Component
        )
        && !found.sketch.is_private(&found.declared)
        && is_file_of(found.file, unit)
}

// The name that is nearly this one, of those that a unit declares, or of all.
fn nearest_in(
    view: &View<'_>,
    unit: Option<&[u8]>,
    name: &[u8],
) -> Result<Option<Vec<u8>>, AllocError> {
    let mut nearest = Nearest::to(view.alloc, name)?;
    for found in view.declared {
        let is_one = match unit {
            Some(unit) => is_in_view(found, unit),
            None => true,
        };
        if is_one {
            nearest.see(found.name());
        }
    }
    if unit.is_none() {
        for unknown in view.subset.names() {
            nearest.see(unknown.name.as_bytes());
        }
    }
    nearest.into_name()
}
