// E501 to E504, E601 to E604.
use crate::completions::body_round;
use crate::said::Said;
use crate::types::{Kind, mark_type, type_of_expression};
use crate::view::{Found, View};
use crate::{add, note};
use al_sketch::{DeclaredKind, ScopeKind, Sketch};

/// What is wrong with the statement.
pub fn statements(view: &View<'_>, code: u16, said: &mut Said) {
    match code {
        501 => bad_return(view, said),
        502 => bad_exit(view, said),
        503 => bad_choices(view, said),
        _ => no_return(view, said),
    }
}

fn bad_return(view: &View<'_>, said: &mut Said) {
    let Some(body) = body_round(view) else {
        return note!(said; b"a return statement belongs in the body of a subprogram or of an entry");
    };
    if body.declared.kind == DeclaredKind::Function {
        say_function(body, said);
        return note!(said; b" returns ", body.mark(), b": a value is wanted");
    }
    say_with_line(body, said);
    note!(said; b" is no function: its return has no value, and a task's body has none")
}

// Goes on with a function's name and its line.
fn say_function(body: &Found<'_>, said: &mut Said) {
    said.add(b"function ");
    say_with_line(body, said);
}

// Goes on with a name and its line.
fn say_with_line(body: &Found<'_>, said: &mut Said) {
    add!(said; body.name(), b" (line ");
    said.add_number(body.sketch.line(body.declared.name) as usize);
    said.add(b")");
}

fn bad_exit(view: &View<'_>, said: &mut Said) {
    let name = view.at.saturating_add(1);
    if view.sketch.is_identifier(name) {
        return note!(said; b"no loop round this place is called ", view.sketch.word(name), b": NAME : loop .. end loop NAME;");
    }
    note!(said; b"no loop is round this place; a return statement leaves the subprogram")
}

fn no_return(view: &View<'_>, said: &mut Said) {
    let Some(body) = body_round(view) else {
        return;
    };
    say_function(body, said);
    note!(said; b" has no return statement, and is to give a value of ", body.mark())
}

// Which literals of an enumeration are missing or chosen twice.
fn bad_choices(view: &View<'_>, said: &mut Said) {
    let from = view.at.saturating_add(1);
    let mut is_at = from;
    for index in from..view.sketch.len() {
        if view.sketch.is(index, b"is") {
            is_at = index;
            break;
        }
    }
    let Some(found) = type_of_expression(view, from, is_at).declaration() else {
        return note!(said; b"each value is chosen once: when others => takes those that are left");
    };
    let (first, last) = found.declared.formals;
    if !found.begins_with(b"(") {
        return note!(said; b"each value of ", found.name(), b" is chosen once: when others => takes those that are left");
    }
    for index in first..last {
        if found.sketch.is_identifier(index) {
            tell_literal(view, is_at, found.sketch.word(index), said);
        }
    }
}

// Says that a literal isn't chosen, or is chosen twice, in the case statement from a lexeme on.
fn tell_literal(view: &View<'_>, is_at: usize, literal: &[u8], said: &mut Said) {
    if said.count() >= 3 {
        return;
    }
    match times_chosen(view.sketch, is_at, literal) {
        Some(0) =>
            note!(said; literal, b" isn't chosen: when ", literal, b" =>, or when others =>"),
        None | Some(1) => {}
        Some(_) => note!(said; literal, b" is chosen twice"),
    }
}

// How often a case statement chooses a literal by its name; none if it has ranges, or takes all others.
fn times_chosen(sketch: &Sketch, is_at: usize, literal: &[u8]) -> Option<usize> {
    let mut count = 0usize;
    let mut depth = 0usize;
    let mut is_choice = false;
    for index in is_at..sketch.len() {
        if sketch.is(index, b"case") {
            if !sketch.is(index.saturating_sub(1), b"end") {
                depth = depth.saturating_add(1);
            } else if depth == 0 {
                break;
            } else {
                depth = depth.saturating_sub(1);
            }
        } else if depth == 0 && sketch.is(index, b"when") {
            is_choice = !sketch.is(index.saturating_sub(1), b"exit");
        } else if sketch.is(index, b"=>") {
            is_choice = false;
        } else if is_choice && is_many(sketch, index) {
            return None;
        } else if is_choice && sketch.is(index, literal) {
            count = count.saturating_add(1);
        }
    }
    Some(count)
}

fn is_many(sketch: &Sketch, index: usize) -> bool {
    sketch.is(index, b"..") || sketch.is(index, b"others")
}

/// What is wrong with a task or a protected object.
pub fn tasks(view: &View<'_>, code: u16, said: &mut Said) {
    match code {
        601 =>
            note!(said; b"tasks and protected objects are declared in library packages, not in subprograms or blocks (the Ravenscar profile, ARM D.13)"),
        602 => second_entry(view, said),
        603 => bad_barrier(view, said),
        604 => own_operation(view, said),
        _ => {}
    }
}

fn second_entry(view: &View<'_>, said: &mut Said) {
    let scope = view.sketch.scope_at(view.at);
    for declared in view.sketch.declared() {
        let is_first = declared.kind == DeclaredKind::Entry && declared.name < view.at;
        let is_here = match view.sketch.scopes().get(scope) {
            Some(own) => declared.scope == scope || declared.scope == own.parent,
            None => false,
        };
        if is_first && is_here {
            add!(said; b"its entry is ", view.sketch.word(declared.name), b", on line ");
            said.add_number(view.sketch.line(declared.name) as usize);
            said.end();
        }
    }
    note!(said; b"a protected object has one entry (the Ravenscar profile, ARM D.13): give each its own object")
}

fn bad_barrier(view: &View<'_>, said: &mut Said) {
    for found in view.declared {
        if !found.is_named(view.word()) {
            continue;
        }
        let kind = mark_type(view, found);
        if !matches!(kind, Kind::Unknown) {
            add!(said; found.name(), b" is declared ");
            found.add_place(said);
            note!(said; b", as ", kind.name());
        }
    }
    note!(said; b"a barrier is the name of a Boolean component of the object (ARM D.7, Simple_Barriers): keep Not_Empty : Boolean, and set it where the rest changes")
}

fn own_operation(view: &View<'_>, said: &mut Said) {
    let mut object: &[u8] = b"the object";
    for scope in view.sketch.scopes() {
        let is_body = scope.kind == ScopeKind::PackageBody
            && view.sketch.is(scope.start, b"protected");
        if is_body && scope.start < view.at && view.at < scope.end {
            object = view.sketch.word(scope.name);
        }
    }
    note!(said; b"this is in a body of ", object, b" itself: put what both do into a procedure of the package")
}
