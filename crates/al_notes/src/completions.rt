// E301 to E303: declarations and what completes them.
use crate::file_names::{is_body_file, stem};
use crate::said::Said;
use crate::view::{Found, View};
use crate::words::is_same;
use crate::{add, note};
use al_sketch::{Declared, DeclaredKind, ScopeKind, Sketch};

/// The place of the other declaration of the name.
pub fn duplicate(view: &View<'_>, said: &mut Said) {
    let Some(own) = view.own(view.at) else {
        return;
    };
    for found in view.declared {
        if found.is_named(view.word()) && is_other(view, &own.declared, found) {
            add!(said; found.name(), b" is declared ");
            found.add_place(said);
            note!(said; b" too, as ", what_is(found.declared.kind));
            return tell_overloading(found, said);
        }
    }
}

fn tell_overloading(found: &Found<'_>, said: &mut Said) {
    let is_subprogram = matches!(
        found.declared.kind,
        DeclaredKind::Procedure | DeclaredKind::Function
    );
    if is_subprogram {
        return note!(said; b"subprograms of one name need other parameter or result types (ARM 8.3)");
    }
}

// Whether a declaration is in the region of this one, and another.
fn is_other(view: &View<'_>, own: &Declared, found: &Found<'_>) -> bool {
    if view.has(found) {
        return found.declared.name != own.name && found.declared.scope == own.scope;
    }
    let is_unit = view.sketch.is_outermost(own.scope) && own.scope > 0;
    is_unit && found.sketch.is_outermost(found.declared.scope) && found.declared.scope > 0
}

/// What a declaration declares, with its article.
pub fn what_is(kind: DeclaredKind) -> &'static [u8] {
    match kind {
        DeclaredKind::Object => b"a variable",
        DeclaredKind::Constant => b"a constant",
        DeclaredKind::Number => b"a named number",
        DeclaredKind::Component => b"a component",
        DeclaredKind::Formal => b"a parameter",
        DeclaredKind::LoopParameter => b"a loop parameter",
        DeclaredKind::Type => b"a type",
        DeclaredKind::Subtype => b"a subtype",
        DeclaredKind::Literal => b"an enumeration literal",
        DeclaredKind::Procedure => b"a procedure",
        DeclaredKind::Function => b"a function",
        DeclaredKind::Entry => b"an entry",
        DeclaredKind::Package => b"a package",
        DeclaredKind::Task => b"a task",
        DeclaredKind::Protected => b"a protected object",
        DeclaredKind::Exception => b"an exception",
    }
}

/// Which declarations have no body, three at most.
pub fn missing_completion(view: &View<'_>, said: &mut Said) {
    let scope = view.sketch.scope_at(view.at);
    for found in view.declared {
        let declared = &found.declared;
        let is_here = if view.has(found) {
            declared.scope == scope
        } else {
            is_declaration_of(found.file, view.file)
                && declared.scope > 0
                && found.sketch.is_outermost(declared.scope)
        };
        if is_here && said.count() < 3 && lacks_body(view, found.sketch, declared, scope) {
            say_without_body(found, said);
        }
    }
}

// Whether a file is the declaration whose body the other is.
fn is_declaration_of(file: &[u8], body: &[u8]) -> bool {
    !is_body_file(file) && is_body_file(body) && is_same(stem(file), stem(body))
}

fn lacks_body(view: &View<'_>, sketch: &Sketch, declared: &Declared, scope: usize) -> bool {
    needs_body(sketch, declared) && !has_body(view, sketch, declared, scope)
}

fn say_without_body(found: &Found<'_>, said: &mut Said) {
    add!(said; found.name(), b" has no body: it is ");
    add!(said; what_is(found.declared.kind), b", declared ");
    found.add_place(said);
    said.end()
}

fn needs_body(sketch: &Sketch, declared: &Declared) -> bool {
    let is_separate = sketch.is(declared.end.saturating_add(1), b"separate")
        || sketch.is(declared.end, b"separate");
    let has_one = matches!(
        declared.kind,
        DeclaredKind::Procedure
            | DeclaredKind::Function
            | DeclaredKind::Task
            | DeclaredKind::Protected
    );
    has_one && !declared.is_body && !is_separate && !is_stub(sketch, declared)
}

// Whether a specification is one of a stub.
fn is_stub(sketch: &Sketch, declared: &Declared) -> bool {
    let end = sketch.declaration_end(declared.name);
    sketch.is(end.saturating_sub(1), b"separate")
}

// Whether the source has the body, or a stub, of a declaration.
fn has_body(view: &View<'_>, of: &Sketch, declared: &Declared, scope: usize) -> bool {
    let name = of.word(declared.name);
    for other in view.sketch.declared() {
        let is_one = other.is_body || is_stub(view.sketch, other);
        if is_one && other.scope == scope && view.sketch.is(other.name, name) {
            return true;
        }
    }
    false
}

/// The place of the declaration, and what differs.
pub fn not_conformant(view: &View<'_>, said: &mut Said) {
    let Some(own) = view.own(view.at) else {
        return;
    };
    for found in view.declared {
        let is_same = found.declared.name == own.declared.name || found.declared.is_body;
        if !found.is_named(view.word()) || (view.has(found) && is_same) {
            continue;
        }
        add!(said; found.name(), b" is declared ");
        found.add_place(said);
        note!(said; b", as ", what_is(found.declared.kind));
        return differs(own, found, said);
    }
}

// What differs between two specifications.
fn differs(own: &Found<'_>, other: &Found<'_>, said: &mut Said) {
    let there = formals_text(other);
    let here = formals_text(own);
    if own.declared.kind != other.declared.kind {
        return note!(said; b"here it is ", what_is(own.declared.kind));
    }
    if !own.mark().eq_ignore_ascii_case(other.mark()) {
        return note!(said; b"there the result is ", other.mark(), b", here ", own.mark());
    }
    let (first, last) = differing(own, other);
    if first < own.declared.formals.1 || last < other.declared.formals.1 {
        note!(said; b"there it is ", there, b"; here ", here);
        add!(said; b"they differ at ", own.sketch.word(first), b", on line ");
        said.add_number(own.sketch.line(first) as usize);
        said.end();
    }
    note!(said; b"names, modes and subtypes are repeated as they are (ARM 6.3.1)")
}

fn formals_text<'a>(found: &Found<'a>) -> &'a [u8] {
    let (from, to) = found.declared.formals;
    if to == 0 {
        return b"without parameters";
    }
    found
        .sketch
        .words(from.saturating_sub(1), to.saturating_add(1))
}

// The first lexemes in which the formals of two specifications differ.
fn differing(own: &Found<'_>, other: &Found<'_>) -> (usize, usize) {
    let (mut here, end) = own.declared.formals;
    let (mut there, other_end) = other.declared.formals;
    for _lexeme in 0..own.sketch.len() {
        if here >= end || there >= other_end {
            break;
        }
        if !own.sketch.is(here, other.sketch.word(there)) {
            break;
        }
        here = here.saturating_add(1);
        there = there.saturating_add(1);
    }
    (here, there)
}

/// The declaration of the innermost unit, operation or type round the place.
pub fn body_round<'a>(view: &View<'a>) -> Option<&'a Found<'a>> {
    view.own(named_scope(view)?)
}

/// The scope that ends at the place, with its name.
pub fn named_scope(view: &View<'_>) -> Option<usize> {
    let mut number = view.sketch.scope_at(view.at);
    for _round in 0..view.sketch.scopes().len() {
        let scope = view.sketch.scopes().get(number)?;
        if !matches!(scope.kind, ScopeKind::Block | ScopeKind::Text) {
            return Some(scope.name);
        }
        number = scope.parent;
    }
    None
}
