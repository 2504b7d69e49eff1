// E201 to E209: units, their files and what they name.
use crate::cycle::cycle;
use crate::file_names::{body_file, declaration_file, is_body_file, parent_of, stem, unit_of_file};
use crate::near::Nearest;
use crate::said::{Said, say_outside};
use crate::view::{Found, View};
use crate::words::is_same;
use crate::{add, note};
use al_sketch::DeclaredKind;
use std::alloc::{AllocError, Global};

/// What is wrong with a unit or its dependences.
pub fn units(view: &View<'_>, code: u16, said: &mut Said) {
    match code {
        201 => file_name(view, said),
        202 => missing_unit(view, said),
        203 => cycle(view, said),
        204 => private_child(view, said),
        205 => missing_parent(view, said),
        206 => no_stub(view, said),
        207 =>
            note!(said; b"Standard, Ada and the units below Ada are the language's own (ARM A.2); take another name"),
        209 => does_not_fit(view, said),
        _ => {}
    }
}

// The whole name that begins or goes on at the place.
fn name_at<'a>(view: &View<'a>) -> &'a [u8] {
    let first = view.sketch.name_start(view.at);
    view.sketch.words(first, view.sketch.name_end(view.at))
}

fn file_name(view: &View<'_>, said: &mut Said) {
    let Some(own) = said.made(own_file(view, name_at(view))) else {
        return;
    };
    note!(said; b"should be ", own.as_slice());
    if let Some(unit) = said.made(unit_of_file(view.alloc, view.file)) {
        note!(said; b"a file holds the unit of its name: ", view.file, b" is for ", unit.as_slice())
    }
}

// The file that a unit of the name belongs in, of the kind that the file holds.
fn own_file(view: &View<'_>, name: &[u8]) -> Result<Vec<u8>, AllocError> {
    if view.sketch.is(0, b"separate") {
        let parent = view.sketch.words(2, view.sketch.name_end(2));
        return subunit_file(view.alloc, parent, name);
    }
    let is_body = match view.sketch.declared().first() {
        Some(unit) => unit.is_body,
        None => false,
    };
    file_of_kind(view, name, is_body)
}

// The file of a parent's subunit.
fn subunit_file(alloc: Global, parent: &[u8], name: &[u8]) -> Result<Vec<u8>, AllocError> {
    let mut whole = Vec::from_slice(alloc, parent)?;
    whole.push(b'.')?;
    whole.extend_from_slice(name)?;
    body_file(alloc, whole.as_slice())
}

fn file_of_kind(view: &View<'_>, unit: &[u8], is_body: bool) -> Result<Vec<u8>, AllocError> {
    if is_body {
        body_file(view.alloc, unit)
    } else {
        declaration_file(view.alloc, unit)
    }
}

fn missing_unit(view: &View<'_>, said: &mut Said) {
    let name = name_at(view);
    if let Some(near) = said.made_some(near_unit(view, name)) {
        return note!(said; b"did you mean ", near.as_slice(), b"?");
    }
    if let Some(unknown) = view.subset.unit(name) {
        say_outside(name, said);
        return note!(said; b"instead: ", unknown.instead.as_bytes());
    }
    let first = view.sketch.name_start(view.at);
    let is_parent_body = view.sketch.is(first.saturating_sub(2), b"separate");
    if let Some(file) = said.made(file_of_kind(view, name, is_parent_body)) {
        note!(said; b"there is no ", file.as_slice(), b" in the folders")
    }
}

// The unit of the files that is nearly named so.
fn near_unit(view: &View<'_>, name: &[u8]) -> Result<Option<Vec<u8>>, AllocError> {
    let mut nearest = Nearest::to(view.alloc, name)?;
    nearest.see(b"ada.text_io");
    nearest.see(b"ada.real_time");
    for mark in view.marks {
        if nearest.may_be(mark.name.as_slice(), mark.letters) {
            nearest.see(mark.name.as_slice());
        }
    }
    nearest.into_name()
}

fn private_child(view: &View<'_>, said: &mut Said) {
    let name = name_at(view);
    let parent = parent_of(name).unwrap_or(b"Standard");
    note!(said; name, b" is a private child: only bodies of ", parent, b" and of units below it, and private units below it, may name it (ARM 10.1.2(8))")
}

fn missing_parent(view: &View<'_>, said: &mut Said) {
    let parent = parent_of(name_at(view)).unwrap_or(name_at(view));
    let Some(file) = said.made(declaration_file(view.alloc, parent)) else {
        return;
    };
    if view.texts.get(file.as_slice()).is_some() {
        note!(said; file.as_slice(), b" declares no package, and only a package has children (ARM 10.1.1)")
    } else {
        tell_parent(view, parent, file.as_slice(), said)
    }
}

// Says that a parent's file isn't there, and which one is nearly named so.
fn tell_parent(view: &View<'_>, parent: &[u8], file: &[u8], said: &mut Said) {
    add!(said; b"there is no ", file);
    match said.made_some(near_unit(view, parent)) {
        Some(near) => note!(said; b": did you mean ", near.as_slice(), b"?"),
        None => note!(said; b" in the folders: ", name_at(view), b" is a child of ", parent),
    }
}

fn no_stub(view: &View<'_>, said: &mut Said) {
    let Some(file) = said.made(parent_body(view)) else {
        return;
    };
    note!(said; file.as_slice(), b" has no stub of it: procedure ", view.word(), b" is separate; among the declarations of the body, with the parameters")
}

// The file of the body that has the file's subunit.
fn parent_body(view: &View<'_>) -> Result<Vec<u8>, AllocError> {
    let unit = unit_of_file(view.alloc, view.file)?;
    body_file(view.alloc, parent_of(unit.as_slice()).unwrap_or(b""))
}

fn does_not_fit(view: &View<'_>, said: &mut Said) {
    let Some(declared) = declaration_of(view) else {
        return;
    };
    let is_package = match view.sketch.declared().first() {
        Some(own) => own.kind == DeclaredKind::Package,
        None => false,
    };
    let is_body_alone = is_package && is_body_file(view.file);
    if declared.declared.kind == DeclaredKind::Package && is_body_alone {
        return note!(said; declared.file, b" needs no body: it declares nothing that has one. Delete this file, or give ", declared.name(), b" a pragma Elaborate_Body");
    }
    note!(said; declared.file, b" declares another kind of unit (package, procedure or function)")
}

// The declaration of the file's unit, of another file.
fn declaration_of<'a>(view: &View<'a>) -> Option<&'a Found<'a>> {
    for found in view.declared {
        let is_unit = found.declared.scope == 0 && !is_body_file(found.file);
        if is_unit && is_same(stem(found.file), stem(view.file)) {
            return Some(found);
        }
    }
    None
}
