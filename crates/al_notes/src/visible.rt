// Which declarations of a name are meant at a place, and why others aren't.
use crate::file_names::is_above;
use crate::view::{Found, View};
use crate::words::is_same;
use al_sketch::{DeclaredKind, ScopeKind};

/// How a declaration is visible from a place.
#[derive(Clone, Copy, PartialEq, Eq)]
pub enum Way {
    /// It is directly visible there.
    Direct,
    /// A use clause makes it visible.
    Used,
    /// It is visible by its unit's name alone.
    Selected,
    /// It is in a private part.
    Private,
    /// It is declared later in the source.
    Later,
    /// It is inside something else.
    Inner,
}

/// How a declaration is visible from the place of a diagnostic.
pub fn way_of(view: &View<'_>, found: &Found<'_>) -> Way {
    let declared = &found.declared;
    if view.has(found) {
        return way_in_file(view, found);
    }
    if declared.kind == DeclaredKind::Formal || !found.sketch.is_outermost(declared.scope) {
        return Way::Inner;
    }
    let is_around = declared.scope == 0 || is_same(found.file, b"standard");
    if is_around || is_above(found.file, view.file) {
        Way::Direct
    } else if found.sketch.is_private(declared) {
        Way::Private
    } else if view.is_used(found.file) {
        Way::Used
    } else {
        Way::Selected
    }
}

fn way_in_file(view: &View<'_>, found: &Found<'_>) -> Way {
    let declared = &found.declared;
    let Some(scope) = found.sketch.scopes().get(declared.scope) else {
        return Way::Inner;
    };
    let is_component = scope.kind == ScopeKind::Record && declared.kind == DeclaredKind::Component;
    if scope.start > view.at || scope.end <= view.at || is_component {
        Way::Inner
    } else if declared.name > view.at {
        Way::Later
    } else {
        Way::Direct
    }
}

/// What a name means at a place, as far as the sources show it.
#[derive(Clone, Copy)]
pub enum Meaning<'n> {
    /// What is directly visible of that name: in the scope of the number, and what can be overloaded round it.
    Direct(&'n [u8], usize),
    /// What use clauses make visible of that name.
    Used(&'n [u8]),
    /// What the unit of the first name declares of the second.
    Member(&'n [u8], &'n [u8]),
}

impl<'n> Meaning<'n> {
    /// What a name means at the place of a diagnostic.
    pub fn of(view: &View<'_>, name: &'n [u8]) -> Meaning<'n> {
        let mut innermost = 0;
        let mut is_direct = false;
        for found in view.declared {
            if found.is_named(name) && way_of(view, found) == Way::Direct {
                is_direct = true;
                innermost = scope_of(view, found).max(innermost);
            }
        }
        if is_direct {
            Meaning::Direct(name, innermost)
        } else {
            Meaning::Used(name)
        }
    }

    /// Whether a declaration is one of those.
    pub fn has(&self, view: &View<'_>, found: &Found<'_>) -> bool {
        match self {
            Meaning::Direct(name, innermost) => {
                found.is_named(name)
                    && way_of(view, found) == Way::Direct
                    && (scope_of(view, found) == *innermost || is_overloadable(found))
            }
            Meaning::Used(name) => found.is_named(name) && way_of(view, found) == Way::Used,
            Meaning::Member(unit, name) => found.is_named(name) && found.is_in_unit(unit),
        }
    }

    /// The first of them.
    pub fn first<'a>(&self, view: &View<'a>) -> Option<&'a Found<'a>> {
        for found in view.declared {
            if self.has(view, found) {
                return Some(found);
            }
        }
        None
    }
}

// The scope of a declaration of the diagnostic's file; 0 of others, which are round it.
fn scope_of(view: &View<'_>, found: &Found<'_>) -> usize {
    if view.has(found) {
        found.declared.scope
    } else {
        0
    }
}

/// The first declaration that a name means at the place.
pub fn first_meant<'a>(view: &View<'a>, name: &[u8]) -> Option<&'a Found<'a>> {
    Meaning::of(view, name).first(view)
}

// Whether it can be overloaded.
fn is_overloadable(found: &Found<'_>) -> bool {
    matches!(
        found.declared.kind,
        DeclaredKind::Function
            | DeclaredKind::Procedure
            | DeclaredKind::Literal
            | DeclaredKind::Entry
    )
}
