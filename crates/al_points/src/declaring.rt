// Where a declaration stands.
use crate::looking::look_up;
use crate::named::{Named, named_so};
use crate::replay::watched;
use crate::watch::Watch;
use al_base::{NoMemory, Place, UnitKey};
use al_check_here::CheckState;
use al_query::Answers;
use al_tree::{CompilationUnit, Identifier};
use al_view::{Same, Symbol, View, ViewKind};
use al_view_typed::{Typed, TypedCall};
use std::alloc::Global;

// Whether a view is of a type of which the other one is, in part or in full.
fn is_same_type(view: &View, other: &View) -> bool {
    match (view.kind(), other.kind()) {
        (ViewKind::OfType(of), ViewKind::OfType(other)) => {
            match (of.types.as_slice().last(), other.types.as_slice().last()) {
                (Some(own), Some(other)) => own.symbol.is(&other.symbol),
                _ => false,
            }
        }
        _ => false,
    }
}

pub(crate) fn has_view(views: &[View], view: &View) -> bool {
    for other in views {
        if other.is_same(view) || is_same_type(other, view) {
            return true;
        }
    }
    false
}

/// Looks for the identifiers behind which a declaration is visible that wasn't before.
struct Declarings<'a, A: Answers> {
    alloc: Global,
    table: &'a A,
    name: &'a Named,
    view: &'a View,
    /// Whether the declaration was visible as the construct began.
    was_visible: bool,
    /// The place of the last such identifier before a place, or of the first one.
    found: Option<Place>,
    before: Option<Place>,
}

impl<A: Answers> Drop for Declarings<'_, A> {
    fn drop(self) {
        let Declarings {
            alloc: _,
            table: _,
            name: _,
            view: _,
            was_visible: _,
            found: _,
            before: _,
        } = self;
    }
}

// The first of the identifiers that is this one.
fn place_of(names: &[&Identifier], key: &[u8]) -> Option<Place> {
    for name in names {
        if name.name.as_slice() == key {
            return Some(name.place);
        }
    }
    None
}

impl<A: Answers> Declarings<'_, A> {
    fn sees(&self, state: &CheckState) -> Result<bool, NoMemory> {
        let meaning = look_up(self.alloc, self.table, state, self.name)?;
        Ok(has_view(meaning.found.views.as_slice(), self.view))
    }

    fn is_wanted(&self, place: Place) -> bool {
        match self.before {
            Some(before) => place.line < before.line
                || (place.line == before.line && place.col <= before.col),
            None => self.found.is_none(),
        }
    }
}

impl<A: Answers> Watch for Declarings<'_, A> {
    fn begins(
        &mut self,
        state: &CheckState,
        _place: Place,
        names: &[&Identifier],
    ) -> Result<(), NoMemory> {
        if place_of(names, self.name.last.as_slice()).is_some() {
            self.was_visible = self.sees(state)?;
        } else {
            self.was_visible = false;
        }
        Ok(())
    }

    fn declared(&mut self, state: &CheckState, names: &[&Identifier]) -> Result<(), NoMemory> {
        let Some(place) = place_of(names, self.name.last.as_slice()) else {
            return Ok(());
        };
        if !self.was_visible && self.is_wanted(place) && self.sees(state)? {
            self.found = Some(place);
        }
        Ok(())
    }

    fn judged(&mut self, _typed: &Typed) {}

    fn called(&mut self, _begins: Place, _call: &TypedCall) {}

    fn headed(&mut self, _symbol: &Symbol) {}

    fn ended(&mut self, _end: Place, _symbol: &Symbol) {}
}

// The identifier alone, as a name.
fn alone(alloc: Global, name: &Named) -> Result<Named, NoMemory> {
    let last = name.last.as_slice();
    let key = Vec::from_slice(alloc, last)?;
    named_so(alloc, key, last, name.token.span.place, name.token)
}

/// The place of the identifier in a unit at which a declaration was declared that is visible under a name; before a place the last such
/// one, without one the first. None where the unit doesn't declare it.
///
/// # Errors
///
/// `NoMemory` if the allocator refuses memory.
pub fn declared_at<A: Answers>(
    alloc: Global,
    unit: &UnitKey,
    tree: &CompilationUnit,
    table: &A,
    name: &Named,
    view: &View,
    before: Option<Place>,
) -> Result<Option<Place>, NoMemory> {
    let name = alone(alloc, name)?;
    let declarings = Declarings {
        alloc,
        table,
        name: &name,
        view,
        was_visible: false,
        found: None,
        before,
    };
    let declarings = watched(alloc, unit, tree, table, declarings)?;
    Ok(declarings.found)
}
