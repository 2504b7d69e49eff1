// What is visible under a name where it stands.
ghost use Rattle.std.specs.Prelude.{IfOk, OnOk};
ghost use Rattle.al_points.specs.Meanings.{AreMeanings, IsMeaning};

use crate::chosen::{called_in, chosen_in, subprogram_in};
use crate::declaring::has_view;
use crate::named::Named;
use crate::replay::watched;
use crate::watch::Watch;
use al_base::{NoMemory, Place, UnitKey};
use al_check_here::CheckState;
use al_meant::{Found, all_meant};
use al_query::Answers;
use al_tree::{CompilationUnit, Identifier};
use al_view::{Symbol, View};
use al_view_typed::{Typed, TypedCall};
use std::alloc::Global;

/// What is visible under a name where it stands.
pub struct Meaning {
    /// The declarations, and the questions that were asked of other units to find them.
    pub found: Found,
    /// The number of the one that the check chose; none where it didn't say.
    pub chosen: Option<usize>,
}

impl Drop for Meaning {
    fn drop(self) {
        let Meaning {
            found: _,
            chosen: _,
        } = self;
    }
}

impl Meaning {
    /// The one that the check chose; all where it didn't say.
    pub(crate) fn shown(&self) -> &[View] {
        let views = self.found.views.as_slice();
        match self.chosen {
            Some(i) if i < views.len() => &views[i..i + 1],
            _ => views,
        }
    }
}

/// All that a name may mean in this state of a check, under the answers of a table, and nothing else.
///
/// # Errors
///
/// `NoMemory` if the allocator refuses memory.
pub(crate) fn look_up<A: Answers>(
    alloc: Global,
    table: &A,
    state: &CheckState,
    name: &Named,
) -> Result<Meaning, NoMemory>
    ensures { IfOk result (λ meaning. IsMeaning (A.table table.now) state.now name.now meaning) }
{
    let packages = state.unit.packages.as_slice();
    let found = all_meant(alloc, table, &state.env.scope, packages, &name.name)?;
    Ok(Meaning {
        found,
        chosen: None,
    })
}

// .. that each of these names may mean.
fn look_all_up<A: Answers>(
    alloc: Global,
    table: &A,
    state: &CheckState,
    names: &[Named],
) -> Result<Vec<Meaning>, NoMemory>
    ensures { IfOk result (λ found. AreMeanings (A.table table.now) state.now names.now found.items) }
{
    let mut found = Vec::new(alloc);
    for name in names {
        found.push(look_up(alloc, table, state, name)?)?;
    }
    Ok(found)
}

pub(crate) fn is_before(a: Place, b: Place) -> bool {
    a.line < b.line || (a.line == b.line && a.col < b.col)
}

/// Where constructs begin, in the order of the walk.
#[derive(Drop)]
struct Starts {
    places: Vec<Place>,
}

impl Watch for Starts {
    fn begins(
        &mut self,
        _state: &CheckState,
        place: Place,
        _names: &[&Identifier],
    ) -> Result<(), NoMemory> {
        self.places.push(place)?;
        Ok(())
    }

    fn declared(&mut self, _state: &CheckState, _names: &[&Identifier]) -> Result<(), NoMemory> {
        Ok(())
    }

    fn judged(&mut self, _typed: &Typed) {}

    fn called(&mut self, _begins: Place, _call: &TypedCall) {}

    fn headed(&mut self, _symbol: &Symbol) {}

    fn ended(&mut self, _end: Place, _symbol: &Symbol) {}
}

// The number of the first declaration that isn't among others.
fn new_in(old: &[View], views: &[View]) -> Option<usize> {
    for (i, view) in views.iter().enumerate() {
        if !has_view(old, view) {
            return Some(i);
        }
    }
    None
}

// The number of the last construct that begins no later than a place.
fn construct_at(starts: &[Place], place: Place) -> Option<usize> {
    let mut found = None;
    for (i, start) in starts.iter().enumerate() {
        if !is_before(place, *start) {
            found = Some(i);
        }
    }
    found
}

/// Looks names up as the construct begins in which they stand; and if what stands there is declared by it, once it is.
struct Looks<'a, A: Answers> {
    alloc: Global,
    table: &'a A,
    names: &'a [Named],
    /// The place of their first identifier.
    first: Place,
    /// The place of their last identifier.
    place: Place,
    /// Whether they are the name that the construct declares.
    is_head: bool,
    /// The number of the construct.
    wanted: usize,
    /// How many constructs have begun.
    seen: usize,
    found: Vec<Meaning>,
}

impl<A: Answers> Drop for Looks<'_, A> {
    fn drop(self) {
        let Looks {
            alloc: _,
            table: _,
            names: _,
            first: _,
            place: _,
            is_head: _,
            wanted: _,
            seen: _,
            found: _,
        } = self;
    }
}

impl<A: Answers> Looks<'_, A> {
    fn into_found(self) -> Vec<Meaning> {
        let Looks {
            alloc: _,
            table: _,
            names: _,
            first: _,
            place: _,
            is_head: _,
            wanted: _,
            seen: _,
            found,
        } = self;
        found
    }

    // Whether the construct goes on in which the names stand.
    fn is_here(&self) -> bool {
        self.seen == self.wanted.saturating_add(1)
    }

    // Looks once the construct has declared the names: what wasn't visible before is meant.
    fn look_again(&mut self, state: &CheckState) -> Result<(), NoMemory> {
        let before = std::mem::replace(&mut self.found, Vec::new(self.alloc));
        self.look(state)?;
        for (i, meaning) in self.found.as_mut_slice().iter_mut().enumerate() {
            if let Some(old) = before.get(i) {
                meaning.chosen = new_in(old.found.views.as_slice(), meaning.found.views.as_slice());
            }
        }
        Ok(())
    }

    // Looks all names up in this state.
    fn look(&mut self, state: &CheckState) -> Result<(), NoMemory>
        ensures { OnOk result (AreMeanings (A.table self.old.table.now) state.now self.old.names.now self.new.found.items) }
    {
        self.found = look_all_up(self.alloc, self.table, state, self.names)?;
        Ok(())
    }
}

impl<A: Answers> Watch for Looks<'_, A> {
    fn begins(
        &mut self,
        state: &CheckState,
        _place: Place,
        _names: &[&Identifier],
    ) -> Result<(), NoMemory> {
        let is_wanted = self.seen == self.wanted;
        self.seen = self.seen.saturating_add(1);
        if is_wanted { self.look(state) } else { Ok(()) }
    }

    fn declared(&mut self, state: &CheckState, names: &[&Identifier]) -> Result<(), NoMemory> {
        if !self.is_here() {
            return Ok(());
        }
        for name in names {
            if name.place == self.place {
                self.is_head = true;
                return self.look_again(state);
            }
        }
        Ok(())
    }

    fn judged(&mut self, typed: &Typed) {
        if self.is_here() {
            for meaning in self.found.as_mut_slice() {
                let chosen = chosen_in(typed, self.first, meaning.found.views.as_slice());
                if chosen.is_some() {
                    meaning.chosen = chosen;
                }
            }
        }
    }

    fn called(&mut self, begins: Place, call: &TypedCall) {
        if self.is_here() {
            for meaning in self.found.as_mut_slice() {
                let chosen = called_in(call, begins, self.first, meaning.found.views.as_slice());
                if chosen.is_some() {
                    meaning.chosen = chosen;
                }
            }
        }
    }

    fn headed(&mut self, symbol: &Symbol) {
        if self.is_here() && self.is_head {
            for meaning in self.found.as_mut_slice() {
                let chosen = subprogram_in(symbol, meaning.found.views.as_slice());
                if chosen.is_some() {
                    meaning.chosen = chosen;
                }
            }
        }
    }

    fn ended(&mut self, end: Place, symbol: &Symbol) {
        if self.is_here() && is_before(end, self.place) {
            for meaning in self.found.as_mut_slice() {
                meaning.chosen = subprogram_in(symbol, meaning.found.views.as_slice());
            }
        }
    }
}

/// What is visible under names of a unit that is read as this tree, which stand at one place: under each in turn. Nothing where no construct of the
/// item begins before it.
///
/// # Errors
///
/// `NoMemory` if the allocator refuses memory.
pub fn meant_at<A: Answers>(
    alloc: Global,
    unit: &UnitKey,
    tree: &CompilationUnit,
    table: &A,
    names: &[Named],
) -> Result<Vec<Meaning>, NoMemory> {
    let Some(name) = names.first() else {
        return Ok(Vec::new(alloc));
    };
    let starts = Starts {
        places: Vec::new(alloc),
    };
    let starts = watched(alloc, unit, tree, table, starts)?;
    let Some(wanted) = construct_at(starts.places.as_slice(), name.first) else {
        return Ok(Vec::new(alloc));
    };
    let looks = Looks {
        alloc,
        table,
        names,
        first: name.first,
        place: name.token.span.place,
        is_head: false,
        wanted,
        seen: 0,
        found: Vec::new(alloc),
    };
    Ok(watched(alloc, unit, tree, table, looks)?.into_found())
}
