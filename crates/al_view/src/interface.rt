// What a part of a unit declares: its names in the order of their first declarations, each with its views.
ghost use Rattle.std.specs.Prelude.{◌≡◌, ℕ, List, ◌∷◌, ◌++◌, [], length, IfOk, OnOk, OnErr, Some, None, if◌then◌else◌, slice_get};
ghost use Rattle.std.specs.Map.{lookup};
ghost use Rattle.std.specs.Option.{option_map};
ghost use Rattle.std.specs.Str.{bytes_eq};
ghost use Rattle.al_view.specs.Interfaces.{with_view, views_of};
ghost use Rattle.al_view.specs.Places.{place_of};

use crate::view::View;
use crate::views::Views;
use std::alloc::{AllocError, Global};
use std::collections::HashMap;
use std::marker::Model;

/// What a part of a unit declares: its names in the order of their first declarations, each with its views in source order. A name
/// is found without a walk over all of them.
pub struct Interface {
    alloc: Global,
    names: Vec<(Vec<u8>, Views)>,
    places: HashMap<Vec<u8>, usize>,
}

// It is written out so that a crate above drops a value by this one call and needn't prove again how each part is dropped.
impl Drop for Interface {
    fn drop(self) {
        let Interface {
            alloc: _,
            names: _,
            places: _,
        } = self;
    }
}

impl Model for Interface {
    ghost use Rattle.al_view.specs.Named.{Declarations, named_of};
    ghost use Rattle.al_view.specs.Places.{ArePlaces};

    ghost Value = { Declarations };

    ghost view = { λ i. named_of i.names.items };

    ghost invariant = { λ i. ArePlaces i.places.entries (named_of i.names.items) };
}

/// A name with its first view.
fn named(alloc: Global, name: &[u8], view: View) -> Result<(Vec<u8>, Views), AllocError>
    ensures name { IfOk result (λ made. made.0.items ≡ name.now) }
    ensures views { IfOk result (λ made. made.1 ≡ view ∷ []) }
{
    let mut views = Views::new(alloc);
    views.push(view)?;
    Ok((Vec::from_slice(alloc, name)?, views))
}

/// A name that isn't there gets a place.
fn put_place(
    alloc: Global,
    places: &mut HashMap<Vec<u8>, usize>,
    name: &[u8],
    place: usize,
) -> Result<(), AllocError>
    ensures ok { OnOk result ((n : List ℕ) → lookup (λ k. bytes_eq n k.items) places.new.entries ≡ (if bytes_eq n name.now then Some place else lookup (λ k. bytes_eq n k.items) places.old.entries)) }
    ensures err { OnErr result (places.new.entries ≡ places.old.entries) }
{
    let key = Vec::from_slice(alloc, name)?;
    places.insert(key, place)?;
    Ok(())
}

impl Interface {
    /// An interface that declares nothing. It takes no memory.
    pub fn new(alloc: Global) -> Self
        ensures { result ≡ [] }
    {
        Interface {
            alloc,
            names: Vec::new(alloc),
            places: HashMap::new(alloc),
        }
    }

    /// How many names there are.
    pub fn len(&self) -> usize
        ensures { result ≡ length self.now }
    {
        self.names.len()
    }

    /// The i-th name, from 0, with its views.
    pub fn at(&self, i: usize) -> Option<(&[u8], &[View])>
        ensures { option_map (λ named. (named.0.now, named.1.now)) result ≡ slice_get self.now i }
    {
        let named = self.names.get(i)?;
        Some((named.0.as_slice(), named.1.as_slice()))
    }

    /// The place of a name; none if it isn't declared.
    fn place(&self, name: &[u8]) -> Option<usize>
        ensures { result ≡ place_of name.now self.now }
    {
        self.places.get(name).copied()
    }

    /// The views of a name; none if it isn't declared.
    pub fn views(&self, name: &[u8]) -> &[View]
        ensures { result.now ≡ views_of self.now name.now }
    {
        let Some(place) = self.place(name) else {
            return &[];
        };
        match self.at(place) {
            Some((_, views)) => views,
            None => &[],
        }
    }

    /// Adds a view of the name at this place.
    fn declare_at(&mut self, name: &[u8], place: usize, view: View) -> Result<(), AllocError>
        requires { place_of name.now self.old ≡ Some place }
        ensures ok { OnOk result (self.new ≡ with_view self.old name.now view) }
        ensures err { OnErr result (self.new ≡ self.old) }
    {
        self.names[place].1.push(view)?;
        Ok(())
    }

    /// A new name with a view, which goes last.
    fn declare_new(&mut self, name: &[u8], view: View) -> Result<(), AllocError>
        requires { place_of name.now self.old ≡ None }
        ensures ok { OnOk result (self.new ≡ with_view self.old name.now view) }
        ensures err { OnErr result (self.new ≡ self.old) }
    {
        let place = self.names.len();
        let made = named(self.alloc, name, view)?;
        self.names.push(made)?;
        if let Err(error) = put_place(self.alloc, &mut self.places, name, place) {
            let _made = self.names.pop();
            return Err(error);
        }
        Ok(())
    }

    /// Declares one more view of a name, after the name's views. A new name comes last.
    ///
    /// # Errors
    ///
    /// `AllocError` if the allocator refuses memory. Nothing has changed then.
    pub fn declare(&mut self, name: &[u8], view: View) -> Result<(), AllocError>
        ensures ok { OnOk result (self.new ≡ with_view self.old name.now view) }
        ensures err { OnErr result (self.new ≡ self.old) }
    {
        match self.place(name) {
            Some(place) => self.declare_at(name, place, view),
            None => self.declare_new(name, view),
        }
    }
}
