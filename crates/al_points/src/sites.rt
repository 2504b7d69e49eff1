// Where declarations stand that names mean.
use crate::declaring::{declared_at, has_view};
use crate::looking::{Meaning, is_before, meant_at};
use crate::named::{Named, name_at};
use crate::words::{unit_words, words_of};
use crate::world::{Unit, World, unit_in};
use al_base::{Name, NoMemory, Place, UnitKey, UnitKind};
use al_query::{Answers, Query, ReadLog};
use al_tree::{CompoundName, LibraryItem, Specification};
use al_view::{Symbol, View, ViewKind, copied_unit, is_unit};

/// A place in the source of a unit.
pub struct Site {
    pub unit: UnitKey,
    pub place: Place,
}

impl Drop for Site {
    fn drop(self) {
        let Site { unit: _, place: _ } = self;
    }
}

impl Site {
    /// Whether two are one.
    pub fn is(&self, other: &Site) -> bool {
        is_unit(&self.unit, &other.unit) && self.place == other.place
    }
}

/// A declaration that a name may mean.
pub struct Meant {
    /// Where it stands; nothing where no source has it.
    pub site: Option<Site>,
    /// The declaration in Ada's words.
    pub words: Vec<u8>,
}

impl Drop for Meant {
    fn drop(self) {
        let Meant { site: _, words: _ } = self;
    }
}

pub(crate) fn has_site(meant: &[Meant], site: &Site) -> bool {
    for one in meant {
        if let Some(other) = &one.site {
            if other.is(site) {
                return true;
            }
        }
    }
    false
}

// The symbol of a declaration, where its view tells it.
fn symbol_of(view: &View) -> Option<&Symbol> {
    match view.kind() {
        ViewKind::OfSubprogram(of) => Some(&of.symbol),
        ViewKind::OfTask(of) => Some(&of.symbol),
        ViewKind::OfProtected(of) => Some(&of.symbol),
        ViewKind::OfPackage(symbol) => Some(symbol),
        _ => None,
    }
}

fn last_place(name: &CompoundName) -> Place {
    match name.selectors.as_slice() {
        [.., last] => last.place,
        [] => name.first.place,
    }
}

fn name_in(specification: &Specification) -> &CompoundName {
    match specification {
        Specification::Procedure(_, name, _) => name,
        Specification::Function(_, name, _, _, _) => name,
    }
}

// The place of the identifier that a library item declares.
fn item_place(item: &LibraryItem) -> Place {
    match item {
        LibraryItem::Subprogram(_, of) => last_place(name_in(of)),
        LibraryItem::Package(_, _, of) => last_place(&of.name),
        LibraryItem::Body(of, _) => last_place(name_in(of)),
        LibraryItem::PackageBody(_, of) => last_place(&of.name),
        LibraryItem::Subunit(_, _, _, of, _) => last_place(name_in(of)),
    }
}

// The units whose answers have a declaration under a name.
fn units_with<'a>(log: &'a ReadLog, last: &[u8], view: &View, at: usize) -> Option<&'a UnitKey> {
    for i in at..log.len() {
        if let Some(
            (
                Query::Named {
                    unit,
                    part: _,
                    name,
                },
                answer,
            ),
        ) = log.at(i)
        {
            if name.as_slice() == last && has_view(answer.views(), view) {
                return Some(unit);
            }
        }
    }
    None
}

impl<A: Answers> World<'_, A> {
    // Where a unit declares what is visible under a name.
    fn site_in(
        &self,
        unit: &Unit,
        name: &Named,
        view: &View,
        before: Option<Place>,
    ) -> Result<Option<Site>, NoMemory> {
        let (key, tree) = (&unit.key, &unit.tree);
        match declared_at(self.alloc, key, tree, self.table, name, view, before)? {
            Some(place) => Ok(Some(Site {
                unit: copied_unit(self.alloc, key)?,
                place,
            })),
            None => Ok(None),
        }
    }

    // .. in one of the units that were asked.
    fn site_asked(
        &self,
        meaning: &Meaning,
        name: &Named,
        view: &View,
    ) -> Result<Option<Site>, NoMemory> {
        let Some(key) = units_with(&meaning.found.log, name.last.as_slice(), view, 0) else {
            return Ok(None);
        };
        match self.unit(key)? {
            Some(unit) => self.site_in(&unit, name, view, None),
            None => Ok(None),
        }
    }

    // The site of a unit that is a declaration itself.
    fn site_alone(&self, name: &Named, view: &View) -> Result<Option<Site>, NoMemory> {
        let Some(symbol) = symbol_of(view) else {
            return Ok(None);
        };
        let Some(unit) = self.unit(&symbol.unit)? else {
            return Ok(None);
        };
        match self.site_in(&unit, name, view, None)? {
            Some(site) => Ok(Some(site)),
            None => Ok(Some(Site {
                unit: copied_unit(self.alloc, &unit.key)?,
                place: item_place(&unit.tree.item),
            })),
        }
    }

    // Where a declaration stands that a name of a unit may mean.
    fn site_of(
        &self,
        unit: &Unit,
        name: &Named,
        meaning: &Meaning,
        view: &View,
    ) -> Result<Option<Site>, NoMemory> {
        let is_simple = name.key.len() == name.last.len();
        let before = Some(name.token.span.place);
        if is_simple {
            if let Some(site) = self.site_in(unit, name, view, before)? {
                return Ok(Some(site));
            }
        }
        if let Some(site) = self.site_asked(meaning, name, view)? {
            return Ok(Some(site));
        }
        if !is_simple {
            if let Some(site) = self.site_in(unit, name, view, before)? {
                return Ok(Some(site));
            }
        }
        self.site_alone(name, view)
    }

    // The unit of this name: its declaration, or its body if it has none.
    fn unit_named(&self, name: &[u8]) -> Result<Option<Unit>, NoMemory> {
        for kind in [UnitKind::Decl, UnitKind::Body] {
            let name = Name::from_slice(self.alloc, name)?;
            if let Some(unit) = self.unit(&UnitKey { name, kind })? {
                return Ok(Some(unit));
            }
        }
        Ok(None)
    }

    // What a name of a context clause or of a unit's heading means: a unit of the library.
    fn meant_as_unit(&self, unit: &Unit, name: &Named) -> Result<Vec<Meant>, NoMemory> {
        let mut list = Vec::new(self.alloc);
        if is_before(item_place(&unit.tree.item), name.first) {
            return Ok(list);
        }
        if let Some(of) = self.unit_named(name.key.as_slice())? {
            let site = Site {
                unit: copied_unit(self.alloc, &of.key)?,
                place: item_place(&of.tree.item),
            };
            let words = unit_words(self.alloc, name.key.as_slice(), &of.tree.item)?;
            list.push(Meant {
                site: Some(site),
                words,
            })?;
        }
        Ok(list)
    }

    /// The declarations that a name of a unit may mean, with their places: of one that declares a formal or a component itself.
    ///
    /// # Errors
    ///
    /// `NoMemory` if the allocator refuses memory.
    pub(crate) fn meant_by(&self, unit: &Unit, name: &Named) -> Result<Vec<Meant>, NoMemory> {
        let list = self.visible_by(unit, name)?;
        let Some(words) = &name.defined else {
            return Ok(list);
        };
        let site = Site {
            unit: copied_unit(self.alloc, &unit.key)?,
            place: name.token.span.place,
        };
        if has_site(list.as_slice(), &site) {
            return Ok(list);
        }
        let mut own = Vec::new(self.alloc);
        let words = Vec::from_slice(self.alloc, words.as_slice())?;
        own.push(Meant {
            site: Some(site),
            words,
        })?;
        Ok(own)
    }

    // The declarations that are visible under a name of a unit, with their places.
    fn visible_by(&self, unit: &Unit, name: &Named) -> Result<Vec<Meant>, NoMemory> {
        let (key, tree) = (&unit.key, &unit.tree);
        let names = std::slice::from_ref(name);
        let meanings = meant_at(self.alloc, key, tree, self.table, names)?;
        if meanings.is_empty() {
            return self.meant_as_unit(unit, name);
        }
        let mut list = Vec::new(self.alloc);
        for meaning in meanings.as_slice() {
            for view in meaning.shown() {
                let site = self.site_of(unit, name, meaning, view)?;
                let words = words_of(self.alloc, name.last.as_slice(), view)?;
                list.push(Meant { site, words })?;
            }
        }
        Ok(list)
    }

    /// The declarations that the name at an offset of a text may mean: all that are visible under it where it stands. None where the text is no unit.
    ///
    /// # Errors
    ///
    /// `NoMemory` if the allocator refuses memory.
    pub fn meant(&self, text: &[u8], offset: usize) -> Result<Vec<Meant>, NoMemory> {
        let Some(name) = name_at(self.alloc, text, offset)? else {
            return Ok(Vec::new(self.alloc));
        };
        let Some(unit) = unit_in(self.alloc, text)? else {
            return Ok(Vec::new(self.alloc));
        };
        self.meant_by(&unit, &name)
    }
}
