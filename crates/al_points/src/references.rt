// Where names stand that mean a declaration.
use crate::named::{Named, identifiers_in, name_at};
use crate::sites::{Meant, Site, has_site};
use crate::world::{Unit, World, unit_in};
use al_base::NoMemory;
use al_query::Answers;
use al_view::copied_unit;

// Whether two names have a declaration in common.
fn meets(meant: &[Meant], other: &[Meant]) -> bool {
    for one in meant {
        if let Some(site) = &one.site {
            if has_site(other, site) {
                return true;
            }
        }
    }
    false
}

impl<A: Answers> World<'_, A> {
    fn add_reference(
        &self,
        meant: &[Meant],
        unit: &Unit,
        name: &Named,
        list: &mut Vec<Site>,
    ) -> Result<(), NoMemory> {
        let other = self.meant_by(unit, name)?;
        if meets(meant, other.as_slice()) {
            let site = Site {
                unit: copied_unit(self.alloc, &unit.key)?,
                place: name.token.span.place,
            };
            list.push(site)?;
        }
        Ok(())
    }

    // Adds the names of a text that end with this identifier and mean one of the declarations.
    fn add_references(
        &self,
        meant: &[Meant],
        text: &[u8],
        last: &[u8],
        list: &mut Vec<Site>,
    ) -> Result<(), NoMemory> {
        let names = identifiers_in(self.alloc, text, last)?;
        if names.is_empty() {
            return Ok(());
        }
        let Some(unit) = unit_in(self.alloc, text)? else {
            return Ok(());
        };
        for name in names.as_slice() {
            self.add_reference(meant, &unit, name, list)?;
        }
        Ok(())
    }

    /// Where the names stand in all texts, by file and place, that may mean a declaration which the name at an offset of a text may mean.
    ///
    /// # Errors
    ///
    /// `NoMemory` if the allocator refuses memory.
    pub fn references(&self, text: &[u8], offset: usize) -> Result<Vec<Site>, NoMemory> {
        let mut list = Vec::new(self.alloc);
        let Some(name) = name_at(self.alloc, text, offset)? else {
            return Ok(list);
        };
        let meant = self.meant(text, offset)?;
        for (_, other) in self.texts.list()? {
            self.add_references(meant.as_slice(), other, name.last.as_slice(), &mut list)?;
        }
        Ok(list)
    }
}
