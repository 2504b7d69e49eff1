// What texts of Ada declare.
use crate::ada_library::AdaLibrary;
use al_base::{FileKey, Files, NoMemory};
use al_lsp::Counting;
use al_lsp_listing::{outline_value, unit_in};
use al_lsp_served::{Meant, Points, Proposed, Site, UnitName};
use al_points::World;
use al_query_outcome::UnitCheck;
use serde_json::Value;
use std::alloc::Global;

impl<C: UnitCheck> Points for AdaLibrary<C> {
    fn outline(&self, alloc: Global, counting: Counting, text: &[u8]) -> Result<Value, NoMemory> {
        outline_value(alloc, counting, text)
    }

    fn unit(&self, alloc: Global, text: &[u8]) -> Result<Option<UnitName>, NoMemory> {
        unit_in(alloc, text)
    }

    fn meant(
        &self,
        alloc: Global,
        texts: &Files,
        text: &[u8],
        offset: usize,
    ) -> Result<Vec<Meant>, NoMemory> {
        let table = self.engine.engine().present();
        let world = World {
            alloc,
            table: &table,
            texts,
        };
        let mut list = Vec::new(alloc);
        for meant in world.meant(text, offset)?.as_slice() {
            let site = match &meant.site {
                Some(site) => Some(site_of(alloc, site)?),
                None => None,
            };
            let words = Vec::from_slice(alloc, meant.words.as_slice())?;
            list.push(Meant { site, words })?;
        }
        Ok(list)
    }

    fn references(
        &self,
        alloc: Global,
        texts: &Files,
        text: &[u8],
        offset: usize,
    ) -> Result<Vec<Site>, NoMemory> {
        let table = self.engine.engine().present();
        let world = World {
            alloc,
            table: &table,
            texts,
        };
        let mut list = Vec::new(alloc);
        for site in world.references(text, offset)?.as_slice() {
            list.push(site_of(alloc, site)?)?;
        }
        Ok(list)
    }

    fn proposed(
        &self,
        alloc: Global,
        texts: &Files,
        text: &[u8],
        offset: usize,
    ) -> Result<Vec<Proposed>, NoMemory> {
        let table = self.engine.engine().present();
        let world = World {
            alloc,
            table: &table,
            texts,
        };
        let mut list = Vec::new(alloc);
        for one in world.proposed(text, offset)?.as_slice() {
            let name = Vec::from_slice(alloc, one.name.as_slice())?;
            let words = Vec::from_slice(alloc, one.words.as_slice())?;
            list.push(Proposed { name, words })?;
        }
        Ok(list)
    }
}

// A place with the file of its unit.
fn site_of(alloc: Global, site: &al_points::Site) -> Result<Site, NoMemory> {
    let file = match FileKey::of(site.unit.name.as_slice(), site.unit.kind) {
        Some(file) => Vec::from_slice(alloc, file.as_slice())?,
        None => Vec::new(alloc),
    };
    Ok(Site {
        file,
        place: site.place,
    })
}
