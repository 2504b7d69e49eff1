// What a client asks of places in texts.
use crate::library::DiagnosedLibrary;
use crate::points::{Meant, Proposed, Site};
use crate::workspace::Workspace;
use al_base::NoMemory;
use al_lsp::{offset_of, range_at};
use al_lsp_messages::params::{position_in, uri_in};
use al_lsp_messages::{hover_value, location_value, proposed_value};
use serde_json::{Value, push};
use std::alloc::Global;
use std::collections::BTreeMap;

/// A place that a request is about.
struct Asked<'a> {
    text: &'a [u8],
    offset: usize,
}

impl Drop for Asked<'_> {
    fn drop(self) {
        let Asked { text: _, offset: _ } = self;
    }
}

// The words of all declarations that a name may mean, a line for each.
fn words_of(alloc: Global, meant: &[Meant]) -> Result<Vec<u8>, NoMemory> {
    let mut words = Vec::new(alloc);
    for one in meant {
        if !words.is_empty() {
            words.push(b'\n')?;
        }
        words.extend_from_slice(one.words.as_slice())?;
    }
    Ok(words)
}

fn add_proposed(alloc: Global, one: &Proposed, list: &mut Vec<Value>) -> Result<(), NoMemory> {
    let value = proposed_value(alloc, one.name.as_slice(), one.words.as_slice())?;
    push(list, value)?;
    Ok(())
}

impl<L: DiagnosedLibrary> Workspace<L> {
    fn place_asked(&self, params: &Value) -> Result<Option<Asked<'_>>, NoMemory> {
        let Some(uri) = uri_in(params) else {
            return Ok(None);
        };
        let Some(value) = params.get("position") else {
            return Ok(None);
        };
        let Some(position) = position_in(value) else {
            return Ok(None);
        };
        let text = self.text_named(uri)?;
        let offset = offset_of(self.counting, text, position);
        Ok(Some(Asked { text, offset }))
    }

    // The declarations that the name at a place may mean.
    fn meant(&self, asked: &Asked<'_>) -> Result<Vec<Meant>, NoMemory> {
        let (library, texts) = (&self.sources.library, &self.sources.texts);
        library.meant(self.alloc, texts, asked.text, asked.offset)
    }

    // Adds a place, if there is a file with this name: a text may be another unit than its file's name says.
    fn add_location(&self, site: &Site, list: &mut Vec<Value>) -> Result<(), NoMemory> {
        let Some(text) = self.sources.texts.get(site.file.as_slice()) else {
            return Ok(());
        };
        let uri = self.uri_for(&BTreeMap::new(self.alloc), site.file.as_slice())?;
        let range = range_at(self.counting, text, site.place);
        let value = location_value(self.alloc, uri.as_str(), range)?;
        push(list, value)?;
        Ok(())
    }

    fn add_meant(&self, meant: &[Meant], list: &mut Vec<Value>) -> Result<(), NoMemory> {
        for one in meant {
            if let Some(site) = &one.site {
                self.add_location(site, list)?;
            }
        }
        Ok(())
    }

    pub(crate) fn definition(&self, params: &Value) -> Result<Option<Value>, NoMemory> {
        let Some(asked) = self.place_asked(params)? else {
            return Ok(None);
        };
        let meant = self.meant(&asked)?;
        let mut list = Vec::new(self.alloc);
        self.add_meant(meant.as_slice(), &mut list)?;
        Ok(Some(Value::Array(list)))
    }

    fn add_locations(&self, sites: &[Site], list: &mut Vec<Value>) -> Result<(), NoMemory> {
        for site in sites {
            self.add_location(site, list)?;
        }
        Ok(())
    }

    pub(crate) fn references(&self, params: &Value) -> Result<Option<Value>, NoMemory> {
        let Some(asked) = self.place_asked(params)? else {
            return Ok(None);
        };
        let (library, texts) = (&self.sources.library, &self.sources.texts);
        let sites = library.references(self.alloc, texts, asked.text, asked.offset)?;
        let mut list = Vec::new(self.alloc);
        self.add_locations(sites.as_slice(), &mut list)?;
        Ok(Some(Value::Array(list)))
    }

    pub(crate) fn hover(&self, params: &Value) -> Result<Option<Value>, NoMemory> {
        let Some(asked) = self.place_asked(params)? else {
            return Ok(None);
        };
        let meant = self.meant(&asked)?;
        let words = words_of(self.alloc, meant.as_slice())?;
        if words.is_empty() {
            return Ok(Some(Value::Null));
        }
        Ok(Some(hover_value(self.alloc, words.as_slice())?))
    }

    pub(crate) fn completion(&self, params: &Value) -> Result<Option<Value>, NoMemory> {
        let Some(asked) = self.place_asked(params)? else {
            return Ok(None);
        };
        let (library, texts) = (&self.sources.library, &self.sources.texts);
        let proposed = library.proposed(self.alloc, texts, asked.text, asked.offset)?;
        let mut list = Vec::new(self.alloc);
        for one in proposed.as_slice() {
            add_proposed(self.alloc, one, &mut list)?;
        }
        Ok(Some(Value::Array(list)))
    }
}
