// What a client asks of texts.
ghost use Rattle.std.specs.Prelude.{◌≡◌};
ghost use Rattle.al_lsp_served.specs.Asked.{holds, starts, text_seen};

use crate::library::DiagnosedLibrary;
use crate::locating::name_in;
use crate::points::UnitName;
use crate::workspace::Workspace;
use al_base::NoMemory;
use al_lsp::range_at;
use al_lsp_messages::params::{text_in, uri_in};
use al_lsp_messages::{ListedSymbol, RequestMethod, unit_value};
use serde_json::{Value, push};
use std::collections::BTreeMap;

impl<L: DiagnosedLibrary> Workspace<L> {
    /// The answer to a request about texts; none where the parameters have another form.
    ///
    /// # Errors
    ///
    /// `NoMemory` where memory was wanted and not given.
    pub fn asked(&self, method: RequestMethod, params: &Value) -> Result<Option<Value>, NoMemory> {
        match method {
            RequestMethod::DocumentSymbol => self.document_symbols(params),
            RequestMethod::WorkspaceSymbol => self.workspace_symbols(params),
            RequestMethod::Definition => self.definition(params),
            RequestMethod::Hover => self.hover(params),
            RequestMethod::References => self.references(params),
            RequestMethod::Completion => self.completion(params),
            _ => Ok(None),
        }
    }

    // The text of a file as the client has it: the document's if it is open, else that of the library; nothing where there is no such file.
    fn text_seen(&self, name: &[u8]) -> &[u8]
        ensures { result.now ≡ text_seen self.now.open self.now.sources.texts name.now }
    {
        match self.open.get(name) {
            Some(document) => document.text.as_slice(),
            None => self.text_of(name),
        }
    }

    // The text that a URI names; nothing where it is no file of the folders.
    pub(crate) fn text_named(&self, uri: &str) -> Result<&[u8], NoMemory> {
        match name_in(self.alloc, self.folders.as_slice(), uri)? {
            Some(name) => Ok(self.text_seen(name.as_slice())),
            None => Ok(&[]),
        }
    }

    fn document_symbols(&self, params: &Value) -> Result<Option<Value>, NoMemory> {
        let Some(uri) = uri_in(params) else {
            return Ok(None);
        };
        let text = self.text_named(uri)?;
        let library = &self.sources.library;
        let value = library.outline(self.alloc, self.counting, text)?;
        Ok(Some(value))
    }

    fn workspace_symbols(&self, params: &Value) -> Result<Option<Value>, NoMemory> {
        let Some(query) = text_in(params, "query") else {
            return Ok(None);
        };
        let mut found = Vec::new(self.alloc);
        self.add_units(query.as_bytes(), &mut found)?;
        Ok(Some(Value::Array(found)))
    }

    // Adds the units whose names hold the query, in any case of letters, in the order of their files.
    fn add_units(&self, query: &[u8], found: &mut Vec<Value>) -> Result<(), NoMemory> {
        for (name, text) in self.sources.texts.list()? {
            self.add_unit(query, name, text, found)?;
        }
        Ok(())
    }

    fn add_unit(
        &self,
        query: &[u8],
        name: &[u8],
        text: &[u8],
        found: &mut Vec<Value>,
    ) -> Result<(), NoMemory> {
        let Some(unit) = self.sources.library.unit(self.alloc, text)? else {
            return Ok(());
        };
        if holds(unit.name.as_slice(), query) {
            let value = self.unit_at(&unit, name, text)?;
            push(found, value)?;
        }
        Ok(())
    }

    fn unit_at(&self, unit: &UnitName, name: &[u8], text: &[u8]) -> Result<Value, NoMemory> {
        let selection = range_at(self.counting, text, unit.place);
        let symbol = ListedSymbol {
            name: unit.name.as_slice(),
            kind: unit.kind,
            whole: selection,
            selection,
        };
        let uri = self.uri_for(&BTreeMap::new(self.alloc), name)?;
        Ok(unit_value(self.alloc, &symbol, uri.as_str())?)
    }
}

// Whether a word is somewhere in a name, in any case of letters.
fn holds(name: &[u8], word: &[u8]) -> bool
    ensures { result ≡ holds name.now word.now }
{
    let mut rest = name;
    while let [_, behind @ ..] = rest {
        if starts(rest, word) {
            return true;
        }
        rest = behind;
    }
    starts(&[], word)
}

// Whether a text begins with a word, in any case of letters.
fn starts(text: &[u8], word: &[u8]) -> bool
    ensures { result ≡ starts text.now word.now }
{
    text[..word.len().min(text.len())].eq_ignore_ascii_case(word)
}
