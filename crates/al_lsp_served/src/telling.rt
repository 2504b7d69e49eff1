// What is published for files.
ghost use Rattle.std.specs.Prelude.{◌≡◌, ℕ, List, [], ◌∷◌, ◌++◌, IfOk, OnOk, IsTrue, map, is_some, if◌then◌else◌};
ghost use Rattle.std.specs.Str.{bytes_eq};
ghost use Rattle.serde_json.specs.View.{view};
ghost use Rattle.al_base.specs.Batch.{finding_of};
ghost use Rattle.al_lsp_served.specs.Named.{held};
ghost use Rattle.al_lsp_served.specs.Told.{severity_of, is_told, placed, placed_data, list_data, told_one, told_list, told_of, text_had};

use crate::library::DiagnosedLibrary;
use crate::named::put_held;
use crate::workspace::Workspace;
use al_base::{Diagnostic, NoMemory};
use al_base_words::message_of;
use al_lsp::{Position, Range, range_at, uri_of};
use al_lsp_messages::{Shown, shown_value};
use serde_json::{Value, push};
use std::alloc::Global;
use std::collections::BTreeMap;

/// What a client sees of a diagnostic.
#[derive(Clone, Copy, Debug)]
pub struct Placed {
    pub range: Range,
    /// The number of the rule that is broken.
    pub code: u16,
}

fn same_position(a: Position, b: Position) -> bool
    ensures { IsTrue result → a ≡ b }
{
    a.line == b.line && a.column == b.column
}

fn same_placed(a: Placed, b: Placed) -> bool
    ensures { IsTrue result → a ≡ b }
{
    a.code == b.code
        && same_position(a.range.start, b.range.start)
        && same_position(a.range.end, b.range.end)
}

/// Whether two lists are the same.
pub fn same_list(a: &[Placed], b: &[Placed]) -> bool
    ensures { IsTrue result → a.now ≡ b.now }
{
    if a.len() != b.len() {
        return false;
    }
    for (i, placed) in a.iter().enumerate() {
        if !same_placed(*placed, b[i]) {
            return false;
        }
    }
    true
}

/// What is published for a file.
pub struct Told {
    pub uri: String,
    pub list: Vec<Placed>,
}

impl Drop for Told {
    fn drop(self) {
        let Told { uri: _, list: _ } = self;
    }
}

/// What is published for files, by their names; nothing of all others.
pub type Picture = BTreeMap<Vec<u8>, Told>;

// The rule that a unit breaks which depends on faults of others.
const DEPENDS_ON_FAULTS: u16 = 208;

fn severity_of(code: u16) -> u64
    ensures { result ≡ severity_of code }
{
    if code == DEPENDS_ON_FAULTS { 3 } else { 1 }
}

// Whether a diagnostic of this rule is published: of a file that isn't open it isn't, where it only depends on faults of others.
fn is_told(is_open: bool, code: u16) -> bool
    ensures { result ≡ is_told is_open code }
{
    code != DEPENDS_ON_FAULTS || is_open
}

// What a diagnostic says.
fn value_of(alloc: Global, placed: Placed) -> Result<Value, NoMemory>
    ensures { IfOk result (λ v. view v ≡ placed_data placed) }
{
    let shown = Shown {
        range: placed.range,
        severity: severity_of(placed.code),
        message: message_of(placed.code),
    };
    let value = shown_value(alloc, &shown)?;
    Ok(value)
}

fn add_value(alloc: Global, placed: &Placed, values: &mut Vec<Value>) -> Result<(), NoMemory>
    ensures { OnOk result (map view values.new.items ≡ map view values.old.items ++ placed_data placed.now ∷ []) }
{
    let value = value_of(alloc, *placed)?;
    push(values, value)?;
    Ok(())
}

fn add_values(alloc: Global, list: &[Placed], values: &mut Vec<Value>) -> Result<(), NoMemory>
    ensures { OnOk result (map view values.new.items ≡ map view values.old.items ++ map placed_data list.now) }
{
    for placed in list {
        add_value(alloc, placed, values)?;
    }
    Ok(())
}

/// The JSON of what is published for a file.
///
/// # Errors
///
/// `NoMemory` where memory was wanted and not given.
pub fn list_value(alloc: Global, list: &[Placed]) -> Result<Value, NoMemory>
    ensures { IfOk result (λ v. view v ≡ list_data list.now) }
{
    let mut values = Vec::new(alloc);
    add_values(alloc, list, &mut values)?;
    Ok(Value::Array(values))
}

/// What is published for the file of a name.
pub fn list_in<'a>(picture: &'a Picture, name: &[u8]) -> &'a [Placed]
    ensures { result.now ≡ told_of picture.now name.now }
{
    match picture.get(name) {
        Some(told) => told.list.as_slice(),
        None => &[],
    }
}

fn with_placed(told: Told, placed: Placed) -> Result<Told, NoMemory>
    ensures { IfOk result (λ more. more.list.items ≡ told.list.items ++ placed ∷ []) }
{
    let mut told = told;
    told.list.push(placed)?;
    Ok(told)
}

impl<L: DiagnosedLibrary> Workspace<L> {
    /// The text that the library has of a file; nothing where there is no such file.
    pub fn text_of(&self, name: &[u8]) -> &[u8]
        ensures { result.now ≡ text_had self.now.sources.texts name.now }
    {
        match self.sources.texts.get(name) {
            Some(text) => text,
            None => &[],
        }
    }

    fn place(&self, found: &Diagnostic) -> Placed
        ensures { result ≡ placed self.now.counting (text_had self.now.sources.texts (finding_of found.now).file) (finding_of found.now) }
    {
        let text = self.text_of(found.file.as_slice());
        Placed {
            range: range_at(self.counting, text, found.place),
            code: found.code,
        }
    }

    /// The URI of a file: its client's own, else that of its place, else that under which it was published.
    ///
    /// # Errors
    ///
    /// `NoMemory` where memory was wanted and not given.
    pub fn uri_for(&self, before: &Picture, name: &[u8]) -> Result<String, NoMemory> {
        if let Some(document) = self.open.get(name) {
            return Ok(String::from_str(self.alloc, document.uri.as_str())?);
        }
        if let Some(folder) = self.sources.places.get(name) {
            return uri_in(self.alloc, folder, name);
        }
        match before.get(name) {
            Some(told) => Ok(String::from_str(self.alloc, told.uri.as_str())?),
            None => uri_of(self.alloc, name),
        }
    }

    // Takes what is published so far for a file.
    fn take_told(
        &self,
        before: &Picture,
        picture: &mut Picture,
        name: &[u8],
    ) -> Result<Told, NoMemory>
        ensures list { IfOk result (λ told. told.list.items ≡ told_of picture.old name.now) }
        ensures others { (other : List ℕ) → told_of picture.new other ≡ (if bytes_eq name.now other then [] else told_of picture.old other) }
    {
        match picture.remove(name) {
            Some(told) => Ok(told),
            None => {
                let uri = self.uri_for(before, name)?;
                Ok(Told {
                    uri,
                    list: Vec::new(self.alloc),
                })
            }
        }
    }

    // Adds a diagnostic to those of its file.
    fn add_placed(
        &self,
        before: &Picture,
        picture: &mut Picture,
        name: &[u8],
        placed: Placed,
    ) -> Result<(), NoMemory>
        ensures { OnOk result ((other : List ℕ) → told_of picture.new other ≡ told_of picture.old other ++ (if bytes_eq name.now other then placed ∷ [] else [])) }
    {
        let told = self.take_told(before, picture, name)?;
        let more = with_placed(told, placed)?;
        put_held(self.alloc, picture, name, more)
    }

    // Whether a diagnostic is published.
    fn is_shown(&self, found: &Diagnostic) -> bool
        ensures { result ≡ is_told (is_some (held self.now.open (finding_of found.now).file)) (finding_of found.now).code }
    {
        is_told(self.open.contains_key(found.file.as_slice()), found.code)
    }

    // Adds a diagnostic to those of its file, if it is published.
    fn add_found(
        &self,
        before: &Picture,
        picture: &mut Picture,
        found: &Diagnostic,
    ) -> Result<(), NoMemory>
        ensures { OnOk result ((other : List ℕ) → told_of picture.new other
            ≡ told_of picture.old other ++ told_one self.now.counting self.now.sources.texts (λ name. is_some (held self.now.open name)) other (finding_of found.now)) }
    {
        if !self.is_shown(found) {
            return Ok(());
        }
        let placed = self.place(found);
        self.add_placed(before, picture, found.file.as_slice(), placed)
    }

    /// What is to be told of each file.
    ///
    /// # Errors
    ///
    /// `NoMemory` where memory was wanted and not given.
    pub fn picture(&self, before: &Picture) -> Result<Picture, NoMemory>
        ensures { IfOk result (λ picture. (name : List ℕ) → told_of picture name
            ≡ told_list self.now.counting self.now.sources.texts (λ name. is_some (held self.now.open name)) name (L.found self.now.sources.library)) }
    {
        let mut picture = BTreeMap::new(self.alloc);
        for found in self.sources.library.diagnostics() {
            self.add_found(before, &mut picture, found)?;
        }
        Ok(picture)
    }
}

// The URI of a file in a folder.
fn uri_in(alloc: Global, folder: &[u8], name: &[u8]) -> Result<String, NoMemory> {
    let mut path = Vec::from_slice(alloc, folder)?;
    path.push(b'/')?;
    path.extend_from_slice(name)?;
    uri_of(alloc, path.as_slice())
}
