// Whether two libraries have the same headers, and which files have different sources.
ghost use Rattle.std.specs.Prelude.{◌≡◌, ◌∷◌, [], ℕ, false, List, IfOk, IfSome, IsTrue, OnOk, Some, map};
ghost use Rattle.std.specs.Bool.{Decides};
ghost use Rattle.std.specs.List.{Contains};
ghost use Rattle.std.specs.Map.{keys_of};
ghost use Rattle.al_unit_graph.specs.Views.{contents_model};
ghost use Rattle.al_engine.specs.GraphGraphs.{HaveSameHeaders, contents_at, unplaced_contents};
ghost use Rattle.al_engine.specs.Texts.{HaveTextsBut, may_differ, text_in};

use crate::headers::same_contents;
use al_base::{Name, NoMemory};
use al_unit_graph::{Contents, Sources};
use std::alloc::Global;

/// The files of a library whose sources may differ from those before.
pub struct Edited {
    pub files: Vec<Name>,
}

impl Drop for Edited {
    fn drop(self) {
        let Edited { files: _ } = self;
    }
}

impl Edited {
    /// No file. It takes no memory.
    pub fn nothing(alloc: Global) -> Edited
        ensures { result.files.items ≡ [] }
    {
        Edited {
            files: Vec::new(alloc),
        }
    }

    /// One file.
    ///
    /// # Errors
    ///
    /// `NoMemory` if the allocator refuses memory.
    pub fn one(alloc: Global, file: &[u8]) -> Result<Edited, NoMemory>
        ensures { IfOk result (λ edited. edited.files.items ≡ file.now ∷ []) }
    {
        let mut edited = Edited::nothing(alloc);
        edited.files.push(Name::from_slice(alloc, file)?)?;
        Ok(edited)
    }
}

/// Whether a file is among these.
fn is_among(files: &[Name], file: &[u8]) -> bool
    ensures { Decides result (Contains files.now file.now) }
{
    for name in files {
        if name.as_slice() == file {
            return true;
        }
    }
    false
}

impl Edited {
    /// Whether the source of a file may differ.
    pub fn has(&self, file: &[u8]) -> bool
        ensures { Decides result (may_differ self.now file.now) }
    {
        is_among(self.files.as_slice(), file)
    }
}

/// Whether these are the same names in the same order.
fn are_same(a: &[&[u8]], b: &[&[u8]]) -> bool
    ensures { IsTrue result → map (λ n. n.now) a.now ≡ map (λ n. n.now) b.now }
{
    a == b
}

// Whether these are the same bytes.
fn is_same_text(a: &[u8], b: &[u8]) -> bool
    ensures { IsTrue result → a.now ≡ b.now }
{
    a == b
}

/// Whether a file has the same source in both libraries, if it is read as the same except for places in both, or is in neither. `None` if it is read
/// as something else.
fn kept_at(old: &Sources, new: &Sources, file: &[u8]) -> Option<bool>
    ensures { IfSome result (λ same. (contents_at old.now file.now ≡ contents_at new.now file.now) × (IsTrue same → text_in old.now file.now ≡ text_in new.now file.now)) }
{
    match (old.source_at(file), new.source_at(file)) {
        (Some(a), Some(b)) => {
            if same_contents(&a.contents, &b.contents) {
                Some(is_same_text(a.text.as_slice(), b.text.as_slice()))
            } else {
                None
            }
        }
        (None, None) => Some(true),
        (Some(_), None) => None,
        (None, Some(_)) => None,
    }
}

/// Whether a file of a library is read as this, except for places.
pub fn is_read_as(old: &Sources, file: &[u8], contents: &Contents) -> bool
    ensures { IsTrue result → contents_at old.now file.now ≡ Some (unplaced_contents (contents_model contents.now)) }
{
    match old.source_at(file) {
        Some(source) => same_contents(&source.contents, contents),
        None => false,
    }
}

/// Whether two libraries have files of the same names.
///
/// # Errors
///
/// `NoMemory` if the allocator refuses memory.
pub fn have_same_files(old: &Sources, new: &Sources) -> Result<bool, NoMemory>
    ensures { IfOk result (λ same. IsTrue same → keys_of old.now ≡ keys_of new.now) }
{
    let files = old.file_names()?;
    let others = new.file_names()?;
    Ok(are_same(files.as_slice(), others.as_slice()))
}

/// Adds a file to those whose sources may differ, unless its source is the same.
///
/// # Errors
///
/// `NoMemory` if the allocator refuses memory. `edited` is then as before.
pub fn note(alloc: Global, file: &[u8], is_same: bool, edited: &mut Edited) -> Result<(), NoMemory>
    ensures kept { OnOk result ((f : List ℕ) → may_differ edited.old f → may_differ edited.new f) }
    ensures noted { OnOk result (is_same ≡ false → may_differ edited.new file.now) }
{
    if is_same {
        return Ok(());
    }
    edited.files.push(Name::from_slice(alloc, file)?)?;
    Ok(())
}

/// The files whose sources may differ, if two libraries have files of the same names, and each is read as the same except for places in both: a unit
/// with the same header, or no unit. `None` otherwise.
///
/// # Errors
///
/// `NoMemory` if the allocator refuses memory.
pub fn edited_between(
    alloc: Global,
    old: &Sources,
    new: &Sources,
) -> Result<Option<Edited>, NoMemory>
    ensures { IfOk result (λ found. IfSome found (λ edited. HaveSameHeaders old.now new.now × HaveTextsBut old.now new.now edited)) }
{
    let are_same = have_same_files(old, new)?;
    if !are_same {
        return Ok(None);
    }
    let files = new.file_names()?;
    let mut edited = Edited::nothing(alloc);
    for file in files.as_slice() {
        let Some(is_same) = kept_at(old, new, file) else {
            return Ok(None);
        };
        note(alloc, file, is_same, &mut edited)?;
    }
    Ok(Some(edited))
}
