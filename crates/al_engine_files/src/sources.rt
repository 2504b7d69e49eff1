// What the graph of units needs of Ada files.
ghost use Rattle.std.specs.Prelude.{◌≡◌, ◌≤◌, ℕ, true, false, List, Some, IfOk, IfSome, IsTrue, MatchOption, OnOk, length};
ghost use Rattle.std.specs.BTreeMap.{insert_entry};
ghost use Rattle.al_base.specs.Files.{name_cmp};
ghost use Rattle.al_unit_graph.specs.Views.{contents_model, source_model};
ghost use Rattle.al_unit.specs.Libraries.{contents_of, library_of, source_of};
ghost use Rattle.al_unit.specs.ReadingSeen.{reading_model};
ghost use Rattle.al_engine.specs.GraphGraphs.{HaveSameHeaders, contents_at, unplaced_contents};
ghost use Rattle.al_engine.specs.Texts.{HaveTextsBut, may_differ};
ghost use Rattle.al_engine_files.specs.AdaFiles.{AreOfTexts, IsKnown, WasKept, WereRead};

use al_base::{Files, Name, NoMemory};
use al_engine::{Edited, have_same_files, is_read_as, note};
use al_unit::{Reading, read};
use al_unit_graph::{Contents, Source, Sources};
use al_unit_header::header_of;
use std::alloc::Global;
use std::rc::Rc;

/// What the graph of units needs of a reading.
fn contents_of(alloc: Global, reading: &Reading) -> Result<Contents, NoMemory>
    ensures { IfOk result (λ contents. contents_model contents ≡ contents_of (reading_model reading.now)) }
{
    match reading {
        Reading::Sentence(unit) => Ok(Contents::Headed(header_of(alloc, unit)?)),
        Reading::Fails(place, code) => Ok(Contents::Unread(*place, *code)),
    }
}

/// What the graph of units needs of a source. The tree that is read in it isn't kept.
fn contents_in(alloc: Global, text: &[u8]) -> Result<Contents, NoMemory>
    requires { length text.now ≤ 1048576 }
    ensures { IfOk result (λ contents. contents_model contents ≡ (source_of text.now).contents) }
{
    let reading = read(alloc, text)?;
    let contents = contents_of(alloc, &reading);
    drop(reading);
    contents
}

/// A file with this source, which is read as `contents`.
fn shared_source(
    alloc: Global,
    text: &Rc<Vec<u8>>,
    contents: Contents,
) -> Result<Rc<Source>, NoMemory>
    ensures { IfOk result (λ source. source_model source.value ≡ record { text = text.now.value.items; contents = contents_model contents }) }
{
    let text = text.clone()?;
    match Rc::new(alloc, Source { text, contents }) {
        Ok(source) => Ok(source),
        Err(_) => Err(NoMemory),
    }
}

/// `Some(false)` if a file was read as this before, except for places: its source differs. `None` if it was read as something else.
fn kept_as(before: &Sources, file: &[u8], contents: &Contents) -> Option<bool>
    ensures { IfSome result (λ same. (contents_at before.now file.now ≡ Some (unplaced_contents (contents_model contents.now))) × (same ≡ false)) }
{
    if is_read_as(before, file, contents) {
        Some(false)
    } else {
        None
    }
}

/// A file with this source, which is read. The second result is `Some(false)` if it is read as before except for places: its source differs.
fn source_read(
    alloc: Global,
    before: &Sources,
    file: &[u8],
    text: &Rc<Vec<u8>>,
) -> Result<(Rc<Source>, Option<bool>), NoMemory>
    requires { length text.now.value.items ≤ 1048576 }
    ensures source { IfOk result (λ held. source_model held.0.value ≡ source_of text.now.value.items) }
    ensures kept { IfOk result (λ held. IfSome held.1 (WasKept before.now file.now text.now.value.items)) }
{
    let contents = contents_in(alloc, text.as_slice())?;
    let kept = kept_as(before, file, &contents);
    let source = shared_source(alloc, text, contents)?;
    Ok((source, kept))
}

/// What is held of a file, if it has this source.
fn held_with<'a>(before: &'a Sources, file: &[u8], text: &[u8]) -> Option<&'a Rc<Source>>
    requires { AreOfTexts before.now }
    ensures source { IfSome result (λ source. source_model source.now.value ≡ source_of text.now) }
    ensures kept { IfSome result (λ _. WasKept before.now file.now text.now true) }
{
    let source = before.shared_at(file)?;
    if source.text.as_slice() != text {
        return None;
    }
    Some(source)
}

/// What is held of a file, if it has this source, which is shared.
fn held_as<'a>(before: &'a Sources, file: &[u8], text: &Rc<Vec<u8>>) -> Option<&'a Rc<Source>>
    requires { AreOfTexts before.now }
    ensures source { IfSome result (λ source. source_model source.now.value ≡ source_of text.now.value.items) }
    ensures kept { IfSome result (λ _. WasKept before.now file.now text.now.value.items true) }
{
    held_with(before, file, text.as_slice())
}

/// A file with this source: shared if the file had this source before, and else read. If it is read as before except for places, the second result
/// says whether it has the same source.
///
/// # Errors
///
/// `NoMemory` if the allocator refuses memory.
pub(crate) fn held_after(
    alloc: Global,
    before: &Sources,
    file: &[u8],
    text: &Rc<Vec<u8>>,
) -> Result<(Rc<Source>, Option<bool>), NoMemory>
    requires texts { AreOfTexts before.now }
    requires text { length text.now.value.items ≤ 1048576 }
    ensures source { IfOk result (λ held. source_model held.0.value ≡ source_of text.now.value.items) }
    ensures kept { IfOk result (λ held. IfSome held.1 (WasKept before.now file.now text.now.value.items)) }
{
    if let Some(source) = held_as(before, file, text) {
        let source = source.clone()?;
        return Ok((source, Some(true)));
    }
    source_read(alloc, before, file, text)
}

/// Adds a file to the edited ones if it is read as before except for places and has another source. Gives whether it is read so.
fn note_kept(
    alloc: Global,
    file: &[u8],
    kept: Option<bool>,
    edited: &mut Edited,
) -> Result<bool, NoMemory>
    ensures kept { OnOk result ((f : List ℕ) → may_differ edited.old f → may_differ edited.new f) }
    ensures noted { IfOk result (λ is. IsTrue is → MatchOption kept ⊥ (λ same. same ≡ false → may_differ edited.new file.now)) }
{
    let Some(is_same) = kept else {
        return Ok(false);
    };
    note(alloc, file, is_same, edited)?;
    Ok(true)
}

/// Reads a file and adds it; also to the edited ones if its source may differ. Gives whether it is known to be read as before, except for places.
fn add_file(
    alloc: Global,
    before: &Sources,
    file: &[u8],
    text: &Rc<Vec<u8>>,
    sources: &mut Sources,
    edited: &mut Edited,
) -> Result<bool, NoMemory>
    requires texts { AreOfTexts before.now }
    requires name { length file.now ≤ 255 }
    requires text { length text.now.value.items ≤ 1048576 }
    ensures sources { OnOk result (sources.new ≡ insert_entry name_cmp sources.old file.now (source_of text.now.value.items)) }
    ensures kept { OnOk result ((f : List ℕ) → may_differ edited.old f → may_differ edited.new f) }
    ensures known { IfOk result (λ is. IsTrue is → IsKnown before.now edited.new (file.now, text.now.value.items)) }
{
    let name = Name::from_slice(alloc, file)?;
    let held = held_after(alloc, before, file, text)?;
    let (source, kept) = held;
    sources.insert(name, source)?;
    let is_alike = note_kept(alloc, file, kept, edited)?;
    Ok(is_alike)
}

// Whether both hold.
fn both(a: bool, b: bool) -> bool
    ensures { IsTrue result → IsTrue a × IsTrue b }
{
    a && b
}

/// Files that were read again, with those whose sources may differ; and whether each is known to be read as before, except for places.
#[derive(Drop)]
struct ReadAgain {
    sources: Sources,
    edited: Edited,
    are_alike: bool,
}

/// Reads all files again.
fn read_each(alloc: Global, files: &Files, before: &Sources) -> Result<ReadAgain, NoMemory>
    requires { AreOfTexts before.now }
    ensures sources { IfOk result (λ r. r.sources ≡ library_of files.now) }
    ensures known { IfOk result (λ r. IsTrue r.are_alike → WereRead before.now r.edited files.now) }
{
    let list = files.shared()?;
    let mut sources = Sources::new(alloc);
    let mut edited = Edited::nothing(alloc);
    let mut are_alike = true;
    for (name, text) in list.iter() {
        let is_alike = add_file(alloc, before, name, text, &mut sources, &mut edited)?;
        are_alike = both(are_alike, is_alike);
    }
    Ok(ReadAgain {
        sources,
        edited,
        are_alike,
    })
}

/// The files with what is read in them. What was read before of a file with the same source is shared.
///
/// # Errors
///
/// `NoMemory` if the allocator refuses memory. Errors in the files are a result.
pub(crate) fn sources_after(
    alloc: Global,
    files: &Files,
    before: &Sources,
) -> Result<Sources, NoMemory>
    requires { AreOfTexts before.now }
    ensures { IfOk result (λ sources. sources ≡ library_of files.now) }
{
    let read = read_each(alloc, files, before)?;
    let ReadAgain {
        sources,
        edited: _,
        are_alike: _,
    } = read;
    Ok(sources)
}

/// The files, as [`sources_after`] gives them. If they have the same names as before, and each has the same header as before except for places, or
/// none again, the second result says which files may have other sources. Nothing is compared for a file that is shared.
///
/// # Errors
///
/// `NoMemory` if the allocator refuses memory. Errors in the files are a result.
pub(crate) fn sources_again(
    alloc: Global,
    files: &Files,
    before: &Sources,
) -> Result<(Sources, Option<Edited>), NoMemory>
    requires { AreOfTexts before.now }
    ensures sources { IfOk result (λ r. r.0 ≡ library_of files.now) }
    ensures edited { IfOk result (λ r. IfSome r.1 (λ edited. HaveSameHeaders before.now r.0 × HaveTextsBut before.now r.0 edited)) }
{
    let read = read_each(alloc, files, before)?;
    let ReadAgain {
        sources,
        edited,
        are_alike,
    } = read;
    let are_same = have_same_files(before, &sources)?;
    if both(are_alike, are_same) {
        Ok((sources, Some(edited)))
    } else {
        Ok((sources, None))
    }
}
