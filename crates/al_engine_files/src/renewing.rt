// One file that is read again, among files that are unchanged.
ghost use Rattle.std.specs.Prelude.{◌≡◌, ◌≤◌, ◌∷◌, [], IfOk, IfSome, OnOk, Some, length};
ghost use Rattle.std.specs.BTreeMap.{insert_entry};
ghost use Rattle.al_base.specs.FileLaws.{Ascend};
ghost use Rattle.al_base.specs.Files.{AreFiles, name_cmp};
ghost use Rattle.al_unit_graph.specs.Views.{source_model};
ghost use Rattle.al_unit.specs.Libraries.{library_of, texts_of};
ghost use Rattle.al_engine.specs.Readings.{IsEditedAt};
ghost use Rattle.al_engine.specs.GraphGraphs.{HaveSameHeaders, contents_at, unplaced_contents};
ghost use Rattle.al_engine.specs.Texts.{HaveTextsBut};
ghost use Rattle.al_engine_files.specs.AdaFiles.{AreOfTexts};

use crate::sources::held_after;
use al_base::{Files, Name, NoMemory};
use al_engine::{Edited, is_read_as};
use al_unit_graph::{Source, Sources};
use std::alloc::Global;
use std::rc::Rc;

/// The source of a file in a list, if it is this one.
fn listed<'a>(
    list: &[(&'a [u8], &'a Rc<Vec<u8>>)],
    name: &[u8],
    text: &[u8],
) -> Option<&'a Rc<Vec<u8>>>
    ensures { IfSome result (λ found. found.now.value.items ≡ text.now) }
{
    for (file, held) in list {
        if *file == name && held.as_slice() == text {
            return Some(*held);
        }
    }
    None
}

/// This source of a file, shared with the files.
fn shared_text(
    alloc: Global,
    files: &Files,
    name: &[u8],
    text: &[u8],
) -> Result<Rc<Vec<u8>>, NoMemory>
    ensures text { IfOk result (λ found. found.value.items ≡ text.now) }
    ensures ascend { OnOk result (Ascend files.now) }
    ensures files { OnOk result (AreFiles files.now) }
{
    let list = files.shared()?;
    match listed(list.as_slice(), name, text) {
        Some(held) => Ok(held.clone()?),
        None => Ok(Rc::new(alloc, Vec::from_slice(alloc, text)?)?),
    }
}

/// The edit of one file, if it is read as before except for places; else `None`.
fn edited_at(
    alloc: Global,
    before: &Sources,
    name: &[u8],
    source: &Source,
) -> Result<Option<Edited>, NoMemory>
    ensures { IfOk result (λ edited. IfSome edited (λ e. (e.files.items ≡ name.now ∷ []) × (contents_at before.now name.now ≡ Some (unplaced_contents (source_model source.now).contents)))) }
{
    if is_read_as(before, name, &source.contents) {
        Ok(Some(Edited::one(alloc, name)?))
    } else {
        Ok(None)
    }
}

/// Sets what a file of this name holds.
fn put_in(
    alloc: Global,
    name: &[u8],
    source: Rc<Source>,
    sources: &mut Sources,
) -> Result<(), NoMemory>
    requires { length name.now ≤ 255 }
    ensures { OnOk result (sources.new ≡ insert_entry name_cmp sources.old name.now (source_model source.value)) }
{
    let file = Name::from_slice(alloc, name)?;
    sources.insert(file, source)
}

/// The files of `before`, of which the one of this name is read again. What `other` holds of that file can be shared, if it has the same source
/// there. The second result says that only this file may have another source, if it is read as before except for places.
///
/// # Errors
///
/// `NoMemory` if the allocator refuses memory. An error in the file is a result.
pub(crate) fn sources_renewed(
    alloc: Global,
    files: &Files,
    name: &[u8],
    other: &Sources,
    before: Sources,
) -> Result<(Sources, Option<Edited>), NoMemory>
    requires other { AreOfTexts other.now }
    requires before { AreOfTexts before }
    requires edited { IsEditedAt (texts_of before) name.now files.now }
    ensures sources { IfOk result (λ r. r.0 ≡ library_of files.now) }
    ensures edited { IfOk result (λ r. IfSome r.1 (λ edited. HaveSameHeaders before r.0 × HaveTextsBut before r.0 edited)) }
{
    let Some(text) = files.get(name) else {
        unreachable!();
    };
    let text = shared_text(alloc, files, name, text)?;
    let held = held_after(alloc, other, name, &text)?;
    let (source, _kept) = held;
    let edited = edited_at(alloc, &before, name, &source)?;
    let mut sources = before;
    put_in(alloc, name, source, &mut sources)?;
    Ok((sources, edited))
}
