// The files of a library are replaced by those that were read.
ghost use Rattle.std.specs.Prelude.{◌≡◌, ◌↔◌, Some, IfErr, IsOk, IsTrue, OnOk};
ghost use Rattle.al_base.specs.FileLaws.{Ascend};
ghost use Rattle.al_base.specs.Files.{text_of};
ghost use Rattle.al_session_served.specs.Library.{with_now};
ghost use Rattle.al_folder_served.specs.Brought.{still_there};
ghost use Rattle.al_folder_served.specs.declared.failure.Failure.TheVariants.{Memory};

use crate::failure::Failure;
use crate::library::FolderLibrary;
use al_base::{Files, Refusal};
use std::alloc::Global;

/// Replaces the files of a library, which are `before`, by `now`: it deletes those that are gone, and puts those that are new or have another source.
/// The library then has the files of `now`, each with its source, and no others; everything else is unchanged.
///
/// # Errors
///
/// `Memory` if memory runs out.
pub fn bring<L: FolderLibrary>(
    alloc: Global,
    library: &mut L,
    before: &Files,
    now: &Files,
) -> Result<(), Failure>
    requires { (L.state library.old).now ≡ before.now }
    ensures ok { OnOk result (L.state library.new ≡ with_now (L.state library.old) now.now) }
    ensures err { IfErr result (λ e. e ≡ Memory) }
{
    delete_gone(library, before, now)?;
    put_changed(alloc, library, before, now)
}

// Deletes the files that are gone.
fn delete_gone<L: FolderLibrary>(
    library: &mut L,
    before: &Files,
    now: &Files,
) -> Result<(), Failure>
    requires { (L.state library.old).now ≡ before.now }
    ensures ok { OnOk result (L.state library.new ≡ with_now (L.state library.old) (still_there now.now before.now)) }
    ensures ascend { OnOk result (Ascend (L.state library.new).now) }
    ensures err { IfErr result (λ e. e ≡ Memory) }
{
    let list = before.shared()?;
    for (name, _text) in list.iter() {
        if now.get(name).is_none() {
            taken(library.delete(name))?;
        }
    }
    Ok(())
}

// Puts the files that are new or have another source.
fn put_changed<L: FolderLibrary>(
    alloc: Global,
    library: &mut L,
    before: &Files,
    now: &Files,
) -> Result<(), Failure>
    requires files { (L.state library.old).now ≡ still_there now.now before.now }
    requires ascend { Ascend (L.state library.old).now }
    ensures ok { OnOk result (L.state library.new ≡ with_now (L.state library.old) now.now) }
    ensures err { IfErr result (λ e. e ≡ Memory) }
{
    let list = now.shared()?;
    for (name, text) in list.iter() {
        if !has_text(before, name, text.as_slice()) {
            taken(library.put(name, Vec::from_slice(alloc, text.as_slice())?))?;
        }
    }
    Ok(())
}

// Whether a file has this source.
fn has_text(files: &Files, name: &[u8], text: &[u8]) -> bool
    ensures { IsTrue result ↔ text_of files.now name.now ≡ Some text.now }
{
    match files.get(name) {
        Some(found) => found == text,
        None => false,
    }
}

// The answer of a library that takes these files, so that it can only run out of memory.
fn taken(answer: Result<(), Refusal>) -> Result<(), Failure>
    requires { IfErr answer (λ e. e ≡ Refusal.NoMemory) }
    ensures ok { OnOk result (IsOk answer) }
    ensures err { IfErr result (λ e. e ≡ Memory) }
{
    match answer {
        Ok(()) => Ok(()),
        Err(_) => Err(Failure::Memory),
    }
}
