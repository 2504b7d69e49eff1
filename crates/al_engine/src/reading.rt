// What a build reads of the files.
ghost use Rattle.std.specs.Prelude.{◌≡◌, true, false, IfOk, IfSome, is_some};
ghost use Rattle.al_base.specs.Files.{text_of};
ghost use Rattle.al_engine.specs.GraphGraphs.{HaveSameHeaders};
ghost use Rattle.al_engine.specs.Texts.{HaveTextsBut};
ghost use Rattle.al_engine.specs.Readings.{IsEditedAt};

use crate::Edited;
use crate::last_build::LastBuild;
use crate::read_files::ReadFiles;
use al_base::{Files, Name, NoMemory};
use std::alloc::Global;

/// The present files with what is read in them. What the last build read can be shared.
///
/// # Errors
///
/// `NoMemory` if the allocator refuses memory.
pub(crate) fn read_now<R: ReadFiles>(
    alloc: Global,
    now: &Files,
    last: &Option<LastBuild<R>>,
) -> Result<R, NoMemory>
    ensures { IfOk result (λ read. R.files read ≡ now.now) }
{
    match last {
        Some(last) => R::after(alloc, now, &last.read),
        None => R::of(alloc, now),
    }
}

/// The present files with what is read in them; and which of them may have other sources than in the last build, if each is known to have the same
/// header.
fn read_again<R: ReadFiles>(
    alloc: Global,
    now: &Files,
    last: &Option<LastBuild<R>>,
) -> Result<(R, Option<Edited>), NoMemory>
    ensures files { IfOk result (λ r. R.files r.0 ≡ now.now) }
    ensures edited { IfOk result (λ r. IfSome r.1 (λ e. IfSome last.now (λ b. HaveSameHeaders (R.library (R.files b.read)) (R.library (R.files r.0)) × HaveTextsBut (R.library (R.files b.read)) (R.library (R.files r.0)) e))) }
{
    match last {
        Some(last) => R::again(alloc, now, &last.read),
        None => Ok((R::of(alloc, now)?, None)),
    }
}

/// As [`read_again`], if `alone` is the only file that was edited since the last build, and `spare` is a second copy of what that build read: no
/// other file is looked at.
fn read_edited<R: ReadFiles>(
    alloc: Global,
    now: &Files,
    last: &Option<LastBuild<R>>,
    spare: R,
    alone: &Name,
) -> Result<(R, Option<Edited>), NoMemory>
    requires spare { IfSome last.now (λ b. R.files spare ≡ R.files b.read) }
    requires alone { IfSome last.now (λ b. IsEditedAt (R.files b.read) alone.now now.now) }
    ensures files { IfOk result (λ r. R.files r.0 ≡ now.now) }
    ensures edited { IfOk result (λ r. IfSome r.1 (λ e. IfSome last.now (λ b. HaveSameHeaders (R.library (R.files b.read)) (R.library (R.files r.0)) × HaveTextsBut (R.library (R.files b.read)) (R.library (R.files r.0)) e))) }
{
    match last {
        Some(last) => spare.renew(alloc, now, alone.as_slice(), &last.read),
        None => Ok((R::of(alloc, now)?, None)),
    }
}

/// The present files with what is read in them; and which of them may have other sources than in the last build, if each is known to have the same
/// header.
///
/// # Errors
///
/// `NoMemory` if the allocator refuses memory.
pub(crate) fn read<R: ReadFiles>(
    alloc: Global,
    now: &Files,
    last: &Option<LastBuild<R>>,
    spare: Option<R>,
    alone: &Option<Name>,
) -> Result<(R, Option<Edited>), NoMemory>
    requires spare { IfSome spare (λ s. IfSome last.now (λ b. R.files s ≡ R.files b.read)) }
    requires alone { IfSome alone.now (λ name. IfSome last.now (λ b. IsEditedAt (R.files b.read) name now.now)) }
    ensures files { IfOk result (λ r. R.files r.0 ≡ now.now) }
    ensures edited { IfOk result (λ r. IfSome r.1 (λ e. IfSome last.now (λ b. HaveSameHeaders (R.library (R.files b.read)) (R.library (R.files r.0)) × HaveTextsBut (R.library (R.files b.read)) (R.library (R.files r.0)) e))) }
{
    let Some(name) = alone else {
        return read_again(alloc, now, last);
    };
    match spare {
        Some(spare) => read_edited(alloc, now, last, spare, name),
        None => read_again(alloc, now, last),
    }
}

/// What was read, in which the only edited file is read again; `None` if the allocator refuses memory.
fn renewed<R: ReadFiles>(
    alloc: Global,
    now: &Files,
    before: LastBuild<R>,
    alone: &Name,
    read: &R,
) -> Option<R>
    requires { IsEditedAt (R.files before.read) alone.now now.now }
    ensures { IfSome result (λ spare. R.files spare ≡ now.now) }
{
    let spare = before.into_read();
    match spare.renew(alloc, now, alone.as_slice(), read) {
        Ok((spare, _)) => Some(spare),
        Err(NoMemory) => None,
    }
}

/// A second copy of what a build read, for the next one. It is made from what the build before read, if only one file was edited since. `None` if the
/// allocator refuses memory, or more was edited.
pub(crate) fn read_twice<R: ReadFiles>(
    alloc: Global,
    now: &Files,
    before: Option<LastBuild<R>>,
    alone: &Option<Name>,
    read: &R,
) -> Option<R>
    requires { IfSome alone.now (λ name. IfSome before (λ b. IsEditedAt (R.files b.read) name now.now)) }
    ensures { IfSome result (λ spare. R.files spare ≡ now.now) }
{
    let Some(before) = before else {
        return match R::after(alloc, now, read) {
            Ok(spare) => Some(spare),
            Err(NoMemory) => None,
        };
    };
    match alone {
        Some(name) => renewed(alloc, now, before, name, read),
        None => None,
    }
}

/// The name of the file whose source is set now, if it is there and is the only one that is edited. `None` also if the allocator refuses memory.
pub(crate) fn alone_now(alloc: Global, is_edited: bool, files: &Files, name: &[u8]) -> Option<Name>
    ensures { IfSome result (λ file. (file ≡ name.now) × (is_edited ≡ false) × (is_some (text_of files.now name.now) ≡ true)) }
{
    if is_edited || files.get(name).is_none() {
        return None;
    }
    match Name::from_slice(alloc, name) {
        Ok(name) => Some(name),
        Err(_) => None,
    }
}
