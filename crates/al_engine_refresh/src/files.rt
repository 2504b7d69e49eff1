// The diagnostics of a library's files.
ghost use Rattle.std.specs.Prelude.{◌≡◌, ◌++◌, [], map, Some, IfOk, IfSome, IsTrue, MatchOption, OnOk};
ghost use Rattle.std.specs.Map.{keys_of};
ghost use Rattle.std.specs.Option.{option_copied, option_map};
ghost use Rattle.al_base.specs.Batch.{finding_of};
ghost use Rattle.al_unit_graph.specs.Headers.{key_of_unit};
ghost use Rattle.al_unit_graph.specs.Views.{contents_model, header_model};
ghost use Rattle.al_unit_faults.specs.FilesSeen.{file_faults_model};
ghost use Rattle.al_unit_faults.specs.GraphFaults.{file_faults};
ghost use Rattle.al_query_store.specs.Keyed.{now_at};
ghost use Rattle.al_query_outcome.specs.Equations.{unit_named};
ghost use Rattle.al_query_outcome.specs.Results.{checked_model};
ghost use Rattle.al_engine_refresh.specs.Stored.{outcome_of};
ghost use Rattle.al_engine_refresh.specs.Builds.{results_of};
ghost use Rattle.al_engine_refresh.specs.Found.{AreToldAlone, contents_findings, findings_of, outcome_findings, told_in, told_of};

use crate::finding::{add, add_all, add_ascending};
use crate::{Entry, KeptEntries};
use al_base::{Diagnostic, Name, NoMemory, Place, UnitKey};
use al_query_outcome::Checked;
use al_unit_faults::FileFaults;
use al_unit_graph::{Contents, Header, Sources, kind_of};
use std::alloc::Global;

/// The key of the unit with this header.
fn key_of_header(alloc: Global, header: &Header) -> Result<UnitKey, NoMemory>
    ensures { IfOk result (λ key. key ≡ unit_named (key_of_unit (header_model header.now))) }
{
    Ok(UnitKey {
        name: Name::from_slice(alloc, header.name.as_slice())?,
        kind: kind_of(header.form),
    })
}

/// Adds the diagnostics that the check of a unit gave.
fn add_checked(
    alloc: Global,
    file: &[u8],
    checked: &Checked,
    found: &mut Vec<Diagnostic>,
) -> Result<(), NoMemory>
    ensures { OnOk result (map finding_of found.new.items ≡ map finding_of found.old.items ++ outcome_findings file.now (Some (checked_model checked.now))) }
{
    match checked {
        Checked::Faulty(faults) => add_ascending(alloc, file, faults.as_slice(), found),
        Checked::Sound(_, _) => Ok(()),
    }
}

/// Adds the diagnostics of a unit's outcome. If it has no outcome, it depends on a unit with errors, and this is added.
fn add_outcome(
    alloc: Global,
    file: &[u8],
    held: Option<&Entry>,
    found: &mut Vec<Diagnostic>,
) -> Result<(), NoMemory>
    ensures { OnOk result (map finding_of found.new.items ≡ map finding_of found.old.items ++ outcome_findings file.now (option_map outcome_of (option_copied held.entry))) }
{
    match held {
        None => add(alloc, file, Place { line: 1, col: 1 }, 208, found),
        Some(entry) => add_checked(alloc, file, entry.checked(), found),
    }
}

/// Adds the diagnostics of a file's source and of the outcome of its unit.
fn add_contents(
    alloc: Global,
    entries: &KeptEntries,
    file: &[u8],
    contents: &Contents,
    found: &mut Vec<Diagnostic>,
) -> Result<(), NoMemory>
    ensures { OnOk result (map finding_of found.new.items ≡ map finding_of found.old.items ++ contents_findings (results_of (now_at entries.now)) file.now (contents_model contents.now)) }
{
    match contents {
        Contents::Headed(header) => {
            let key = key_of_header(alloc, header)?;
            add_outcome(alloc, file, entries.get(&key), found)
        }
        Contents::Unread(place, code) => add(alloc, file, *place, *code, found),
    }
}

/// Adds the diagnostics of a file. `faults` are the errors of its unit among the other units.
fn add_file(
    alloc: Global,
    sources: &Sources,
    entries: &KeptEntries,
    file: &[u8],
    faults: &[Diagnostic],
    found: &mut Vec<Diagnostic>,
) -> Result<(), NoMemory>
    ensures { OnOk result (map finding_of found.new.items ≡ map finding_of found.old.items ++ told_of sources.now (results_of (now_at entries.now)) file.now (map finding_of faults.now)) }
{
    if !faults.is_empty() {
        return add_all(alloc, faults, found);
    }
    match sources.source_at(file) {
        Some(source) => add_contents(alloc, entries, file, &source.contents, found),
        None => Ok(()),
    }
}

/// Whether this is another file than the one in question, if it is known which one that is.
fn is_other(alone: Option<&[u8]>, file: &[u8]) -> bool
    ensures { IsTrue result → MatchOption alone.entry ⊥ (λ one. file.now ≡ one.now → ⊥) }
{
    match alone {
        Some(one) => one != file,
        None => false,
    }
}

/// Adds the diagnostics of a file. If `alone` is known, a file of another name has none, and isn't looked at.
fn add_told(
    alloc: Global,
    sources: &Sources,
    entries: &KeptEntries,
    alone: Option<&[u8]>,
    file: &FileFaults,
    found: &mut Vec<Diagnostic>,
) -> Result<(), NoMemory>
    requires { IfSome alone (λ one. (file.now.file ≡ one.now → ⊥) → told_in sources.now (results_of (now_at entries.now)) (file_faults_model file.now) ≡ []) }
    ensures { OnOk result (map finding_of found.new.items ≡ map finding_of found.old.items ++ told_in sources.now (results_of (now_at entries.now)) (file_faults_model file.now)) }
{
    let name = file.file.as_slice();
    if is_other(alone, name) {
        return Ok(());
    }
    add_file(alloc, sources, entries, name, file.faults.as_slice(), found)
}

/// All diagnostics of a library's files, by file, place and number. For each file these are the errors of its unit among the other units, or else
/// those of its source, or else those of the unit's outcome. If it is known that no file but `alone` has any, no other one is looked at.
///
/// # Errors
/// `NoMemory` if the allocator refuses memory.
pub fn findings_of(
    alloc: Global,
    sources: &Sources,
    entries: &KeptEntries,
    faults: &[FileFaults],
    alone: Option<&[u8]>,
) -> Result<Vec<Diagnostic>, NoMemory>
    requires faults { map file_faults_model faults.now ≡ map (λ file. (file, file_faults sources.now file)) (keys_of sources.now) }
    requires alone { IfSome alone (λ one. AreToldAlone sources.now (results_of (now_at entries.now)) one.now) }
    ensures { IfOk result (λ found. map finding_of found.items ≡ findings_of sources.now (results_of (now_at entries.now))) }
{
    let mut found = Vec::new(alloc);
    for file in faults {
        add_told(alloc, sources, entries, alone, file, &mut found)?;
    }
    Ok(found)
}
