// All that is wrong with the units of a library as a graph.
ghost use Rattle.std.specs.Prelude.{◌≡◌, ◌++◌, ◌∷◌, [], length, map, IfOk, OnOk, is_ok};
ghost use Rattle.std.specs.Map.{keys_of};
ghost use Rattle.al_base.specs.Batch.{finding_of};
ghost use Rattle.al_base_shortage.specs.Counts.{counted};
ghost use Rattle.al_unit_faults.specs.FilesSeen.{file_faults_model};
ghost use Rattle.al_unit_graph.specs.FaultLists.{finding_if};
ghost use Rattle.al_unit_graph.specs.Headers.{Headed, key_of_unit};
ghost use Rattle.al_unit_graph.specs.Library.{held, unit_in};
ghost use Rattle.al_unit_graph.specs.Views.{header_model};
ghost use Rattle.al_unit_faults.specs.Cycles.{depends_on_itself};
ghost use Rattle.al_unit_faults.specs.Numbers.{TellsCycles, told};
ghost use Rattle.al_unit_faults.specs.GraphFaults.{rule_faults, header_faults, file_faults, graph_faults};

use crate::cycles::Cycles;
use crate::order::add_ascending;
use crate::private::add_private_faults;
use al_base::{Diagnostic, Name, NoMemory, Place};
use al_base_shortage::AllocFailures;
use al_unit_graph::{Contents, Header, Sources, name_faults};
use std::alloc::Global;

/// Adds that a unit depends on itself, if it does.
fn add_cycle(
    alloc: Global,
    is_so: bool,
    file: &[u8],
    found: &mut Vec<Diagnostic>,
) -> Result<(), NoMemory>
    ensures { OnOk result (map finding_of found.new.items ≡ map finding_of found.old.items ++ finding_if is_so file.now (record { line = 1; col = 1 }) 203) }
{
    if is_so {
        let file = Name::from_slice(alloc, file)?;
        let place = Place { line: 1, col: 1 };
        found.push(Diagnostic {
            file,
            place,
            code: 203,
        })?;
    }
    Ok(())
}

/// What is wrong with a unit whose name is right.
fn rule_faults(
    alloc: Global,
    sources: &Sources,
    count: usize,
    cycles: &Cycles,
    file: &[u8],
    header: &Header,
    failures: &mut AllocFailures,
) -> Result<Vec<Diagnostic>, NoMemory>
    requires count { count ≡ length sources.now }
    requires cycles { told cycles.now file.now ≡ depends_on_itself sources.now (key_of_unit (header_model header.now)) }
    ensures found { IfOk result (λ found. map finding_of found.items ≡ rule_faults sources.now file.now (header_model header.now)) }
    ensures failures { failures.new ≡ counted (is_ok result) failures.old }
{
    let mut found = sources.own_faults(file, header, failures)?;
    failures.of(add_cycle(alloc, cycles.has(file), file, &mut found))?;
    failures.of(add_private_faults(alloc, sources, count, file, header, &mut found))?;
    Ok(found)
}

/// What is wrong with the name of a file's unit, or else with the unit.
fn header_faults(
    alloc: Global,
    sources: &Sources,
    count: usize,
    cycles: &Cycles,
    file: &[u8],
    header: &Header,
    failures: &mut AllocFailures,
) -> Result<Vec<Diagnostic>, NoMemory>
    requires count { count ≡ length sources.now }
    requires cycles { TellsCycles sources.now cycles.now }
    requires of_file { unit_in sources.now file.now ≡ held file.now (Headed (header_model header.now)) }
    ensures found { IfOk result (λ found. map finding_of found.items ≡ header_faults sources.now file.now (header_model header.now)) }
    ensures failures { failures.new ≡ counted (is_ok result) failures.old }
{
    let found = name_faults(alloc, file, header, failures)?;
    if !found.is_empty() {
        return Ok(found);
    }
    rule_faults(alloc, sources, count, cycles, file, header, failures)
}

/// Adds what is wrong with a file as a unit, by place and number.
#[tactic(auto, unfolding(crate::specs::GraphFaults::file_faults))]
fn add_file_faults(
    alloc: Global,
    sources: &Sources,
    count: usize,
    cycles: &Cycles,
    file: &[u8],
    found: &mut Vec<Diagnostic>,
    failures: &mut AllocFailures,
) -> Result<(), NoMemory>
    requires count { count ≡ length sources.now }
    requires cycles { TellsCycles sources.now cycles.now }
    ensures found { OnOk result (map finding_of found.new.items ≡ map finding_of found.old.items ++ file_faults sources.now file.now) }
    ensures failures { failures.new ≡ counted (is_ok result) failures.old }
{
    let Some(source) = sources.source_at(file) else {
        return Ok(());
    };
    match &source.contents {
        Contents::Headed(header) => {
            let faults = header_faults(alloc, sources, count, cycles, file, header, failures)?;
            failures.of(add_ascending(alloc, file, faults.as_slice(), found))
        }
        Contents::Unread(_, _) => Ok(()),
    }
}

/// All that is wrong with the units of a library's files as a graph, by file, place and number: if the name of a unit is wrong,
/// that it asks for another file (201) or is reserved (207); otherwise units and bodies that aren't there (202), cycles (203),
/// private children that may not be mentioned (204), parents (205), stubs (206) and bodies that don't fit (209). A file that is no
/// unit has none of these.
///
/// # Errors
///
/// `NoMemory` if the allocator refuses memory. `failures` is then one higher, and is unchanged otherwise.
pub fn faults(
    alloc: Global,
    sources: &Sources,
    failures: &mut AllocFailures,
) -> Result<Vec<Diagnostic>, NoMemory>
    ensures found { IfOk result (λ found. map finding_of found.items ≡ graph_faults sources.now) }
    ensures failures { failures.new ≡ counted (is_ok result) failures.old }
{
    let files = failures.of(sources.file_names())?;
    let cycles = failures.of(Cycles::of(alloc, sources, files.as_slice()))?;
    let mut found = Vec::new(alloc);
    for file in files.as_slice() {
        add_file_faults(
            alloc,
            sources,
            files.len(),
            &cycles,
            file,
            &mut found,
            failures,
        )?;
    }
    Ok(found)
}

/// What is wrong with a file as a unit, by place and number.
pub struct FileFaults {
    /// The name of the file.
    pub file: Name,
    /// Its errors, by place and number.
    pub faults: Vec<Diagnostic>,
}

impl Drop for FileFaults {
    fn drop(self) {
        let FileFaults { file: _, faults: _ } = self;
    }
}

/// Adds a file's faults.
fn add_file(all: &mut Vec<FileFaults>, file: FileFaults) -> Result<(), NoMemory>
    ensures { OnOk result (all.new.items ≡ all.old.items ++ file ∷ []) }
{
    all.push(file)?;
    Ok(())
}

/// All that `faults` gives, file by file, in the order of the names, with the files that have no errors too.
///
/// # Errors
///
/// `NoMemory` if the allocator refuses memory. `failures` is then one higher, and is unchanged otherwise.
pub fn faults_by_file(
    alloc: Global,
    sources: &Sources,
    failures: &mut AllocFailures,
) -> Result<Vec<FileFaults>, NoMemory>
    ensures found { IfOk result (λ all. map file_faults_model all.items ≡ map (λ file. (file, file_faults sources.now file)) (keys_of sources.now)) }
    ensures failures { failures.new ≡ counted (is_ok result) failures.old }
{
    let files = failures.of(sources.file_names())?;
    let cycles = failures.of(Cycles::of(alloc, sources, files.as_slice()))?;
    let mut all = Vec::new(alloc);
    for file in files.as_slice() {
        let mut faults = Vec::new(alloc);
        add_file_faults(
            alloc,
            sources,
            files.len(),
            &cycles,
            file,
            &mut faults,
            failures,
        )?;
        let file = failures.of(Name::from_slice(alloc, file))?;
        failures.of(add_file(&mut all, FileFaults { file, faults }))?;
    }
    Ok(all)
}
