// The units that depend on a unit that isn't sound, or on one whose file is marked (ARM 10.1.1(26)).
ghost use Rattle.std.specs.Prelude.{◌≡◌, ℕ, Bool, List, length, map, IfOk};
ghost use Rattle.std.specs.List.{list_any};
ghost use Rattle.std.specs.Map.{keys_of};
ghost use Rattle.al_base.specs.Batch.{key_of};
ghost use Rattle.al_unit_faults.specs.Dependents.{is_flagged, steps_to_flagged, AreGoals, depends, TellsDependents};
ghost use Rattle.al_unit_faults.specs.Numbers.{numbers_model, IsNumbering};

use crate::cycles::{Numbers, graph_of};
use al_base::{NoMemory, UnitKey};
use al_unit_graph::Sources;
use std::alloc::Global;

/// The files whose units depend on a unit that isn't sound, or on one whose file is marked.
pub struct Dependents {
    numbers: Numbers,
    flags: Vec<bool>,
}

impl Drop for Dependents {
    fn drop(self) {
        let Dependents {
            numbers: _,
            flags: _,
        } = self;
    }
}

/// Whether a unit isn't in the library, or its file has a flag.
fn is_flagged(
    alloc: Global,
    sources: &Sources,
    numbers: &Numbers,
    flags: &[bool],
    key: &UnitKey,
) -> Result<bool, NoMemory>
    ensures { IfOk result (λ is. is ≡ is_flagged sources.now (numbers_model numbers.now) flags.now (key_of key.now)) }
{
    match numbers.of_unit(alloc, sources, key)? {
        None => Ok(true),
        Some(number) => Ok(matches!(flags.get(number), Some(true))),
    }
}

/// Whether one of these units is such a one.
fn has_flagged(
    alloc: Global,
    sources: &Sources,
    numbers: &Numbers,
    flags: &[bool],
    keys: &[UnitKey],
) -> Result<bool, NoMemory>
    ensures { IfOk result (λ is. is ≡ list_any (is_flagged sources.now (numbers_model numbers.now) flags.now) (map key_of keys.now)) }
{
    for key in keys {
        if is_flagged(alloc, sources, numbers, flags, key)? {
            return Ok(true);
        }
    }
    Ok(false)
}

/// Whether the unit of a file depends by itself on such a one.
fn steps_to_flagged(
    alloc: Global,
    sources: &Sources,
    numbers: &Numbers,
    flags: &[bool],
    file: &[u8],
) -> Result<bool, NoMemory>
    ensures { IfOk result (λ is. is ≡ steps_to_flagged sources.now (numbers_model numbers.now) flags.now file.now) }
{
    let Some(header) = sources.unit_in(file) else {
        return Ok(false);
    };
    let keys = sources.dependences(header)?;
    has_flagged(alloc, sources, numbers, flags, keys.as_slice())
}

/// The numbers of the files of these units.
fn goals_of(
    alloc: Global,
    sources: &Sources,
    files: &[&[u8]],
    numbers: &Numbers,
    flags: &[bool],
) -> Result<Vec<usize>, NoMemory>
    ensures { IfOk result (λ goals. AreGoals sources.now (map (λ n. n.now) files.now) (numbers_model numbers.now) flags.now (length files.now) goals.items) }
{
    let mut goals = Vec::new(alloc);
    for i in 0..files.len() {
        if steps_to_flagged(alloc, sources, numbers, flags, files[i])? {
            goals.push(i)?;
        }
    }
    Ok(goals)
}

impl Dependents {
    /// The dependents in a library of the files that have a flag; the flags are in the order of the files' names. Each unit is
    /// looked at once.
    ///
    /// # Errors
    ///
    /// `NoMemory` if the allocator refuses memory.
    pub fn of(alloc: Global, sources: &Sources, flags: &[bool]) -> Result<Dependents, NoMemory>
        ensures { IfOk result (λ dependents. (marked : List ℕ → Bool) → flags.now ≡ map marked (keys_of sources.now) → TellsDependents sources.now marked dependents) }
    {
        let files = sources.file_names()?;
        let numbers = Numbers::of(alloc, files.as_slice())?;
        let graph = graph_of(alloc, sources, files.as_slice(), &numbers)?;
        let goals = goals_of(alloc, sources, files.as_slice(), &numbers, flags)?;
        let flags = graph.reaching(goals.as_slice())?;
        Ok(Dependents { numbers, flags })
    }

    /// Whether the file is one of them.
    pub fn has(&self, file: &[u8]) -> bool
        ensures { result ≡ depends self.now file.now }
    {
        match self.numbers.at(file) {
            Some(number) => matches!(self.flags.get(number), Some(true)),
            None => false,
        }
    }
}
