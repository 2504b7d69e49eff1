// The units that depend on themselves (ARM 10.1.1(26)).
ghost use Rattle.std.specs.Prelude.{◌≡◌, ◌<◌, length, map, IfOk, OnOk};
ghost use Rattle.std.specs.List.{All};
ghost use Rattle.std.specs.Map.{keys_of};
ghost use Rattle.al_base.specs.Batch.{key_of};
ghost use Rattle.al_unit_faults.specs.Numbers.{numbers_model, IsNumbering, number_at, node_of, targets, AddsFrom, StepsBelow, TellsCycles, told};

use al_base::{NoMemory, UnitKey, file_name_of};
use al_base_graph::Graph;
use al_unit_graph::Sources;
use std::alloc::Global;
use std::collections::BTreeMap;

/// A number for each file, by its name.
pub(crate) struct Numbers {
    places: BTreeMap<Vec<u8>, usize>,
}

impl Drop for Numbers {
    fn drop(self) {
        let Numbers { places: _ } = self;
    }
}

impl Numbers {
    /// The files by their places in the list.
    pub(crate) fn of(alloc: Global, files: &[&[u8]]) -> Result<Numbers, NoMemory>
        ensures { IfOk result (λ numbers. IsNumbering (map (λ n. n.now) files.now) (length files.now) (numbers_model numbers)) }
    {
        let mut places = BTreeMap::new(alloc);
        for i in 0..files.len() {
            let file = Vec::from_slice(alloc, files[i])?;
            places.insert(file, i)?;
        }
        Ok(Numbers { places })
    }

    /// The number of a file.
    pub(crate) fn at(&self, file: &[u8]) -> Option<usize>
        ensures { result ≡ number_at (numbers_model self.now) file.now }
    {
        self.places.get(file).copied()
    }

    /// The number of the file that holds a unit, if the library has the unit.
    pub(crate) fn of_unit(
        &self,
        alloc: Global,
        sources: &Sources,
        key: &UnitKey,
    ) -> Result<Option<usize>, NoMemory>
        ensures { IfOk result (λ number. number ≡ node_of sources.now (numbers_model self.now) (key_of key.now)) }
    {
        if !sources.has_unit(key) {
            return Ok(None);
        }
        let file = file_name_of(alloc, key)?;
        Ok(self.at(file.as_slice()))
    }
}

impl Numbers {
    /// The numbers of the units on which the unit of a file depends by itself.
    fn targets(&self, alloc: Global, sources: &Sources, file: &[u8]) -> Result<Vec<usize>, NoMemory>
        ensures { IfOk result (λ found. found.items ≡ targets sources.now (numbers_model self.now) file.now) }
    {
        let mut targets = Vec::new(alloc);
        let Some(header) = sources.unit_in(file) else {
            return Ok(targets);
        };
        let keys = sources.dependences(header)?;
        for key in keys.as_slice() {
            if let Some(number) = self.of_unit(alloc, sources, key)? {
                targets.push(number)?;
            }
        }
        Ok(targets)
    }
}

/// Adds steps from a node to each of these.
fn add_steps(graph: &mut Graph, from: usize, targets: &[usize]) -> Result<(), NoMemory>
    requires from_in { from < length graph.old }
    requires targets_in { All (λ to. to < length graph.old) targets.now }
    ensures { OnOk result (AddsFrom graph.old graph.new from targets.now) }
{
    for to in targets {
        graph.add(from, *to)?;
    }
    Ok(())
}

/// The graph of the files, in which steps lead from a unit to those on which it depends by itself.
pub(crate) fn graph_of(
    alloc: Global,
    sources: &Sources,
    files: &[&[u8]],
    numbers: &Numbers,
) -> Result<Graph, NoMemory>
    requires { IsNumbering (map (λ n. n.now) files.now) (length files.now) (numbers_model numbers.now) }
    ensures { IfOk result (λ graph. StepsBelow sources.now (map (λ n. n.now) files.now) (numbers_model numbers.now) (length files.now) graph) }
{
    let mut graph = Graph::new(alloc, files.len())?;
    for i in 0..files.len() {
        let targets = numbers.targets(alloc, sources, files[i])?;
        add_steps(&mut graph, i, targets.as_slice())?;
    }
    Ok(graph)
}

/// The files whose units depend on themselves.
pub(crate) struct Cycles {
    numbers: Numbers,
    flags: Vec<bool>,
}

impl Drop for Cycles {
    fn drop(self) {
        let Cycles {
            numbers: _,
            flags: _,
        } = self;
    }
}

impl Cycles {
    /// The units of a library with these files that depend on themselves.
    pub(crate) fn of(alloc: Global, sources: &Sources, files: &[&[u8]]) -> Result<Cycles, NoMemory>
        requires { map (λ n. n.now) files.now ≡ keys_of sources.now }
        ensures { IfOk result (λ cycles. TellsCycles sources.now cycles) }
    {
        let numbers = Numbers::of(alloc, files)?;
        let graph = graph_of(alloc, sources, files, &numbers)?;
        let flags = graph.on_cycles()?;
        Ok(Cycles { numbers, flags })
    }

    /// Whether the file is one of them.
    pub(crate) fn has(&self, file: &[u8]) -> bool
        ensures { result ≡ told self.now file.now }
    {
        match self.numbers.at(file) {
            Some(number) => matches!(self.flags.get(number), Some(true)),
            None => false,
        }
    }
}
