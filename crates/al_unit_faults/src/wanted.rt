// The files that are there or asked for, as the nodes of a graph: a step leads from a file to each one that its unit asks for.
ghost use Rattle.std.specs.Prelude.{◌≡◌, ◌↔◌, ℕ, ◌+◌, ◌<◌, ◌++◌, ◌∷◌, [], true, length, map, IfOk, OnOk, slice_index_or};
ghost use Rattle.std.specs.List.{Contains};
ghost use Rattle.al_base_graph.specs.Graphs.{Step};
ghost use Rattle.al_unit_graph.specs.Traces.{is_changed};
ghost use Rattle.al_unit_faults.specs.Wanted.{IsAt, AreNumbered, GoesOn, IsWanted, StepsWithin};

use al_base::{Name, NoMemory};
use al_base_graph::Graph;
use al_unit_graph::Sources;
use std::alloc::Global;
use std::collections::BTreeMap;

/// Names of files, each with its number, its place among them, and steps between the numbers.
pub(crate) struct WantedFiles {
    alloc: Global,
    names: Vec<Name>,
    numbers: BTreeMap<Vec<u8>, usize>,
    steps: Vec<(usize, usize)>,
}

impl Drop for WantedFiles {
    fn drop(self) {
        let WantedFiles {
            alloc: _,
            names: _,
            numbers: _,
            steps: _,
        } = self;
    }
}

impl WantedFiles {
    /// A list without files.
    fn new(alloc: Global) -> Self
        ensures names { result.names.items ≡ [] }
        ensures numbers { AreNumbered result.names.items result.numbers.entries }
        ensures steps { result.steps.items ≡ [] }
    {
        WantedFiles {
            alloc,
            names: Vec::new(alloc),
            numbers: BTreeMap::new(alloc),
            steps: Vec::new(alloc),
        }
    }

    /// Adds a file.
    fn add(&mut self, name: &[u8]) -> Result<usize, NoMemory>
        requires { AreNumbered self.old.names.items self.old.numbers.entries }
        ensures names { OnOk result (self.new.names.items ≡ self.old.names.items ++ name.now ∷ []) }
        ensures numbers { OnOk result (AreNumbered self.new.names.items self.new.numbers.entries) }
        ensures steps { OnOk result (self.new.steps.items ≡ self.old.steps.items) }
        ensures number { IfOk result (λ number. IsAt self.new.names.items number name.now) }
    {
        let number = self.names.len();
        self.names.push(Name::from_slice(self.alloc, name)?)?;
        let key = Vec::from_slice(self.alloc, name)?;
        self.numbers.insert(key, number)?;
        Ok(number)
    }

    /// The number of a file, a new one too.
    fn number(&mut self, name: &[u8]) -> Result<usize, NoMemory>
        requires { AreNumbered self.old.names.items self.old.numbers.entries }
        ensures names { OnOk result (GoesOn self.old.names.items self.new.names.items) }
        ensures numbers { OnOk result (AreNumbered self.new.names.items self.new.numbers.entries) }
        ensures steps { OnOk result (self.new.steps.items ≡ self.old.steps.items) }
        ensures number { IfOk result (λ number. IsAt self.new.names.items number name.now) }
    {
        if let Some(number) = self.numbers.get(name) {
            return Ok(*number);
        }
        self.add(name)
    }

    /// The files of a library in their order, without steps.
    fn of_files(alloc: Global, files: &[&[u8]]) -> Result<Self, NoMemory>
        ensures names { IfOk result (λ wanted. wanted.names.items ≡ map (λ f. f.now) files.now) }
        ensures numbers { IfOk result (λ wanted. AreNumbered wanted.names.items wanted.numbers.entries) }
        ensures steps { IfOk result (λ wanted. wanted.steps.items ≡ []) }
    {
        let mut wanted = WantedFiles::new(alloc);
        for file in files {
            wanted.add(file)?;
        }
        Ok(wanted)
    }

    /// Adds what the unit of one file asks for.
    fn add_wants(&mut self, sources: &Sources, from: usize) -> Result<(), NoMemory>
        requires from_in { from < length self.old.names.items }
        requires numbers { AreNumbered self.old.names.items self.old.numbers.entries }
        requires wanted { IsWanted sources.now self.old.names.items self.old.steps.items from }
        ensures names { OnOk result (GoesOn self.old.names.items self.new.names.items) }
        ensures numbers { OnOk result (AreNumbered self.new.names.items self.new.numbers.entries) }
        ensures wanted { OnOk result (IsWanted sources.now self.new.names.items self.new.steps.items (from + 1)) }
    {
        let wanted = sources.wants(self.names[from].as_slice())?;
        for name in &wanted {
            let to = self.number(name.as_slice())?;
            self.steps.push((from, to))?;
        }
        Ok(())
    }

    /// The files of a library and what their units ask for, the files of the library first.
    pub(crate) fn of(alloc: Global, sources: &Sources, files: &[&[u8]]) -> Result<Self, NoMemory>
        ensures names { IfOk result (λ wanted. GoesOn (map (λ f. f.now) files.now) wanted.names.items) }
        ensures wanted { IfOk result (λ wanted. IsWanted sources.now wanted.names.items wanted.steps.items (length wanted.names.items)) }
    {
        let mut wanted = WantedFiles::of_files(alloc, files)?;
        for from in 0..usize::MAX {
            if from >= wanted.names.len() {
                return Ok(wanted);
            }
            wanted.add_wants(sources, from)?;
        }
        Ok(wanted)
    }

    /// The numbers of the files that have another source in an older library, or are there in one of the two alone.
    pub(crate) fn changed(&self, built: &Sources, now: &Sources) -> Result<Vec<usize>, NoMemory>
        ensures { IfOk result (λ numbers. (a : ℕ) → Contains numbers.items a ↔ ((a < length self.now.names.items) × (is_changed built.now now.now (slice_index_or self.now.names.items a []) ≡ true))) }
    {
        let mut numbers = Vec::new(self.alloc);
        for (number, name) in self.names.iter().enumerate() {
            if now.is_changed(built, name.as_slice()) {
                numbers.push(number)?;
            }
        }
        Ok(numbers)
    }

    /// The files as the nodes of a graph.
    pub(crate) fn graph(&self) -> Result<Graph, NoMemory>
        requires { StepsWithin self.now.steps.items (length self.now.names.items) }
        ensures count { IfOk result (λ graph. length graph ≡ length self.now.names.items) }
        ensures steps { IfOk result (λ graph. (a b : ℕ) → Step graph a b ↔ Contains self.now.steps.items (a, b)) }
    {
        let mut graph = Graph::new(self.alloc, self.names.len())?;
        for (from, to) in &self.steps {
            graph.add(*from, *to)?;
        }
        Ok(graph)
    }
}
