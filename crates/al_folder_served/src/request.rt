// What is asked for.
use crate::paths::path_of;
use al_base::Name;
use std::alloc::{AllocError, Global};

/// How a program is run.
#[derive(Clone, Copy)]
pub struct Pace {
    /// The number of instructions between two ticks of the clock.
    pub tick: u32,
    /// The number of steps after which the run ends, if that is limited.
    pub steps: Option<u32>,
}

/// How the files of a program are printed.
#[derive(Clone, Copy)]
pub enum DependsForm {
    /// A rule of make.
    Make,
    /// A graph for Graphviz.
    Dot,
    /// A line for each file.
    Text,
}

/// How diagnostics and results of builds are printed.
#[derive(Clone, Copy, PartialEq, Eq)]
pub enum Form {
    /// For people.
    Text,
    /// One JSON object a line.
    Json,
    /// One document of SARIF 2.1.0 for each main unit.
    Sarif,
}

/// A build that is asked for.
#[derive(Drop)]
pub struct Request<'a> {
    /// The main units, in lower case: one or more.
    pub units: Vec<Name>,
    /// The folders, without doubled separators; none if only the current one is meant.
    pub folders: Vec<String>,
    /// The names of files that are left out.
    pub excluded: Vec<Name>,
    /// The project file, which adds to the request.
    pub project: Option<&'a str>,
    /// Whether all files are read, and not only what the main units need.
    pub all: bool,
    pub run: bool,
    pub order: bool,
    pub plain: bool,
    pub watch: bool,
    /// Whether the image is written over a file that isn't one.
    pub force: bool,
    pub image: Option<&'a str>,
    /// The form in which the files of the program are printed, if that is asked for; then nothing else is done.
    pub depends: Option<DependsForm>,
    /// How diagnostics and results are printed.
    pub form: Form,
    pub pace: Pace,
}

impl Request<'_> {
    /// The folder of this number.
    pub fn folder(&self, number: usize) -> &str {
        match self.folders.get(number) {
            Some(folder) => folder.as_str(),
            None => ".",
        }
    }

    /// The path of a name in the folder of this number.
    ///
    /// # Errors
    ///
    /// `AllocError` if memory runs out.
    pub fn path_in(&self, alloc: Global, number: usize, name: &str) -> Result<String, AllocError> {
        path_of(alloc, self.folder(number), name)
    }

    /// Whether a file is left out.
    pub fn is_excluded(&self, name: &[u8]) -> bool {
        self.excluded.iter().any(|file| file.as_slice() == name)
    }
}

/// A run of an image that is asked for.
#[derive(Clone, Copy)]
pub struct LoadRequest<'a> {
    pub file: &'a str,
    pub pace: Pace,
}
