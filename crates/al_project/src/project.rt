// What a project file says.
use al_base::{NoMemory, Place};
use std::alloc::{AllocError, AllocFailed, Global};

/// Something of a project file that is ignored.
#[derive(Drop)]
pub struct Ignored {
    pub place: Place,
    pub name: Vec<u8>,
}

/// What a project file says.
#[derive(Drop)]
pub struct Project {
    /// The folders of its sources, relative to its own folder; with `/**` at the end those below too. None if it doesn't say.
    pub source_dirs: Option<Vec<Vec<u8>>>,
    pub excluded: Vec<Vec<u8>>,
    pub mains: Vec<Vec<u8>>,
    pub ignored: Vec<Ignored>,
}

impl Project {
    /// A project that says nothing.
    pub fn new(alloc: Global) -> Project {
        Project {
            source_dirs: None,
            excluded: Vec::new(alloc),
            mains: Vec::new(alloc),
            ignored: Vec::new(alloc),
        }
    }
}

/// What is wrong with a project file, and its place.
#[derive(Clone, Copy)]
pub struct ProjectFault {
    pub place: Place,
    pub message: &'static str,
}

/// Why a project file can't be used.
#[derive(Drop)]
pub enum ProjectError {
    Fault(ProjectFault),
    NoMemory,
}

impl From<NoMemory> for ProjectError {
    fn from(_error: NoMemory) -> ProjectError {
        ProjectError::NoMemory
    }
}

impl From<AllocError> for ProjectError {
    fn from(_error: AllocError) -> ProjectError {
        ProjectError::NoMemory
    }
}

impl<T: Drop> From<AllocFailed<T>> for ProjectError {
    fn from(_error: AllocFailed<T>) -> ProjectError {
        ProjectError::NoMemory
    }
}
