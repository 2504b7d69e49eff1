// The sources that were read.
ghost use Rattle.std.specs.Prelude.{◌≡◌, [], IsTrue};

use crate::disk::Stamp;
use std::alloc::Global;
use std::collections::BTreeMap;

/// The stamp of a file before it was read, and whether the file was old then.
#[derive(Clone, Copy)]
pub struct Seen {
    pub stamp: Stamp,
    pub is_old: bool,
}

/// The sources of some folders, by name.
pub struct Sources {
    pub texts: al_base::Files,
    /// The folder of each source.
    pub folders: al_base::Files,
    pub seen: BTreeMap<String, Seen>,
    /// The names that were listed in the folders; none before they were.
    pub listed: Option<Vec<u8>>,
    /// Whether each name that is needed is that of a file.
    pub are_files: bool,
    /// Whether each source could be read.
    pub are_whole: bool,
}

impl Drop for Sources {
    fn drop(self) {
        let Sources {
            texts: _,
            folders: _,
            seen: _,
            listed: _,
            are_files: _,
            are_whole: _,
        } = self;
    }
}

impl Sources {
    /// No sources.
    pub fn new(alloc: Global) -> Sources
        ensures { (result.texts ≡ []) × (result.folders ≡ []) × IsTrue result.are_whole }
    {
        Sources {
            texts: al_base::Files::new(alloc),
            folders: al_base::Files::new(alloc),
            seen: BTreeMap::new(alloc),
            listed: None,
            are_files: true,
            are_whole: true,
        }
    }
}
