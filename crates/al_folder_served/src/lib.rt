//! Folders of sources that are read, built and run, over any library that keeps the contract of [`FolderLibrary`], any [`Disk`] and any two outputs.
//!
//! - A [`Request`] is what the command line asks for (`request`); `projects` adds what a project file says.
//! - [`Screen`] has the two outputs: messages go to one, the output of programs to the other (`screen`, `voice`). `failure` says why the program
//!   can't go on.
//! - [`read_sources`] reads the files that a main unit needs, or all files of the folders, into [`Sources`]: `listing` and `index` list folders,
//!   `mains`, `needed` and `files_needed` find files, `reading` reads them, and `unchanged` sees that nothing changed.
//! - [`build_once`] builds, reports the result and uses the program. [`watch`] does so again and again (`watching`, `bringing`), and [`load`] runs an
//!   image of a file. `depends` prints the files of a program.
//! - `explaining` and `telling` print diagnostics and results, `running` runs a program in parts. `reasons` and `why` say why the items of an order of
//!   elaboration come after others, `orders` prints that. `unit_reasons` prints why a unit was checked.
//!
//! Other libraries can add to this: after each diagnostic in `telling`, between the parts of a run and after it in `running`, and for each command of
//! a watch in `watching`.
#![tactic(auto)]

mod bringing;
mod building;
mod depends;
mod disk;
mod explaining;
mod failure;
mod files_needed;
mod image_files;
mod index;
mod library;
mod listing;
mod mains;
mod needed;
mod orders;
mod paths;
mod projects;
mod reading;
mod reasons;
mod request;
mod running;
mod screen;
mod sources;
mod telling;
mod unchanged;
mod unit_reasons;
mod voice;
mod watching;
mod why;

pub use building::{build_once, worse_of};
pub use disk::{Disk, Listing, PathKind, Stamp, Status};
pub use failure::Failure;
pub use image_files::load;
pub use index::Told;
pub use library::FolderLibrary;
pub use needed::units_named;
pub use paths::{folder_path, path_of};
pub use projects::take_project;
pub use reading::read_sources;
pub use reasons::{Reasons, reasons_of_items};
pub use request::{DependsForm, Form, LoadRequest, Pace, Request};
pub use running::{PART, Run};
pub use screen::Screen;
pub use sources::Sources;
pub use voice::Voice;
pub use watching::{LineSource, watch};
