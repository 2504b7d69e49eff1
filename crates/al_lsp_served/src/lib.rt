//! A language server over any library that keeps the contract of [`DiagnosedLibrary`] and any [`Folders`]: documents over files, one put a
//! change, a check of all files, and what is wrong with each file of which that is something else than the client has.
//!
//! - [`Server`] takes messages one by one, and says what is to be sent.
//! - [`serve`] reads frames, and writes what the server says.
#![tactic(auto)]

mod asking;
mod asking_places;
mod bringing;
mod disk;
mod document;
mod library;
mod locating;
mod named;
mod points;
mod publishing;
mod reading;
mod server;
mod serving;
mod sources;
mod starting;
mod telling;
mod workspace;

pub use disk::{Contents, Folders, SourceFile};
pub use library::DiagnosedLibrary;
pub use points::{Meant, Points, Proposed, Site, UnitName};
pub use server::{Server, Step};
pub use serving::{Ending, Failure, serve};
