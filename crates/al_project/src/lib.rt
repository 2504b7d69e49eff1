//! Project files of GNAT: what of them says which sources there are, and which mains.
//!
//! A project is `project NAME is`, attributes, `end NAME;`. Of the attributes Source_Dirs, Excluded_Source_Files and Main are taken, as literal
//! strings; others and packages are ignored, and named in `ignored`.
#![tactic(auto)]

mod parts;
mod project;
mod reading;

pub use project::{Ignored, Project, ProjectError, ProjectFault};
pub use reading::read_project;
