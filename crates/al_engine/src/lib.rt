//! A library of compilation units: its files are edited and built again and again. A build checks again only what an edit reaches, and links what the
//! checks give. All of this is for every checker of units (`UnitCheck`) and every way of reading files ([`ReadFiles`]).
//!
//! - An *entry* of a unit has the source that was checked, the look-ups of the check with their *answers*, and the result. The *reads law* says that
//!   the check gives this result whenever the look-ups have these answers. A *mark* at a stored answer says that it isn't the answer now.
//! - A unit is *sound* if no error was found in it. A build *reaches* a unit that breaks no rule of the graph and depends only on sound units. A unit
//!   *moved* if the build made an entry of it, or if it is reached now and wasn't before, or the other way round.
//! - A build ends by *settling* its entries; then they are those of the last build. It can be *cancelled* before, and then everything is as the last
//!   build left it.
//!
//! The modules, from files to the library:
//! - `read_files`, `reading`, `alike` and `headers`: files as a build reads them, and which of them have another source than in the last build.
//! - `graph` and `graphs`: the graph of the units, and what is taken over of the last build's graph. `edits` and `edited`: which units alone were
//!   edited.
//! - `kept_units`, `checking`, `rechecking`, `renewing`, `walking` and `sorted`: the entries, and which units a build checks.
//! - `planning`, `planned`, `batch_renewing`, `orders`, `placing`, `objects` and `names`: what is to be linked. `linking` and `compiled`: the image.
//! - `earlier` and `concluding`: what is kept of an earlier build behind builds that found errors.
//! - `rebuilding`, `building` and `last_build`: a whole build. `engine`, `gave` and `answer`: the library and what it reports.
//! - `laws` and the modules whose names end in `_laws`: what is proved of all builds.
#![tactic(auto)]

mod alike;
mod answer;
pub mod batch_laws;
mod batch_renewing;
mod building;
mod checking;
pub mod closed_laws;
pub mod code_symbols_laws;
mod compiled;
mod concluding;
mod earlier;
mod edited;
mod edits;
mod engine;
mod gave;
mod graph;
pub mod graph_laws;
mod graphs;
mod headers;
mod kept_units;
mod last_build;
pub mod laws;
pub mod link_closed_laws;
pub mod link_needed_laws;
mod linking;
mod names;
mod objects;
mod orders;
mod placing;
mod planned;
mod planning;
mod read_files;
mod reading;
mod reasons;
pub mod rebuild_laws;
mod rebuilding;
pub mod recheck_laws;
mod rechecking;
mod renewing;
mod sorted;
mod walking;

pub use alike::{Edited, edited_between, have_same_files, is_read_as, note};
pub use answer::{BuildAnswer, answer_of};
pub use batch_renewing::renewed;
pub use checking::check_library;
pub use compiled::{Compiled, Program};
pub use earlier::{Base, Earlier};
pub use edited::EditedUnit;
pub use engine::Engine;
pub use gave::{diagnostics_of, files_reported, order_of, program_of};
pub use graph::UnitGraph;
pub use kept_units::UnitCache;
pub use placing::placed;
pub use planned::{Partition, Planned, Renewal};
pub use planning::plan;
pub use read_files::ReadFiles;
pub use reasons::{Change, Reason, reason_of, reasons_of};
pub use rebuilding::{PreparedBuild, Rebuilt, Standing, prepare};
pub use rechecking::{Rechecked, recheck};
