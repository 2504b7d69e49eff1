//! The graph of a library's units, from what each unit says of itself: which file holds which unit, how units depend on one
//! another, what is wrong with them, and which are obsolete.
//!
//! A *header* is what a unit says of itself. A file *asks for* the files of the units that its unit names. The *trace* of a file is
//! the files that it meets in this way, each with its source. A unit is *obsolete* since an older library if it wasn't sound there,
//! its file had a diagnostic there, or its trace was another.
//!
//! - `header`, `source`, `units`, `names`: headers, the files of a library, and which file holds which unit.
//! - `dependence`, `closure`: what a unit depends on and what it needs (ARM 10.1.1(26), 10.2).
//! - `fault`: what is wrong with a unit by itself and with what it names.
//! - `wanted`, `trace`: the files that a unit asks for, and whether one has changed.
//! - `key_list`, `key_set`: keys of units.
//! - `laws`: what holds of these, as contracts of functions without code.
#![tactic(auto)]

mod closure;
mod dependence;
mod fault;
mod header;
mod key_list;
mod key_set;
mod laws;
mod names;
mod source;
mod trace;
mod units;
mod wanted;

pub use dependence::is_subprogram_body;
pub use fault::name_faults;
pub use header::{Header, Mention, UnitForm};
pub use key_set::KeySet;
pub use laws::{name_faults_are_misnames, own_faults_are_broken, traces_are_touched};
pub use names::{ancestors, is_predefined, is_reserved, lineage, parent_of};
pub use source::{Contents, Source, Sources};
pub use units::kind_of;
