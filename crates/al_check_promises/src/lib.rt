//! What the check of a unit promises of its result, tested at the end of the check.
//!
//! - A *link* is what the linker places: code, a gate, an entry's body, a flag, words or a protected object, by the symbol of its declaration
//!   (`link_set`, `symbol_set`).
//! - A unit *defines* links (`defines`), *uses* them (`units`, `statements`, `expressions`, `declarations`) and *shows* them to others (`views`,
//!   `shown`, `interfaces`).
//! - It may use its own links, and those that others showed it (`rule`, `allowed`). It *accounts for* a link that it defines, leaves to its body, or
//!   has a stub for (`completed`, `stubs`).
//! - A unit without errors is a `SoundUnit`. `tested` tests it, and `checked` gives the result: the unit if it is what is promised, else E700
//!   (`faults`).
#![tactic(auto)]

mod allowed;
mod checked;
mod code;
mod completed;
mod declarations;
mod defines;
mod expressions;
mod faults;
mod interfaces;
pub mod laws;
mod link_set;
mod rule;
mod shown;
mod statements;
mod stubs;
mod symbol_set;
mod test;
mod tested;
mod units;
mod views;

pub use checked::{SoundUnit, self_checked};
pub use completed::is_complete;
pub use defines::{add_defines, defines_pass};
pub use faults::{not_checked, not_yet};
pub use link_set::LinkSet;
pub use rule::LinkRule;
pub use shown::add_shown;
pub use test::LinkTest;
pub use tested::is_kept;
pub use units::uses_pass;
pub use views::view_passes;
